// What a message's block says is to be written; the block is laid out as `block::fill` fills it.
ghost use Rattle.std.specs.Prelude.{◌≡◌, ◌<◌};
ghost use Rattle.options.specs.Text.{span_of};
ghost use Rattle.forms.specs.Described.{allowed_in, field_fits, all_fit, is_blank, given_objective};
ghost use Rattle.forms.specs.Described.{described_targets, described_response, described_end};
ghost use Rattle.forms.specs.Described.{described_flood, described_objective, described_kind, described_by};

use description::rows::{LOCATOR_ROW, PAIR_ROW};
use description::{Description, GivenObjective};
use options::Span;
use options::outcome::Outcome;

// The numbers of a block that a message has in 32 or 8 bits.
#[derive(Clone, Copy)]
pub struct Narrow {
    pub session: u32,
    pub ttl: u32,
    pub flags: u8,
    pub count: u8,
}

// What a block says beside a list of so many numbers: a description, or nothing that could be written.
#[tactic(auto, unfolding(crate::specs::Described::described_by, base::specs::Pick::pick))]
pub fn described_by(fields: &[u64; 19], numbers: usize) -> Option<Description>
    ensures { result ≡ described_by fields.now numbers }
{
    let session = fields[1];
    let ttl = fields[4];
    let flags = fields[8];
    let count = fields[9];
    if !all_fit(fields, allowed(fields[0])) {
        return None;
    }
    if 4_294_967_295 < session {
        return None;
    }
    if 4_294_967_295 < ttl {
        return None;
    }
    if 255 < flags {
        return None;
    }
    if 255 < count {
        return None;
    }
    let narrow = Narrow {
        session: session as u32,
        ttl: ttl as u32,
        flags: flags as u8,
        count: count as u8,
    };
    by_kind(fields, numbers, narrow)
}

#[tactic(auto, unfolding(crate::specs::Described::described_kind, base::specs::Pick::pick))]
fn by_kind(fields: &[u64; 19], numbers: usize, n: Narrow) -> Option<Description>
    ensures { result ≡ described_kind fields.now numbers n }
{
    let kind = fields[0];
    if kind == 0 {
        return Some(Description::Noop);
    }
    if kind == 2 {
        return described_response(fields, numbers, n);
    }
    if kind == 6 {
        return described_end(fields, n);
    }
    if kind == 7 {
        return Some(Description::Wait {
            session: n.session,
            time: n.ttl,
        });
    }
    if kind == 9 {
        return described_flood(fields, numbers, n);
    }
    if kind == 99 {
        return Some(Description::Invalid {
            session: n.session,
            item: span(fields[17], fields[18]),
        });
    }
    if fields[5] != 1 {
        return None;
    }
    described_objective(
        kind,
        n,
        span(fields[2], fields[3]),
        given_objective(fields, n),
    )
}

// Kinds 1, 3, 4, 5 and 8, which have an objective.
#[tactic(auto, unfolding(crate::specs::Described::described_objective, base::specs::Pick::pick))]
fn described_objective(
    kind: u64,
    n: Narrow,
    initiator: Span,
    objective: GivenObjective,
) -> Option<Description>
    ensures { result ≡ described_objective kind n initiator objective }
{
    let session = n.session;
    if kind == 1 {
        return Some(Description::Discovery {
            session,
            initiator,
            objective,
        });
    }
    if kind == 3 {
        return Some(Description::RequestNegotiation { session, objective });
    }
    if kind == 4 {
        return Some(Description::RequestSynchronization { session, objective });
    }
    if kind == 5 {
        return Some(Description::Negotiate { session, objective });
    }
    if kind == 8 {
        return Some(Description::Synch { session, objective });
    }
    None
}

#[tactic(auto, unfolding(crate::specs::Described::described_response, base::specs::Pick::pick))]
fn described_response(fields: &[u64; 19], numbers: usize, n: Narrow) -> Option<Description>
    ensures { result ≡ described_response fields.now numbers n }
{
    if fields[15] != (numbers / LOCATOR_ROW) as u64 {
        return None;
    }
    let initiator = span(fields[2], fields[3]);
    if fields[5] == 0 {
        if !is_blank(fields) {
            return None;
        }
        return response(fields[13], n, initiator, None);
    }
    if fields[5] != 1 {
        return None;
    }
    response(fields[13], n, initiator, Some(given_objective(fields, n)))
}

// The places that may hold other numbers than 0, as the bits of a mask, by the kind.
#[tactic(auto, unfolding(crate::specs::Described::allowed_in, base::specs::Pick::pick))]
fn allowed(kind: u64) -> u32
    ensures { result ≡ allowed_in kind }
{
    if kind == 0 {
        return 0x0000_0001;
    }
    if kind == 1 {
        return 0x0000_1bef;
    }
    if kind == 2 {
        return 0x0000_bbff;
    }
    if kind == 6 {
        return 0x0007_0003;
    }
    if kind == 7 {
        return 0x0000_0013;
    }
    if kind == 9 {
        return 0x0000_a01f;
    }
    if kind == 99 {
        return 0x0006_0003;
    }
    0x0000_1be3
}

// Whether each number but 0 stands at a place of the mask.
fn all_fit(fields: &[u64; 19], mask: u32) -> bool
    ensures { result ≡ all_fit fields.now mask }
{
    (0..19).all(|i| field_fits(fields, mask, i))
}

fn field_fits(fields: &[u64; 19], mask: u32, i: usize) -> bool
    requires { i < 19 }
    ensures { result ≡ field_fits fields.now mask i }
{
    if fields[i] == 0 {
        return true;
    }
    (mask >> i) % 2 == 1
}

// The places of an objective that isn't there hold 0.
fn is_blank(fields: &[u64; 19]) -> bool
    ensures { result ≡ is_blank fields.now }
{
    all_fit(fields, 0x0007_e01f)
}

#[tactic(auto, unfolding(crate::specs::Described::described_targets, base::specs::Pick::pick))]
fn response(
    sort: u64,
    n: Narrow,
    initiator: Span,
    extra: Option<GivenObjective>,
) -> Option<Description>
    ensures { result ≡ described_targets sort n initiator extra }
{
    let divert = match sort {
        1 => false,
        2 => true,
        _ => return None,
    };
    Some(Description::Response {
        session: n.session,
        initiator,
        ttl: n.ttl,
        divert,
        extra,
    })
}

#[tactic(auto, unfolding(crate::specs::Described::described_end, base::specs::Pick::pick))]
fn described_end(fields: &[u64; 19], n: Narrow) -> Option<Description>
    ensures { result ≡ described_end fields.now n }
{
    let session = n.session;
    let reason = span(fields[17], fields[18]);
    if fields[16] == 3 {
        return Some(Description::End {
            session,
            outcome: Outcome::Reason(reason),
        });
    }
    if fields[17] != 0 {
        return None;
    }
    if fields[18] != 0 {
        return None;
    }
    if fields[16] == 1 {
        return Some(Description::End {
            session,
            outcome: Outcome::Accept,
        });
    }
    if fields[16] == 2 {
        return Some(Description::End {
            session,
            outcome: Outcome::Decline,
        });
    }
    None
}

#[tactic(auto, unfolding(crate::specs::Described::described_flood, base::specs::Pick::pick))]
fn described_flood(fields: &[u64; 19], numbers: usize, n: Narrow) -> Option<Description>
    ensures { result ≡ described_flood fields.now numbers n }
{
    if fields[13] != 3 {
        return None;
    }
    if fields[15] != (numbers / PAIR_ROW) as u64 {
        return None;
    }
    Some(Description::Flood {
        session: n.session,
        initiator: span(fields[2], fields[3]),
        ttl: n.ttl,
    })
}

fn given_objective(fields: &[u64; 19], n: Narrow) -> GivenObjective
    ensures { result ≡ given_objective fields.now n }
{
    GivenObjective {
        name: span(fields[6], fields[7]),
        flags: n.flags,
        count: n.count,
        value: span(fields[11], fields[12]),
    }
}

fn span(at: u64, len: u64) -> Span
    ensures { result ≡ span_of at len }
{
    Span {
        at: at as usize,
        len: len as usize,
    }
}
