// Accept and decline options (RFC 8990, sections 2.9.3 and 2.9.4): how a negotiation ends.
ghost use Rattle.std.specs.Prelude.{◌≡◌, ◌+◌, ◌≤◌, ◌<◌, ◌^◌, length};
ghost use Rattle.options.specs.Outcome.{reason_in, outcome_in, outcome_at};

use crate::{Departure, Part, Span};
use cbor::token;

// Accepted, declined, or declined with a reason.
#[derive(Clone, Copy)]
pub enum Outcome {
    Accept,
    Decline,
    Reason(Span),
}

// The accept or decline at `at` of the message s.
#[tactic(auto, using(crate::proofs::Fits::outcome_past, base::proofs::Parts::rest_is))]
pub fn read_at(s: &[u8], at: usize) -> Result<Part<Outcome>, Departure>
    ensures { result ≡ outcome_at s.now at }
{
    if s.len() < at {
        return Err(Departure { place: at });
    }
    read_in(&s[at..], at)
}

// The accept or decline at the start of s, which stands at `base` of the message: by its first item, its number of
// items, and its reason.
#[tactic(auto, unfolding(crate::specs::Outcome::outcome_in, base::specs::Pick::pick))]
pub(crate) fn read_in(s: &[u8], base: usize) -> Result<Part<Outcome>, Departure>
    requires { base + length s.now < 2 ^ 63 }
    ensures { result ≡ outcome_in base s.now }
{
    let a = token::array_at(s, 0);
    if token::items_in(a) == 0 {
        return Err(Departure { place: base });
    }
    let k = token::number_at(s, a.next);
    let lead = token::up_to(102, k);
    if lead < 101 {
        return Err(Departure { place: base + k.at });
    }
    if 102 < lead {
        return Err(Departure { place: base + k.at });
    }
    if lead == 101 {
        if a.arg == 1 {
            return Ok(Part {
                value: Outcome::Accept,
                size: k.next,
                bad: None,
                long: None,
            });
        }
        return Err(Departure { place: base });
    }
    if a.arg == 1 {
        return Ok(Part {
            value: Outcome::Decline,
            size: k.next,
            bad: None,
            long: None,
        });
    }
    if a.arg == 2 {
        return read_reason(s, base, k.next);
    }
    Err(Departure { place: base })
}

// A decline's reason, at `at` of its part.
#[tactic(auto, unfolding(crate::specs::Outcome::reason_in, base::specs::Pick::pick))]
fn read_reason(s: &[u8], base: usize, at: usize) -> Result<Part<Outcome>, Departure>
    requires fits { base + length s.now < 2 ^ 63 }
    requires within { at ≤ length s.now }
    ensures { result ≡ reason_in base s.now at }
{
    let t = token::string_at(s, at);
    if t.major != 3 {
        return Err(Departure { place: base + t.at });
    }
    let from = t.body;
    let to = t.next;
    let bad = crate::bad_text(&s[from..to], base + t.at);
    Ok(Part {
        value: Outcome::Reason(Span {
            at: base + from,
            len: to - from,
        }),
        size: to,
        bad,
        long: None,
    })
}
