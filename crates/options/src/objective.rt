// Objective options (RFC 8990, section 2.10.1).
ghost use Rattle.std.specs.Prelude.{◌≡◌, ◌+◌, ◌≤◌, ◌<◌, ◌^◌, length};
ghost use Rattle.options.specs.Objective.{long_name, objective_from, objective_named, objective_in, objective_at};

use crate::{Departure, Part, Span};
use cbor::token;
use cbor::token::Token;

// House limit (rules 2.2): how many bytes an objective's name has at most.
pub const MOST_NAME: u64 = 64;

// The head of the loop count begins at `count_at` and ends at `value.at`. A value of 0 bytes is none.
#[derive(Clone, Copy)]
pub struct Objective {
    pub name: Span,
    pub flags: u8,
    pub count: u8,
    pub count_at: usize,
    pub value: Span,
}

// The objective at `at` of the message s; so many levels are open around its value, its own among them.
#[tactic(auto, using(crate::proofs::Fits::objective_past, base::proofs::Parts::rest_is))]
pub fn read_at(levels: usize, s: &[u8], at: usize) -> Result<Part<Objective>, Departure>
    ensures { result ≡ objective_at levels s.now at }
{
    if s.len() < at {
        return Err(Departure { place: at });
    }
    read_in(levels, &s[at..], at)
}

// The objective at the start of s, which stands at `base` of the message.
#[tactic(auto, unfolding(crate::specs::Objective::objective_in, base::specs::Pick::pick))]
pub(crate) fn read_in(levels: usize, s: &[u8], base: usize) -> Result<Part<Objective>, Departure>
    requires { base + length s.now < 2 ^ 63 }
    ensures { result ≡ objective_in levels base s.now }
{
    let a = token::array_at(s, 0);
    if token::items_in(a) == 0 {
        return Err(Departure { place: base });
    }
    let n = token::string_at(s, a.next);
    if n.major != 3 {
        return Err(Departure { place: base + n.at });
    }
    if a.arg < 3 {
        return Err(Departure { place: base });
    }
    if 4 < a.arg {
        return Err(Departure { place: base });
    }
    read_named(levels, s, base, a.arg, n)
}

// An objective of so many items, 3 or 4, from its name on: flags, count and, in four items, a value.
#[tactic(auto, unfolding(crate::specs::Objective::objective_named, base::specs::Pick::pick))]
fn read_named(
    levels: usize,
    s: &[u8],
    base: usize,
    items: u64,
    n: Token,
) -> Result<Part<Objective>, Departure>
    requires fits { base + length s.now < 2 ^ 63 }
    requires within { (n.at ≤ length s.now) × (n.body ≤ n.next) × (n.next ≤ length s.now) }
    ensures { result ≡ objective_named levels base s.now items n }
{
    let f = token::number_at(s, n.next);
    let flags = token::up_to(15, f);
    if 15 < flags {
        return Err(Departure { place: base + f.at });
    }
    let c = token::number_at(s, f.next);
    let count = token::up_to(255, c);
    if 255 < count {
        return Err(Departure { place: base + c.at });
    }
    let from = n.body;
    let to = n.next;
    let bad = crate::bad_text(&s[from..to], base + n.at);
    let long = long_name(n, base + n.at);
    let end = c.next;
    if items == 3 {
        let objective = objective_of(base, n, flags as u8, c, count as u8, 0);
        return Ok(Part {
            value: objective,
            size: end,
            bad,
            long,
        });
    }
    let len = token::size_at(levels, s, end);
    if len == 0 {
        return Err(Departure { place: base + end });
    }
    let objective = objective_of(base, n, flags as u8, c, count as u8, len);
    Ok(Part {
        value: objective,
        size: end + len,
        bad,
        long,
    })
}

// The objective whose name and count these tokens head, with a value of so many bytes after the count.
#[tactic(auto, unfolding(crate::specs::Objective::objective_from))]
fn objective_of(base: usize, n: Token, flags: u8, c: Token, count: u8, len: usize) -> Objective
    requires { (n.body ≤ n.next) × (base + n.next < 2 ^ 63) × (base + c.at < 2 ^ 63)
        × (base + c.next < 2 ^ 63) }
    ensures { result ≡ objective_from base n flags c count len }
{
    Objective {
        name: Span {
            at: base + n.body,
            len: n.next - n.body,
        },
        flags,
        count,
        count_at: base + c.at,
        value: Span {
            at: base + c.next,
            len,
        },
    }
}

// The same objective, field by field: so the compiler carries its numbers in registers, where it would copy a whole one
// from place to place. It stands for the speed of reading, and derives give no such copy.
pub fn copied(o: Objective) -> Objective
    ensures { result ≡ o }
{
    Objective {
        name: Span {
            at: o.name.at,
            len: o.name.len,
        },
        flags: o.flags,
        count: o.count,
        count_at: o.count_at,
        value: Span {
            at: o.value.at,
            len: o.value.len,
        },
    }
}

// `place` where a name has over 64 bytes.
#[tactic(auto, unfolding(crate::specs::Objective::long_name, base::specs::Pick::pick))]
fn long_name(t: Token, place: usize) -> Option<usize>
    ensures { result ≡ long_name t place }
{
    if MOST_NAME < t.arg {
        return Some(place);
    }
    None
}
