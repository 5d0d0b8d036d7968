// Divert options (RFC 8990, section 2.9.2): 100 and locators.
ghost use Rattle.std.specs.Prelude.{◌≡◌, ◌+◌, ◌≤◌, ◌<◌, ◌^◌, length};
ghost use Rattle.options.specs.Divert.{divert_led, divert_in, divert_at};

use crate::locator::Locator;
use crate::{Departure, Part, locators};
use cbor::token;

// A divert's first locator, the place where that stands and how many there are.
#[derive(Clone, Copy)]
pub struct Divert {
    pub first: Locator,
    pub at: usize,
    pub many: u64,
}

// The divert at `at` of the message s; none where 100 leads nothing there.
#[tactic(auto, using(crate::proofs::Series::divert_past, base::proofs::Parts::rest_is))]
pub fn read_at(s: &[u8], at: usize) -> Result<Option<Part<Divert>>, Departure>
    ensures { result ≡ divert_at s.now at }
{
    if s.len() < at {
        return Ok(None);
    }
    read_in(&s[at..], at)
}

// The divert at the start of s, which stands at `base` of the message.
#[tactic(auto, unfolding(crate::specs::Divert::divert_in, base::specs::Pick::pick))]
pub(crate) fn read_in(s: &[u8], base: usize) -> Result<Option<Part<Divert>>, Departure>
    requires { base + length s.now < 2 ^ 63 }
    ensures { result ≡ divert_in base s.now }
{
    let a = token::array_at(s, 0);
    if token::items_in(a) == 0 {
        return Ok(None);
    }
    let k = token::number_at(s, a.next);
    if token::up_to(100, k) != 100 {
        return Ok(None);
    }
    if a.arg < 2 {
        return Err(Departure { place: base });
    }
    read_locators(s, base, a.arg - 1, k.next)
}

// A divert's locators, so many, from `from` on: a text that leads one of them departs.
#[tactic(auto, unfolding(crate::specs::Divert::divert_led, crate::specs::Divert::divert_of, base::specs::Pick::pick))]
fn read_locators(
    s: &[u8],
    base: usize,
    many: u64,
    from: usize,
) -> Result<Option<Part<Divert>>, Departure>
    requires { (base + length s.now < 2 ^ 63) × (from ≤ length s.now) × (1 ≤ many) }
    ensures { result ≡ divert_led base s.now many from }
{
    let l = locators::read_in(s, base, from, many - 1)?;
    if l.left != 0 {
        let a = token::token_at(s, l.end);
        return Err(Departure {
            place: base + a.next,
        });
    }
    Ok(Some(Part {
        value: Divert {
            first: l.first,
            at: base + from,
            many,
        },
        size: l.end,
        bad: l.bad,
        long: None,
    }))
}
