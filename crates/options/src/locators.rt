// Locators one after the other: a Response's, or those of its divert.
ghost use Rattle.std.specs.Prelude.{◌≡◌, ◌+◌, ◌≤◌, ◌<◌, ◌^◌, length};
ghost use Rattle.options.specs.Locators.{text_led, locators_from, locators_in, locators_at};

use crate::locator::Locator;
use crate::{Departure, locator};
use cbor::token;

// The first of them, where they end in their part, how many items are left, and the place of the first text that isn't
// UTF-8.
#[derive(Clone, Copy)]
pub struct Locators {
    pub first: Locator,
    pub end: usize,
    pub left: u64,
    pub bad: Option<usize>,
}

// The locator at `at` of the message s, and those after it, `more` at most, up to an array that a text leads.
#[tactic(auto, using(crate::proofs::Series::locators_past, base::proofs::Parts::rest_is))]
pub fn read_at(s: &[u8], at: usize, more: u64) -> Result<Locators, Departure>
    ensures { result ≡ locators_at s.now at more }
{
    if s.len() < at {
        return Err(Departure { place: at });
    }
    read_in(&s[at..], at, 0, more)
}

// The same at `from` of the part s, which stands at `base` of the message.
#[tactic(auto, unfolding(crate::specs::Locators::locators_in, crate::specs::Locators::locators_led))]
pub(crate) fn read_in(s: &[u8], base: usize, from: usize, more: u64) -> Result<Locators, Departure>
    requires fits { base + length s.now < 2 ^ 63 }
    requires within { from ≤ length s.now }
    ensures { result ≡ locators_in base s.now from more }
{
    let l = locator::read_in(&s[from..], base + from)?;
    read_more(s, base, l.value, more, from + l.size, l.bad)
}

// Those after the first, n at most, from `from` on.
fn read_more(
    s: &[u8],
    base: usize,
    first: Locator,
    n: u64,
    from: usize,
    first_bad: Option<usize>,
) -> Result<Locators, Departure>
    requires fits { base + length s.now < 2 ^ 63 }
    requires within { from ≤ length s.now }
    ensures { result ≡ locators_from base s.now first n from first_bad }
{
    let mut at = from;
    let mut bad = first_bad;
    for i in 0..n {
        match locator::read_in(&s[at..], base + at) {
            Ok(l) => {
                at = at + l.size;
                bad = bad.or(l.bad);
            }
            Err(departure) => {
                // No locator is led by a text, so that this is asked only where none was found.
                if text_led(&s[at..]) {
                    return Ok(Locators {
                        first,
                        end: at,
                        left: n - i,
                        bad,
                    });
                }
                return Err(departure);
            }
        }
    }
    Ok(Locators {
        first,
        end: at,
        left: 0,
        bad,
    })
}

// An array that a text leads, at the start of s.
#[tactic(auto, unfolding(crate::specs::Locators::text_led, base::specs::Pick::pick))]
fn text_led(s: &[u8]) -> bool
    ensures { result ≡ text_led s.now }
{
    let a = token::token_at(s, 0);
    if token::items_in(a) == 0 {
        return false;
    }
    let x = token::token_at(s, a.next);
    x.major == 3
}
