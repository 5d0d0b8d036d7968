// The pairs of a Flood (RFC 8990, section 2.8.11): an objective, tagged with a locator or with none.
ghost use Rattle.std.specs.Prelude.{◌≡◌, ◌+◌, ◌≤◌, ◌<◌, ◌^◌, length};
ghost use Rattle.options.specs.Pair.{is_empty, pair_tail, pair_in, pair_at, tag_numbers, pair_numbers};

use crate::locator::Locator;
use crate::objective::Objective;
use crate::{Departure, Part, locator, objective};
use cbor::token;
use cbor::token::Token;

// A pair stands in a message and an objective in a pair: so many levels are open around the objective's value.
const PAIR_LEVELS: usize = 3;

// An objective and what it is tagged with.
#[derive(Clone, Copy)]
pub struct Pair {
    pub objective: Objective,
    pub tag: Option<Locator>,
}

// The pair at `at` of the message s.
#[tactic(auto, using(crate::proofs::Fits::pair_past, base::proofs::Parts::rest_is))]
pub fn read_at(s: &[u8], at: usize) -> Result<Part<Pair>, Departure>
    ensures { result ≡ pair_at s.now at }
{
    if s.len() < at {
        return Err(Departure { place: at });
    }
    read_in(&s[at..], at)
}

// The pair at the start of s, which stands at `base` of the message.
#[tactic(auto, unfolding(crate::specs::Pair::pair_in, crate::specs::Pair::pair_led, base::specs::Pick::pick))]
pub(crate) fn read_in(s: &[u8], base: usize) -> Result<Part<Pair>, Departure>
    requires { base + length s.now < 2 ^ 63 }
    ensures { result ≡ pair_in base s.now }
{
    let a = token::array_at(s, 0);
    if token::items_in(a) == 0 {
        return Err(Departure { place: base });
    }
    let at = a.next;
    let o = objective::read_in(PAIR_LEVELS, &s[at..], base + at)?;
    if a.arg != 2 {
        return Err(Departure { place: base });
    }
    read_tag(s, base, at + o.size, o.value, o.bad, o.long)
}

// A pair's second item, at `at` of the pair's part, after its objective.
#[tactic(auto, unfolding(crate::specs::Pair::pair_tail, crate::specs::Pair::pair_tagged, base::specs::Pick::pick))]
fn read_tag(
    s: &[u8],
    base: usize,
    at: usize,
    objective: Objective,
    bad: Option<usize>,
    long: Option<usize>,
) -> Result<Part<Pair>, Departure>
    requires { (base + length s.now < 2 ^ 63) × (at ≤ length s.now) }
    ensures { result ≡ pair_tail base s.now at objective bad long }
{
    let t = token::array_at(s, at);
    if is_empty(t) {
        return Ok(Part {
            value: Pair {
                objective,
                tag: None,
            },
            size: t.next,
            bad,
            long,
        });
    }
    let l = locator::read_in(&s[at..], base + at)?;
    Ok(Part {
        value: Pair {
            objective,
            tag: Some(l.value),
        },
        size: at + l.size,
        bad: bad.or(l.bad),
        long,
    })
}

// An empty array.
#[tactic(auto, unfolding(crate::specs::Pair::is_empty))]
fn is_empty(t: Token) -> bool
    ensures { result ≡ is_empty t }
{
    if t.major == 4 {
        return t.arg == 0;
    }
    false
}

// A pair as twelve numbers: the place and length of the name, flags, count, the place of the count's head, the place
// and length of the value; then the locator's five, or five zeros.
#[tactic(auto, unfolding(crate::specs::Pair::pair_numbers))]
pub fn numbers_of(o: Objective, tag: Option<Locator>) -> [u64; 12]
    ensures { result ≡ pair_numbers o tag }
{
    let t = tag_numbers(tag);
    [
        o.name.at as u64,
        o.name.len as u64,
        o.flags as u64,
        o.count as u64,
        o.count_at as u64,
        o.value.at as u64,
        o.value.len as u64,
        t[0],
        t[1],
        t[2],
        t[3],
        t[4],
    ]
}

// A tag: its locator, or five zeros.
#[tactic(auto, unfolding(crate::specs::Pair::tag_numbers))]
fn tag_numbers(tag: Option<Locator>) -> [u64; 5]
    ensures { result ≡ tag_numbers tag }
{
    match tag {
        None => [0, 0, 0, 0, 0],
        Some(locator) => locator::numbers_of(locator),
    }
}
