// The first whole item of a slice.
ghost use Rattle.std.specs.Prelude.{◌≡◌, List, ◌∷◌, ◌≢◌, ℕ, ◌+◌, ◌≤◌, ◌<◌, length, drop, get_or};
ghost use Rattle.cbor.specs.Item.{opens, step_of, step_at, left_under, first_item};
ghost use Rattle.cbor.specs.Turn.{Counts, TurnIs, CommonIs};

use crate::head;
use refusal::{Refusal, Refused};

// House limit (rules 2.3): how many levels of arrays, maps and tags an item has at most.
pub const MOST_LEVELS: usize = 8;

// A head with its string: passed, `len` bytes with nothing inside; or an array, a map or a tag opened, a head of `len`
// bytes that holds n items, or n pairs of items.
#[derive(Clone, Copy, Debug, PartialEq, Eq)]
pub enum Step {
    Passed(usize),
    Opened { len: usize, n: u64, pairs: bool },
}

// A step with its items counted: an array, a map or a tag opened lacks n items.
#[derive(Clone, Copy, Debug, PartialEq, Eq)]
pub enum Turn {
    Passed(usize),
    Opened { len: usize, n: u64 },
}

// Where the first whole item at the start of s ends, under so many open levels, or the refusal with its place.
pub fn first(levels: usize, s: &[u8]) -> Result<usize, Refused>
    ensures { result ≡ first_item levels s.now }
{
    let most = left_under(levels);
    // What each open level but the innermost still lacks, the outermost first; the innermost one's count is a local,
    // which every head changes.
    let mut outer = [0u64; MOST_LEVELS];
    let mut depth: usize = 0;
    let mut lacking: u64 = 1;
    let mut at: usize = 0;
    loop {
        if lacking == 0 {
            if depth == 0 {
                return Ok(at);
            }
            depth -= 1;
            lacking = outer[depth];
        } else {
            let turn = match turn_at(most - depth, s, at) {
                Ok(turn) => turn,
                Err(Refused { refusal, place }) => {
                    let place = at + place;
                    return Err(Refused { refusal, place });
                }
            };
            match turn {
                Turn::Passed(len) => {
                    at += len;
                    lacking -= 1;
                }
                Turn::Opened { len, n } => {
                    at += len;
                    outer[depth] = lacking - 1;
                    depth += 1;
                    lacking = n;
                }
            }
        }
    }
}

// How many levels may open under so many.
fn left_under(levels: usize) -> usize
    ensures { result ≡ left_under levels }
{
    MOST_LEVELS.saturating_sub(levels)
}

// What the walk does at the head at `at`, where so many levels may open.
fn turn_at(left: usize, s: &[u8], at: usize) -> Result<Turn, Refused>
    requires { at ≤ length s.now }
    ensures { TurnIs (step_at left (drop at s.now)) result }
{
    match common_at(left, s, at) {
        Some(turn) => Ok(turn),
        None => turn_of(step_at(left, &s[at..])),
    }
}

// The head at `at`, where so many levels may open, if it is one that most messages are made of: told by its first
// bytes, so that most turns of the walk are short. Of any other nothing is said.
fn common_at(left: usize, s: &[u8], at: usize) -> Option<Turn>
    ensures { CommonIs left (drop at s.now) result }
{
    if s.len() <= at {
        return None;
    }
    let first = s[at];
    if first < 24 {
        return Some(Turn::Passed(1));
    }
    let rest = s.len() - at - 1;
    if first < 128 {
        if first < 64 {
            return common_number(s, at, rest);
        }
        return common_string(s, at, rest);
    }
    if 224 <= first {
        return common_simple(s, at, rest);
    }
    if left == 0 {
        return None;
    }
    if first < 152 {
        let n = (first - 128) as u64;
        return Some(Turn::Opened { len: 1, n });
    }
    if first < 216 {
        return common_other(first);
    }
    if first == 216 && 0 < rest && 24 <= s[at + 1] {
        return Some(Turn::Opened { len: 2, n: 1 });
    }
    None
}

// A map or a tag in one byte, where a level may open.
fn common_other(first: u8) -> Option<Turn>
    ensures { (left : ℕ) (s : List ℕ) → left ≢ 0 → CommonIs left (first ∷ s) result }
{
    match first {
        160..184 => {
            let n = 2 * (first - 160) as u64;
            Some(Turn::Opened { len: 1, n })
        }
        192..216 => Some(Turn::Opened { len: 1, n: 1 }),
        _ => None,
    }
}

// The head at `at` with `rest` bytes after its first one, where it is a number, below 0 or not. Its width is told by
// halves and not by a `match`: where widths are mixed, a processor foresees tests better than a jump to many places.
fn common_number(s: &[u8], at: usize, rest: usize) -> Option<Turn>
    requires room { at + 1 + rest ≡ length s.now }
    requires number { get_or s.now at 0 < 64 }
    ensures { (left : ℕ) → CommonIs left (drop at s.now) result }
{
    let info = s[at] % 32;
    if info < 24 {
        return Some(Turn::Passed(1));
    }
    if info < 26 {
        if info < 25 {
            if 0 < rest && 24 <= s[at + 1] {
                return Some(Turn::Passed(2));
            }
            return None;
        }
        if 1 < rest && 0 < s[at + 1] {
            return Some(Turn::Passed(3));
        }
        return None;
    }
    if info < 27 {
        if 3 < rest && 0 < head::two(s[at + 1], s[at + 2]) {
            return Some(Turn::Passed(5));
        }
        return None;
    }
    if info < 28 {
        if 7 < rest && 0 < head::two(s[at + 1], s[at + 2]) + head::two(s[at + 3], s[at + 4]) {
            return Some(Turn::Passed(9));
        }
    }
    None
}

// The head at `at` with `rest` bytes after its first one, where it is a string of fewer than 256 bytes.
fn common_string(s: &[u8], at: usize, rest: usize) -> Option<Turn>
    requires room { at + 1 + rest ≡ length s.now }
    requires string { (64 ≤ get_or s.now at 0) × (get_or s.now at 0 < 128) }
    ensures { (left : ℕ) → CommonIs left (drop at s.now) result }
{
    let info = (s[at] % 32) as usize;
    if info < 24 {
        if info <= rest {
            return Some(Turn::Passed(1 + info));
        }
        return None;
    }
    if info < 25 && 0 < rest {
        let len = s[at + 1] as usize;
        if 24 <= len && len < rest {
            return Some(Turn::Passed(2 + len));
        }
    }
    None
}

// The head at `at` with `rest` bytes after its first one, where it is a simple value or a float, its width by halves.
fn common_simple(s: &[u8], at: usize, rest: usize) -> Option<Turn>
    requires room { at + 1 + rest ≡ length s.now }
    requires simple { 224 ≤ get_or s.now at 0 }
    ensures { (left : ℕ) → CommonIs left (drop at s.now) result }
{
    let info = s[at] % 32;
    if info < 24 {
        return Some(Turn::Passed(1));
    }
    if info < 26 {
        if info < 25 {
            if 0 < rest && 32 <= s[at + 1] {
                return Some(Turn::Passed(2));
            }
            return None;
        }
        if 1 < rest {
            return Some(Turn::Passed(3));
        }
        return None;
    }
    if info < 27 {
        if 3 < rest {
            return Some(Turn::Passed(5));
        }
        return None;
    }
    if info < 28 {
        if 7 < rest {
            return Some(Turn::Passed(9));
        }
    }
    None
}

// The head at the start of s with its string, where so many levels may open.
#[tactic(auto, unfolding(crate::specs::Item::step_at, crate::specs::Item::step_from))]
fn step_at(left: usize, s: &[u8]) -> Result<Step, Refused>
    ensures { result ≡ step_at left s.now }
{
    let head = head::read(s)?;
    step_of(left, s.len(), head.major, head.arg, head.len)
}

// What a head of `len` bytes passes or opens, where it and what follows it are `room` bytes.
#[tactic(auto, unfolding(crate::specs::Item::step_of, base::specs::Pick::pick), using(base::proofs::Tests::tests))]
fn step_of(left: usize, room: usize, major: u8, arg: u64, len: usize) -> Result<Step, Refused>
    requires { len ≤ room }
    ensures { result ≡ step_of left room major arg len }
{
    if major == 7 {
        return Ok(Step::Passed(len));
    }
    if 4 <= major {
        if left == 0 {
            return Err(Refused {
                refusal: Refusal::TooDeep,
                place: 0,
            });
        }
        return Ok(opens(major, arg, len));
    }
    if 2 <= major {
        if arg <= (room - len) as u64 {
            let end = len + arg as usize;
            return Ok(Step::Passed(end));
        }
        return Err(Refused {
            refusal: Refusal::Cut,
            place: room,
        });
    }
    Ok(Step::Passed(len))
}

// What the head of an array, a map or a tag opens.
#[tactic(auto, unfolding(crate::specs::Item::opens, base::specs::Pick::pick), using(base::proofs::Tests::tests))]
fn opens(major: u8, arg: u64, len: usize) -> Step
    ensures { result ≡ opens major arg len }
{
    match major {
        4 => Step::Opened {
            len,
            n: arg,
            pairs: false,
        },
        5 => Step::Opened {
            len,
            n: arg,
            pairs: true,
        },
        _ => Step::Opened {
            len,
            n: 1,
            pairs: false,
        },
    }
}

// The step with its items counted.
fn turn_of(step: Result<Step, Refused>) -> Result<Turn, Refused>
    ensures { TurnIs step result }
{
    match step? {
        Step::Passed(len) => Ok(Turn::Passed(len)),
        Step::Opened { len, n, pairs } => {
            let n = items(n, pairs);
            Ok(Turn::Opened { len, n })
        }
    }
}

// How many items these are, or 2^63, which is more than any slice has bytes, where there are at least so many.
#[tactic(auto, unfolding(crate::specs::Turn::Counts, crate::specs::Item::items_of, base::specs::Pick::pick))]
fn items(n: u64, pairs: bool) -> u64
    ensures { Counts n pairs result }
{
    if pairs {
        if n < 0x4000_0000_0000_0000 {
            return 2 * n;
        }
        return 0x8000_0000_0000_0000;
    }
    n
}
