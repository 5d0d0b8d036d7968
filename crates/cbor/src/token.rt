// The heads of an item one after the other: a head with its string, in place.
ghost use Rattle.std.specs.Prelude.{◌≡◌, ◌+◌, ◌≤◌, ◌<◌, ◌^◌};
ghost use Rattle.cbor.specs.Head.{head_at};
ghost use Rattle.cbor.specs.Token.{nothing_at, token_of, TokenIs, SizeIs, items_in, up_to};

use crate::head::Head;
use crate::{head, item};
use refusal::Refused;

// The head at `at`: its major type and argument, where what it heads begins, and where the next head stands (after a
// string's bytes, else after the head itself). Major type 8 where no whole head with its string is there.
#[derive(Clone, Copy)]
pub struct Token {
    pub at: usize,
    pub major: u8,
    pub arg: u64,
    pub body: usize,
    pub next: usize,
}

// Not inlined, so that the short ways below are.
#[inline(never)]
pub fn token_at(s: &[u8], at: usize) -> Token
    ensures { TokenIs s.now at result }
{
    if s.len() < at {
        return nothing_at(at);
    }
    match head_at(&s[at..]) {
        Err(_) => nothing_at(at),
        Ok(head) => token_of(at, s.len() - at, head.major, head.arg, head.len),
    }
}

// Not inlined, as what it asks is: so the short ways below stay short.
#[inline(never)]
fn head_at(s: &[u8]) -> Result<Head, Refused>
    ensures { result ≡ head_at s.now }
{
    head::read(s)
}

// The token at `at`, told by its first byte where it is an array of fewer than 24 items.
#[inline]
pub fn array_at(s: &[u8], at: usize) -> Token
    ensures { TokenIs s.now at result }
{
    if at < s.len() {
        let first = s[at];
        if 128 <= first {
            if first < 152 {
                return token_of(at, s.len() - at, 4, (first - 128) as u64, 1);
            }
        }
    }
    token_at(s, at)
}

// The token at `at`, told by its first byte where it is a string of fewer than 24 bytes, or any other head of one byte.
#[inline]
pub fn string_at(s: &[u8], at: usize) -> Token
    ensures { TokenIs s.now at result }
{
    if at < s.len() {
        let first = s[at];
        let info = first % 32;
        if info < 24 {
            return token_of(at, s.len() - at, first / 32, info as u64, 1);
        }
    }
    token_at(s, at)
}

// The token at `at`, told by its first bytes where it is an unsigned number up to 65,535.
#[inline]
pub fn number_at(s: &[u8], at: usize) -> Token
    ensures { TokenIs s.now at result }
{
    if at < s.len() {
        let first = s[at];
        let room = s.len() - at;
        if first < 24 {
            return token_of(at, room, 0, first as u64, 1);
        }
        if first == 24 {
            if 1 < room {
                let high = s[at + 1];
                if 24 <= high {
                    return token_of(at, room, 0, high as u64, 2);
                }
            }
        }
        if first == 25 {
            if 2 < room {
                let high = s[at + 1];
                if 0 < high {
                    return token_of(at, room, 0, head::two(high, s[at + 2]), 3);
                }
            }
        }
    }
    token_at(s, at)
}

// The token at `at`, told by its first bytes where it is an unsigned number up to 65,535 or null.
#[inline]
pub fn number_or_null_at(s: &[u8], at: usize) -> Token
    ensures { TokenIs s.now at result }
{
    if at < s.len() {
        if s[at] == 0xF6 {
            return token_of(at, s.len() - at, 7, 22, 1);
        }
    }
    number_at(s, at)
}

fn nothing_at(at: usize) -> Token
    ensures { result ≡ nothing_at at }
{
    Token {
        at,
        major: 8,
        arg: 0,
        body: 0,
        next: 0,
    }
}

// A head of `len` bytes at `at`, where it and what follows it are `room` bytes.
fn token_of(at: usize, room: usize, major: u8, arg: u64, len: usize) -> Token
    requires { (len ≤ room) × (at + room < 2 ^ 63) }
    ensures { result ≡ token_of at room major arg len }
{
    let body = at + len;
    if 1 < major {
        if major < 4 {
            let left = (room - len) as u64;
            if arg <= left {
                let next = body + arg as usize;
                return Token {
                    at,
                    major,
                    arg,
                    body,
                    next,
                };
            }
            return nothing_at(at);
        }
    }
    Token {
        at,
        major,
        arg,
        body,
        next: body,
    }
}

// How many bytes the item at `at` has, under so many open levels, or 0 where none is there.
pub fn size_at(levels: usize, s: &[u8], at: usize) -> usize
    ensures { SizeIs levels s.now at result }
{
    if s.len() < at {
        return 0;
    }
    item::first(levels, &s[at..]).unwrap_or(0)
}

// How many items an array has: 0 for what is no array.
pub fn items_in(t: Token) -> u64
    ensures { result ≡ items_in t }
{
    if t.major == 4 {
        return t.arg;
    }
    0
}

// An unsigned number: limit + 1 for what is none, or exceeds the limit.
pub fn up_to(limit: u32, t: Token) -> u64
    ensures { result ≡ up_to limit t }
{
    let most = limit as u64;
    if t.major == 0 {
        if t.arg <= most {
            return t.arg;
        }
        return most + 1;
    }
    most + 1
}
