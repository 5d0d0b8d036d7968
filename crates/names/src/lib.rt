// A node's own names (rules 8.4): one CBOR array of texts, lent as bytes.
#![tactic(auto)]

ghost use Rattle.std.specs.Prelude.{◌≡◌, ◌≤◌, length};
ghost use Rattle.names.specs.Names.{good_name, names_bad, array_bad, is_named};

use base::bytes;
use cbor::token::Token;
use cbor::{item, token};
use message::MOST_BYTES;
use options::objective::MOST_NAME;

// House limit (rules 8.4): how many own names there are at most.
pub const MOST_NAMES: u64 = 16;

// 16: not one array that passes refusals 1 to 7, of 0 to 16 items, each a UTF-8 text of at most 64 bytes.
// Not inlined, nor is `is_named`: the stack of a node call needn't hold what they need while the message is read.
#[inline(never)]
#[tactic(auto, unfolding(crate::specs::Names::names_bad, crate::specs::Names::framed_bad, base::specs::Pick::pick), using(base::proofs::Tests::tests))]
pub fn are_bad(s: &[u8]) -> bool
    ensures { result ≡ names_bad s.now }
{
    if s.len() == 0 {
        return true;
    }
    if MOST_BYTES < s.len() {
        return true;
    }
    match item::first(0, s) {
        Err(_) => true,
        Ok(end) => end != s.len() || is_bad_array(s),
    }
}

// Not an array of 0 to 16 good names.
fn is_bad_array(s: &[u8]) -> bool
    ensures { result ≡ array_bad s.now }
{
    let a = token::token_at(s, 0);
    if a.major != 4 {
        return true;
    }
    if MOST_NAMES < a.arg {
        return true;
    }
    let mut at = a.next;
    for _ in 0..a.arg {
        let t = token::token_at(s, at);
        if !is_good(s, t) {
            return true;
        }
        at = t.next;
    }
    false
}

// A UTF-8 text of at most 64 bytes.
fn is_good(s: &[u8], t: Token) -> bool
    requires { (t.body ≤ t.next) × (t.next ≤ length s.now) }
    ensures { result ≡ good_name s.now t }
{
    if t.major != 3 {
        return false;
    }
    if MOST_NAME < t.arg {
        return false;
    }
    let from = t.body;
    let to = t.next;
    utf8::is_utf8(&s[from..to])
}

// Whether one of the names s is `name`, byte for byte.
#[inline(never)]
pub fn is_named(s: &[u8], name: &[u8]) -> bool
    ensures { result ≡ is_named s.now name.now }
{
    let a = token::token_at(s, 0);
    if MOST_NAMES < a.arg {
        return false;
    }
    let mut at = a.next;
    for _ in 0..a.arg {
        let t = token::token_at(s, at);
        let from = t.body;
        let to = t.next;
        if bytes::are_same(&s[from..to], name) {
            return true;
        }
        at = to;
    }
    false
}
