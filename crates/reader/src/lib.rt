// Reading GRASP messages (RFC 8990): the message that bytes are, or the refusal.
#![tactic(auto)]

ghost use Rattle.std.specs.Prelude.{◌≡◌};
ghost use Rattle.reader.specs.Read.{read_of};
ghost use Rattle.reader.specs.Walk.{walked_first};

use cbor::item;
use message::{MOST_BYTES, Message};
use refusal::Refusal;

// 1; the walk's 2 to 6; 7; then 8, 9, 11 and 10 by the message's parts. Bytes that begin with a message's parts begin
// with one item where these end: so a message is read once, and the walk is left for what is refused.
pub fn read(s: &[u8]) -> Result<Message, Refusal>
    ensures { result ≡ read_of s.now }
{
    if s.len() == 0 {
        return Err(Refusal::BadSize);
    }
    if MOST_BYTES < s.len() {
        return Err(Refusal::BadSize);
    }
    match message::examine(s) {
        Ok(m) => {
            if m.end == s.len() {
                return Ok(m.message);
            }
            Err(Refusal::BytesAfter)
        }
        Err(why) => Err(walk(s, why.refusal)),
    }
}

// The refusal of the first head at fault, or of bytes after the item, or `later` where s is one whole item.
#[tactic(auto, unfolding(crate::specs::Walk::walked_first, crate::specs::Walk::walked_by, base::specs::Pick::pick), using(base::proofs::Tests::tests))]
fn walk(s: &[u8], later: Refusal) -> Refusal
    ensures { result ≡ walked_first later s.now }
{
    match item::first(0, s) {
        Err(why) => why.refusal,
        Ok(end) => {
            if end != s.len() {
                return Refusal::BytesAfter;
            }
            later
        }
    }
}
