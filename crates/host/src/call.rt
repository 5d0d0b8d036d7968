// The node call on a table of 2,048 bytes, with its answer as numbers.
ghost use Rattle.std.specs.Prelude.{◌≡◌};
ghost use Rattle.node.specs.Call.{call_of};
ghost use Rattle.host.specs.Call.{verdict_number, answer_numbers, left_by, call_left};

use crate::table;
use node::{Given, Verdict, call};
use node_state::Record;
use node_state::table::NUMBERS;
use refusal::Refusal;

// A node call on a table of bytes, and the record after it; the answer goes into four numbers: verdict, handed up,
// mask, length. A refusal leaves all as it was.
pub fn call_into(
    node: Record,
    bytes: &mut [u8],
    clock: u64,
    interface: u64,
    names: &[u8],
    message: &[u8],
    out: &mut [u8],
    answer: &mut [u64; 4],
) -> Result<Record, Refusal>
    ensures { left_by node result bytes.new out.new answer.new
        ≡ call_left node bytes.old
        (call_of clock interface names.now message.now out.old)
        answer.old }
{
    if bytes.len() != table::BYTES {
        // A table of one number is always refused.
        let mut none = [0u64; 1];
        let called = call::node_call(node, &mut none, clock, interface, names, message, out)?;
        return Ok(called.node);
    }
    let mut numbers = [0u64; NUMBERS];
    table::load(bytes, &mut numbers);
    let called = call::node_call(node, &mut numbers, clock, interface, names, message, out)?;
    table::save(&numbers, bytes);
    *answer = numbers_of(called.given);
    Ok(called.node)
}

// An answer's four numbers.
#[tactic(auto, unfolding(crate::specs::Call::answer_numbers, crate::specs::Call::up_number))]
fn numbers_of(given: Given) -> [u64; 4]
    ensures { result ≡ answer_numbers given }
{
    let handed_up = if given.handed_up { 1 } else { 0 };
    [
        verdict_number(given.verdict) as u64,
        handed_up,
        given.mask as u64,
        given.length as u64,
    ]
}

// A number, since C is answered with it.
fn verdict_number(verdict: Verdict) -> u8
    ensures { result ≡ verdict_number verdict }
{
    match verdict {
        Verdict::Own => 1,
        Verdict::Answer => 2,
        Verdict::Duplicate => 3,
        Verdict::Last => 4,
        Verdict::Nowhere => 5,
        Verdict::NoRow => 6,
        Verdict::Relay => 7,
        Verdict::Noop => 8,
        Verdict::Hand => 9,
    }
}
