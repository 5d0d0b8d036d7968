// GRASP messages written (RFC 8990), every head in its shortest form: from a description, from a message that is
// relayed, and a node's answer.
// What is written goes to the front of the output and the bytes after it stay; on a refusal all of the output stays.
#![tactic(auto)]

ghost use Rattle.std.specs.Prelude.{◌≡◌, ◌≤◌, length};
ghost use Rattle.rfc8990.specs.Limits.{most_bytes};
ghost use Rattle.writer.specs.Write.{accepts, write_answer, write_out};
ghost use Rattle.writer.specs.Write.{fitting, pass_answer, pass_out};

use cbor::put;
use description::{Description, judge};
use message::MOST_BYTES;
use refusal::Refusal;

pub mod answer;
pub mod relay;

// The message of a description, and how many bytes it has: refused if no accepted message has that description, and
// then if the output is too short.
pub fn write(source: &[u8], list: &[u64], m: Description, out: &mut [u8]) -> Result<usize, Refusal>
    ensures value { result ≡ write_answer source.now list.now m out.old }
    ensures out_after { out.new ≡ write_out source.now list.now m out.old }
{
    if !judge::ok_described(source, list, m) {
        return Err(Refusal::NoSuchMessage);
    }
    let mut draft = [0u8; MOST_BYTES];
    let len = encode::message(&mut draft, source, list, m);
    if MOST_BYTES < len {
        return Err(Refusal::NoSuchMessage);
    }
    let accepted = accepts(&draft[..len]);
    hand(accepted, &draft[..len], out)
}

// Whether the reader accepts these bytes.
#[tactic(auto, unfolding(crate::specs::Write::accepts, crate::specs::Write::accepted))]
fn accepts(s: &[u8]) -> bool
    ensures { result ≡ accepts s.now }
{
    matches!(reader::read(s), Ok(_))
}

// Refused where there is no such message, however short the output; then where the output is shorter than the message.
#[tactic(auto, unfolding(crate::specs::Write::fitting, base::specs::Pick::pick))]
pub(crate) fn fitting(good: bool, len: usize, room: usize) -> Result<(), Refusal>
    ensures { result ≡ fitting good len room }
{
    if !good {
        return Err(Refusal::NoSuchMessage);
    }
    if room < len {
        return Err(Refusal::WriteOutput);
    }
    Ok(())
}

// A draft handed over to the front of the output.
fn hand(accepted: bool, bs: &[u8], out: &mut [u8]) -> Result<usize, Refusal>
    requires { length bs.now ≤ most_bytes }
    ensures value { result ≡ pass_answer accepted bs.now out.old }
    ensures out_after { out.new ≡ pass_out accepted bs.now out.old }
{
    fitting(accepted, bs.len(), out.len())?;
    put::all(out, 0, bs);
    Ok(bs.len())
}
