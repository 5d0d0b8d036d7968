// The message that is relayed: its loop count one lower, and every other byte kept.
ghost use Rattle.std.specs.Prelude.{◌≡◌, ◌<◌, ◌≤◌, length};
ghost use Rattle.encode.specs.Put.{Wrote};
ghost use Rattle.writer.specs.Write.{lowered, lower_answer, lower_out};

use cbor::put;
use message::MOST_BYTES;
use refusal::Refusal;

// The message with its bytes from `at` to `end`, the head of its loop count, replaced by the shortest head of one less.
pub fn lower(
    message: &[u8],
    at: usize,
    end: usize,
    count: u8,
    out: &mut [u8],
) -> Result<usize, Refusal>
    ensures value { result ≡ lower_answer message.now at end count out.old }
    ensures out_after { out.new ≡ lower_out message.now at end count out.old }
{
    if count == 0 {
        return Err(Refusal::NoSuchMessage);
    }
    if end < at {
        return Err(Refusal::NoSuchMessage);
    }
    if message.len() < end {
        return Err(Refusal::NoSuchMessage);
    }
    let kept = at + (message.len() - end);
    let len = kept + put::head_len((count - 1) as u64);
    crate::fitting(len <= MOST_BYTES, len, out.len())?;
    put_lowered(out, message, at, end, count);
    Ok(len)
}

fn put_lowered(out: &mut [u8], message: &[u8], at: usize, end: usize, count: u8) -> usize
    requires { (0 < count) × (at ≤ end) × (end ≤ length message.now) }
    ensures { Wrote out.old out.new 0 (lowered message.now at end count) result }
{
    let a = put::all(out, 0, &message[..at]);
    let b = put::head(out, a, 0, (count - 1) as u64);
    put::all(out, b, &message[end..])
}
