// A node's answer to a Discovery: a Response with one locator.
ghost use Rattle.std.specs.Prelude.{◌≡◌, length};
ghost use Rattle.encode.specs.Put.{Wrote};
ghost use Rattle.rfc8990.specs.Encoding.{string, fixed};
ghost use Rattle.writer.specs.Write.{ok_initiator, answer_of, answer_answer, answer_out};

use cbor::put;
use message::MOST_BYTES;
use refusal::Refusal;

// A Response with one locator of kind 103 and protocol 6, as a node answers, and its length: refused if the initiator
// has neither 4 nor 16 bytes.
pub fn answer(
    session: u32,
    initiator: &[u8],
    ttl: u32,
    address: &[u8; 16],
    port: u16,
    out: &mut [u8],
) -> Result<usize, Refusal>
    ensures value { result ≡ answer_answer session initiator.now ttl address.now port out.old }
    ensures out_after { out.new ≡ answer_out session initiator.now ttl address.now port
        out.old }
{
    if !ok_initiator(initiator) {
        return Err(Refusal::NoSuchMessage);
    }
    let len = answer_len(session, initiator, ttl, address, port);
    crate::fitting(len <= MOST_BYTES, len, out.len())?;
    put_answer(out, session, initiator, ttl, &address[..], port);
    Ok(len)
}

// Whether an initiator has 4 or 16 bytes.
fn ok_initiator(s: &[u8]) -> bool
    ensures { result ≡ ok_initiator s.now }
{
    if s.len() == 4 {
        return true;
    }
    s.len() == 16
}

// How many bytes an answer has: five heads that are always the same, six bytes together, and what differs.
fn answer_len(session: u32, initiator: &[u8], ttl: u32, address: &[u8; 16], port: u16) -> usize
    ensures { result ≡ length (answer_of session initiator.now ttl address.now port) }
{
    let a = put::head_len(session as u64);
    let b = string_len(initiator);
    let c = put::head_len(ttl as u64);
    let d = string_len(&address[..]);
    let e = put::head_len(port as u64);
    6 + a + c + d + e + b
}

fn put_answer(
    out: &mut [u8],
    session: u32,
    initiator: &[u8],
    ttl: u32,
    address: &[u8],
    port: u16,
) -> usize
    ensures { Wrote out.old out.new 0
        (answer_of session initiator.now ttl address.now port) result }
{
    let a = put::head(out, 0, 4, 5);
    let b = put::head(out, a, 0, 2);
    let c = put::head(out, b, 0, session as u64);
    let d = put_string(out, c, initiator);
    let e = put::head(out, d, 0, ttl as u64);
    put_home(out, e, address, port)
}

fn put_home(out: &mut [u8], at: usize, address: &[u8], port: u16) -> usize
    ensures { Wrote out.old out.new at (fixed 103 2 address.now 6 port) result }
{
    let a = put::head(out, at, 4, 4);
    let b = put::head(out, a, 0, 103);
    let c = put_string(out, b, address);
    let d = put::head(out, c, 0, 6);
    put::head(out, d, 0, port as u64)
}

// How many bytes a byte string with the bytes of s has.
fn string_len(s: &[u8]) -> usize
    ensures { result ≡ length (string 2 s.now) }
{
    let head = put::head_len(s.len() as u64);
    head + s.len()
}

// A byte string with the bytes of s.
fn put_string(out: &mut [u8], at: usize, s: &[u8]) -> usize
    ensures { Wrote out.old out.new at (string 2 s.now) result }
{
    let next = put::head(out, at, 2, s.len() as u64);
    put::all(out, next, s)
}
