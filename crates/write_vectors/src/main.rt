// Runs the stored cases over the writer, a line for each: the length or the refusal, and the whole output afterwards. A
// case is an operation and what it takes: 1 writes a description, 2 lowers a count, 3 answers, 4 reads a message and
// writes it again.
#![tactic(auto)]

use forms::described;
use refusal::Refusal;
use std::io::{self, Read, Write};
use streams::{read_array, read_full};

const MOST_CASES: usize = 1_000_000;

fn main(rt: HostRuntime) -> io::Result<()> {
    run_all(&mut rt.stdin(), &mut rt.stdout())
}

fn run_all(from: &mut impl Read, to: &mut impl Write) -> io::Result<()> {
    for _ in 0..MOST_CASES {
        let mut operation = [0u8; 1];
        if read_full(from, &mut operation)? < 1 {
            return Ok(());
        }
        run(from, to, operation[0])?;
    }
    Ok(())
}

fn run(from: &mut impl Read, to: &mut impl Write, operation: u8) -> io::Result<()> {
    match operation {
        1 => run_write(from, to)?,
        2 => run_lower(from, to)?,
        3 => run_answer(from, to)?,
        4 => run_rewrite(from, to)?,
        _ => {}
    }
    to.write_all(b"\n")
}

// The next two bytes of the input, a length.
fn next_length(from: &mut impl Read) -> io::Result<usize> {
    Ok(u16::from_be_bytes(read_array(from)?) as usize)
}

fn next_numbers(from: &mut impl Read, list: &mut [u64]) -> io::Result<()> {
    for n in list.iter_mut() {
        *n = u64::from_be_bytes(read_array(from)?);
    }
    Ok(())
}

fn run_write(from: &mut impl Read, to: &mut impl Write) -> io::Result<()> {
    let mut fields = [0u64; 19];
    next_numbers(from, &mut fields)?;
    let mut list = [0u64; 2_000];
    let Some(list) = list.get_mut(..next_length(from)?) else {
        return Ok(());
    };
    next_numbers(from, list)?;
    let mut source = [0u8; 4_096];
    let Some(source) = source.get_mut(..next_length(from)?) else {
        return Ok(());
    };
    read_full(from, source)?;
    let mut out = [0xaau8; 2_100];
    let Some(out) = out.get_mut(..next_length(from)?) else {
        return Ok(());
    };
    let written = match described::described_by(&fields, list.len()) {
        None => Err(Refusal::NoSuchMessage),
        Some(description) => writer::write(source, list, description, out),
    };
    print_written(to, written, out)
}

fn run_lower(from: &mut impl Read, to: &mut impl Write) -> io::Result<()> {
    let mut message = [0u8; 4_096];
    let Some(message) = message.get_mut(..next_length(from)?) else {
        return Ok(());
    };
    read_full(from, message)?;
    let at = next_length(from)?;
    let end = next_length(from)?;
    let count = u8::from_be_bytes(read_array(from)?);
    let mut out = [0xaau8; 2_100];
    let Some(out) = out.get_mut(..next_length(from)?) else {
        return Ok(());
    };
    let written = writer::relay::lower(message, at, end, count, out);
    print_written(to, written, out)
}

fn run_answer(from: &mut impl Read, to: &mut impl Write) -> io::Result<()> {
    let session = u32::from_be_bytes(read_array(from)?);
    let len = u8::from_be_bytes(read_array(from)?) as usize;
    let mut initiator = [0u8; 256];
    let Some(initiator) = initiator.get_mut(..len) else {
        return Ok(());
    };
    read_full(from, initiator)?;
    let ttl = u32::from_be_bytes(read_array(from)?);
    let address = read_array(from)?;
    let port = u16::from_be_bytes(read_array(from)?);
    let mut out = [0xaau8; 2_100];
    let Some(out) = out.get_mut(..next_length(from)?) else {
        return Ok(());
    };
    let written = writer::answer::answer(session, initiator, ttl, &address, port, out);
    print_written(to, written, out)
}

fn run_rewrite(from: &mut impl Read, to: &mut impl Write) -> io::Result<()> {
    let mut message = [0u8; 4_096];
    let Some(message) = message.get_mut(..next_length(from)?) else {
        return Ok(());
    };
    read_full(from, message)?;
    let mut out = [0xaau8; 2_100];
    let Some(out) = out.get_mut(..next_length(from)?) else {
        return Ok(());
    };
    let written = match reader::read(message) {
        Err(refusal) => Err(refusal),
        Ok(m) => {
            let mut list = [0u64; 4_096];
            let many = forms::rows::fill(message, m, &mut list);
            let Some(list) = list.get(..many) else {
                return Ok(());
            };
            writer::write(message, list, forms::describe::description_of(m), out)
        }
    };
    print_written(to, written, out)
}

// How the writing went, and the output, each byte as two hexadecimal digits.
fn print_written(
    to: &mut impl Write,
    written: Result<usize, Refusal>,
    out: &[u8],
) -> io::Result<()> {
    match written {
        Ok(n) => write!(to, "length {n} ")?,
        Err(refusal) => write!(to, "refused {} ", u8::from(refusal))?,
    }
    for b in out {
        // By one write, where a format takes two for a byte below 16.
        to.write_all(&[digit(*b / 16), digit(*b)])?;
    }
    Ok(())
}

// The lower half of a byte as a hexadecimal digit.
fn digit(n: u8) -> u8 {
    b"0123456789abcdef"[usize::from(n % 16)]
}
