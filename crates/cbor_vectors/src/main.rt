// Runs the stored cases over `cbor`, a line for each. A case is a header of five bytes (operation, two parameters, the
// content's length in two bytes) and the content.
#![tactic(auto)]

use cbor::head::Head;
use refusal::Refused;
use std::io::{self, Read, Write};

const MOST_CASES: usize = 1_000_000;

fn main(rt: HostRuntime) -> io::Result<()> {
    run_all(&mut rt.stdin(), &mut rt.stdout())
}

fn run_all(from: &mut impl Read, to: &mut impl Write) -> io::Result<()> {
    for _ in 0..MOST_CASES {
        if !run_next(from, to)? {
            return Ok(());
        }
    }
    Ok(())
}

// Reads a case and runs it; whether there was one.
fn run_next(from: &mut impl Read, to: &mut impl Write) -> io::Result<bool> {
    let mut header = [0u8; 5];
    if streams::read_full(from, &mut header)? < 5 {
        return Ok(false);
    }
    let [operation, first, second, high, low] = header;
    let len = u16::from_be_bytes([high, low]) as usize;
    let mut content = [0u8; 4096];
    let Some(content) = content.get_mut(..len) else {
        return Ok(true);
    };
    streams::read_full(from, content)?;
    run(to, operation, first, second, content)?;
    Ok(true)
}

fn run(
    to: &mut impl Write,
    operation: u8,
    first: u8,
    second: u8,
    content: &mut [u8],
) -> io::Result<()> {
    match operation {
        1 => print_item(to, cbor::item::first(first as usize, content)),
        2 => print_head(to, cbor::head::read(content)),
        3 => print_text(to, utf8::is_utf8(content)),
        4 => put(to, first, second as usize, content),
        _ => Ok(()),
    }
}

fn print_item(to: &mut impl Write, answer: Result<usize, Refused>) -> io::Result<()> {
    match answer {
        Ok(end) => writeln!(to, "end {end}"),
        Err(why) => print_refused(to, why),
    }
}

fn print_head(to: &mut impl Write, answer: Result<Head, Refused>) -> io::Result<()> {
    match answer {
        Ok(Head { major, arg, len }) => writeln!(to, "head {major} {arg} {len}"),
        Err(why) => print_refused(to, why),
    }
}

fn print_refused(to: &mut impl Write, why: Refused) -> io::Result<()> {
    let number = u8::from(why.refusal);
    let place = why.place;
    writeln!(to, "refused {number} {place}")
}

fn print_text(to: &mut impl Write, is: bool) -> io::Result<()> {
    to.write_all(if is { b"utf8\n" } else { b"not utf8\n" })
}

// The content is an argument of eight bytes, then the buffer that the head is put into.
fn put(to: &mut impl Write, major: u8, at: usize, content: &mut [u8]) -> io::Result<()> {
    let Some((arg, buffer)) = content.split_first_chunk_mut::<8>() else {
        return Ok(());
    };
    let end = cbor::put::head(buffer, at, major, u64::from_be_bytes(*arg));
    write!(to, "{end} ")?;
    print_bytes(to, buffer)?;
    to.write_all(b"\n")
}

// Each byte as two hexadecimal digits, by one write, where a format takes two for a byte below 16.
fn print_bytes(to: &mut impl Write, s: &[u8]) -> io::Result<()> {
    for b in s {
        to.write_all(&[digit(*b / 16), digit(*b)])?;
    }
    Ok(())
}

// The lower half of a byte as a hexadecimal digit.
fn digit(n: u8) -> u8 {
    b"0123456789abcdef"[usize::from(n % 16)]
}
