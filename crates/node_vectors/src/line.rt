// What is printed of an operation: its answer, then the state after it.
use crate::{State, digest};
use node::{CallAnswer, Verdict};
use node_state::Record;
use refusal::Refusal;
use std::io;
use std::io::Write;

// The line of a fresh record and of a setting of links.
pub(crate) fn print_kept(
    to: &mut impl Write,
    kept: Result<Record, Refusal>,
    state: State,
    table: &[u64],
) -> io::Result<()> {
    match kept {
        Ok(_) => to.write_all(b"done")?,
        Err(refusal) => write!(to, "refused {}", u8::from(refusal))?,
    }
    print_state(to, state, table)?;
    to.write_all(b"\n")
}

// The line of a node call; the last number counts the other bytes of the output that have changed.
pub(crate) fn print_called(
    to: &mut impl Write,
    called: Result<CallAnswer, Refusal>,
    state: State,
    table: &[u64],
    out: &[u8],
) -> io::Result<()> {
    match called {
        Err(refusal) => {
            write!(to, "refused {}", u8::from(refusal))?;
            print_state(to, state, table)?;
            write!(to, " {}", touched(out, 0))?;
        }
        Ok(answer) => {
            let given = answer.given;
            let verdict = number_of(given.verdict);
            let up = given.handed_up as u8;
            write!(to, "verdict {verdict} {} {up}", given.mask)?;
            print_state(to, state, table)?;
            write!(to, " {}", touched(out, given.length))?;
            print_written(to, out, given.length)?;
        }
    }
    to.write_all(b"\n")
}

fn number_of(verdict: Verdict) -> u8 {
    match verdict {
        Verdict::Own => 1,
        Verdict::Answer => 2,
        Verdict::Duplicate => 3,
        Verdict::Last => 4,
        Verdict::Nowhere => 5,
        Verdict::NoRow => 6,
        Verdict::Relay => 7,
        Verdict::Noop => 8,
        Verdict::Hand => 9,
    }
}

// The tally, and the digest of the record and of the numbers that are lent.
fn print_state(to: &mut impl Write, state: State, table: &[u64]) -> io::Result<()> {
    let State { node, length } = state;
    let Some(lent) = table.get(..length) else {
        return Ok(());
    };
    write!(to, " {} {}", node.tally, digest::digest_of(node, lent))
}

// How many bytes from a place on aren't what the output was filled with.
fn touched(out: &[u8], from: usize) -> usize {
    out.iter().skip(from).filter(|b| **b != 0xaa).count()
}

// Each byte as two hexadecimal digits.
fn print_written(to: &mut impl Write, out: &[u8], length: usize) -> io::Result<()> {
    to.write_all(b" ")?;
    if let Some(written) = out.get(..length) {
        for b in written {
            // By one write, where a format takes two for a byte below 16.
            to.write_all(&[digit(*b / 16), digit(*b)])?;
        }
    }
    Ok(())
}

// The lower half of a byte as a hexadecimal digit.
fn digit(n: u8) -> u8 {
    b"0123456789abcdef"[usize::from(n % 16)]
}
