// Reads a message's raw bytes from standard input and prints one line: `kind 0` or `refused 7`.
#![tactic(auto)]

use std::io::{self, Write};
use text::line::Line;

mod line;

fn main(rt: HostRuntime) -> io::Result<()> {
    // One byte more than a message has at most, so that a longer input is seen to be longer.
    let mut input = [0u8; 2_049];
    let n = streams::read_full(&mut rt.stdin(), &mut input)?;
    print(&mut rt.stdout(), line::line_of(&input[..n]))
}

fn print(to: &mut impl Write, line: Line) -> io::Result<()> {
    let Line { bytes, len } = line;
    match bytes.get(..len) {
        Some(front) => to.write_all(front),
        None => Ok(()),
    }
}
