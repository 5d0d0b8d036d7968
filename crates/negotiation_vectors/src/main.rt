// Runs the stored lists over the negotiation step. An operation is a byte and what it takes: 1 begins a list with a
// fresh state; 2 takes a step and prints a line, whether it was taken and the state after it; 3 puts another state in
// the place of the one that is there.
#![tactic(auto)]

use negotiation::{Side, State};
use std::io::{self, Read, Write};
use streams::{read_array, read_full};

const MOST_OPERATIONS: usize = 1_000_000;

fn main(rt: HostRuntime) -> io::Result<()> {
    run_all(&mut rt.stdin(), &mut rt.stdout())
}

fn run_all(from: &mut impl Read, to: &mut impl Write) -> io::Result<()> {
    let mut state = State::Fresh;
    for _ in 0..MOST_OPERATIONS {
        let mut operation = [0u8; 1];
        if read_full(from, &mut operation)? < 1 {
            return Ok(());
        }
        state = run(from, to, state, operation[0])?;
    }
    Ok(())
}

// The state after an operation.
fn run(
    from: &mut impl Read,
    to: &mut impl Write,
    state: State,
    operation: u8,
) -> io::Result<State> {
    match operation {
        2 => run_step(from, to, state),
        3 => next_state(from),
        _ => Ok(State::Fresh),
    }
}

fn next_side(from: &mut impl Read) -> io::Result<Side> {
    let side = u8::from_be_bytes(read_array(from)?);
    Ok(if side == 0 { Side::Us } else { Side::Them })
}

// A phase, a session, a count and a turn.
fn next_state(from: &mut impl Read) -> io::Result<State> {
    let phase = u8::from_be_bytes(read_array(from)?);
    let session = u32::from_be_bytes(read_array(from)?);
    let count = u8::from_be_bytes(read_array(from)?);
    let turn = next_side(from)?;
    Ok(match phase {
        0 => State::Fresh,
        1 => State::Open {
            session,
            count,
            turn,
        },
        _ => State::Closed,
    })
}

fn run_step(from: &mut impl Read, to: &mut impl Write, state: State) -> io::Result<State> {
    let sender = next_side(from)?;
    let len = u16::from_be_bytes(read_array(from)?) as usize;
    let mut message = [0u8; 4_096];
    let Some(message) = message.get_mut(..len) else {
        return Ok(state);
    };
    read_full(from, message)?;
    match negotiation::step(state, message, sender) {
        Ok(after) => {
            to.write_all(b"taken")?;
            print_state(to, after)?;
            Ok(after)
        }
        Err(refusal) => {
            write!(to, "refused {}", u8::from(refusal))?;
            print_state(to, state)?;
            Ok(state)
        }
    }
}

fn print_state(to: &mut impl Write, state: State) -> io::Result<()> {
    match state {
        State::Fresh => to.write_all(b" fresh\n"),
        State::Open {
            session,
            count,
            turn,
        } => {
            let turn: u8 = match turn {
                Side::Us => 0,
                Side::Them => 1,
            };
            writeln!(to, " open {session} {count} {turn}")
        }
        State::Closed => to.write_all(b" closed\n"),
    }
}
