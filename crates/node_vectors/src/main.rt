// Runs the stored stories over the node. An operation is a byte and what it takes. 1 takes a fresh record and a fresh
// table, 2 calls the node, 3 sets links: each prints a line, its answer and then the tally and the digest of record and
// table. 4 puts a record, 5 a row of the table, 6 how many of the table's numbers are lent.
#![tactic(auto)]

mod digest;
mod line;

use node_state::Record;
use std::io::{self, Read, Write};
use streams::{read_array, read_full};

// The most numbers of a table that is lent: 80 rows.
const MOST_NUMBERS: usize = 320;

const MOST_OPERATIONS: usize = 1_000_000;

// The record, and how many of the table's numbers are lent.
#[derive(Clone, Copy)]
pub struct State {
    pub node: Record,
    pub length: usize,
}

fn main(rt: HostRuntime) -> io::Result<()> {
    let mut table = [0u64; MOST_NUMBERS];
    run_all(&mut rt.stdin(), &mut rt.stdout(), &mut table)
}

fn run_all(from: &mut impl Read, to: &mut impl Write, table: &mut [u64]) -> io::Result<()> {
    let mut state = State {
        node: Record::blank(),
        length: 256,
    };
    for _ in 0..MOST_OPERATIONS {
        let mut operation = [0u8; 1];
        if read_full(from, &mut operation)? < 1 {
            return Ok(());
        }
        state = run(from, to, state, table, operation[0])?;
    }
    Ok(())
}

// The state after an operation.
fn run(
    from: &mut impl Read,
    to: &mut impl Write,
    state: State,
    table: &mut [u64],
    operation: u8,
) -> io::Result<State> {
    match operation {
        1 => run_fresh(from, to, table),
        2 => run_call(from, to, state, table),
        3 => run_links(from, to, state, table),
        4 => put_record(from, state),
        5 => {
            put_row(from, table)?;
            Ok(state)
        }
        6 => put_length(from, state),
        _ => Ok(state),
    }
}

fn run_fresh(from: &mut impl Read, to: &mut impl Write, table: &mut [u64]) -> io::Result<State> {
    let address = read_array(from)?;
    let port = u16::from_be_bytes(read_array(from)?);
    let ttl = u32::from_be_bytes(read_array(from)?);
    let interfaces = next_number(from)?;
    let mask = next_number(from)?;
    table.fill(0);
    let kept = Record::fresh(address, port, ttl, interfaces, mask);
    let state = State {
        node: kept.unwrap_or(Record::blank()),
        length: 256,
    };
    line::print_kept(to, kept, state, table)?;
    Ok(state)
}

fn run_links(
    from: &mut impl Read,
    to: &mut impl Write,
    state: State,
    table: &[u64],
) -> io::Result<State> {
    let mask = next_number(from)?;
    let kept = state.node.set_links(mask);
    let after = State {
        node: kept.unwrap_or(state.node),
        ..state
    };
    line::print_kept(to, kept, after, table)?;
    Ok(after)
}

fn run_call(
    from: &mut impl Read,
    to: &mut impl Write,
    state: State,
    table: &mut [u64],
) -> io::Result<State> {
    let clock = next_number(from)?;
    let interface = next_number(from)?;
    let mut names = [0u8; 4_096];
    let Some(names) = names.get_mut(..next_length(from)?) else {
        return Ok(state);
    };
    read_full(from, names)?;
    let mut message = [0u8; 4_096];
    let Some(message) = message.get_mut(..next_length(from)?) else {
        return Ok(state);
    };
    read_full(from, message)?;
    let mut out = [0xaau8; 2_100];
    let Some(out) = out.get_mut(..next_length(from)?) else {
        return Ok(state);
    };
    let Some(lent) = table.get_mut(..state.length) else {
        return Ok(state);
    };
    let called = node::call::node_call(state.node, lent, clock, interface, names, message, out);
    let node = match called {
        Ok(answer) => answer.node,
        Err(_) => state.node,
    };
    let after = State { node, ..state };
    line::print_called(to, called, after, table, out)?;
    Ok(after)
}

fn put_record(from: &mut impl Read, state: State) -> io::Result<State> {
    let address = read_array(from)?;
    let port = u16::from_be_bytes(read_array(from)?);
    let ttl = u32::from_be_bytes(read_array(from)?);
    let interfaces = u8::from_be_bytes(read_array(from)?);
    let links = u8::from_be_bytes(read_array(from)?);
    let clock = next_number(from)?;
    let tally = next_number(from)?;
    Ok(State {
        node: Record {
            address,
            port,
            ttl,
            interfaces,
            links,
            clock,
            tally,
        },
        length: state.length,
    })
}

// A row's number, then its four numbers.
fn put_row(from: &mut impl Read, table: &mut [u64]) -> io::Result<()> {
    let at = 4 * u8::from_be_bytes(read_array(from)?) as usize;
    if let Some(row) = table.get_mut(at..at + 4) {
        for n in row.iter_mut() {
            *n = next_number(from)?;
        }
    }
    Ok(())
}

fn put_length(from: &mut impl Read, state: State) -> io::Result<State> {
    let length = next_length(from)?;
    Ok(State { length, ..state })
}

fn next_length(from: &mut impl Read) -> io::Result<usize> {
    Ok(u16::from_be_bytes(read_array(from)?) as usize)
}

fn next_number(from: &mut impl Read) -> io::Result<u64> {
    Ok(u64::from_be_bytes(read_array(from)?))
}
