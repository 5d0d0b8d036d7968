// The rows of a list: locators of five numbers, pairs of twelve.
ghost use Rattle.std.specs.Prelude.{◌≡◌, get_or};
ghost use Rattle.description.specs.Meaning.{objective_row_of, objective_row_at, locator_row_at};

use crate::GivenObjective;
use options::Span;

// How many numbers a locator's row has.
pub const LOCATOR_ROW: usize = 5;

// A locator: 103 to 106, its address or text, protocol and port; for 106 protocol 0 and port 65,536 stand for null.
#[derive(Clone, Copy)]
pub struct LocatorRow {
    pub kind: u64,
    pub content: Span,
    pub protocol: u64,
    pub port: u64,
}

// How many numbers a pair's row has, and how many of them stand before its locator.
pub const PAIR_ROW: usize = 12;

pub const OBJECTIVE_ROW: usize = 7;

// An objective as a row has it: numbers are written as they are, and the reader judges them.
#[derive(Clone, Copy)]
pub struct ObjectiveRow {
    pub name: Span,
    pub flags: u64,
    pub count: u64,
    pub value: Span,
}

pub fn objective_row_of(o: GivenObjective) -> ObjectiveRow
    ensures { result ≡ objective_row_of o }
{
    let name = o.name;
    let value = o.value;
    ObjectiveRow {
        name,
        flags: o.flags as u64,
        count: o.count as u64,
        value,
    }
}

// The locator of the five numbers from place k on; a number past the list's end is 0.
pub fn locator_row_at(list: &[u64], k: usize) -> LocatorRow
    ensures { result ≡ locator_row_at list.now k }
{
    if list.len() <= k {
        return LocatorRow {
            kind: 0,
            content: Span { at: 0, len: 0 },
            protocol: 0,
            port: 0,
        };
    }
    let kind = number(list, k);
    let at = number(list, k + 1) as usize;
    let len = number(list, k + 2) as usize;
    let protocol = number(list, k + 3);
    let port = number(list, k + 4);
    LocatorRow {
        kind,
        content: Span { at, len },
        protocol,
        port,
    }
}

// The objective of the seven numbers from place k on; the fifth is passed over, and a number past the list's end is 0.
pub fn objective_row_at(list: &[u64], k: usize) -> ObjectiveRow
    ensures { result ≡ objective_row_at list.now k }
{
    if list.len() <= k {
        return ObjectiveRow {
            name: Span { at: 0, len: 0 },
            flags: 0,
            count: 0,
            value: Span { at: 0, len: 0 },
        };
    }
    let at = number(list, k) as usize;
    let len = number(list, k + 1) as usize;
    let flags = number(list, k + 2);
    let count = number(list, k + 3);
    let value_at = number(list, k + 5) as usize;
    let value_len = number(list, k + 6) as usize;
    ObjectiveRow {
        name: Span { at, len },
        flags,
        count,
        value: Span {
            at: value_at,
            len: value_len,
        },
    }
}

fn number(list: &[u64], k: usize) -> u64
    ensures { result ≡ get_or list.now k 0 }
{
    if k < list.len() {
        return list[k];
    }
    0
}
