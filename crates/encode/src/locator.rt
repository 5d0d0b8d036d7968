// Locators put (RFC 8990, section 2.9.5), from rows of five numbers.
ghost use Rattle.std.specs.Prelude.{◌+◌, ◌*◌, ◌<◌, ◌≤◌, length};
ghost use mathlib.Core.List.{flat_map};
ghost use Rattle.options.specs.Text.{held};
ghost use Rattle.encode.specs.Put.{Wrote};
ghost use Rattle.rfc8990.specs.Message.{or_null};
ghost use Rattle.rfc8990.specs.Encoding.{number_or_null, reached, fixed, encode_loc};
ghost use Rattle.description.specs.Meaning.{locator_row, locator_row_loc, row_loc, locs_of};

use crate::put;
use description::rows;
use description::rows::{LOCATOR_ROW, LocatorRow};
use options::Span;

// The locators of the list.
pub(crate) fn put_rows(out: &mut [u8], at: usize, source: &[u8], list: &[u64]) -> usize
    ensures { Wrote out.old out.new at
        (flat_map encode_loc (locs_of source.now list.now)) result }
{
    let rows = list.len() / LOCATOR_ROW;
    put::each(
        out,
        at,
        rows,
        |out, at, i| put_row(out, at, source, list, i),
    )
}

pub(crate) fn put_row(out: &mut [u8], at: usize, source: &[u8], list: &[u64], i: usize) -> usize
    requires { locator_row * i + locator_row ≤ length list.now }
    ensures { Wrote out.old out.new at
        (encode_loc (row_loc source.now list.now i)) result }
{
    let p = rows::locator_row_at(list, LOCATOR_ROW * i);
    put_locator_row(out, at, source, p)
}

pub(crate) fn put_locator_row(out: &mut [u8], at: usize, source: &[u8], p: LocatorRow) -> usize
    ensures { Wrote out.old out.new at (encode_loc (locator_row_loc source.now p)) result }
{
    let kind = p.kind;
    if kind == 103 {
        return put_fixed(out, at, 103, 2, source, p);
    }
    if kind == 104 {
        return put_fixed(out, at, 104, 2, source, p);
    }
    if kind == 105 {
        return put_fixed(out, at, 105, 3, source, p);
    }
    let a = put_reached(out, at, 106, 3, source, p.content);
    let b = put_or_null(out, a, 0, p.protocol);
    put_or_null(out, b, 65_536, p.port)
}

// A locator whose protocol and port are numbers.
pub(crate) fn put_fixed(
    out: &mut [u8],
    at: usize,
    kind: u64,
    major: u8,
    source: &[u8],
    p: LocatorRow,
) -> usize
    requires { major < 7 }
    ensures { Wrote out.old out.new at
        (fixed kind major (held source.now p.content) p.protocol p.port) result }
{
    let a = put_reached(out, at, kind, major, source, p.content);
    let b = put::head(out, a, 0, p.protocol);
    put::head(out, b, 0, p.port)
}

// A locator's head, its kind, and its address or text.
pub(crate) fn put_reached(
    out: &mut [u8],
    at: usize,
    kind: u64,
    major: u8,
    source: &[u8],
    s: Span,
) -> usize
    requires { major < 7 }
    ensures { Wrote out.old out.new at (reached kind major (held source.now s)) result }
{
    let a = put::head(out, at, 4, 4);
    let b = put::head(out, a, 0, kind);
    put::part_string(out, b, major, source, s)
}

// A number, or null where it is the one that stands for null.
pub(crate) fn put_or_null(out: &mut [u8], at: usize, null: u64, n: u64) -> usize
    ensures { Wrote out.old out.new at (number_or_null (or_null null n)) result }
{
    if n == null {
        return put::byte(out, at, 0xf6);
    }
    put::head(out, at, 0, n)
}
