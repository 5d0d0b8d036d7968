// The pairs of a Flood put (RFC 8990, section 2.8.11), from rows of twelve numbers.
ghost use Rattle.std.specs.Prelude.{◌+◌, ◌*◌, ◌≤◌, length};
ghost use mathlib.Core.List.{flat_map};
ghost use Rattle.encode.specs.Put.{Wrote};
ghost use Rattle.rfc8990.specs.Encoding.{loc_or_empty, encode_pair};
ghost use Rattle.description.specs.Meaning.{pair_row, loc_or_none, row_pair, pairs_of};

use crate::{locator, objective, put};
use description::rows;
use description::rows::{LocatorRow, OBJECTIVE_ROW, PAIR_ROW};

// The pairs of the list.
pub(crate) fn put_pairs(out: &mut [u8], at: usize, source: &[u8], list: &[u64]) -> usize
    ensures { Wrote out.old out.new at
        (flat_map encode_pair (pairs_of source.now list.now)) result }
{
    let rows = list.len() / PAIR_ROW;
    put::each(
        out,
        at,
        rows,
        |out, at, i| put_pair(out, at, source, list, i),
    )
}

pub(crate) fn put_pair(out: &mut [u8], at: usize, source: &[u8], list: &[u64], i: usize) -> usize
    requires { pair_row * i + pair_row ≤ length list.now }
    ensures { Wrote out.old out.new at
        (encode_pair (row_pair source.now list.now i)) result }
{
    let o = rows::objective_row_at(list, PAIR_ROW * i);
    let p = rows::locator_row_at(list, PAIR_ROW * i + OBJECTIVE_ROW);
    let a = put::head(out, at, 4, 2);
    let b = objective::put_objective_row(out, a, source, o);
    put_locator_row_or_empty(out, b, source, p)
}

// A locator, or an empty array where its kind is 0.
pub(crate) fn put_locator_row_or_empty(
    out: &mut [u8],
    at: usize,
    source: &[u8],
    p: LocatorRow,
) -> usize
    ensures { Wrote out.old out.new at (loc_or_empty (loc_or_none source.now p)) result }
{
    let kind = p.kind;
    if kind == 0 {
        return put::head(out, at, 4, 0);
    }
    locator::put_locator_row(out, at, source, p)
}
