// The steps of the encoder. Each puts some bytes from `at` on and answers where they end; a step that would end after
// the buffer answers more than the buffer's length. So no step asks for room, and the end of the last one tells whether
// all of them fit.
ghost use Rattle.std.specs.Prelude.{ℕ, List, [], ◌∷◌, ◌<◌};
ghost use mathlib.Core.List.{flat_map};
ghost use Rattle.description.specs.Meaning.{list_of};
ghost use Rattle.options.specs.Text.{held};
ghost use Rattle.cbor.specs.Put.{head};
ghost use Rattle.encode.specs.Put.{Wrote};
ghost use Rattle.rfc8990.specs.Encoding.{string};

use description::spans;
use options::Span;

// The shortest head of a major type with this argument.
pub(crate) fn head(out: &mut [u8], at: usize, major: u8, arg: u64) -> usize
    requires { major < 7 }
    ensures { Wrote out.old out.new at (head major arg) result }
{
    cbor::put::head(out, at, major, arg)
}

// One byte.
pub(crate) fn byte(out: &mut [u8], at: usize, b: u8) -> usize
    ensures { Wrote out.old out.new at (b ∷ []) result }
{
    if out.len() <= at {
        return out.len() + 1;
    }
    out[at] = b;
    at + 1
}

// The bytes of a span.
pub(crate) fn part(out: &mut [u8], at: usize, source: &[u8], s: Span) -> usize
    ensures { Wrote out.old out.new at (held source.now s) result }
{
    let from = s.at;
    let len = s.len;
    if source.len() < from {
        return at;
    }
    let room = source.len() - from;
    if room < len {
        return cbor::put::all(out, at, &source[from..]);
    }
    let end = from + len;
    cbor::put::all(out, at, &source[from..end])
}

// A byte string (major type 2) or a text (3) with the bytes of a span.
pub(crate) fn part_string(out: &mut [u8], at: usize, major: u8, source: &[u8], s: Span) -> usize
    requires { major < 7 }
    ensures { Wrote out.old out.new at (string major (held source.now s)) result }
{
    let n = spans::covered(source, s);
    let next = head(out, at, major, n as u64);
    part(out, next, source, s)
}

// So many rows, one after the other.
pub(crate) fn each<F: Fn(&mut [u8], usize, usize) -> usize>(
    out: &mut [u8],
    at: usize,
    rows: usize,
    put_row: F,
) -> usize
    requires callable { (o : _) (end i : ℕ) → i < rows → F.pre put_row o end i }
    ensures { (row : ℕ → List ℕ)
        → ((o o' : _) (end i r : ℕ) → F.post put_row o end i r o' → Wrote o.now o'.now end (row i) r)
        → Wrote out.old out.new at (flat_map row (list_of (λ i. i) rows)) result }
{
    let mut end = at;
    for i in 0..rows {
        end = put_row(out, end, i);
    }
    end
}
