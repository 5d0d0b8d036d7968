// Pairs, one after the other.
ghost use Rattle.std.specs.Prelude.{◌≡◌};
ghost use Rattle.message.specs.Sequence.{pairs_from};

use options::{Departure, pair};

// Where pairs end, and the places of the first text that isn't UTF-8 and of the first name over 64 bytes.
#[derive(Clone, Copy)]
pub struct Pairs {
    pub end: usize,
    pub bad: Option<usize>,
    pub long: Option<usize>,
}

// The n pairs from `from` on, after such places.
pub(crate) fn read_pairs(
    s: &[u8],
    n: u64,
    from: usize,
    first_bad: Option<usize>,
    first_long: Option<usize>,
) -> Result<Pairs, Departure>
    ensures { result ≡ pairs_from s.now n from first_bad first_long }
{
    let mut at = from;
    let mut bad = first_bad;
    let mut long = first_long;
    for _ in 0..n {
        let p = pair::read_at(s, at)?;
        at = at + p.size;
        bad = bad.or(p.bad);
        long = long.or(p.long);
    }
    Ok(Pairs { end: at, bad, long })
}
