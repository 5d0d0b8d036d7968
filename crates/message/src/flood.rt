// Flood (RFC 8990, section 2.8.11): session, initiator, ttl, then pairs.
ghost use Rattle.std.specs.Prelude.{◌≡◌, ◌≤◌};
ghost use Rattle.message.specs.Flood.{flooded_at, flood_at};

use crate::opening::Opening;
use crate::{Message, Series, opening, sequence};
use options::{Departure, Part, pair};

// A Flood of n items in all, its session at `at`.
#[tactic(auto, unfolding(crate::specs::Flood::flood_at, crate::specs::Flood::flood_by, base::specs::Pick::pick))]
pub(crate) fn read_at(s: &[u8], n: u64, at: usize) -> Result<Part<Message>, Departure>
    ensures { result ≡ flood_at s.now n at }
{
    if n < 5 {
        return Err(Departure { place: 0 });
    }
    let (opening, next) = opening::read_at(s, at)?;
    flooded_at(s, opening, n - 4, next)
}

// n pairs from `at` on.
#[tactic(auto, unfolding(crate::specs::Flood::flooded_at, crate::specs::Flood::flooded_of, crate::specs::Flood::flooded_by))]
fn flooded_at(s: &[u8], opening: Opening, n: u64, at: usize) -> Result<Part<Message>, Departure>
    requires { 1 ≤ n }
    ensures { result ≡ flooded_at s.now opening n at }
{
    let first = pair::read_at(s, at)?;
    let more = sequence::read_pairs(s, n - 1, at + first.size, first.bad, first.long)?;
    Ok(Part {
        value: Message::Flood {
            session: opening.session,
            initiator: opening.initiator,
            ttl: opening.ttl,
            first: first.value,
            pairs: Series { at, many: n },
        },
        size: more.end,
        bad: more.bad,
        long: more.long,
    })
}
