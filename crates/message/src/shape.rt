// The shapes of the kinds (RFC 8990, section 2.8), each judged by its number of items, then by its items from left to
// right.
ghost use Rattle.std.specs.Prelude.{◌≡◌};
ghost use Rattle.message.specs.Shape.{noop_at, discovery_at, exchange_of, exchange_at};
ghost use Rattle.message.specs.Shape.{wait_at, invalid_at, end_at};
ghost use Rattle.message.specs.Examined.{by_kind};

use crate::{Message, flood, opening, response};
use cbor::token;
use options::objective::Objective;
use options::{Departure, Part, Span, objective, outcome};

// How many levels are open around Invalid's item: the message's own.
const ITEM_LEVELS: usize = 1;

// How many levels are open around the value of an objective that stands in the message: the message's and the
// objective's own.
pub(crate) const OBJECTIVE_LEVELS: usize = 2;

// A message of a known kind, of n items in all, the first after the kind at `at`. Its size is where its parts end.
#[tactic(auto, unfolding(crate::specs::Examined::by_kind, base::specs::Pick::pick))]
pub(crate) fn by_kind(s: &[u8], kind: u64, n: u64, at: usize) -> Result<Part<Message>, Departure>
    ensures { result ≡ by_kind s.now kind n at }
{
    match kind {
        0 => noop_at(n, at),
        1 => discovery_at(s, n, at),
        2 => response::read_at(s, n, at),
        6 => end_at(s, n, at),
        7 => wait_at(s, n, at),
        9 => flood::read_at(s, n, at),
        99 => invalid_at(s, n, at),
        _ => exchange_at(s, kind, n, at),
    }
}

#[tactic(auto, unfolding(crate::specs::Shape::noop_at, base::specs::Pick::pick))]
fn noop_at(n: u64, at: usize) -> Result<Part<Message>, Departure>
    ensures { result ≡ noop_at n at }
{
    if n != 1 {
        return Err(Departure { place: 0 });
    }
    Ok(Part {
        value: Message::Noop,
        size: at,
        bad: None,
        long: None,
    })
}

// Session, initiator, objective.
#[tactic(auto, unfolding(crate::specs::Shape::discovery_at, crate::specs::Shape::discovered, crate::specs::Opening::number_read, crate::specs::Opening::initiator_read, base::specs::Pick::pick))]
fn discovery_at(s: &[u8], n: u64, at: usize) -> Result<Part<Message>, Departure>
    ensures { result ≡ discovery_at s.now n at }
{
    if n != 4 {
        return Err(Departure { place: 0 });
    }
    let (session, second) = opening::number_at(s, at)?;
    let (initiator, third) = opening::initiator_at(s, second)?;
    let o = objective::read_at(OBJECTIVE_LEVELS, s, third)?;
    Ok(Part {
        value: Message::Discovery {
            session,
            initiator,
            objective: objective::copied(o.value),
        },
        size: third + o.size,
        bad: o.bad,
        long: o.long,
    })
}

// Kinds 3, 4, 5 and 8: session, objective.
#[tactic(auto, unfolding(crate::specs::Shape::exchange_at, crate::specs::Shape::exchanged, crate::specs::Opening::number_read, base::specs::Pick::pick))]
fn exchange_at(s: &[u8], kind: u64, n: u64, at: usize) -> Result<Part<Message>, Departure>
    ensures { result ≡ exchange_at s.now kind n at }
{
    if n != 3 {
        return Err(Departure { place: 0 });
    }
    let (session, second) = opening::number_at(s, at)?;
    let o = objective::read_at(OBJECTIVE_LEVELS, s, second)?;
    Ok(Part {
        value: exchange_of(kind, session, objective::copied(o.value)),
        size: second + o.size,
        bad: o.bad,
        long: o.long,
    })
}

#[tactic(auto, unfolding(crate::specs::Shape::exchange_of, base::specs::Pick::pick))]
fn exchange_of(kind: u64, session: u32, objective: Objective) -> Message
    ensures { result ≡ exchange_of kind session objective }
{
    match kind {
        3 => Message::RequestNegotiation { session, objective },
        4 => Message::RequestSynchronization { session, objective },
        5 => Message::Negotiate { session, objective },
        _ => Message::Synch { session, objective },
    }
}

// Session, waiting time.
#[tactic(auto, unfolding(crate::specs::Shape::wait_at, crate::specs::Opening::number_read, base::specs::Pick::pick))]
fn wait_at(s: &[u8], n: u64, at: usize) -> Result<Part<Message>, Departure>
    ensures { result ≡ wait_at s.now n at }
{
    if n != 3 {
        return Err(Departure { place: 0 });
    }
    let (session, second) = opening::number_at(s, at)?;
    let (time, end) = opening::number_at(s, second)?;
    Ok(Part {
        value: Message::Wait { session, time },
        size: end,
        bad: None,
        long: None,
    })
}

// Session, an optional item of any sort.
#[tactic(auto, unfolding(crate::specs::Shape::invalid_at, crate::specs::Opening::number_read, base::specs::Pick::pick))]
fn invalid_at(s: &[u8], n: u64, at: usize) -> Result<Part<Message>, Departure>
    ensures { result ≡ invalid_at s.now n at }
{
    if n < 2 {
        return Err(Departure { place: 0 });
    }
    if 3 < n {
        return Err(Departure { place: 0 });
    }
    let (session, end) = opening::number_at(s, at)?;
    if n == 2 {
        return Ok(Part {
            value: Message::Invalid {
                session,
                item: Span { at: end, len: 0 },
            },
            size: end,
            bad: None,
            long: None,
        });
    }
    let len = token::size_at(ITEM_LEVELS, s, end);
    if len == 0 {
        return Err(Departure { place: end });
    }
    Ok(Part {
        value: Message::Invalid {
            session,
            item: Span { at: end, len },
        },
        size: end + len,
        bad: None,
        long: None,
    })
}

// Session, accept or decline.
#[tactic(auto, unfolding(crate::specs::Shape::end_at, crate::specs::Shape::ended, crate::specs::Opening::number_read, base::specs::Pick::pick))]
fn end_at(s: &[u8], n: u64, at: usize) -> Result<Part<Message>, Departure>
    ensures { result ≡ end_at s.now n at }
{
    if n != 3 {
        return Err(Departure { place: 0 });
    }
    let (session, second) = opening::number_at(s, at)?;
    let o = outcome::read_at(s, second)?;
    Ok(Part {
        value: Message::End {
            session,
            outcome: o.value,
        },
        size: second + o.size,
        bad: o.bad,
        long: None,
    })
}
