// GRASP messages (RFC 8990): the eleven kinds and their shapes. What a message holds is told by numbers and by places
// in its bytes.
#![tactic(auto)]

ghost use Rattle.std.specs.Prelude.{◌≡◌};
ghost use Rattle.message.specs.Examined.{judged_shape, examined};

use cbor::token;
use options::locator::Locator;
use options::objective::Objective;
use options::outcome::Outcome;
use options::pair::Pair;
use options::{Departure, Part, Span};
use refusal::{Refusal, Refused};

pub mod fields;
mod flood;
mod opening;
mod response;
mod sequence;
mod shape;

// House limit (rules 2.1): how many bytes a message has at most.
pub const MOST_BYTES: usize = 2_048;

// So many items one after the other, the first at `at`.
#[derive(Clone, Copy)]
pub struct Series {
    pub at: usize,
    pub many: u64,
}

// What a Response points at: locators, or a divert's locators; the first of them, and the series of all.
#[derive(Clone, Copy)]
pub enum Targets {
    Locators { first: Locator, series: Series },
    Divert { first: Locator, series: Series },
}

// A Flood has its first pair beside the series of all, and Invalid an item of 0 bytes where it has none.
#[derive(Clone, Copy)]
pub enum Message {
    Noop,
    Discovery {
        session: u32,
        initiator: Span,
        objective: Objective,
    },
    Response {
        session: u32,
        initiator: Span,
        ttl: u32,
        targets: Targets,
        extra: Option<Objective>,
    },
    RequestNegotiation {
        session: u32,
        objective: Objective,
    },
    RequestSynchronization {
        session: u32,
        objective: Objective,
    },
    Negotiate {
        session: u32,
        objective: Objective,
    },
    End {
        session: u32,
        outcome: Outcome,
    },
    Wait {
        session: u32,
        time: u32,
    },
    Synch {
        session: u32,
        objective: Objective,
    },
    Flood {
        session: u32,
        initiator: Span,
        ttl: u32,
        first: Pair,
        pairs: Series,
    },
    Invalid {
        session: u32,
        item: Span,
    },
}

// A message, with the place where its parts end.
#[derive(Clone, Copy)]
pub struct Examined {
    pub message: Message,
    pub end: usize,
}

// The message that s begins with, by its parts alone, or the refusal: `BadShape` for what is no array or has no number
// first, `UnknownKind`, then by the kind. What follows the message isn't looked at.
#[tactic(auto, unfolding(crate::specs::Examined::examined, base::specs::Pick::pick))]
pub fn examine(s: &[u8]) -> Result<Examined, Refused>
    ensures { result ≡ examined s.now }
{
    let a = token::array_at(s, 0);
    if token::items_in(a) == 0 {
        return Err(Refused {
            refusal: Refusal::BadShape,
            place: 0,
        });
    }
    let k = token::number_at(s, a.next);
    if k.major != 0 {
        return Err(Refused {
            refusal: Refusal::BadShape,
            place: k.at,
        });
    }
    if 9 < k.arg {
        if k.arg != 99 {
            return Err(Refused {
                refusal: Refusal::UnknownKind,
                place: k.at,
            });
        }
    }
    judge(shape::by_kind(s, k.arg, a.arg, k.next))
}

// A departure from the shape, then a text that isn't UTF-8, then a long name.
#[tactic(auto, unfolding(crate::specs::Examined::judged_shape, crate::specs::Examined::clear))]
fn judge(shape: Result<Part<Message>, Departure>) -> Result<Examined, Refused>
    ensures { result ≡ judged_shape shape }
{
    let m = shape?;
    if let Some(place) = m.bad {
        return Err(Refused {
            refusal: Refusal::BadText,
            place,
        });
    }
    if let Some(place) = m.long {
        return Err(Refused {
            refusal: Refusal::LongName,
            place,
        });
    }
    Ok(Examined {
        message: m.value,
        end: m.size,
    })
}
