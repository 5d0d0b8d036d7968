// What is to be written: a message described by numbers and by spans of a source, its locators or pairs as rows of a
// list; and which descriptions speak of a message.
#![tactic(auto)]

use options::Span;
use options::outcome::Outcome;

pub mod counts;
pub mod judge;
pub mod rows;
pub mod spans;

// An objective: its name and value are bytes of the source, and a value of 0 bytes is none.
#[derive(Clone, Copy)]
pub struct GivenObjective {
    pub name: Span,
    pub flags: u8,
    pub count: u8,
    pub value: Span,
}

// A message to be written. Spans are bytes of the source. The locators of a Response, or of its divert, and the pairs
// of a Flood are the rows of the list. A locator's row is five numbers: kind (103 to 106), place and length of its
// address or text, protocol, port; for 106 protocol 0 and port 65,536 stand for null. A pair's row is twelve: place and
// length of the name, flags, count, 0, place and length of the value, then the locator's five, or five zeros for none.
// An item of 0 bytes is none.
#[derive(Clone, Copy)]
pub enum Description {
    Noop,
    Discovery {
        session: u32,
        initiator: Span,
        objective: GivenObjective,
    },
    Response {
        session: u32,
        initiator: Span,
        ttl: u32,
        divert: bool,
        extra: Option<GivenObjective>,
    },
    RequestNegotiation {
        session: u32,
        objective: GivenObjective,
    },
    RequestSynchronization {
        session: u32,
        objective: GivenObjective,
    },
    Negotiate {
        session: u32,
        objective: GivenObjective,
    },
    End {
        session: u32,
        outcome: Outcome,
    },
    Wait {
        session: u32,
        time: u32,
    },
    Synch {
        session: u32,
        objective: GivenObjective,
    },
    Flood {
        session: u32,
        initiator: Span,
        ttl: u32,
    },
    Invalid {
        session: u32,
        item: Span,
    },
}
