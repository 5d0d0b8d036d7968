// The node (rules 9): the verdict on each message, and what it does to record and table.
#![tactic(auto)]

ghost use Rattle.std.specs.Prelude.{◌≡◌};
ghost use Rattle.node.specs.Call.{gives};

use node_state::Record;

pub mod call;
mod mask;
mod role;
mod spread;

// What a node does with a message (rules 9.2, 9.3).
#[derive(Clone, Copy, Debug, PartialEq, Eq)]
pub enum Verdict {
    Own,
    Answer,
    Duplicate,
    Last,
    Nowhere,
    NoRow,
    Relay,
    Noop,
    Hand,
}

// What a node call that isn't refused answers (rules 8.2): the verdict, whether the message is handed up (given to the
// host), the mask of the interfaces to send on, and how many bytes to send.
#[derive(Clone, Copy, Debug, PartialEq, Eq)]
pub struct Given {
    pub verdict: Verdict,
    pub handed_up: bool,
    pub mask: u8,
    pub length: usize,
}

// The answer of a node call that isn't refused, and the record after it.
#[derive(Clone, Copy)]
pub struct CallAnswer {
    pub given: Given,
    pub node: Record,
}

// A verdict that sends nothing.
pub(crate) fn quiet(node: Record, verdict: Verdict, handed_up: bool) -> CallAnswer
    ensures { result ≡ gives verdict handed_up 0 0 node }
{
    CallAnswer {
        given: Given {
            verdict,
            handed_up,
            mask: 0,
            length: 0,
        },
        node,
    }
}
