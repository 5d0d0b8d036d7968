// What callers need of a message that was read.
ghost use Rattle.std.specs.Prelude.{◌≡◌};
ghost use Rattle.message.specs.Fields.{kind_of, session_of, initiator_of, objective_of};

use crate::Message;
use options::Span;
use options::objective::Objective;

// The number of the message's kind.
pub fn kind_of(m: Message) -> u8
    ensures { result ≡ kind_of m }
{
    match m {
        Message::Noop => 0,
        Message::Discovery { .. } => 1,
        Message::Response { .. } => 2,
        Message::RequestNegotiation { .. } => 3,
        Message::RequestSynchronization { .. } => 4,
        Message::Negotiate { .. } => 5,
        Message::End { .. } => 6,
        Message::Wait { .. } => 7,
        Message::Synch { .. } => 8,
        Message::Flood { .. } => 9,
        Message::Invalid { .. } => 99,
    }
}

// The message's session, which a Noop lacks.
#[tactic(auto, unfolding(crate::specs::Fields::session_of))]
pub fn session_of(m: Message) -> Option<u32>
    ensures { result ≡ session_of m }
{
    match m {
        Message::Noop => None,
        Message::Discovery { session, .. }
        | Message::Response { session, .. }
        | Message::RequestNegotiation { session, .. }
        | Message::RequestSynchronization { session, .. }
        | Message::Negotiate { session, .. }
        | Message::End { session, .. }
        | Message::Wait { session, .. }
        | Message::Synch { session, .. }
        | Message::Flood { session, .. }
        | Message::Invalid { session, .. } => Some(session),
    }
}

// The initiator's bytes; none where the kind has no initiator.
#[tactic(auto, unfolding(crate::specs::Fields::initiator_of))]
pub fn initiator_of(m: Message) -> Span
    ensures { result ≡ initiator_of m }
{
    match m {
        Message::Discovery { initiator, .. }
        | Message::Response { initiator, .. }
        | Message::Flood { initiator, .. } => initiator,
        _ => Span { at: 0, len: 0 },
    }
}

// The message's objective; a Flood's is its first pair's.
#[tactic(auto, unfolding(crate::specs::Fields::objective_of))]
pub fn objective_of(m: Message) -> Option<Objective>
    ensures { result ≡ objective_of m }
{
    match m {
        Message::Discovery { objective, .. }
        | Message::RequestNegotiation { objective, .. }
        | Message::RequestSynchronization { objective, .. }
        | Message::Negotiate { objective, .. }
        | Message::Synch { objective, .. } => Some(objective),
        Message::Response { extra, .. } => extra,
        Message::Flood { first, .. } => Some(first.objective),
        _ => None,
    }
}
