// Negotiation (rules 10): what a message does to the state of one session.
#![tactic(auto)]

ghost use Rattle.std.specs.Prelude.{◌≡◌};
ghost use Rattle.negotiation.specs.Step.{move_of, other_side, fresh_step};
ghost use Rattle.negotiation.specs.Step.{lower_step, turn_step, state_step, step};

use message::Message;
use refusal::Refusal;

// The two sides of a session.
#[derive(Clone, Copy, Debug, PartialEq, Eq)]
pub enum Side {
    Us,
    Them,
}

impl Side {
    // The other side.
    pub fn other(self) -> Side
        ensures { result ≡ other_side self }
    {
        match self {
            Side::Us => Side::Them,
            Side::Them => Side::Us,
        }
    }
}

// An open state has its session, the count that the last Request or Negotiate brought, and the side with the turn.
#[derive(Clone, Copy, Debug, PartialEq, Eq)]
pub enum State {
    Fresh,
    Open { session: u32, count: u8, turn: Side },
    Closed,
}

// What the step looks at in a message.
#[derive(Clone, Copy)]
enum Move {
    Request { session: u32, count: u8 },
    Negotiate { session: u32, count: u8 },
    Wait { session: u32 },
    End { session: u32 },
    Other,
}

// The state that a message leads to. It is refused by its own refusal, or else as not allowed; a refusal leaves the
// caller's own state.
#[tactic(auto, unfolding(crate::specs::Step::step, crate::specs::Step::reading_step))]
pub fn step(state: State, message: &[u8], sender: Side) -> Result<State, Refusal>
    ensures { result ≡ step state message.now sender }
{
    let m = reader::read(message)?;
    state_step(state, move_of(m), sender)
}

// A message that was read.
#[tactic(auto, unfolding(crate::specs::Step::state_step, base::specs::Pick::pick))]
fn state_step(state: State, m: Move, sender: Side) -> Result<State, Refusal>
    ensures { result ≡ state_step state m sender }
{
    match state {
        State::Fresh => fresh_step(m, sender),
        State::Open {
            session,
            count,
            turn,
        } => {
            if count == 0 {
                return Err(Refusal::NotAllowed);
            }
            if sender != turn {
                return Err(Refusal::NotAllowed);
            }
            turn_step(session, count, turn, m)
        }
        State::Closed => Err(Refusal::NotAllowed),
    }
}

// A fresh state.
#[tactic(auto, unfolding(crate::specs::Step::fresh_step, base::specs::Pick::pick))]
fn fresh_step(m: Move, sender: Side) -> Result<State, Refusal>
    ensures { result ≡ fresh_step m sender }
{
    match m {
        Move::Request { session, count } => {
            if count == 0 {
                return Err(Refusal::NotAllowed);
            }
            Ok(State::Open {
                session,
                count,
                turn: sender.other(),
            })
        }
        _ => Err(Refusal::NotAllowed),
    }
}

// An open state, for the side with the turn.
#[tactic(auto, unfolding(crate::specs::Step::turn_step, base::specs::Pick::pick))]
fn turn_step(session: u32, count: u8, turn: Side, m: Move) -> Result<State, Refusal>
    ensures { result ≡ turn_step session count turn m }
{
    match m {
        Move::Negotiate {
            session: named,
            count: lower,
        } => {
            if named != session {
                return Err(Refusal::NotAllowed);
            }
            lower_step(session, count, turn, lower)
        }
        Move::Wait { session: named } => {
            if named != session {
                return Err(Refusal::NotAllowed);
            }
            Ok(State::Open {
                session,
                count,
                turn,
            })
        }
        Move::End { session: named } => {
            if named != session {
                return Err(Refusal::NotAllowed);
            }
            Ok(State::Closed)
        }
        _ => Err(Refusal::NotAllowed),
    }
}

// A Negotiate: a count exactly one lower and at least 1. The turn passes.
#[tactic(auto, unfolding(crate::specs::Step::lower_step, base::specs::Pick::pick))]
fn lower_step(session: u32, count: u8, turn: Side, lower: u8) -> Result<State, Refusal>
    ensures { result ≡ lower_step session count turn lower }
{
    if lower == 0 {
        return Err(Refusal::NotAllowed);
    }
    if lower as u16 + 1 != count as u16 {
        return Err(Refusal::NotAllowed);
    }
    Ok(State::Open {
        session,
        count: lower,
        turn: turn.other(),
    })
}

#[tactic(auto, unfolding(crate::specs::Step::move_of, base::specs::Pick::pick))]
fn move_of(m: Message) -> Move
    ensures { result ≡ move_of m }
{
    match m {
        Message::RequestNegotiation { session, objective } => Move::Request {
            session,
            count: objective.count,
        },
        Message::Negotiate { session, objective } => Move::Negotiate {
            session,
            count: objective.count,
        },
        Message::End { session, .. } => Move::End { session },
        Message::Wait { session, .. } => Move::Wait { session },
        _ => Move::Other,
    }
}
