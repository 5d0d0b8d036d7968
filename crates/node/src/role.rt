// What a node looks at in a message.
ghost use Rattle.std.specs.Prelude.{◌≡◌};
ghost use Rattle.node.specs.Role.{role_of};

use message::Message;
use options::Span;
use options::objective::Objective;

// A Discovery, or a Flood with its first objective.
#[derive(Clone, Copy)]
pub struct Spread {
    pub flood: bool,
    pub session: u32,
    pub initiator: Span,
    pub objective: Objective,
}

#[derive(Clone, Copy)]
pub enum Role {
    Noop,
    Upward,
    Spreads(Spread),
}

#[tactic(auto, unfolding(crate::specs::Role::role_of))]
pub(crate) fn role_of(m: Message) -> Role
    ensures { result ≡ role_of m }
{
    match m {
        Message::Noop => Role::Noop,
        Message::Discovery {
            session,
            initiator,
            objective,
        } => Role::Spreads(Spread {
            flood: false,
            session,
            initiator,
            objective,
        }),
        Message::Flood {
            session,
            initiator,
            first,
            ..
        } => Role::Spreads(Spread {
            flood: true,
            session,
            initiator,
            objective: first.objective,
        }),
        _ => Role::Upward,
    }
}
