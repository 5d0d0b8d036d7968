// A message that was read, as a description for the writer: its numbers and spans, and its locators or pairs as rows of
// a list.
ghost use Rattle.std.specs.Prelude.{◌≡◌};
ghost use Rattle.message.specs.Shape.{exchange_of};
ghost use Rattle.message.specs.declared.Message.{Message};
ghost use Rattle.forms.specs.Describe.{given_of, given_extra, is_divert, description_of};

use description::{Description, GivenObjective};
use message::{Message, Targets};
use options::Span;
use options::objective::Objective;

// The description of a message; the spans are places of its bytes.
pub fn description_of(m: Message) -> Description
    ensures { result ≡ description_of m }
{
    match m {
        Message::Noop => Description::Noop,
        Message::Discovery {
            session,
            initiator,
            objective,
        } => Description::Discovery {
            session,
            initiator,
            objective: given_of(objective),
        },
        Message::Response {
            session,
            initiator,
            ttl,
            targets,
            extra,
        } => response_of(session, initiator, ttl, targets, extra),
        Message::RequestNegotiation { session, objective } => exchange(3, session, objective),
        Message::RequestSynchronization { session, objective } => exchange(4, session, objective),
        Message::Negotiate { session, objective } => exchange(5, session, objective),
        Message::End { session, outcome } => Description::End { session, outcome },
        Message::Wait { session, time } => Description::Wait { session, time },
        Message::Synch { session, objective } => exchange(8, session, objective),
        Message::Flood {
            session,
            initiator,
            ttl,
            ..
        } => Description::Flood {
            session,
            initiator,
            ttl,
        },
        Message::Invalid { session, item } => Description::Invalid { session, item },
    }
}

fn response_of(
    session: u32,
    initiator: Span,
    ttl: u32,
    targets: Targets,
    extra: Option<Objective>,
) -> Description
    ensures { result ≡ description_of (Message.Response session initiator ttl targets extra) }
{
    Description::Response {
        session,
        initiator,
        ttl,
        divert: is_divert(targets),
        extra: extra_of(extra),
    }
}

// Kinds 3, 4, 5 and 8, which have a session and an objective alone.
fn exchange(kind: u8, session: u32, o: Objective) -> Description
    ensures { result ≡ description_of (exchange_of kind session o) }
{
    let objective = given_of(o);
    if kind == 3 {
        return Description::RequestNegotiation { session, objective };
    }
    if kind == 4 {
        return Description::RequestSynchronization { session, objective };
    }
    if kind == 5 {
        return Description::Negotiate { session, objective };
    }
    Description::Synch { session, objective }
}

fn given_of(o: Objective) -> GivenObjective
    ensures { result ≡ given_of o }
{
    let name = o.name;
    let value = o.value;
    GivenObjective {
        name,
        flags: o.flags,
        count: o.count,
        value,
    }
}

#[tactic(auto, unfolding(crate::specs::Describe::given_extra))]
fn extra_of(extra: Option<Objective>) -> Option<GivenObjective>
    ensures { result ≡ given_extra extra }
{
    match extra {
        None => None,
        Some(objective) => Some(given_of(objective)),
    }
}

fn is_divert(targets: Targets) -> bool
    ensures { result ≡ is_divert targets }
{
    match targets {
        Targets::Locators { .. } => false,
        Targets::Divert { .. } => true,
    }
}
