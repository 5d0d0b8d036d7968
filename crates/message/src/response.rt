// Response (RFC 8990, section 2.8.5): session, initiator, ttl, then locators or a divert, then an optional objective.
ghost use Rattle.std.specs.Prelude.{◌≡◌, ◌≤◌};
ghost use Rattle.message.specs.Response.{response_of, rest_at, located_at, targets_at, response_at};

use crate::opening::Opening;
use crate::shape::OBJECTIVE_LEVELS;
use crate::{Message, Series, Targets, opening};
use options::objective::Objective;
use options::{Departure, Part, divert, locators, objective};

// A Response of n items in all, its session at `at`.
#[tactic(auto, unfolding(crate::specs::Response::response_at, crate::specs::Response::response_by, base::specs::Pick::pick))]
pub(crate) fn read_at(s: &[u8], n: u64, at: usize) -> Result<Part<Message>, Departure>
    ensures { result ≡ response_at s.now n at }
{
    if n < 5 {
        return Err(Departure { place: 0 });
    }
    let (opening, next) = opening::read_at(s, at)?;
    targets_at(s, opening, n - 4, next)
}

// What follows the ttl, n items from `at` on.
#[tactic(auto, unfolding(crate::specs::Response::targets_at, crate::specs::Response::targets_of))]
fn targets_at(s: &[u8], opening: Opening, n: u64, at: usize) -> Result<Part<Message>, Departure>
    requires { 1 ≤ n }
    ensures { result ≡ targets_at s.now opening n at }
{
    let Some(d) = divert::read_at(s, at)? else {
        return located_at(s, opening, n, at);
    };
    let targets = Targets::Divert {
        first: d.value.first,
        series: Series {
            at: d.value.at,
            many: d.value.many,
        },
    };
    rest_at(s, opening, targets, n - 1, at + d.size, d.bad)
}

// Locators from `at` on, in n items.
#[tactic(auto, unfolding(crate::specs::Response::located_at, crate::specs::Response::located_of))]
fn located_at(s: &[u8], opening: Opening, n: u64, at: usize) -> Result<Part<Message>, Departure>
    requires { 1 ≤ n }
    ensures { result ≡ located_at s.now opening n at }
{
    let l = locators::read_at(s, at, n - 1)?;
    let targets = Targets::Locators {
        first: l.first,
        series: Series {
            at,
            many: n - l.left,
        },
    };
    rest_at(s, opening, targets, l.left, at + l.end, l.bad)
}

// What follows the locators or the divert: `left` items from `at` on.
#[tactic(auto, unfolding(crate::specs::Response::rest_at, crate::specs::Response::rest_of, base::specs::Pick::pick))]
fn rest_at(
    s: &[u8],
    opening: Opening,
    targets: Targets,
    left: u64,
    at: usize,
    bad: Option<usize>,
) -> Result<Part<Message>, Departure>
    ensures { result ≡ rest_at s.now opening targets left at bad }
{
    if left == 0 {
        return Ok(Part {
            value: response_of(opening, targets, None),
            size: at,
            bad,
            long: None,
        });
    }
    let o = objective::read_at(OBJECTIVE_LEVELS, s, at)?;
    if left != 1 {
        return Err(Departure { place: at + o.size });
    }
    Ok(Part {
        value: response_of(opening, targets, Some(o.value)),
        size: at + o.size,
        bad: bad.or(o.bad),
        long: o.long,
    })
}

// The Response with this opening.
fn response_of(opening: Opening, targets: Targets, extra: Option<Objective>) -> Message
    ensures { result ≡ response_of opening targets extra }
{
    Message::Response {
        session: opening.session,
        initiator: opening.initiator,
        ttl: opening.ttl,
        targets,
        extra,
    }
}
