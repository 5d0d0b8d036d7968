// What was read, as a block of numbers in fixed places.
ghost use Rattle.std.specs.Prelude.{◌≡◌};
ghost use Rattle.forms.specs.Block.{front_block, with_objective, discovery_block, exchange_block};
ghost use Rattle.forms.specs.Block.{with_extra, with_series, targets_block, response_block, with_span};
ghost use Rattle.forms.specs.Block.{outcome_block, end_block, invalid_block, block_of};

use message::{Message, Series, Targets};
use options::Span;
use options::objective::Objective;
use options::outcome::Outcome;

// The span of what is not there.
const NONE: Span = Span { at: 0, len: 0 };

// The block of a message: kind, session, initiator (place, length), ttl or waiting time; 1 for an objective, its name
// (place, length), flags, count, the place of the count's head, its value (place, length); 1 for locators, 2 for a
// divert, 3 for pairs, the place of the first, how many; 1 for accept, 2 for decline, 3 for decline with a reason; the
// reason or Invalid's item (place, length). What the kind lacks is 0. It is filled in place, so that it isn't copied.
pub fn fill(b: &mut [u64; 19], m: Message)
    ensures { b.new ≡ block_of m }
{
    match m {
        Message::Noop => put_front(b, 0, 0, NONE, 0),
        Message::Discovery {
            session,
            initiator,
            objective,
        } => discovery(b, session, initiator, objective),
        Message::Response {
            session,
            initiator,
            ttl,
            targets,
            extra,
        } => response(b, session, initiator, ttl, targets, extra),
        Message::RequestNegotiation { session, objective } => exchange(b, 3, session, objective),
        Message::RequestSynchronization { session, objective } => {
            exchange(b, 4, session, objective)
        }
        Message::Negotiate { session, objective } => exchange(b, 5, session, objective),
        Message::End { session, outcome } => end(b, session, outcome),
        Message::Wait { session, time } => put_front(b, 7, session, NONE, time),
        Message::Synch { session, objective } => exchange(b, 8, session, objective),
        Message::Flood {
            session,
            initiator,
            ttl,
            first,
            pairs,
        } => {
            put_front(b, 9, session, initiator, ttl);
            let objective = first.objective;
            put_objective(b, objective);
            put_series(b, 3, pairs);
        }
        Message::Invalid { session, item } => invalid(b, session, item),
    }
}

fn discovery(b: &mut [u64; 19], session: u32, initiator: Span, o: Objective)
    ensures { b.new ≡ discovery_block session initiator o }
{
    put_front(b, 1, session, initiator, 0);
    put_objective(b, o);
}

fn response(
    b: &mut [u64; 19],
    session: u32,
    initiator: Span,
    ttl: u32,
    targets: Targets,
    extra: Option<Objective>,
)
    ensures { b.new ≡ response_block session initiator ttl targets extra }
{
    put_front(b, 2, session, initiator, ttl);
    put_extra(b, extra);
    put_targets(b, targets);
}

fn end(b: &mut [u64; 19], session: u32, outcome: Outcome)
    ensures { b.new ≡ end_block session outcome }
{
    put_front(b, 6, session, NONE, 0);
    put_outcome(b, outcome);
}

fn invalid(b: &mut [u64; 19], session: u32, item: Span)
    ensures { b.new ≡ invalid_block session item }
{
    put_front(b, 99, session, NONE, 0);
    put_span(b, 0, item);
}

// The block of a kind that has a session and an objective alone.
fn exchange(b: &mut [u64; 19], kind: u64, session: u32, o: Objective)
    ensures { b.new ≡ exchange_block kind session o }
{
    put_front(b, kind, session, NONE, 0);
    put_objective(b, o);
}

fn put_front(b: &mut [u64; 19], kind: u64, session: u32, initiator: Span, ttl: u32)
    ensures { b.new ≡ front_block kind session initiator ttl }
{
    *b = [0u64; 19];
    b[0] = kind;
    b[1] = session as u64;
    b[2] = initiator.at as u64;
    b[3] = initiator.len as u64;
    b[4] = ttl as u64;
}

fn put_objective(b: &mut [u64; 19], o: Objective)
    ensures { b.new ≡ with_objective b.old o }
{
    b[5] = 1;
    b[6] = o.name.at as u64;
    b[7] = o.name.len as u64;
    b[8] = o.flags as u64;
    b[9] = o.count as u64;
    b[10] = o.count_at as u64;
    b[11] = o.value.at as u64;
    b[12] = o.value.len as u64;
}

fn put_extra(b: &mut [u64; 19], extra: Option<Objective>)
    ensures { b.new ≡ with_extra b.old extra }
{
    match extra {
        None => {}
        Some(objective) => put_objective(b, objective),
    }
}

fn put_series(b: &mut [u64; 19], sort: u64, series: Series)
    ensures { b.new ≡ with_series b.old sort series }
{
    b[13] = sort;
    b[14] = series.at as u64;
    b[15] = series.many;
}

fn put_targets(b: &mut [u64; 19], targets: Targets)
    ensures { b.new ≡ targets_block b.old targets }
{
    match targets {
        Targets::Locators { series, .. } => put_series(b, 1, series),
        Targets::Divert { series, .. } => put_series(b, 2, series),
    }
}

fn put_span(b: &mut [u64; 19], sort: u64, span: Span)
    ensures { b.new ≡ with_span b.old sort span }
{
    b[16] = sort;
    b[17] = span.at as u64;
    b[18] = span.len as u64;
}

fn put_outcome(b: &mut [u64; 19], outcome: Outcome)
    ensures { b.new ≡ outcome_block b.old outcome }
{
    match outcome {
        Outcome::Accept => put_span(b, 1, NONE),
        Outcome::Decline => put_span(b, 2, NONE),
        Outcome::Reason(reason) => put_span(b, 3, reason),
    }
}
