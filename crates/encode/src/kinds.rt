// The eleven kinds put (RFC 8990, section 2.8), each from the front of the buffer.
ghost use Rattle.options.specs.Text.{held};
ghost use Rattle.encode.specs.Put.{Wrote};
ghost use Rattle.rfc8990.specs.Message.{Msg};
ghost use Rattle.rfc8990.specs.Message as Syntax;
ghost use Rattle.rfc8990.specs.Encoding.{preamble, exchange, encode_msg, encode_obj, encode_targets, maybe_obj};
ghost use Rattle.description.specs.Meaning.{objective_row_of, obj_of, targets_of, pairs_of, extra_of, end_of, msg_of};

use crate::{locator, objective, pair, put};
use description::rows::{LOCATOR_ROW, PAIR_ROW};
use description::{Description, GivenObjective, counts, rows};
use options::Span;
use options::outcome::Outcome;

// The message of a description.
pub(crate) fn put_message(out: &mut [u8], source: &[u8], list: &[u64], m: Description) -> usize
    ensures { Wrote out.old out.new 0
        (encode_msg (msg_of source.now list.now m)) result }
{
    match m {
        Description::Noop => put_noop(out),
        Description::Discovery {
            session,
            initiator,
            objective,
        } => put_discovery(out, source, session, initiator, objective),
        Description::Response {
            session,
            initiator,
            ttl,
            divert,
            extra,
        } => { put_response(out, source, list, session, initiator, ttl, divert, extra) }
        Description::RequestNegotiation { session, objective } => {
            put_exchange(out, source, 3, session, objective)
        }
        Description::RequestSynchronization { session, objective } => {
            put_exchange(out, source, 4, session, objective)
        }
        Description::Negotiate { session, objective } => {
            put_exchange(out, source, 5, session, objective)
        }
        Description::End { session, outcome } => put_end(out, source, session, outcome),
        Description::Wait { session, time } => put_wait(out, session, time),
        Description::Synch { session, objective } => {
            put_exchange(out, source, 8, session, objective)
        }
        Description::Flood {
            session,
            initiator,
            ttl,
        } => put_flood(out, source, list, session, initiator, ttl),
        Description::Invalid { session, item } => put_invalid(out, source, session, item),
    }
}

// The head of n items, the kind and the session.
pub(crate) fn put_preamble(out: &mut [u8], n: u64, kind: u64, session: u32) -> usize
    ensures { Wrote out.old out.new 0 (preamble n kind session) result }
{
    let a = put::head(out, 0, 4, n);
    let b = put::head(out, a, 0, kind);
    put::head(out, b, 0, session as u64)
}

pub(crate) fn put_noop(out: &mut [u8]) -> usize
    ensures { Wrote out.old out.new 0 (encode_msg Msg.noop) result }
{
    let a = put::head(out, 0, 4, 1);
    put::head(out, a, 0, 0)
}

pub(crate) fn put_given(out: &mut [u8], at: usize, source: &[u8], o: GivenObjective) -> usize
    ensures { Wrote out.old out.new at
        (encode_obj (obj_of source.now (objective_row_of o))) result }
{
    let entry = rows::objective_row_of(o);
    objective::put_objective_row(out, at, source, entry)
}

pub(crate) fn put_discovery(
    out: &mut [u8],
    source: &[u8],
    session: u32,
    initiator: Span,
    o: GivenObjective,
) -> usize
    ensures { Wrote out.old out.new 0 (encode_msg (Msg.discovery session
        (held source.now initiator) (obj_of source.now (objective_row_of o)))) result }
{
    let a = put_preamble(out, 4, 1, session);
    let b = put::part_string(out, a, 2, source, initiator);
    put_given(out, b, source, o)
}

pub(crate) fn put_response(
    out: &mut [u8],
    source: &[u8],
    list: &[u64],
    session: u32,
    initiator: Span,
    ttl: u32,
    divert: bool,
    extra: Option<GivenObjective>,
) -> usize
    ensures { Wrote out.old out.new 0
        (encode_msg (Msg.response session (held source.now initiator) ttl
        (targets_of source.now list.now divert) (extra_of source.now extra))) result }
{
    let targets = counts::target_items(list, divert);
    let more = counts::how_many(extra);
    let a = put_preamble(out, 4 + (targets + more), 2, session);
    let b = put::part_string(out, a, 2, source, initiator);
    let c = put::head(out, b, 0, ttl as u64);
    let d = put_targets(out, c, source, list, divert);
    put_extra(out, d, source, extra)
}

pub(crate) fn put_targets(
    out: &mut [u8],
    at: usize,
    source: &[u8],
    list: &[u64],
    divert: bool,
) -> usize
    ensures { Wrote out.old out.new at
        (encode_targets (targets_of source.now list.now divert)) result }
{
    if divert {
        let rows = (list.len() / LOCATOR_ROW) as u64;
        let a = put::head(out, at, 4, 1 + rows);
        let b = put::head(out, a, 0, 100);
        return locator::put_rows(out, b, source, list);
    }
    locator::put_rows(out, at, source, list)
}

pub(crate) fn put_extra(
    out: &mut [u8],
    at: usize,
    source: &[u8],
    extra: Option<GivenObjective>,
) -> usize
    ensures { Wrote out.old out.new at (maybe_obj (extra_of source.now extra)) result }
{
    match extra {
        None => at,
        Some(o) => put_given(out, at, source, o),
    }
}

// Kinds 3, 4, 5 and 8.
pub(crate) fn put_exchange(
    out: &mut [u8],
    source: &[u8],
    kind: u64,
    session: u32,
    o: GivenObjective,
) -> usize
    ensures { Wrote out.old out.new 0
        (exchange kind session (obj_of source.now (objective_row_of o))) result }
{
    let a = put_preamble(out, 3, kind, session);
    put_given(out, a, source, o)
}

pub(crate) fn put_end(out: &mut [u8], source: &[u8], session: u32, outcome: Outcome) -> usize
    ensures { Wrote out.old out.new 0
        (encode_msg (Msg.end session (end_of source.now outcome))) result }
{
    match outcome {
        Outcome::Accept => put_accept(out, session),
        Outcome::Decline => put_decline(out, session),
        Outcome::Reason(text) => put_reason(out, source, session, text),
    }
}

pub(crate) fn put_accept(out: &mut [u8], session: u32) -> usize
    ensures { Wrote out.old out.new 0 (encode_msg (Msg.end session Syntax.Outc.accept)) result }
{
    let a = put_preamble(out, 3, 6, session);
    let b = put::head(out, a, 4, 1);
    put::head(out, b, 0, 101)
}

pub(crate) fn put_decline(out: &mut [u8], session: u32) -> usize
    ensures { Wrote out.old out.new 0 (encode_msg (Msg.end session Syntax.Outc.decline)) result }
{
    let a = put_preamble(out, 3, 6, session);
    let b = put::head(out, a, 4, 1);
    put::head(out, b, 0, 102)
}

pub(crate) fn put_reason(out: &mut [u8], source: &[u8], session: u32, text: Span) -> usize
    ensures { Wrote out.old out.new 0
        (encode_msg (Msg.end session (Syntax.Outc.reason (held source.now text)))) result }
{
    let a = put_preamble(out, 3, 6, session);
    let b = put::head(out, a, 4, 2);
    let c = put::head(out, b, 0, 102);
    put::part_string(out, c, 3, source, text)
}

pub(crate) fn put_wait(out: &mut [u8], session: u32, time: u32) -> usize
    ensures { Wrote out.old out.new 0 (encode_msg (Msg.wait session time)) result }
{
    let a = put_preamble(out, 3, 7, session);
    put::head(out, a, 0, time as u64)
}

pub(crate) fn put_flood(
    out: &mut [u8],
    source: &[u8],
    list: &[u64],
    session: u32,
    initiator: Span,
    ttl: u32,
) -> usize
    ensures { Wrote out.old out.new 0 (encode_msg (Msg.flood session
        (held source.now initiator) ttl (pairs_of source.now list.now))) result }
{
    let rows = (list.len() / PAIR_ROW) as u64;
    let a = put_preamble(out, 4 + rows, 9, session);
    let b = put::part_string(out, a, 2, source, initiator);
    let c = put::head(out, b, 0, ttl as u64);
    pair::put_pairs(out, c, source, list)
}

pub(crate) fn put_invalid(out: &mut [u8], source: &[u8], session: u32, item: Span) -> usize
    ensures { Wrote out.old out.new 0
        (encode_msg (Msg.invalid session (held source.now item))) result }
{
    let more = counts::one_more(source, item);
    let a = put_preamble(out, 2 + more, 99, session);
    put::part(out, a, source, item)
}
