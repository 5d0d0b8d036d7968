// The description judged by itself.
ghost use Rattle.std.specs.Prelude.{ℕ, Bool, ◌<◌, ◌≡◌, ◌+◌, ◌*◌, ◌≤◌, length};
ghost use Rattle.options.specs.Text.{held};
ghost use Rattle.description.specs.Meaning.{locator_row, pair_row, objective_row_of};
ghost use Rattle.description.specs.Judge.{ok_each, whole, inside, ok_value, ok_item, ok_objective_row, ok_locator_row};
ghost use Rattle.description.specs.Judge.{blank_locator_row, ok_none_or, ok_row, ok_rows, ok_pair, ok_pairs};
ghost use Rattle.description.specs.Judge.{ok_extra, ok_outcome, ok_discovery, ok_response, ok_flood, ok_parts};
ghost use Rattle.description.specs.Judge.{has_list, ok_list, ok_described};

use crate::rows::{LOCATOR_ROW, LocatorRow, OBJECTIVE_ROW, ObjectiveRow, PAIR_ROW};
use crate::{Description, GivenObjective, rows, spans};
use cbor::item;
use options::Span;
use options::outcome::Outcome;

// Whether the description speaks of a message: a list only where the kind has one, and all its parts in order.
pub fn ok_described(source: &[u8], list: &[u64], m: Description) -> bool
    ensures { result ≡ ok_described source.now list.now m }
{
    if ok_list(list, m) {
        return ok_parts(source, list, m);
    }
    false
}

fn ok_list(list: &[u64], m: Description) -> bool
    ensures { result ≡ ok_list list.now m }
{
    if has_list(m) {
        return true;
    }
    list.len() == 0
}

fn has_list(m: Description) -> bool
    ensures { result ≡ has_list m }
{
    matches!(m, Description::Response { .. } | Description::Flood { .. })
}

fn ok_parts(source: &[u8], list: &[u64], m: Description) -> bool
    ensures { result ≡ ok_parts source.now list.now m }
{
    match m {
        Description::Noop => true,
        Description::Discovery {
            initiator,
            objective,
            ..
        } => ok_discovery(source, initiator, objective),
        Description::Response {
            initiator,
            extra,
            ..
        } => ok_response(source, list, initiator, extra),
        Description::RequestNegotiation { objective, .. } => ok_given(source, objective),
        Description::RequestSynchronization { objective, .. } => ok_given(source, objective),
        Description::Negotiate { objective, .. } => ok_given(source, objective),
        Description::End { outcome, .. } => ok_outcome(source, outcome),
        Description::Wait { .. } => true,
        Description::Synch { objective, .. } => ok_given(source, objective),
        Description::Flood { initiator, .. } => ok_flood(source, list, initiator),
        Description::Invalid { item, .. } => ok_item(source, item),
    }
}

fn ok_discovery(source: &[u8], initiator: Span, o: GivenObjective) -> bool
    ensures { result ≡ ok_discovery source.now initiator (objective_row_of o) }
{
    if is_inside(source, initiator) {
        return ok_given(source, o);
    }
    false
}

fn ok_response(source: &[u8], list: &[u64], initiator: Span, extra: Option<GivenObjective>) -> bool
    ensures { result ≡ ok_response source.now list.now initiator extra }
{
    if is_inside(source, initiator) {
        if ok_rows(source, list) {
            return ok_extra(source, extra);
        }
        return false;
    }
    false
}

#[tactic(auto, unfolding(crate::specs::Judge::ok_extra))]
fn ok_extra(source: &[u8], extra: Option<GivenObjective>) -> bool
    ensures { result ≡ ok_extra source.now extra }
{
    match extra {
        None => true,
        Some(o) => ok_given(source, o),
    }
}

fn ok_outcome(source: &[u8], outcome: Outcome) -> bool
    ensures { result ≡ ok_outcome source.now outcome }
{
    match outcome {
        Outcome::Accept => true,
        Outcome::Decline => true,
        Outcome::Reason(text) => is_inside(source, text),
    }
}

fn ok_flood(source: &[u8], list: &[u64], initiator: Span) -> bool
    ensures { result ≡ ok_flood source.now list.now initiator }
{
    if is_inside(source, initiator) {
        return ok_pairs(source, list);
    }
    false
}

// Whole rows of so many numbers, each of which passes.
fn ok_each<F: Fn(usize) -> bool>(list: &[u64], size: usize, ok: F) -> bool
    requires size { 0 < size }
    requires callable { (i : ℕ) → size * i + size ≤ length list.now → F.pre ok i }
    ensures { (p : ℕ → Bool) → ((i : ℕ) (r : Bool) → F.post ok i r → r ≡ p i) → result ≡ ok_each size p list.now }
{
    if list.len() % size != 0 {
        return false;
    }
    for i in 0..list.len() / size {
        if !ok(i) {
            return false;
        }
    }
    true
}

fn ok_rows(source: &[u8], list: &[u64]) -> bool
    ensures { result ≡ ok_rows source.now list.now }
{
    ok_each(list, LOCATOR_ROW, |i| ok_row(source, list, i))
}

fn ok_row(source: &[u8], list: &[u64], i: usize) -> bool
    requires { locator_row * i + locator_row ≤ length list.now }
    ensures { result ≡ ok_row source.now list.now i }
{
    let p = rows::locator_row_at(list, LOCATOR_ROW * i);
    ok_locator_row(source, p)
}

fn ok_pairs(source: &[u8], list: &[u64]) -> bool
    ensures { result ≡ ok_pairs source.now list.now }
{
    ok_each(list, PAIR_ROW, |i| ok_pair(source, list, i))
}

fn ok_pair(source: &[u8], list: &[u64], i: usize) -> bool
    requires { pair_row * i + pair_row ≤ length list.now }
    ensures { result ≡ ok_pair source.now list.now i }
{
    if list[PAIR_ROW * i + 4] != 0 {
        return false;
    }
    let o = rows::objective_row_at(list, PAIR_ROW * i);
    let p = rows::locator_row_at(list, PAIR_ROW * i + OBJECTIVE_ROW);
    if ok_objective_row(source, o) {
        return ok_none_or(source, p);
    }
    false
}

// A pair's locator: none, which is five zeros, or one of a known kind.
fn ok_none_or(source: &[u8], p: LocatorRow) -> bool
    ensures { result ≡ ok_none_or source.now p }
{
    let kind = p.kind;
    if kind == 0 {
        return is_blank(p);
    }
    ok_locator_row(source, p)
}

fn is_blank(p: LocatorRow) -> bool
    ensures { result ≡ blank_locator_row p }
{
    if p.content.at != 0 {
        return false;
    }
    if p.content.len != 0 {
        return false;
    }
    if p.protocol != 0 {
        return false;
    }
    p.port == 0
}

fn ok_locator_row(source: &[u8], p: LocatorRow) -> bool
    ensures { result ≡ ok_locator_row source.now p }
{
    let kind = p.kind;
    if kind < 103 {
        return false;
    }
    if 106 < kind {
        return false;
    }
    is_inside(source, p.content)
}

fn ok_given(source: &[u8], o: GivenObjective) -> bool
    ensures { result ≡ ok_objective_row source.now (objective_row_of o) }
{
    let entry = rows::objective_row_of(o);
    ok_objective_row(source, entry)
}

fn ok_objective_row(source: &[u8], o: ObjectiveRow) -> bool
    ensures { result ≡ ok_objective_row source.now o }
{
    if is_inside(source, o.name) {
        return ok_item(source, o.value);
    }
    false
}

// A value, or Invalid's item: inside the source, and one item by itself, or no bytes.
fn ok_item(source: &[u8], s: Span) -> bool
    ensures { result ≡ ok_item source.now s }
{
    if is_inside(source, s) {
        return ok_value(source, s);
    }
    false
}

fn is_inside(source: &[u8], s: Span) -> bool
    ensures { result ≡ inside source.now s }
{
    spans::covered(source, s) == s.len
}

fn ok_value(source: &[u8], s: Span) -> bool
    ensures { result ≡ ok_value (held source.now s) }
{
    let from = s.at;
    let len = s.len;
    if source.len() < from {
        return true;
    }
    let room = source.len() - from;
    if room < len {
        return ok_bytes(&source[from..]);
    }
    let end = from + len;
    ok_bytes(&source[from..end])
}

fn ok_bytes(s: &[u8]) -> bool
    ensures { result ≡ ok_value s.now }
{
    if s.len() == 0 {
        return true;
    }
    is_whole(s)
}

// Whether the bytes are one item and nothing else.
#[tactic(auto, unfolding(crate::specs::Judge::whole, crate::specs::Judge::alone), using(base::proofs::Picks::pick_same))]
fn is_whole(s: &[u8]) -> bool
    ensures { result ≡ whole s.now }
{
    match item::first(0, s) {
        Err(_) => false,
        Ok(end) => end == s.len(),
    }
}
