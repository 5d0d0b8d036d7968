// The verdicts on a Discovery or a Flood, in their order (rules 9.2, 9.3), and what each sends (rules 9.6).
ghost use Rattle.std.specs.Prelude.{◌≡◌, ◌≤◌, ◌<◌, length, List, ℕ, not, ◌&&◌, false, ◌^◌};
ghost use Rattle.std.specs.Int.Count.{ones};
ghost use Rattle.options.specs.Text.{held};
ghost use Rattle.rfc8990.specs.Limits.{most_bytes};
ghost use Rattle.base.specs.Bytes.{same_bytes};
ghost use Rattle.names.specs.Names.{is_named};
ghost use Rattle.node.specs.declared.Verdict.TheVariants.{Answer, Relay};
ghost use Rattle.node.specs.declared.role.Role.TheVariants.{Spreads};
ghost use Rattle.node_state.specs.Record.{tallied};
ghost use Rattle.node.specs.Role.{RoleIn, Within, key_in};
ghost use Rattle.node.specs.Call.{call_of, after_given, gives, later_verdict, verdict_on, carried_out, response};
ghost use Rattle.node.specs.Passed.{Ready};
ghost use Rattle.cbor.specs.Put.{written};
ghost use Rattle.writer.specs.Lower.{onward};

use crate::role::Spread;
use crate::{CallAnswer, Given, Verdict, mask};
use base::bytes;
use node_state::key::Key;
use node_state::{Record, key, table};

// OWN, ANSWER, DUPLICATE, then the others.
pub(crate) fn judge(
    node: Record,
    table: &mut [u64],
    interface: u8,
    names: &[u8],
    message: &[u8],
    s: Spread,
    out: &mut [u8],
) -> CallAnswer
    requires ready { Ready node table.old interface (length out.old) }
    requires read { RoleIn message.now (Spreads s) }
    ensures { after_given result table.new out.new ≡ carried_out node table.old
        (call_of node.clock interface names.now message.now out.old) s
        (verdict_on node table.old
        (call_of node.clock interface names.now message.now out.old) s) }
{
    if is_own(node, message, s) {
        return crate::quiet(node, Verdict::Own, false);
    }
    if is_named(names, message, s) {
        return answer(node, interface, message, s, out);
    }
    let key = key_in(message, s);
    if table::knows(table, key) {
        return crate::quiet(node, Verdict::Duplicate, false);
    }
    relay_or_end(node, table, interface, message, s, key, out)
}

// The initiator is the node itself.
fn is_own(node: Record, message: &[u8], s: Spread) -> bool
    requires { Within message.now s }
    ensures { result ≡ same_bytes (held message.now s.initiator) node.address }
{
    let at = s.initiator.at;
    let to = at + s.initiator.len;
    let address = node.address;
    bytes::are_same(&message[at..to], &address)
}

// A Discovery asks for one of the node's own names.
fn is_named(names: &[u8], message: &[u8], s: Spread) -> bool
    requires { Within message.now s }
    ensures { result ≡ (not s.flood && is_named names.now (held message.now s.objective.name)) }
{
    if s.flood {
        return false;
    }
    let at = s.objective.name.at;
    let to = at + s.objective.name.len;
    names::is_named(names, &message[at..to])
}

// ANSWER: a Response goes back by the arriving interface.
fn answer(node: Record, interface: u8, message: &[u8], s: Spread, out: &mut [u8]) -> CallAnswer
    requires small { interface < 8 }
    requires fits { most_bytes ≤ length out.old }
    requires within { Within message.now s }
    ensures value { result ≡ gives Answer false (2 ^ interface) (length (response node message.now s)) node }
    ensures out_after { out.new ≡ written (response node message.now s) out.old }
{
    let length = put_response(node, message, s, out);
    CallAnswer {
        given: Given {
            verdict: Verdict::Answer,
            handed_up: false,
            mask: 1 << interface,
            length,
        },
        node,
    }
}

// The Response at the front of the output, and its length.
fn put_response(node: Record, message: &[u8], s: Spread, out: &mut [u8]) -> usize
    requires fits { most_bytes ≤ length out.old }
    requires within { Within message.now s }
    ensures value { result ≡ length (response node message.now s) }
    ensures out_after { out.new ≡ written (response node message.now s) out.old }
{
    let at = s.initiator.at;
    let to = at + s.initiator.len;
    let address = node.address;
    let sent = writer::answer::answer(
        s.session,
        &message[at..to],
        node.ttl,
        &address,
        node.port,
        out,
    );
    // Never refused here: the initiator has 4 or 16 bytes, and the output has room.
    sent.unwrap_or(0)
}

// The key of the row of s.
fn key_in(message: &[u8], s: Spread) -> Key
    requires { Within message.now s }
    ensures { result ≡ key_in message.now s }
{
    let at = s.initiator.at;
    let to = at + s.initiator.len;
    key::key_of(s.flood, s.session, &message[at..to])
}

// LAST, NOWHERE, NOROW, RELAY: whatever the own names are.
fn relay_or_end(
    node: Record,
    table: &mut [u64],
    interface: u8,
    message: &[u8],
    s: Spread,
    key: Key,
    out: &mut [u8],
) -> CallAnswer
    requires ready { Ready node table.old interface (length out.old) }
    requires read { RoleIn message.now (Spreads s) }
    requires key { key ≡ key_in message.now s }
    ensures { (names : List ℕ) → after_given result table.new out.new ≡ carried_out node table.old
        (call_of node.clock interface names message.now out.old) s (later_verdict node
        table.old (call_of node.clock interface names message.now out.old) s) }
{
    if s.objective.count <= 1 {
        return crate::quiet(node, Verdict::Last, s.flood);
    }
    let mask = mask::others(node.links, interface);
    if mask == 0 {
        return crate::quiet(node, Verdict::Nowhere, s.flood);
    }
    if table::fill_lowest(table, key, node.clock).is_none() {
        return crate::quiet(node, Verdict::NoRow, s.flood);
    }
    let length = put_onward(message, s, out);
    relayed(node, s.flood, mask, length)
}

// The message with its count one lower at the front of the output, and its length.
fn put_onward(message: &[u8], s: Spread, out: &mut [u8]) -> usize
    requires counts { 1 ≤ s.objective.count }
    requires fits { most_bytes ≤ length out.old }
    requires read { RoleIn message.now (Spreads s) }
    ensures value { result ≡ length (onward message.now s.objective) }
    ensures out_after { out.new ≡ written (onward message.now s.objective) out.old }
{
    let o = s.objective;
    let sent = writer::relay::lower(message, o.count_at, o.value.at, o.count, out);
    // Never refused here: the count is at least 1, and the output has room.
    sent.unwrap_or(0)
}

// RELAY: the copies, which are the ones in the mask, are tallied.
fn relayed(node: Record, flood: bool, mask: u8, length: usize) -> CallAnswer
    requires { node.tally ≤ 2 ^ 63 }
    ensures { result ≡ gives Relay flood mask length (tallied node (ones mask)) }
{
    let copies = u8::count_ones(mask);
    let mut next = node;
    next.tally = node.tally + copies as u64;
    CallAnswer {
        given: Given {
            verdict: Verdict::Relay,
            handed_up: flood,
            mask,
            length,
        },
        node: next,
    }
}
