// One node call.
ghost use Rattle.std.specs.Prelude.{◌≡◌, ◌<◌, length, true, false};
ghost use Rattle.node.specs.Call.{call_of, after_of, after_given, barred, node_call, taken};
ghost use Rattle.node.specs.Passed.{Passed};
ghost use Rattle.node_state.specs.Record.{record_bad, arrival_bad, clocked};
ghost use Rattle.node_state.specs.Table.{freed};
ghost use Rattle.node.specs.Role.{RoleIn};

use crate::role::Role;
use crate::{CallAnswer, Verdict, mask, role, spread};
use message::MOST_BYTES;
use node_state::{Record, table};
use refusal::Refusal;

// What a node does with a message that arrives on an interface, and the record after it: refused in the order of
// rules 8.3, then by the message's own refusal; else the first verdict that applies. A refusal leaves table and output
// as they were, and the caller's own record is the one that stays.
pub fn node_call(
    node: Record,
    table: &mut [u64],
    clock: u64,
    interface: u64,
    names: &[u8],
    message: &[u8],
    out: &mut [u8],
) -> Result<CallAnswer, Refusal>
    ensures { after_of node result table.new out.new ≡ node_call node table.old
        (call_of clock interface names.now message.now out.old) }
{
    barred_by(node, table, clock, interface, names, out.len())?;
    let role = role::role_of(reader::read(message)?);
    let interface = interface as u8;
    Ok(take(node, table, clock, interface, names, message, role, out))
}

// Whether anything bars the call before its message is read, in the order of rules 8.3.
#[tactic(auto, unfolding(crate::specs::Call::barred, base::specs::Pick::pick))]
fn barred_by(
    node: Record,
    table: &[u64],
    clock: u64,
    interface: u64,
    names: &[u8],
    room: usize,
) -> Result<(), Refusal>
    ensures { result ≡ barred node table.now clock interface names.now room }
{
    if node.is_bad() {
        return Err(Refusal::BadRecord);
    }
    if is_bad_arrival(node, interface) {
        return Err(Refusal::BadLink);
    }
    if clock < node.clock {
        return Err(Refusal::EarlyClock);
    }
    if table::is_bad(table, clock) {
        return Err(Refusal::BadTable);
    }
    if names::are_bad(names) {
        return Err(Refusal::BadNames);
    }
    if room < MOST_BYTES {
        return Err(Refusal::CallOutput);
    }
    Ok(())
}

// The arriving interface isn't below the count, or its link is down.
fn is_bad_arrival(node: Record, interface: u64) -> bool
    requires { record_bad node ≡ false }
    ensures { result ≡ arrival_bad node interface }
{
    if node.interfaces as u64 <= interface {
        return true;
    }
    !mask::is_up(node.links, interface as u8)
}

// The verdict on a message that was read, after every dead row is freed and the clock taken.
fn take(
    node: Record,
    table: &mut [u64],
    clock: u64,
    interface: u8,
    names: &[u8],
    message: &[u8],
    role: Role,
    out: &mut [u8],
) -> CallAnswer
    requires passed { Passed node table.old clock interface (length out.old) }
    requires read { RoleIn message.now role }
    ensures { after_given result table.new out.new
        ≡ taken (clocked node clock) (freed clock table.old)
        (call_of clock interface names.now message.now out.old) role }
{
    table::free_dead(table, clock);
    let node = Record { clock, ..node };
    match role {
        Role::Noop => crate::quiet(node, Verdict::Noop, false),
        Role::Upward => crate::quiet(node, Verdict::Hand, true),
        Role::Spreads(s) => spread::judge(node, table, interface, names, message, s, out),
    }
}
