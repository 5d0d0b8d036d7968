// The node call, for C.
ghost use Rattle.std.specs.Prelude.{◌≡◌};
ghost use Rattle.node.specs.Call.{call_of};
ghost use Rattle.host.specs.Call.{left_of};
ghost use Rattle.grasp.specs.Call.{host_call};

use crate::records;
use host::call;
use host::records::node_of;

// 0 and the record's numbers, the table, the output and the answer (verdict, handed up, mask, length) as the call
// leaves them; or the number of the refusal, and all of them as they were. The table is lent as 2,048 bytes; another
// length is 15 in its turn.
pub fn grasp_node_call(
    address: &[u8; 16],
    numbers: &mut [u64; 6],
    bytes: &mut [u8],
    clock: u64,
    interface: u64,
    names: &[u8],
    message: &[u8],
    out: &mut [u8],
    answer: &mut [u64; 4],
) -> u8
    ensures { left_of result numbers.new bytes.new out.new answer.new
        ≡ host_call address.now numbers.old bytes.old
        (call_of clock interface names.now message.now out.old)
        answer.old }
{
    let node = node_of(address, numbers);
    let kept = call::call_into(node, bytes, clock, interface, names, message, out, answer);
    records::put(kept, numbers)
}
