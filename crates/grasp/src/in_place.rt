// A node's record that the host keeps as a struct, changed in place: each function hands the record to a step by value
// and stores the one that comes back.
// A refusal leaves the record, and all else, as it was.
ghost use Rattle.std.specs.Prelude.{◌≡◌};
ghost use Rattle.node.specs.Call.{call_of};
ghost use Rattle.host.specs.Call.{left_of, call_left};
ghost use Rattle.host.specs.Records.{keeps, put_over, fresh_over, links_over};

use host::call;
use node_state::Record;
use refusal::Refusal;

// 0 and a fresh record, or 12.
pub fn grasp_record_fresh(
    node: &mut Record,
    address: &[u8; 16],
    port: u16,
    ttl: u32,
    interfaces: u64,
    links: u64,
) -> u8
    ensures { keeps result node.new
        ≡ fresh_over node.old address.now port ttl interfaces links }
{
    put(Record::fresh(*address, port, ttl, interfaces, links), node)
}

// 0 and the record with other links, or the number of the refusal.
pub fn grasp_record_set_links(node: &mut Record, links: u64) -> u8
    ensures { keeps result node.new ≡ links_over node.old links }
{
    put(node.set_links(links), node)
}

// 0 and the record that is given in the place of the one that was there, or the number of the refusal and that one.
#[tactic(auto, unfolding(host::specs::Records::put_over))]
fn put(kept: Result<Record, Refusal>, node: &mut Record) -> u8
    ensures { keeps result node.new ≡ put_over node.old kept }
{
    match kept {
        Ok(next) => {
            *node = next;
            0
        }
        Err(refusal) => u8::from(refusal),
    }
}

// 0 and the record, the table, the output and the answer as the node call leaves them, or the number of the refusal.
pub fn grasp_record_call(
    node: &mut Record,
    bytes: &mut [u8],
    clock: u64,
    interface: u64,
    names: &[u8],
    message: &[u8],
    out: &mut [u8],
    answer: &mut [u64; 4],
) -> u8
    ensures { left_of result node.new bytes.new out.new answer.new
        ≡ call_left node.old bytes.old
        (call_of clock interface names.now message.now out.old)
        answer.old }
{
    put(
        call::call_into(*node, bytes, clock, interface, names, message, out, answer),
        node,
    )
}
