// A node's record, for C: its address, 16 bytes that the host keeps, and six numbers, its port, ttl, interfaces, links,
// clock and tally.
ghost use Rattle.std.specs.Prelude.{◌≡◌};
ghost use Rattle.refusal.specs.Refusal.{answer_number};
ghost use Rattle.node_state.specs.Record.{fresh, set_links};
ghost use Rattle.host.specs.Records.{node_of, numbers_after};

use host::records;
use node_state::Record;
use refusal::Refusal;

// 0 and the numbers of a fresh record, or 12 and the numbers as they were.
pub fn grasp_fresh(
    address: &[u8; 16],
    port: u16,
    ttl: u32,
    interfaces: u64,
    links: u64,
    numbers: &mut [u64; 6],
) -> u8
    ensures value { result ≡ answer_number (fresh address.now port ttl interfaces links) }
    ensures numbers_after { numbers.new ≡ numbers_after (fresh address.now port ttl interfaces links)
        numbers.old }
{
    put(
        Record::fresh(*address, port, ttl, interfaces, links),
        numbers,
    )
}

// 0 and the numbers with other links, or the number of the refusal and the numbers as they were.
pub fn grasp_set_links(address: &[u8; 16], numbers: &mut [u64; 6], links: u64) -> u8
    ensures value { result ≡ answer_number (set_links (node_of address.now numbers.old) links) }
    ensures numbers_after { numbers.new ≡ numbers_after
        (set_links (node_of address.now numbers.old) links) numbers.old }
{
    let node = records::node_of(address, numbers);
    put(node.set_links(links), numbers)
}

// 0 and the numbers of the record that is given, or the number of the refusal and the numbers as they were.
#[tactic(auto, unfolding(host::specs::Records::numbers_after))]
pub(crate) fn put(kept: Result<Record, Refusal>, numbers: &mut [u64; 6]) -> u8
    ensures value { result ≡ answer_number kept }
    ensures numbers_after { numbers.new ≡ numbers_after kept numbers.old }
{
    match kept {
        Ok(node) => {
            *numbers = records::numbers_of(node);
            0
        }
        Err(refusal) => u8::from(refusal),
    }
}
