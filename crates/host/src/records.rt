// A node's record as a host keeps it: its address, 16 bytes, and six numbers, its port, ttl, interfaces, links, clock
// and tally.
ghost use Rattle.std.specs.Prelude.{◌≡◌};
ghost use Rattle.host.specs.Records.{node_of, node_numbers};

use node_state::Record;

// The record that the numbers say. Where one of them is too wide for a record it is all zeros, which is refused by 12.
pub fn node_of(address: &[u8; 16], numbers: &[u64; 6]) -> Record
    ensures { result ≡ node_of address.now numbers.now }
{
    let port = numbers[0];
    let ttl = numbers[1];
    let interfaces = numbers[2];
    let links = numbers[3];
    if 65_535 < port {
        return Record::blank();
    }
    if 4_294_967_295 < ttl {
        return Record::blank();
    }
    if 255 < interfaces {
        return Record::blank();
    }
    if 255 < links {
        return Record::blank();
    }
    Record {
        address: *address,
        port: port as u16,
        ttl: ttl as u32,
        interfaces: interfaces as u8,
        links: links as u8,
        clock: numbers[4],
        tally: numbers[5],
    }
}

// A record's numbers.
pub fn numbers_of(node: Record) -> [u64; 6]
    ensures { result ≡ node_numbers node }
{
    [
        node.port as u64,
        node.ttl as u64,
        node.interfaces as u64,
        node.links as u64,
        node.clock,
        node.tally,
    ]
}
