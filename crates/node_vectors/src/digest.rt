// One number for a whole record and table: each part is added to a factor times what stood before, modulo a prime.
use node_state::Record;

// The greatest prime below 2^32.
const PRIME: u64 = 4_294_967_291;

const FACTOR: u64 = 16_777_619;

// The address's bytes, then the halves of the record's other numbers and of the table's.
pub(crate) fn digest_of(node: Record, table: &[u64]) -> u32 {
    let mut d = 1;
    for b in node.address {
        d = with_half(d, b as u32);
    }
    d = with_number(d, node.port as u64);
    d = with_number(d, node.ttl as u64);
    d = with_number(d, node.interfaces as u64);
    d = with_number(d, node.links as u64);
    d = with_number(d, node.clock);
    d = with_number(d, node.tally);
    for n in table {
        d = with_number(d, *n);
    }
    d
}

fn with_number(d: u32, n: u64) -> u32 {
    let high = with_half(d, (n / 0x1_0000_0000) as u32);
    with_half(high, (n % 0x1_0000_0000) as u32)
}

fn with_half(d: u32, half: u32) -> u32 {
    let n = d as u64 * FACTOR + half as u64;
    (n % PRIME) as u32
}
