// The relay table for C: 2,048 bytes, 256 numbers of eight bytes each, the most significant first.
ghost use Rattle.std.specs.Prelude.{◌≡◌, ◌*◌, ◌<◌, length, drop};
ghost use Rattle.std.proofs.lemmas.List.Edits.{sets};
ghost use Rattle.base.specs.BigEndian.{big_endian, bytes_of};
ghost use Rattle.node_state.specs.Table.{table_numbers};
ghost use Rattle.host.specs.Table.{table_bytes, loaded, saved};

use node_state::Record;
use node_state::table::NUMBERS;

// How many bytes the table has: eight to a number.
pub(crate) const BYTES: usize = 8 * NUMBERS;

// Number i of the table.
fn number_at(bytes: &[u8], i: usize) -> u64
    requires bytes { length bytes.now ≡ table_bytes }
    requires within { i < table_numbers }
    ensures { result ≡ big_endian (drop (8 * i) bytes.now) 8 }
{
    let at = 8 * i;
    u64::from_be_bytes([
        bytes[at],
        bytes[at + 1],
        bytes[at + 2],
        bytes[at + 3],
        bytes[at + 4],
        bytes[at + 5],
        bytes[at + 6],
        bytes[at + 7],
    ])
}

// The table's numbers, from its bytes; a row to a turn, which is faster than a number.
pub(crate) fn load(bytes: &[u8], table: &mut [u64])
    requires bytes { length bytes.now ≡ table_bytes }
    requires numbers { length table.old ≡ table_numbers }
    ensures { table.new ≡ loaded bytes.now }
{
    for row in 0..Record::ROWS {
        let i = 4 * row;
        table[i] = number_at(bytes, i);
        table[i + 1] = number_at(bytes, i + 1);
        table[i + 2] = number_at(bytes, i + 2);
        table[i + 3] = number_at(bytes, i + 3);
    }
}

// A number's eight bytes.
fn put_number(bytes: &mut [u8], i: usize, x: u64)
    requires bytes { length bytes.old ≡ table_bytes }
    requires within { i < table_numbers }
    ensures { bytes.new ≡ sets bytes.old (8 * i) (bytes_of 8 x) }
{
    let at = 8 * i;
    bytes[at..at + 8].copy_from_slice(&x.to_be_bytes());
}

// The table's bytes, from its numbers; a row to a turn.
pub(crate) fn save(table: &[u64], bytes: &mut [u8])
    requires numbers { length table.now ≡ table_numbers }
    requires bytes { length bytes.old ≡ table_bytes }
    ensures { bytes.new ≡ saved table.now }
{
    for row in 0..Record::ROWS {
        let i = 4 * row;
        put_number(bytes, i, table[i]);
        put_number(bytes, i + 1, table[i + 1]);
        put_number(bytes, i + 2, table[i + 2]);
        put_number(bytes, i + 3, table[i + 3]);
    }
}
