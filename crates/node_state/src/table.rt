// The relay table: 64 rows of four numbers, lent, searched, cleared and filled in place.
ghost use Rattle.std.specs.Prelude.{◌≡◌, false, ◌<◌, length};
ghost use Rattle.node_state.specs.Table.{most_rows, table_numbers, where_sized, put_row, row_free};
ghost use Rattle.node_state.specs.Table.{row_keyed, tag_in, row_bad, row_life, row_dead, row_matches};
ghost use Rattle.node_state.specs.Table.{table_bad, freed, row_told, lowest_free, filled, is_known};

use crate::Record;
use crate::key::Key;

// How many numbers the table has: four to a row.
pub const NUMBERS: usize = 4 * Record::ROWS;

// 15: not 256 numbers, or a row that is neither free nor used.
pub fn is_bad(table: &[u64], clock: u64) -> bool
    ensures { result ≡ table_bad clock table.now }
{
    if table.len() != 4 * Record::ROWS {
        return true;
    }
    (0..Record::ROWS).any(|i| is_bad_row(table, i, clock))
}

// A row that is neither free nor used.
fn is_bad_row(table: &[u64], i: usize, clock: u64) -> bool
    requires small { i < most_rows }
    requires sized { length table.now ≡ table_numbers }
    ensures { result ≡ row_bad clock table.now i }
{
    if is_free(table, i) {
        return false;
    }
    if is_keyed(table, i) {
        return clock < table[4 * i + 3];
    }
    true
}

// A free row is four zeros.
#[tactic(auto, unfolding(crate::specs::Table::row_free, crate::specs::Table::cell))]
fn is_free(table: &[u64], i: usize) -> bool
    requires small { i < most_rows }
    requires sized { length table.now ≡ table_numbers }
    ensures { result ≡ row_free table.now i }
{
    let at = 4 * i;
    table[at] == 0 && table[at + 1] == 0 && table[at + 2] == 0 && table[at + 3] == 0
}

// A tag of 1 to 4, and under 1 and 3, which go with 4 bytes of initiator, no more than these.
fn is_keyed(table: &[u64], i: usize) -> bool
    requires small { i < most_rows }
    requires sized { length table.now ≡ table_numbers }
    ensures { result ≡ row_keyed table.now i }
{
    let at = 4 * i;
    let tag = tag_of(table[at]);
    if tag < 1 {
        return false;
    }
    if 4 < tag {
        return false;
    }
    if tag % 2 == 0 {
        return true;
    }
    if 4_294_967_296 <= table[at + 1] {
        return false;
    }
    table[at + 2] == 0
}

// The tag in a row's first number.
fn tag_of(first: u64) -> u64
    ensures { result ≡ tag_in first }
{
    first / 4_294_967_296
}

// How long a row lives, by its first number.
fn life_of(first: u64) -> u64
    ensures { result ≡ row_life first }
{
    if tag_of(first) < 3 {
        return Record::DISCOVERY_LIFE;
    }
    Record::FLOOD_LIFE
}

// Whether a row's life is over.
fn is_dead(table: &[u64], i: usize, clock: u64) -> bool
    requires small { i < most_rows }
    requires sized { length table.now ≡ table_numbers }
    ensures { result ≡ row_dead clock table.now i }
{
    let at = 4 * i;
    let first = table[at];
    let admitted = table[at + 3];
    if clock < admitted {
        return false;
    }
    life_of(first) <= clock - admitted
}

// Fills a row.
fn put_row(table: &mut [u64], i: usize, key: Key, clock: u64)
    requires small { i < most_rows }
    requires sized { length table.old ≡ table_numbers }
    ensures { table.new ≡ put_row table.old i key clock }
{
    let at = 4 * i;
    table[at] = key.first;
    table[at + 1] = key.second;
    table[at + 2] = key.third;
    table[at + 3] = clock;
}

// Frees every dead row. A table of another length stays as it is.
pub fn free_dead(table: &mut [u64], clock: u64)
    ensures { table.new ≡ where_sized table.old (freed clock table.old)
        table.old }
{
    if table.len() != 4 * Record::ROWS {
        return;
    }
    for i in 0..Record::ROWS {
        if is_dead(table, i, clock) {
            put_row(table, i, Key::NONE, 0);
        }
    }
}

// Fills the lowest free row, and says which it is: none where none is free, or where the table has another length; then
// it stays as it is.
pub fn fill_lowest(table: &mut [u64], key: Key, clock: u64) -> Option<usize>
    ensures value { result ≡ row_told (where_sized table.old (lowest_free table.old) most_rows) }
    ensures table_after { table.new ≡ where_sized table.old (filled table.old key clock)
        table.old }
{
    if table.len() != 4 * Record::ROWS {
        return None;
    }
    let row = lowest_free(table)?;
    put_row(table, row, key, clock);
    Some(row)
}

// The lowest free row, if one is free.
fn lowest_free(table: &[u64]) -> Option<usize>
    requires { length table.now ≡ table_numbers }
    ensures { result ≡ row_told (lowest_free table.now) }
{
    (0..Record::ROWS).position(|i| is_free(table, i))
}

// A row has this key.
#[tactic(auto, unfolding(crate::specs::Table::row_matches, crate::specs::Table::cell))]
fn has_key(table: &[u64], i: usize, key: Key) -> bool
    requires small { i < most_rows }
    requires sized { length table.now ≡ table_numbers }
    ensures { result ≡ row_matches key table.now i }
{
    let at = 4 * i;
    table[at] == key.first && table[at + 1] == key.second && table[at + 2] == key.third
}

// Some row has this key. No row of a table of another length has.
pub fn knows(table: &[u64], key: Key) -> bool
    ensures { result ≡ where_sized table.now (is_known key table.now) false }
{
    if table.len() != 4 * Record::ROWS {
        return false;
    }
    (0..Record::ROWS).any(|i| has_key(table, i, key))
}
