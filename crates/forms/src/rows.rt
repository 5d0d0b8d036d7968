// The rows of a message's list.
ghost use Rattle.std.specs.Prelude.{ℕ, List, ◌<◌, ◌≡◌, ◌+◌, ◌*◌, ◌≤◌, length};
ghost use Rattle.std.proofs.lemmas.List.Edits.{sets};
ghost use Rattle.forms.specs.Rows.{rows_in, series_end, series_filled, locator_next, locator_stored};
ghost use Rattle.forms.specs.Rows.{pair_next, pair_stored, rows_end, rows_filled};
ghost use Rattle.description.specs.Meaning.{locator_row, pair_row};

use description::rows::{LOCATOR_ROW, PAIR_ROW};
use message::{Message, Series, Targets};
use options::{locator, pair};

// What a message's list has.
#[derive(Clone, Copy)]
pub enum Rows {
    Nothing,
    Locators(Series),
    Pairs(Series),
}

// Fills the list with the rows of the message that was read of s; the answer is how many numbers they are. Where the
// list is too short the answer is one more than it has, and it stays as it is.
pub fn fill(s: &[u8], m: Message, list: &mut [u64]) -> usize
    ensures value { result ≡ rows_end m list.old }
    ensures list_after { list.new ≡ rows_filled s.now m list.old }
{
    let rows = rows_in(m);
    match rows {
        Rows::Nothing => 0,
        Rows::Locators(series) => fill_locators(s, series, list),
        Rows::Pairs(series) => fill_pairs(s, series, list),
    }
}

#[tactic(auto, unfolding(crate::specs::Rows::rows_in, crate::specs::Rows::target_rows))]
fn rows_in(m: Message) -> Rows
    ensures { result ≡ rows_in m }
{
    match m {
        Message::Response { targets, .. } => match targets {
            Targets::Locators { series, .. } => Rows::Locators(series),
            Targets::Divert { series, .. } => Rows::Locators(series),
        },
        Message::Flood { pairs, .. } => Rows::Pairs(pairs),
        _ => Rows::Nothing,
    }
}

// Fills the list with a series, row by row; the answer is how many numbers the rows are. Where the list is too short
// the answer is one more than it has, and it stays as it is.
fn fill_series<F: Fn(usize, usize, &mut [u64]) -> usize>(
    size: usize,
    series: Series,
    list: &mut [u64],
    fill_row: F,
) -> usize
    requires size { 0 < size }
    requires callable { (at i : ℕ) (l : _) → size * i + size ≤ length l.now → F.pre fill_row at i l }
    ensures value { result ≡ series_end size series list.old }
    ensures list_after { (next : ℕ → ℕ) (row : ℕ → ℕ → List ℕ → List ℕ)
        → ((at i r : ℕ) (l l' : _) → F.post fill_row at i l r l' → (r ≡ next at) × (l'.now ≡ row at i l.now))
        → list.new ≡ series_filled size next row series list.old }
{
    let many = series.many;
    let room = list.len() / size;
    if (room as u64) < many {
        return list.len() + 1;
    }
    let n = many as usize;
    let mut at = series.at;
    for i in 0..n {
        at = fill_row(at, i, list);
    }
    size * n
}

fn fill_locators(s: &[u8], series: Series, list: &mut [u64]) -> usize
    ensures value { result ≡ series_end locator_row series list.old }
    ensures list_after { list.new ≡ series_filled locator_row (locator_next s.now)
        (locator_stored s.now) series list.old }
{
    fill_series(
        LOCATOR_ROW,
        series,
        list,
        |at, i, list| fill_locator(s, at, i, list),
    )
}

// The locator at `at` in row i; the answer is the place after it.
fn fill_locator(s: &[u8], at: usize, i: usize, list: &mut [u64]) -> usize
    requires { locator_row * i + locator_row ≤ length list.old }
    ensures value { result ≡ locator_next s.now at }
    ensures list_after { list.new ≡ locator_stored s.now at i list.old }
{
    match locator::read_at(s, at) {
        Err(_) => at,
        Ok(l) => {
            let n = locator::numbers_of(l.value);
            put_numbers(list, LOCATOR_ROW * i, &n);
            at + l.size
        }
    }
}

fn fill_pairs(s: &[u8], series: Series, list: &mut [u64]) -> usize
    ensures value { result ≡ series_end pair_row series list.old }
    ensures list_after { list.new ≡ series_filled pair_row (pair_next s.now)
        (pair_stored s.now) series list.old }
{
    fill_series(
        PAIR_ROW,
        series,
        list,
        |at, i, list| fill_pair(s, at, i, list),
    )
}

// The pair at `at` in row i, with 0 for the place of the count's head; the answer is the place after it.
fn fill_pair(s: &[u8], at: usize, i: usize, list: &mut [u64]) -> usize
    requires { pair_row * i + pair_row ≤ length list.old }
    ensures value { result ≡ pair_next s.now at }
    ensures list_after { list.new ≡ pair_stored s.now at i list.old }
{
    match pair::read_at(s, at) {
        Err(_) => at,
        Ok(p) => {
            let mut n = pair::numbers_of(p.value.objective, p.value.tag);
            n[4] = 0;
            put_numbers(list, PAIR_ROW * i, &n);
            at + p.size
        }
    }
}

// Numbers in the list from place `at` on.
fn put_numbers(list: &mut [u64], at: usize, numbers: &[u64])
    requires { at + length numbers.now ≤ length list.old }
    ensures { list.new ≡ sets list.old at numbers.now }
{
    list[at..at + numbers.len()].copy_from_slice(numbers);
}
