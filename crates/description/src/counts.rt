// How many items of an array the parts of a description are.
ghost use Rattle.std.specs.Prelude.{◌≡◌, []};
ghost use Rattle.options.specs.Text.{held};
ghost use Rattle.rfc8990.specs.Encoding.{target_items, how_many, one_more};
ghost use Rattle.description.specs.Meaning.{targets_of, extra_of};

use crate::rows::LOCATOR_ROW;
use crate::{GivenObjective, spans};
use options::Span;

// How many items of a Response its locators are, or its divert is. That doesn't depend on the source, so `[]` stands
// for it.
pub fn target_items(list: &[u64], divert: bool) -> u64
    ensures { result ≡ target_items (targets_of [] list.now divert) }
{
    if divert {
        return 1;
    }
    (list.len() / LOCATOR_ROW) as u64
}

// 1 for an objective that is there, else 0. That doesn't depend on the source, so `[]` stands for it.
#[tactic(auto, unfolding(rfc8990::specs::Encoding::how_many, crate::specs::Meaning::extra_of))]
pub fn how_many(extra: Option<GivenObjective>) -> u64
    ensures { result ≡ how_many (extra_of [] extra) }
{
    match extra {
        None => 0,
        Some(_) => 1,
    }
}

// 1 for a span that covers something, else 0.
pub fn one_more(source: &[u8], s: Span) -> u64
    ensures { result ≡ one_more (held source.now s) }
{
    if spans::covered(source, s) == 0 {
        return 0;
    }
    1
}
