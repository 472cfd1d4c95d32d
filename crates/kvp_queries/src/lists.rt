//! Values that are lists, with commas between their items.

ghost use Rattle.std.specs.Prelude.{◌≡◌, ◌<◌, ◌++◌, [], ◌∷◌, IfOk, IfSome, MatchOption, OnOk, length};
ghost use Rattle.std.specs.List.{list_any, slice_split};
ghost use Rattle.std.specs.Option.{option_copied};
ghost use Rattle.std.specs.Str.{IsUtf8};
ghost use Rattle.kvp_queries.specs.Lists.{is_comma, items_in, items_if};

use std::alloc::Global;
use wfs_ends::{List, Mem, Text};
use wfs_model::Asked;

pub(crate) fn has_comma(text: &str) -> bool
    ensures { result ≡ list_any is_comma text.now }
{
    text.as_bytes().iter().any(|b| *b == b',')
}

// The part before the first comma, and what stands behind it.
#[tactic(auto, using(crate::proofs::Splits::first_part, crate::proofs::Splits::one_part))]
pub(crate) fn cut(text: &str) -> Option<(&str, &str)>
    ensures parts { MatchOption result (slice_split is_comma text.now ≡ text.now ∷ [])
        (λ x. slice_split is_comma text.now ≡ x.0.now ∷ slice_split is_comma x.1.now) }
    ensures text { IfSome result (λ x. IsUtf8 x.1.now) }
    ensures shorter { IfSome result (λ x. length x.1.now < length text.now) }
{
    text.split_once(',')
}

fn push_item(alloc: Global, items: &mut Vec<Text>, item: &str) -> Mem<()>
    ensures { OnOk result (items.new.items ≡ items.old.items ++ item.now ∷ []) }
{
    items.push(Text::of(alloc, item)?)?;
    Ok(())
}

// A list of one item.
pub(crate) fn one(alloc: Global, item: Asked) -> Mem<List<Asked>>
    ensures { IfOk result (λ all. all ≡ item ∷ []) }
{
    let mut all = Vec::with_capacity(alloc, 1)?;
    all.push(item)?;
    Ok(List::of(all))
}

// The items of a list.
fn items_in(alloc: Global, text: &str) -> Mem<Vec<Text>>
    ensures { IfOk result (λ items. items.items ≡ items_in text.now) }
{
    let mut items = Vec::new(alloc);
    let mut rest = text;
    while let Some((first, others)) = cut(rest) {
        push_item(alloc, &mut items, first)?;
        rest = others;
    }
    push_item(alloc, &mut items, rest)?;
    Ok(items)
}

// The items of a list, where there is one.
pub(crate) fn items_if(alloc: Global, text: Option<&Text>) -> Mem<Vec<Text>>
    ensures { IfOk result (λ items. items.items ≡ items_if (option_copied text.entry)) }
{
    match text {
        Some(text) => items_in(alloc, text.as_str()),
        None => Ok(Vec::new(alloc)),
    }
}
