//! The order that a query asks for.

ghost use Rattle.std.specs.Prelude.{◌≡◌, ◌++◌, [], ◌∷◌, OnOk, Some, option_map};
ghost use Rattle.std.specs.Option.{option_copied};
ghost use Rattle.wfs_ends.specs.Read.{GivesBut, each};
ghost use Rattle.fes_filter.specs.Check.{property_in};
ghost use Rattle.query_docs.specs.Sorting.{sortable, order_word};
ghost use Rattle.kvp_queries.specs.Lists.{items_in};
ghost use Rattle.kvp_queries.specs.Pairs.{said_by};
ghost use Rattle.kvp_queries.specs.Sorting.{name_and_word, is_descending, key_of, next_key, keys_in, keys_of};

use crate::lists::cut;
use crate::pairs::Listed;
use feature_values::{FeatureType, Schema};
use fes_filter::{SortKey, is_shape, property_in, type_in};
use request_parameters::Given;
use std::alloc::Global;
use wfs_ends::{List, Mem};
use wfs_model::{AskFault, refused};

// A name, and the word behind the first space.
#[tactic(auto, unfolding(crate::specs::Sorting::name_and_word))]
fn name_and_word(part: &str) -> (&str, Option<&str>)
    ensures { (result.0.now, option_map (λ t. t.now) result.1) ≡ name_and_word part.now }
{
    match part.split_once(' ') {
        Some((name, word)) => (name, Some(word)),
        None => (part, None),
    }
}

// The property of a name, which has values that have an order.
fn sortable(alloc: Global, of_type: &FeatureType, name: &str) -> Result<u32, AskFault>
    ensures { GivesBut AskFault.OutOfMemory (λ p. p) result
        (sortable name.now (property_in (Some of_type.now) name.now)) }
{
    let Some((property, kind)) = property_in(Some(of_type), name) else {
        return Err(refused(alloc, 11, name));
    };
    if is_shape(kind) {
        return Err(refused(alloc, 11, "sortBy"));
    }
    Ok(property)
}

#[tactic(auto, unfolding(query_docs::specs::Sorting::order_word))]
fn order_word(word: &str) -> Option<bool>
    ensures { result ≡ order_word word.now }
{
    if word == "ASC" {
        return Some(false);
    }
    if word == "DESC" {
        return Some(true);
    }
    None
}

// Whether the order is descending.
fn is_descending(alloc: Global, word: Option<&str>) -> Result<bool, AskFault>
    ensures { GivesBut AskFault.OutOfMemory (λ b. b) result
        (is_descending (option_map (λ t. t.now) word.entry)) }
{
    let Some(word) = word else {
        return Ok(false);
    };
    match order_word(word) {
        Some(descending) => Ok(descending),
        None => Err(refused(alloc, 11, "sortBy")),
    }
}

// The key of a part.
#[tactic(auto, unfolding(crate::specs::Sorting::key_of))]
fn key_of(alloc: Global, of_type: &FeatureType, part: &str) -> Result<SortKey, AskFault>
    ensures { GivesBut AskFault.OutOfMemory (λ k. k) result (key_of of_type.now part.now) }
{
    let (name, word) = name_and_word(part);
    let property = sortable(alloc, of_type, name)?;
    let descending = is_descending(alloc, word)?;
    Ok(SortKey {
        property,
        descending,
    })
}

fn push_key(keys: &mut Vec<SortKey>, key: SortKey) -> Mem<()>
    ensures { OnOk result (keys.new.items ≡ keys.old.items ++ key ∷ []) }
{
    keys.push(key)?;
    Ok(())
}

// Adds the key of a part.
#[tactic(auto, unfolding(crate::specs::Sorting::next_key))]
fn add_key(
    alloc: Global,
    of_type: &FeatureType,
    keys: &mut Vec<SortKey>,
    part: &str,
) -> Result<(), AskFault>
    ensures { GivesBut AskFault.OutOfMemory (λ _. keys.new.items) result
        (next_key of_type.now keys.old.items part.now) }
{
    let key = key_of(alloc, of_type, part)?;
    push_key(keys, key)?;
    Ok(())
}

// The keys of a list with commas between them.
fn keys_of_type(alloc: Global, of_type: &FeatureType, text: &str) -> Result<Vec<SortKey>, AskFault>
    ensures { GivesBut AskFault.OutOfMemory (λ v. v.items) result
        (each (next_key of_type.now) [] (items_in text.now)) }
{
    let mut keys = Vec::new(alloc);
    let mut rest = text;
    while let Some((first, others)) = cut(rest) {
        add_key(alloc, of_type, &mut keys, first)?;
        rest = others;
    }
    add_key(alloc, of_type, &mut keys, rest)?;
    Ok(keys)
}

// The keys of a list for a type; without one there are none.
#[tactic(auto, unfolding(crate::specs::Sorting::keys_in))]
fn keys_in(
    alloc: Global,
    of_type: Option<&FeatureType>,
    text: &str,
) -> Result<List<SortKey>, AskFault>
    ensures { GivesBut AskFault.OutOfMemory (λ keys. keys) result
        (keys_in (option_copied of_type.entry) text.now) }
{
    let Some(of_type) = of_type else {
        return Err(refused(alloc, 11, "sortBy"));
    };
    let keys = keys_of_type(alloc, of_type, text)?;
    Ok(List::of(keys))
}

// The keys that features are sorted by.
#[tactic(auto, unfolding(crate::specs::Sorting::keys_of))]
pub(crate) fn keys_of(
    alloc: Global,
    schema: &Schema,
    kind: Option<u32>,
    listed: &Listed,
) -> Result<List<SortKey>, AskFault>
    ensures { GivesBut AskFault.OutOfMemory (λ keys. keys) result
        (keys_of schema.now kind (said_by listed.now.pairs)) }
{
    let Some(text) = listed.value_of("sortBy") else {
        return Ok(List::of(Vec::new(alloc)));
    };
    keys_in(alloc, type_in(schema, kind), text.as_str())
}
