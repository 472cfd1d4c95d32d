//! SortBy: the properties that features are sorted by.

ghost use Rattle.std.specs.Prelude.{◌≡◌, [], ◌∷◌, ◌++◌, OnOk, map};
ghost use Rattle.std.specs.Option.{option_copied};
ghost use Rattle.wfs_ends.specs.Read.{GivesBut, each};
ghost use Rattle.query_docs.specs.Sorting.{sortable, sorted_by, order_word, order_of, key_with, key_in, sort_key, next_key, keys_of};

use crate::elements::{no_children, text_alone};
use doc_tree::Element;
use feature_values::{FeatureType, ValueKind};
use fes_docs::is_fes;
use fes_filter::{SortKey, is_shape, property_in};
use request_parameters::{misplaced, no_others};
use std::alloc::Global;
use wfs_ends::{List, Mem};
use wfs_model::{AskFault, refused};

// A property of the type, by its name as it was given.
fn sortable(alloc: Global, name: &str, found: Option<(u32, ValueKind)>) -> Result<u32, AskFault>
    ensures { GivesBut AskFault.OutOfMemory (λ x. x) result (sortable name.now found) }
{
    match found {
        None => Err(refused(alloc, 11, name)),
        Some((property, kind)) => {
            if is_shape(kind) {
                return Err(refused(alloc, 11, "sortBy"));
            }
            Ok(property)
        }
    }
}

// A ValueReference, and the property that it names.
#[tactic(auto, unfolding(crate::specs::Sorting::sorted_by))]
fn sorted_by(
    alloc: Global,
    of_type: Option<&FeatureType>,
    element: &Element,
) -> Result<u32, AskFault>
    ensures { GivesBut AskFault.OutOfMemory (λ x. x) result
        (sorted_by (option_copied of_type.entry) element.now) }
{
    let name = text_alone(alloc, element)?;
    sortable(alloc, name.as_str(), property_in(of_type, name.as_str()))
}

#[tactic(auto, unfolding(crate::specs::Sorting::order_word))]
fn order_word(text: &str) -> Option<bool>
    ensures { result ≡ order_word text.now }
{
    if text == "ASC" {
        return Some(false);
    }
    if text == "DESC" {
        return Some(true);
    }
    None
}

// Whether the order of a SortOrder goes down.
#[tactic(auto, unfolding(crate::specs::Sorting::order_of))]
fn order_of(alloc: Global, element: &Element) -> Result<bool, AskFault>
    ensures { GivesBut AskFault.OutOfMemory (λ x. x) result (order_of element.now) }
{
    let text = text_alone(alloc, element)?;
    match order_word(text.as_str()) {
        None => Err(refused(alloc, 11, "SortOrder")),
        Some(descending) => Ok(descending),
    }
}

// A property, with the elements behind its ValueReference.
#[tactic(auto, unfolding(crate::specs::Sorting::key_with, wfs_ends::specs::Read::unless))]
fn key_with(alloc: Global, property: u32, elements: &[Element]) -> Result<SortKey, AskFault>
    ensures { GivesBut AskFault.OutOfMemory (λ x. x) result (key_with property elements.now) }
{
    match elements {
        [] => Ok(SortKey {
            property,
            descending: false,
        }),
        [first, rest @ ..] => {
            if !is_fes(first, "SortOrder") {
                return Err(misplaced(alloc, first));
            }
            let descending = order_of(alloc, first)?;
            no_children(alloc, rest)?;
            Ok(SortKey {
                property,
                descending,
            })
        }
    }
}

// The elements in a SortProperty.
#[tactic(auto, unfolding(crate::specs::Sorting::key_in, wfs_ends::specs::Read::unless))]
fn key_in(
    alloc: Global,
    of_type: Option<&FeatureType>,
    whole: &Element,
    elements: &[Element],
) -> Result<SortKey, AskFault>
    ensures { GivesBut AskFault.OutOfMemory (λ x. x) result
        (key_in (option_copied of_type.entry) whole.now elements.now) }
{
    match elements {
        [] => Err(misplaced(alloc, whole)),
        [first, rest @ ..] => {
            if !is_fes(first, "ValueReference") {
                return Err(misplaced(alloc, first));
            }
            let property = sorted_by(alloc, of_type, first)?;
            key_with(alloc, property, rest)
        }
    }
}

// A SortProperty.
#[tactic(auto, unfolding(crate::specs::Sorting::sort_key, wfs_ends::specs::Read::unless))]
fn sort_key(
    alloc: Global,
    of_type: Option<&FeatureType>,
    element: &Element,
) -> Result<SortKey, AskFault>
    ensures { GivesBut AskFault.OutOfMemory (λ x. x) result
        (sort_key (option_copied of_type.entry) element.now) }
{
    if !is_fes(element, "SortProperty") {
        return Err(misplaced(alloc, element));
    }
    no_others(alloc, element, &[])?;
    key_in(alloc, of_type, element, element.children.items())
}

fn push_key(found: &mut Vec<SortKey>, key: SortKey) -> Mem<()>
    ensures { OnOk result (found.new.items ≡ found.old.items ++ key ∷ []) }
{
    found.push(key)?;
    Ok(())
}

#[tactic(auto, unfolding(crate::specs::Sorting::next_key))]
fn add_key(
    alloc: Global,
    of_type: Option<&FeatureType>,
    found: &mut Vec<SortKey>,
    element: &Element,
) -> Result<(), AskFault>
    ensures { GivesBut AskFault.OutOfMemory (λ _. found.new.items) result
        (next_key (option_copied of_type.entry) found.old.items element.now) }
{
    let key = sort_key(alloc, of_type, element)?;
    push_key(found, key)?;
    Ok(())
}

// The keys of several SortProperty.
fn all_keys(
    alloc: Global,
    of_type: Option<&FeatureType>,
    elements: &[Element],
) -> Result<Vec<SortKey>, AskFault>
    ensures { GivesBut AskFault.OutOfMemory (λ v. v.items) result
        (each (next_key (option_copied of_type.entry)) [] elements.now) }
{
    let mut found = Vec::new(alloc);
    for element in elements {
        add_key(alloc, of_type, &mut found, element)?;
    }
    Ok(found)
}

// The keys of a SortBy.
#[tactic(auto, unfolding(crate::specs::Sorting::keys_of, wfs_ends::specs::Read::unless))]
pub(crate) fn keys_of(
    alloc: Global,
    of_type: Option<&FeatureType>,
    element: &Element,
) -> Result<List<SortKey>, AskFault>
    ensures { GivesBut AskFault.OutOfMemory (λ x. x) result
        (keys_of (option_copied of_type.entry) element.now) }
{
    no_others(alloc, element, &[])?;
    let keys = all_keys(alloc, of_type, element.children.items())?;
    if element.children.items().is_empty() {
        return Err(misplaced(alloc, element));
    }
    Ok(List::of(keys))
}
