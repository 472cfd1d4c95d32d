//! Features beside the values by which they are sorted first, so that each of these is looked up once.

ghost use Rattle.std.specs.Prelude.{◌≡◌, IfOk, map};
ghost use Rattle.query_core.specs.Keyed.{value_behind, first_value, pair_by, pair_of, pair_order};
ghost use Rattle.query_core.specs.Selecting.{ids_of};
ghost use Rattle.query_core.specs.Sorting.{sorted};

use crate::ordering::{ValueRef, by_way, feature_order, rid_order, value_at, value_order};
use feature_values::{Feature, Rid};
use fes_filter::SortKey;
use std::alloc::Global;
use std::cmp::Ordering;
use wfs_ends::{List, Mem};

/// A feature beside the value by which it is sorted first.
#[derive(Clone, Copy)]
pub(crate) struct Keyed<'a> {
    value: ValueRef<'a>,
    feature: &'a Feature,
}

/// The value by which a feature is sorted first; a null where there is no key.
fn first_value<'a>(keys: &[SortKey], feature: &'a Feature) -> ValueRef<'a>
    ensures { value_behind result ≡ first_value keys.now feature.now }
{
    match keys {
        [] => ValueRef::Null,
        [key, ..] => value_at(feature, key.property),
    }
}

fn with_value<'a>(keys: &[SortKey], feature: &'a Feature) -> Keyed<'a>
    ensures { pair_of result ≡ pair_by keys.now feature.now }
{
    Keyed {
        value: first_value(keys, feature),
        feature,
    }
}

fn all_keyed<'a>(alloc: Global, keys: &[SortKey], features: &[&'a Feature]) -> Mem<Vec<Keyed<'a>>>
    ensures { IfOk result (λ all. map pair_of all.items
        ≡ map (λ f. pair_by keys.now f.now) features.now) }
{
    let mut all = Vec::with_capacity(alloc, features.len())?;
    for feature in features {
        all.push(with_value(keys, *feature))?;
    }
    Ok(all)
}

/// How two features stand to each other.
#[tactic(auto, unfolding(crate::specs::Keyed::pair_order))]
fn keyed_order(keys: &[SortKey], a: &Keyed, b: &Keyed) -> Ordering
    ensures { result ≡ pair_order keys.now (pair_of a.now) (pair_of b.now) }
{
    match keys {
        [] => rid_order(a.feature.id, b.feature.id),
        [key, rest @ ..] => {
            let order = by_way(key.descending, value_order(&a.value, &b.value));
            if order.is_ne() {
                return order;
            }
            feature_order(rest, a.feature, b.feature)
        }
    }
}

/// The same features, sorted by the keys.
fn sort_keyed<'a>(alloc: Global, keys: &[SortKey], features: &[&'a Feature]) -> Mem<Vec<Keyed<'a>>>
    ensures { IfOk result (λ all. map (λ k. k.feature.now) all.items
        ≡ sorted keys.now (map (λ f. f.now) features.now)) }
{
    let mut all = all_keyed(alloc, keys, features)?;
    all.sort_by(|a, b| keyed_order(keys, a, b))?;
    Ok(all)
}

fn ids_of_keyed(alloc: Global, all: &[Keyed]) -> Mem<List<Rid>>
    ensures { IfOk result (λ ids. ids ≡ ids_of (map (λ k. k.feature.now) all.now)) }
{
    let mut ids = Vec::with_capacity(alloc, all.len())?;
    for keyed in all {
        ids.push(keyed.feature.id)?;
    }
    Ok(List::of(ids))
}

/// The identifiers of the same features, sorted by the keys.
pub(crate) fn sorted_ids(alloc: Global, keys: &[SortKey], features: &[&Feature]) -> Mem<List<Rid>>
    ensures { IfOk result (λ ids. ids ≡ ids_of (sorted keys.now (map (λ f. f.now) features.now))) }
{
    let sorted = sort_keyed(alloc, keys, features)?;
    ids_of_keyed(alloc, &sorted)
}
