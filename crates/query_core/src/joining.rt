//! What several queries select, as one list in which nothing comes twice.

ghost use Rattle.std.specs.Prelude.{◌≡◌, ◌++◌, IfOk, IsPermutation, filter, not};
ghost use Rattle.std.specs.List.Sorted.{IsSorted, IsStrictlySortedBy};
ghost use Rattle.query_core.specs.Selecting.{is_among, joined};
ghost use Rattle.query_core.specs.Sorting.{rid_order};

use crate::ordering::rid_order;
use feature_values::Rid;
use std::alloc::Global;
use wfs_ends::{List, Mem};

/// A copy in default order.
fn in_order(alloc: Global, ids: &[Rid]) -> Mem<Vec<Rid>>
    ensures permutation { IfOk result (λ v. IsPermutation ids.now v.items) }
    ensures sorted { IfOk result (λ v. IsSorted rid_order v.items) }
{
    let mut sorted = Vec::from_slice(alloc, ids)?;
    sorted.sort_by(|a, b| rid_order(*a, *b))?;
    Ok(sorted)
}

/// Whether an identifier is among others, which are in default order.
fn has(sorted: &[Rid], id: Rid) -> bool
    requires { IsSorted rid_order sorted.now }
    ensures { result ≡ is_among sorted.now id }
{
    sorted
        .binary_search_by(|other| rid_order(*other, id))
        .is_ok()
}

/// Those that are among others, which are in default order.
pub(crate) fn those_among(alloc: Global, ids: &[Rid], sorted: &[Rid]) -> Mem<Vec<Rid>>
    requires { IsStrictlySortedBy rid_order sorted.now }
    ensures { IfOk result (λ v. v.items ≡ filter (is_among sorted.now) ids.now) }
{
    let mut found = Vec::new(alloc);
    for id in ids {
        if !has(sorted, *id) {
            continue;
        }
        found.push(*id)?;
    }
    Ok(found)
}

/// Some identifiers, and behind them those of `more` that are not among others, which are in default order.
fn append_new(mut all: Vec<Rid>, sorted: &[Rid], more: &[Rid]) -> Mem<Vec<Rid>>
    requires { IsSorted rid_order sorted.now }
    ensures { IfOk result (λ v. v.items ≡ all.items
        ++ filter (λ id. not (is_among sorted.now id)) more.now) }
{
    for id in more {
        if has(sorted, *id) {
            continue;
        }
        all.push(*id)?;
    }
    Ok(all)
}

/// Some identifiers, and behind them those of `more` that are not yet among them, in order. It takes about the sum of the
/// lengths and their logarithm.
pub fn join_rows(alloc: Global, ids: List<Rid>, more: List<Rid>) -> Mem<List<Rid>>
    ensures { IfOk result (λ all. all ≡ joined ids more) }
{
    if ids.items().is_empty() {
        return Ok(more);
    }
    let sorted = in_order(alloc, ids.items())?;
    let all = append_new(ids.into_items(), &sorted, more.items())?;
    Ok(List::of(all))
}
