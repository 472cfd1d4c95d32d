//! Features in default order, in one list: where one stands, and how one is put and removed in place.

ghost use Rattle.std.specs.Prelude.{◌≡◌, ◌+◌, ◌<◌, ◌≤◌, true, false, Some, None, IfOk, IsTrue, length, filter, slice_get};
ghost use Rattle.std.specs.List.{AllWithin, fold};
ghost use Rattle.std.specs.Option.{option_copied};
ghost use Rattle.std.specs.Vec.{vec_len, vec_capacity};
ghost use Rattle.fes_filter.specs.View.{is_same, is_before, IsInOrder, feature_at, next_after};
ghost use Rattle.feature_overlay.specs.Laid.{laid};
ghost use Rattle.query_core.specs.Selecting.{ids_of};
ghost use Rattle.wfs_machine.specs.Ordered.{has_id, part_laid, of_type};

use feature_values::{Feature, Rid};
use std::alloc::Global;
use wfs_ends::{List, Mem};
use wfs_model::Part;

fn is_before(a: Rid, b: Rid) -> bool
    ensures { result ≡ is_before a b }
{
    a.kind < b.kind || (a.kind == b.kind && a.number < b.number)
}

fn is_same(a: Rid, b: Rid) -> bool
    ensures { result ≡ is_same a b }
{
    a.kind == b.kind && a.number == b.number
}

// How many features stand before an identifier. The list is halved.
fn place_of(features: &[Feature], id: Rid) -> usize
    requires { IsInOrder features.now }
    ensures bound { result ≤ length features.now }
    ensures low { AllWithin (λ f. is_before f.id id ≡ true) features.now 0 result }
    ensures high { AllWithin (λ f. is_before f.id id ≡ false) features.now result
        (length features.now) }
{
    features.partition_point(|feature| is_before(feature.id, id))
}

// The feature at a place.
fn at(features: &[Feature], place: usize) -> Option<&Feature>
    ensures { option_copied result ≡ slice_get features.now place }
{
    features.get(place)
}

// Whether the feature at a place has an identifier.
fn is_at(features: &[Feature], place: usize, id: Rid) -> bool
    ensures value { result ≡ has_id id (slice_get features.now place) }
    ensures within { IsTrue result → place < length features.now }
{
    match at(features, place) {
        None => false,
        Some(feature) => is_same(feature.id, id),
    }
}

/// The feature with this identifier.
pub(crate) fn feature_in(features: &[Feature], id: Rid) -> Option<&Feature>
    requires { IsInOrder features.now }
    ensures { option_copied result ≡ feature_at id features.now }
{
    let place = place_of(features, id);
    if is_at(features, place, id) {
        at(features, place)
    } else {
        None
    }
}

// Whether the features behind an identifier begin at a place, since the feature before it has the identifier.
fn is_behind(features: &[Feature], place: usize, id: Rid) -> bool
    requires { IsInOrder features.now }
    ensures { IsTrue result → slice_get features.now place ≡ next_after (Some id) features.now }
{
    if place == 0 {
        return false;
    }
    is_at(features, place - 1, id)
}

// Where the features behind an identifier begin, which need not be there.
fn place_behind(features: &[Feature], id: Rid) -> usize
    requires { IsInOrder features.now }
    ensures behind { slice_get features.now result ≡ next_after (Some id) features.now }
    ensures bound { result ≤ length features.now }
{
    let place = place_of(features, id);
    if is_at(features, place, id) {
        place + 1
    } else {
        place
    }
}

// The feature behind an identifier, and the place after it. A guess is looked at first.
fn feature_behind<'a>(features: &'a [Feature], id: Rid, guess: u64) -> (Option<&'a Feature>, u64)
    requires { IsInOrder features.now }
    ensures { option_copied result.0 ≡ next_after (Some id) features.now }
{
    let place = guess as usize;
    if is_behind(features, place, id) {
        return (at(features, place), guess.saturating_add(1));
    }
    let place = place_behind(features, id);
    (at(features, place), place as u64 + 1)
}

/// The first feature, or the first behind an identifier, which need not be there. The place is the next one after that feature.
pub(crate) fn feature_from<'a>(
    features: &'a [Feature],
    after: Option<Rid>,
    place: &mut u64,
) -> Option<&'a Feature>
    requires { IsInOrder features.now }
    ensures { option_copied result ≡ next_after after features.now }
{
    let Some(id) = after else {
        *place = 1;
        return at(features, 0);
    };
    let (feature, next) = feature_behind(features, id, *place);
    *place = next;
    feature
}

/// The identifiers of the features of a type, in order.
pub(crate) fn ids_of_type(alloc: Global, features: &[Feature], kind: u32) -> Mem<List<Rid>>
    ensures { IfOk result (λ ids. ids ≡ ids_of (filter (of_type kind) features.now)) }
{
    let mut ids = Vec::new(alloc);
    for feature in features {
        if feature.id.kind == kind {
            ids.push(feature.id)?;
        }
    }
    Ok(List::of(ids))
}

// Puts a feature, for which there is room.
fn put(features: &mut Vec<Feature>, feature: Feature)
    requires order { IsInOrder features.old.items }
    requires room { vec_len features.old < vec_capacity features.old }
    ensures items { features.new.items ≡ laid features.old.items feature.id (Some feature) }
    ensures len { vec_len features.new ≤ vec_len features.old + 1 }
    ensures capacity { vec_capacity features.old ≤ vec_capacity features.new }
{
    let place = place_of(features.as_slice(), feature.id);
    if is_at(features.as_slice(), place, feature.id) {
        features[place] = feature;
        return;
    }
    match features.insert(place, feature) {
        Ok(()) => (),
        Err(_) => unreachable!(),
    }
}

// Removes the feature with this identifier, where there is one.
fn remove(features: &mut Vec<Feature>, id: Rid)
    requires { IsInOrder features.old.items }
    ensures items { features.new.items ≡ laid features.old.items id None }
    ensures len { vec_len features.new ≤ vec_len features.old }
    ensures capacity { vec_capacity features.new ≡ vec_capacity features.old }
{
    let place = place_of(features.as_slice(), id);
    if is_at(features.as_slice(), place, id) {
        features.remove(place);
    }
}

/// Puts or removes a feature, where there is room for one more.
pub(crate) fn lay(features: &mut Vec<Feature>, part: Part)
    requires order { IsInOrder features.old.items }
    requires room { vec_len features.old < vec_capacity features.old }
    ensures items { features.new.items ≡ part_laid features.old.items part }
    ensures len { vec_len features.new ≤ vec_len features.old + 1 }
    ensures capacity { vec_capacity features.old ≤ vec_capacity features.new }
{
    match part {
        Part::Put(feature) => put(features, feature),
        Part::Remove(id) => remove(features, id),
    }
}
