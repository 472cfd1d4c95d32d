//! When a filter is true of a feature.

ghost use Rattle.std.specs.Prelude.{◌≡◌, ◌+◌, IfOk, OnErr, IsTrue, map};
ghost use Rattle.std.specs.List.{list_all, list_any};
ghost use Rattle.fes_filter.specs.Truth.{truth_of, folds};

use crate::compare::{is_between, is_compared};
use crate::filter::Filter;
use crate::ids::is_among;
use crate::like::is_text_like;
use crate::spatial::{is_in_box, meets};
use crate::steps::Steps;
use crate::values::{is_missing, property_of};
use feature_values::Feature;
use std::alloc::Global;
use std::sync::ledger::Ledger;
use wfs_ends::{List, Mem};

/// Whether a filter is true of a feature.
///
/// - `Both` and `Either`: all parts are true; some part is. `Not`: its part is not.
/// - `Compare`: neither side is null, and the values stand to each other as `by` says: texts by their bytes, whole numbers
///   by value. With `fold` the default full case foldings of texts do (The Unicode Standard, section 3.13).
/// - `Like`: the property is a text that is like the pattern.
/// - `IsNull`: the property is null.
/// - `Between`: none of the three is null, and the property is neither below `low` nor above `high`.
/// - `Ids`: the feature's identifier is one of those that are known.
/// - `InBox`: the property's geometry shares a point with the box; where no property is named, some geometry of the
///   feature does.
/// - `Meets`: the property is a geometry that shares a point with the shape. `Apart`: it is not so, also where it is null.
///
/// A property that the feature has not and a parameter count as null, so the answer is stated for every filter, also for
/// one that `check` does not allow. Values of two kinds, and geometries, do not stand to each other in any way. Each call
/// is one step. Memory is taken only to fold case, so `OutOfMemory` comes only where some `Compare` has `fold`.
pub fn truth<L: Ledger>(
    alloc: Global,
    filter: &Filter,
    feature: &Feature,
    steps: &mut Steps<L>,
) -> Mem<bool>
    ensures value { IfOk result (λ b. b ≡ truth_of feature.now filter.now) }
    ensures memory { OnErr result (IsTrue (folds filter.now)) }
    ensures steps { steps.new ≡ steps.old + 1 }
{
    steps.tick();
    holds(alloc, filter, feature)
}

#[cycle(holds)]
fn holds(alloc: Global, filter: &Filter, feature: &Feature) -> Mem<bool>
    ensures value { IfOk result (λ b. b ≡ truth_of feature.now filter.now) }
    ensures memory { OnErr result (IsTrue (folds filter.now)) }
{
    match filter {
        Filter::Both(parts) => do_all_hold(alloc, parts, feature),
        Filter::Either(parts) => does_any_hold(alloc, parts, feature),
        Filter::Not(part) => Ok(!holds(alloc, part.item(), feature)?),
        Filter::Compare {
            by,
            left,
            right,
            fold,
        } => is_compared(alloc, feature, *by, left, right, *fold),
        Filter::Like { property, pattern } => Ok(is_text_like(
            property_of(feature, *property),
            pattern.items(),
        )),
        Filter::IsNull(property) => Ok(is_missing(property_of(feature, *property))),
        Filter::Between {
            property,
            low,
            high,
        } => Ok(is_between(feature, *property, low, high)),
        Filter::Ids(ids) => Ok(is_among(feature.id, ids.items())),
        Filter::InBox { property, area } => Ok(is_in_box(feature, *property, area)),
        Filter::Meets { property, shape } => Ok(meets(property_of(feature, *property), shape)),
        Filter::Apart { property, shape } => Ok(!meets(property_of(feature, *property), shape)),
    }
}

#[cycle(holds)]
fn do_all_hold(alloc: Global, parts: &List<Filter>, feature: &Feature) -> Mem<bool>
    ensures value { IfOk result (λ b. b ≡ list_all (λ part. part)
        (map (truth_of feature.now) parts.now)) }
    ensures memory { OnErr result (IsTrue (list_any (λ part. part) (map folds parts.now))) }
{
    for part in parts.items() {
        if !holds(alloc, part, feature)? {
            return Ok(false);
        }
    }
    Ok(true)
}

#[cycle(holds)]
fn does_any_hold(alloc: Global, parts: &List<Filter>, feature: &Feature) -> Mem<bool>
    ensures value { IfOk result (λ b. b ≡ list_any (λ part. part)
        (map (truth_of feature.now) parts.now)) }
    ensures memory { OnErr result (IsTrue (list_any (λ part. part) (map folds parts.now))) }
{
    for part in parts.items() {
        if holds(alloc, part, feature)? {
            return Ok(true);
        }
    }
    Ok(false)
}
