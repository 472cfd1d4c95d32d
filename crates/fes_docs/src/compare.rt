//! Comparisons, ranges and nulls.

ghost use Rattle.std.specs.Prelude.{◌≡◌};
ghost use Rattle.std.specs.Option.{option_copied};
ghost use Rattle.wfs_ends.specs.Read.{GivesBut};
ghost use Rattle.fes_docs.specs.Sides.{case_by, fold_of, case_of, only_case, is_action, action_of, only_matches, folded, and_folded, compare_of, bound_at, bounds_of, between_of, null_of};
ghost use Rattle.fes_docs.specs.declared.fault.FilterDocFault.TheVariants.{OutOfMemory};

use crate::element::{and_no_more, first_in, named, no_more, no_others, value_of};
use crate::fault::{FilterDocFault, checked, no_operator};
use crate::sides::{beside, comparable_at, property_at, sides_of};
use doc_tree::Element;
use feature_values::{FeatureType, ValueKind};
use fes_filter::{By, Expr, Filter, FilterFault, is_equality, is_words};
use std::alloc::Global;
use wfs_ends::{List, Text};

// ---- comparisons

fn case_by(alloc: Global, may: bool, value: Option<&Text>) -> Result<bool, FilterDocFault>
    ensures { GivesBut OutOfMemory (λ x. x) result (case_by may (option_copied value.entry)) }
{
    let Some(value) = value else {
        return Ok(false);
    };
    if value.as_str() == "true" {
        return Ok(false);
    }
    if may && value.as_str() == "false" {
        return Ok(true);
    }
    Err(checked(alloc, FilterFault::Choice, "matchCase"))
}

// Whether case is left out.
#[tactic(auto, unfolding(crate::specs::Sides::fold_of))]
fn fold_of(alloc: Global, by: By, element: &Element) -> Result<bool, FilterDocFault>
    ensures { GivesBut OutOfMemory (λ x. x) result (fold_of by element.now) }
{
    case_by(alloc, is_equality(by), value_of(element, "matchCase"))
}

// Refuses an operator that would leave case out.
#[tactic(auto, unfolding(crate::specs::Sides::case_of))]
pub(crate) fn case_of(alloc: Global, element: &Element) -> Result<(), FilterDocFault>
    ensures { GivesBut OutOfMemory (λ x. x) result (case_of element.now) }
{
    case_by(alloc, false, value_of(element, "matchCase"))?;
    Ok(())
}

#[tactic(auto, unfolding(crate::specs::Sides::only_case))]
fn only_case(alloc: Global, element: &Element) -> Result<(), FilterDocFault>
    ensures { GivesBut OutOfMemory (λ x. x) result (only_case element.now) }
{
    case_of(alloc, element)?;
    no_others(alloc, element, &["matchCase"])
}

fn is_action(value: Option<&Text>) -> bool
    ensures { result ≡ is_action (option_copied value.entry) }
{
    let Some(value) = value else {
        return true;
    };
    value.as_str() == "Any" || value.as_str() == "All" || value.as_str() == "One"
}

#[tactic(auto, unfolding(crate::specs::Sides::action_of))]
fn action_of(alloc: Global, element: &Element) -> Result<(), FilterDocFault>
    ensures { GivesBut OutOfMemory (λ x. x) result (action_of element.now) }
{
    if is_action(value_of(element, "matchAction")) {
        return Ok(());
    }
    Err(no_operator(alloc, "matchAction"))
}

#[tactic(auto, unfolding(crate::specs::Sides::only_matches))]
fn only_matches(alloc: Global, element: &Element) -> Result<(), FilterDocFault>
    ensures { GivesBut OutOfMemory (λ x. x) result (only_matches element.now) }
{
    no_others(alloc, element, &["matchCase", "matchAction"])
}

// Case is left out of texts alone.
#[tactic(auto, unfolding(crate::specs::Sides::folded))]
fn folded(alloc: Global, fold: bool, kind: ValueKind) -> Result<(), FilterDocFault>
    ensures { GivesBut OutOfMemory (λ x. x) result (folded fold kind) }
{
    if fold && !is_words(kind) {
        return Err(checked(alloc, FilterFault::Choice, "matchCase"));
    }
    Ok(())
}

fn and_folded<T: Drop>(
    alloc: Global,
    found: T,
    fold: bool,
    kind: ValueKind,
) -> Result<T, FilterDocFault>
    ensures { GivesBut OutOfMemory (λ x. x) result (and_folded found fold kind) }
{
    match folded(alloc, fold, kind) {
        Ok(()) => Ok(found),
        Err(fault) => Err(fault),
    }
}

// PropertyIsEqualTo and its like.
#[tactic(auto, unfolding(crate::specs::Sides::compare_of))]
pub(crate) fn compare_of(
    alloc: Global,
    parameters: Option<&List<Text>>,
    of_type: Option<&FeatureType>,
    by: By,
    element: &Element,
) -> Result<Filter, FilterDocFault>
    ensures { GivesBut OutOfMemory (λ x. x) result
        (compare_of (option_copied parameters.entry) (option_copied of_type.entry) by element.now) }
{
    let fold = fold_of(alloc, by, element)?;
    action_of(alloc, element)?;
    only_matches(alloc, element)?;
    let (left, right, kind) = sides_of(alloc, parameters, of_type, by, element)?;
    let filter = Filter::Compare {
        by,
        left,
        right,
        fold,
    };
    and_folded(alloc, filter, fold, kind)
}

// ---- ranges

// The bound in an element of this name, beside a property of this kind and name.
#[tactic(auto, unfolding(crate::specs::Sides::bound_at))]
fn bound_at(
    alloc: Global,
    local: &str,
    parameters: Option<&List<Text>>,
    of_type: Option<&FeatureType>,
    kind: ValueKind,
    name: &Text,
    element: &Element,
) -> Result<Expr, FilterDocFault>
    ensures { GivesBut OutOfMemory (λ x. x) result
        (bound_at local.now (option_copied parameters.entry) (option_copied of_type.entry) kind
        name.now element.now) }
{
    named(alloc, element, local)?;
    no_others(alloc, element, &[])?;
    let (first, rest) = first_in(alloc, element, element.children.items())?;
    let bound = beside(alloc, parameters, of_type, kind, name, first)?;
    and_no_more(alloc, bound, rest)
}

// Both bounds, behind a property of this kind and name.
#[tactic(auto, unfolding(crate::specs::Sides::bounds_of))]
fn bounds_of(
    alloc: Global,
    parameters: Option<&List<Text>>,
    of_type: Option<&FeatureType>,
    kind: ValueKind,
    name: &Text,
    whole: &Element,
    elements: &[Element],
) -> Result<(Expr, Expr), FilterDocFault>
    ensures { GivesBut OutOfMemory (λ x. x) result
        (bounds_of (option_copied parameters.entry) (option_copied of_type.entry) kind name.now
        whole.now elements.now) }
{
    let (lower, rest) = first_in(alloc, whole, elements)?;
    let low = bound_at(
        alloc,
        "LowerBoundary",
        parameters,
        of_type,
        kind,
        name,
        lower,
    )?;
    let (upper, rest) = first_in(alloc, whole, rest)?;
    let high = bound_at(
        alloc,
        "UpperBoundary",
        parameters,
        of_type,
        kind,
        name,
        upper,
    )?;
    and_no_more(alloc, (low, high), rest)
}

// PropertyIsBetween.
#[tactic(auto, unfolding(crate::specs::Sides::between_of))]
pub(crate) fn between_of(
    alloc: Global,
    parameters: Option<&List<Text>>,
    of_type: Option<&FeatureType>,
    element: &Element,
) -> Result<Filter, FilterDocFault>
    ensures { GivesBut OutOfMemory (λ x. x) result
        (between_of (option_copied parameters.entry) (option_copied of_type.entry) element.now) }
{
    only_case(alloc, element)?;
    let (first, rest) = first_in(alloc, element, element.children.items())?;
    named(alloc, first, "ValueReference")?;
    let (property, kind) = comparable_at(alloc, of_type, By::Less, first)?;
    let (low, high) = bounds_of(alloc, parameters, of_type, kind, &first.text, element, rest)?;
    Ok(Filter::Between {
        property,
        low,
        high,
    })
}

// ---- nulls

// PropertyIsNull.
#[tactic(auto, unfolding(crate::specs::Sides::null_of))]
pub(crate) fn null_of(
    alloc: Global,
    of_type: Option<&FeatureType>,
    element: &Element,
) -> Result<Filter, FilterDocFault>
    ensures { GivesBut OutOfMemory (λ x. x) result
        (null_of (option_copied of_type.entry) element.now) }
{
    only_case(alloc, element)?;
    let (first, rest) = first_in(alloc, element, element.children.items())?;
    named(alloc, first, "ValueReference")?;
    let (property, _) = property_at(alloc, of_type, first)?;
    no_more(alloc, rest)?;
    Ok(Filter::IsNull(property))
}
