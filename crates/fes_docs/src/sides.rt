//! Properties and literals: the sides of comparisons, and the bounds of ranges.

ghost use Rattle.std.specs.Prelude.{◌≡◌};
ghost use Rattle.std.specs.Option.{option_copied};
ghost use Rattle.wfs_ends.specs.Read.{GivesBut};
ghost use Rattle.fes_docs.specs.Sides.{property_at, suited, comparable_at, literal_as, literal_at, beside, right_of, left_of, sides_from, sides_of};
ghost use Rattle.fes_docs.specs.declared.fault.FilterDocFault.TheVariants.{OutOfMemory};

use crate::element::{and_no_more, first_in, is_fes, missing, named, plain};
use crate::fault::{FilterDocFault, checked};
use crate::uses::place_of;
use doc_tree::Element;
use feature_values::{FeatureType, ValueFault, ValueKind, read_as};
use fes_filter::{By, Expr, FilterFault, is_comparable, is_same, property_in};
use std::alloc::Global;
use wfs_ends::{List, Text};

// ---- properties

// The property that a ValueReference names, and its kind.
#[tactic(auto, unfolding(crate::specs::Sides::property_at))]
pub(crate) fn property_at(
    alloc: Global,
    of_type: Option<&FeatureType>,
    element: &Element,
) -> Result<(u32, ValueKind), FilterDocFault>
    ensures { GivesBut OutOfMemory (λ x. x) result
        (property_at (option_copied of_type.entry) element.now) }
{
    plain(alloc, element)?;
    match property_in(of_type, element.text.as_str()) {
        None => Err(checked(alloc, FilterFault::Unknown, element.text.as_str())),
        Some(found) => Ok(found),
    }
}

// What has to hold of the property that a ValueReference names.
#[tactic(auto, unfolding(crate::specs::Sides::suited))]
pub(crate) fn suited(alloc: Global, holds: bool, element: &Element) -> Result<(), FilterDocFault>
    ensures { GivesBut OutOfMemory (λ x. x) result (suited holds element.now) }
{
    if holds {
        return Ok(());
    }
    Err(checked(alloc, FilterFault::Types, element.text.as_str()))
}

// A property whose values are compared so, and its kind.
#[tactic(auto, unfolding(crate::specs::Sides::comparable_at))]
pub(crate) fn comparable_at(
    alloc: Global,
    of_type: Option<&FeatureType>,
    by: By,
    element: &Element,
) -> Result<(u32, ValueKind), FilterDocFault>
    ensures { GivesBut OutOfMemory (λ x. x) result
        (comparable_at (option_copied of_type.entry) by element.now) }
{
    let (property, kind) = property_at(alloc, of_type, element)?;
    suited(alloc, is_comparable(by, kind), element)?;
    Ok((property, kind))
}

// ---- literals

// A parameter, or the value of a text, beside a property of this kind and name.
fn literal_as(
    alloc: Global,
    kind: ValueKind,
    name: &Text,
    place: Option<u32>,
    text: &Text,
) -> Result<Expr, FilterDocFault>
    ensures { GivesBut OutOfMemory (λ x. x) result (literal_as kind name.now place text.now) }
{
    if let Some(place) = place {
        return Ok(Expr::Parameter(place));
    }
    match read_as(alloc, kind, text.as_str()) {
        Ok(value) => Ok(Expr::Literal(value)),
        Err(ValueFault::OutOfMemory) => Err(FilterDocFault::OutOfMemory),
        Err(_) => Err(checked(alloc, FilterFault::Types, name.as_str())),
    }
}

// The place of the parameter that a Literal stands for.
#[tactic(auto, unfolding(crate::specs::Sides::literal_at))]
fn literal_at(
    alloc: Global,
    parameters: Option<&List<Text>>,
    element: &Element,
) -> Result<Option<u32>, FilterDocFault>
    ensures { GivesBut OutOfMemory (λ x. x) result
        (literal_at (option_copied parameters.entry) element.now) }
{
    plain(alloc, element)?;
    place_of(alloc, parameters, element.text.as_str())
}

// A ValueReference or a Literal beside a property of this kind and name.
#[tactic(auto, unfolding(crate::specs::Sides::beside))]
pub(crate) fn beside(
    alloc: Global,
    parameters: Option<&List<Text>>,
    of_type: Option<&FeatureType>,
    kind: ValueKind,
    name: &Text,
    element: &Element,
) -> Result<Expr, FilterDocFault>
    ensures { GivesBut OutOfMemory (λ x. x) result
        (beside (option_copied parameters.entry) (option_copied of_type.entry) kind name.now
        element.now) }
{
    if is_fes(element, "ValueReference") {
        let (property, other) = property_at(alloc, of_type, element)?;
        suited(alloc, is_same(kind, other), element)?;
        return Ok(Expr::Property(property));
    }
    if is_fes(element, "Literal") {
        let place = literal_at(alloc, parameters, element)?;
        return literal_as(alloc, kind, name, place, &element.text);
    }
    Err(missing(alloc, element))
}

// ---- the sides of a comparison

// Behind the property that `first` names.
#[tactic(auto, unfolding(crate::specs::Sides::right_of))]
fn right_of(
    alloc: Global,
    parameters: Option<&List<Text>>,
    of_type: Option<&FeatureType>,
    whole: &Element,
    first: &Element,
    property: (u32, ValueKind),
    elements: &[Element],
) -> Result<(Expr, Expr, ValueKind), FilterDocFault>
    ensures { GivesBut OutOfMemory (λ x. x) result
        (right_of (option_copied parameters.entry) (option_copied of_type.entry) whole.now first.now
        property elements.now) }
{
    let (second, rest) = first_in(alloc, whole, elements)?;
    let (property, kind) = property;
    let right = beside(alloc, parameters, of_type, kind, &first.text, second)?;
    and_no_more(alloc, (Expr::Property(property), right, kind), rest)
}

// Behind the literal that `first` holds.
#[tactic(auto, unfolding(crate::specs::Sides::left_of))]
fn left_of(
    alloc: Global,
    of_type: Option<&FeatureType>,
    by: By,
    whole: &Element,
    first: &Element,
    place: Option<u32>,
    elements: &[Element],
) -> Result<(Expr, Expr, ValueKind), FilterDocFault>
    ensures { GivesBut OutOfMemory (λ x. x) result
        (left_of (option_copied of_type.entry) by whole.now first.now place elements.now) }
{
    let (second, rest) = first_in(alloc, whole, elements)?;
    named(alloc, second, "ValueReference")?;
    let (property, kind) = comparable_at(alloc, of_type, by, second)?;
    let left = literal_as(alloc, kind, &second.text, place, &first.text)?;
    and_no_more(alloc, (left, Expr::Property(property), kind), rest)
}

#[tactic(auto, unfolding(crate::specs::Sides::sides_from))]
fn sides_from(
    alloc: Global,
    parameters: Option<&List<Text>>,
    of_type: Option<&FeatureType>,
    by: By,
    whole: &Element,
    first: &Element,
    rest: &[Element],
) -> Result<(Expr, Expr, ValueKind), FilterDocFault>
    ensures { GivesBut OutOfMemory (λ x. x) result
        (sides_from (option_copied parameters.entry) (option_copied of_type.entry) by whole.now
        first.now rest.now) }
{
    if is_fes(first, "ValueReference") {
        let property = comparable_at(alloc, of_type, by, first)?;
        return right_of(alloc, parameters, of_type, whole, first, property, rest);
    }
    if is_fes(first, "Literal") {
        let place = literal_at(alloc, parameters, first)?;
        return left_of(alloc, of_type, by, whole, first, place, rest);
    }
    Err(missing(alloc, first))
}

// The two sides of a comparison, and the kind of its property.
#[tactic(auto, unfolding(crate::specs::Sides::sides_of))]
pub(crate) fn sides_of(
    alloc: Global,
    parameters: Option<&List<Text>>,
    of_type: Option<&FeatureType>,
    by: By,
    element: &Element,
) -> Result<(Expr, Expr, ValueKind), FilterDocFault>
    ensures { GivesBut OutOfMemory (λ x. x) result
        (sides_of (option_copied parameters.entry) (option_copied of_type.entry) by element.now) }
{
    let (first, rest) = first_in(alloc, element, element.children.items())?;
    sides_from(alloc, parameters, of_type, by, element, first, rest)
}
