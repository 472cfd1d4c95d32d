//! Update.

ghost use Rattle.std.specs.Prelude.{◌≡◌, ◌==◌, ℕ, [], ◌∷◌, ◌++◌, length, None, Some, OnOk};
ghost use Rattle.std.specs.Option.{option_copied};
ghost use Rattle.wfs_ends.specs.Read.{GivesBut, each, unless};
ghost use Rattle.wfs_model.specs.OfSchema.{property_at};
ghost use Rattle.request_parameters.specs.Elements.{misplaced};
ghost use Rattle.wfs_requests.specs.Base.{children_of};
ghost use Rattle.wfs_requests.specs.Updates.{is_replace, way_of, reference_of, set_content, set_value, new_value, value_at, set_by, set_in, set_of, so_far, with_set, with_filter, next_change, update_others, update_of};

use crate::changes::{property_of, selected, type_of};
use crate::inserts::income_of;
use crate::values::{content_of, is_empty, null_of};
use doc_tree::Element;
use feature_values::{Property, Schema, Value};
use fes_filter::{Filter, is_shape, type_in};
use request_parameters::{
    Attributes, Given, is_wfs, misplaced, no_children, no_others, text_in, value_of,
};
use std::alloc::Global;
use wfs_ends::{List, Mem, Text};
use wfs_model::{Action, AskFault, refused};

// ---- one property

// Refuses other ways in which a value may change than that it is replaced.
#[tactic(auto, unfolding(crate::specs::Updates::way_of, crate::specs::Updates::is_replace, wfs_ends::specs::Read::unless))]
fn way_of(alloc: Global, element: &Element) -> Result<(), AskFault>
    ensures { GivesBut AskFault.OutOfMemory (λ x. x) result (way_of element.now) }
{
    let said = Attributes { of: element };
    let Some(text) = said.value_of("action") else {
        return Ok(());
    };
    if text.as_str() != "replace" {
        return Err(refused(alloc, 12, "action"));
    }
    Ok(())
}

// The name of the property, in a ValueReference.
#[tactic(auto, unfolding(crate::specs::Updates::reference_of, wfs_ends::specs::Read::unless))]
fn reference_of<'a>(alloc: Global, element: &'a Element) -> Result<&'a Text, AskFault>
    ensures { GivesBut AskFault.OutOfMemory (λ name. name.now) result (reference_of element.now) }
{
    if !is_wfs(element, "ValueReference") {
        return Err(misplaced(alloc, element));
    }
    way_of(alloc, element)?;
    no_others(alloc, element, &["action"])?;
    text_in(alloc, element)
}

// The content of a Value.
#[tactic(auto, unfolding(crate::specs::Updates::set_content))]
fn set_content(
    alloc: Global,
    srs: &List<Text>,
    property: &Property,
    element: &Element,
) -> Result<Value, AskFault>
    ensures { GivesBut AskFault.OutOfMemory (λ value. value) result
        (set_content srs.now property.now element.now) }
{
    if is_shape(property.kind) && is_empty(element) {
        return null_of(alloc, property);
    }
    content_of(alloc, srs, property, element)
}

// A Value.
#[tactic(auto, unfolding(crate::specs::Updates::set_value, wfs_ends::specs::Read::unless))]
fn set_value(
    alloc: Global,
    srs: &List<Text>,
    property: &Property,
    element: &Element,
) -> Result<Value, AskFault>
    ensures { GivesBut AskFault.OutOfMemory (λ value. value) result
        (set_value srs.now property.now element.now) }
{
    if !is_wfs(element, "Value") {
        return Err(misplaced(alloc, element));
    }
    no_others(alloc, element, &[])?;
    set_content(alloc, srs, property, element)
}

// The new value, by the elements behind a ValueReference.
fn new_value(
    alloc: Global,
    srs: &List<Text>,
    property: &Property,
    elements: &[Element],
) -> Result<Value, AskFault>
    ensures { GivesBut AskFault.OutOfMemory (λ value. value) result
        (new_value srs.now property.now elements.now) }
{
    let [element, rest @ ..] = elements else {
        return null_of(alloc, property);
    };
    let value = set_value(alloc, srs, property, element)?;
    no_children(alloc, rest)?;
    Ok(value)
}

// The new value of the property of this name, where there is one.
fn value_at(
    alloc: Global,
    srs: &List<Text>,
    name: &str,
    property: Option<&Property>,
    elements: &[Element],
) -> Result<Value, AskFault>
    ensures { GivesBut AskFault.OutOfMemory (λ value. value) result
        (value_at srs.now name.now (option_copied property.entry) elements.now) }
{
    match property {
        None => Err(refused(alloc, 11, name)),
        Some(property) => new_value(alloc, srs, property, elements),
    }
}

// The property of a type at a place.
fn property_at(schema: &Schema, kind: u32, place: u32) -> Option<&Property>
    ensures { option_copied result ≡ property_at schema.now (Some kind) place }
{
    match type_in(schema, Some(kind)) {
        None => None,
        Some(of_type) => of_type.properties.items().get(place as usize),
    }
}

// The property that an element names, and its new value by the elements behind that.
#[tactic(auto, unfolding(crate::specs::Updates::set_by))]
fn set_by(
    alloc: Global,
    schema: &Schema,
    kind: u32,
    element: &Element,
    rest: &[Element],
) -> Result<(u32, Value), AskFault>
    ensures { GivesBut AskFault.OutOfMemory (λ set. set) result
        (set_by schema.now kind element.now rest.now) }
{
    let name = reference_of(alloc, element)?.as_str();
    let place = property_of(alloc, schema, Some(kind), name)?;
    let property = property_at(schema, kind, place);
    let value = value_at(alloc, &schema.srs, name, property, rest)?;
    Ok((place, value))
}

// A Property.
#[tactic(auto, unfolding(crate::specs::Updates::set_of))]
fn set_of(
    alloc: Global,
    schema: &Schema,
    kind: u32,
    element: &Element,
) -> Result<(u32, Value), AskFault>
    ensures { GivesBut AskFault.OutOfMemory (λ set. set) result
        (set_of schema.now kind element.now) }
{
    no_others(alloc, element, &[])?;
    let [first, rest @ ..] = element.children.items() else {
        return Err(misplaced(alloc, element));
    };
    set_by(alloc, schema, kind, first, rest)
}

// ---- the whole

fn push_set(sets: &mut Vec<(u32, Value)>, set: (u32, Value)) -> Mem<()>
    ensures { OnOk result (sets.new.items ≡ sets.old.items ++ set ∷ []) }
{
    sets.push(set)?;
    Ok(())
}

#[tactic(auto, unfolding(crate::specs::Updates::with_set, wfs_ends::specs::Read::unless))]
fn add_set(
    alloc: Global,
    schema: &Schema,
    kind: u32,
    sets: &mut Vec<(u32, Value)>,
    filter: &Option<Filter>,
    element: &Element,
) -> Result<(), AskFault>
    ensures { GivesBut AskFault.OutOfMemory (λ _. so_far sets.new.items filter.now) result
        (with_set schema.now kind (so_far sets.old.items filter.now) element.now) }
{
    if filter.is_some() {
        return Err(misplaced(alloc, element));
    }
    let set = set_of(alloc, schema, kind, element)?;
    push_set(sets, set)?;
    Ok(())
}

#[tactic(auto, unfolding(crate::specs::Updates::with_filter, wfs_ends::specs::Read::unless))]
fn add_filter(
    alloc: Global,
    schema: &Schema,
    kind: u32,
    sets: &[(u32, Value)],
    filter: &mut Option<Filter>,
    element: &Element,
) -> Result<(), AskFault>
    ensures { GivesBut AskFault.OutOfMemory (λ _. so_far sets.now filter.new) result
        (with_filter schema.now kind (so_far sets.now filter.old) element.now) }
{
    if sets.is_empty() || filter.is_some() {
        return Err(misplaced(alloc, element));
    }
    *filter = Some(selected(alloc, schema, kind, element)?);
    Ok(())
}

// Adds what a child of an Update says.
#[tactic(auto, unfolding(crate::specs::Updates::next_change))]
fn add_change(
    alloc: Global,
    schema: &Schema,
    kind: u32,
    sets: &mut Vec<(u32, Value)>,
    filter: &mut Option<Filter>,
    element: &Element,
) -> Result<(), AskFault>
    ensures { GivesBut AskFault.OutOfMemory (λ _. so_far sets.new.items filter.new) result
        (next_change schema.now kind (so_far sets.old.items filter.old) element.now) }
{
    if is_wfs(element, "Property") {
        return add_set(alloc, schema, kind, sets, filter, element);
    }
    add_filter(alloc, schema, kind, sets, filter, element)
}

// All that an Update says.
fn all_changes(
    alloc: Global,
    schema: &Schema,
    kind: u32,
    sets: &mut Vec<(u32, Value)>,
    filter: &mut Option<Filter>,
    elements: &[Element],
) -> Result<(), AskFault>
    ensures { GivesBut AskFault.OutOfMemory (λ _. so_far sets.new.items filter.new) result
        (each (next_change schema.now kind) (so_far sets.old.items filter.old) elements.now) }
{
    for element in elements {
        add_change(alloc, schema, kind, sets, filter, element)?;
    }
    Ok(())
}

// The new values and the choice that an Update says.
fn changes_of(
    alloc: Global,
    schema: &Schema,
    kind: u32,
    elements: &[Element],
) -> Result<(List<(u32, Value)>, Option<Filter>), AskFault>
    ensures { GivesBut AskFault.OutOfMemory (λ x. so_far x.0 x.1) result
        (each (next_change schema.now kind) (so_far [] None) elements.now) }
{
    let mut sets = Vec::new(alloc);
    let mut filter = None;
    all_changes(alloc, schema, kind, &mut sets, &mut filter, elements)?;
    Ok((List::of(sets), filter))
}

// Refuses an Update that says nothing.
#[tactic(auto, unfolding(wfs_ends::specs::Read::unless))]
fn says_something(alloc: Global, element: &Element) -> Result<(), AskFault>
    ensures { GivesBut AskFault.OutOfMemory (λ x. x) result
        (unless (length (children_of element.now) == 0) (misplaced element.now)) }
{
    if element.children.items().is_empty() {
        return Err(misplaced(alloc, element));
    }
    Ok(())
}

// Refuses attributes that an Update has not.
#[tactic(auto, unfolding(crate::specs::Updates::update_others))]
fn update_others(alloc: Global, element: &Element) -> Result<(), AskFault>
    ensures { GivesBut AskFault.OutOfMemory (λ x. x) result (update_others element.now) }
{
    no_others(
        alloc,
        element,
        &["typeName", "handle", "inputFormat", "srsName"],
    )
}

// An Update.
#[tactic(auto, unfolding(crate::specs::Updates::update_of, wfs_ends::specs::Read::unless))]
pub(crate) fn update_of(
    alloc: Global,
    schema: &Schema,
    element: &Element,
) -> Result<Action, AskFault>
    ensures { GivesBut AskFault.OutOfMemory (λ action. action) result
        (update_of schema.now element.now) }
{
    let kind = type_of(alloc, schema, element)?;
    income_of(alloc, schema, element)?;
    update_others(alloc, element)?;
    let handle = value_of(alloc, &Attributes { of: element }, "handle")?;
    let (sets, filter) = changes_of(alloc, schema, kind, element.children.items())?;
    says_something(alloc, element)?;
    Ok(Action::Update {
        handle,
        kind,
        sets,
        filter,
    })
}
