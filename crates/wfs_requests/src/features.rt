//! Features that come in.

ghost use Rattle.std.specs.Prelude.{◌≡◌, false, IfOk, OnOk, length, map, codes, slice_get};
ghost use Rattle.std.specs.Option.{option_copied};
ghost use Rattle.wfs_ends.specs.Read.{GivesBut, each};
ghost use Rattle.gml_docs.specs.Elements.{is_gml};
ghost use Rattle.feature_values.specs.declared.value.Value.TheVariants.{Null as NullValue};
ghost use Rattle.wfs_requests.specs.Features.{is_true, is_nil, value_of, so_far, place_of, stray, with_value, next_value, one_met, all_met, values_of, kind_of, feature_of};

use crate::values::{content_of, is_empty, null_of, unfit};
use doc_tree::{Element, is_name, value_at};
use feature_values::{Feature, FeatureType, Property, Rid, Schema, Value};
use gml_docs::GML;
use request_parameters::no_others;
use std::alloc::Global;
use wfs_ends::{List, Mem, Text};
use wfs_model::{AskFault, refused};

// The namespace of attributes for instances of XML Schema.
const INSTANCE: &str = "http://www.w3.org/2001/XMLSchema-instance";

// ---- one property

fn is_true(value: Option<&Text>) -> bool
    ensures { result ≡ is_true (option_copied value.entry) }
{
    match value {
        None => false,
        Some(value) => value.as_str() == "true" || value.as_str() == "1",
    }
}

// Whether an element without content says that it is null.
#[tactic(auto, unfolding(crate::specs::Features::is_nil))]
fn is_nil(element: &Element) -> bool
    ensures { result ≡ is_nil element.now }
{
    is_true(value_at(element.attributes.items(), INSTANCE, "nil")) && is_empty(element)
}

// The value of the element of a property.
#[tactic(auto, unfolding(crate::specs::Features::value_of))]
fn value_of(
    alloc: Global,
    srs: &List<Text>,
    property: &Property,
    element: &Element,
) -> Result<Value, AskFault>
    ensures { GivesBut AskFault.OutOfMemory (λ v. v) result
        (value_of srs.now property.now element.now) }
{
    no_others(alloc, element, &[])?;
    if is_nil(element) {
        return null_of(alloc, property);
    }
    content_of(alloc, srs, property, element)
}

// ---- a feature

// No property was met so far.
fn none_met(alloc: Global, properties: &[Property]) -> Mem<Vec<bool>>
    ensures { IfOk result (λ v. v.items ≡ map (λ p. false) properties.now) }
{
    let mut met = Vec::with_capacity(alloc, properties.len())?;
    for _ in properties {
        met.push(false)?;
    }
    Ok(met)
}

// Null for each property.
fn all_null(alloc: Global, properties: &[Property]) -> Mem<Vec<Value>>
    ensures { IfOk result (λ v. v.items ≡ map (λ p. NullValue) properties.now) }
{
    let mut values = Vec::with_capacity(alloc, properties.len())?;
    for _ in properties {
        values.push(Value::Null)?;
    }
    Ok(values)
}

// The place among the properties of a type of the one that an element stands for.
#[tactic(auto, unfolding(crate::specs::Features::place_of))]
fn place_of(schema: &Schema, of_type: &FeatureType, element: &Element) -> Option<u32>
    ensures { result ≡ place_of schema.now of_type.now element.now }
{
    if element.name.space != schema.space {
        return None;
    }
    of_type.property_named(element.name.local.as_str())
}

fn stray(alloc: Global, element: &Element) -> AskFault
    ensures { (result ≡ AskFault.OutOfMemory → ⊥) → result ≡ stray element.now }
{
    refused(alloc, 14, element.name.local.as_str())
}

// Whether an element is a boundedBy of GML.
#[tactic(auto, unfolding(gml_docs::specs::Elements::is_gml))]
fn is_bounds(element: &Element) -> bool
    ensures { result ≡ is_gml (codes "boundedBy") element.now }
{
    is_name(&element.name, GML, "boundedBy")
}

// Adds the value of a property at its place, which comes at most once.
fn add_value(
    alloc: Global,
    srs: &List<Text>,
    properties: &[Property],
    met: &mut Vec<bool>,
    values: &mut Vec<Value>,
    place: usize,
    element: &Element,
) -> Result<(), AskFault>
    requires met { length met.old.items ≡ length properties.now }
    requires values { length values.old.items ≡ length properties.now }
    ensures gives { GivesBut AskFault.OutOfMemory (λ _. so_far met.new.items values.new.items)
        result (with_value srs.now (so_far met.old.items values.old.items) place element.now
        (slice_get properties.now place)) }
    ensures met { length met.new.items ≡ length properties.now }
    ensures values { length values.new.items ≡ length properties.now }
{
    let Some(property) = properties.get(place) else {
        return Err(stray(alloc, element));
    };
    if met[place] {
        return Err(stray(alloc, element));
    }
    let value = value_of(alloc, srs, property, element)?;
    met[place] = true;
    values[place] = value;
    Ok(())
}

// Adds what an element says of a feature.
#[tactic(auto, unfolding(crate::specs::Features::next_value))]
fn next_value(
    alloc: Global,
    schema: &Schema,
    of_type: &FeatureType,
    met: &mut Vec<bool>,
    values: &mut Vec<Value>,
    element: &Element,
) -> Result<(), AskFault>
    requires met { length met.old.items ≡ length of_type.now.properties }
    requires values { length values.old.items ≡ length of_type.now.properties }
    ensures gives { GivesBut AskFault.OutOfMemory (λ _. so_far met.new.items values.new.items)
        result (next_value schema.now of_type.now (so_far met.old.items values.old.items)
        element.now) }
    ensures met { length met.new.items ≡ length of_type.now.properties }
    ensures values { length values.new.items ≡ length of_type.now.properties }
{
    if is_bounds(element) {
        return Ok(());
    }
    let Some(place) = place_of(schema, of_type, element) else {
        return Err(stray(alloc, element));
    };
    let properties = of_type.properties.items();
    add_value(
        alloc,
        &schema.srs,
        properties,
        met,
        values,
        place as usize,
        element,
    )
}

// Adds what some elements say of a feature.
fn all_values(
    alloc: Global,
    schema: &Schema,
    of_type: &FeatureType,
    met: &mut Vec<bool>,
    values: &mut Vec<Value>,
    elements: &[Element],
) -> Result<(), AskFault>
    requires met { length met.old.items ≡ length of_type.now.properties }
    requires values { length values.old.items ≡ length of_type.now.properties }
    ensures gives { GivesBut AskFault.OutOfMemory (λ _. so_far met.new.items values.new.items)
        result (each (next_value schema.now of_type.now) (so_far met.old.items values.old.items)
        elements.now) }
    ensures met { OnOk result (length met.new.items ≡ length of_type.now.properties) }
{
    for element in elements {
        next_value(alloc, schema, of_type, met, values, element)?;
    }
    Ok(())
}

// Refuses a required property that was not met.
#[tactic(auto, unfolding(crate::specs::Features::one_met))]
fn one_met(alloc: Global, property: &Property, met: bool) -> Result<(), AskFault>
    ensures { GivesBut AskFault.OutOfMemory (λ x. x) result (one_met property.now met) }
{
    if property.required && !met {
        return Err(unfit(alloc, property));
    }
    Ok(())
}

// Refuses the first required property that was not met.
#[tactic(auto, using(crate::proofs::Each::met_end))]
fn all_met(alloc: Global, properties: &[Property], met: &[bool]) -> Result<(), AskFault>
    requires { length met.now ≡ length properties.now }
    ensures { GivesBut AskFault.OutOfMemory (λ x. x) result (all_met properties.now met.now) }
{
    for i in 0..properties.len() {
        one_met(alloc, &properties[i], met[i])?;
    }
    Ok(())
}

// The values of a feature of a type, in the order of its properties.
#[tactic(auto, unfolding(crate::specs::Features::values_of))]
pub(crate) fn values_of(
    alloc: Global,
    schema: &Schema,
    of_type: &FeatureType,
    element: &Element,
) -> Result<Vec<Value>, AskFault>
    ensures { GivesBut AskFault.OutOfMemory (λ v. v.items) result
        (values_of schema.now of_type.now element.now) }
{
    no_others(alloc, element, &[])?;
    let properties = of_type.properties.items();
    let mut met = none_met(alloc, properties)?;
    let mut values = all_null(alloc, properties)?;
    all_values(
        alloc,
        schema,
        of_type,
        &mut met,
        &mut values,
        element.children.items(),
    )?;
    all_met(alloc, properties, &met)?;
    Ok(values)
}

// The number of the type that an element stands for.
#[tactic(auto, unfolding(crate::specs::Features::kind_of))]
fn kind_of(schema: &Schema, element: &Element) -> Option<u32>
    ensures { result ≡ kind_of schema.now element.now }
{
    if element.name.space != schema.space {
        return None;
    }
    schema.type_named(element.name.local.as_str())
}

// The feature of an element, which has no number yet.
#[tactic(auto, unfolding(crate::specs::Features::feature_of))]
pub(crate) fn feature_of(
    alloc: Global,
    schema: &Schema,
    element: &Element,
) -> Result<Feature, AskFault>
    ensures { GivesBut AskFault.OutOfMemory (λ f. f) result (feature_of schema.now element.now) }
{
    let Some(kind) = kind_of(schema, element) else {
        return Err(stray(alloc, element));
    };
    let Some(of_type) = schema.types.items().get(kind as usize) else {
        return Err(stray(alloc, element));
    };
    let values = values_of(alloc, schema, of_type, element)?;
    Ok(Feature::of(alloc, Rid { kind, number: 0 }, values)?)
}
