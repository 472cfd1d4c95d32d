//! A value as the content of an element.

ghost use Rattle.std.specs.Prelude.{◌≡◌};
ghost use Rattle.wfs_ends.specs.Read.{GivesBut};
ghost use Rattle.wfs_requests.specs.Values.{unfit, shape_of, only_shape, word_of, content_of, null_of, is_empty};

use doc_tree::Element;
use feature_values::{Property, Value, ValueFault, is_of_kind, read_value};
use fes_filter::is_shape;
use gml_docs::{GmlFault, read_geometry};
use std::alloc::Global;
use wfs_ends::{List, Text};
use wfs_model::{AskFault, refused};

// A value that does not fit its property.
pub(crate) fn unfit(alloc: Global, property: &Property) -> AskFault
    ensures { (result ≡ AskFault.OutOfMemory → ⊥) → result ≡ unfit property.now }
{
    refused(alloc, 14, property.name.as_str())
}

// A geometry of the property's kind.
#[tactic(auto, unfolding(crate::specs::Values::shape_of))]
fn shape_of(
    alloc: Global,
    srs: &List<Text>,
    property: &Property,
    element: &Element,
) -> Result<Value, AskFault>
    ensures { GivesBut AskFault.OutOfMemory (λ v. v) result
        (shape_of srs.now property.now element.now) }
{
    match read_geometry(alloc, element, srs) {
        Ok(shape) => {
            let value = Value::Shape(shape);
            if is_of_kind(&value, property.kind) {
                return Ok(value);
            }
            Err(unfit(alloc, property))
        }
        Err(GmlFault::OutOfMemory) => Err(AskFault::OutOfMemory),
        Err(_) => Err(unfit(alloc, property)),
    }
}

fn only_shape(
    alloc: Global,
    srs: &List<Text>,
    property: &Property,
    elements: &[Element],
) -> Result<Value, AskFault>
    ensures { GivesBut AskFault.OutOfMemory (λ v. v) result
        (only_shape srs.now property.now elements.now) }
{
    match elements {
        [element] => shape_of(alloc, srs, property, element),
        _ => Err(unfit(alloc, property)),
    }
}

// A text that the property's kind reads.
#[tactic(auto, unfolding(crate::specs::Values::word_of))]
fn word_of(alloc: Global, property: &Property, element: &Element) -> Result<Value, AskFault>
    ensures { GivesBut AskFault.OutOfMemory (λ v. v) result (word_of property.now element.now) }
{
    if !element.children.items().is_empty() {
        return Err(unfit(alloc, property));
    }
    match read_value(alloc, property, element.text.as_str()) {
        Ok(value) => Ok(value),
        Err(ValueFault::OutOfMemory) => Err(AskFault::OutOfMemory),
        Err(_) => Err(unfit(alloc, property)),
    }
}

// The content of an element as a value of a property.
#[tactic(auto, unfolding(crate::specs::Values::content_of))]
pub(crate) fn content_of(
    alloc: Global,
    srs: &List<Text>,
    property: &Property,
    element: &Element,
) -> Result<Value, AskFault>
    ensures { GivesBut AskFault.OutOfMemory (λ v. v) result
        (content_of srs.now property.now element.now) }
{
    if is_shape(property.kind) {
        return only_shape(alloc, srs, property, element.children.items());
    }
    word_of(alloc, property, element)
}

// Null, which a required property never is.
pub(crate) fn null_of(alloc: Global, property: &Property) -> Result<Value, AskFault>
    ensures { GivesBut AskFault.OutOfMemory (λ v. v) result (null_of property.now) }
{
    if property.required {
        return Err(unfit(alloc, property));
    }
    Ok(Value::Null)
}

// Whether an element has neither child nor text.
#[tactic(auto, unfolding(crate::specs::Values::is_empty))]
pub(crate) fn is_empty(element: &Element) -> bool
    ensures { result ≡ is_empty element.now }
{
    element.children.items().is_empty() && element.text.as_str().is_empty()
}
