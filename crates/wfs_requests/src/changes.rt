//! What actions change, and what selects the features that they change.

ghost use Rattle.std.specs.Prelude.{None, Some};
ghost use Rattle.wfs_ends.specs.Read.{GivesBut};
ghost use Rattle.fes_docs.specs.Filters.{filter_of};
ghost use Rattle.wfs_requests.specs.Changes.{type_of, sought, property_of, or_refusal, selected, only_filter};

use doc_tree::Element;
use feature_values::{Schema, ValueKind};
use fes_docs::{FilterDocFault, read_filter};
use fes_filter::{Filter, property_in, type_in};
use request_parameters::{Attributes, Given, kind_of, misplaced, no_children};
use std::alloc::Global;
use wfs_model::{AskFault, refused};

// ---- types and properties

// The type whose features an action changes.
#[tactic(auto, unfolding(crate::specs::Changes::type_of, request_parameters::specs::Said::required_of))]
pub(crate) fn type_of(alloc: Global, schema: &Schema, element: &Element) -> Result<u32, AskFault>
    ensures { GivesBut AskFault.OutOfMemory (λ kind. kind) result (type_of schema.now element.now) }
{
    let said = Attributes { of: element };
    let Some(name) = said.value_of("typeName") else {
        return Err(refused(alloc, 10, "typeName"));
    };
    kind_of(alloc, schema, "typeName", name.as_str())
}

fn sought(alloc: Global, name: &str, found: Option<(u32, ValueKind)>) -> Result<u32, AskFault>
    ensures { GivesBut AskFault.OutOfMemory (λ place. place) result (sought name.now found) }
{
    match found {
        None => Err(refused(alloc, 11, name)),
        Some((place, _)) => Ok(place),
    }
}

// The property of a type by its name as given.
#[tactic(auto, unfolding(crate::specs::Changes::property_of))]
pub(crate) fn property_of(
    alloc: Global,
    schema: &Schema,
    kind: Option<u32>,
    name: &str,
) -> Result<u32, AskFault>
    ensures { GivesBut AskFault.OutOfMemory (λ place. place) result
        (property_of schema.now kind name.now) }
{
    sought(alloc, name, property_in(type_in(schema, kind), name))
}

// ---- filters

// A Filter for a type.
#[tactic(auto, unfolding(crate::specs::Changes::selected))]
pub(crate) fn selected(
    alloc: Global,
    schema: &Schema,
    kind: u32,
    element: &Element,
) -> Result<Filter, AskFault>
    ensures { GivesBut AskFault.OutOfMemory (λ filter. filter) result
        (selected schema.now kind element.now) }
{
    match read_filter(alloc, element, Some(kind), schema) {
        Ok(filter) => Ok(filter),
        Err(FilterDocFault::OutOfMemory) => Err(AskFault::OutOfMemory),
        Err(fault) => {
            let (row, locator) = fault.refusal();
            Err(refused(alloc, row, locator))
        }
    }
}

// The one Filter that an action ends with.
pub(crate) fn only_filter(
    alloc: Global,
    schema: &Schema,
    kind: u32,
    action: &Element,
    elements: &[Element],
) -> Result<Filter, AskFault>
    ensures { GivesBut AskFault.OutOfMemory (λ filter. filter) result
        (only_filter schema.now kind action.now elements.now) }
{
    let [element, rest @ ..] = elements else {
        return Err(misplaced(alloc, action));
    };
    let filter = selected(alloc, schema, kind, element)?;
    no_children(alloc, rest)?;
    Ok(filter)
}
