//! ResourceId.

ghost use Rattle.std.specs.Prelude.{◌≡◌, []};
ghost use Rattle.std.specs.Option.{option_copied};
ghost use Rattle.wfs_ends.specs.Read.{GivesBut, each};
ghost use Rattle.fes_docs.specs.Ids.{id_as, id_in, id_at, next_id};
ghost use Rattle.fes_docs.specs.declared.fault.FilterDocFault.TheVariants.{OutOfMemory};

use crate::element::{missing, named, no_more, no_others, value_of};
use crate::fault::FilterDocFault;
use crate::uses::place_of;
use doc_tree::Element;
use feature_values::{Schema, read_rid};
use fes_filter::IdRef;
use std::alloc::Global;
use wfs_ends::{List, Text};

fn id_as(schema: &Schema, place: Option<u32>, text: &str) -> IdRef
    ensures { result ≡ id_as schema.now place text.now }
{
    if let Some(place) = place {
        return IdRef::Parameter(place);
    }
    match read_rid(schema, text) {
        None => IdRef::Nobody,
        Some(id) => IdRef::Known(id),
    }
}

fn id_in(
    alloc: Global,
    parameters: Option<&List<Text>>,
    schema: &Schema,
    element: &Element,
    value: Option<&Text>,
) -> Result<IdRef, FilterDocFault>
    ensures { GivesBut OutOfMemory (λ x. x) result
        (id_in (option_copied parameters.entry) schema.now element.now
        (option_copied value.entry)) }
{
    match value {
        None => Err(missing(alloc, element)),
        Some(text) => {
            let place = place_of(alloc, parameters, text.as_str())?;
            Ok(id_as(schema, place, text.as_str()))
        }
    }
}

// What an element ResourceId names.
#[tactic(auto, unfolding(crate::specs::Ids::id_at))]
pub(crate) fn id_at(
    alloc: Global,
    parameters: Option<&List<Text>>,
    schema: &Schema,
    element: &Element,
) -> Result<IdRef, FilterDocFault>
    ensures { GivesBut OutOfMemory (λ x. x) result
        (id_at (option_copied parameters.entry) schema.now element.now) }
{
    let id = id_in(alloc, parameters, schema, element, value_of(element, "rid"))?;
    no_others(alloc, element, &["rid"])?;
    no_more(alloc, element.children.items())?;
    Ok(id)
}

#[tactic(auto, unfolding(crate::specs::Ids::next_id))]
fn add_id(
    alloc: Global,
    parameters: Option<&List<Text>>,
    schema: &Schema,
    found: &mut Vec<IdRef>,
    element: &Element,
) -> Result<(), FilterDocFault>
    ensures { GivesBut OutOfMemory (λ _. found.new.items) result
        (next_id (option_copied parameters.entry) schema.now found.old.items element.now) }
{
    named(alloc, element, "ResourceId")?;
    found.push(id_at(alloc, parameters, schema, element)?)?;
    Ok(())
}

// What elements ResourceId name.
pub(crate) fn ids_of(
    alloc: Global,
    parameters: Option<&List<Text>>,
    schema: &Schema,
    elements: &[Element],
) -> Result<Vec<IdRef>, FilterDocFault>
    ensures { GivesBut OutOfMemory (λ v. v.items) result
        (each (next_id (option_copied parameters.entry) schema.now) [] elements.now) }
{
    let mut found = Vec::new(alloc);
    for element in elements {
        add_id(alloc, parameters, schema, &mut found, element)?;
    }
    Ok(found)
}
