//! DescribeFeatureType.

ghost use Rattle.std.specs.Prelude.{◌≡◌, [], ◌∷◌, ◌++◌, OnOk};
ghost use Rattle.wfs_ends.specs.Read.{GivesBut, each};
ghost use Rattle.wfs_requests.specs.Describing.{next_type, types_others, types_of};

use crate::base::base_of;
use doc_tree::Element;
use feature_values::Schema;
use request_parameters::{Attributes, format_of, is_wfs, kind_of, misplaced, no_others, text_in};
use std::alloc::Global;
use wfs_ends::{List, Mem};
use wfs_model::{AskFault, Request};

fn push_type(found: &mut Vec<u32>, kind: u32) -> Mem<()>
    ensures { OnOk result (found.new.items ≡ found.old.items ++ kind ∷ []) }
{
    found.push(kind)?;
    Ok(())
}

// Adds a TypeName.
#[tactic(auto, unfolding(crate::specs::Describing::next_type, wfs_ends::specs::Read::unless))]
fn add_type(
    alloc: Global,
    schema: &Schema,
    found: &mut Vec<u32>,
    element: &Element,
) -> Result<(), AskFault>
    ensures { GivesBut AskFault.OutOfMemory (λ _. found.new.items) result
        (next_type schema.now found.old.items element.now) }
{
    if !is_wfs(element, "TypeName") {
        return Err(misplaced(alloc, element));
    }
    no_others(alloc, element, &[])?;
    let name = text_in(alloc, element)?;
    let kind = kind_of(alloc, schema, "TypeName", name.as_str())?;
    push_type(found, kind)?;
    Ok(())
}

fn all_types(alloc: Global, schema: &Schema, elements: &[Element]) -> Result<Vec<u32>, AskFault>
    ensures { GivesBut AskFault.OutOfMemory (λ v. v.items) result
        (each (next_type schema.now) [] elements.now) }
{
    let mut found = Vec::new(alloc);
    for element in elements {
        add_type(alloc, schema, &mut found, element)?;
    }
    Ok(found)
}

// Refuses attributes that a DescribeFeatureType has not.
#[tactic(auto, unfolding(crate::specs::Describing::types_others))]
fn types_others(alloc: Global, element: &Element) -> Result<(), AskFault>
    ensures { GivesBut AskFault.OutOfMemory (λ x. x) result (types_others element.now) }
{
    no_others(
        alloc,
        element,
        &["service", "version", "handle", "outputFormat"],
    )
}

// A DescribeFeatureType.
#[tactic(auto, unfolding(crate::specs::Describing::types_of))]
pub(crate) fn types_of(
    alloc: Global,
    schema: &Schema,
    element: &Element,
) -> Result<Request, AskFault>
    ensures { GivesBut AskFault.OutOfMemory (λ request. request) result
        (types_of schema.now element.now) }
{
    base_of(alloc, element)?;
    format_of(alloc, "outputFormat", &Attributes { of: element })?;
    types_others(alloc, element)?;
    let kinds = all_types(alloc, schema, element.children.items())?;
    Ok(Request::DescribeTypes(List::of(kinds)))
}
