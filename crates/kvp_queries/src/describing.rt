//! What the service has: its operations, its types and its stored queries.

ghost use Rattle.std.specs.Prelude.{◌≡◌, [], ◌∷◌, ◌++◌, OnOk};
ghost use Rattle.wfs_ends.specs.Read.{GivesBut, each};
ghost use Rattle.kvp_queries.specs.Pairs.{said_by};
ghost use Rattle.kvp_queries.specs.Request.{capabilities_of, next_type, types_of, described_of, drop_of};

use crate::lists::items_if;
use crate::pairs::Listed;
use crate::selecting::type_names_of;
use feature_values::Schema;
use request_parameters::{Given, dropped_of, format_of, kind_of, negotiated};
use std::alloc::Global;
use wfs_ends::{List, Mem, Text};
use wfs_model::{AskFault, Request};

// GetCapabilities.
#[tactic(auto, unfolding(crate::specs::Request::capabilities_of))]
pub(crate) fn capabilities_of(alloc: Global, listed: &Listed) -> Result<Request, AskFault>
    ensures { GivesBut AskFault.OutOfMemory (λ r. r) result
        (capabilities_of (said_by listed.now.pairs)) }
{
    let versions = items_if(alloc, listed.value_of("acceptVersions"))?;
    negotiated(alloc, &versions)?;
    Ok(Request::Capabilities)
}

fn push_type(kinds: &mut Vec<u32>, kind: u32) -> Mem<()>
    ensures { OnOk result (kinds.new.items ≡ kinds.old.items ++ kind ∷ []) }
{
    kinds.push(kind)?;
    Ok(())
}

// Adds the type of a name.
#[tactic(auto, unfolding(crate::specs::Request::next_type))]
fn add_type(
    alloc: Global,
    schema: &Schema,
    kinds: &mut Vec<u32>,
    name: &Text,
) -> Result<(), AskFault>
    ensures { GivesBut AskFault.OutOfMemory (λ _. kinds.new.items) result
        (next_type schema.now kinds.old.items name.now) }
{
    let kind = kind_of(alloc, schema, "typeNames", name.as_str())?;
    push_type(kinds, kind)?;
    Ok(())
}

fn all_types(alloc: Global, schema: &Schema, names: &[Text]) -> Result<Vec<u32>, AskFault>
    ensures { GivesBut AskFault.OutOfMemory (λ v. v.items) result
        (each (next_type schema.now) [] names.now) }
{
    let mut kinds = Vec::new(alloc);
    for name in names {
        add_type(alloc, schema, &mut kinds, name)?;
    }
    Ok(kinds)
}

// DescribeFeatureType.
#[tactic(auto, unfolding(crate::specs::Request::types_of))]
pub(crate) fn types_of(alloc: Global, schema: &Schema, listed: &Listed) -> Result<Request, AskFault>
    ensures { GivesBut AskFault.OutOfMemory (λ r. r) result
        (types_of schema.now (said_by listed.now.pairs)) }
{
    let names = items_if(alloc, type_names_of(listed))?;
    let kinds = all_types(alloc, schema, &names)?;
    format_of(alloc, "outputFormat", listed)?;
    Ok(Request::DescribeTypes(List::of(kinds)))
}

// DescribeStoredQueries.
#[tactic(auto, unfolding(crate::specs::Request::described_of))]
pub(crate) fn described_of(alloc: Global, listed: &Listed) -> Result<Request, AskFault>
    ensures { GivesBut AskFault.OutOfMemory (λ r. r) result
        (described_of (said_by listed.now.pairs)) }
{
    let ids = items_if(alloc, listed.value_of("storedQuery_id"))?;
    Ok(Request::DescribeStored(List::of(ids)))
}

// DropStoredQuery.
#[tactic(auto, unfolding(crate::specs::Request::drop_of))]
pub(crate) fn drop_of(alloc: Global, listed: &Listed) -> Result<Request, AskFault>
    ensures { GivesBut AskFault.OutOfMemory (λ r. r) result (drop_of (said_by listed.now.pairs)) }
{
    let id = dropped_of(alloc, "storedQuery_id", listed)?;
    Ok(Request::DropStored(id))
}
