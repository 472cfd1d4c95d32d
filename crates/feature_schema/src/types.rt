//! The types of a file, each under its own name.

ghost use Rattle.std.specs.Prelude.{◌≡◌, [], ◌∷◌, map};
ghost use Rattle.std.specs.List.{list_any};
ghost use Rattle.std.specs.Str.{bytes_eq};
ghost use Rattle.toml.specs.View.{view, table_view};
ghost use Rattle.wfs_ends.specs.Read.{GivesBut, each};
ghost use Rattle.feature_schema.specs.File.{new_type, type_step, top_keys, types_at};
ghost use Rattle.feature_schema.specs.Tables.{no_others};
ghost use Rattle.feature_schema.specs.declared.fault.SchemaFault.TheVariants.{OutOfMemory};

use crate::fault::{SchemaFault, bad_key};
use crate::properties::properties_at;
use crate::tables::{few, name_at, no_others, tables_at};
use feature_values::FeatureType;
use std::alloc::Global;
use toml::{Table, Value};
use wfs_ends::{List, Text};

fn is_among(found: &[FeatureType], name: &Text) -> bool
    ensures { result ≡ list_any (λ t. bytes_eq t.name name.now) found.now }
{
    found.iter().any(|t| t.name == *name)
}

// A name that none of these has.
#[tactic(auto, unfolding(crate::specs::File::new_type))]
fn new_type(found: &[FeatureType], name: Text) -> Result<Text, SchemaFault>
    ensures { GivesBut OutOfMemory (λ t. t) result (new_type found.now name) }
{
    if is_among(found, &name) {
        return Err(SchemaFault::Twice(name));
    }
    Ok(name)
}

#[tactic(auto, unfolding(crate::specs::File::type_step))]
fn add_type(alloc: Global, found: &mut Vec<FeatureType>, value: &Value) -> Result<(), SchemaFault>
    ensures { GivesBut OutOfMemory (λ _. found.new.items) result
        (type_step found.old.items (view value.now)) }
{
    let Some(table) = value.as_table() else {
        return Err(bad_key(alloc, "type"));
    };
    let name = new_type(found, name_at(alloc, table)?)?;
    let properties = List::of(properties_at(alloc, table)?);
    no_others(alloc, table, &["name", "property"])?;
    found.push(FeatureType { name, properties })?;
    Ok(())
}

#[tactic(auto, using(wfs_ends::proofs::Turns::each_end))]
fn types_of(alloc: Global, values: &[Value]) -> Result<Vec<FeatureType>, SchemaFault>
    ensures { GivesBut OutOfMemory (λ v. v.items) result (each type_step [] (map view values.now)) }
{
    let mut found = Vec::new(alloc);
    for value in values {
        add_type(alloc, &mut found, value)?;
    }
    Ok(found)
}

// No top key but these.
fn only_top_keys(alloc: Global, table: &Table) -> Result<(), SchemaFault>
    ensures { GivesBut OutOfMemory (λ u. u) result (no_others top_keys (table_view table.now)) }
{
    no_others(
        alloc,
        table,
        &["title", "address", "namespace", "prefix", "srs", "type"],
    )
}

// The types of a file, behind its other keys.
#[tactic(auto, unfolding(crate::specs::File::types_at))]
pub(crate) fn types_at(alloc: Global, table: &Table) -> Result<Vec<FeatureType>, SchemaFault>
    ensures { GivesBut OutOfMemory (λ v. v.items) result (types_at (table_view table.now)) }
{
    let values = tables_at(alloc, table, "type", 1)?;
    only_top_keys(alloc, table)?;
    few(values)?;
    types_of(alloc, values)
}
