//! The properties of a type, each under its own name.

ghost use Rattle.std.specs.Prelude.{◌≡◌, [], ◌∷◌, map, codes};
ghost use Rattle.std.specs.List.{list_any};
ghost use Rattle.std.specs.Str.{bytes_eq};
ghost use Rattle.toml.specs.View.{view, table_view};
ghost use Rattle.wfs_ends.specs.Read.{GivesBut, each};
ghost use Rattle.feature_schema.specs.File.{kind_named, kind_at, required_at, is_words, allowed, max_of, max_at, new_property, property_keys, property_step, properties_at};
ghost use Rattle.feature_schema.specs.declared.fault.SchemaFault.TheVariants.{OutOfMemory};

use crate::fault::{SchemaFault, bad_key, bad_kind};
use crate::tables::{few, name_at, no_others, tables_at, text_of, value_at};
use feature_values::{Property, ValueKind};
use std::alloc::Global;
use toml::{Table, Value};
use wfs_ends::Text;

// The kind of a word.
#[tactic(auto, unfolding(crate::specs::File::kind_named))]
fn kind_named(text: &str) -> Option<ValueKind>
    ensures { result ≡ kind_named text.now }
{
    if text == "text" {
        return Some(ValueKind::Words);
    }
    if text == "integer" {
        return Some(ValueKind::Whole);
    }
    if text == "boolean" {
        return Some(ValueKind::Truth);
    }
    if text == "point" {
        return Some(ValueKind::Point);
    }
    if text == "line" {
        return Some(ValueKind::Line);
    }
    if text == "polygon" {
        return Some(ValueKind::Polygon);
    }
    None
}

#[tactic(auto, unfolding(crate::specs::File::kind_at))]
fn kind_at(alloc: Global, name: &Text, table: &Table) -> Result<ValueKind, SchemaFault>
    ensures { GivesBut OutOfMemory (λ k. k) result (kind_at name.now (table_view table.now)) }
{
    let Some(text) = text_of(table, "kind") else {
        return Err(bad_key(alloc, "kind"));
    };
    let Some(kind) = kind_named(text) else {
        return Err(bad_kind(alloc, name.as_str()));
    };
    Ok(kind)
}

#[tactic(auto, unfolding(crate::specs::File::required_at))]
fn required_at(alloc: Global, table: &Table) -> Result<bool, SchemaFault>
    ensures { GivesBut OutOfMemory (λ b. b) result (required_at (table_view table.now)) }
{
    let Some(value) = value_at(table, "required") else {
        return Ok(false);
    };
    let Some(required) = value.as_bool() else {
        return Err(bad_key(alloc, "required"));
    };
    Ok(required)
}

fn is_words(kind: ValueKind) -> bool
    ensures { result ≡ is_words kind }
{
    match kind {
        ValueKind::Words => true,
        _ => false,
    }
}

// A number of characters, from 1 to 4,096.
fn allowed(number: i64) -> Option<u32>
    ensures { result ≡ allowed number }
{
    if number < 1 || number > 4096 {
        return None;
    }
    Some(number as u32)
}

#[tactic(auto, unfolding(crate::specs::File::max_at))]
fn max_at(alloc: Global, kind: ValueKind, table: &Table) -> Result<u32, SchemaFault>
    ensures { GivesBut OutOfMemory (λ n. n) result (max_at kind (table_view table.now)) }
{
    let Some(value) = value_at(table, "max") else {
        return Ok(4096);
    };
    if !is_words(kind) {
        return Err(bad_key(alloc, "max"));
    }
    let Some(number) = value.as_integer() else {
        return Err(bad_key(alloc, "max"));
    };
    let Some(max) = allowed(number) else {
        return Err(bad_key(alloc, "max"));
    };
    Ok(max)
}

fn is_among(found: &[Property], name: &Text) -> bool
    ensures { result ≡ list_any (λ p. bytes_eq p.name name.now) found.now }
{
    found.iter().any(|p| p.name == *name)
}

// A name that none of these has.
#[tactic(auto, unfolding(crate::specs::File::new_property))]
fn new_property(found: &[Property], name: Text) -> Result<Text, SchemaFault>
    ensures { GivesBut OutOfMemory (λ t. t) result (new_property found.now name) }
{
    if is_among(found, &name) {
        return Err(SchemaFault::Twice(name));
    }
    Ok(name)
}

#[tactic(auto, unfolding(crate::specs::File::property_step))]
fn add_property(alloc: Global, found: &mut Vec<Property>, value: &Value) -> Result<(), SchemaFault>
    ensures { GivesBut OutOfMemory (λ _. found.new.items) result
        (property_step found.old.items (view value.now)) }
{
    let Some(table) = value.as_table() else {
        return Err(bad_key(alloc, "property"));
    };
    let name = new_property(found, name_at(alloc, table)?)?;
    let kind = kind_at(alloc, &name, table)?;
    let required = required_at(alloc, table)?;
    let max = max_at(alloc, kind, table)?;
    no_others(alloc, table, &["name", "kind", "required", "max"])?;
    found.push(Property {
        name,
        kind,
        required,
        max,
    })?;
    Ok(())
}

#[tactic(auto, using(wfs_ends::proofs::Turns::each_end))]
fn properties_of(alloc: Global, values: &[Value]) -> Result<Vec<Property>, SchemaFault>
    ensures { GivesBut OutOfMemory (λ v. v.items) result
        (each property_step [] (map view values.now)) }
{
    let mut found = Vec::new(alloc);
    for value in values {
        add_property(alloc, &mut found, value)?;
    }
    Ok(found)
}

// The properties of a type.
#[tactic(auto, unfolding(crate::specs::File::properties_at))]
pub(crate) fn properties_at(alloc: Global, table: &Table) -> Result<Vec<Property>, SchemaFault>
    ensures { GivesBut OutOfMemory (λ v. v.items) result (properties_at (table_view table.now)) }
{
    let values = tables_at(alloc, table, "property", 0)?;
    few(values)?;
    properties_of(alloc, values)
}
