//! The values at the keys of a table, and the keys that it may not have.

ghost use Rattle.std.specs.Prelude.{◌≡◌, map, option_map, option_and_then, find, string_bytes, not};
ghost use Rattle.std.specs.BTreeMap.{keys};
ghost use Rattle.std.specs.List.{list_any, list_all};
ghost use Rattle.std.specs.Str.{bytes_eq};
ghost use Rattle.toml.specs.View.{view, table_view, array_view};
ghost use Rattle.toml.specs.Data.{get_member, as_array};
ghost use Rattle.wfs_ends.specs.Read.{GivesBut};
ghost use Rattle.feature_schema.specs.Tables.{table_of, text_of, line_at, name_at, prefix_at, list_at, are_tables, tables_at, few, unknown_of, no_others, is_table};
ghost use Rattle.feature_schema.specs.declared.fault.SchemaFault.TheVariants.{OutOfMemory};

use crate::fault::{SchemaFault, bad_key};
use crate::texts::{is_line, is_name, is_prefix};
use std::alloc::Global;
use toml::{Table, Value};
use wfs_ends::Text;

// The table that the bytes of a file mean.
#[tactic(auto, using(crate::proofs::Toml::is_toml, crate::proofs::Toml::not_toml))]
pub(crate) fn table_of(alloc: Global, bytes: &[u8]) -> Result<Table, SchemaFault>
    ensures { GivesBut OutOfMemory table_view result (table_of bytes.now) }
{
    match toml::table_from_slice(alloc, bytes) {
        Ok(table) => Ok(table),
        Err(e) => {
            if e.is_memory() {
                return Err(SchemaFault::OutOfMemory);
            }
            Err(SchemaFault::NotToml)
        }
    }
}

// The value at a key.
pub(crate) fn value_at<'a>(table: &'a Table, key: &str) -> Option<&'a Value>
    ensures { option_map (λ v. view v.now) result ≡ get_member key.now (table_view table.now) }
{
    table.get(key)
}

// The text at a key.
pub(crate) fn text_of<'a>(table: &'a Table, key: &str) -> Option<&'a str>
    ensures { option_map (λ s. s.now) result ≡ text_of key.now (table_view table.now) }
{
    match value_at(table, key) {
        Some(value) => value.as_str(),
        None => None,
    }
}

#[tactic(auto, unfolding(crate::specs::Tables::line_at))]
pub(crate) fn line_at(alloc: Global, table: &Table, key: &str) -> Result<Text, SchemaFault>
    ensures { GivesBut OutOfMemory (λ t. t) result (line_at key.now (table_view table.now)) }
{
    let Some(text) = text_of(table, key) else {
        return Err(bad_key(alloc, key));
    };
    if !is_line(text) {
        return Err(bad_key(alloc, key));
    }
    Ok(Text::of(alloc, text)?)
}

#[tactic(auto, unfolding(crate::specs::Tables::name_at))]
pub(crate) fn name_at(alloc: Global, table: &Table) -> Result<Text, SchemaFault>
    ensures { GivesBut OutOfMemory (λ t. t) result (name_at (table_view table.now)) }
{
    let Some(text) = text_of(table, "name") else {
        return Err(bad_key(alloc, "name"));
    };
    if !is_name(text) {
        return Err(bad_key(alloc, "name"));
    }
    Ok(Text::of(alloc, text)?)
}

#[tactic(auto, unfolding(crate::specs::Tables::prefix_at))]
pub(crate) fn prefix_at(alloc: Global, table: &Table) -> Result<Text, SchemaFault>
    ensures { GivesBut OutOfMemory (λ t. t) result (prefix_at (table_view table.now)) }
{
    let Some(text) = text_of(table, "prefix") else {
        return Err(bad_key(alloc, "prefix"));
    };
    if !is_prefix(text) {
        return Err(bad_key(alloc, "prefix"));
    }
    Ok(Text::of(alloc, text)?)
}

// The array at a key.
fn array_at<'a>(table: &'a Table, key: &str) -> Option<&'a Vec<Value>>
    ensures { option_map (λ s. array_view s.now) result
        ≡ option_and_then as_array (get_member key.now (table_view table.now)) }
{
    match value_at(table, key) {
        Some(value) => value.as_array(),
        None => None,
    }
}

// The list at a key.
#[tactic(auto, using(crate::proofs::Toml::values_view), unfolding(crate::specs::Tables::list_at))]
pub(crate) fn list_at<'a>(
    alloc: Global,
    table: &'a Table,
    key: &str,
) -> Result<&'a [Value], SchemaFault>
    ensures { GivesBut OutOfMemory (λ t. map view t.now) result
        (list_at key.now (table_view table.now)) }
{
    let Some(list) = array_at(table, key) else {
        return Err(bad_key(alloc, key));
    };
    Ok(list.as_slice())
}

fn all_are_tables(values: &[Value]) -> bool
    ensures { result ≡ list_all (λ v. is_table (view v)) values.now }
{
    values.iter().all(|value| value.is_table())
}

// At least so many values, and all of them tables.
#[tactic(auto, using(crate::proofs::Toml::all_through, crate::proofs::Toml::as_many), unfolding(crate::specs::Tables::are_tables))]
fn are_tables(values: &[Value], least: usize) -> bool
    ensures { result ≡ are_tables least (map view values.now) }
{
    all_are_tables(values) && values.len() >= least
}

// The list of tables at a key, which has at least so many.
#[tactic(auto, unfolding(crate::specs::Tables::tables_at))]
pub(crate) fn tables_at<'a>(
    alloc: Global,
    table: &'a Table,
    key: &str,
    least: usize,
) -> Result<&'a [Value], SchemaFault>
    ensures { GivesBut OutOfMemory (λ t. map view t.now) result
        (tables_at least key.now (table_view table.now)) }
{
    let values = list_at(alloc, table, key)?;
    if !are_tables(values, least) {
        return Err(bad_key(alloc, key));
    }
    Ok(values)
}

#[tactic(auto, unfolding(crate::specs::Tables::few))]
pub(crate) fn few(values: &[Value]) -> Result<(), SchemaFault>
    ensures { GivesBut OutOfMemory (λ u. u) result (few (map view values.now)) }
{
    if values.len() > 64 {
        return Err(SchemaFault::TooMany);
    }
    Ok(())
}

// A key is one of these.
fn is_known(known: &[&str], key: &str) -> bool
    ensures { result ≡ list_any (λ n. bytes_eq n.now key.now) known.now }
{
    known.iter().any(|n| *n == key)
}

// The first key of the map that is none of these.
fn other_key<'a>(table: &'a Table, known: &[&str]) -> Option<&'a String>
    ensures { option_map (λ s. s.now) result ≡ find
        (λ k. not (list_any (λ n. bytes_eq n.now (string_bytes k)) known.now)) (keys table.now) }
{
    table.keys().find(|k| !is_known(known, k.as_str()))
}

// The first key, by name, that is none of these.
fn unknown_of<'a>(table: &'a Table, known: &[&str]) -> Option<&'a str>
    ensures { option_map (λ s. s.now) result ≡ unknown_of (map (λ n. n.now) known.now)
        (table_view table.now) }
{
    match other_key(table, known) {
        Some(key) => Some(key.as_str()),
        None => None,
    }
}

// No key but these.
#[tactic(auto, unfolding(crate::specs::Tables::no_others))]
pub(crate) fn no_others(alloc: Global, table: &Table, known: &[&str]) -> Result<(), SchemaFault>
    ensures { GivesBut OutOfMemory (λ u. u) result
        (no_others (map (λ n. n.now) known.now) (table_view table.now)) }
{
    match unknown_of(table, known) {
        Some(key) => Err(bad_key(alloc, key)),
        None => Ok(()),
    }
}
