//! The whole file, and the keys at its top.

ghost use Rattle.std.specs.Prelude.{◌≡◌, [], map, IfOk};
ghost use Rattle.toml.specs.View.{view, table_view};
ghost use Rattle.wfs_ends.specs.Read.{GivesBut, each};
ghost use Rattle.feature_schema.specs.File.{srs_step, srs_at, schema_at, schema_of};
ghost use Rattle.feature_schema.specs.Rules.{KeepsRules};
ghost use Rattle.feature_schema.specs.declared.fault.SchemaFault.TheVariants.{OutOfMemory};

use crate::fault::{SchemaFault, bad_key};
use crate::tables::{line_at, list_at, prefix_at, table_of};
use crate::texts::is_line;
use crate::types::types_at;
use feature_values::Schema;
use std::alloc::Global;
use toml::{Table, Value};
use wfs_ends::{List, Text};

#[tactic(auto, unfolding(crate::specs::File::srs_step))]
fn add_srs(alloc: Global, found: &mut Vec<Text>, value: &Value) -> Result<(), SchemaFault>
    ensures { GivesBut OutOfMemory (λ _. found.new.items) result
        (srs_step found.old.items (view value.now)) }
{
    let Some(text) = value.as_str() else {
        return Err(bad_key(alloc, "srs"));
    };
    if !is_line(text) {
        return Err(bad_key(alloc, "srs"));
    }
    found.push(Text::of(alloc, text)?)?;
    Ok(())
}

#[tactic(auto, using(wfs_ends::proofs::Turns::each_end))]
fn srs_of(alloc: Global, values: &[Value]) -> Result<Vec<Text>, SchemaFault>
    ensures { GivesBut OutOfMemory (λ v. v.items) result (each srs_step [] (map view values.now)) }
{
    let mut found = Vec::new(alloc);
    for value in values {
        add_srs(alloc, &mut found, value)?;
    }
    Ok(found)
}

// The names of the reference system.
#[tactic(auto, unfolding(crate::specs::File::srs_at))]
fn srs_at(alloc: Global, table: &Table) -> Result<Vec<Text>, SchemaFault>
    ensures { GivesBut OutOfMemory (λ v. v.items) result (srs_at (table_view table.now)) }
{
    let values = list_at(alloc, table, "srs")?;
    if values.is_empty() || values.len() > 8 {
        return Err(bad_key(alloc, "srs"));
    }
    srs_of(alloc, values)
}

#[tactic(auto, unfolding(crate::specs::File::schema_at))]
fn schema_at(alloc: Global, table: &Table) -> Result<Schema, SchemaFault>
    ensures { GivesBut OutOfMemory (λ s. s) result (schema_at (table_view table.now)) }
{
    let title = line_at(alloc, table, "title")?;
    let address = line_at(alloc, table, "address")?;
    let space = line_at(alloc, table, "namespace")?;
    let prefix = prefix_at(alloc, table)?;
    let srs = List::of(srs_at(alloc, table)?);
    let types = List::of(types_at(alloc, table)?);
    Ok(Schema {
        title,
        address,
        space,
        prefix,
        srs,
        types,
    })
}

#[tactic(auto, unfolding(crate::specs::File::schema_of))]
fn schema_of(alloc: Global, bytes: &[u8]) -> Result<Schema, SchemaFault>
    ensures { GivesBut OutOfMemory (λ s. s) result (schema_of bytes.now) }
{
    let table = table_of(alloc, bytes)?;
    schema_at(alloc, &table)
}

/// Reads the schema file of a service: a TOML 1.1 document. Which table its bytes mean, and which bytes are no document,
/// is as the kit's `toml` defines it.
///
/// The top keys are `title`, `address` and `namespace` (texts of 1 to 256 characters of XML without line feeds),
/// `prefix` (a name that is not taken by the service's own documents and does not begin with `xml`), `srs` (1 to 8 such
/// texts: the first is written, all are read) and `type` (1 to 64 tables). A type has a `name` and a `property` (a list
/// of at most 64 tables); a property has a `name`, a `kind` (`text`, `integer`, `boolean`, `point`, `line` or
/// `polygon`), and may have `required` (false where it is not there) and, on text alone, `max` (1 to 4,096, and 4,096
/// where it is not there). A name is an ASCII letter or `_` and then letters, digits or `_`, at most 64 in all.
///
/// The first fault in this order is answered. `NotToml`: the bytes are no such document. `Key`: a key is missing, has a
/// value that it may not have, or is unknown; the top keys are judged as they are listed, then unknown top keys by
/// name. `TooMany`: there are over 64 types. Then each type in order: its name (`Key`), a name that an earlier type has
/// (`Twice`), its properties (`Key`, and `TooMany` over 64), and unknown keys by name; and of each property its name
/// (`Key`), a name that an earlier one of the type has (`Twice`), its kind (`Key`, or `Kind` for an unknown one),
/// `required`, `max` and unknown keys (`Key`). `OutOfMemory`: there is no memory for the schema or the fault.
pub fn read_schema(alloc: Global, bytes: &[u8]) -> Result<Schema, SchemaFault>
    ensures gives { GivesBut OutOfMemory (λ s. s) result (schema_of bytes.now) }
    ensures keeps { IfOk result KeepsRules }
{
    schema_of(alloc, bytes)
}
