//! The schema, read from its source.

ghost use Rattle.std.specs.Prelude.{◌≡◌, IfOk, Err};
ghost use Rattle.http_session.specs.Reading.{IsCalm};
ghost use Rattle.feature_schema.specs.File.{schema_of};
ghost use Rattle.feature_schema.specs.Rules.{KeepsRules};
ghost use Rattle.wfsd_commands.specs.Loading.{IsLoaded, IsRead, unloaded_by};

use crate::source::{SourceRead, read_up_to};
use feature_schema::{SchemaFault, read_schema};
use feature_values::Schema;
use std::alloc::Global;
use wfs_ends::{OutOfMemory, Source};

/// How many bytes a schema has at most.
const MOST_BYTES: u32 = 1_048_576;

/// Why there is no schema.
#[derive(Debug, Drop)]
pub enum Unloaded {
    /// The source's bytes are refused.
    Refused(SchemaFault),
    /// The source failed.
    Failed,
    /// Memory ran out.
    OutOfMemory,
}

/// Reads the schema from its source.
pub fn load_schema<Q: Source>(alloc: Global, source: &mut Q) -> Result<Schema, Unloaded>
    ensures loaded { IsLoaded (Q.source source.old) result (Q.source source.new) }
    ensures calm { (result ≡ Err Unloaded.Failed → ⊥)
        → IsCalm (Q.source source.old) (Q.source source.new) }
    ensures keeps { IfOk result KeepsRules }
{
    match read_up_to(alloc, source, MOST_BYTES) {
        Err(OutOfMemory) => Err(Unloaded::OutOfMemory),
        Ok(SourceRead::Fault) => Err(Unloaded::Failed),
        Ok(SourceRead::TooLong) => Err(Unloaded::Refused(SchemaFault::TooMany)),
        Ok(SourceRead::Whole(bytes)) => read_bytes(alloc, &bytes),
    }
}

// Reads the schema of some bytes.
fn read_bytes(alloc: Global, bytes: &[u8]) -> Result<Schema, Unloaded>
    ensures read { IsRead (schema_of bytes.now) result }
    ensures keeps { IfOk result KeepsRules }
{
    match read_schema(alloc, bytes) {
        Ok(schema) => Ok(schema),
        Err(fault) => Err(unloaded_by(fault)),
    }
}

// Why there is no schema, where reading it met a fault.
fn unloaded_by(fault: SchemaFault) -> Unloaded
    ensures { result ≡ unloaded_by fault }
{
    match fault {
        SchemaFault::OutOfMemory => Unloaded::OutOfMemory,
        other => Unloaded::Refused(other),
    }
}
