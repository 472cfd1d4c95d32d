//! The change that a body says.

ghost use Rattle.std.specs.Prelude.{◌≡◌, Some};
ghost use Rattle.wfs_ends.specs.Read.{GivesBut, unless};
ghost use Rattle.feature_schema.specs.Signature.{signature_text};
ghost use Rattle.journal_format.specs.Reading.{record_of};
ghost use Rattle.recovery.specs.declared.replay.ReplayFault.TheVariants.{OutOfMemory as NoMemory};
ghost use Rattle.journal_replay.specs.Change.{or_bad_bytes, is_signed, change_in};

use crate::filling::completed;
use feature_values::Schema;
use journal_format::{RecordFault, Recorded, read_record};
use recovery::ReplayFault;
use std::alloc::Global;
use wfs_ends::Text;
use wfs_model::Change;

fn recorded_in(alloc: Global, body: &[u8]) -> Result<Recorded, ReplayFault>
    ensures { GivesBut NoMemory (λ x. x) result (or_bad_bytes (record_of body.now)) }
{
    match read_record(alloc, body) {
        Ok(recorded) => Ok(recorded),
        Err(RecordFault::OutOfMemory) => Err(ReplayFault::OutOfMemory),
        Err(_) => Err(ReplayFault::BadBytes),
    }
}

// Whether a signature, where there is one, is this one of the schema.
fn is_signed(found: &Option<Text>, signature: &Text) -> bool
    ensures { (schema : Schema) → signature.now ≡ signature_text schema
        → result ≡ is_signed schema found.now }
{
    match found {
        Some(found) => found.as_str() == signature.as_str(),
        None => true,
    }
}

/// The change that a body says, with what its stored queries ask, where the schema has this signature.
///
/// # Errors
///
/// `BadBytes`: the bytes are no record. `NotOfSchema`: it is an opening of another schema, or the text of a stored query is not just the
/// one that is written for some queries of this schema. `OutOfMemory`.
#[tactic(auto, unfolding(crate::specs::Change::change_in, wfs_ends::specs::Read::unless))]
pub(crate) fn change_in(
    alloc: Global,
    schema: &Schema,
    signature: &Text,
    body: &[u8],
) -> Result<Change, ReplayFault>
    requires { signature.now ≡ signature_text schema.now }
    ensures { GivesBut NoMemory (λ x. x) result (change_in schema.now body.now) }
{
    let recorded = recorded_in(alloc, body)?;
    if !is_signed(&recorded.signature, signature) {
        return Err(ReplayFault::NotOfSchema);
    }
    completed(alloc, schema, recorded.change)
}
