//! The body of a change's record.

ghost use Rattle.std.specs.Prelude.{◌≡◌, ◌≤◌, ◌+◌, OnOk};
ghost use Rattle.std.specs.Option.{IfSome};
ghost use Rattle.feature_schema.specs.Signature.{signature_text};
ghost use Rattle.feature_values.specs.declared.schema.Schema.{Schema};
ghost use Rattle.journal_format.specs.Spelling.{AreShort};
ghost use Rattle.wfs_model.specs.declared.limits.LimitName.TheVariants.{Side};
ghost use Rattle.wfs_model.specs.Full.{at_limit, passes};
ghost use Rattle.wfs_store.specs.Judged.{Judges, passed_by_side};
ghost use Rattle.wfs_store.specs.Kept.{body_length};
ghost use Rattle.wfs_store.specs.Ready.{IsSpelledFor};

use crate::StepFault;
use journal_format::{put_record, record_length};
use wfs_ends::Text;
use wfs_model::{Change, FullAt, LimitName};

// Spells a change, where the side, which is so long, does not pass its limit with it.
fn spell_change(
    change: &Change,
    signature: &Text,
    side: u64,
    limit: u64,
    body: &mut Vec<u8>,
) -> Result<(), StepFault>
    requires short { AreShort change.now }
    requires within { side ≤ limit }
    requires limit { limit ≤ 268_435_456 }
    ensures full { (schema : Schema) → signature.now ≡ signature_text schema
        → Judges (at_limit Side (passes limit side (side + (5 + body_length schema change.now))))
        result }
    ensures spelled { (schema : Schema) → signature.now ≡ signature_text schema
        → OnOk result (IsSpelledFor schema side limit body.new.items change.now) }
{
    let size = record_length(change, signature);
    if size > limit || side + 5 + size > limit {
        return Err(StepFault::Full(FullAt {
            limit: LimitName::Side,
            number: side,
        }));
    }
    body.clear();
    put_record(change, signature, body)?;
    Ok(())
}

/// Spells the change of a plan, where it has one and the side, which is so long, does not pass its limit with it.
pub(crate) fn spell(
    change: &Option<Change>,
    signature: &Text,
    side: u64,
    limit: u64,
    body: &mut Vec<u8>,
) -> Result<(), StepFault>
    requires short { IfSome change.now AreShort }
    requires within { side ≤ limit }
    requires limit { limit ≤ 268_435_456 }
    ensures full { (schema : Schema) → signature.now ≡ signature_text schema
        → Judges (passed_by_side limit (body_length schema) side change.now) result }
    ensures spelled { (schema : Schema) → signature.now ≡ signature_text schema
        → OnOk result (IfSome change.now (IsSpelledFor schema side limit body.new.items)) }
{
    match change {
        None => Ok(()),
        Some(change) => spell_change(change, signature, side, limit, body),
    }
}
