//! A change played on a copy.

ghost use Rattle.std.specs.Prelude.{◌≡◌, true, IfOk};
ghost use Rattle.wfs_model.specs.Playable.{is_playable, AreQueriesOf};
ghost use Rattle.snapshot_reads.specs.Content.{content_of, with_change};

use feature_versions::Features;
use wfs_ends::Mem;
use wfs_model::Change;

/// The features with a change. It takes memory for their room alone.
pub(crate) fn changed(mut features: Features, change: Change) -> Mem<Features>
    requires playable { is_playable features.schema features.kept change ≡ true }
    requires queries { AreQueriesOf features.schema change }
    ensures { IfOk result (λ f. content_of f ≡ with_change (content_of features) change) }
{
    features.reserve(&change)?;
    features.apply(change);
    Ok(features)
}
