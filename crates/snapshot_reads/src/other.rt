//! The second copy of what is published, which may lack the last change.

ghost use Rattle.std.specs.Prelude.{◌≡◌, true, IfOk, IfSome};
ghost use Rattle.wfs_model.specs.Playable.{is_playable, AreQueriesOf};
ghost use Rattle.snapshot_reads.specs.Content.{content_of, with_change};

use crate::playing::changed;
use crate::snapshot::Snapshot;
use feature_versions::Features;
use std::alloc::Global;
use wfs_ends::Mem;
use wfs_model::Change;

/// What was published before, and the change that has been published since. It may be played on what was.
#[derive(Drop)]
pub struct Late {
    before: Snapshot,
    change: Change,
    ghost playable: { is_playable before.schema before.kept change ≡ true },
}

/// The second copy of what is published.
#[derive(Drop)]
pub enum Other {
    /// The features, as they are published.
    Same(Features),
    /// The features as they were, which somebody may still read, and what they lack.
    Late(Late),
}

impl Late {
    /// What is published, and a change that it will lack.
    pub(crate) fn of(alloc: Global, published: &Snapshot, change: &Change) -> Mem<Late>
        requires { is_playable published.now.schema published.now.kept change.now ≡ true }
        ensures before { IfOk result (λ l. l.before ≡ published.now) }
        ensures change { IfOk result (λ l. l.change ≡ change.now) }
    {
        Ok(Late {
            before: published.again()?,
            change: change.copy(alloc)?,
        })
    }

    /// The features with the change. There are none where somebody still shares them, or where there is no memory for their room.
    pub(crate) fn caught_up(self) -> Option<Features>
        requires { AreQueriesOf self.before.schema self.change }
        ensures { IfSome result (λ f. content_of f ≡ with_change self.before self.change) }
    {
        let Late { before, change } = self;
        changed(before.into_features()?, change).ok()
    }
}
