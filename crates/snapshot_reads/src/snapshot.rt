//! A copy of the features that the publisher and the readers share.

ghost use Rattle.std.specs.Prelude.{◌≡◌, IfOk, IfSome};
ghost use Rattle.snapshot_reads.specs.Content.{content_of};

use feature_versions::Features;
use std::alloc::{AllocError, Global};
use std::marker::Model;
use std::sync::Arc;
use wfs_ends::Mem;

/// A copy of the features that several share. Contracts see the schema and what is kept.
#[derive(Drop)]
pub struct Snapshot {
    features: Arc<Features>,
}

impl Model for Snapshot {
    ghost use Rattle.std.specs.Arc.{arc_value};
    ghost use Rattle.std.specs.Coded.{codes};
    ghost use Rattle.fes_filter.specs.contracts.filter.Filter as filter_row;
    ghost use Rattle.snapshot_reads.specs.Content.{Content, content_of};

    ghost Value = { Content };

    ghost coded = { Prim.hlevel (codes, filter_row.the_row.coded) };

    ghost view = { λ s. content_of (arc_value s.features) };
}

impl Snapshot {
    /// These features, for others to share.
    pub(crate) fn of(alloc: Global, features: Features) -> Mem<Snapshot>
        ensures { IfOk result (λ s. s ≡ content_of features) }
    {
        Ok(Snapshot {
            features: Arc::new(alloc, features)?,
        })
    }

    /// The same copy. It takes no memory: it is refused only where the count of those that share it is full.
    pub(crate) fn again(&self) -> Result<Snapshot, AllocError>
        ensures { IfOk result (λ s. s ≡ self.now) }
    {
        Ok(Snapshot {
            features: Arc::try_clone(&self.features)?,
        })
    }

    /// The features.
    pub(crate) fn features(&self) -> &Features
        ensures { content_of result.now ≡ self.now }
    {
        &self.features
    }

    /// The features themselves, where nobody shares them any more.
    pub(crate) fn into_features(self) -> Option<Features>
        ensures { IfSome result (λ f. content_of f ≡ self) }
    {
        Arc::into_inner(self.features)
    }
}
