//! Plans of changing requests.

ghost use Rattle.std.specs.Prelude.{◌≡◌};
ghost use Rattle.request_plans.specs.Coming.{refused_plan};

use feature_values::Rid;
use lock_table::Release;
use wfs_ends::List;
use wfs_model::{Change, Refusal, Reply};

/// What a request does to locks.
#[derive(Debug, PartialEq, Eq, Drop)]
pub enum LockWork {
    /// Nothing.
    Nothing,
    /// A lock is granted (OGC 09-025r2, section 12).
    Grant {
        /// The features that it takes, one at least.
        features: List<Rid>,
        /// How long the lock lives, in seconds.
        period: u32,
    },
    /// A lock gets a new deadline (section 12.2.4.2: lockId).
    Renew {
        /// The lock, by its number in the opening.
        number: u64,
        /// How long the lock lives from now on, in seconds. Without it, as long as before.
        period: Option<u32>,
    },
    /// A lock is released, or a part of it (section 15.2.3.1.3).
    Release {
        /// The lock, by its number in the opening.
        number: u64,
        /// The features that the transaction touched, in order, each as often as it was touched.
        touched: List<Rid>,
        /// What of the lock is released.
        how: Release,
    },
}

/// What a changing request comes to.
#[derive(Debug, PartialEq, Eq, Drop)]
pub struct Plan {
    /// The answer.
    pub reply: Reply,
    /// The change of what outlives the process: the features, the stored queries. There is none where all of it stays.
    pub change: Option<Change>,
    /// What is done to locks.
    pub lock: LockWork,
}

/// The plan of a request that is refused: nothing is done.
pub(crate) fn refused_plan(refusal: Refusal) -> Plan
    ensures { result ≡ refused_plan refusal }
{
    Plan {
        reply: Reply::Refused(refusal),
        change: None,
        lock: LockWork::Nothing,
    }
}
