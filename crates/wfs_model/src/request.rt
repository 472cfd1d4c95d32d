//! Requests that were read.

ghost use Rattle.std.specs.Prelude.{◌↔◌, IsTrue};

use crate::action::Action;
use crate::asked::{Asked, Present};
use crate::stored::StoredQuery;
use lock_table::{LockId, Release};
use wfs_ends::{List, Text};

/// Which of the features that were selected a lock takes (OGC 09-025r2, 12.2.4.3: lockAction).
#[derive(Clone, Copy, Debug, PartialEq, Eq)]
pub enum Take {
    /// All, or none where one of them is held.
    AllOrNone,
    /// Those that no lock holds.
    Free,
}

/// A request that was read. Types and properties stand by their numbers in the schema.
#[derive(Debug, PartialEq, Eq, Drop)]
pub enum Request {
    /// What the service offers (OGC 09-025r2, 8).
    Capabilities,
    /// The schema of some types (9).
    DescribeTypes(List<u32>),
    /// The features that some queries select, each at its first place (11).
    GetFeatures(Present, List<Asked>),
    /// The values that the selected features have of a property (10). Beside a stored query the number is not used: the
    /// property's name stands among what is given for the query.
    GetValues(Present, Asked, u32),
    /// A page of features, and a lock on them (13). They are not only counted.
    GetLocked {
        present: Present,
        asked: List<Asked>,
        take: Take,
        /// How long the lock lives, in seconds, from 1 on.
        period: u32,
    },
    /// A lock on the selected features (12).
    Lock {
        asked: List<Asked>,
        take: Take,
        /// How long the lock lives, in seconds, from 1 on.
        period: u32,
    },
    /// A new deadline for a lock (12.2.4.2: lockId).
    Renew {
        lock: LockId,
        /// How long the lock lives from now on, in seconds, from 1 on. Without it, as long as before.
        period: Option<u32>,
    },
    /// A transaction (15).
    Transact {
        /// The lock that the client holds.
        lock: Option<LockId>,
        /// What the lock gives up, where there is one.
        release: Release,
        /// The actions, in the document's order.
        actions: List<Action>,
    },
    /// The stored queries by name (14.3).
    ListStored,
    /// Some stored queries whole, by identifier; all where none is named (14.4).
    DescribeStored(List<Text>),
    /// New stored queries (14.5).
    CreateStored(List<StoredQuery>),
    /// A stored query goes (14.6).
    DropStored(Text),
}

impl Request {
    ghost use Rattle.wfs_model.specs.Changing.{IsChange};

    /// Whether the request may change the state.
    pub fn is_change(&self) -> bool
        ensures { IsTrue result ↔ IsChange self.now }
    {
        match self {
            Request::GetLocked { .. }
            | Request::Lock { .. }
            | Request::Renew { .. }
            | Request::Transact { .. }
            | Request::CreateStored(_)
            | Request::DropStored(_) => true,
            Request::Capabilities
            | Request::DescribeTypes(_)
            | Request::GetFeatures(..)
            | Request::GetValues(..)
            | Request::ListStored
            | Request::DescribeStored(_) => false,
        }
    }
}
