//! What listens at an address, and gives an acceptor to each worker.

ghost use Rattle.std.specs.Prelude.{◌≡◌, map, IfOk, IfErr};
ghost use Rattle.service_doors.specs.Listening.{Listening, asking, Opens, Refuses};
ghost use Rattle.service_doors.specs.declared.doors.DoorFault.TheVariants.{OutOfMemory};

use crate::Acceptor;
use std::alloc::{AllocError, AllocFailed, Global};
use thiserror::Error;
use wfs_ends::{OutOfMemory, Text};

/// Why doors are not opened.
#[derive(Clone, Copy, Debug, PartialEq, Eq, Error)]
pub enum DoorFault {
    /// The doors failed: their count of failed calls rose.
    #[error("the doors failed")]
    Failed,
    /// Memory ran out.
    #[error("out of memory")]
    OutOfMemory,
}

/// What doors were asked for, and gave.
#[derive(Debug, Drop)]
pub struct Asked {
    /// The address: that of a host or its name, a colon and the port.
    pub address: Text,
    /// How many acceptors.
    pub workers: u32,
}

/// What listens, and gives acceptors.
///
/// No call changes whether doors tell what they were asked, or the links that their acceptors will hand out.
pub trait Doors {
    /// Where the links of one worker come from.
    type Acceptor: Acceptor;

    /// What contracts see of it.
    ghost listening: { Self → Listening };

    /// Listens at an address, and gives an acceptor to each worker, with no call made of it. Where the doors tell, the
    /// links of these acceptors are the first that they have ready, and none where they have too few ready.
    ///
    /// `Failed` comes only where the count of failed calls rose. A refusal changes nothing else.
    fn listen(
        &mut self,
        alloc: Global,
        address: &str,
        workers: u32,
    ) -> Result<Vec<Self::Acceptor>, DoorFault>
        ensures opens { IfOk result (λ v. Opens (listening self.old) (asking address.now workers)
            (map Self.Acceptor.accepting v.items) (listening self.new)) }
        ensures err { IfErr result (λ fault. Refuses fault (listening self.old)
            (listening self.new)) };
}

impl From<OutOfMemory> for DoorFault {
    ghost from_gives = { λ _ fault. fault ≡ OutOfMemory };

    fn from(_: OutOfMemory) -> Self {
        DoorFault::OutOfMemory
    }
}

impl From<AllocError> for DoorFault {
    ghost from_gives = { λ _ fault. fault ≡ OutOfMemory };

    fn from(_: AllocError) -> Self {
        DoorFault::OutOfMemory
    }
}

impl<T: Drop> From<AllocFailed<T>> for DoorFault {
    ghost from_gives = { λ _ fault. fault ≡ OutOfMemory };

    fn from(_: AllocFailed<T>) -> Self {
        DoorFault::OutOfMemory
    }
}
