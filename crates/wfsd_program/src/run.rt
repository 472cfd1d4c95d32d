//! What a run of the program leaves.

ghost use Rattle.std.specs.Prelude.{◌≡◌, []};
ghost use Rattle.wfsd_program.specs.Left.{LeavesNobody, LeavesService, done_of};

use disk_core::{Disk, Pair};
use service_session::NoGate;
use std::alloc::Global;
use store_server::{Ended, Slot};
use wfs_store::Store;
use wfsd_commands::Done;

/// What a run of the program leaves: its status, the store where it was started, else the disks, and the workers.
#[derive(Drop)]
pub struct Run<D: Disk, A, C> {
    /// The status that the process ends with.
    pub status: u8,
    /// The store, where it was started.
    pub store: Option<Store<D>>,
    /// The disks, where no store was started.
    pub disks: Option<Pair<D>>,
    /// The workers of `serve`, which have ended.
    pub workers: Vec<Ended<A, C, NoGate>>,
    /// What was made ready for workers that never began.
    pub idle: Vec<Slot<A, C, NoGate>>,
}

/// What a command leaves that has no workers.
pub(crate) fn without_workers<D: Disk, A, C>(alloc: Global, done: Done<D>) -> Run<D, A, C>
    ensures done { done_of result ≡ done }
    ensures nobody { LeavesNobody result }
{
    let Done {
        status,
        store,
        disks,
    } = done;
    Run {
        status,
        store,
        disks,
        workers: Vec::new(alloc),
        idle: Vec::new(alloc),
    }
}

/// An end with the store, where no worker began.
pub(crate) fn leave_idle<D: Disk, A, C>(
    alloc: Global,
    status: u8,
    store: Store<D>,
    idle: Vec<Slot<A, C, NoGate>>,
) -> Run<D, A, C>
    ensures { LeavesService status store [] idle.items result }
{
    Run {
        status,
        store: Some(store),
        disks: None,
        workers: Vec::new(alloc),
        idle,
    }
}

/// An end with the store, where all workers have ended.
pub(crate) fn leave_ended<D: Disk, A, C>(
    alloc: Global,
    status: u8,
    store: Store<D>,
    workers: Vec<Ended<A, C, NoGate>>,
) -> Run<D, A, C>
    ensures { LeavesService status store workers.items [] result }
{
    Run {
        status,
        store: Some(store),
        disks: None,
        workers,
        idle: Vec::new(alloc),
    }
}
