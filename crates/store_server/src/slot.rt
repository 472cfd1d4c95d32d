//! What workers are given, and what comes back of them.

use disk_core::Disk;
use session_workers::WorkerEnd;
use wfs_store::Store;

/// What a worker is given.
#[derive(Drop)]
pub struct Slot<A, C, G> {
    /// Where its links come from.
    pub acceptor: A,
    /// What moment it is.
    pub clock: C,
    /// What is told where its sessions are.
    pub gate: G,
}

/// A worker that has ended.
#[derive(Drop)]
pub struct Ended<A, C, G> {
    /// What it was given, as it left it.
    pub slot: Slot<A, C, G>,
    /// How it ended.
    pub end: WorkerEnd,
}

/// What became of a service.
#[derive(Drop)]
pub enum Served<A, C, G, D: Disk> {
    /// All workers have ended. They stand in the order of their slots.
    Ran {
        /// The store.
        store: Store<D>,
        /// The workers.
        workers: Vec<Ended<A, C, G>>,
    },
    /// There was no memory, and nobody was served.
    NoMemory {
        /// The store.
        store: Store<D>,
        /// What the workers were to be given.
        slots: Vec<Slot<A, C, G>>,
    },
}
