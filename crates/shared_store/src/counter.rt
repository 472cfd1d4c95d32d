//! The store as a value that a turnstile keeps, with the publisher of what its history leaves.

use disk_core::Disk;
use snapshot_reads::Publisher;
use turnstile_core::Kept;
use wfs_model::Entry;
use wfs_store::Store;

mod publishing;

/// The store, with the publisher of what it keeps. Its history is the store's, and its tally that of the store's faults.
///
/// Where it is settled, each pair that the publisher was given is a front in the history, and what outlives the process there. It is not `Drop`,
/// since the publisher is not.
pub struct Counter<D: Disk> {
    /// The store.
    pub store: Store<D>,
    /// It publishes what the history leaves, in each turn that adds to it.
    pub publisher: Publisher,
}

impl<D: Disk> Kept for Counter<D> {
    ghost use Rattle.shared_store.specs.Counters.{GoesOn, IsSettled, goes_on, shown_in};
    ghost use Rattle.shared_store.specs.Openings.{tally_of};

    type Entry = Entry;

    ghost list = { λ c. c.store.entries };

    ghost seat_of = { λ entry. entry.seat };

    ghost tally = { λ c seat. tally_of c.store seat };

    ghost published = { shown_in };

    ghost settled = { IsSettled };

    ghost opening = { GoesOn D.faults };

    fn entries(&self) -> u64 {
        self.store.entries()
    }

    fn shown(&self) -> u64 {
        self.publisher.shown().min(self.store.entries())
    }

    ghost own_opening = { goes_on D.faults };
}
