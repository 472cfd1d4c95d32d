//! A store and its publisher: what an entry leaves is published, and viewers meet the publisher.

ghost use Rattle.std.specs.Prelude.{◌≡◌, ◌≤◌, [], ◌∷◌, length};
ghost use Rattle.feature_values.specs.declared.schema.Schema.{Schema};
ghost use Rattle.snapshot_reads.specs.Pairs.{pair};
ghost use Rattle.snapshot_reads.specs.Publishers.{given_of, shown_of};
ghost use Rattle.shared_store.specs.Counters.{IsSettled, IsViewerAt, IsViewerOf, Owes, shown_in};
ghost use Rattle.shared_store.specs.Published.{AreOf, pairs_of};
ghost use Rattle.wfs_store.specs.Held.{kept_of};

use super::Counter;
use disk_core::Disk;
use snapshot_reads::{Publisher, Viewer};
use std::sync::Wait;
use wfs_store::Store;

impl<D: Disk> Counter<D> {
    /// A store without a history, with a publisher that was given what it keeps, and no more.
    pub fn of(store: Store<D>, publisher: Publisher) -> Counter<D>
        requires fresh { store.entries ≡ [] }
        requires given { given_of publisher ≡ pair 0
            (record { schema = store.schema; kept = kept_of store }) ∷ [] }
        requires shown { shown_of publisher ≡ pair 0
            (record { schema = store.schema; kept = kept_of store }) }
        ensures store { result.store ≡ store }
        ensures publisher { result.publisher ≡ publisher }
        ensures settled { IsSettled result }
    {
        Counter { store, publisher }
    }

    /// Publishes what the last entry leaves, by its change. Where there is no memory, the publisher is behind.
    pub fn publish<R: Wait>(&mut self, rt: &R)
        requires { Owes self.old }
        ensures settled { IsSettled self.new }
        ensures store { self.new.store ≡ self.old.store }
        ensures publisher { self.new.publisher.seen.book ≡ self.old.publisher.seen.book }
        ensures above { shown_in self.old ≤ shown_in self.new }
        ensures below { shown_in self.new ≤ length self.new.store.entries }
    {
        // what is published stands among the given pairs
        let _shown = self.publisher.shown();
        let front = self.store.entries();
        let change = self.store.last_change();
        // refused or not, the pair was given
        let _published = self
            .publisher
            .publish(rt, front, change, self.store.features());
    }

    /// Has a viewer, where there is one, meet the publisher: all that it has found is then known to be of the history.
    pub fn meet<R: Wait>(&self, rt: &R, viewer: &mut Option<Viewer>)
        requires settled { IsSettled self.now }
        requires at { IsViewerAt self.now viewer.old }
        ensures own { IsViewerAt self.now viewer.new }
        ensures schema { (schema : Schema) → IsViewerOf schema viewer.old
            → IsViewerOf schema viewer.new }
        ensures found { pairs_of viewer.new ≡ pairs_of viewer.old }
        ensures known { AreOf self.now.store (pairs_of viewer.new) }
    {
        if let Some(viewer) = viewer {
            self.publisher.meet_all(rt, viewer);
        }
    }
}
