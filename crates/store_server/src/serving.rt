//! A service runs: seats are given, workers run side by side, and the store comes back.

ghost use Rattle.std.specs.Prelude.{◌≡◌, ◌<◌, ◌≤◌, [], ◌∷◌, All, length, map, replicate, vec_capacity};
ghost use Rattle.disk_core.specs.Sides.{EveryBoth};
ghost use Rattle.durable_journal.specs.Standing.{SaysWith};
ghost use Rattle.store_server.specs.Seating.{AreInOrder, HaveViews, HaveWorked};
ghost use Rattle.store_server.specs.Serving.{IfRan, IfNoMemory, RunFits};
ghost use Rattle.shared_store.specs.declared.counter.Counter.{Counter as KeptStore};
ghost use Rattle.shared_store.specs.Counters.{IsSettled, IsViewerAt};
ghost use Rattle.shared_store.specs.Published.{AreOf, pairs_of};
ghost use Rattle.shared_store.specs.Seats.{IsOfOpening};
ghost use Rattle.turnstile_core.specs.Seats.{name_of, past, IsFreeAt};
ghost use Rattle.wfs_store.specs.Held.{kept_of};

use crate::giving::give_seats;
use crate::seating::{sit_down, stand_up};
use crate::slot::{Ended, Served, Slot};
use disk_core::Disk;
use feature_values::Schema;
use service_doors::Acceptor;
use service_session::Gate;
use session_workers::{Worker, run_workers};
use shared_store::{Counter, Desk};
use snapshot_reads::{Publisher, Viewer};
use std::alloc::Global;
use std::sync::Wait;
use std::thread::Threads;
use turnstile_core::{Returned, Seat, Turnstile};
use wfs_ends::Clock;
use wfs_store::{Store, stands};

/// Serves the links of each slot's acceptor by a worker of its own, each in a thread of its own, until all have ended. The worker of slot k,
/// counted from 0, has the seat with the number k.
///
/// `NoMemory`: nobody was served, and all comes back as it was. All memory but that of the sessions is taken before the first worker begins, so
/// no worker is left out.
pub fn serve<
    R: Threads + Wait + Sync,
    A: Acceptor + Send,
    C: Clock + Send,
    G: Gate + Send,
    D: Disk + Send,
>(
    rt: &R,
    alloc: Global,
    store: Store<D>,
    schema: &Schema,
    slots: Vec<Slot<A, C, G>>,
    limit: Option<u32>,
) -> Served<A, C, G, D>
where
    A::Link: Send,
    requires slots { (0 < length slots.items) × (length slots.items ≤ 16) }
    requires schema { store.schema ≡ schema.now }
    requires fresh { (store.entries ≡ []) × (store.tally ≡ replicate 17 0) }
    ensures ran { IfRan result (λ after ended. RunFits A.accepting C.moments limit D.faults store
        slots.items after ended) }
    ensures stands { IfRan result (λ after ended. EveryBoth D.images
        (SaysWith after.schema (kept_of after) after.begun) after.disks) }
    ensures kept { IfNoMemory result (λ back same. (back ≡ store) × (same ≡ slots.items)) }
{
    let many = slots.len();
    let Ok(mut ended) = Vec::with_capacity(alloc, many) else {
        return Served::NoMemory { store, slots };
    };
    let Ok(mut seats) = Vec::with_capacity(alloc, many) else {
        ended.destroy_empty();
        return Served::NoMemory { store, slots };
    };
    let Ok(workers) = Vec::with_capacity(alloc, many) else {
        ended.destroy_empty();
        seats.destroy_empty();
        return Served::NoMemory { store, slots };
    };
    let Ok((publisher, mut viewers)) = Publisher::new(rt, alloc, store.features(), many as u32)
    else {
        ended.destroy_empty();
        seats.destroy_empty();
        workers.destroy_empty();
        return Served::NoMemory { store, slots };
    };
    let _rules = store.schema();
    match Turnstile::new(alloc, Counter::of(store, publisher)) {
        Ok((turnstile, first)) => {
            give_seats(&turnstile, first, many, &mut seats);
            work_all(
                rt,
                alloc,
                &turnstile,
                schema,
                limit,
                slots,
                workers,
                &mut seats,
                &mut viewers,
                &mut ended,
            );
            let counter = turnstile.close(seats);
            meet_them(rt, &counter, viewers);
            let Counter { store, publisher } = counter;
            publisher.end(rt);
            stands(&store);
            Served::Ran {
                store,
                workers: ended,
            }
        }
        Err(Returned(Counter { store, publisher })) => {
            publisher.end(rt);
            ended.destroy_empty();
            seats.destroy_empty();
            workers.destroy_empty();
            Served::NoMemory { store, slots }
        }
    }
}

// Has all these viewers meet the publisher: all that they have found is then known to be of the history.
fn meet_them<R: Wait, D: Disk>(rt: &R, counter: &Counter<D>, viewers: Vec<Option<Viewer>>)
    requires settled { IsSettled counter.now }
    requires at { All (IsViewerAt counter.now) viewers.items }
    ensures { All (λ viewer. AreOf counter.now.store (pairs_of viewer)) viewers.items }
{
    let mut viewers = viewers;
    while let Some(mut viewer) = viewers.pop() {
        counter.meet(rt, &mut viewer);
    }
}

// Has a worker for each slot do its work at the seat of the same place, with the viewer of the same place, and leave it.
fn work_all<
    'a,
    R: Threads + Wait + Sync,
    A: Acceptor + Send,
    C: Clock + Send,
    G: Gate + Send,
    D: Disk + Send,
>(
    rt: &'a R,
    alloc: Global,
    turnstile: &'a Turnstile<Counter<D>>,
    schema: &'a Schema,
    limit: Option<u32>,
    slots: Vec<Slot<A, C, G>>,
    workers: Vec<Worker<Desk<'a, R, D>, A, C, G>>,
    seats: &mut Vec<Seat<Counter<D>>>,
    viewers: &mut Vec<Option<Viewer>>,
    ended: &mut Vec<Ended<A, C, G>>,
)
where
    A::Link: Send,
    requires own { All (IsFreeAt (name_of turnstile.now)) seats.old.items }
    requires opening { All (IsOfOpening schema.now) (map past seats.old.items) }
    requires order { AreInOrder (map past seats.old.items) }
    requires as_many { (length slots.items ≡ length seats.old.items) × (length slots.items ≤ 16) }
    requires views { (length viewers.old.items ≡ length seats.old.items)
        × HaveViews schema.now (map past seats.old.items) viewers.old.items }
    requires workers_room { (workers.items ≡ []) × (length slots.items ≤ vec_capacity workers) }
    requires ended_room { (ended.old.items ≡ []) × (length slots.items ≤ vec_capacity ended.old) }
    requires seats_room { length slots.items ≤ vec_capacity seats.old }
    ensures own { All (IsFreeAt (name_of turnstile.now)) seats.new.items }
    ensures worked { HaveWorked A.accepting C.moments limit (name_of turnstile.now) schema.now
        slots.items (map past seats.old.items) ended.new.items (map past seats.new.items)
        (map pairs_of viewers.new.items) }
    ensures views { (first : KeptStore D) → All (λ p. p.origin ≡ first ∷ [])
        (map past seats.old.items) → All (IsViewerAt first) viewers.new.items }
{
    let mut workers = workers;
    sit_down(rt, turnstile, schema, slots, seats, viewers, &mut workers);
    run_workers(rt, alloc, limit, &mut workers);
    stand_up(workers, seats, viewers, ended);
}
