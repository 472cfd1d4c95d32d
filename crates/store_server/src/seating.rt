//! How workers come to their seats, and leave them.

ghost use Rattle.std.specs.Prelude.{◌≡◌, ◌≤◌, [], ◌∷◌, All, IsSome, length, map, vec_capacity};
ghost use Rattle.std.specs.List.{AllZip};
ghost use Rattle.atomic_table.specs.Seated.{TableId};
ghost use Rattle.store_server.specs.Seating.{AreInOrder, HaveViews, worker_of, workers_at, HasLeft};
ghost use Rattle.shared_store.specs.declared.counter.Counter.{Counter as KeptStore};
ghost use Rattle.shared_store.specs.Counters.{IsViewerAt};
ghost use Rattle.shared_store.specs.Published.{pairs_of};
ghost use Rattle.shared_store.specs.Seats.{IsOfOpening};
ghost use Rattle.turnstile_core.specs.Seats.{name_of, past, IsFreeAt};

use crate::slot::{Ended, Slot};
use disk_core::Disk;
use feature_values::Schema;
use session_workers::Worker;
use shared_store::{Counter, Desk};
use snapshot_reads::Viewer;
use std::sync::Wait;
use turnstile_core::{Seat, Turnstile};

// A worker that is to serve the links of a slot.
fn worker_of<S, A, C, G>(service: S, slot: Slot<A, C, G>) -> Worker<S, A, C, G>
    ensures { result ≡ worker_of service slot }
{
    let Slot {
        acceptor,
        clock,
        gate,
    } = slot;
    Worker {
        service,
        acceptor,
        clock,
        gate,
        end: None,
    }
}

/// Has a worker for each slot sit down at the seat of the same place, with a viewer. No seat is left, and no viewer.
pub(crate) fn sit_down<'a, R: Wait, A, C, G, D: Disk>(
    rt: &'a R,
    turnstile: &'a Turnstile<Counter<D>>,
    schema: &'a Schema,
    slots: Vec<Slot<A, C, G>>,
    seats: &mut Vec<Seat<Counter<D>>>,
    viewers: &mut Vec<Option<Viewer>>,
    workers: &mut Vec<Worker<Desk<'a, R, D>, A, C, G>>,
)
    requires own { All (IsFreeAt (name_of turnstile.now)) seats.old.items }
    requires opening { All (IsOfOpening schema.now) (map past seats.old.items) }
    requires order { AreInOrder (map past seats.old.items) }
    requires as_many { (length slots.items ≡ length seats.old.items) × (length slots.items ≤ 16) }
    requires views { (length viewers.old.items ≡ length seats.old.items)
        × HaveViews schema.now (map past seats.old.items) viewers.old.items }
    requires room { (workers.old.items ≡ []) × (length slots.items ≤ vec_capacity workers.old) }
    ensures workers { workers.new.items ≡ workers_at (name_of turnstile.now) schema.now slots.items
        (map past seats.old.items) }
    ensures seats { seats.new.items ≡ [] }
    ensures viewers { viewers.new.items ≡ [] }
    ensures room { vec_capacity seats.old ≤ vec_capacity seats.new }
    ensures views_room { vec_capacity viewers.old ≤ vec_capacity viewers.new }
{
    let mut slots = slots;
    while let Some(seat) = seats.pop() {
        let slot = slots.pop().unwrap();
        let viewer = viewers.pop().unwrap();
        let number = seats.len() as u32;
        let desk = Desk::of(rt, turnstile, schema, number, seat, viewer);
        workers.push(worker_of(desk, slot)).unwrap();
    }
    slots.destroy_empty();
    workers.reverse();
}

// What comes back of a worker, and what served it.
fn take_apart<S, A, C, G>(worker: Worker<S, A, C, G>) -> (S, Ended<A, C, G>)
    requires ended { IsSome worker.end }
    ensures service { result.0 ≡ worker.service }
    ensures left { HasLeft worker result.1 }
{
    let Worker {
        service,
        acceptor,
        clock,
        gate,
        end,
    } = worker;
    let slot = Slot {
        acceptor,
        clock,
        gate,
    };
    let end = end.unwrap();
    (service, Ended { slot, end })
}

/// Has all workers, which have ended, leave their seats. These stand in the order of the workers, and so do their viewers.
pub(crate) fn stand_up<'a, R: Wait, A, C, G, D: Disk>(
    workers: Vec<Worker<Desk<'a, R, D>, A, C, G>>,
    seats: &mut Vec<Seat<Counter<D>>>,
    viewers: &mut Vec<Option<Viewer>>,
    ended: &mut Vec<Ended<A, C, G>>,
)
    requires ended { All (λ worker. IsSome worker.end) workers.items }
    requires seats_room { (seats.old.items ≡ []) × (length workers.items ≤ vec_capacity seats.old) }
    requires views_room { (viewers.old.items ≡ [])
        × (length workers.items ≤ vec_capacity viewers.old) }
    requires ended_room { (ended.old.items ≡ []) × (length workers.items ≤ vec_capacity ended.old) }
    ensures own { (name : TableId) → All (λ worker. worker.service.name ≡ name) workers.entry.items
        → All (IsFreeAt name) seats.new.items }
    ensures seats { map past seats.new.items ≡ map (λ worker. worker.service.past)
        workers.entry.items }
    ensures views { (first : KeptStore D) → All (λ worker. worker.service.past.origin ≡ first ∷ [])
        workers.entry.items → All (IsViewerAt first) viewers.new.items }
    ensures found { map pairs_of viewers.new.items
        ≡ map (λ worker. worker.service.found) workers.entry.items }
    ensures left { AllZip HasLeft workers.entry.items ended.new.items }
{
    let mut sitting = workers;
    sitting.reverse();
    while let Some(worker) = sitting.pop() {
        let (desk, left) = take_apart(worker);
        let (seat, viewer) = desk.leave();
        seats.push(seat).unwrap();
        viewers.push(viewer).unwrap();
        ended.push(left).unwrap();
    }
    sitting.destroy_empty();
}
