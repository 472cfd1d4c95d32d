//! The command `serve`: links are served by workers side by side, with the store on two disks.

ghost use Rattle.std.specs.Prelude.{◌≡◌, ◌≤◌, [], IfSome, None, length};
ghost use Rattle.feature_schema.specs.Rules.{KeepsRules};
ghost use Rattle.wfs_store.specs.Started.{HasBegun};
ghost use Rattle.wfsd_program.specs.Left.{IsLeftStanding, LeavesService};
ghost use Rattle.wfsd_program.specs.Serving.{AreFor, Front, HasWorkers, MayServe, ServeEnds, Serves, ServesFrom, ServesLinks, ServesOn, ServesTold};

use crate::ending::{say_ended, say_unheard};
use crate::places::{Places, fill, make_places};
use crate::run::{Run, leave_ended, leave_idle, without_workers};
use crate::words::ServeWords;
use disk_core::{Disk, Pair};
use feature_values::Schema;
use program_output::{put_serving, say};
use service_doors::{Acceptor, Doors};
use service_session::NoGate;
use std::alloc::Global;
use std::sync::Wait;
use std::thread::Threads;
use store_server::{Served, Slot};
use wfs_ends::{Clock, OutOfMemory, Sink, Source};
use wfs_store::{Store, stands};
use wfsd_commands::{
    OUT_OF_MEMORY, WRITE_FAULT, end_for_memory, end_unloaded, leave_disks, load_schema,
    say_unopened, start_store,
};

/// Reads the schema, starts the store on the disks, opens the doors, tells that links are served, and serves them: by as many workers as the words say, each of which ends
/// behind as many links as they say.
///
/// The status is 0 where each worker had as many links as it may have, or no link was left; 3, 4, 5, 6, 8 and 11 as for a session over an input and an output; 7 where the
/// output failed when it was to be told that links are served, and then none is accepted; and 9 where the doors failed, or an acceptor.
pub(crate) fn serve<
    R: Threads + Wait + Sync,
    Q: Source,
    O: Sink,
    D: Disk + Send,
    A: Acceptor + Send + Drop,
    G: Doors<Acceptor = A>,
    C: Clock + Send + Drop,
>(
    rt: &R,
    alloc: Global,
    wanted: &ServeWords,
    schema: &mut Q,
    out: &mut O,
    disks: Pair<D>,
    doors: &mut G,
    clock: &C,
) -> Run<D, A, C>
where
    A::Link: Send,
    requires workers { HasWorkers wanted.now }
    ensures serves { Serves D.Disk A.accepting C.moments wanted.now (C.moments clock.now) disks
        (record {
          own = record { schema = Q.source schema.old; out = O.sink out.old };
          doors = G.listening doors.old;
        })
        result
        (record {
          own = record { schema = Q.source schema.new; out = O.sink out.new };
          doors = G.listening doors.new;
        }) }
    ensures left { IfSome result.store (IsLeftStanding D.Disk disks) }
{
    match load_schema(alloc, schema) {
        Ok(schema) => serve_with(rt, alloc, wanted, &schema, out, disks, doors, clock),
        Err(unloaded) => without_workers(alloc, end_unloaded(out, &unloaded, disks)),
    }
}

// Takes the memory of the workers, starts the store, and serves.
fn serve_with<
    R: Threads + Wait + Sync,
    O: Sink,
    D: Disk + Send,
    A: Acceptor + Send + Drop,
    G: Doors<Acceptor = A>,
    C: Clock + Send + Drop,
>(
    rt: &R,
    alloc: Global,
    wanted: &ServeWords,
    schema: &Schema,
    out: &mut O,
    disks: Pair<D>,
    doors: &mut G,
    clock: &C,
) -> Run<D, A, C>
where
    A::Link: Send,
    requires rules { KeepsRules schema.now }
    requires workers { HasWorkers wanted.now }
    ensures serves { MayServe D.Disk A.accepting C.moments wanted.now (C.moments clock.now)
        schema.now disks
        (record { out = O.sink out.old; doors = G.listening doors.old })
        result
        (record { out = O.sink out.new; doors = G.listening doors.new }) }
    ensures left { IfSome result.store (IsLeftStanding D.Disk disks) }
{
    match make_places(alloc, wanted.workers, clock) {
        Ok(places) => serve_on(rt, alloc, wanted, schema, places, out, disks, doors, clock),
        Err(OutOfMemory) => without_workers(alloc, end_for_memory(out, disks)),
    }
}

// Starts the store, and serves.
fn serve_on<
    R: Threads + Wait + Sync,
    O: Sink,
    D: Disk + Send,
    A: Acceptor + Send + Drop,
    G: Doors<Acceptor = A>,
    C: Clock + Send + Drop,
>(
    rt: &R,
    alloc: Global,
    wanted: &ServeWords,
    schema: &Schema,
    places: Places<A, C>,
    out: &mut O,
    disks: Pair<D>,
    doors: &mut G,
    clock: &C,
) -> Run<D, A, C>
where
    A::Link: Send,
    requires rules { KeepsRules schema.now }
    requires workers { HasWorkers wanted.now }
    requires places { AreFor C.moments wanted.now.workers (C.moments clock.now) places }
    ensures serves { ServesOn D.Disk A.accepting C.moments wanted.now (C.moments clock.now)
        schema.now disks
        (record { out = O.sink out.old; doors = G.listening doors.old })
        result
        (record { out = O.sink out.new; doors = G.listening doors.new }) }
    ensures left { IfSome result.store (IsLeftStanding D.Disk disks) }
{
    match start_store(alloc, disks, schema) {
        Ok(store) => open_doors(rt, alloc, wanted, schema, places, out, store, doors, clock),
        Err((disks, fault)) => {
            without_workers(alloc, leave_disks(say_unopened(out, fault), disks))
        }
    }
}

// Opens the doors, and serves.
fn open_doors<
    R: Threads + Wait + Sync,
    O: Sink,
    D: Disk + Send,
    A: Acceptor + Send + Drop,
    G: Doors<Acceptor = A>,
    C: Clock + Send + Drop,
>(
    rt: &R,
    alloc: Global,
    wanted: &ServeWords,
    schema: &Schema,
    places: Places<A, C>,
    out: &mut O,
    store: Store<D>,
    doors: &mut G,
    clock: &C,
) -> Run<D, A, C>
where
    A::Link: Send,
    requires workers { HasWorkers wanted.now }
    requires places { AreFor C.moments wanted.now.workers (C.moments clock.now) places }
    requires fresh { HasBegun schema.now store.limits store }
    ensures serves { ServesFrom D.Disk A.accepting C.moments wanted.now (C.moments clock.now) store
        (record { out = O.sink out.old; doors = G.listening doors.old })
        result
        (record { out = O.sink out.new; doors = G.listening doors.new }) }
    ensures left { IfSome result.store (IsLeftStanding D.Disk store.disks) }
{
    match doors.listen(alloc, wanted.listen.as_str(), wanted.workers) {
        Ok(acceptors) => {
            let slots = fill(places, acceptors, clock);
            serve_links(rt, alloc, wanted.connections, schema, slots, out, store)
        }
        Err(fault) => {
            drop(places);
            leave_standing(alloc, say_unheard(out, fault), store, Vec::new(alloc))
        }
    }
}

// Tells that links are served, and serves them.
fn serve_links<
    R: Threads + Wait + Sync,
    O: Sink,
    D: Disk + Send,
    A: Acceptor + Send,
    C: Clock + Send,
>(
    rt: &R,
    alloc: Global,
    limit: Option<u32>,
    schema: &Schema,
    slots: Vec<Slot<A, C, NoGate>>,
    out: &mut O,
    store: Store<D>,
) -> Run<D, A, C>
where
    A::Link: Send,
    requires some { 1 ≤ length slots.items }
    requires most { length slots.items ≤ 16 }
    requires fresh { HasBegun schema.now store.limits store }
    ensures serves { ServesLinks D.Disk A.accepting C.moments limit store slots.items
        (O.sink out.old) result (O.sink out.new) }
    ensures left { IfSome result.store (IsLeftStanding D.Disk store.disks) }
{
    if put_serving(out) {
        leave_standing(alloc, WRITE_FAULT, store, slots)
    } else {
        serve_slots(rt, alloc, limit, schema, slots, out, store)
    }
}

// Serves links.
fn serve_slots<
    R: Threads + Wait + Sync,
    O: Sink,
    D: Disk + Send,
    A: Acceptor + Send,
    C: Clock + Send,
>(
    rt: &R,
    alloc: Global,
    limit: Option<u32>,
    schema: &Schema,
    slots: Vec<Slot<A, C, NoGate>>,
    out: &mut O,
    store: Store<D>,
) -> Run<D, A, C>
where
    A::Link: Send,
    requires some { 1 ≤ length slots.items }
    requires most { length slots.items ≤ 16 }
    requires fresh { HasBegun schema.now store.limits store }
    ensures serves { ServesTold D.Disk A.accepting C.moments limit store slots.items
        (O.sink out.old) result (O.sink out.new) }
    ensures left { IfSome result.store (IsLeftStanding D.Disk store.disks) }
{
    match store_server::serve(rt, alloc, store, schema, slots, limit) {
        Served::Ran { store, workers } => {
            let status = say_ended(out, &workers);
            leave_ended(alloc, status, store, workers)
        }
        Served::NoMemory { store, slots } => {
            say(out, b"wfsd: no memory\n");
            leave_standing(alloc, OUT_OF_MEMORY, store, slots)
        }
    }
}

// An end with the store as it was started, where no worker began.
fn leave_standing<D: Disk, A, C>(
    alloc: Global,
    status: u8,
    store: Store<D>,
    idle: Vec<Slot<A, C, NoGate>>,
) -> Run<D, A, C>
    requires entries { store.entries ≡ [] }
    requires rests { store.begun ≡ None }
    ensures leaves { LeavesService status store [] idle.items result }
    ensures left { IfSome result.store (IsLeftStanding D.Disk store.disks) }
{
    stands(&store);
    leave_idle(alloc, status, store, idle)
}
