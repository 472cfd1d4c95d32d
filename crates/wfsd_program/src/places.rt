//! What workers are to be given: a clock each, which is made before any disk is asked, and then an acceptor each.

ghost use Rattle.std.specs.Prelude.{◌≡◌, All, IfOk, length, map};
ghost use Rattle.wfsd_program.specs.Serving.{AreFor};

use service_session::NoGate;
use std::alloc::Global;
use store_server::Slot;
use wfs_ends::{Clock, Mem};

/// What can be made for workers before the doors are asked: a clock for each, and the memory of the list of what they are to be given.
#[derive(Drop)]
pub(crate) struct Places<A, C> {
    clocks: Vec<C>,
    slots: Vec<Slot<A, C, NoGate>>,
}

/// Makes a twin of the clock for each worker, and takes all other memory that there is to take for them before the doors are asked.
pub(crate) fn make_places<A: Drop, C: Clock + Drop>(
    alloc: Global,
    workers: u32,
    clock: &C,
) -> Mem<Places<A, C>>
    ensures { IfOk result (AreFor C.moments workers (C.moments clock.now)) }
{
    let slots = Vec::with_capacity(alloc, workers as usize)?;
    let clocks = make_twins(alloc, workers, clock)?;
    Ok(Places { clocks, slots })
}

// A twin of the clock for each worker.
fn make_twins<C: Clock + Drop>(alloc: Global, workers: u32, clock: &C) -> Mem<Vec<C>>
    ensures number { IfOk result (λ clocks. length clocks.items ≡ workers) }
    ensures twins { IfOk result (λ clocks. All (λ c. C.moments c ≡ C.moments clock.now)
        clocks.items) }
{
    let mut clocks = Vec::with_capacity(alloc, workers as usize)?;
    for _worker in 0..workers {
        clocks.push(clock.twin(alloc)?)?;
    }
    Ok(clocks)
}

/// Gives each worker an acceptor, in order, and a clock.
pub(crate) fn fill<A: Drop, C: Clock + Drop>(
    places: Places<A, C>,
    acceptors: Vec<A>,
    _clock: &C,
) -> Vec<Slot<A, C, NoGate>>
    requires { AreFor C.moments (length acceptors.items) (C.moments _clock.now) places }
    ensures acceptors { map (λ s. s.acceptor) result.items ≡ acceptors.items }
    ensures twins { All (λ s. C.moments s.clock ≡ C.moments _clock.now) result.items }
{
    let Places {
        mut clocks,
        mut slots,
    } = places;
    for acceptor in acceptors {
        let Some(clock) = clocks.pop() else {
            unreachable!();
        };
        match slots.push(Slot {
            acceptor,
            clock,
            gate: NoGate,
        }) {
            Ok(()) => {}
            Err(_) => unreachable!(),
        }
    }
    slots
}
