//! A session with a store, whose one seat has the number 0 and which nobody else uses meanwhile.

ghost use Rattle.std.specs.Prelude.{◌≡◌, [], All, Ok};
ghost use Rattle.disk_core.specs.Sides.{Always};
ghost use Rattle.http_requests.specs.Asks.{asked};
ghost use Rattle.query_docs.specs.Reading.{IsKeptText};
ghost use Rattle.wfs_model.specs.Changing.{IsChange};
ghost use Rattle.wfs_model.specs.OfSchema.{IsOfSchema, stored_in};
ghost use Rattle.service_session.specs.Became.{StoreBecomes, TalliesAnswers, SaysOnTheWay};
ghost use Rattle.service_session.specs.Session.{IsSession};
ghost use Rattle.service_session.specs.Solo.{answer_of, StoreAnswers, TakesSteps, store_meaning};

use crate::answered::Answered;
use crate::ending::SessionEnd;
use crate::gate::{Gate, GatePoint, NoGate};
use crate::hold::session;
use crate::service::Service;
use disk_core::Disk;
use feature_values::Schema;
use http_requests::{entry_of, read_asked};
use http_session::{Message, Reader};
use std::alloc::Global;
use wfs_ends::{Buffer, Clock, Link, OutOfMemory};
use wfs_model::{AskFault, Reply, Request};
use wfs_store::{StepFault, Store, stands};

/// What is answered where a step came to this.
pub fn answer_of(step: Result<Reply, StepFault>) -> Answered
    ensures { result ≡ answer_of step }
{
    match step {
        Ok(reply) => Answered::Reply(reply),
        Err(StepFault::StoreFault) => Answered::StoreFault,
        Err(StepFault::Full(_)) => Answered::Full,
        Err(StepFault::OutOfMemory) => Answered::OutOfMemory,
    }
}

// Has the store take a step for a message that asked for a change.
fn take_step<D: Disk>(
    store: &mut Store<D>,
    message: &Message,
    moment: u64,
    request: Request,
) -> Answered
    requires asked { asked message.now store.old.schema ≡ Ok request }
    requires change { IsChange request }
    requires of_schema { IsOfSchema store.old.schema request }
    requires texts { All (IsKeptText store.old.schema) (stored_in request) }
    ensures answered { StoreAnswers D.moment D.since D.faults store.old message.now moment result
        store.new }
    ensures steps { TakesSteps D.moment D.since D.faults store.old store.new }
{
    answer_of(store.step(entry_of(0, request, message, moment)))
}

// Answers a message that asked for a read.
fn look_up<D: Disk>(store: &Store<D>, message: &Message, moment: u64, request: &Request) -> Answered
    requires asked { asked message.now store.now.schema ≡ Ok request.now }
    requires read { IsChange request.now → ⊥ }
    requires of_schema { IsOfSchema store.now.schema request.now }
    ensures { StoreAnswers D.moment D.since D.faults store.now message.now moment result store.now }
{
    match store.read(moment, request) {
        Ok(reply) => Answered::Reply(reply),
        Err(OutOfMemory) => Answered::OutOfMemory,
    }
}

// Carries out what a message asked. The gate is told before a step.
fn carry_out<D: Disk, G: Gate>(
    store: &mut Store<D>,
    message: &Message,
    moment: u64,
    request: Request,
    gate: &mut G,
) -> Answered
    requires asked { asked message.now store.old.schema ≡ Ok request }
    requires of_schema { IsOfSchema store.old.schema request }
    requires texts { All (IsKeptText store.old.schema) (stored_in request) }
    ensures answered { StoreAnswers D.moment D.since D.faults store.old message.now moment result
        store.new }
    ensures steps { TakesSteps D.moment D.since D.faults store.old store.new }
{
    if request.is_change() {
        gate.reach(GatePoint::InTurn);
        take_step(store, message, moment, request)
    } else {
        look_up(store, message, moment, &request)
    }
}

// Judges a message.
fn judge_asked<D: Disk, G: Gate>(
    alloc: Global,
    store: &mut Store<D>,
    message: &Message,
    moment: u64,
    gate: &mut G,
) -> Answered
    ensures answered { StoreAnswers D.moment D.since D.faults store.old message.now moment result
        store.new }
    ensures steps { TakesSteps D.moment D.since D.faults store.old store.new }
{
    match read_asked(alloc, message, store.schema()) {
        Ok(request) => carry_out(store, message, moment, request, gate),
        Err(AskFault::Refused(refusal)) => Answered::Reply(Reply::Refused(refusal)),
        Err(AskFault::OutOfMemory) => Answered::OutOfMemory,
    }
}

/// The service of seat 0. Each message that asks for a change is a step of the store; the gate is told before it.
impl<D: Disk> Service for Store<D> {
    ghost use Rattle.service_session.specs.Solo.{store_meaning, steps_both, none};

    ghost schema = { (store_meaning D.moment D.since D.faults).schema };

    ghost judges = { (store_meaning D.moment D.since D.faults).judges };

    ghost leads = { (store_meaning D.moment D.since D.faults).leads };

    ghost stays = { λ held. none };

    ghost follows = { steps_both D.moment D.since D.faults };

    fn schema(&self) -> &Schema {
        Store::schema(self)
    }

    fn judge<G: Gate>(
        &mut self,
        alloc: Global,
        message: &Message,
        _is_last: bool,
        moment: u64,
        gate: &mut G,
    ) -> Answered {
        judge_asked(alloc, self, message, moment, gate)
    }
}

/// Holds one session of seat 0 over a link: each message is judged at the clock's next moment, and answered by the store. It waits for
/// nobody.
///
/// Behind it the store has taken some steps of seat 0, whatever came (`becomes`); its tally has one more for each answer that was a store
/// fault (`tallies`); and a crash at any moment since the call left what the history up to there leaves, or that with one change that was
/// begun or in work (`goes`).
pub fn solo_session<L: Link, C: Clock, D: Disk>(
    alloc: Global,
    store: &mut Store<D>,
    link: &mut L,
    clock: &mut C,
    reader: &mut Reader,
    buffer: &mut Buffer,
) -> SessionEnd
    requires fresh { reader.old ≡ [] }
    ensures held { IsSession (store_meaning D.moment D.since D.faults) (C.moments clock.old)
        store.old (L.Source.source link.old) result store.new (C.moments clock.new)
        (L.Source.source link.new) }
    ensures becomes { StoreBecomes D.faults store.old store.new }
    ensures tallies { TalliesAnswers D.moment D.since D.faults store.old (L.Source.source link.old)
        result store.new (C.moments clock.new) (L.Source.source link.new) }
    ensures goes { Always D.moment D.since (SaysOnTheWay D.moment D.since D.faults store.old
        store.new) store.old.disks store.new.disks }
{
    stands(store);
    session(alloc, store, link, clock, &mut NoGate, reader, buffer)
}
