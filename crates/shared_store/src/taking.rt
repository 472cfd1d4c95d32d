//! What a seat does for a message, in a turn or without one, and what it answers.

ghost use Rattle.std.specs.Prelude.{◌≡◌, ◌≤◌, All, Ok};
ghost use mathlib.Core.List.{IsPrefix};
ghost use Rattle.feature_values.specs.declared.schema.Schema.{Schema as SchemaFacts};
ghost use Rattle.http_requests.specs.Asks.{asked};
ghost use Rattle.query_docs.specs.Reading.{IsKeptText};
ghost use Rattle.shared_store.specs.Counters.{IsViewerAt, IsViewerOf, Owes, shown_in};
ghost use Rattle.shared_store.specs.Knowing.{KnowsMore};
ghost use Rattle.shared_store.specs.Published.{AreOf, pairs_of};
ghost use Rattle.shared_store.specs.Seats.{AnswersBy, HasViewer, IsOfOpening, ReadsInTurn};
ghost use Rattle.shared_store.specs.Turns.{HasOwnMore, having_left};
ghost use Rattle.turnstile_core.specs.Seats.{name_of, turnstile_of, past, FoundTallies, HasOpeningOf, IsFree};
ghost use Rattle.wfs_model.specs.Changing.{IsChange};
ghost use Rattle.wfs_model.specs.OfSchema.{IsOfSchema, stored_in};

use crate::counter::Counter;
use crate::stepping::step_in_turn;
use crate::viewing::look_up_published;
use disk_core::Disk;
use feature_values::Schema;
use http_requests::entry_of;
use http_session::Message;
use service_session::{Answered, Gate, GatePoint, answer_of};
use snapshot_reads::Viewer;
use std::alloc::Global;
use std::sync::Wait;
use turnstile_core::{Seat, Turn, Turnstile};
use wfs_ends::OutOfMemory;
use wfs_model::Request;

/// Carries out what a message asked: a step of the store in a turn of the seat where it may change something, else a read.
pub(crate) fn carry_out<R: Wait, D: Disk, G: Gate>(
    rt: &R,
    alloc: Global,
    desk: &Turnstile<Counter<D>>,
    seat: &mut Seat<Counter<D>>,
    viewer: &mut Option<Viewer>,
    number: u32,
    schema: &Schema,
    message: &Message,
    moment: u64,
    request: Request,
    gate: &mut G,
) -> Answered
    requires own { turnstile_of seat.old ≡ name_of desk.now }
    requires free { IsFree seat.old }
    requires number { (past seat.old).number ≡ number }
    requires opening { IsOfOpening schema.now (past seat.old) }
    requires viewer { HasViewer schema.now (past seat.old) viewer.old }
    requires asked { asked message.now schema.now ≡ Ok request }
    requires fitting { IsOfSchema schema.now request }
    requires texts { All (IsKeptText schema.now) (stored_in request) }
    ensures own { turnstile_of seat.new ≡ turnstile_of seat.old }
    ensures free { IsFree seat.new }
    ensures viewer { HasViewer schema.now (past seat.new) viewer.new }
    ensures answers { AnswersBy (past seat.old) (pairs_of viewer.old) message.now moment result
        (past seat.new) (pairs_of viewer.new) }
    ensures knows { KnowsMore (past seat.old) (past seat.new) }
    ensures found { IsPrefix (pairs_of viewer.old) (pairs_of viewer.new) }
{
    if request.is_change() {
        take_step(
            rt, desk, seat, viewer, number, schema, message, moment, request, gate,
        )
    } else {
        look_up(
            rt, alloc, desk, seat, viewer, schema, message, moment, &request, gate,
        )
    }
}

// Has the store take a step in the seat's turn, for a message that asked for a change, and publishes what it leaves. The gate is told before the
// step.
fn take_step<R: Wait, D: Disk, G: Gate>(
    rt: &R,
    desk: &Turnstile<Counter<D>>,
    seat: &mut Seat<Counter<D>>,
    viewer: &mut Option<Viewer>,
    number: u32,
    _schema: &Schema,
    message: &Message,
    moment: u64,
    request: Request,
    gate: &mut G,
) -> Answered
    requires own { turnstile_of seat.old ≡ name_of desk.now }
    requires free { IsFree seat.old }
    requires number { (past seat.old).number ≡ number }
    requires opening { IsOfOpening _schema.now (past seat.old) }
    requires viewer { HasViewer _schema.now (past seat.old) viewer.old }
    requires asked { asked message.now _schema.now ≡ Ok request }
    requires change { IsChange request }
    requires fitting { IsOfSchema _schema.now request }
    requires texts { All (IsKeptText _schema.now) (stored_in request) }
    ensures own { turnstile_of seat.new ≡ turnstile_of seat.old }
    ensures free { IsFree seat.new }
    ensures viewer { HasViewer _schema.now (past seat.new) viewer.new }
    ensures answers { AnswersBy (past seat.old) (pairs_of viewer.old) message.now moment result
        (past seat.new) (pairs_of viewer.new) }
    ensures knows { KnowsMore (past seat.old) (past seat.new) }
    ensures found { pairs_of viewer.new ≡ pairs_of viewer.old }
{
    let mut turn = desk.take_turn(rt, seat);
    gate.reach(GatePoint::InTurn);
    match step_in_turn(&mut turn.value, entry_of(number, request, message, moment)) {
        Ok(reply) => {
            publish_and_pass(rt, desk, seat, viewer, turn);
            Answered::Reply(reply)
        }
        Err(fault) => {
            turn.value.meet(rt, viewer);
            desk.pass_on(seat, turn);
            answer_of(Err(fault))
        }
    }
}

// Enters the last entry, which is the seat's own, publishes what it leaves, has the viewer meet the publisher, shows what is published, and passes the
// turn on.
fn publish_and_pass<R: Wait, D: Disk>(
    rt: &R,
    desk: &Turnstile<Counter<D>>,
    seat: &mut Seat<Counter<D>>,
    viewer: &mut Option<Viewer>,
    turn: Turn<Counter<D>>,
)
    requires own { turnstile_of seat.old ≡ name_of desk.now }
    requires holds { FoundTallies seat.old turn.value }
    requires one_more { HasOwnMore (past seat.old) turn.value.store.entries }
    requires owes { Owes turn.value }
    requires shown { (past seat.old).shown ≤ shown_in turn.value }
    requires opening { HasOpeningOf seat.old turn.value }
    requires viewer { IsViewerAt turn.value viewer.old }
    ensures own { turnstile_of seat.new ≡ turnstile_of seat.old }
    ensures free { IsFree seat.new }
    ensures seat { past seat.new ≡ having_left (past seat.old) turn.value.store
        (past seat.new).shown }
    ensures at { IsViewerAt turn.value viewer.new }
    ensures schema { (schema : SchemaFacts) → IsViewerOf schema viewer.old
        → IsViewerOf schema viewer.new }
    ensures found { pairs_of viewer.new ≡ pairs_of viewer.old }
    ensures known { AreOf turn.value.store (pairs_of viewer.new) }
{
    let mut turn = turn;
    desk.enter(seat, &mut turn);
    turn.value.publish(rt);
    turn.value.meet(rt, viewer);
    desk.show(seat, &mut turn);
    desk.pass_on(seat, turn);
}

// Reads what is published, for a message that asked for a read, or else the store in the seat's turn.
fn look_up<R: Wait, D: Disk, G: Gate>(
    rt: &R,
    alloc: Global,
    desk: &Turnstile<Counter<D>>,
    seat: &mut Seat<Counter<D>>,
    viewer: &mut Option<Viewer>,
    schema: &Schema,
    message: &Message,
    moment: u64,
    request: &Request,
    gate: &mut G,
) -> Answered
    requires own { turnstile_of seat.old ≡ name_of desk.now }
    requires free { IsFree seat.old }
    requires opening { IsOfOpening schema.now (past seat.old) }
    requires viewer { HasViewer schema.now (past seat.old) viewer.old }
    requires asked { asked message.now schema.now ≡ Ok request.now }
    requires read { IsChange request.now → ⊥ }
    requires fitting { IsOfSchema schema.now request.now }
    ensures own { turnstile_of seat.new ≡ turnstile_of seat.old }
    ensures free { IsFree seat.new }
    ensures viewer { HasViewer schema.now (past seat.new) viewer.new }
    ensures answers { AnswersBy (past seat.old) (pairs_of viewer.old) message.now moment result
        (past seat.new) (pairs_of viewer.new) }
    ensures knows { KnowsMore (past seat.old) (past seat.new) }
    ensures found { IsPrefix (pairs_of viewer.old) (pairs_of viewer.new) }
{
    match look_up_published(alloc, desk, seat, viewer, schema, message, moment, request) {
        Some(answered) => answered,
        None => look_up_in_turn(
            rt, desk, seat, viewer, schema, message, moment, request, gate,
        ),
    }
}

// Reads the store in the seat's turn, for a message that asked for a read. The gate is told before.
fn look_up_in_turn<R: Wait, D: Disk, G: Gate>(
    rt: &R,
    desk: &Turnstile<Counter<D>>,
    seat: &mut Seat<Counter<D>>,
    viewer: &mut Option<Viewer>,
    _schema: &Schema,
    _message: &Message,
    moment: u64,
    request: &Request,
    gate: &mut G,
) -> Answered
    requires own { turnstile_of seat.old ≡ name_of desk.now }
    requires free { IsFree seat.old }
    requires opening { IsOfOpening _schema.now (past seat.old) }
    requires viewer { HasViewer _schema.now (past seat.old) viewer.old }
    requires asked { asked _message.now _schema.now ≡ Ok request.now }
    requires read { IsChange request.now → ⊥ }
    requires fitting { IsOfSchema _schema.now request.now }
    ensures own { turnstile_of seat.new ≡ turnstile_of seat.old }
    ensures free { IsFree seat.new }
    ensures viewer { HasViewer _schema.now (past seat.new) viewer.new }
    ensures answers { ReadsInTurn (past seat.old) _message.now moment result (past seat.new)
        (pairs_of viewer.new) }
    ensures knows { KnowsMore (past seat.old) (past seat.new) }
    ensures found { pairs_of viewer.new ≡ pairs_of viewer.old }
{
    let turn = desk.take_turn(rt, seat);
    gate.reach(GatePoint::InTurn);
    turn.value.meet(rt, viewer);
    let read = turn.value.store.read(moment, request);
    desk.pass_on(seat, turn);
    match read {
        Ok(reply) => Answered::Reply(reply),
        Err(OutOfMemory) => Answered::OutOfMemory,
    }
}
