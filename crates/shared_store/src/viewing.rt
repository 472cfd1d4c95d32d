//! A read without a turn, from what is published.

ghost use Rattle.std.specs.Prelude.{◌≡◌, ◌≤◌, IfSome, Ok};
ghost use Rattle.http_requests.specs.Asks.{asked};
ghost use Rattle.service_session.specs.declared.answered.Answered.TheVariants as answered;
ghost use Rattle.snapshot_reads.specs.Viewers.{IsSame, entered_of, schema_of};
ghost use Rattle.shared_store.specs.Published.{FindsOne, pairs_of};
ghost use Rattle.shared_store.specs.Seats.{AnswersBy, HasViewer, IsOfOpening};
ghost use Rattle.shared_store.specs.Turns.{HasLooked};
ghost use Rattle.turnstile_core.specs.Seats.{name_of, turnstile_of, past, stage};
ghost use Rattle.turnstile_core.specs.Steps.{saw};
ghost use Rattle.wfs_model.specs.Changing.{IsChange};

use crate::counter::Counter;
use disk_core::Disk;
use feature_values::Schema;
use http_session::Message;
use service_session::Answered;
use snapshot_reads::{Viewed, Viewer};
use std::alloc::Global;
use turnstile_core::{Seat, Turnstile};
use wfs_ends::OutOfMemory;
use wfs_model::{Reply, Request};

/// Reads what is published, for a message that asked for a read. There is no answer where there is no viewer, where nothing is found, and where what
/// is published is older than what the seat knows of, or newer than what is shown.
pub(crate) fn look_up_published<D: Disk>(
    alloc: Global,
    desk: &Turnstile<Counter<D>>,
    seat: &mut Seat<Counter<D>>,
    viewer: &mut Option<Viewer>,
    schema: &Schema,
    message: &Message,
    moment: u64,
    request: &Request,
) -> Option<Answered>
    requires own { turnstile_of seat.old ≡ name_of desk.now }
    requires opening { IsOfOpening schema.now (past seat.old) }
    requires viewer { HasViewer schema.now (past seat.old) viewer.old }
    requires asked { asked message.now schema.now ≡ Ok request.now }
    requires read { IsChange request.now → ⊥ }
    ensures own { turnstile_of seat.new ≡ turnstile_of seat.old }
    ensures stage { stage seat.new ≡ stage seat.old }
    ensures viewer { HasViewer schema.now (past seat.new) viewer.new }
    ensures looked { HasLooked (past seat.old) (past seat.new) }
    ensures one { FindsOne (pairs_of viewer.old) (pairs_of viewer.new) }
    ensures answers { IfSome result (λ answer. AnswersBy (past seat.old) (pairs_of viewer.old)
        message.now moment answer (past seat.new) (pairs_of viewer.new)) }
{
    match viewer {
        Some(viewer) => {
            read_published(alloc, desk, seat, viewer, schema, message, moment, request)
        }
        None => None,
    }
}

// The same by a viewer.
fn read_published<D: Disk>(
    alloc: Global,
    desk: &Turnstile<Counter<D>>,
    seat: &mut Seat<Counter<D>>,
    viewer: &mut Viewer,
    _schema: &Schema,
    _message: &Message,
    moment: u64,
    request: &Request,
) -> Option<Answered>
    requires own { turnstile_of seat.old ≡ name_of desk.now }
    requires opening { IsOfOpening _schema.now (past seat.old) }
    requires viewer { schema_of viewer.old ≡ _schema.now }
    requires asked { asked _message.now _schema.now ≡ Ok request.now }
    requires read { IsChange request.now → ⊥ }
    ensures own { turnstile_of seat.new ≡ turnstile_of seat.old }
    ensures stage { stage seat.new ≡ stage seat.old }
    ensures viewer { IsSame viewer.old viewer.new }
    ensures looked { HasLooked (past seat.old) (past seat.new) }
    ensures one { FindsOne (entered_of viewer.old) (entered_of viewer.new) }
    ensures answers { IfSome result (λ answer. AnswersBy (past seat.old) (entered_of viewer.old)
        _message.now moment answer (past seat.new) (entered_of viewer.new)) }
{
    viewer.tell(seat.front());
    match viewer.read(alloc, moment, request) {
        Ok(Viewed::Answer(reply, front)) => answer_shown(desk, seat, reply, front),
        Ok(Viewed::Behind(_)) | Ok(Viewed::Gone) => None,
        Err(OutOfMemory) => Some(Answered::OutOfMemory),
    }
}

// A reply that was read at a front, where this is shown.
fn answer_shown<D: Disk>(
    desk: &Turnstile<Counter<D>>,
    seat: &mut Seat<Counter<D>>,
    reply: Reply,
    front: u64,
) -> Option<Answered>
    requires own { turnstile_of seat.old ≡ name_of desk.now }
    ensures own { turnstile_of seat.new ≡ turnstile_of seat.old }
    ensures stage { stage seat.new ≡ stage seat.old }
    ensures looked { past seat.new ≡ saw (past seat.old) (past seat.new).shown }
    ensures answer { IfSome result (λ answer. (answer ≡ answered.Reply reply)
        × (front ≤ (past seat.new).shown)) }
{
    if front <= desk.look(seat) {
        Some(Answered::Reply(reply))
    } else {
        None
    }
}
