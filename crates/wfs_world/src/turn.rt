//! The request in turn, and how far it has come.

ghost use Rattle.std.specs.Prelude.{◌≡◌, ◌↔◌, IsTrue, Some};
ghost use Rattle.std.specs.Option.{option_copied};
ghost use Rattle.wfs_world.specs.Events.{MayEnter, MayLeave, stage_after, seen_at_last};
ghost use Rattle.wfs_world.specs.Scene.{stage_in};
ghost use Rattle.wfs_world.specs.Turns.{stage_at, turn_put, put_in, at_moment};

use crate::event::{PutOutcome, Seen};
use std::mem::drop;
use wfs_model::{Entry, Reply};

/// How far the request in turn has come.
#[derive(Debug, PartialEq, Eq, Drop)]
pub(crate) enum Stage {
    /// Nothing is done of it yet.
    Taken(Entry),
    /// The journal has its change, or it has none.
    Put(Entry),
    /// A fault kept its change out of the journal.
    Faulted,
    /// It is in the history, with this reply.
    Entered(Reply),
}

/// A seat in turn, and how far its request has come.
#[derive(Debug, PartialEq, Eq, Drop)]
pub(crate) struct Turn {
    pub seat: u32,
    pub stage: Stage,
}

/// How far the request of a seat has come, where the seat is in turn.
pub(crate) fn stage_in(turn: &Option<Turn>, seat: u32) -> Option<&Stage>
    ensures { option_copied result ≡ stage_in seat turn.now }
{
    match turn {
        Some(turn) if turn.seat == seat => Some(&turn.stage),
        _ => None,
    }
}

// How far a request has come that was put.
fn stage_after(entry: Entry, outcome: PutOutcome) -> Stage
    ensures { result ≡ stage_after entry outcome }
{
    match outcome {
        PutOutcome::NotNeeded | PutOutcome::Done => Stage::Put(entry),
        PutOutcome::FaultClean | PutOutcome::FaultBegun | PutOutcome::FaultHeld => Stage::Faulted,
    }
}

/// The turn after a put, where nothing was done of the request yet.
pub(crate) fn put_on(turn: Option<Turn>, outcome: PutOutcome) -> Option<Turn>
    ensures { result ≡ turn_put turn outcome }
{
    match turn {
        Some(
            Turn {
                seat,
                stage: Stage::Taken(entry),
            },
        ) => Some(Turn {
            seat,
            stage: stage_after(entry, outcome),
        }),
        other => other,
    }
}

/// Whether a seat is in turn, and its request may enter the history.
pub(crate) fn may_enter(turn: &Option<Turn>, seat: u32) -> bool
    ensures { IsTrue result ↔ MayEnter (stage_in seat turn.now) }
{
    match stage_in(turn, seat) {
        Some(Stage::Put(_)) => true,
        _ => false,
    }
}

/// Whether a seat is in turn, and its request may be over.
pub(crate) fn may_leave(turn: &Option<Turn>, seat: u32) -> bool
    ensures { IsTrue result ↔ MayLeave (stage_in seat turn.now) }
{
    match stage_in(turn, seat) {
        None | Some(Stage::Put(_)) => false,
        Some(_) => true,
    }
}

/// What is seen at the end of a turn.
pub(crate) fn seen_at_last(turn: Option<Turn>) -> Seen
    ensures { result ≡ seen_at_last (stage_at turn) }
{
    match turn {
        Some(
            Turn {
                stage: Stage::Entered(reply),
                ..
            },
        ) => Seen::Answer(reply),
        Some(
            Turn {
                stage: Stage::Faulted,
                ..
            },
        ) => Seen::Fault,
        _ => Seen::Nothing,
    }
}

/// The request in turn, where it was put.
pub(crate) fn put_in(turn: &Option<Turn>) -> Option<&Entry>
    ensures { option_copied result ≡ put_in turn.now }
{
    match turn {
        Some(
            Turn {
                stage: Stage::Put(entry),
                ..
            },
        ) => Some(entry),
        _ => None,
    }
}

/// The request that was in turn, where it was put, at another moment.
pub(crate) fn put_out(turn: Option<Turn>, moment: u64) -> Option<Entry>
    ensures { result ≡ at_moment moment (put_in turn) }
{
    match turn {
        Some(
            Turn {
                stage: Stage::Put(entry),
                ..
            },
        ) => Some(Entry { moment, ..entry }),
        _ => None,
    }
}

/// Another turn, in place of what was there.
pub(crate) fn set_turn(turn: &mut Option<Turn>, now: Turn)
    ensures { turn.new ≡ Some now }
{
    drop(turn.replace(now));
}
