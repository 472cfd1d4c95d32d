//! The turn: who waits for it and who has it, and what the journal takes of the request in turn.

ghost use Rattle.std.specs.Prelude.{◌≡◌, ℕ, ◌==◌, ◌↔◌, ◌++◌, [], ◌∷◌, IsTrue, IfSome, OnOk, OnErr, None, Some, true};
ghost use Rattle.std.specs.List.{list_any};
ghost use Rattle.wfs_model.specs.declared.request.Request.{Request};
ghost use Rattle.wfs_model.specs.Changing.{IsChange};
ghost use Rattle.wfs_world.specs.declared.event.Event.TheVariants.{Arrive, Take, Put, Enter, Leave};
ghost use Rattle.wfs_world.specs.declared.event.PutOutcome.{PutOutcome};
ghost use Rattle.wfs_world.specs.declared.turn.Stage.TheVariants.{Taken};
ghost use Rattle.wfs_world.specs.Events.{is_waiting, IsFirst, IsOutcome, MayHappen, taken, seen_at_last};
ghost use Rattle.wfs_world.specs.Scene.{stage_of};
ghost use Rattle.wfs_world.specs.Turns.{put_as, stage_at};

use crate::event::{PutOutcome, Seen};
use crate::scene::{Scene, push_some, set};
use crate::turn::{Stage, Turn, may_enter, may_leave, put_on, seen_at_last, stage_in};
use std::collections::VecDeque;
use wfs_ends::{Mem, OutOfMemory};
use wfs_model::{Change, Entry};

/// Whether the journal may take a change so, or that there is none.
pub(crate) fn is_outcome(
    begun: &Option<Change>,
    change: &Option<Change>,
    outcome: PutOutcome,
) -> bool
    ensures { IsTrue result ↔ IsOutcome begun.now change.now outcome }
{
    match outcome {
        PutOutcome::NotNeeded => change.is_none(),
        PutOutcome::FaultHeld => change.is_some() && begun.is_some(),
        PutOutcome::Done | PutOutcome::FaultClean | PutOutcome::FaultBegun => change.is_some(),
    }
}

// Whether a request of a seat is in the line.
fn is_in_line(line: &VecDeque<Entry>, seat: u32) -> bool
    ensures { result ≡ list_any (λ entry. entry.seat == seat) line.now.items }
{
    line.iter().any(|entry| entry.seat == seat)
}

// The turn of a request that is taken.
fn turn_of(entry: Entry) -> Turn
    ensures { result ≡ record { seat = entry.seat; stage = Taken entry } }
{
    Turn {
        seat: entry.seat,
        stage: Stage::Taken(entry),
    }
}

impl Scene {
    // Whether a seat has a request in the line or in turn.
    fn is_waiting(&self, seat: u32) -> bool
        ensures { result ≡ is_waiting self.now seat }
    {
        is_in_line(&self.line, seat) || stage_in(&self.turn, seat).is_some()
    }

    // Whether the first request of the line is a seat's.
    fn is_first(&self, seat: u32) -> bool
        ensures { IsTrue result ↔ IsFirst seat self.now.line }
    {
        match self.line.front() {
            Some(entry) => entry.seat == seat,
            None => false,
        }
    }

    /// Whether a request of a seat may join the line.
    pub fn may_arrive(&self, seat: u32) -> bool
        ensures { (moment size : ℕ) (request : Request)
            → IsTrue result ↔ MayHappen self.now (Arrive seat moment size request) }
    {
        self.is_up && (seat as usize) < self.fronts.len() && !self.is_waiting(seat)
    }

    /// A request joins the line.
    pub fn arrive(&mut self, entry: Entry) -> Mem<()>
        ensures ok { OnOk result (self.new ≡ record
            self.old { line = self.old.line ++ entry ∷ [] }) }
        ensures err { OnErr result (self.new ≡ self.old) }
    {
        match self.line.push_back(entry) {
            Ok(()) => Ok(()),
            Err(_) => Err(OutOfMemory),
        }
    }

    /// Whether the first request of the line may be in turn, and is a seat's.
    pub fn may_take(&self, seat: u32) -> bool
        ensures { IsTrue result ↔ MayHappen self.now (Take seat) }
    {
        self.is_up && self.turn.is_none() && self.is_first(seat)
    }

    /// The first request of the line is in turn.
    pub fn take_first(&mut self)
        ensures { self.new ≡ taken self.old self.old.line }
    {
        if let Some(entry) = self.line.pop_front() {
            set(&mut self.turn, Some(turn_of(entry)));
        }
    }

    /// The request of a seat that may be put: it is in turn, nothing is done of it yet, and it is a changing one.
    pub fn to_put(&self, seat: u32) -> Option<&Entry>
        ensures up { IfSome result (λ entry. self.now.is_up ≡ true) }
        ensures stage { IfSome result (λ entry. stage_of self.now seat ≡ Some (Taken entry.now)) }
        ensures change { IfSome result (λ entry. IsChange entry.now.request) }
        ensures none { result ≡ None → (outcome : PutOutcome)
            → MayHappen self.now (Put seat outcome) → ⊥ }
    {
        if !self.is_up {
            return None;
        }
        match stage_in(&self.turn, seat) {
            Some(Stage::Taken(entry)) if entry.request.is_change() => Some(entry),
            _ => None,
        }
    }

    /// Whether the journal may take a change so, or that there is none.
    pub fn is_outcome(&self, change: &Option<Change>, outcome: PutOutcome) -> bool
        ensures { IsTrue result ↔ IsOutcome self.now.begun change.now outcome }
    {
        is_outcome(&self.begun, change, outcome)
    }

    /// The journal takes the change of the request in turn, or not.
    pub fn put(&mut self, change: Option<Change>, outcome: PutOutcome) -> Mem<()>
        ensures ok { OnOk result (self.new ≡ put_as self.old change outcome) }
        ensures err { OnErr result (self.new ≡ self.old) }
    {
        self.journal.reserve(1)?;
        let turn = put_on(self.turn.take(), outcome);
        set(&mut self.turn, turn);
        match outcome {
            PutOutcome::NotNeeded | PutOutcome::FaultHeld => (),
            PutOutcome::Done => {
                push_some(&mut self.journal, change);
                set(&mut self.begun, None);
            }
            PutOutcome::FaultClean => set(&mut self.begun, None),
            PutOutcome::FaultBegun => set(&mut self.begun, change),
        }
        Ok(())
    }

    /// Whether the request of a seat may enter the history: it is in turn, and put.
    pub fn may_enter(&self, seat: u32) -> bool
        ensures { IsTrue result ↔ MayHappen self.now (Enter seat) }
    {
        self.is_up && may_enter(&self.turn, seat)
    }

    /// Whether the request of a seat may be over.
    pub fn may_leave(&self, seat: u32) -> bool
        ensures { IsTrue result ↔ MayHappen self.now (Leave seat) }
    {
        self.is_up && may_leave(&self.turn, seat)
    }

    /// The request in turn is over.
    pub fn leave(&mut self) -> Seen
        ensures left { self.new ≡ record self.old { turn = None } }
        ensures seen { result ≡ seen_at_last (stage_at self.old.turn) }
    {
        seen_at_last(self.turn.take())
    }
}
