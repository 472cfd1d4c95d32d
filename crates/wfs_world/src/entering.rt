//! The history: how a request enters it, and how far each seat has seen it.

ghost use Rattle.std.specs.Prelude.{◌≡◌, ℕ, ◌↔◌, IsTrue, OnOk, OnErr, slice_set};
ghost use Rattle.wfs_world.specs.declared.event.Event.TheVariants.{Read};
ghost use Rattle.wfs_world.specs.Events.{MayEnter, MayHappen, entered};
ghost use Rattle.wfs_world.specs.Kept.{IsMet};
ghost use Rattle.wfs_world.specs.Scene.{stage_of, state_of};

use crate::scene::{Scene, push_some};
use crate::turn::{Stage, Turn, put_in, put_out, set_turn};
use wfs_ends::Mem;
use wfs_machine::Plain;
use wfs_model::Request;

// A seat has seen so many entries.
#[tactic(auto, using(std::proofs::lemmas::List::set_past))]
fn set_front(fronts: &mut [u64], seat: u32, front: u64)
    ensures { fronts.new ≡ slice_set fronts.old seat front }
{
    let place = seat as usize;
    if place < fronts.len() {
        fronts[place] = front;
    }
}

impl Scene {
    /// The request in turn takes its step and enters the history, at the moment at which it is taken up. Where memory runs out, nothing
    /// changes.
    pub fn enter(&mut self, machine: &mut Plain, seat: u32) -> Mem<()>
        requires may { MayEnter (stage_of self.old seat) }
        requires met { IsMet self.old machine.old }
        ensures ok { OnOk result (self.new ≡ entered self.old seat (stage_of self.old seat)) }
        ensures state { OnOk result (machine.new.state ≡ state_of self.new) }
        ensures schema { machine.new.schema ≡ machine.old.schema }
        ensures err { OnErr result (self.new ≡ self.old) }
        ensures err_state { OnErr result (machine.new.state ≡ machine.old.state) }
    {
        self.entries.reserve(1)?;
        let Some(entry) = put_in(&self.turn) else {
            unreachable!()
        };
        let moment = machine.moment_of(entry.moment);
        let reply = machine.step(entry)?;
        let now = put_out(self.turn.take(), moment);
        push_some(&mut self.entries, now);
        set_front(&mut self.fronts, seat, self.entries.len() as u64);
        let stage = Stage::Entered(reply);
        set_turn(&mut self.turn, Turn { seat, stage });
        Ok(())
    }

    /// Whether a seat may read the state after so many entries.
    pub fn may_read(&self, seat: u32, front: u64, request: &Request) -> bool
        ensures { (moment : ℕ) → IsTrue result
            ↔ MayHappen self.now (Read seat front moment request.now) }
    {
        if !self.is_up || request.is_change() || front > self.entries.len() as u64 {
            return false;
        }
        match self.fronts.get(seat as usize) {
            Some(seen) => *seen <= front,
            None => false,
        }
    }

    /// A seat has seen so many entries.
    pub fn see(&mut self, seat: u32, front: u64)
        ensures { self.new ≡ record self.old { fronts = slice_set self.old.fronts seat front } }
    {
        set_front(&mut self.fronts, seat, front);
    }
}
