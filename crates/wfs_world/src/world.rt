//! The world: its beginning, and what each event does to it.

ghost use Rattle.std.specs.Prelude.{◌≡◌, ◌≤◌, IfOk, true, length};
ghost use Rattle.wfs_model.specs.declared.request.Request.{Request};
ghost use Rattle.wfs_model.specs.Changing.{IsChange};
ghost use Rattle.wfs_model.specs.History.{after};
ghost use Rattle.wfs_model.specs.OfSchema.{IsOfSchema};
ghost use Rattle.wfs_model.specs.Read.{read};
ghost use Rattle.wfs_model.specs.State.{durable, clamped};
ghost use Rattle.wfs_world.specs.declared.event.Event.TheVariants.{Arrive, Take, Put, Enter, Leave, Read, Crash, Reopen};
ghost use Rattle.wfs_world.specs.Happening.{Happens};
ghost use Rattle.wfs_world.specs.Scene.{first_scene, opening_of};

use crate::event::{PutOutcome, Seen, WorldFault};
use crate::replaying::{open_on, step_all};
use crate::scene::Scene;
use feature_values::Schema;
use std::alloc::Global;
use std::marker::Model;
use wfs_ends::{Mem, OutOfMemory};
use wfs_machine::Plain;
use wfs_model::{Entry, Reply, Request};

/// Some seats that share one machine and its journal. Contracts see what is known of them between any two events: the requests that
/// wait and the one in turn, the history of this opening, how much of it each seat has seen, the journal's changes, what a fault has left
/// begun, and whether there is a process.
#[derive(Drop)]
pub struct World {
    pub(crate) alloc: Global,
    pub(crate) scene: Scene,
    // in the state after the whole history, while there is a process
    pub(crate) machine: Plain,
}

impl Model for World {
    ghost use Rattle.std.specs.Coded.{codes};
    ghost use Rattle.fes_filter.specs.contracts.filter.Filter as filter_row;
    ghost use Rattle.wfs_world.specs.Kept.{IsRunning};
    ghost use Rattle.wfs_world.specs.Scene.{Scene};

    ghost Value = { Scene };

    ghost coded = { Prim.hlevel (codes, filter_row.the_row.coded) };

    ghost view = { λ w. w.scene };

    ghost invariant = { λ w. IsRunning w.scene w.machine };
}

impl World {
    /// The world of the first opening, with so many seats and nothing in it.
    pub fn new(alloc: Global, schema: Schema, seats: u32) -> Mem<World>
        ensures { IfOk result (λ w. w ≡ first_scene schema seats) }
    {
        let machine = Plain::new(alloc, schema.copy(alloc)?)?;
        let scene = Scene::new(alloc, schema, seats)?;
        Ok(World {
            alloc,
            scene,
            machine,
        })
    }

    /// A request joins the line.
    pub(crate) fn arrive(&mut self, entry: Entry) -> Result<Seen, WorldFault>
        requires { IsOfSchema self.old.schema entry.request }
        ensures { Happens self.old (Arrive entry.seat entry.moment entry.size entry.request) result
            self.new }
    {
        if !self.scene.may_arrive(entry.seat) {
            return Err(WorldFault::NotNow);
        }
        self.scene.arrive(entry)?;
        Ok(Seen::Nothing)
    }

    /// The first request of the line is in turn.
    pub(crate) fn take(&mut self, seat: u32) -> Result<Seen, WorldFault>
        ensures { Happens self.old (Take seat) result self.new }
    {
        if !self.scene.may_take(seat) {
            return Err(WorldFault::NotNow);
        }
        self.scene.take_first();
        Ok(Seen::Nothing)
    }

    /// The journal takes the change that the request in turn makes, or not.
    pub(crate) fn put(&mut self, seat: u32, outcome: PutOutcome) -> Result<Seen, WorldFault>
        ensures { Happens self.old (Put seat outcome) result self.new }
    {
        let Some(entry) = self.scene.to_put(seat) else {
            return Err(WorldFault::NotNow);
        };
        let change = self.machine.change_of(entry)?;
        if !self.scene.is_outcome(&change, outcome) {
            return Err(WorldFault::NotNow);
        }
        self.scene.put(change, outcome)?;
        Ok(Seen::Nothing)
    }

    /// The request in turn enters the history.
    pub(crate) fn enter(&mut self, seat: u32) -> Result<Seen, WorldFault>
        ensures { Happens self.old (Enter seat) result self.new }
    {
        if !self.scene.may_enter(seat) {
            return Err(WorldFault::NotNow);
        }
        self.scene.enter(&mut self.machine, seat)?;
        Ok(Seen::Nothing)
    }

    /// The request in turn is over.
    pub(crate) fn leave(&mut self, seat: u32) -> Result<Seen, WorldFault>
        ensures { Happens self.old (Leave seat) result self.new }
    {
        if !self.scene.may_leave(seat) {
            return Err(WorldFault::NotNow);
        }
        Ok(self.scene.leave())
    }

    // The reply to a read by the state after so many entries.
    fn answer(&self, front: u64, moment: u64, request: &Request) -> Mem<Reply>
        requires up { self.now.is_up ≡ true }
        requires read { IsChange request.now → ⊥ }
        requires front { front ≤ length self.now.entries }
        ensures { IfOk result (λ reply. reply ≡ read self.now.schema
            (durable (after self.now.schema (opening_of self.now) self.now.entries front))
            (clamped moment) request.now) }
    {
        let entries = self.scene.entries();
        let front = front as usize;
        if front == entries.len() {
            return self.machine.read(moment, request);
        }
        let mut machine = open_on(
            self.alloc,
            self.scene.schema(),
            self.scene.found(),
            self.scene.number(),
        )?;
        let reply = match step_all(&mut machine, &entries[..front]) {
            Ok(()) => machine.read(moment, request),
            Err(OutOfMemory) => Err(OutOfMemory),
        };
        drop(machine);
        reply
    }

    /// A read is answered by the state after so many entries.
    pub(crate) fn read(
        &mut self,
        seat: u32,
        front: u64,
        moment: u64,
        request: &Request,
    ) -> Result<Seen, WorldFault>
        ensures { Happens self.old (Read seat front moment request.now) result self.new }
    {
        if !self.scene.may_read(seat, front, request) {
            return Err(WorldFault::NotNow);
        }
        let reply = self.answer(front, moment, request)?;
        self.scene.see(seat, front);
        Ok(Seen::Answer(reply))
    }

    /// The process ends.
    pub(crate) fn crash(&mut self, with_begun: bool) -> Result<Seen, WorldFault>
        ensures { Happens self.old (Crash with_begun) result self.new }
    {
        if !self.scene.may_crash(with_begun) {
            return Err(WorldFault::NotNow);
        }
        self.scene.crash(with_begun)?;
        Ok(Seen::Nothing)
    }

    /// A new process opens on the journal, with the next number.
    pub(crate) fn reopen(&mut self) -> Result<Seen, WorldFault>
        ensures { Happens self.old Reopen result self.new }
    {
        if self.scene.is_up() {
            return Err(WorldFault::NotNow);
        }
        let Some(number) = self.scene.number().checked_add(1) else {
            return Err(WorldFault::OutOfMemory);
        };
        self.machine = open_on(
            self.alloc,
            self.scene.schema(),
            self.scene.journal(),
            number,
        )?;
        self.scene.set_up(number);
        Ok(Seen::Reopened(number))
    }
}
