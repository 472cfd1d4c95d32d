//! Events, one after the other.

ghost use Rattle.std.specs.Prelude.{◌≡◌, All, IfOk, OnOk, OnErr};
ghost use Rattle.wfs_world.specs.Events.{IsEventOf, all_seen};
ghost use Rattle.wfs_world.specs.Happening.{Happens, AllHappen, Stops};

use crate::World;
use crate::event::{Event, Seen, WorldFault};
use wfs_ends::List;
use wfs_model::Entry;

impl World {
    /// Lets an event happen, and tells what is seen of it. Where it may not happen, or memory runs out, nothing changes.
    ///
    /// # Errors
    ///
    /// `NotNow` where the event may not happen in this state. `OutOfMemory`: memory ran out.
    pub fn step(&mut self, event: Event) -> Result<Seen, WorldFault>
        requires { IsEventOf self.old.schema event }
        ensures { Happens self.old event result self.new }
    {
        match event {
            Event::Arrive {
                seat,
                moment,
                size,
                request,
            } => self.arrive(Entry {
                seat,
                moment,
                size,
                request,
            }),
            Event::Take { seat } => self.take(seat),
            Event::Put { seat, outcome } => self.put(seat, outcome),
            Event::Enter { seat } => self.enter(seat),
            Event::Leave { seat } => self.leave(seat),
            Event::Read {
                seat,
                front,
                moment,
                request,
            } => self.read(seat, front, moment, &request),
            Event::Crash { with_begun } => self.crash(with_begun),
            Event::Reopen => self.reopen(),
        }
    }

    /// Lets events happen one after the other, and tells what is seen of each. It stops at the first that may not happen, or for which
    /// there is no memory: those before it stay done, and it changes nothing.
    ///
    /// # Errors
    ///
    /// As `step`.
    pub fn run(&mut self, events: List<Event>) -> Result<List<Seen>, WorldFault>
        requires { All (IsEventOf self.old.schema) events }
        ensures ok { OnOk result (AllHappen self.old events self.new) }
        ensures seen { IfOk result (λ seen. seen ≡ all_seen self.old events) }
        ensures err { OnErr result (Stops self.old events result self.new) }
    {
        let mut seen = Vec::with_capacity(self.alloc, events.items().len())?;
        for event in events.into_items() {
            let one = self.step(event)?;
            seen.push_reserved(one);
        }
        Ok(List::of(seen))
    }
}
