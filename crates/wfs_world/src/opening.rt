//! Crashes and new starts.

ghost use Rattle.std.specs.Prelude.{◌≡◌, ◌↔◌, IsTrue, OnOk, OnErr, true, false};
ghost use Rattle.wfs_world.specs.declared.event.Event.TheVariants.{Crash};
ghost use Rattle.wfs_world.specs.Events.{MayHappen, crashed};
ghost use Rattle.wfs_world.specs.Scene.{opened_on};

use crate::scene::{Scene, push_some, set};
use wfs_ends::Mem;

impl Scene {
    /// Whether the process may end, and what was begun be found in the journal.
    pub fn may_crash(&self, with_begun: bool) -> bool
        ensures { IsTrue result ↔ MayHappen self.now (Crash with_begun) }
    {
        self.is_up && (!with_begun || self.begun.is_some())
    }

    // The process has ended. Only the journal stays.
    fn forget(&mut self)
        ensures { self.new ≡ record (opened_on self.old.schema self.old.seats self.old.number
            self.old.journal) { is_up = false } }
    {
        self.found = self.journal.len();
        self.entries.clear();
        self.line.clear();
        set(&mut self.turn, None);
        self.fronts.fill(0);
        set(&mut self.begun, None);
        self.is_up = false;
    }

    /// The process ends. Only the journal stays, with what was begun where that is found in it.
    pub fn crash(&mut self, with_begun: bool) -> Mem<()>
        ensures ok { OnOk result (self.new ≡ crashed self.old with_begun) }
        ensures err { OnErr result (self.new ≡ self.old) }
    {
        self.journal.reserve(1)?;
        if with_begun {
            let begun = self.begun.take();
            push_some(&mut self.journal, begun);
        }
        self.forget();
        Ok(())
    }

    /// A new process is there, under this number.
    pub fn set_up(&mut self, number: u64)
        ensures { self.new ≡ record self.old { number = number; is_up = true } }
    {
        self.number = number;
        self.is_up = true;
    }
}
