//! Which calls of an end in memory fail.

ghost use Rattle.std.specs.Prelude.{◌≡◌, ◌↔◌, if◌then◌else◌, IsTrue, Contains};
ghost use Rattle.service_doors.specs.Memory.{new_calls, passed, refused};

use std::marker::Model;

/// The calls of an end in memory: how many there were, which fail, and how many did.
#[derive(Drop)]
pub struct Calls {
    made: u64,
    failing: Vec<u64>,
    faults: u64,
}

impl Model for Calls {
    ghost use Rattle.service_doors.specs.Memory.{Turns};

    ghost Value = { Turns };

    ghost view = { λ c. record { made = c.made; failing = c.failing.items; faults = c.faults } };
}

impl Calls {
    /// No call yet. Those whose numbers, counted from 0, are listed will fail.
    pub fn of(failing: Vec<u64>) -> Calls
        ensures { result ≡ new_calls failing.items }
    {
        Calls {
            made: 0,
            failing,
            faults: 0,
        }
    }

    /// Counts a call, and says whether it is one that fails. A number past the last u64 is the last one.
    pub fn fails(&mut self) -> bool
        ensures exact { IsTrue result ↔ Contains self.old.failing self.old.made }
        ensures counted { self.new ≡ (if result then refused self.old else passed self.old) }
    {
        let call = self.made;
        self.made = call.saturating_add(1);
        let is_listed = self.failing.contains(&call);
        if is_listed {
            self.faults = self.faults.saturating_add(1);
        }
        is_listed
    }
}
