//! Transactions: a plan is made, memory for all of it is taken, and then it is carried out in place.

ghost use Rattle.std.specs.Prelude.{◌≡◌, ◌<◌, ◌≤◌, IfSome, IsTrue, Ok as Well};
ghost use Rattle.lock_table.specs.Held.{is_live_number};
ghost use Rattle.transaction_core.specs.Plan.{Answers, IsTransaction, transaction};
ghost use Rattle.wfs_model.specs.OfSchema.{IsOfSchema};
ghost use Rattle.wfs_model.specs.Step.{unlocked};
ghost use Rattle.wfs_machine.specs.Told.{IsNext, Settles};
ghost use Rattle.wfs_machine.specs.Carried.{carried};

use crate::Plain;
use crate::playing::play_rows;
use feature_values::Rid;
use fes_filter::Steps;
use lock_table::{LockId, LockTable, Release};
use std::marker::Brand;
use std::sync::ledger::{Blank, Ledger};
use transaction_core::{PlanFault, Planned, plan};
use wfs_ends::{List, Mem, OutOfMemory};
use wfs_model::{Change, Reply, Request};

// Releases the lock that a transaction named, where it named one (OGC 09-025r2, section 15.2.3.1.3).
fn release_if(
    locks: &mut LockTable,
    moment: u64,
    lock: Option<LockId>,
    touched: &List<Rid>,
    how: Release,
)
    requires later { locks.old.last ≤ moment }
    requires live { IfSome lock (λ id. IsTrue (is_live_number locks.old.locks moment id.number)) }
    ensures locks { locks.new.locks ≡ unlocked locks.old.locks moment lock touched.now how }
    ensures opening { locks.new.opening ≡ locks.old.opening }
    ensures given { locks.new.given ≡ locks.old.given }
    ensures last { locks.new.last ≤ moment }
{
    if let Some(id) = lock {
        locks.release(id.number, touched, how, moment);
    }
}

// What a transaction comes to, with a counter of steps.
fn planned_under<L: Ledger>(
    machine: &Plain,
    moment: u64,
    request: &Request,
    blank: Blank,
) -> Result<Planned, PlanFault>
    requires transaction { IsTransaction request.now }
    requires fitting { IsOfSchema machine.now.schema request.now }
    requires later { machine.now.state.last ≤ moment }
    requires name { blank.name ≡ L.name }
    requires parts { blank.parts ≡ L.parts }
    requires some { 0 < blank.parts }
    ensures { Answers result (transaction machine.now.schema machine.now.state moment request.now) }
{
    let mut steps = Steps::<L>::new(blank);
    plan(
        machine.alloc,
        machine,
        &machine.schema,
        &machine.counters,
        &machine.locks,
        request,
        moment,
        &mut steps,
    )
}

impl Plain {
    /// What a transaction comes to, or why it is refused. Nobody counts the steps.
    pub(crate) fn planned(&self, moment: u64, request: &Request) -> Result<Planned, PlanFault>
        requires transaction { IsTransaction request.now }
        requires fitting { IsOfSchema self.now.schema request.now }
        requires later { self.now.state.last ≤ moment }
        ensures { Answers result (transaction self.now.schema self.now.state moment request.now) }
    {
        planned_under::<Brand>(self, moment, request, Blank::new(1))
    }

    // Carries out what a transaction comes to. Its memory is taken first, and then nothing can fail.
    fn carry_out(&mut self, moment: u64, request: &Request, planned: Planned) -> Mem<Reply>
        requires next { IsNext self.old.state moment }
        requires fitting { IsOfSchema self.old.schema request.now }
        requires planned { transaction self.old.schema self.old.state moment request.now
            ≡ Well planned }
        ensures { Settles self.old moment (carried self.old.schema self.old.state moment
            request.now) result self.new }
    {
        // what is given up is dropped by calls, which know nothing of its parts
        let Request::Transact { lock, release, .. } = request else {
            drop(planned);
            return Err(OutOfMemory);
        };
        let Planned {
            change,
            reply,
            touched,
        } = planned;
        let Change::Rows(parts) = change else {
            drop((change, reply, touched));
            return Err(OutOfMemory);
        };
        let Ok(()) = self.features.reserve(parts.items().len()) else {
            drop((parts, reply, touched));
            return Err(OutOfMemory);
        };
        play_rows(self.alloc, &mut self.features, &mut self.counters, parts);
        release_if(&mut self.locks, moment, *lock, &touched, *release);
        self.last = moment;
        drop(touched);
        Ok(reply)
    }

    /// Carries a transaction out (OGC 09-025r2, section 15).
    pub(crate) fn transact(&mut self, moment: u64, request: &Request) -> Mem<Reply>
        requires next { IsNext self.old.state moment }
        requires transaction { IsTransaction request.now }
        requires fitting { IsOfSchema self.old.schema request.now }
        ensures { Settles self.old moment (carried self.old.schema self.old.state moment
            request.now) result self.new }
    {
        match self.planned(moment, request) {
            Ok(planned) => self.carry_out(moment, request, planned),
            Err(fault) => self.fail(moment, fault),
        }
    }
}
