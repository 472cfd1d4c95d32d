//! Steps that take locks and renew them.

ghost use Rattle.std.specs.Prelude.{◌≡◌, ◌≤◌, IfOk, OnOk, OnErr, IsTrue, Result};
ghost use Rattle.lock_table.specs.Held.{is_live_number, features_of};
ghost use Rattle.lock_table.specs.Steps.{renewed};
ghost use Rattle.transaction_core.specs.Plan.{Answers};
ghost use Rattle.wfs_model.specs.declared.reply.Refusal.{Refusal};
ghost use Rattle.wfs_model.specs.Locking.{named, lock_on, locked};
ghost use Rattle.wfs_model.specs.Refusals.{or_refused};
ghost use Rattle.wfs_model.specs.Step.{Done, lock_taken, page_locked, lock_renewed};
ghost use Rattle.stored_queries.specs.Meant.{asked_selected};
ghost use Rattle.wfs_machine.specs.Told.{AreFree, IsNext, IsSaid, Settles};

use crate::Plain;
use crate::dividing::divide;
use crate::naming::{number_by, refused_by};
use feature_values::Rid;
use lock_table::LockId;
use std::alloc::Global;
use stored_queries::{held, page, select_asked};
use transaction_core::PlanFault;
use wfs_ends::{List, Mem, OutOfMemory};
use wfs_model::{Asked, Present, Reply, Take};

// Equal identifiers, in a list of their own.
fn copied(alloc: Global, ids: &[Rid]) -> Mem<List<Rid>>
    ensures { IfOk result (λ all. all ≡ ids.now) }
{
    Ok(List::of(Vec::from_slice(alloc, ids)?))
}

impl Plain {
    /// Where a fault is a refusal, it is the reply, and changes the last moment alone.
    pub(crate) fn fail(&mut self, moment: u64, fault: PlanFault) -> Mem<Reply>
        requires { IsNext self.old.state moment }
        ensures { (said : Result Done Refusal) → IsSaid fault said
            → Settles self.old moment said result self.new }
    {
        match fault {
            PlanFault::Refused(refusal) => {
                self.last = moment;
                Ok(Reply::Refused(refusal))
            }
            PlanFault::OutOfMemory => Err(OutOfMemory),
        }
    }

    // The identifiers of the features that are asked for.
    fn selected(&self, asked: &[Asked]) -> Result<List<Rid>, PlanFault>
        ensures { Answers result (or_refused (asked_selected self.now.schema self.now.state.stored
            self.now.state.features asked.now)) }
    {
        match select_asked(self.alloc, self, self.stored.list(), &self.schema, asked) {
            Ok(ids) => Ok(ids),
            Err(fault) => Err(refused_by(self.alloc, fault)),
        }
    }

    // The number of the lock that an identifier names, which has to be live.
    fn named(&self, moment: u64, id: LockId) -> Result<u64, PlanFault>
        requires { self.now.state.last ≤ moment }
        ensures { Answers result (named self.now.state moment id) }
    {
        number_by(self.alloc, id, self.locks.status(id, moment))
    }

    // Takes a lock on features that no lock holds, where they are some.
    #[tactic(auto, unfolding(wfs_model::specs::Locking::lock_on, wfs_model::specs::Locking::locked))]
    fn take_lock(&mut self, moment: u64, period: u32, taken: List<Rid>) -> Mem<Option<LockId>>
        requires next { IsNext self.old.state moment }
        requires free { AreFree self.old.state.locks moment taken }
        ensures lock { IfOk result (λ lock. lock ≡ lock_on self.old.state taken) }
        ensures state { OnOk result (self.new.state
            ≡ record (locked self.old.state moment period taken) { last = moment }) }
        ensures err { OnErr result (self.new ≡ self.old) }
        ensures schema { self.new.schema ≡ self.old.schema }
    {
        let features = taken.items().len() as u64;
        if features == 0 {
            self.last = moment;
            return Ok(None);
        }
        if self.given == u64::MAX {
            return Err(OutOfMemory);
        }
        match self.locks.reserve(features, moment, u64::MAX) {
            Ok(()) => (),
            Err(_) => return Err(OutOfMemory),
        }
        self.given = self.locks.grant(taken, moment, period);
        self.last = moment;
        Ok(Some(LockId {
            opening: self.opening,
            number: self.given,
        }))
    }

    // Renews a lock that is live, and tells its features.
    fn renew_lock(&mut self, moment: u64, number: u64, period: Option<u32>) -> Mem<List<Rid>>
        requires next { IsNext self.old.state moment }
        requires live { IsTrue (is_live_number self.old.state.locks moment number) }
        ensures features { IfOk result (λ features. features
            ≡ features_of self.old.state.locks number) }
        ensures state { OnOk result (self.new.state
            ≡ record self.old.state {
              locks = renewed moment number period self.old.state.locks;
              last = moment;
            }) }
        ensures err { OnErr result (self.new ≡ self.old) }
        ensures schema { self.new.schema ≡ self.old.schema }
    {
        let features = copied(self.alloc, self.locks.features_of(number))?;
        self.locks.renew(number, moment, period);
        self.last = moment;
        Ok(features)
    }

    /// Takes a lock on what is asked (OGC 09-025r2, section 12).
    pub(crate) fn lock(
        &mut self,
        moment: u64,
        asked: &[Asked],
        take: Take,
        period: u32,
    ) -> Mem<Reply>
        requires next { IsNext self.old.state moment }
        ensures { Settles self.old moment (lock_taken self.old.schema self.old.state moment
            asked.now take period) result self.new }
    {
        let ids = match self.selected(asked) {
            Ok(ids) => ids,
            Err(fault) => return self.fail(moment, fault),
        };
        let division = match divide(self.alloc, &self.schema, &self.locks, moment, take, ids) {
            Ok(division) => division,
            Err(fault) => return self.fail(moment, fault),
        };
        let taken = copied(self.alloc, division.taken.items())?;
        let lock = self.take_lock(moment, period, taken)?;
        Ok(Reply::Locked {
            lock,
            taken: division.taken,
            missed: division.missed,
        })
    }

    /// Takes a lock on a page of what is asked, and presents what it takes (OGC 09-025r2, section 13).
    pub(crate) fn lock_page(
        &mut self,
        moment: u64,
        present: &Present,
        asked: &[Asked],
        take: Take,
        period: u32,
    ) -> Mem<Reply>
        requires next { IsNext self.old.state moment }
        ensures { Settles self.old moment (page_locked self.old.schema self.old.state moment
            present.now asked.now take period) result self.new }
    {
        let ids = match self.selected(asked) {
            Ok(ids) => ids,
            Err(fault) => return self.fail(moment, fault),
        };
        let matched = ids.items().len() as u64;
        let shown = copied(self.alloc, page(ids.items(), present.start, present.count))?;
        let division = match divide(self.alloc, &self.schema, &self.locks, moment, take, shown) {
            Ok(division) => division,
            Err(fault) => return self.fail(moment, fault),
        };
        let features = held(self.alloc, self, division.taken.items())?;
        let lock = self.take_lock(moment, period, division.taken)?;
        Ok(Reply::Collection {
            moment,
            matched,
            features,
            lock,
            next: None,
            previous: None,
        })
    }

    /// Gives a lock a new deadline (OGC 09-025r2, section 12.2.4.2).
    pub(crate) fn renew(&mut self, moment: u64, id: LockId, period: Option<u32>) -> Mem<Reply>
        requires next { IsNext self.old.state moment }
        ensures { Settles self.old moment (lock_renewed self.old.state moment id period) result
            self.new }
    {
        let number = match self.named(moment, id) {
            Ok(number) => number,
            Err(fault) => return self.fail(moment, fault),
        };
        let taken = self.renew_lock(moment, number, period)?;
        Ok(Reply::Locked {
            lock: Some(id),
            taken,
            missed: List::of(Vec::new(self.alloc)),
        })
    }
}
