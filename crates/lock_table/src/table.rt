//! The table of locks: what holds a feature, and how locks are granted, renewed, released and ended.

ghost use Rattle.std.specs.Prelude.{◌≡◌, ◌+◌, ◌*◌, ◌<◌, ◌≤◌, [], nat_le, IsTrue, IfErr, OnOk, All, None, Err, length};
ghost use Rattle.std.specs.HashMap.{spare};
ghost use Rattle.lock_table.specs.declared.words.LockFault.TheVariants.{Full, OutOfMemory};
ghost use Rattle.lock_table.specs.declared.words.Release.TheVariants.{Whole, Touched};
ghost use Rattle.lock_table.specs.Held.{live, holder, first_held, is_live_number, status, features_of, feature_count, HaveOneHolder, AreNumbered};
ghost use Rattle.lock_table.specs.Kept.{number_at, AreKept};
ghost use Rattle.lock_table.specs.Steps.{granted, renewed, released};

use crate::deadlines::Deadlines;
use crate::holders::Holders;
use crate::id::LockId;
use crate::kept::KeptLock;
use crate::words::{LockFault, LockStatus, Release};
use crate::{noted, numbered, swept};
use feature_values::Rid;
use std::alloc::{AllocError, Global};
use std::marker::Model;
use wfs_ends::List;

/// Who holds what in one opening of the service (OGC 09-025r2, 12). A moment is in seconds since 1970. The last
/// moment given is the greatest that `grant`, `renew` or `release` got, and no call may get a lesser one. Contracts
/// see the locks that are live at this moment, the opening, how many locks were granted, how many features the next
/// lock may have, for which `reserve` has made room, how many locks have a place in memory, with those that have
/// ended, how many features these list, and how many features have an entry in the map by feature. After `grant`,
/// `renew` and `release` the latter two are at most what the live locks list. No two live locks list one feature.
#[derive(Drop)]
pub struct LockTable {
    // by rising numbers; those that have ended stay, with no features, until `reserve` takes them out
    locks: Vec<KeptLock>,
    holders: Holders,
    deadlines: Deadlines,
    // how many of the locks have not been ended
    standing: u64,
    opening: u64,
    given: u64,
    last: u64,
    spare: u64,
}

impl Model for LockTable {
    ghost use Rattle.std.specs.Vec.{vec_len, vec_capacity};
    ghost use Rattle.std.specs.HashMap.{spare as room, hash_map_len};
    ghost use Rattle.std.specs.Prelude.{◌≡◌, length};
    ghost use Rattle.std.specs.BinaryHeap.{heap_items, heap_capacity};
    ghost use Rattle.lock_table.specs.Queue.{AreQueued};
    ghost use Rattle.lock_table.specs.Lock.{Locks};
    ghost use Rattle.lock_table.specs.Held.{live, feature_count};
    ghost use Rattle.lock_table.specs.Kept.{number_at, AreKept, HasRoom};

    ghost Value = { Locks };

    ghost view = { λ t. record {
      locks = live t.last t.locks.items;
      opening = t.opening;
      given = t.given;
      last = t.last;
      spare = t.spare;
      kept = vec_len t.locks;
      listed = feature_count t.locks.items;
      mapped = hash_map_len t.holders.numbers;
    } };

    ghost invariant = { λ t. AreKept t.last t.given (number_at t.holders.numbers) t.locks.items
        × HasRoom t.spare (room t.holders.numbers) (vec_len t.locks) (vec_capacity t.locks)
        (heap_capacity t.deadlines.queue) × AreQueued (heap_items t.deadlines.queue) t.locks.items
        × (t.standing ≡ length (live 0 t.locks.items)) };
}

impl LockTable {
    /// The table of an opening, with no locks. It takes no memory.
    pub fn new(alloc: Global, opening: u64) -> LockTable
        ensures locks { result.locks ≡ [] }
        ensures opening { result.opening ≡ opening }
        ensures given { result.given ≡ 0 }
        ensures last { result.last ≡ 0 }
        ensures spare { result.spare ≡ 0 }
        ensures kept { result.kept ≡ 0 }
        ensures listed { result.listed ≡ 0 }
        ensures mapped { result.mapped ≡ 0 }
    {
        LockTable {
            locks: Vec::new(alloc),
            holders: Holders::new(alloc),
            deadlines: Deadlines::new(alloc),
            standing: 0,
            opening,
            given: 0,
            last: 0,
            spare: 0,
        }
    }

    /// The number of the lock that holds a feature at a moment.
    pub fn holder(&self, feature: Rid, moment: u64) -> Option<u64>
        requires { self.now.last ≤ moment }
        ensures value { result ≡ holder self.now.locks moment feature }
        ensures one { HaveOneHolder self.now.locks }
        ensures numbers { AreNumbered self.now.given self.now.locks }
    {
        numbered::holder(self.locks.as_slice(), &self.holders, moment, &feature)
    }

    /// The first of these features that a lock holds at a moment.
    pub fn first_held(&self, features: &List<Rid>, moment: u64) -> Option<Rid>
        requires { self.now.last ≤ moment }
        ensures { result ≡ first_held self.now.locks moment features.now }
    {
        self.first_among(features.items(), moment)
    }

    fn first_among(&self, features: &[Rid], moment: u64) -> Option<Rid>
        requires { self.now.last ≤ moment }
        ensures { result ≡ first_held self.now.locks moment features.now }
    {
        for feature in features {
            if self.holder(*feature, moment).is_some() {
                return Some(*feature);
            }
        }
        None
    }

    // Whether a number is that of a lock that is live at a moment.
    fn is_live(&self, number: u64, moment: u64) -> bool
        requires { self.now.last ≤ moment }
        ensures { result ≡ is_live_number self.now.locks moment number }
    {
        numbered::is_live_number(self.locks.as_slice(), moment, number)
    }

    /// What an identifier stands for at a moment.
    pub fn status(&self, id: LockId, moment: u64) -> LockStatus
        requires { self.now.last ≤ moment }
        ensures { result ≡ status self.now.opening self.now.given self.now.locks moment id }
    {
        if id.opening > self.opening {
            return LockStatus::NeverGiven;
        }
        if id.opening < self.opening {
            return LockStatus::Expired;
        }
        if id.number == 0 || id.number > self.given {
            return LockStatus::NeverGiven;
        }
        if self.is_live(id.number, moment) {
            LockStatus::Live
        } else {
            LockStatus::Expired
        }
    }

    /// The features of a lock that is live at the last moment given, in the order in which they were taken.
    pub fn features_of(&self, number: u64) -> &[Rid]
        requires { IsTrue (is_live_number self.now.locks self.now.last number) }
        ensures { result.now ≡ features_of self.now.locks number }
    {
        numbered::features_of(self.locks.as_slice(), number)
    }

    /// Makes room for a lock of so many features, where fewer than `limit` locks are live at the moment. No other call
    /// takes memory. It ends no lock, and its moment does not count as given. It gives back the memory of what has ended:
    /// whatever it answers, of the locks that it leaves a place at most half have ended.
    ///
    /// # Errors
    ///
    /// `Full`, with the number of live locks, where that is `limit` or more, and `OutOfMemory`.
    pub fn reserve(&mut self, features: u64, moment: u64, limit: u64) -> Result<(), LockFault>
        requires { self.old.last ≤ moment }
        ensures full { limit ≤ length (live moment self.old.locks)
            → result ≡ Err (Full (length (live moment self.old.locks))) }
        ensures free { length (live moment self.old.locks) < limit
            → IfErr result (λ fault. fault ≡ OutOfMemory) }
        ensures room { OnOk result (features ≤ self.new.spare) }
        ensures same { self.new ≡ record self.old {
          spare = self.new.spare;
          kept = self.new.kept;
          listed = self.new.listed;
          mapped = self.new.mapped;
        } }
        ensures kept { self.old.spare ≤ self.new.spare }
        ensures few { self.new.kept ≤ 2 * length self.new.locks }
        ensures listed { self.new.listed ≤ self.old.listed }
        ensures mapped { self.new.mapped ≤ self.old.mapped }
    {
        self.clear_out();
        if self.spare == 0 {
            self.shrink();
        }
        let live = self.live_count(moment);
        if limit <= live {
            return Err(LockFault::Full(live));
        }
        self.make_room(features)?;
        Ok(())
    }

    // Takes out the locks that have ended, where they are many.
    fn clear_out(&mut self)
        ensures same { self.new ≡ record self.old {
          kept = self.new.kept;
          listed = self.new.listed;
          mapped = self.new.mapped;
        } }
        ensures few { self.new.kept ≤ 2 * length self.new.locks }
        ensures listed { self.new.listed ≤ self.old.listed }
        ensures mapped { self.new.mapped ≤ self.old.mapped }
    {
        if self.is_stale() {
            self.sweep();
        }
    }

    // Takes out the locks that have ended.
    fn sweep(&mut self)
        ensures same { self.new ≡ record self.old {
          kept = length self.old.locks;
          listed = self.new.listed;
          mapped = self.new.mapped;
        } }
        ensures listed { self.new.listed ≤ self.old.listed }
        ensures mapped { self.new.mapped ≤ self.old.mapped }
    {
        swept::sweep(&mut self.holders, &mut self.locks, self.last);
        self.standing = self.locks.as_slice().len() as u64;
    }

    // Gives back room that is not needed. None may have been promised.
    fn shrink(&mut self)
        requires { self.old.spare ≡ 0 }
        ensures { self.new ≡ self.old }
    {
        self.holders.shrink();
        swept::shrink(&mut self.locks);
        self.deadlines.shrink(self.locks.len());
    }

    // Whether half of the locks that are kept have ended.
    fn is_stale(&self) -> bool
        ensures { result ≡ nat_le (2 * length self.now.locks) self.now.kept }
    {
        2 * u128::from(self.live_now()) <= self.locks.len() as u128
    }

    fn live_now(&self) -> u64
        ensures { result ≡ length self.now.locks }
    {
        self.live_count(self.last)
    }

    fn live_count(&self, moment: u64) -> u64
        requires { self.now.last ≤ moment }
        ensures { result ≡ length (live moment self.now.locks) }
    {
        if self.deadlines.is_due(moment) {
            swept::live_count(self.locks.as_slice(), moment)
        } else {
            self.standing
        }
    }

    fn make_room(&mut self, features: u64) -> Result<(), AllocError>
        ensures room { OnOk result (features ≤ self.new.spare) }
        ensures same { self.new ≡ record self.old { spare = self.new.spare } }
        ensures kept { self.old.spare ≤ self.new.spare }
    {
        self.holders.reserve(features as usize)?;
        self.locks.reserve(1)?;
        self.deadlines.reserve(self.locks.len() + 1)?;
        if self.spare < features {
            self.spare = features;
        }
        Ok(())
    }

    /// Grants a lock on features for a period in seconds, and answers its number: one more than the locks granted so
    /// far. The lock is live until the moment plus the period. The room that was made is used up.
    pub fn grant(&mut self, features: List<Rid>, moment: u64, period: u32) -> u64
        requires moment { self.old.last ≤ moment }
        requires some { 0 < length features }
        requires free { All (λ feature. holder self.old.locks moment feature ≡ None) features }
        requires room { length features ≤ self.old.spare }
        requires numbers { self.old.given < 18_446_744_073_709_551_615 }
        ensures number { result ≡ self.old.given + 1 }
        ensures locks { self.new.locks ≡ granted moment self.old.given features period
            self.old.locks }
        ensures opening { self.new.opening ≡ self.old.opening }
        ensures given { self.new.given ≡ self.old.given + 1 }
        ensures last { self.new.last ≡ moment }
        ensures spare { self.new.spare ≡ 0 }
        ensures kept { self.new.kept ≡ self.old.kept + 1 }
        ensures listed { self.new.listed ≡ feature_count self.new.locks }
        ensures mapped { self.new.mapped ≤ feature_count self.new.locks }
    {
        self.add_lock(features, moment, period);
        self.expire();
        self.given
    }

    fn add_lock(&mut self, features: List<Rid>, moment: u64, period: u32)
        requires moment { self.old.last ≤ moment }
        requires some { 0 < length features }
        requires free { All (λ feature. holder self.old.locks moment feature ≡ None) features }
        requires room { length features ≤ self.old.spare }
        requires numbers { self.old.given < 18_446_744_073_709_551_615 }
        ensures { self.new ≡ record self.old {
          locks = granted moment self.old.given features period
              self.old.locks;
          given = self.old.given + 1;
          last = moment;
          spare = 0;
          kept = self.old.kept + 1;
          listed = self.new.listed;
          mapped = self.new.mapped;
        } }
    {
        let number = self.given + 1;
        self.holders.give(features.items(), number);
        let lock = KeptLock::new(number, features.into_items(), period, moment);
        self.standing += lock.live_count(0);
        numbered::push(&mut self.locks, lock);
        noted::note(&mut self.deadlines, self.locks.as_slice(), number);
        self.given = number;
        self.last = moment;
        self.spare = 0;
    }

    /// Gives a live lock a period in seconds, or leaves it its own where none is given. The period counts from the
    /// moment on.
    pub fn renew(&mut self, number: u64, moment: u64, period: Option<u32>)
        requires moment { self.old.last ≤ moment }
        requires live { IsTrue (is_live_number self.old.locks moment number) }
        ensures locks { self.new.locks ≡ renewed moment number period self.old.locks }
        ensures opening { self.new.opening ≡ self.old.opening }
        ensures given { self.new.given ≡ self.old.given }
        ensures last { self.new.last ≡ moment }
        ensures spare { self.new.spare ≡ self.old.spare }
        ensures kept { self.new.kept ≡ self.old.kept }
        ensures listed { self.new.listed ≡ feature_count self.new.locks }
        ensures mapped { self.new.mapped ≤ feature_count self.new.locks }
    {
        self.renew_lock(number, moment, period);
        self.expire();
    }

    fn renew_lock(&mut self, number: u64, moment: u64, period: Option<u32>)
        requires moment { self.old.last ≤ moment }
        requires live { IsTrue (is_live_number self.old.locks moment number) }
        ensures { self.new ≡ record self.old {
          locks = renewed moment number period self.old.locks;
          last = moment;
          listed = self.new.listed;
          mapped = self.new.mapped;
        } }
    {
        numbered::renew(&mut self.locks, number, moment, period);
        noted::note(&mut self.deadlines, self.locks.as_slice(), number);
        self.standing = numbered::left_standing(self.locks.as_slice(), number, self.standing);
        self.last = moment;
    }

    /// Releases a live lock: the whole of it, or the touched features (OGC 09-025r2, 15.2.3.1.3). The period of what
    /// remains counts from the moment on, and where nothing remains the lock ends.
    pub fn release(&mut self, number: u64, touched: &List<Rid>, how: Release, moment: u64)
        requires moment { self.old.last ≤ moment }
        requires live { IsTrue (is_live_number self.old.locks moment number) }
        ensures locks { self.new.locks ≡ released moment number touched.now how self.old.locks }
        ensures opening { self.new.opening ≡ self.old.opening }
        ensures given { self.new.given ≡ self.old.given }
        ensures last { self.new.last ≡ moment }
        ensures spare { self.new.spare ≡ self.old.spare }
        ensures kept { self.new.kept ≡ self.old.kept }
        ensures listed { self.new.listed ≡ feature_count self.new.locks }
        ensures mapped { self.new.mapped ≤ feature_count self.new.locks }
    {
        match how {
            Release::Whole => self.release_whole(number, touched.items(), moment),
            Release::Touched => self.release_touched(number, touched.items(), moment),
        }
        self.expire();
    }

    // `touched` has no say in what is released.
    fn release_whole(&mut self, number: u64, touched: &[Rid], moment: u64)
        requires moment { self.old.last ≤ moment }
        requires live { IsTrue (is_live_number self.old.locks moment number) }
        ensures { self.new ≡ record self.old {
          locks = released moment number touched.now Whole
              self.old.locks;
          last = moment;
          listed = self.new.listed;
          mapped = self.new.mapped;
        } }
    {
        let _ = touched;
        let features = numbered::features_of(self.locks.as_slice(), number);
        self.holders.free(features, number);
        numbered::end(&mut self.locks, number);
        self.standing = numbered::left_standing(self.locks.as_slice(), number, self.standing);
        self.last = moment;
    }

    fn release_touched(&mut self, number: u64, touched: &[Rid], moment: u64)
        requires moment { self.old.last ≤ moment }
        requires live { IsTrue (is_live_number self.old.locks moment number) }
        ensures { self.new ≡ record self.old {
          locks = released moment number touched.now Touched
              self.old.locks;
          last = moment;
          listed = self.new.listed;
          mapped = self.new.mapped;
        } }
    {
        self.holders.free(touched, number);
        numbered::leave(&mut self.locks, number, moment, &self.holders);
        noted::note(&mut self.deadlines, self.locks.as_slice(), number);
        self.standing = numbered::left_standing(self.locks.as_slice(), number, self.standing);
        self.last = moment;
    }

    // Ends the locks whose deadline has come, and gives back the memory of what they held. An entry of a lock that has
    // been renewed since gives way to one at its deadline.
    fn expire(&mut self)
        ensures same { self.new ≡ record self.old {
          listed = self.new.listed;
          mapped = self.new.mapped;
        } }
        ensures listed { self.new.listed ≡ feature_count self.new.locks }
        ensures mapped { self.new.mapped ≤ feature_count self.new.locks }
    {
        while let Some(number) = self.deadlines.pop_due(self.last) {
            if numbered::is_live_number(self.locks.as_slice(), self.last, number) {
                noted::note_one(&mut self.deadlines, self.locks.as_slice(), number);
            } else {
                let features = numbered::features_of(self.locks.as_slice(), number);
                self.holders.free(features, number);
                self.standing = numbered::standing_without(
                    self.locks.as_slice(),
                    number,
                    self.standing,
                );
                numbered::end(&mut self.locks, number);
            }
        }
    }
}
