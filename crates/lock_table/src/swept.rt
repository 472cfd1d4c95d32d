//! Locks that have ended are taken out, with what they held.

ghost use Rattle.std.specs.Prelude.{◌≡◌, ◌≤◌, ℕ, length};
ghost use Rattle.std.specs.HashMap.{spare, hash_map_len};
ghost use Rattle.std.specs.List.{AllByRecursion};
ghost use Rattle.std.specs.Vec.{vec_len, vec_capacity};
ghost use Rattle.lock_table.specs.Held.{live, feature_count};
ghost use Rattle.lock_table.specs.Kept.{number_at, freed_of, ended_features, IsFreed, AreKept};

use crate::holders::Holders;
use crate::kept::KeptLock;

// Frees what a lock lists, where it has ended.
fn free_if_ended(holders: &mut Holders, lock: &KeptLock, last: u64)
    ensures freed { (f : _) → number_at holders.new.numbers f
        ≡ freed_of lock.now.number (ended_features last lock.now) (number_at holders.old.numbers)
        f }
    ensures mapped { hash_map_len holders.new.numbers ≤ hash_map_len holders.old.numbers }
    ensures room { spare holders.old.numbers ≤ spare holders.new.numbers }
{
    if !lock.is_live(last) {
        holders.free(lock.features(), lock.number());
    }
}

fn free_ended(holders: &mut Holders, locks: &[KeptLock], last: u64)
    ensures kept { (given : ℕ) → AreKept last given (number_at holders.old.numbers) locks.now
        → AreKept last given (number_at holders.new.numbers) locks.now }
    ensures freed { AllByRecursion (IsFreed last (number_at holders.new.numbers)) locks.now }
    ensures mapped { hash_map_len holders.new.numbers ≤ hash_map_len holders.old.numbers }
    ensures room { spare holders.old.numbers ≤ spare holders.new.numbers }
{
    for lock in locks {
        free_if_ended(holders, lock, last);
    }
}

// Gives back the memory of the locks that have ended.
pub fn sweep(holders: &mut Holders, locks: &mut Vec<KeptLock>, last: u64)
    ensures locks { locks.new.items ≡ live last locks.old.items }
    ensures kept { (given : ℕ) → AreKept last given (number_at holders.old.numbers) locks.old.items
        → AreKept last given (number_at holders.new.numbers) locks.new.items }
    ensures listed { feature_count locks.new.items ≤ feature_count locks.old.items }
    ensures mapped { hash_map_len holders.new.numbers ≤ hash_map_len holders.old.numbers }
    ensures room { spare holders.old.numbers ≤ spare holders.new.numbers }
    ensures len { vec_len locks.new ≤ vec_len locks.old }
    ensures capacity { vec_capacity locks.new ≡ vec_capacity locks.old }
{
    free_ended(holders, locks.as_slice(), last);
    locks.retain(|lock| lock.is_live(last));
}

// Gives back room, where there is much of it.
pub fn shrink(locks: &mut Vec<KeptLock>)
    ensures items { locks.new.items ≡ locks.old.items }
    ensures len { vec_len locks.new ≡ vec_len locks.old }
{
    if locks.capacity() / 4 > locks.len() {
        locks.shrink_to_fit();
    }
}

pub fn live_count(locks: &[KeptLock], moment: u64) -> u64
    ensures { result ≡ length (live moment locks.now) }
{
    let mut count: u64 = 0;
    for lock in locks {
        count += lock.live_count(moment);
    }
    count
}
