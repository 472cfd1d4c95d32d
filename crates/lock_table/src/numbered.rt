//! Locks found and changed by their numbers, among locks whose numbers rise.

ghost use Rattle.std.specs.Prelude.{◌≡◌, ◌+◌, ◌<◌, ◌≤◌, cond, MatchOption, length, true, false, HoldsAt, ◌++◌, [], ◌∷◌};
ghost use Rattle.std.specs.Vec.{vec_len, vec_capacity};
ghost use Rattle.std.specs.List.{AllByRecursion};
ghost use Rattle.lock_table.specs.Kept.{number_at, holder_by, ended, left_by};
ghost use Rattle.lock_table.specs.Steps.{renewed_lock, changed_at};
ghost use Rattle.lock_table.specs.Held.{has_number, is_live_number, features_of, IsRising};

use crate::holders::Holders;
use crate::kept::KeptLock;
use feature_values::Rid;

// Where the lock with a number stands among locks whose numbers rise.
pub fn place(locks: &[KeptLock], number: u64) -> Option<usize>
    requires { IsRising 0 locks.now }
    ensures { MatchOption result (AllByRecursion (λ lock. has_number number lock ≡ false) locks.now)
        (λ i. (i < length locks.now) × HoldsAt (λ lock. lock.number ≡ number) locks.now i) }
{
    locks
        .binary_search_by_key(&number, |lock| lock.number())
        .ok()
}

pub fn is_live_number(locks: &[KeptLock], moment: u64, number: u64) -> bool
    requires { IsRising 0 locks.now }
    ensures { result ≡ is_live_number locks.now moment number }
{
    match place(locks, number) {
        Some(i) => locks[i].is_live(moment),
        None => false,
    }
}

// How many locks have not been ended, where so many were before a change of the lock with this number.
pub fn left_standing(locks: &[KeptLock], number: u64, before: u64) -> u64
    requires rising { IsRising 0 locks.now }
    requires some { is_live_number locks.now 0 number ≡ false → 1 ≤ before }
    ensures { result + 1 ≡ before + cond (is_live_number locks.now 0 number) 1 0 }
{
    if is_live_number(locks, 0, number) {
        before
    } else {
        before - 1
    }
}

// How many locks have not been ended, where so many had not before the lock with this number is.
pub fn standing_without(locks: &[KeptLock], number: u64, before: u64) -> u64
    requires rising { IsRising 0 locks.now }
    requires some { is_live_number locks.now 0 number ≡ true → 1 ≤ before }
    ensures { result + cond (is_live_number locks.now 0 number) 1 0 ≡ before }
{
    if is_live_number(locks, 0, number) {
        before - 1
    } else {
        before
    }
}

// The number of the live lock that the map has at a feature.
pub fn holder(locks: &[KeptLock], holders: &Holders, moment: u64, feature: &Rid) -> Option<u64>
    requires { IsRising 0 locks.now }
    ensures { result ≡ holder_by locks.now moment (number_at holders.now.numbers feature.now) }
{
    match holders.number_of(feature) {
        Some(number) if is_live_number(locks, moment, number) => Some(number),
        _ => None,
    }
}

pub fn features_of(locks: &[KeptLock], number: u64) -> &[Rid]
    requires { IsRising 0 locks.now }
    ensures { result.now ≡ features_of locks.now number }
{
    match place(locks, number) {
        Some(i) => locks[i].features(),
        None => &[],
    }
}

// Adds a lock, for which there is room.
pub fn push(locks: &mut Vec<KeptLock>, lock: KeptLock)
    requires { vec_len locks.old < vec_capacity locks.old }
    ensures items { locks.new.items ≡ locks.old.items ++ lock ∷ [] }
    ensures len { vec_len locks.new ≡ vec_len locks.old + 1 }
{
    match locks.push(lock) {
        Ok(()) => (),
        Err(_) => unreachable!(),
    }
}

fn renew_among(locks: &mut [KeptLock], number: u64, moment: u64, period: Option<u32>)
    requires { IsRising 0 locks.old }
    ensures { locks.new ≡ changed_at number (renewed_lock moment period) locks.old }
{
    match place(locks, number) {
        Some(i) => locks[i].renew(moment, period),
        None => (),
    }
}

pub fn renew(locks: &mut Vec<KeptLock>, number: u64, moment: u64, period: Option<u32>)
    requires { IsRising 0 locks.old.items }
    ensures items { locks.new.items ≡ changed_at number (renewed_lock moment period)
        locks.old.items }
    ensures len { vec_len locks.new ≡ vec_len locks.old }
    ensures capacity { vec_capacity locks.new ≡ vec_capacity locks.old }
{
    renew_among(locks.as_mut_slice(), number, moment, period);
}

fn leave_among(locks: &mut [KeptLock], number: u64, moment: u64, holders: &Holders)
    requires { IsRising 0 locks.old }
    ensures { locks.new ≡ changed_at number (left_by moment (number_at holders.now.numbers))
        locks.old }
{
    match place(locks, number) {
        Some(i) => locks[i].leave(moment, holders),
        None => (),
    }
}

// A lock keeps what it holds by the map.
pub fn leave(locks: &mut Vec<KeptLock>, number: u64, moment: u64, holders: &Holders)
    requires { IsRising 0 locks.old.items }
    ensures items { locks.new.items ≡ changed_at number
        (left_by moment (number_at holders.now.numbers)) locks.old.items }
    ensures len { vec_len locks.new ≡ vec_len locks.old }
    ensures capacity { vec_capacity locks.new ≡ vec_capacity locks.old }
{
    leave_among(locks.as_mut_slice(), number, moment, holders);
}

fn end_among(locks: &mut [KeptLock], number: u64)
    requires { IsRising 0 locks.old }
    ensures { locks.new ≡ changed_at number ended locks.old }
{
    match place(locks, number) {
        Some(i) => locks[i].end(),
        None => (),
    }
}

pub fn end(locks: &mut Vec<KeptLock>, number: u64)
    requires { IsRising 0 locks.old.items }
    ensures items { locks.new.items ≡ changed_at number ended locks.old.items }
    ensures len { vec_len locks.new ≡ vec_len locks.old }
    ensures capacity { vec_capacity locks.new ≡ vec_capacity locks.old }
{
    end_among(locks.as_mut_slice(), number);
}
