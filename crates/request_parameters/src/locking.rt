//! What a request says of locks.

ghost use Rattle.std.specs.Prelude.{◌≡◌, ◌≤◌, IfOk, IfSome};
ghost use Rattle.wfs_ends.specs.Read.{GivesBut};
ghost use Rattle.lock_table.specs.declared.words.Release.TheVariants.{Whole, Touched};
ghost use Rattle.wfs_model.specs.declared.request.Take.TheVariants.{AllOrNone, Free};
ghost use Rattle.request_parameters.specs.Locking.{all_or_some, take_of, release_of, lock_of, seconds_in, expiry_of, period_of};

use crate::said::{Given, or_refused};
use lock_table::{LockId, Release};
use std::alloc::Global;
use wfs_model::{AskFault, Take, read_count};

fn take_word(text: &str) -> Option<Take>
    ensures { result ≡ all_or_some AllOrNone Free text.now }
{
    if text == "ALL" {
        return Some(Take::AllOrNone);
    }
    if text == "SOME" {
        return Some(Take::Free);
    }
    None
}

/// Which features a lock takes, by `lockAction` (OGC 09-025r2, section 12.2.4.3): all or none by `ALL` and where nothing is said,
/// those that are free by `SOME`; another word is row 11.
#[tactic(auto, unfolding(crate::specs::Locking::take_of))]
pub fn take_of<G: Given>(alloc: Global, given: &G) -> Result<Take, AskFault>
    ensures { GivesBut AskFault.OutOfMemory (λ take. take) result (take_of (G.said given.now)) }
{
    let Some(text) = given.value_of("lockAction") else {
        return Ok(Take::AllOrNone);
    };
    or_refused(alloc, take_word(text.as_str()), 11, "lockAction")
}

fn release_word(text: &str) -> Option<Release>
    ensures { result ≡ all_or_some Whole Touched text.now }
{
    if text == "ALL" {
        return Some(Release::Whole);
    }
    if text == "SOME" {
        return Some(Release::Touched);
    }
    None
}

/// What a transaction releases of its lock, by `releaseAction` (OGC 09-025r2, section 15.2.3.1.3): all by `ALL` and where nothing
/// is said, the features that it touches by `SOME`; another word is row 11.
#[tactic(auto, unfolding(crate::specs::Locking::release_of))]
pub fn release_of<G: Given>(alloc: Global, given: &G) -> Result<Release, AskFault>
    ensures { GivesBut AskFault.OutOfMemory (λ release. release) result
        (release_of (G.said given.now)) }
{
    let Some(text) = given.value_of("releaseAction") else {
        return Ok(Release::Whole);
    };
    or_refused(alloc, release_word(text.as_str()), 11, "releaseAction")
}

/// The lock that a client has, by `lockId`, where it is said. A text that is the identifier of no lock there could be is row 15.
#[tactic(auto, unfolding(crate::specs::Locking::lock_of))]
pub fn lock_of<G: Given>(alloc: Global, given: &G) -> Result<Option<LockId>, AskFault>
    ensures { GivesBut AskFault.OutOfMemory (λ lock. lock) result (lock_of (G.said given.now)) }
{
    let Some(text) = given.value_of("lockId") else {
        return Ok(None);
    };
    let lock = or_refused(alloc, LockId::read(text.as_str()), 15, "lockId")?;
    Ok(Some(lock))
}

// A number of seconds from 1 on.
#[tactic(auto, unfolding(crate::specs::Locking::seconds_in))]
fn seconds_in(text: &str) -> Option<u32>
    ensures { result ≡ seconds_in text.now }
{
    let seconds = read_count(text)?;
    if seconds == 0 {
        return None;
    }
    Some(seconds)
}

/// For how many seconds a lock is to live, by `expiry` (OGC 09-025r2, section 12.2.4.4), where it is said: 1 to 4,294,967,295 in
/// decimal digits, else row 11.
#[tactic(auto, unfolding(crate::specs::Locking::expiry_of, crate::specs::Locking::seconds_in))]
pub fn expiry_of<G: Given>(alloc: Global, given: &G) -> Result<Option<u32>, AskFault>
    ensures read { GivesBut AskFault.OutOfMemory (λ expiry. expiry) result
        (expiry_of (G.said given.now)) }
    ensures some { IfOk result (λ expiry. IfSome expiry (λ seconds. 1 ≤ seconds)) }
{
    let Some(text) = given.value_of("expiry") else {
        return Ok(None);
    };
    let expiry = or_refused(alloc, seconds_in(text.as_str()), 11, "expiry")?;
    Ok(Some(expiry))
}

/// For how many seconds a new lock lives: what `expiry_of` gives, or 300 where nothing is said.
#[tactic(auto, unfolding(crate::specs::Locking::period_of))]
pub fn period_of<G: Given>(alloc: Global, given: &G) -> Result<u32, AskFault>
    ensures read { GivesBut AskFault.OutOfMemory (λ period. period) result
        (period_of (G.said given.now)) }
    ensures some { IfOk result (λ period. 1 ≤ period) }
{
    match expiry_of(alloc, given)? {
        Some(period) => Ok(period),
        None => Ok(300),
    }
}
