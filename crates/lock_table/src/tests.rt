//! Each call of the table with ample memory, and identifiers of locks.

ghost use Rattle.std.specs.Prelude.{◌≡◌, ◌+◌, ◌<◌, ◌≤◌};

use super::*;
use feature_values::Rid;
use std::alloc::Global;
use std::test::Fail;
use wfs_ends::{List, Mem};

fn mark(number: u64) -> Rid {
    Rid { kind: 1, number }
}

fn marks(alloc: Global, numbers: &[u64]) -> Mem<List<Rid>> {
    let mut all = Vec::new(alloc);
    for number in numbers {
        all.push(mark(*number))?;
    }
    Ok(List::of(all))
}

// A lock on all of these features, or none.
#[tactic(auto, using(crate::proofs::Callers::none_is_held))]
fn lock(
    table: &mut LockTable,
    features: List<Rid>,
    moment: u64,
    period: u32,
) -> Result<Option<u64>, LockFault>
    requires moment { table.old.last ≤ moment }
    requires given { table.old.given < 1000 }
    ensures moment { table.new.last ≤ moment }
    ensures given { table.new.given ≤ table.old.given + 1 }
{
    let count = features.items().len();
    table.reserve(count as u64, moment, 65_536)?;
    if count == 0 || table.first_held(&features, moment).is_some() {
        return Ok(None);
    }
    Ok(Some(table.grant(features, moment, period)))
}

// Whether the lock was live and is renewed.
#[tactic(auto, using(crate::proofs::Callers::live_number))]
fn renew(table: &mut LockTable, number: u64, moment: u64, period: Option<u32>) -> bool
    requires { table.old.last ≤ moment }
    ensures moment { table.new.last ≤ moment }
    ensures given { table.new.given ≡ table.old.given }
{
    let id = LockId { opening: 7, number };
    if let LockStatus::Live = table.status(id, moment) {
        table.renew(number, moment, period);
        return true;
    }
    false
}

// Whether the lock was live and is released.
#[tactic(auto, using(crate::proofs::Callers::live_number))]
fn release(
    table: &mut LockTable,
    number: u64,
    touched: &List<Rid>,
    how: Release,
    moment: u64,
) -> bool
    requires { table.old.last ≤ moment }
    ensures moment { table.new.last ≤ moment }
    ensures given { table.new.given ≡ table.old.given }
{
    let id = LockId { opening: 7, number };
    if let LockStatus::Live = table.status(id, moment) {
        table.release(number, touched, how, moment);
        return true;
    }
    false
}

// The first feature of a live lock.
fn first_feature(table: &LockTable, number: u64, moment: u64) -> Option<Rid>
    requires { table.now.last ≤ moment }
{
    if let LockStatus::Live = table.status(LockId { opening: 7, number }, moment) {
        return table.features_of(number).first().copied();
    }
    None
}

#[test]
fn reads_identifiers(rt: HostRuntime) -> Result<(), Fail> {
    for (text, opening, number) in [
        ("lock-1-1", 1, 1),
        ("lock-20-300", 20, 300),
        (
            "lock-18446744073709551615-18446744073709551615",
            u64::MAX,
            u64::MAX,
        ),
    ] {
        assert_eq!(rt; LockId::read(text), Some(LockId { opening, number }));
    }
    for text in [
        "lock-01-1",
        "lock-1-0",
        "lock-0-1",
        "lock-1-01",
        "lock-1-18446744073709551616",
        "lock-1-1 ",
        " lock-1-1",
        "lock-1",
        "lock-1-",
        "lock--1",
        "lock-1-1-1",
        "lock-+1-1",
        "lock-1-+1",
        "Lock-1-1",
        "lock1-1",
        "lock",
        "",
    ] {
        assert_eq!(rt; LockId::read(text), None);
    }
    Ok(())
}

// Who holds features of the lock, and how it stands, by opening, number and moment.
static HELD: [(u64, u64, Option<u64>); 4] = [
    (2, 1000, Some(1)),
    (1, 1099, Some(1)),
    (3, 1100, None),
    (4, 1000, None),
];

static STANDS: [(u64, u64, u64, LockStatus); 7] = [
    (7, 1, 1099, LockStatus::Live),
    (7, 1, 1100, LockStatus::Expired),
    (7, 0, 1000, LockStatus::NeverGiven),
    (7, 2, 1000, LockStatus::NeverGiven),
    (8, 1, 1000, LockStatus::NeverGiven),
    (6, 1, 1000, LockStatus::Expired),
    (6, 99, 1000, LockStatus::Expired),
];

// The first row of the holders that does not hold.
fn first_holder(table: &LockTable) -> Option<u64>
    requires { table.now.last ≤ 1000 }
{
    for (number, moment, holder) in &HELD {
        if *moment >= 1000 && table.holder(mark(*number), *moment) != *holder {
            return Some(*number);
        }
    }
    None
}

// The first row of the locks that does not hold.
fn first_standing(table: &LockTable) -> Option<u64>
    requires { table.now.last ≤ 1000 }
{
    for (opening, number, moment, status) in &STANDS {
        let id = LockId {
            opening: *opening,
            number: *number,
        };
        if *moment >= 1000 && table.status(id, *moment) != *status {
            return Some(*moment);
        }
    }
    None
}

// Which of these features is held first, at a moment.
fn held_at(alloc: Global, table: &LockTable, numbers: &[u64], moment: u64) -> Mem<Option<Rid>>
    requires { table.now.last ≤ moment }
{
    let asked = marks(alloc, numbers)?;
    Ok(table.first_held(&asked, moment))
}

// Locks these features.
fn lock_these(
    alloc: Global,
    table: &mut LockTable,
    numbers: &[u64],
    moment: u64,
    period: u32,
) -> Mem<Option<u64>>
    requires moment { table.old.last ≤ moment }
    requires given { table.old.given < 1000 }
    ensures moment { table.new.last ≤ moment }
    ensures given { table.new.given ≤ table.old.given + 1 }
{
    let features = marks(alloc, numbers)?;
    match lock(table, features, moment, period) {
        Ok(found) => Ok(found),
        Err(_) => Ok(Some(99)),
    }
}

// Releases a lock, where these features are touched.
fn release_these(
    alloc: Global,
    table: &mut LockTable,
    number: u64,
    touched: &[u64],
    how: Release,
    moment: u64,
) -> Mem<bool>
    requires { table.old.last ≤ moment }
    ensures moment { table.new.last ≤ moment }
    ensures given { table.new.given ≤ table.old.given }
{
    let touched = marks(alloc, touched)?;
    Ok(release(table, number, &touched, how, moment))
}

// The number of the first thing that is not as said of a lock and its deadline.
fn wrong_by_deadline(alloc: Global, table: &mut LockTable) -> Mem<Option<u64>>
    requires moment { table.old.last ≤ 1000 }
    requires given { table.old.given < 900 }
{
    if lock_these(alloc, table, &[1, 2, 3], 1000, 100)? != Some(1) {
        return Ok(Some(1));
    }
    if first_holder(table).is_some() || first_standing(table).is_some() {
        return Ok(Some(2));
    }
    if held_at(alloc, table, &[4, 3, 2], 1000)? != Some(mark(3)) {
        return Ok(Some(3));
    }
    if held_at(alloc, table, &[4, 3, 2], 1100)?.is_some() {
        return Ok(Some(4));
    }
    if lock_these(alloc, table, &[4, 3], 1099, 100)?.is_some() {
        return Ok(Some(5));
    }
    if lock_these(alloc, table, &[3], 1100, 100)? != Some(2) {
        return Ok(Some(6));
    }
    if table.holder(mark(3), 1199) != Some(2) || table.holder(mark(1), 1100).is_some() {
        return Ok(Some(7));
    }
    Ok(None)
}

#[test]
fn a_lock_is_live_below_its_deadline(rt: HostRuntime) -> Result<(), Fail> {
    let mut table = LockTable::new(rt.alloc(), 7);
    let wrong = wrong_by_deadline(rt.alloc(), &mut table);
    drop(table);
    assert_eq!(rt; wrong, Ok(None));
    Ok(())
}

// Features of two types under one number are different features: a lock on the one leaves the other free, and the touch of
// the one leaves the other in its lock.
#[test]
fn features_of_two_types_are_different(rt: HostRuntime) -> Result<(), Fail> {
    let mut table = LockTable::new(rt.alloc(), 7);
    let one = marks(rt.alloc(), &[1])?;
    assert_eq!(rt; lock(&mut table, one, 1000, 100).ok(), Some(Some(1)));
    let other = Rid { kind: 2, number: 1 };
    assert_eq!(rt; table.holder(other, 1000), None);
    let others = List::of(vec![in rt.alloc(); other]?);
    assert_eq!(rt; lock(&mut table, others, 1000, 100).ok(), Some(Some(2)));
    let touched = marks(rt.alloc(), &[1])?;
    assert_eq!(rt;
        release(&mut table, 2, &touched, Release::Touched, 1050),
        true
    );
    assert_eq!(rt; table.holder(other, 1149), Some(2));
    Ok(())
}

#[test]
fn a_lock_for_no_time_holds_nothing(rt: HostRuntime) -> Result<(), Fail> {
    let mut table = LockTable::new(rt.alloc(), 7);
    let one = marks(rt.alloc(), &[1])?;
    assert_eq!(rt; lock(&mut table, one, 0, 0).ok(), Some(Some(1)));
    assert_eq!(rt; table.holder(mark(1), 0), None);
    let same = marks(rt.alloc(), &[1])?;
    assert_eq!(rt; lock(&mut table, same, 0, 1).ok(), Some(Some(2)));
    assert_eq!(rt; table.holder(mark(1), 0), Some(2));
    assert_eq!(rt; renew(&mut table, 2, 0, Some(0)), true);
    assert_eq!(rt; table.holder(mark(1), 0), None);
    Ok(())
}

#[test]
fn a_renewal_counts_from_its_moment(rt: HostRuntime) -> Result<(), Fail> {
    let mut table = LockTable::new(rt.alloc(), 7);
    let one = marks(rt.alloc(), &[1])?;
    assert_eq!(rt; lock(&mut table, one, 1000, 60).ok(), Some(Some(1)));
    assert_eq!(rt; renew(&mut table, 1, 1059, None), true);
    assert_eq!(rt; table.holder(mark(1), 1118), Some(1));
    assert_eq!(rt; table.holder(mark(1), 1119), None);
    assert_eq!(rt; renew(&mut table, 1, 1100, Some(5)), true);
    assert_eq!(rt; renew(&mut table, 1, 1104, None), true);
    assert_eq!(rt; table.holder(mark(1), 1108), Some(1));
    assert_eq!(rt; renew(&mut table, 1, 1109, Some(100)), false);
    Ok(())
}

// The number of the first thing that is not as said of a lock whose touched features are released.
fn wrong_by_touch(alloc: Global, table: &mut LockTable) -> Mem<Option<u64>>
    requires moment { table.old.last ≤ 1000 }
    requires given { table.old.given < 900 }
    ensures moment { table.new.last ≤ 1060 }
    ensures given { table.new.given ≤ table.old.given + 1 }
{
    if lock_these(alloc, table, &[1, 2, 3], 1000, 100)? != Some(1) {
        return Ok(Some(1));
    }
    if !release_these(alloc, table, 1, &[1, 9], Release::Touched, 1050)? {
        return Ok(Some(2));
    }
    if table.holder(mark(1), 1050).is_some()
        || table.holder(mark(2), 1149) != Some(1)
        || table.holder(mark(3), 1150).is_some()
    {
        return Ok(Some(3));
    }
    if first_feature(table, 1, 1050) != Some(mark(2)) || first_feature(table, 1, 1150).is_some() {
        return Ok(Some(4));
    }
    if !release_these(alloc, table, 1, &[3, 2], Release::Touched, 1060)? {
        return Ok(Some(5));
    }
    let id = LockId {
        opening: 7,
        number: 1,
    };
    if table.status(id, 1060) != LockStatus::Expired {
        return Ok(Some(6));
    }
    Ok(None)
}

// The number of the first thing that is not as said of a lock that is released whole, behind the first.
fn wrong_by_whole(alloc: Global, table: &mut LockTable) -> Mem<Option<u64>>
    requires moment { table.old.last ≤ 1060 }
    requires given { table.old.given < 910 }
{
    if lock_these(alloc, table, &[5, 6], 1070, 100)? != Some(2) {
        return Ok(Some(1));
    }
    if lock_these(alloc, table, &[7], 1070, 100)? != Some(3) {
        return Ok(Some(2));
    }
    if !release_these(alloc, table, 2, &[], Release::Whole, 1080)? {
        return Ok(Some(3));
    }
    if table.holder(mark(5), 1080).is_some() || table.holder(mark(7), 1080) != Some(3) {
        return Ok(Some(4));
    }
    if release_these(alloc, table, 2, &[], Release::Whole, 1081)? {
        return Ok(Some(5));
    }
    Ok(None)
}

#[test]
fn a_release_frees_the_touched_or_all(rt: HostRuntime) -> Result<(), Fail> {
    let mut table = LockTable::new(rt.alloc(), 7);
    let touched = wrong_by_touch(rt.alloc(), &mut table);
    let whole = wrong_by_whole(rt.alloc(), &mut table);
    drop(table);
    assert_eq!(rt; (touched, whole), (Ok(None), Ok(None)));
    Ok(())
}

// The number of the first thing that is not as said of the room for one lock.
fn wrong_by_room(alloc: Global, table: &mut LockTable) -> Mem<Option<u64>>
    requires moment { table.old.last ≤ 0 }
    requires given { table.old.given < 900 }
    ensures moment { table.new.last ≤ 1100 }
    ensures given { table.new.given ≤ table.old.given + 1 }
{
    if table.reserve(1, 0, 0) != Err(LockFault::Full(0)) {
        return Ok(Some(1));
    }
    if lock_these(alloc, table, &[2, 1], 1000, 100)? != Some(1) {
        return Ok(Some(2));
    }
    if table.reserve(1, 1099, 1) != Err(LockFault::Full(1)) {
        return Ok(Some(3));
    }
    if table.reserve(1, 1100, 1).is_err() {
        return Ok(Some(4));
    }
    if table.holder(mark(1), 1099) != Some(1) {
        return Ok(Some(5));
    }
    Ok(None)
}

// The number of the first thing that is not as said of the room beside three locks more, whose deadlines are at 1300, 1500 and
// 1400, the second of which is renewed to 1210.
fn wrong_by_three(alloc: Global, table: &mut LockTable) -> Mem<Option<u64>>
    requires moment { table.old.last ≤ 1100 }
    requires given { table.old.given < 910 }
{
    if lock_these(alloc, table, &[4], 1100, 200)? != Some(2)
        || lock_these(alloc, table, &[5], 1100, 400)? != Some(3)
    {
        return Ok(Some(1));
    }
    if lock_these(alloc, table, &[6], 1100, 300)? != Some(4) || !renew(table, 3, 1200, Some(10)) {
        return Ok(Some(2));
    }
    if table.reserve(1, 1209, 3) != Err(LockFault::Full(3))
        || table.reserve(1, 1210, 2) != Err(LockFault::Full(2))
        || table.reserve(1, 1400, 0) != Err(LockFault::Full(0))
    {
        return Ok(Some(3));
    }
    if !renew(table, 2, 1250, None) {
        return Ok(Some(4));
    }
    if table.holder(mark(5), 1250).is_some() || table.holder(mark(4), 1449) != Some(2) {
        return Ok(Some(5));
    }
    if table.reserve(1, 1449, 1) != Err(LockFault::Full(1)) {
        return Ok(Some(6));
    }
    Ok(None)
}

#[test]
fn room_is_refused_at_the_limit(rt: HostRuntime) -> Result<(), Fail> {
    let mut table = LockTable::new(rt.alloc(), 7);
    let one = wrong_by_room(rt.alloc(), &mut table);
    let three = wrong_by_three(rt.alloc(), &mut table);
    drop(table);
    assert_eq!(rt; (one, three), (Ok(None), Ok(None)));
    Ok(())
}
