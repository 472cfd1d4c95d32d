//! What `recover` writes, once both files were synced and read.

ghost use Rattle.std.specs.Prelude.{◌≡◌, ◌≤◌, ◌∷◌, ◌++◌, [], ℕ, Bool, List, length, OnOk, OnErr, IfSome, true, false};
ghost use Rattle.wfs_ends.specs.Ends.{Rose};
ghost use Rattle.disk_core.specs.Disk.{Leads, Every, Torn, Same, Begins};
ghost use Rattle.disk_core.specs.Sides.{Within, Always, chosen, spare};
ghost use Rattle.feature_journal.specs.Side.{Gate};
ghost use Rattle.feature_journal.specs.Settled.{Reading, Known, Placed, SaysOr};
ghost use Rattle.feature_journal.specs.Faults.{NoneFell, OneRose};
ghost use Rattle.feature_journal.specs.Nothing.{Nothing, Unused, Dormant};
ghost use Rattle.feature_journal.specs.Held.{HeldClosed, IsStable};

use crate::side::set_gate;
use disk_core::{Disk, Pair};
use wfs_ends::Failed;

// Closes byte 0, for good.
fn shut_first<D: Disk>(disk: &mut D) -> Result<(), Failed>
    ensures torn { Leads D.moment D.since D.images (Torn 0 1) disk.old disk.new }
    ensures shut { OnOk result (Every (D.images disk.new) (Begins (0 ∷ []))) }
    ensures count { D.faults disk.old ≤ D.faults disk.new }
    ensures cause { OnErr result (Rose (D.faults disk.old) (D.faults disk.new)) }
{
    set_gate(disk, 0, 0)
}

// Closes byte 0 of the side that is not chosen, for good.
fn quiet<D: Disk>(disks: &mut Pair<D>, second: bool) -> Result<(), Failed>
    ensures torn { Leads D.moment D.since D.images (Torn 0 1) (spare second disks.old)
        (spare second disks.new) }
    ensures same { chosen second disks.new ≡ chosen second disks.old }
    ensures shut { OnOk result (Every (D.images (spare second disks.new)) (Begins (0 ∷ []))) }
    ensures count { NoneFell D.faults disks.old disks.new }
    ensures cause { OnErr result (OneRose D.faults disks.old disks.new) }
{
    if second {
        shut_first(&mut disks.a)
    } else {
        shut_first(&mut disks.b)
    }
}

// Closes byte 0 of that side where it is stale.
fn quiet_stale<D: Disk>(disks: &mut Pair<D>, second: bool, is_stale: bool) -> Result<(), Failed>
    ensures torn { Leads D.moment D.since D.images (Torn 0 1) (spare second disks.old)
        (spare second disks.new) }
    ensures same { chosen second disks.new ≡ chosen second disks.old }
    ensures left { is_stale ≡ false → disks.new ≡ disks.old }
    ensures shut { OnOk result (is_stale ≡ true
        → Every (D.images (spare second disks.new)) (Begins (0 ∷ []))) }
    ensures count { NoneFell D.faults disks.old disks.new }
    ensures cause { OnErr result (OneRose D.faults disks.old disks.new) }
{
    if is_stale {
        quiet(disks, second)
    } else {
        Ok(())
    }
}

// Makes the chosen side stable.
fn sync_chosen<D: Disk>(disks: &mut Pair<D>, second: bool) -> Result<(), Failed>
    ensures crash { Leads D.moment D.since D.images Same (chosen second disks.old)
        (chosen second disks.new) }
    ensures same { spare second disks.new ≡ spare second disks.old }
    ensures stable { OnOk result (IsStable D.shown D.images (chosen second disks.new)) }
    ensures count { NoneFell D.faults disks.old disks.new }
    ensures cause { OnErr result (OneRose D.faults disks.old disks.new) }
{
    if second {
        disks.b.sync()
    } else {
        disks.a.sync()
    }
}

// Closes a gate of the chosen side, for good.
fn close_gate<D: Disk>(disks: &mut Pair<D>, second: bool, gate: u64) -> Result<(), Failed>
    requires { IfSome (D.shown (chosen second disks.old)) (λ s. gate ≤ length s) }
    ensures torn { Leads D.moment D.since D.images (Torn gate 1) (chosen second disks.old)
        (chosen second disks.new) }
    ensures same { spare second disks.new ≡ spare second disks.old }
    ensures set { OnOk result ((front text : List ℕ) → length front ≡ gate
        → Every (D.images (chosen second disks.old)) (Gate front text)
        → Every (D.images (chosen second disks.new)) (Begins (front ++ 0 ∷ text))) }
    ensures stable { OnOk result (IsStable D.shown D.images (chosen second disks.new)) }
    ensures count { NoneFell D.faults disks.old disks.new }
    ensures cause { OnErr result (OneRose D.faults disks.old disks.new) }
{
    if second {
        set_gate(&mut disks.b, gate, 0)
    } else {
        set_gate(&mut disks.a, gate, 0)
    }
}

// Closes the ending gate. A gate that reads 0 is not written, but its side is synced.
fn close<D: Disk>(
    disks: &mut Pair<D>,
    second: bool,
    gate: u64,
    is_closed: bool,
) -> Result<(), Failed>
    requires { IfSome (D.shown (chosen second disks.old)) (λ s. gate ≤ length s) }
    ensures torn { Leads D.moment D.since D.images (Torn gate 1) (chosen second disks.old)
        (chosen second disks.new) }
    ensures crash { is_closed ≡ true → Leads D.moment D.since D.images Same
        (chosen second disks.old) (chosen second disks.new) }
    ensures same { spare second disks.new ≡ spare second disks.old }
    ensures goes { (r : Reading) → Known D.images second gate false is_closed r disks.old
        → Within D.moment D.since (SaysOr is_closed r) disks.old disks.new }
    ensures held { OnOk result ((generation : ℕ) (bodies : List (List ℕ))
        → Placed D.images second gate false is_closed generation bodies disks.old
        → HeldClosed D.images second generation gate bodies disks.new) }
    ensures stable { OnOk result (IsStable D.shown D.images (chosen second disks.new)) }
    ensures count { NoneFell D.faults disks.old disks.new }
    ensures cause { OnErr result (OneRose D.faults disks.old disks.new) }
{
    if is_closed {
        sync_chosen(disks, second)
    } else {
        close_gate(disks, second, gate)
    }
}

/// What recovery writes where a side is current, once both files were synced and read: it closes byte 0 of a stale side,
/// and then the ending gate, each for good. Nothing but these two bytes is ever written. Byte 0 is stale where it reads
/// neither 0 nor 1, from 17 bytes on. A gate that reads 0 is not written again, but its side is synced.
///
/// From disks that stand for a list a crash leaves the list, or, where a tail stands behind that gate, the list with
/// it. After Ok the disks stand for the list that the current side says up to its gate, whatever stood behind it.
pub fn settle<D: Disk>(
    disks: &mut Pair<D>,
    second: bool,
    gate: u64,
    is_stale: bool,
    is_closed: bool,
) -> Result<(), Failed>
    requires { IfSome (D.shown (chosen second disks.old)) (λ s. gate ≤ length s) }
    ensures goes { (r : Reading) → Known D.images second gate is_stale is_closed r disks.old
        → Always D.moment D.since (SaysOr is_closed r) disks.old disks.new }
    ensures held { OnOk result ((generation : ℕ) (bodies : List (List ℕ))
        → Placed D.images second gate is_stale is_closed generation bodies disks.old
        → HeldClosed D.images second generation gate bodies disks.new) }
    ensures stable { OnOk result (IsStable D.shown D.images (chosen second disks.new)) }
    ensures current { Leads D.moment D.since D.images (Torn gate 1) (chosen second disks.old)
        (chosen second disks.new) }
    ensures current_closed { is_closed ≡ true → Leads D.moment D.since D.images Same
        (chosen second disks.old) (chosen second disks.new) }
    ensures other { Leads D.moment D.since D.images (Torn 0 1) (spare second disks.old)
        (spare second disks.new) }
    ensures other_left { is_stale ≡ false → spare second disks.new ≡ spare second disks.old }
    ensures count { NoneFell D.faults disks.old disks.new }
    ensures cause { OnErr result (OneRose D.faults disks.old disks.new) }
{
    quiet_stale(disks, second, is_stale)?;
    close(disks, second, gate, is_closed)
}

/// What recovery writes where no side is current, once both files were synced and read: it closes byte 0 of each stale
/// side, for good, and nothing else. A write of byte 0 that was torn leaves such a side.
///
/// From disks that stand for nothing a crash leaves that, or a side with no record. After Ok each side is such as a
/// fresh journal asks, where those that are not stale were.
pub fn shut_stale<D: Disk>(
    disks: &mut Pair<D>,
    first_is_stale: bool,
    second_is_stale: bool,
) -> Result<(), Failed>
    ensures goes { Dormant first_is_stale (D.images disks.old.a)
        → Dormant second_is_stale (D.images disks.old.b)
        → Always D.moment D.since Nothing disks.old disks.new }
    ensures unused_a { OnOk result ((first_is_stale ≡ false → Unused (D.images disks.old.a))
        → Unused (D.images disks.new.a)) }
    ensures unused_b { OnOk result ((second_is_stale ≡ false → Unused (D.images disks.old.b))
        → Unused (D.images disks.new.b)) }
    ensures side_a { Leads D.moment D.since D.images (Torn 0 1) disks.old.a disks.new.a }
    ensures side_b { Leads D.moment D.since D.images (Torn 0 1) disks.old.b disks.new.b }
    ensures left_a { first_is_stale ≡ false → disks.new.a ≡ disks.old.a }
    ensures left_b { second_is_stale ≡ false → disks.new.b ≡ disks.old.b }
    ensures count { NoneFell D.faults disks.old disks.new }
    ensures cause { OnErr result (OneRose D.faults disks.old disks.new) }
{
    quiet_stale(disks, true, first_is_stale)?;
    quiet_stale(disks, false, second_is_stale)
}
