//! The calls that make a side, on the side that is not current.

ghost use Rattle.std.specs.Prelude.{◌≡◌, ◌⊎◌, ◌≤◌, ◌<◌, ◌+◌, ◌^◌, ◌++◌, ◌∷◌, [], ℕ, Bool, List, length, OnOk, OnErr};
ghost use Rattle.wfs_ends.specs.Ends.{Rose};
ghost use Rattle.disk_core.specs.Disk.{Leads, Goes, Every, Keeps, Begins};
ghost use Rattle.disk_core.specs.Sides.{chosen, spare};
ghost use Rattle.feature_journal.specs.Side.{Gate};
ghost use Rattle.feature_journal.specs.Whole.{Idle, Harmless};
ghost use Rattle.feature_journal.specs.Making.{Making, inner};

use crate::adding::{add_on, begin_on, close_on};
use crate::side::set_gate;
use disk_core::{Disk, Pair};
use wfs_ends::Failed;

// Begins a side of this generation.
pub(crate) fn begin_to<D: Disk>(
    disks: &mut Pair<D>,
    second: bool,
    generation: u64,
) -> Result<(), Failed>
    ensures goes { (is_b : Bool) (current : ℕ)
        → Idle is_b current (D.images (spare second disks.old))
        → Goes D.moment D.since (Harmless is_b current []) (spare second disks.old)
        (spare second disks.new) }
    ensures still { (is_b : Bool) (current : ℕ)
        → Idle is_b current (D.images (spare second disks.old))
        → Idle is_b current (D.images (spare second disks.new)) }
    ensures begun { OnOk result (Making D.shown D.images generation 16 []
        (spare second disks.new)) }
    ensures same { chosen second disks.new ≡ chosen second disks.old }
    ensures count { (D.faults disks.old.a ≤ D.faults disks.new.a)
        × (D.faults disks.old.b ≤ D.faults disks.new.b) }
    ensures cause { OnErr result (Rose (D.faults disks.old.a) (D.faults disks.new.a)
        ⊎ Rose (D.faults disks.old.b) (D.faults disks.new.b)) }
{
    if second {
        begin_on(&mut disks.a, generation)
    } else {
        begin_on(&mut disks.b, generation)
    }
}

// Writes a record behind those that are there.
pub(crate) fn add_to<D: Disk>(
    disks: &mut Pair<D>,
    second: bool,
    place: u64,
    body: &[u8],
) -> Result<(), Failed>
    requires fits { (length body.now < 2 ^ 32) × (place + 6 + length body.now < 2 ^ 64) }
    requires making { (generation : ℕ) × (added : List (List ℕ))
        × Making D.shown D.images generation place added (spare second disks.old) }
    ensures kept { Leads D.moment D.since D.images (Keeps 1) (spare second disks.old)
        (spare second disks.new) }
    ensures added { OnOk result ((generation : ℕ) (added : List (List ℕ))
        → Making D.shown D.images generation place added (spare second disks.old)
        → Making D.shown D.images generation (place + 5 + length body.now) (added ++ body.now ∷ [])
        (spare second disks.new)) }
    ensures same { chosen second disks.new ≡ chosen second disks.old }
    ensures count { (D.faults disks.old.a ≤ D.faults disks.new.a)
        × (D.faults disks.old.b ≤ D.faults disks.new.b) }
    ensures cause { OnErr result (Rose (D.faults disks.old.a) (D.faults disks.new.a)
        ⊎ Rose (D.faults disks.old.b) (D.faults disks.new.b)) }
{
    if second {
        add_on(&mut disks.a, place, body)
    } else {
        add_on(&mut disks.b, place, body)
    }
}

// Ends the records with a closed gate, and makes them stable.
pub(crate) fn close_to<D: Disk>(disks: &mut Pair<D>, second: bool, place: u64) -> Result<(), Failed>
    requires making { (generation : ℕ) × (added : List (List ℕ))
        × Making D.shown D.images generation place added (spare second disks.old) }
    ensures kept { Leads D.moment D.since D.images (Keeps 1) (spare second disks.old)
        (spare second disks.new) }
    ensures closed { OnOk result ((generation : ℕ) (added : List (List ℕ))
        → Making D.shown D.images generation place added (spare second disks.old)
        → Every (D.images (spare second disks.new)) (Gate [] (inner generation added ++ 0 ∷ []))) }
    ensures same { chosen second disks.new ≡ chosen second disks.old }
    ensures count { (D.faults disks.old.a ≤ D.faults disks.new.a)
        × (D.faults disks.old.b ≤ D.faults disks.new.b) }
    ensures cause { OnErr result (Rose (D.faults disks.old.a) (D.faults disks.new.a)
        ⊎ Rose (D.faults disks.old.b) (D.faults disks.new.b)) }
{
    if second {
        close_on(&mut disks.a, place)
    } else {
        close_on(&mut disks.b, place)
    }
}

// Writes byte 0, in front of a text that is stable.
pub(crate) fn set_first<D: Disk>(disks: &mut Pair<D>, second: bool, value: u8) -> Result<(), Failed>
    requires { (text : List ℕ) × Every (D.images (spare second disks.old)) (Gate [] text) }
    ensures goes { (text : List ℕ) → Every (D.images (spare second disks.old)) (Gate [] text)
        → Goes D.moment D.since (Gate [] text) (spare second disks.old) (spare second disks.new) }
    ensures still { (text : List ℕ) → Every (D.images (spare second disks.old)) (Gate [] text)
        → Every (D.images (spare second disks.new)) (Gate [] text) }
    ensures set { OnOk result ((text : List ℕ)
        → Every (D.images (spare second disks.old)) (Gate [] text)
        → Every (D.images (spare second disks.new)) (Begins (value ∷ text))) }
    ensures same { chosen second disks.new ≡ chosen second disks.old }
    ensures count { (D.faults disks.old.a ≤ D.faults disks.new.a)
        × (D.faults disks.old.b ≤ D.faults disks.new.b) }
    ensures cause { OnErr result (Rose (D.faults disks.old.a) (D.faults disks.new.a)
        ⊎ Rose (D.faults disks.old.b) (D.faults disks.new.b)) }
{
    if second {
        set_first_on(&mut disks.a, value)
    } else {
        set_first_on(&mut disks.b, value)
    }
}

fn set_first_on<D: Disk>(disk: &mut D, value: u8) -> Result<(), Failed>
    requires { (text : List ℕ) × Every (D.images disk.old) (Gate [] text) }
    ensures goes { (text : List ℕ) → Every (D.images disk.old) (Gate [] text)
        → Goes D.moment D.since (Gate [] text) disk.old disk.new }
    ensures still { (text : List ℕ) → Every (D.images disk.old) (Gate [] text)
        → Every (D.images disk.new) (Gate [] text) }
    ensures set { OnOk result ((text : List ℕ) → Every (D.images disk.old) (Gate [] text)
        → Every (D.images disk.new) (Begins (value ∷ text))) }
    ensures count { D.faults disk.old ≤ D.faults disk.new }
    ensures cause { OnErr result (Rose (D.faults disk.old) (D.faults disk.new)) }
{
    set_gate(disk, 0, value)
}
