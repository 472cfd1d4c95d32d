//! A side in the making, record by record, behind a closed byte 0.

ghost use Rattle.std.specs.Prelude.{◌≡◌, ◌⊎◌, ◌≤◌, ◌<◌, ◌+◌, ◌-◌, ◌^◌, ◌++◌, ◌∷◌, [], ℕ, Bool, List, length, OnOk, OnErr, IfSome, not};
ghost use Rattle.wfs_ends.specs.Ends.{Rose};
ghost use Rattle.disk_core.specs.Disk.{Leads, Goes, Every, Keeps, Begins};
ghost use Rattle.feature_journal.specs.Side.{Gate};
ghost use Rattle.feature_journal.specs.Whole.{Idle, Harmless, Fits};
ghost use Rattle.feature_journal.specs.Making.{Making, inner};

use crate::making::clear_on;
use disk_core::Disk;
use wfs_ends::Failed;

// Writes mark, version and generation behind a closed byte 0.
#[tactic(auto, unfolding(disk_core::specs::Disk::written, disk_core::specs::Disk::over))]
fn head_on<D: Disk>(disk: &mut D, generation: u64) -> Result<(), Failed>
    requires { Every (D.images disk.old) (Begins (0 ∷ []))
        × IfSome (D.shown disk.old) (λ s. s ≡ 0 ∷ []) }
    ensures kept { Leads D.moment D.since D.images (Keeps 1) disk.old disk.new }
    ensures begun { OnOk result (Making D.shown D.images generation 16 [] disk.new) }
    ensures count { D.faults disk.old ≤ D.faults disk.new }
    ensures cause { OnErr result (Rose (D.faults disk.old) (D.faults disk.new)) }
{
    disk.write_framed(
        1,
        &[87, 70, 83, 74, 78, 76, 1],
        &generation.to_be_bytes(),
        &[],
    )
}

// Begins a side of this generation.
pub(crate) fn begin_on<D: Disk>(disk: &mut D, generation: u64) -> Result<(), Failed>
    ensures goes { (is_b : Bool) (current : ℕ) → Idle is_b current (D.images disk.old)
        → Goes D.moment D.since (Harmless is_b current []) disk.old disk.new }
    ensures still { (is_b : Bool) (current : ℕ) → Idle is_b current (D.images disk.old)
        → Idle is_b current (D.images disk.new) }
    ensures begun { OnOk result (Making D.shown D.images generation 16 [] disk.new) }
    ensures count { D.faults disk.old ≤ D.faults disk.new }
    ensures cause { OnErr result (Rose (D.faults disk.old) (D.faults disk.new)) }
{
    clear_on(disk)?;
    head_on(disk, generation)
}

// Writes a record behind those that are there, with an open gate.
#[tactic(auto, unfolding(disk_core::specs::Disk::written, disk_core::specs::Disk::over))]
pub(crate) fn add_on<D: Disk>(disk: &mut D, place: u64, body: &[u8]) -> Result<(), Failed>
    requires fits { (length body.now < 2 ^ 32) × (place + 6 + length body.now < 2 ^ 64) }
    requires making { (generation : ℕ) × (added : List (List ℕ))
        × Making D.shown D.images generation place added disk.old }
    ensures kept { Leads D.moment D.since D.images (Keeps 1) disk.old disk.new }
    ensures added { OnOk result ((generation : ℕ) (added : List (List ℕ))
        → Making D.shown D.images generation place added disk.old
        → Making D.shown D.images generation (place + 5 + length body.now) (added ++ body.now ∷ [])
        disk.new) }
    ensures count { D.faults disk.old ≤ D.faults disk.new }
    ensures cause { OnErr result (Rose (D.faults disk.old) (D.faults disk.new)) }
{
    let size = (body.len() as u32).to_be_bytes();
    disk.write_framed(place, &[1, size[0], size[1], size[2], size[3]], body, &[])
}

// Ends the records with a closed gate, and makes them stable.
pub(crate) fn close_on<D: Disk>(disk: &mut D, place: u64) -> Result<(), Failed>
    requires making { (generation : ℕ) × (added : List (List ℕ))
        × Making D.shown D.images generation place added disk.old }
    ensures kept { Leads D.moment D.since D.images (Keeps 1) disk.old disk.new }
    ensures closed { OnOk result ((generation : ℕ) (added : List (List ℕ))
        → Making D.shown D.images generation place added disk.old
        → Every (D.images disk.new) (Gate [] (inner generation added ++ 0 ∷ []))) }
    ensures count { D.faults disk.old ≤ D.faults disk.new }
    ensures cause { OnErr result (Rose (D.faults disk.old) (D.faults disk.new)) }
{
    disk.write_at(place, &[0])?;
    disk.sync()
}
