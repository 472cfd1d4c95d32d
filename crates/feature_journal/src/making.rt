//! Making a side that is not current.

ghost use Rattle.std.specs.Prelude.{◌≡◌, ◌⊎◌, ◌≤◌, ◌<◌, ◌+◌, ◌-◌, ◌^◌, ◌++◌, ◌∷◌, [], ℕ, Bool, true, false, List, length, OnOk, OnErr, IfOk, IfSome, IsTrue, ◌↔◌};
ghost use Rattle.wfs_ends.specs.Ends.{Rose};
ghost use Rattle.disk_core.specs.Disk.{Leads, Goes, Every, Torn, Same, Keeps, Begins};
ghost use Rattle.feature_journal.specs.Side.{Gate};
ghost use Rattle.feature_journal.specs.Whole.{Idle, Harmless, HarmlessOr};
ghost use Rattle.feature_journal.specs.Made.{Made};
ghost use Rattle.feature_journal.specs.Nothing.{Nothing, Unused};
ghost use Rattle.feature_journal.specs.Held.{HeldClosed};
ghost use Rattle.disk_core.specs.Sides.{Within};

use crate::side::set_gate;
use disk_core::{Disk, Pair};
use wfs_ends::Failed;

// Whether byte 0 reads 0.
fn reads_zero<D: Disk>(disk: &mut D) -> Result<bool, Failed>
    ensures zero { IfOk result (λ z. IfSome (D.shown disk.old)
        (λ s. IsTrue z ↔ Begins (0 ∷ []) s)) }
    ensures same { D.shown disk.new ≡ D.shown disk.old }
    ensures crash { Leads D.moment D.since D.images Same disk.old disk.new }
    ensures count { D.faults disk.old ≤ D.faults disk.new }
    ensures cause { OnErr result (Rose (D.faults disk.old) (D.faults disk.new)) }
{
    let mut first = [1];
    let n = disk.read(0, &mut first)?;
    Ok(n == 1 && first[0] == 0)
}

// Has byte 0 read 0. It is written only where it does not read so, since a write may leave any byte.
fn zero_first<D: Disk>(disk: &mut D) -> Result<(), Failed>
    ensures goes { (is_b : Bool) (generation : ℕ) → Idle is_b generation (D.images disk.old)
        → Goes D.moment D.since (Harmless is_b generation []) disk.old disk.new }
    ensures still { (is_b : Bool) (generation : ℕ) → Idle is_b generation (D.images disk.old)
        → Idle is_b generation (D.images disk.new) }
    ensures zero { OnOk result (IfSome (D.shown disk.new) (Begins (0 ∷ []))) }
    ensures count { D.faults disk.old ≤ D.faults disk.new }
    ensures cause { OnErr result (Rose (D.faults disk.old) (D.faults disk.new)) }
{
    if reads_zero(disk)? {
        return Ok(());
    }
    disk.write_at(0, &[0])
}

// Closes byte 0 for good, and cuts what stands behind it.
pub(crate) fn clear_on<D: Disk>(disk: &mut D) -> Result<(), Failed>
    ensures goes { (is_b : Bool) (generation : ℕ) → Idle is_b generation (D.images disk.old)
        → Goes D.moment D.since (Harmless is_b generation []) disk.old disk.new }
    ensures still { (is_b : Bool) (generation : ℕ) → Idle is_b generation (D.images disk.old)
        → Idle is_b generation (D.images disk.new) }
    ensures cleared { OnOk result (Every (D.images disk.new) (Begins (0 ∷ []))) }
    ensures cut { OnOk result (IfSome (D.shown disk.new) (λ s. s ≡ 0 ∷ [])) }
    ensures count { D.faults disk.old ≤ D.faults disk.new }
    ensures cause { OnErr result (Rose (D.faults disk.old) (D.faults disk.new)) }
{
    zero_first(disk)?;
    disk.sync()?;
    disk.cut(1)
}

// Writes a text behind a closed byte 0, for good.
fn fill_on<D: Disk>(disk: &mut D, text: &[u8]) -> Result<(), Failed>
    requires { Every (D.images disk.old) (Begins (0 ∷ [])) }
    ensures kept { Leads D.moment D.since D.images (Keeps 1) disk.old disk.new }
    ensures filled { OnOk result (Every (D.images disk.new) (Gate [] text.now)) }
    ensures count { D.faults disk.old ≤ D.faults disk.new }
    ensures cause { OnErr result (Rose (D.faults disk.old) (D.faults disk.new)) }
{
    disk.write_at(1, text)?;
    disk.sync()
}

// What became of a side that was to be made.
pub(crate) enum Making {
    Done,
    Clean,
    Begun,
}

// Makes a side of this text, which stands behind byte 0.
pub(crate) fn make_on<D: Disk>(disk: &mut D, text: &[u8]) -> Making
    ensures goes { (is_b : Bool) (generation : ℕ) → Idle is_b generation (D.images disk.old)
        → Goes D.moment D.since (HarmlessOr is_b generation (Gate [] text.now)) disk.old disk.new }
    ensures now { (is_b : Bool) (generation : ℕ) → Idle is_b generation (D.images disk.old)
        → Made is_b generation text.now result (D.images disk.new) }
    ensures count { D.faults disk.old ≤ D.faults disk.new }
    ensures cause { (result ≡ Making.Done) ⊎ Rose (D.faults disk.old) (D.faults disk.new) }
{
    match clear_on(disk) {
        Err(_) => Making::Clean,
        Ok(()) => match fill_on(disk, text) {
            Err(_) => Making::Clean,
            Ok(()) => match set_gate(disk, 0, 1) {
                Err(_) => Making::Begun,
                Ok(()) => Making::Done,
            },
        },
    }
}

/// Makes side a, with generation 1 and no record.
pub(crate) fn make_first<D: Disk>(disks: &mut Pair<D>) -> Making
    requires { Unused (D.images disks.old.a) × Unused (D.images disks.old.b) }
    ensures goes { Within D.moment D.since Nothing disks.old disks.new }
    ensures done { result ≡ Making.Done → HeldClosed D.images false 1 16 [] disks.new }
    ensures other { disks.new.b ≡ disks.old.b }
    ensures count { D.faults disks.old.a ≤ D.faults disks.new.a }
    ensures cause { (result ≡ Making.Done) ⊎ Rose (D.faults disks.old.a) (D.faults disks.new.a) }
{
    make_on(
        &mut disks.a,
        &[87, 70, 83, 74, 78, 76, 1, 0, 0, 0, 0, 0, 0, 0, 1, 0],
    )
}
