//! Two disks.

ghost use Rattle.std.specs.Prelude.{◌≡◌, ◌≤◌, ◌⊎◌, List, ℕ, Some, OnOk, OnErr};
ghost use Rattle.wfs_ends.specs.Ends.{Rose};
ghost use Rattle.disk_core.specs.Disk.{Every, Leads, Same};
ghost use Rattle.disk_core.specs.Sides.{Within};

use crate::Disk;
use wfs_ends::Failed;

/// Two disks, as the two sides of a journal.
#[derive(Drop)]
pub struct Pair<D> {
    pub a: D,
    pub b: D,
}

impl<D: Disk> Pair<D> {
    /// Syncs one disk, and then the other. At each moment until then a crash leaves images that a crash at the start
    /// might have left, and after Ok each disk leaves just what a read gives.
    pub fn sync(&mut self) -> Result<(), Failed>
        ensures within { Within D.moment D.since
            (λ x y. D.images self.old.a x × D.images self.old.b y) self.old self.new }
        ensures stable { OnOk result (Every (D.images self.new.a) (λ x. D.shown self.old.a ≡ Some x)
            × Every (D.images self.new.b) (λ y. D.shown self.old.b ≡ Some y)) }
        ensures crash { Leads D.moment D.since D.images Same self.old.a self.new.a
            × Leads D.moment D.since D.images Same self.old.b self.new.b }
        ensures same { (D.shown self.new.a ≡ D.shown self.old.a)
            × (D.shown self.new.b ≡ D.shown self.old.b) }
        ensures count { (D.faults self.old.a ≤ D.faults self.new.a)
            × (D.faults self.old.b ≤ D.faults self.new.b) }
        ensures cause { OnErr result (Rose (D.faults self.old.a) (D.faults self.new.a)
            ⊎ Rose (D.faults self.old.b) (D.faults self.new.b)) }
    {
        self.a.sync()?;
        self.b.sync()
    }
}
