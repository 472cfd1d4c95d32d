//! What the program leaves, and the statuses that it ends with.

ghost use Rattle.std.specs.Prelude.{◌≡◌, ℕ};
ghost use Rattle.wfsd_commands.specs.Left.{LeavesDisks, LeavesStore};

use disk_core::{Disk, Pair};
use wfs_store::Store;

/// All was done.
pub const DONE: u8 = 0;
/// The words of the command line are refused.
pub const BAD_WORDS: u8 = 2;
/// The schema is refused.
pub const SCHEMA_REFUSED: u8 = 3;
/// The schema's source failed, or the input of a session.
pub const READ_FAULT: u8 = 4;
/// A disk failed.
pub const STORE_FAULT: u8 = 5;
/// The files hold no journal, or none of this schema.
pub const JOURNAL_REFUSED: u8 = 6;
/// The output failed, where no other status came first.
pub const WRITE_FAULT: u8 = 7;
/// Memory ran out.
pub const OUT_OF_MEMORY: u8 = 8;
/// The input of a session ended within a message.
pub const CUT: u8 = 10;
/// The journal has no room.
pub const FULL: u8 = 11;
/// A refusal closed the session.
pub const UNFRAMED: u8 = 12;

/// What the program leaves: its status, and the store where it was started, else the disks.
#[derive(Drop)]
pub struct Done<D: Disk> {
    /// The status that the process ends with.
    pub status: u8,
    /// The store, where it was started.
    pub store: Option<Store<D>>,
    /// The disks, where no store was started.
    pub disks: Option<Pair<D>>,
}

/// An end where no store was started.
pub fn leave_disks<D: Disk>(status: u8, disks: Pair<D>) -> Done<D>
    ensures { LeavesDisks status disks result }
{
    Done {
        status,
        store: None,
        disks: Some(disks),
    }
}

/// An end with the store.
pub fn leave_store<D: Disk>(status: u8, store: Store<D>) -> Done<D>
    ensures { LeavesStore status store result }
{
    Done {
        status,
        store: Some(store),
        disks: None,
    }
}
