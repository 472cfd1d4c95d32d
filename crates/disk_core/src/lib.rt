//! Files, and what a crash may leave of them.
//!
//! `Disk` is a file with the model of a crash, `MemDisk` one in memory whose failures are told beforehand, and
//! `FileDisk` a file of the system. `Pair` is two of them.
#![tactic(auto)]

mod call;
mod crash;
mod disk;
mod file;
mod in_memory;
mod laws;
mod memory;
mod pair;

pub use disk::Disk;
pub use file::FileDisk;
pub use laws::{
    all_outside_stays, any_bytes_in_the_range, crash_keeps_the_first, later_write_alone,
    write_and_sync,
};
pub use memory::MemDisk;
pub use pair::Pair;
