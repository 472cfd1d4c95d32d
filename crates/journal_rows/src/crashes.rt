//! What a crash leaves of a disk.

use disk_core::{Disk, MemDisk};

/// Whether a crash that keeps so many writes leaves just these bytes.
pub fn leaves(disk: MemDisk, keep: u32, want: &[u8]) -> bool {
    let mut crashed = disk.crash(keep);
    let mut into = [0; 64];
    match crashed.read(0, &mut into) {
        Ok(n) => n <= 64 && &into[..n] == want,
        Err(_) => false,
    }
}
