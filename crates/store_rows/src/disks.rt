//! Disks in memory that hold sides of a journal.

use crate::pieces::joined;
use crate::sides::{EMPTY, Side};
use disk_core::{Disk, MemDisk, Pair};
use std::alloc::Global;
use wfs_ends::Mem;

/// A disk that holds a side. The listed calls of it fail, and all from a stop on.
pub fn disk(alloc: Global, side: Side, failing: &[u64], stop: Option<u64>) -> Mem<MemDisk> {
    let (pieces, _) = side;
    let bytes = joined(alloc, pieces)?;
    let listed = Vec::from_slice(alloc, failing)?;
    MemDisk::new(alloc, bytes, 100, 1_000, listed, stop)
}

/// Two disks: the first holds a side, and the listed calls of it fail; the second is empty.
pub fn pair(alloc: Global, side: Side, failing: &[u64]) -> Mem<Pair<MemDisk>> {
    Ok(Pair {
        a: disk(alloc, side, failing, None)?,
        b: disk(alloc, EMPTY, &[], None)?,
    })
}

// Whether a piece stands at a place.
fn stands_at<D: Disk>(disk: &mut D, at: u64, piece: &[u8]) -> bool {
    let mut into = [0; 128];
    match disk.read(at, &mut into) {
        Ok(n) => piece.len() <= n && n <= 128 && &into[..piece.len()] == piece,
        Err(_) => false,
    }
}

// Where pieces end that stand from the first byte on.
fn end_of<D: Disk>(disk: &mut D, pieces: &[&[u8]]) -> Option<u64> {
    let mut at: u64 = 0;
    for piece in pieces {
        if !stands_at(disk, at, piece) {
            return None;
        }
        at = at.saturating_add(piece.len() as u64);
    }
    Some(at)
}

fn has_length<D: Disk>(disk: &mut D, length: u64) -> bool {
    match disk.len() {
        Ok(found) => found == length,
        Err(_) => false,
    }
}

fn holds<D: Disk>(disk: &mut D, side: Side) -> bool {
    let (pieces, length) = side;
    end_of(disk, pieces) == Some(length) && has_length(disk, length)
}

/// Whether two disks hold just these sides.
pub fn hold<D: Disk>(disks: &mut Pair<D>, a: Side, b: Side) -> bool {
    holds(&mut disks.a, a) && holds(&mut disks.b, b)
}

/// What a crash leaves that keeps so many writes of each disk since its last sync.
pub fn crashed(disks: Pair<MemDisk>, keep: u32) -> Pair<MemDisk> {
    Pair {
        a: disks.a.crash(keep),
        b: disks.b.crash(keep),
    }
}
