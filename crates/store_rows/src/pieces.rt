//! Pieces of bytes.

use std::alloc::Global;
use wfs_ends::Mem;

/// Some pieces, one after the other.
pub fn joined(alloc: Global, pieces: &[&[u8]]) -> Mem<Vec<u8>> {
    let mut bytes = Vec::new(alloc);
    for piece in pieces {
        bytes.extend_from_slice(piece)?;
    }
    Ok(bytes)
}

/// Whether bytes are these pieces, one after the other.
pub fn are_joined(bytes: &[u8], pieces: &[&[u8]]) -> bool {
    let mut rest = bytes;
    for piece in pieces {
        match rest.strip_prefix(*piece) {
            Some(behind) => rest = behind,
            None => return false,
        }
    }
    rest.is_empty()
}
