//! Patterns of texts.

ghost use Rattle.std.specs.Prelude.{◌≡◌, IfOk};

use std::alloc::Global;
use wfs_ends::{List, Mem};

/// A part of a pattern that texts are like (OGC 09-026r2, section 7.7: PropertyIsLike).
#[derive(Clone, Copy, Debug, PartialEq, Eq)]
pub enum LikePart {
    /// This one character.
    Exactly(char),
    /// Any one character.
    One,
    /// Any number of any characters, also none.
    Many,
}

pub(crate) fn copy_pattern(alloc: Global, parts: &[LikePart]) -> Mem<List<LikePart>>
    ensures { IfOk result (λ all. all ≡ parts.now) }
{
    let mut all = Vec::with_capacity(alloc, parts.len())?;
    for part in parts {
        all.push(*part)?;
    }
    Ok(List::of(all))
}
