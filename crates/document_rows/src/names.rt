//! Names of elements and attributes, from the text of their namespace and their own.

use doc_tree::QName;
use std::alloc::Global;
use wfs_ends::{Mem, Text};

pub fn name(alloc: Global, space: &str, local: &str) -> Mem<QName> {
    Ok(QName {
        space: Text::of(alloc, space)?,
        local: Text::of(alloc, local)?,
    })
}
