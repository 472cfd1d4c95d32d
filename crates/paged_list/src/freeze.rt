//! How a part of a list, and a page of parts, become such as others share.

ghost use Rattle.std.specs.Prelude.{◌≡◌, false, OnOk};
ghost use Rattle.paged_list.specs.Pages.{items_of, is_own};

use crate::page::Page;
use std::alloc::Global;
use wfs_ends::Mem;

/// A part of a list, in pages of its own or in shared ones.
pub(crate) trait Freeze: Drop {
    /// Makes all pages of the part such as others share. It copies no item.
    fn freeze(&mut self, alloc: Global) -> Mem<()>
        ensures { self.new ≡ self.old };
}

// Makes all pages of parts such as others share.
fn freeze_parts<P: Freeze>(parts: &mut Vec<P>, alloc: Global) -> Mem<()>
    ensures { parts.new.items ≡ parts.old.items }
{
    for place in 0..parts.len() {
        parts[place].freeze(alloc)?;
    }
    Ok(())
}

/// Makes a page of parts, and all their pages, such as others share. Where the page is shared, they are too.
pub(crate) fn freeze_page<P: Freeze>(page: &mut Page<P>, alloc: Global) -> Mem<()>
    ensures items { items_of page.new ≡ items_of page.old }
    ensures shared { OnOk result (is_own page.new ≡ false) }
{
    match page {
        Page::Own(parts) => freeze_parts(parts, alloc)?,
        Page::Shared(_) => return Ok(()),
    }
    page.freeze(alloc)
}
