//! Values that can be copied, as the items of a page that is written while others share it.

ghost use Rattle.std.specs.Prelude.{◌≡◌, IfOk};

use std::alloc::Global;
use wfs_ends::Mem;

/// A value that can be copied, where there is memory.
pub trait Copies: Drop {
    /// An equal value.
    fn copy(&self, alloc: Global) -> Mem<Self>
        ensures { IfOk result (λ value. value ≡ self.now) };
}
