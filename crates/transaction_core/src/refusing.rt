//! How a transaction is refused.

ghost use Rattle.wfs_model.specs.Refusals.{refusal};
ghost use Rattle.transaction_core.specs.Plan.{IsRefusal};

use crate::fault::PlanFault;
use std::alloc::Global;
use wfs_ends::{OutOfMemory, Text};
use wfs_model::Refusal;

/// The refusal by a row, which points at a part of the request. Naming that part takes memory.
pub(crate) fn refused(alloc: Global, row: u8, locator: &str) -> PlanFault
    ensures { IsRefusal result (refusal row locator.now) }
{
    match Text::of(alloc, locator) {
        Ok(locator) => PlanFault::Refused(Refusal { row, locator }),
        Err(OutOfMemory) => PlanFault::OutOfMemory,
    }
}
