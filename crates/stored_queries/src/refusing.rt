//! How what is wrong with stored queries is refused.

ghost use Rattle.std.specs.Prelude.{◌≡◌, ◌≢◌, IfOk, OnOk};
ghost use Rattle.wfs_model.specs.declared.fault.StoredFault.TheVariants.{OutOfMemory as NoMemory};
ghost use Rattle.wfs_model.specs.Refusals.{refusal, refusal_of, no_such_query, no_such_feature, no_such_property};

use std::alloc::Global;
use wfs_ends::{Mem, OutOfMemory, Text};
use wfs_model::{Refusal, StoredFault};

fn refused(alloc: Global, row: u8, name: &str) -> Mem<Refusal>
    ensures { IfOk result (λ r. r ≡ refusal row name.now) }
{
    Ok(Refusal {
        row,
        locator: Text::of(alloc, name)?,
    })
}

/// How what is wrong with stored queries is refused. Want of memory stays what it is.
pub fn refusal_of(alloc: Global, fault: StoredFault) -> Mem<Refusal>
    ensures value { IfOk result (λ r. r ≡ refusal_of fault) }
    ensures memory { OnOk result (fault ≢ NoMemory) }
{
    match fault {
        StoredFault::DuplicateId(locator) => Ok(Refusal { row: 21, locator }),
        StoredFault::DuplicateParameter(locator) => Ok(Refusal { row: 22, locator }),
        StoredFault::Unknown(_) => no_such_query(alloc),
        StoredFault::MissingParameter(locator) => Ok(Refusal { row: 10, locator }),
        StoredFault::BuiltIn => refused(alloc, 12, "storedQuery_id"),
        StoredFault::BadParameter(locator) => Ok(Refusal { row: 11, locator }),
        StoredFault::OutOfMemory => Err(OutOfMemory),
    }
}

/// There is no stored query with an identifier.
pub(crate) fn no_such_query(alloc: Global) -> Mem<Refusal>
    ensures { IfOk result (λ r. r ≡ no_such_query) }
{
    refused(alloc, 24, "storedQuery_id")
}

/// No feature has the identifier that is asked for.
pub(crate) fn no_such_feature(alloc: Global) -> Mem<Refusal>
    ensures { IfOk result (λ r. r ≡ no_such_feature) }
{
    refused(alloc, 23, "id")
}

/// A property that the type has not, by its name as it was given.
pub(crate) fn no_such_property(alloc: Global, name: &str) -> Mem<Refusal>
    ensures { IfOk result (λ r. r ≡ no_such_property name.now) }
{
    refused(alloc, 11, name)
}
