//! Identifiers that a filter names.

ghost use Rattle.std.specs.Prelude.{◌≡◌, IfOk};
ghost use Rattle.std.specs.List.{list_any};
ghost use Rattle.fes_filter.specs.Truth.{is_of};

use feature_values::Rid;
use std::alloc::Global;
use wfs_ends::{List, Mem};

/// A resource id in a filter (OGC 09-026r2, section 7.11).
#[derive(Clone, Copy, Debug, PartialEq, Eq)]
pub enum IdRef {
    /// The identifier of a feature, which need not be there.
    Known(Rid),
    /// A text that is the identifier of no feature there could be. It selects nothing.
    Nobody,
    /// A parameter of a stored query, by its place in the query's list. It selects nothing until an identifier is put
    /// in its place.
    Parameter(u32),
}

pub(crate) fn copy_ids(alloc: Global, ids: &[IdRef]) -> Mem<List<IdRef>>
    ensures { IfOk result (λ all. all ≡ ids.now) }
{
    let mut all = Vec::with_capacity(alloc, ids.len())?;
    for id in ids {
        all.push(*id)?;
    }
    Ok(List::of(all))
}

fn is_of(id: Rid, reference: IdRef) -> bool
    ensures { result ≡ is_of id reference }
{
    match reference {
        IdRef::Known(other) => other.kind == id.kind && other.number == id.number,
        IdRef::Nobody | IdRef::Parameter(_) => false,
    }
}

/// Whether one of them is this identifier.
pub(crate) fn is_among(id: Rid, references: &[IdRef]) -> bool
    ensures { result ≡ list_any (is_of id) references.now }
{
    for reference in references {
        if is_of(id, *reference) {
            return true;
        }
    }
    false
}
