//! The identifiers of stored queries.

ghost use Rattle.std.specs.Prelude.{◌≡◌, false, IfOk};
ghost use Rattle.wfs_ends.specs.Read.{GivesBut};
ghost use Rattle.wfs_model.specs.Stored.{is_id_query};
ghost use Rattle.request_parameters.specs.Stored.{dropped_of};

use crate::said::{Given, required_of};
use std::alloc::Global;
use wfs_ends::Text;
use wfs_model::{AskFault, is_id_query, refused};

/// The identifier of a stored query that is to go (OGC 09-025r2, section 14.6), under the name that it has in a form: `id` in a
/// document, `storedQuery_id` in a query. A missing one is row 10 with that name, one of the built-in query row 12 with
/// `storedQuery_id`.
#[tactic(auto, unfolding(crate::specs::Stored::dropped_of, wfs_ends::specs::Read::unless))]
pub fn dropped_of<G: Given>(alloc: Global, name: &str, given: &G) -> Result<Text, AskFault>
    ensures read { GivesBut AskFault.OutOfMemory (λ id. id) result
        (dropped_of name.now (G.said given.now)) }
    ensures other { IfOk result (λ id. is_id_query id ≡ false) }
{
    let id = required_of(alloc, given, name)?;
    if is_id_query(id.as_str()) {
        return Err(refused(alloc, 12, "storedQuery_id"));
    }
    Ok(id)
}
