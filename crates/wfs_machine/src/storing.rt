//! Steps that make stored queries and drop them.

ghost use Rattle.std.specs.Prelude.{◌≡◌, IfOk};
ghost use Rattle.wfs_model.specs.declared.request.Request.TheVariants.{CreateStored, DropStored};
ghost use Rattle.wfs_model.specs.OfSchema.{IsOfSchema};
ghost use Rattle.wfs_machine.specs.Carried.{made, unmade};
ghost use Rattle.wfs_machine.specs.Told.{IsNext, Settles};

use crate::Plain;
use crate::naming::refused_by;
use std::alloc::Global;
use wfs_ends::{List, Mem, Text};
use wfs_model::{Reply, StoredQuery};

/// Equal stored queries.
pub(crate) fn copies(alloc: Global, stored: &[StoredQuery]) -> Mem<List<StoredQuery>>
    ensures { IfOk result (λ all. all ≡ stored.now) }
{
    let mut all = Vec::with_capacity(alloc, stored.len())?;
    for query in stored {
        all.push(query.copy(alloc)?)?;
    }
    Ok(List::of(all))
}

impl Plain {
    /// Makes stored queries, all of them or none (OGC 09-025r2, section 14.5).
    pub(crate) fn create(&mut self, moment: u64, definitions: &List<StoredQuery>) -> Mem<Reply>
        requires next { IsNext self.old.state moment }
        requires fitting { IsOfSchema self.old.schema (CreateStored definitions.now) }
        ensures { Settles self.old moment (made self.old.state definitions.now) result self.new }
    {
        let definitions = copies(self.alloc, definitions.items())?;
        match self.stored.create(definitions) {
            Ok(()) => {
                self.last = moment;
                Ok(Reply::Created)
            }
            Err(fault) => {
                let fault = refused_by(self.alloc, fault);
                self.fail(moment, fault)
            }
        }
    }

    /// Drops a stored query (OGC 09-025r2, section 14.6).
    pub(crate) fn drop_stored(&mut self, moment: u64, id: &Text) -> Mem<Reply>
        requires next { IsNext self.old.state moment }
        requires fitting { IsOfSchema self.old.schema (DropStored id.now) }
        ensures { Settles self.old moment (unmade self.old.state id.now) result self.new }
    {
        let id = id.copy(self.alloc)?;
        match self.stored.drop_query(id) {
            Ok(()) => {
                self.last = moment;
                Ok(Reply::Dropped)
            }
            Err(fault) => {
                let fault = refused_by(self.alloc, fault);
                self.fail(moment, fault)
            }
        }
    }
}
