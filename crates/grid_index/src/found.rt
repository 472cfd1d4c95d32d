//! The features found so far, each once.

ghost use Rattle.std.specs.Prelude.{◌≡◌, ◌||◌, [], OnOk};
ghost use Rattle.grid_index.specs.Found.{AreMarked, FindsAlso};
ghost use Rattle.grid_index.specs.Near.{is_among, is_same};

use feature_values::Rid;
use geom_core::Box2;
use std::alloc::Global;
use std::collections::HashSet;
use wfs_ends::Mem;

// Features in the order in which they were found, and marks of them.
#[derive(Drop)]
pub struct Found {
    pub ids: Vec<Rid>,
    pub marks: HashSet<(u32, u64)>,
}

impl Found {
    pub fn new(alloc: Global) -> Found
        ensures ids { result.ids.items ≡ [] }
        ensures marked { AreMarked result.marks result.ids.items }
    {
        Found {
            ids: Vec::new(alloc),
            marks: HashSet::new(alloc),
        }
    }

    // Adds a feature, where it is not there yet.
    pub fn add(&mut self, id: Rid) -> Mem<()>
        requires { AreMarked self.old.marks self.old.ids.items }
        ensures ids { OnOk result ((f : _) → is_among f self.new.ids.items
            ≡ (is_among f self.old.ids.items || is_same id f)) }
        ensures marked { OnOk result (AreMarked self.new.marks self.new.ids.items) }
    {
        if self.marks.insert((id.kind, id.number))? {
            self.ids.push(id)?;
        }
        Ok(())
    }

    // Adds the features of pairs.
    pub fn add_all(&mut self, pairs: &[(Rid, Box2)]) -> Mem<()>
        requires { AreMarked self.old.marks self.old.ids.items }
        ensures marked { OnOk result (AreMarked self.new.marks self.new.ids.items) }
        ensures finds { OnOk result (FindsAlso pairs.now self.old.ids.items self.new.ids.items) }
    {
        for pair in pairs {
            self.add(pair.0)?;
        }
        Ok(())
    }
}
