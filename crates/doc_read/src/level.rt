//! The declarations of one tag.

ghost use Rattle.std.specs.Prelude.{◌≡◌, ℕ, List, None, IfOk};
ghost use Rattle.std.specs.Option.{option_copied, ForSome};
ghost use Rattle.std.specs.BTreeMap.{get_by_text};
ghost use Rattle.doc_read.specs.Scope.{newest, newer};

use crate::scope::Bound;
use std::alloc::Global;
use std::collections::BTreeMap;
use wfs_ends::{Mem, Text};

// So many declarations are gone over faster than a map is made of them.
const FEW: usize = 8;

/// What one tag declares, to be looked up by prefix.
#[derive(Drop)]
pub struct Level {
    pub bounds: Vec<Bound>,
    // where they are more than a few
    spaces: Option<BTreeMap<String, Text>>,
    ghost looked_up: { ForSome spaces (λ map. (prefix : List ℕ) → get_by_text map prefix
        ≡ newest prefix None bounds.items) },
}

fn newer<'b>(found: Option<&'b Text>, bound: &'b Bound, prefix: &str) -> Option<&'b Text>
    ensures { option_copied result ≡ newer prefix.now (option_copied found.entry) bound.now }
{
    if bound.prefix.as_str() == prefix {
        Some(&bound.space)
    } else {
        found
    }
}

fn newest_in<'b>(bounds: &'b [Bound], prefix: &str) -> Option<&'b Text>
    ensures { option_copied result ≡ newest prefix.now None bounds.now }
{
    let mut found = None;
    for bound in bounds {
        found = newer(found, bound, prefix);
    }
    found
}

fn spaces_of(alloc: Global, bounds: &[Bound]) -> Mem<BTreeMap<String, Text>>
    ensures { IfOk result (λ spaces. (prefix : List ℕ)
        → get_by_text spaces prefix ≡ newest prefix None bounds.now) }
{
    let mut spaces = BTreeMap::new(alloc);
    for bound in bounds {
        let prefix = String::from_str(alloc, bound.prefix.as_str())?;
        let space = bound.space.copy(alloc)?;
        spaces.insert(prefix, space)?;
    }
    Ok(spaces)
}

impl Level {
    pub fn new(alloc: Global, bounds: Vec<Bound>) -> Mem<Level>
        ensures { IfOk result (λ level. level.bounds.items ≡ bounds.items) }
    {
        let spaces = if bounds.len() <= FEW {
            None
        } else {
            Some(spaces_of(alloc, &bounds)?)
        };
        Ok(Level { bounds, spaces })
    }

    pub fn space_of(&self, prefix: &str) -> Option<&Text>
        ensures { option_copied result ≡ newest prefix.now None self.now.bounds.items }
    {
        match &self.spaces {
            Some(spaces) => spaces.get(prefix),
            None => newest_in(&self.bounds, prefix),
        }
    }
}
