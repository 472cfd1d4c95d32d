//! What a request says by a name: a value that is there or has to be.

ghost use Rattle.std.specs.Prelude.{◌≡◌, ◌<◌, List, ℕ, Option, IfOk, length};
ghost use Rattle.std.specs.Option.{option_copied};
ghost use Rattle.wfs_ends.specs.Read.{GivesBut};
ghost use Rattle.wfs_model.specs.Terms.{refused};
ghost use Rattle.request_parameters.specs.Said.{or_fault, required_of, kind_of};

use feature_values::{Schema, without_prefix};
use std::alloc::Global;
use wfs_ends::{Mem, Text};
use wfs_model::{AskFault, refused};

/// What says something by named values: the attributes of an element, or the pairs of a query (OGC 09-025r2, section 6.2.5).
pub trait Given {
    /// The value of each name, as contracts see it.
    ghost said: { Self → List ℕ → Option (List ℕ) };

    /// The value of a name. `None`: there is none.
    fn value_of(&self, name: &str) -> Option<&Text>
        ensures { option_copied result ≡ said self.now name.now };
}

// What was read, or the refusal by this row and name.
pub(crate) fn or_refused<T>(
    alloc: Global,
    read: Option<T>,
    row: u8,
    name: &str,
) -> Result<T, AskFault>
    ensures { GivesBut AskFault.OutOfMemory (λ x. x) result (or_fault read (refused row name.now)) }
{
    match read {
        Some(x) => Ok(x),
        None => Err(refused(alloc, row, name)),
    }
}

/// A copy of the value of a name, where there is one. Copies share the text.
pub fn value_of<G: Given>(alloc: Global, given: &G, name: &str) -> Mem<Option<Text>>
    ensures { IfOk result (λ value. value ≡ G.said given.now name.now) }
{
    match given.value_of(name) {
        Some(value) => Ok(Some(value.copy(alloc)?)),
        None => Ok(None),
    }
}

/// A copy of a value that has to be there. A missing one is row 10 with the name.
#[tactic(auto, unfolding(crate::specs::Said::required_of))]
pub fn required_of<G: Given>(alloc: Global, given: &G, name: &str) -> Result<Text, AskFault>
    ensures { GivesBut AskFault.OutOfMemory (λ text. text) result
        (required_of name.now (G.said given.now)) }
{
    match given.value_of(name) {
        Some(value) => Ok(value.copy(alloc)?),
        None => Err(refused(alloc, 10, name)),
    }
}

/// The type of a name, whose prefix is dropped and not judged. An unknown one is row 11 with the part of the request that names it.
#[tactic(auto, unfolding(crate::specs::Said::kind_of), using(crate::proofs::Named::is_type))]
pub fn kind_of(alloc: Global, schema: &Schema, part: &str, name: &str) -> Result<u32, AskFault>
    ensures read { GivesBut AskFault.OutOfMemory (λ kind. kind) result
        (kind_of schema.now part.now name.now) }
    ensures known { IfOk result (λ kind. kind < length schema.now.types) }
{
    let Some(kind) = schema.type_named(without_prefix(name)) else {
        return Err(refused(alloc, 11, part));
    };
    Ok(kind)
}
