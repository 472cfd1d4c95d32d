//! Parameters of stored queries in the texts of a filter.

ghost use Rattle.std.specs.Prelude.{◌≡◌, ◌<◌};
ghost use Rattle.std.specs.Option.{option_copied};
ghost use Rattle.wfs_ends.specs.Read.{GivesBut};
ghost use Rattle.fes_docs.specs.Uses.{behind_first, before_last, not_empty, name_in, place_named, place_of};
ghost use Rattle.fes_docs.specs.declared.fault.FilterDocFault.TheVariants.{OutOfMemory};

use crate::fault::{FilterDocFault, undeclared};
use std::alloc::Global;
use wfs_ends::{List, Text};

fn behind_first(text: &str, first: char) -> Option<&str>
    requires { first < 128 }
    ensures { option_copied result ≡ behind_first first text.now }
{
    text.strip_prefix(first)
}

fn before_last(text: &str, last: char) -> Option<&str>
    requires { last < 128 }
    ensures { option_copied result ≡ before_last last text.now }
{
    text.strip_suffix(last)
}

fn not_empty(text: &str) -> Option<&str>
    ensures { option_copied result ≡ not_empty text.now }
{
    if text.is_empty() {
        return None;
    }
    Some(text)
}

// The name in a text that is `${`, a name and `}`.
#[tactic(auto, unfolding(crate::specs::Uses::name_in))]
fn name_in(text: &str) -> Option<&str>
    ensures { option_copied result ≡ name_in text.now }
{
    let rest = behind_first(text, '$')?;
    let rest = behind_first(rest, '{')?;
    let name = before_last(rest, '}')?;
    not_empty(name)
}

// The place of the first parameter of this name.
#[tactic(auto, unfolding(crate::specs::Uses::place_named))]
fn place_named(names: &[Text], name: &str) -> Option<u32>
    ensures { result ≡ place_named names.now name.now }
{
    for i in 0..names.len() {
        if names[i].as_str() == name {
            return u32::try_from(i).ok();
        }
    }
    None
}

// The place of the parameter that a text stands for, where parameters are listed.
#[tactic(auto, unfolding(crate::specs::Uses::place_of))]
pub(crate) fn place_of(
    alloc: Global,
    parameters: Option<&List<Text>>,
    text: &str,
) -> Result<Option<u32>, FilterDocFault>
    ensures { GivesBut OutOfMemory (λ x. x) result
        (place_of (option_copied parameters.entry) text.now) }
{
    let Some(names) = parameters else {
        return Ok(None);
    };
    let Some(name) = name_in(text) else {
        return Ok(None);
    };
    match place_named(names.items(), name) {
        None => Err(undeclared(alloc, name)),
        Some(place) => Ok(Some(place)),
    }
}
