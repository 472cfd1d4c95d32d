//! Elements and attributes of filters, and how each element is judged.

ghost use Rattle.std.specs.Prelude.{◌≡◌, map};
ghost use Rattle.std.specs.Option.{option_copied};
ghost use Rattle.wfs_ends.specs.Read.{GivesBut};
ghost use Rattle.fes_docs.specs.Names.{is_fes, value_of, no_others, named, no_more, and_no_more, first_in, plain, missing};
ghost use Rattle.fes_docs.specs.declared.fault.FilterDocFault.TheVariants.{OutOfMemory};

use crate::fault::{FilterDocFault, misplaced, no_operator};
use doc_tree::{Element, first_other, is_name, value_at};
use std::alloc::Global;
use wfs_ends::Text;

/// The namespace of FES 2.0.
pub const FES: &str = "http://www.opengis.net/fes/2.0";

/// Whether an element is FES's of this local name.
#[tactic(auto, unfolding(crate::specs::Names::is_fes))]
pub fn is_fes(element: &Element, local: &str) -> bool
    ensures { result ≡ is_fes local.now element.now }
{
    is_name(&element.name, FES, local)
}

// ---- attributes

// The value of the first attribute of this name in no namespace.
#[tactic(auto, unfolding(crate::specs::Names::value_of))]
pub(crate) fn value_of<'a>(element: &'a Element, local: &str) -> Option<&'a Text>
    ensures { option_copied result ≡ value_of local.now element.now }
{
    value_at(element.attributes.items(), "", local)
}

// Refuses an element that has other attributes than those listed.
#[tactic(auto, unfolding(crate::specs::Names::no_others))]
pub(crate) fn no_others(
    alloc: Global,
    element: &Element,
    listed: &[&str],
) -> Result<(), FilterDocFault>
    ensures { GivesBut OutOfMemory (λ x. x) result
        (no_others (map (λ n. n.now) listed.now) element.now) }
{
    match first_other(listed, element.attributes.items()) {
        None => Ok(()),
        Some(name) => Err(no_operator(alloc, name.as_str())),
    }
}

// ---- children

// Something is missing in an element.
pub(crate) fn missing(alloc: Global, element: &Element) -> FilterDocFault
    ensures { (result ≡ OutOfMemory → ⊥) → result ≡ missing element.now }
{
    misplaced(alloc, element.name.local.as_str())
}

// Refuses an element of any other name.
#[tactic(auto, unfolding(crate::specs::Names::named))]
pub(crate) fn named(alloc: Global, element: &Element, local: &str) -> Result<(), FilterDocFault>
    ensures { GivesBut OutOfMemory (λ x. x) result (named local.now element.now) }
{
    if is_fes(element, local) {
        return Ok(());
    }
    Err(missing(alloc, element))
}

// Refuses elements where none is allowed.
#[tactic(auto, unfolding(crate::specs::Names::no_more))]
pub(crate) fn no_more(alloc: Global, elements: &[Element]) -> Result<(), FilterDocFault>
    ensures { GivesBut OutOfMemory (λ x. x) result (no_more elements.now) }
{
    match elements {
        [] => Ok(()),
        [first, ..] => Err(missing(alloc, first)),
    }
}

// A value that was read, where no element stands behind it.
pub(crate) fn and_no_more<T: Drop>(
    alloc: Global,
    found: T,
    elements: &[Element],
) -> Result<T, FilterDocFault>
    ensures { GivesBut OutOfMemory (λ x. x) result (and_no_more found elements.now) }
{
    match no_more(alloc, elements) {
        Ok(()) => Ok(found),
        Err(fault) => Err(fault),
    }
}

// The first of the elements that stand in an element, and those behind it. One has to be there.
#[tactic(auto, unfolding(crate::specs::Names::first_in))]
pub(crate) fn first_in<'a>(
    alloc: Global,
    whole: &Element,
    elements: &'a [Element],
) -> Result<(&'a Element, &'a [Element]), FilterDocFault>
    ensures { GivesBut OutOfMemory (λ x. (x.0.now, x.1.now)) result
        (first_in whole.now elements.now) }
{
    match elements {
        [] => Err(missing(alloc, whole)),
        [first, rest @ ..] => Ok((first, rest)),
    }
}

// Refuses an element that has more than a text.
#[tactic(auto, unfolding(crate::specs::Names::plain))]
pub(crate) fn plain(alloc: Global, element: &Element) -> Result<(), FilterDocFault>
    ensures { GivesBut OutOfMemory (λ x. x) result (plain element.now) }
{
    no_others(alloc, element, &[])?;
    no_more(alloc, element.children.items())
}
