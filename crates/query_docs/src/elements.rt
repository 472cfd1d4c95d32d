//! Elements that stand in queries: those of FES, and those that hold a text alone.

ghost use Rattle.std.specs.Prelude.{◌≡◌, map};
ghost use Rattle.wfs_ends.specs.Read.{GivesBut};
ghost use Rattle.request_parameters.specs.Elements.{said_at, no_children};
ghost use Rattle.query_docs.specs.Elements.{text_alone, not_offered, refusal_by};

use doc_tree::{Element, is_name};
use fes_docs::FilterDocFault;
use request_parameters::{Attributes, Given, misplaced, no_others, text_in};
use std::alloc::Global;
use wfs_ends::Text;
use wfs_model::{AskFault, refused};

// Refuses elements where none is allowed.
pub(crate) fn no_children(alloc: Global, elements: &[Element]) -> Result<(), AskFault>
    ensures { GivesBut AskFault.OutOfMemory (λ x. x) result (no_children elements.now) }
{
    match elements {
        [] => Ok(()),
        [first, ..] => Err(misplaced(alloc, first)),
    }
}

// The text of an element that has no attributes and holds nothing else.
#[tactic(auto, unfolding(crate::specs::Elements::text_alone))]
pub(crate) fn text_alone<'a>(alloc: Global, element: &'a Element) -> Result<&'a Text, AskFault>
    ensures { GivesBut AskFault.OutOfMemory (λ text. text.now) result (text_alone element.now) }
{
    no_others(alloc, element, &[])?;
    text_in(alloc, element)
}

// Refuses an attribute that the service does not offer.
pub(crate) fn not_offered(alloc: Global, element: &Element, name: &str) -> Result<(), AskFault>
    ensures { GivesBut AskFault.OutOfMemory (λ x. x) result
        (not_offered name.now (said_at element.now name.now)) }
{
    let said = Attributes { of: element };
    match said.value_of(name) {
        None => Ok(()),
        Some(_) => Err(refused(alloc, 12, name)),
    }
}

// The refusal that a fault of a filter is.
#[tactic(auto, unfolding(crate::specs::Elements::refusal_by))]
pub(crate) fn refusal_by(alloc: Global, fault: &FilterDocFault) -> AskFault
    ensures { (result ≡ AskFault.OutOfMemory → ⊥) → result ≡ refusal_by fault.now }
{
    let (row, locator) = fault.refusal();
    refused(alloc, row, locator)
}
