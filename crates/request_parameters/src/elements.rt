//! Elements of documents: what their attributes say, which attributes they may not have, and the text of those that hold text alone.

ghost use Rattle.std.specs.Prelude.{◌≡◌, map};
ghost use Rattle.std.specs.Option.{option_copied};
ghost use Rattle.wfs_ends.specs.Read.{GivesBut};
ghost use Rattle.request_parameters.specs.Elements.{said_at, is_wfs, no_others, misplaced, no_children, text_in};

use crate::said::Given;
use doc_tree::{Element, first_other, is_name, value_at};
use std::alloc::Global;
use wfs_ends::Text;
use wfs_model::{AskFault, refused};

/// The namespace of the Web Feature Service 2.0.
pub const WFS: &str = "http://www.opengis.net/wfs/2.0";

/// What the attributes of an element say: the values of those in no namespace.
#[derive(Clone, Copy)]
pub struct Attributes<'a> {
    /// The element.
    pub of: &'a Element,
}

impl<'a> Given for Attributes<'a> {
    ghost use Rattle.request_parameters.specs.Elements.{said_at};

    ghost said = { λ attributes. said_at attributes.of.now };

    fn value_of(&self, name: &str) -> Option<&Text> {
        value_at(self.of.attributes.items(), "", name)
    }
}

/// Whether an element is one of the Web Feature Service 2.0 with this local name.
#[tactic(auto, unfolding(crate::specs::Elements::is_wfs))]
pub fn is_wfs(element: &Element, local: &str) -> bool
    ensures { result ≡ is_wfs local.now element.now }
{
    is_name(&element.name, WFS, local)
}

/// Refuses attributes in no namespace other than those listed: the first by name is row 12 with its name.
#[tactic(auto, unfolding(crate::specs::Elements::no_others))]
pub fn no_others(alloc: Global, element: &Element, listed: &[&str]) -> Result<(), AskFault>
    ensures { GivesBut AskFault.OutOfMemory (λ x. x) result
        (no_others (map (λ n. n.now) listed.now) element.now) }
{
    match first_other(listed, element.attributes.items()) {
        None => Ok(()),
        Some(name) => Err(refused(alloc, 12, name.as_str())),
    }
}

/// The refusal of an element whose name is not allowed where it stands: row 8 with its local name.
pub fn misplaced(alloc: Global, element: &Element) -> AskFault
    ensures { (result ≡ AskFault.OutOfMemory → ⊥) → result ≡ misplaced element.now }
{
    refused(alloc, 8, element.name.local.as_str())
}

/// Refuses elements where none is allowed: the first is row 8 with its local name.
pub fn no_children(alloc: Global, elements: &[Element]) -> Result<(), AskFault>
    ensures { GivesBut AskFault.OutOfMemory (λ x. x) result (no_children elements.now) }
{
    match elements {
        [] => Ok(()),
        [child, ..] => Err(misplaced(alloc, child)),
    }
}

/// The text of an element that holds text alone: a child is row 8 with the child's local name.
#[tactic(auto, unfolding(crate::specs::Elements::text_in))]
pub fn text_in<'a>(alloc: Global, element: &'a Element) -> Result<&'a Text, AskFault>
    ensures { GivesBut AskFault.OutOfMemory (λ text. text.now) result (text_in element.now) }
{
    no_children(alloc, element.children.items())?;
    Ok(&element.text)
}
