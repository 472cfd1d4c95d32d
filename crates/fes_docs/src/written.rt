//! Elements of FES, and their texts, as they are written.

ghost use Rattle.std.specs.Prelude.{◌≡◌, [], ◌∷◌, ◌++◌, IfOk, OnOk, string_bytes};
ghost use Rattle.wfs_ends.specs.Ends.{joined};
ghost use Rattle.gml_docs.specs.Written.{element as gml_element, leaf as gml_leaf, parent as gml_parent};
ghost use Rattle.fes_docs.specs.Written.{element, leaf, parent, attribute};

use crate::element::FES;
use doc_tree::{Attribute, Element, QName};
use gml_docs::GML;
use std::alloc::Global;
use wfs_ends::{List, Mem, Text};

// Adds a text to one.
pub(crate) fn add(line: &mut String, text: &str) -> Mem<()>
    ensures { OnOk result (string_bytes line.new ≡ string_bytes line.old ++ text.now) }
{
    line.push_str(text)?;
    Ok(())
}

#[tactic(auto, unfolding(wfs_ends::specs::Ends::joined))]
fn add_three(line: &mut String, a: &str, b: &str, c: &str) -> Mem<()>
    ensures { OnOk result (string_bytes line.new
        ≡ string_bytes line.old ++ joined (a.now ∷ b.now ∷ c.now ∷ [])) }
{
    add(line, a)?;
    add(line, b)?;
    add(line, c)?;
    Ok(())
}

// Three texts, one after the other.
pub(crate) fn three(alloc: Global, a: &str, b: &str, c: &str) -> Mem<Text>
    ensures { IfOk result (λ t. t ≡ joined (a.now ∷ b.now ∷ c.now ∷ [])) }
{
    let mut line = String::new(alloc);
    add_three(&mut line, a, b, c)?;
    Text::of_string(line)
}

fn name_of(alloc: Global, space: &str, local: &str) -> Mem<QName>
    ensures { IfOk result (λ n. n ≡ record { space = space.now; local = local.now }) }
{
    let space = Text::of(alloc, space)?;
    let local = Text::of(alloc, local)?;
    Ok(QName { space, local })
}

// An element of FES.
#[tactic(auto, unfolding(crate::specs::Written::element))]
pub(crate) fn element(
    alloc: Global,
    local: &str,
    attributes: Vec<Attribute>,
    children: Vec<Element>,
    text: Text,
) -> Mem<Element>
    ensures { IfOk result (λ e. e ≡ element local.now attributes.items children.items text) }
{
    Ok(Element {
        name: name_of(alloc, FES, local)?,
        attributes: List::of(attributes),
        children: List::of(children),
        text,
    })
}

// An element of GML.
#[tactic(auto, unfolding(gml_docs::specs::Written::element, gml_docs::specs::Written::gml_name))]
fn gml_element(
    alloc: Global,
    local: &str,
    attributes: Vec<Attribute>,
    children: Vec<Element>,
    text: Text,
) -> Mem<Element>
    ensures { IfOk result (λ e. e ≡ gml_element local.now attributes.items children.items text) }
{
    Ok(Element {
        name: name_of(alloc, GML, local)?,
        attributes: List::of(attributes),
        children: List::of(children),
        text,
    })
}

// One that has a text alone.
#[tactic(auto, unfolding(gml_docs::specs::Written::leaf))]
pub(crate) fn gml_leaf(alloc: Global, local: &str, text: Text) -> Mem<Element>
    ensures { IfOk result (λ e. e ≡ gml_leaf local.now text) }
{
    gml_element(alloc, local, Vec::new(alloc), Vec::new(alloc), text)
}

// One that has children alone.
#[tactic(auto, unfolding(gml_docs::specs::Written::parent))]
pub(crate) fn gml_parent(
    alloc: Global,
    local: &str,
    attributes: Vec<Attribute>,
    children: Vec<Element>,
) -> Mem<Element>
    ensures { IfOk result (λ e. e ≡ gml_parent local.now attributes.items children.items) }
{
    let text = Text::of(alloc, "")?;
    gml_element(alloc, local, attributes, children, text)
}

// One of FES that has a text alone.
#[tactic(auto, unfolding(crate::specs::Written::leaf))]
pub(crate) fn leaf(alloc: Global, local: &str, text: Text) -> Mem<Element>
    ensures { IfOk result (λ e. e ≡ leaf local.now text) }
{
    element(alloc, local, Vec::new(alloc), Vec::new(alloc), text)
}

// One of FES that has children alone.
#[tactic(auto, unfolding(crate::specs::Written::parent))]
pub(crate) fn parent(alloc: Global, local: &str, children: Vec<Element>) -> Mem<Element>
    ensures { IfOk result (λ e. e ≡ parent local.now children.items) }
{
    let text = Text::of(alloc, "")?;
    element(alloc, local, Vec::new(alloc), children, text)
}

// An attribute in no namespace.
#[tactic(auto, unfolding(crate::specs::Written::attribute, gml_docs::specs::Written::plain_name))]
pub(crate) fn attribute(alloc: Global, local: &str, value: Text) -> Mem<Attribute>
    ensures { IfOk result (λ a. a ≡ attribute local.now value) }
{
    let name = name_of(alloc, "", local)?;
    Ok(Attribute { name, value })
}

// A list of one.
pub(crate) fn alone<T: Drop>(alloc: Global, item: T) -> Mem<Vec<T>>
    ensures { IfOk result (λ v. v.items ≡ item ∷ []) }
{
    let mut items = Vec::new(alloc);
    items.push(item)?;
    Ok(items)
}

// A list of two.
pub(crate) fn both<T: Drop>(alloc: Global, first: T, second: T) -> Mem<Vec<T>>
    ensures { IfOk result (λ v. v.items ≡ first ∷ second ∷ []) }
{
    let mut items = Vec::new(alloc);
    items.push(first)?;
    items.push(second)?;
    Ok(items)
}

// A list of three.
pub(crate) fn in_order<T: Drop>(alloc: Global, first: T, second: T, third: T) -> Mem<Vec<T>>
    ensures { IfOk result (λ v. v.items ≡ first ∷ second ∷ third ∷ []) }
{
    let mut items = Vec::new(alloc);
    items.push(first)?;
    items.push(second)?;
    items.push(third)?;
    Ok(items)
}
