//! What holds of each element of GML: its name, its reference system, and where it ends.

ghost use Rattle.std.specs.Prelude.{◌≡◌};
ghost use Rattle.std.specs.List.{list_all};
ghost use Rattle.doc_tree.specs.Attributes.{is_among};
ghost use Rattle.gml_docs.specs.Elements.{is_gml, is_fitting, fitted, entered, no_more};
ghost use Rattle.doc_tree.specs.declared.tree.Element.{out-Element};

use crate::fault::GmlFault;
use doc_tree::{Attribute, Element, is_name};
use wfs_ends::{List, Text};

/// The namespace of GML 3.2.
pub const GML: &str = "http://www.opengis.net/gml/3.2";

// Whether an element is GML's of this local name.
#[tactic(auto, unfolding(crate::specs::Elements::is_gml))]
pub(crate) fn is_gml(element: &Element, local: &str) -> bool
    ensures { result ≡ is_gml local.now element.now }
{
    is_name(&element.name, GML, local)
}

fn is_among(names: &[Text], name: &str) -> bool
    ensures { result ≡ is_among names.now name.now }
{
    names.iter().any(|n| n.as_str() == name)
}

// Whether an attribute names a known reference system, or two coordinates, or says something else.
#[tactic(auto, unfolding(crate::specs::Elements::is_fitting))]
fn is_fitting(attribute: &Attribute, srs: &List<Text>) -> bool
    ensures { result ≡ is_fitting srs.now attribute.now }
{
    if is_name(&attribute.name, "", "srsName") {
        return is_among(srs.items(), attribute.value.as_str());
    }
    if is_name(&attribute.name, "", "srsDimension") {
        return attribute.value.as_str() == "2";
    }
    true
}

fn are_fitting(attributes: &[Attribute], srs: &List<Text>) -> bool
    ensures { result ≡ list_all (λ a. is_fitting srs.now a) attributes.now }
{
    attributes.iter().all(|a| is_fitting(a, srs))
}

// Judges the attributes of an element.
#[tactic(auto, unfolding(crate::specs::Elements::fitted))]
pub(crate) fn fit(element: &Element, srs: &List<Text>) -> Result<(), GmlFault>
    ensures { result ≡ fitted srs.now element.now }
{
    if !are_fitting(element.attributes.items(), srs) {
        return Err(GmlFault::Srs);
    }
    Ok(())
}

// Judges the name of an element, and its attributes.
#[tactic(auto, unfolding(crate::specs::Elements::entered))]
pub(crate) fn enter(element: &Element, local: &str, srs: &List<Text>) -> Result<(), GmlFault>
    ensures { result ≡ entered local.now srs.now element.now }
{
    if !is_gml(element, local) {
        return Err(GmlFault::Kind);
    }
    fit(element, srs)
}

// Refuses elements where none is allowed.
#[tactic(auto, unfolding(crate::specs::Elements::no_more))]
pub(crate) fn no_more(elements: &[Element]) -> Result<(), GmlFault>
    ensures { result ≡ no_more elements.now }
{
    match elements {
        [] => Ok(()),
        _ => Err(GmlFault::Kind),
    }
}
