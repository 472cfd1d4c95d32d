//! The positions of an element: one `pos`, a `posList`, or several `pos`.

ghost use Rattle.std.specs.Prelude.{◌≡◌, [], ◌∷◌};
ghost use Rattle.wfs_ends.specs.Read.{GivesBut, each};
ghost use Rattle.gml_docs.specs.Elements.{position_at, only_position, list_at, next_position, several, path_of};
ghost use Rattle.gml_docs.specs.declared.fault.GmlFault.TheVariants.{OutOfMemory};

use crate::element::{enter, is_gml, no_more};
use crate::fault::GmlFault;
use crate::positions::{position_in, positions_of};
use doc_tree::Element;
use geom_core::Pos;
use std::alloc::Global;
use wfs_ends::{List, Text};

// The position of an element of this name.
#[tactic(auto, unfolding(crate::specs::Elements::position_at))]
pub(crate) fn position_at(element: &Element, local: &str, srs: &List<Text>) -> Result<Pos, GmlFault>
    ensures { result ≡ position_at local.now srs.now element.now }
{
    enter(element, local, srs)?;
    no_more(element.children.items())?;
    position_in(element.text.as_str().as_bytes())
}

// The position of the one pos.
pub(crate) fn only_position(elements: &[Element], srs: &List<Text>) -> Result<Pos, GmlFault>
    ensures { result ≡ only_position srs.now elements.now }
{
    match elements {
        [] => Err(GmlFault::Kind),
        [first, rest @ ..] => {
            let position = position_at(first, "pos", srs)?;
            no_more(rest)?;
            Ok(position)
        }
    }
}

// The positions of a posList.
#[tactic(auto, unfolding(crate::specs::Elements::list_at))]
fn list_at(alloc: Global, element: &Element, srs: &List<Text>) -> Result<Vec<Pos>, GmlFault>
    ensures { GivesBut OutOfMemory (λ v. v.items) result (list_at srs.now element.now) }
{
    enter(element, "posList", srs)?;
    no_more(element.children.items())?;
    positions_of(alloc, element.text.as_str().as_bytes())
}

#[tactic(auto, unfolding(crate::specs::Elements::next_position))]
fn add_position(found: &mut Vec<Pos>, element: &Element, srs: &List<Text>) -> Result<(), GmlFault>
    ensures { GivesBut OutOfMemory (λ _. found.new.items) result
        (next_position srs.now found.old.items element.now) }
{
    found.push(position_at(element, "pos", srs)?)?;
    Ok(())
}

fn positions_at(alloc: Global, elements: &[Element], srs: &List<Text>) -> Result<Vec<Pos>, GmlFault>
    ensures { GivesBut OutOfMemory (λ v. v.items) result
        (each (next_position srs.now) [] elements.now) }
{
    let mut found = Vec::new(alloc);
    for element in elements {
        add_position(&mut found, element, srs)?;
    }
    Ok(found)
}

// The positions of two or more pos.
#[tactic(auto, unfolding(crate::specs::Elements::several))]
fn several(alloc: Global, elements: &[Element], srs: &List<Text>) -> Result<Vec<Pos>, GmlFault>
    ensures { GivesBut OutOfMemory (λ v. v.items) result (several srs.now elements.now) }
{
    let found = positions_at(alloc, elements, srs)?;
    if found.len() < 2 {
        return Err(GmlFault::Kind);
    }
    Ok(found)
}

// The positions of the one posList, or of two or more pos.
#[tactic(auto, unfolding(crate::specs::Elements::path_of))]
pub(crate) fn path_of(
    alloc: Global,
    elements: &[Element],
    srs: &List<Text>,
) -> Result<Vec<Pos>, GmlFault>
    ensures { GivesBut OutOfMemory (λ v. v.items) result (path_of srs.now elements.now) }
{
    match elements {
        [] => Err(GmlFault::Kind),
        [first, rest @ ..] => {
            if !is_gml(first, "posList") {
                return several(alloc, elements, srs);
            }
            let found = list_at(alloc, first, srs)?;
            no_more(rest)?;
            Ok(found)
        }
    }
}
