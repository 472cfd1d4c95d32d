//! The element of an envelope, read as a box.

ghost use Rattle.std.specs.Prelude.{◌≡◌};
ghost use Rattle.gml_docs.specs.Elements.{lower_corner, upper_corner, box_above, corners_of, envelope_of};

use crate::element::{enter, no_more};
use crate::fault::GmlFault;
use crate::path::position_at;
use doc_tree::Element;
use geom_core::{Box2, Pos};
use wfs_ends::{List, Text};

#[tactic(auto, unfolding(crate::specs::Elements::lower_corner))]
fn lower_corner(element: &Element, srs: &List<Text>) -> Result<Pos, GmlFault>
    ensures { result ≡ lower_corner srs.now element.now }
{
    position_at(element, "lowerCorner", srs)
}

#[tactic(auto, unfolding(crate::specs::Elements::upper_corner))]
fn upper_corner(element: &Element, srs: &List<Text>) -> Result<Pos, GmlFault>
    ensures { result ≡ upper_corner srs.now element.now }
{
    position_at(element, "upperCorner", srs)
}

// The upper corner, and the box from the lower one to it.
fn box_above(elements: &[Element], low: Pos, srs: &List<Text>) -> Result<Box2, GmlFault>
    ensures { result ≡ box_above srs.now low elements.now }
{
    match elements {
        [] => Err(GmlFault::Kind),
        [first, rest @ ..] => {
            let high = upper_corner(first, srs)?;
            no_more(rest)?;
            Ok(Box2::new(low, high)?)
        }
    }
}

// The lower corner, and then the upper one.
fn corners_of(elements: &[Element], srs: &List<Text>) -> Result<Box2, GmlFault>
    ensures { result ≡ corners_of srs.now elements.now }
{
    match elements {
        [] => Err(GmlFault::Kind),
        [first, rest @ ..] => {
            let low = lower_corner(first, srs)?;
            box_above(rest, low, srs)
        }
    }
}

/// The box of a `gml:Envelope` with a `gml:lowerCorner` and a `gml:upperCorner` (OGC 07-036, 10.1.4.6). `srs` are the
/// names of the reference system.
///
/// The elements are judged as `read_geometry` judges them, and a corner as a `gml:pos`: `Kind`, `Number`, `Srs` and
/// `Shape`, with `Turned` where a coordinate of the lower corner is above that of the upper one. It takes no memory, so
/// `OutOfMemory` is no answer.
#[tactic(auto, unfolding(crate::specs::Elements::envelope_of))]
pub fn read_envelope(element: &Element, srs: &List<Text>) -> Result<Box2, GmlFault>
    ensures { result ≡ envelope_of srs.now element.now }
{
    enter(element, "Envelope", srs)?;
    corners_of(element.children.items(), srs)
}
