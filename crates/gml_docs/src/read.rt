//! The elements of points, line strings and polygons, read as geometries.

ghost use Rattle.std.specs.Prelude.{◌≡◌, [], ◌∷◌};
ghost use Rattle.wfs_ends.specs.Read.{GivesBut, each};
ghost use Rattle.gml_docs.specs.Elements.{point_at, line_at, ring_at, only_ring, side_at, next_hole, area_of, polygon_at, geometry_of};
ghost use Rattle.gml_docs.specs.declared.fault.GmlFault.TheVariants.{OutOfMemory};

use crate::element::{enter, fit, is_gml, no_more};
use crate::fault::GmlFault;
use crate::path::{only_position, path_of};
use doc_tree::Element;
use geom_core::{Geometry, Line, Polygon, Ring};
use std::alloc::Global;
use wfs_ends::{List, Shared, Text};

// A Point.
#[tactic(auto, unfolding(crate::specs::Elements::point_at))]
fn point_at(element: &Element, srs: &List<Text>) -> Result<Geometry, GmlFault>
    ensures { result ≡ point_at srs.now element.now }
{
    fit(element, srs)?;
    let position = only_position(element.children.items(), srs)?;
    Ok(Geometry::At(position))
}

// A LineString.
#[tactic(auto, unfolding(crate::specs::Elements::line_at))]
fn line_at(alloc: Global, element: &Element, srs: &List<Text>) -> Result<Geometry, GmlFault>
    ensures { GivesBut OutOfMemory (λ g. g) result (line_at srs.now element.now) }
{
    fit(element, srs)?;
    let positions = path_of(alloc, element.children.items(), srs)?;
    let line = Line::new(positions)?;
    Ok(Geometry::Along(Shared::new(alloc, line)?))
}

// A LinearRing.
#[tactic(auto, unfolding(crate::specs::Elements::ring_at))]
fn ring_at(alloc: Global, element: &Element, srs: &List<Text>) -> Result<Ring, GmlFault>
    ensures { GivesBut OutOfMemory (λ r. r) result (ring_at srs.now element.now) }
{
    enter(element, "LinearRing", srs)?;
    let positions = path_of(alloc, element.children.items(), srs)?;
    Ok(Ring::new(positions)?)
}

// The one ring.
fn only_ring(alloc: Global, elements: &[Element], srs: &List<Text>) -> Result<Ring, GmlFault>
    ensures { GivesBut OutOfMemory (λ r. r) result (only_ring srs.now elements.now) }
{
    match elements {
        [] => Err(GmlFault::Kind),
        [first, rest @ ..] => {
            let ring = ring_at(alloc, first, srs)?;
            no_more(rest)?;
            Ok(ring)
        }
    }
}

// The ring of an exterior or an interior.
#[tactic(auto, unfolding(crate::specs::Elements::side_at))]
fn side_at(
    alloc: Global,
    element: &Element,
    local: &str,
    srs: &List<Text>,
) -> Result<Ring, GmlFault>
    ensures { GivesBut OutOfMemory (λ r. r) result (side_at local.now srs.now element.now) }
{
    enter(element, local, srs)?;
    only_ring(alloc, element.children.items(), srs)
}

#[tactic(auto, unfolding(crate::specs::Elements::next_hole))]
fn add_hole(
    alloc: Global,
    found: &mut Vec<Ring>,
    element: &Element,
    srs: &List<Text>,
) -> Result<(), GmlFault>
    ensures { GivesBut OutOfMemory (λ _. found.new.items) result
        (next_hole srs.now found.old.items element.now) }
{
    found.push(side_at(alloc, element, "interior", srs)?)?;
    Ok(())
}

fn holes_of(alloc: Global, elements: &[Element], srs: &List<Text>) -> Result<Vec<Ring>, GmlFault>
    ensures { GivesBut OutOfMemory (λ v. v.items) result
        (each (next_hole srs.now) [] elements.now) }
{
    let mut found = Vec::new(alloc);
    for element in elements {
        add_hole(alloc, &mut found, element, srs)?;
    }
    Ok(found)
}

// The exterior, and then any number of interiors.
#[tactic(auto, unfolding(crate::specs::Elements::area_of))]
fn area_of(alloc: Global, elements: &[Element], srs: &List<Text>) -> Result<Polygon, GmlFault>
    ensures { GivesBut OutOfMemory (λ a. a) result (area_of srs.now elements.now) }
{
    match elements {
        [] => Err(GmlFault::Kind),
        [first, rest @ ..] => {
            let shell = side_at(alloc, first, "exterior", srs)?;
            let holes = holes_of(alloc, rest, srs)?;
            Ok(Polygon::new(shell, holes)?)
        }
    }
}

// A Polygon.
#[tactic(auto, unfolding(crate::specs::Elements::polygon_at))]
fn polygon_at(alloc: Global, element: &Element, srs: &List<Text>) -> Result<Geometry, GmlFault>
    ensures { GivesBut OutOfMemory (λ g. g) result (polygon_at srs.now element.now) }
{
    fit(element, srs)?;
    let area = area_of(alloc, element.children.items(), srs)?;
    Ok(Geometry::Over(Shared::new(alloc, area)?))
}

/// The geometry of an element of GML 3.2.1 (OGC 07-036, sections 10.1.4, 10.3.1, 10.4.4 and 10.5): a `gml:Point` with a
/// `gml:pos`; a `gml:LineString` with a `gml:posList`; a `gml:Polygon` with a `gml:exterior` and any number of
/// `gml:interior`, each with a `gml:LinearRing` with a `gml:posList`. In place of a `gml:posList` two or more `gml:pos`
/// may stand. `srs` are the names of the reference system.
///
/// A coordinate is a sign, which may be left out, decimal digits, and optionally `.` and one or more `0`; white space
/// (space, tab, line feed) stands between coordinates, and may stand before and behind them.
///
/// Each element is judged in this order, and the first fault is answered. `Kind`: its name is not allowed there. `Srs`:
/// an attribute `srsName` is none of `srs`, or an attribute `srsDimension` is not `2`; other attributes are not looked
/// at. Then its children in document order, and then `Kind` where one is missing. `Number`: its text is not such
/// coordinates, an even number of them in a `gml:posList` and two in a `gml:pos`. `Shape`: the fault that `geom_core`
/// names for its positions; a coordinate beyond 1,000,000,000 in magnitude, of any length, is `OutOfRange`.
/// `OutOfMemory`: there is no memory for the geometry. Text beside child elements is not looked at.
///
/// The text of a `gml:posList` is read in one pass, and nothing of it is copied.
#[tactic(auto, unfolding(crate::specs::Elements::geometry_of))]
pub fn read_geometry(
    alloc: Global,
    element: &Element,
    srs: &List<Text>,
) -> Result<Geometry, GmlFault>
    ensures { GivesBut OutOfMemory (λ g. g) result (geometry_of srs.now element.now) }
{
    if is_gml(element, "Point") {
        return point_at(element, srs);
    }
    if is_gml(element, "LineString") {
        return line_at(alloc, element, srs);
    }
    if is_gml(element, "Polygon") {
        return polygon_at(alloc, element, srs);
    }
    Err(GmlFault::Kind)
}
