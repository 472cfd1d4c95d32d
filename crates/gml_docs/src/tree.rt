//! The element that stands for a geometry, as a tree.

ghost use Rattle.std.specs.Prelude.{◌≡◌, ◌++◌, ◌∷◌, [], IfOk, OnOk, string_bytes};
ghost use Rattle.std.specs.List.{flat_map};
ghost use Rattle.std.specs.Fmt.{signed_decimal};
ghost use Rattle.geom_core.specs.declared.geometry.Geometry.TheVariants.{At, Along, Over};
ghost use Rattle.gml_docs.specs.Written.{position_text, next_text, positions_text, gml_name, plain_name, element, leaf, parent, attributes_of, list_tree, side_tree, hole_tree, area_trees, tree_of};

use crate::element::GML;
use doc_tree::{Attribute, Element, QName};
use geom_core::{Geometry, Polygon, Pos, Ring};
use itoa::Buffer;
use std::alloc::Global;
use wfs_ends::{List, Mem, Text};

fn add(line: &mut String, text: &str) -> Mem<()>
    ensures { OnOk result (string_bytes line.new ≡ string_bytes line.old ++ text.now) }
{
    line.push_str(text)?;
    Ok(())
}

fn add_number(line: &mut String, number: i32) -> Mem<()>
    ensures { OnOk result (string_bytes line.new ≡ string_bytes line.old ++ signed_decimal number) }
{
    let mut buffer = Buffer::new();
    add(line, buffer.format(number))
}

#[tactic(auto, using(crate::proofs::Pieces::three), unfolding(crate::specs::Written::position_text))]
fn add_position(line: &mut String, p: Pos) -> Mem<()>
    ensures { OnOk result (string_bytes line.new ≡ string_bytes line.old ++ position_text p) }
{
    add_number(line, p.x)?;
    add(line, " ")?;
    add_number(line, p.y)?;
    Ok(())
}

#[tactic(auto, using(crate::proofs::Pieces::two), unfolding(crate::specs::Written::next_text))]
fn add_next(line: &mut String, p: Pos) -> Mem<()>
    ensures { OnOk result (string_bytes line.new ≡ string_bytes line.old ++ next_text p) }
{
    add(line, " ")?;
    add_position(line, p)?;
    Ok(())
}

fn add_rest(line: &mut String, positions: &[Pos]) -> Mem<()>
    ensures { OnOk result (string_bytes line.new
        ≡ string_bytes line.old ++ flat_map next_text positions.now) }
{
    for p in positions {
        add_next(line, *p)?;
    }
    Ok(())
}

#[tactic(auto, using(crate::proofs::Pieces::two), unfolding(crate::specs::Written::positions_text))]
fn add_positions(line: &mut String, positions: &[Pos]) -> Mem<()>
    ensures { OnOk result (string_bytes line.new
        ≡ string_bytes line.old ++ positions_text positions.now) }
{
    match positions {
        [first, rest @ ..] => {
            add_position(line, *first)?;
            add_rest(line, rest)
        }
        [] => Ok(()),
    }
}

fn position_text(alloc: Global, p: Pos) -> Mem<Text>
    ensures { IfOk result (λ t. t ≡ position_text p) }
{
    let mut line = String::new(alloc);
    add_position(&mut line, p)?;
    Text::of_string(line)
}

fn positions_text(alloc: Global, positions: &[Pos]) -> Mem<Text>
    ensures { IfOk result (λ t. t ≡ positions_text positions.now) }
{
    let mut line = String::new(alloc);
    add_positions(&mut line, positions)?;
    Text::of_string(line)
}

#[tactic(auto, unfolding(crate::specs::Written::gml_name))]
fn gml_name(alloc: Global, local: &str) -> Mem<QName>
    ensures { IfOk result (λ n. n ≡ gml_name local.now) }
{
    Ok(QName {
        space: Text::of(alloc, GML)?,
        local: Text::of(alloc, local)?,
    })
}

#[tactic(auto, unfolding(crate::specs::Written::plain_name))]
fn plain_name(alloc: Global, local: &str) -> Mem<QName>
    ensures { IfOk result (λ n. n ≡ plain_name local.now) }
{
    Ok(QName {
        space: Text::of(alloc, "")?,
        local: Text::of(alloc, local)?,
    })
}

// An element of GML.
#[tactic(auto, unfolding(crate::specs::Written::element))]
fn element(
    alloc: Global,
    local: &str,
    attributes: Vec<Attribute>,
    children: Vec<Element>,
    text: Text,
) -> Mem<Element>
    ensures { IfOk result (λ e. e ≡ element local.now attributes.items children.items text) }
{
    Ok(Element {
        name: gml_name(alloc, local)?,
        attributes: List::of(attributes),
        children: List::of(children),
        text,
    })
}

// An element that has a text alone.
#[tactic(auto, unfolding(crate::specs::Written::leaf))]
fn leaf(alloc: Global, local: &str, text: Text) -> Mem<Element>
    ensures { IfOk result (λ e. e ≡ leaf local.now text) }
{
    element(alloc, local, Vec::new(alloc), Vec::new(alloc), text)
}

// An element that has children alone.
#[tactic(auto, unfolding(crate::specs::Written::parent))]
fn parent(
    alloc: Global,
    local: &str,
    attributes: Vec<Attribute>,
    children: Vec<Element>,
) -> Mem<Element>
    ensures { IfOk result (λ e. e ≡ parent local.now attributes.items children.items) }
{
    let text = Text::of(alloc, "")?;
    element(alloc, local, attributes, children, text)
}

// The identifier, and then the reference system.
#[tactic(auto, unfolding(crate::specs::Written::attributes_of))]
fn attributes_of(alloc: Global, id: &Text, srs: &Text) -> Mem<Vec<Attribute>>
    ensures { IfOk result (λ v. v.items ≡ attributes_of id.now srs.now) }
{
    let mut attributes = Vec::new(alloc);
    attributes.push(Attribute {
        name: gml_name(alloc, "id")?,
        value: id.copy(alloc)?,
    })?;
    attributes.push(Attribute {
        name: plain_name(alloc, "srsName")?,
        value: srs.copy(alloc)?,
    })?;
    Ok(attributes)
}

fn only(alloc: Global, element: Element) -> Mem<Vec<Element>>
    ensures { IfOk result (λ v. v.items ≡ element ∷ []) }
{
    let mut elements = Vec::new(alloc);
    elements.push(element)?;
    Ok(elements)
}

#[tactic(auto, unfolding(crate::specs::Written::list_tree))]
fn list_tree(alloc: Global, positions: &[Pos]) -> Mem<Element>
    ensures { IfOk result (λ e. e ≡ list_tree positions.now) }
{
    let text = positions_text(alloc, positions)?;
    leaf(alloc, "posList", text)
}

#[tactic(auto, unfolding(crate::specs::Written::side_tree))]
fn side_tree(alloc: Global, local: &str, ring: &Ring) -> Mem<Element>
    ensures { IfOk result (λ e. e ≡ side_tree local.now ring.now) }
{
    let list = list_tree(alloc, ring.positions())?;
    let inner = parent(alloc, "LinearRing", Vec::new(alloc), only(alloc, list)?)?;
    parent(alloc, local, Vec::new(alloc), only(alloc, inner)?)
}

#[tactic(auto, unfolding(crate::specs::Written::hole_tree))]
fn add_hole(alloc: Global, found: &mut Vec<Element>, hole: &Ring) -> Mem<()>
    ensures { OnOk result (found.new.items ≡ found.old.items ++ hole_tree hole.now ∷ []) }
{
    found.push(side_tree(alloc, "interior", hole)?)?;
    Ok(())
}

// The exterior, and then the interiors.
#[tactic(auto, unfolding(crate::specs::Written::area_trees))]
fn area_trees(alloc: Global, area: &Polygon) -> Mem<Vec<Element>>
    ensures { IfOk result (λ v. v.items ≡ area_trees area.now) }
{
    let mut found = only(alloc, side_tree(alloc, "exterior", area.shell())?)?;
    for hole in area.holes() {
        add_hole(alloc, &mut found, hole)?;
    }
    Ok(found)
}

#[tactic(auto, unfolding(crate::specs::Written::tree_of))]
fn point_tree(alloc: Global, p: Pos, id: &Text, srs: &Text) -> Mem<Element>
    ensures { IfOk result (λ e. e ≡ tree_of (At p) id.now srs.now) }
{
    let attributes = attributes_of(alloc, id, srs)?;
    let text = position_text(alloc, p)?;
    let child = leaf(alloc, "pos", text)?;
    parent(alloc, "Point", attributes, only(alloc, child)?)
}

#[tactic(auto, unfolding(crate::specs::Written::tree_of))]
fn line_tree(alloc: Global, line: &[Pos], id: &Text, srs: &Text) -> Mem<Element>
    ensures { IfOk result (λ e. e ≡ tree_of (Along line.now) id.now srs.now) }
{
    let attributes = attributes_of(alloc, id, srs)?;
    let child = list_tree(alloc, line)?;
    parent(alloc, "LineString", attributes, only(alloc, child)?)
}

#[tactic(auto, unfolding(crate::specs::Written::tree_of))]
fn area_tree(alloc: Global, area: &Polygon, id: &Text, srs: &Text) -> Mem<Element>
    ensures { IfOk result (λ e. e ≡ tree_of (Over area.now) id.now srs.now) }
{
    let attributes = attributes_of(alloc, id, srs)?;
    parent(alloc, "Polygon", attributes, area_trees(alloc, area)?)
}

/// The element that stands for a geometry: a `gml:Point` with a `gml:pos`, a `gml:LineString` with a `gml:posList`, or a
/// `gml:Polygon` with a `gml:exterior` and a `gml:interior` for each hole, in order, each with a `gml:LinearRing` with a
/// `gml:posList` (OGC 07-036, sections 10.3.1, 10.4.4 and 10.5). Its attributes are `gml:id`, with `id`, and then
/// `srsName`, with `srs`.
///
/// Coordinates are decimal digits without leading zeros, with `-` where they are below zero, and with single spaces
/// between them. `OutOfMemory`: there is no memory for the element.
pub fn geometry_tree(alloc: Global, g: &Geometry, id: &Text, srs: &Text) -> Mem<Element>
    ensures { IfOk result (λ e. e ≡ tree_of g.now id.now srs.now) }
{
    match g {
        Geometry::At(p) => point_tree(alloc, *p, id, srs),
        Geometry::Along(line) => line_tree(alloc, line.item().positions(), id, srs),
        Geometry::Over(area) => area_tree(alloc, area.item(), id, srs),
    }
}
