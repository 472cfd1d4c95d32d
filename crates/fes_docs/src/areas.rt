//! BBOX, Intersects and Disjoint, as they are written.

ghost use Rattle.std.specs.Prelude.{◌≡◌, [], ◌∷◌, codes, IfOk};
ghost use Rattle.gml_docs.specs.Written.{position_text, leaf as gml_leaf};
ghost use Rattle.fes_docs.specs.Written.{attribute, first_name, envelope_tree, box_children, box_tree, shape_tree};

use crate::operands::{reference, whole_text};
use crate::written::{alone, attribute, both, gml_leaf, gml_parent, parent, three};
use doc_tree::{Attribute, Element};
use feature_values::Schema;
use geom_core::{Box2, Geometry, Pos};
use gml_docs::geometry_tree;
use std::alloc::Global;
use wfs_ends::{List, Mem, Text};

// The name of the reference system that is written.
fn first_name(srs: &List<Text>) -> &str
    ensures { result.now ≡ first_name srs.now }
{
    match srs.items() {
        [] => "",
        [name, ..] => name.as_str(),
    }
}

#[tactic(auto, unfolding(gml_docs::specs::Written::position_text))]
fn position_text(alloc: Global, p: Pos) -> Mem<Text>
    ensures { IfOk result (λ t. t ≡ position_text p) }
{
    let x = whole_text(alloc, i64::from(p.x))?;
    let y = whole_text(alloc, i64::from(p.y))?;
    three(alloc, x.as_str(), " ", y.as_str())
}

fn corner_tree(alloc: Global, local: &str, p: Pos) -> Mem<Element>
    ensures { IfOk result (λ e. e ≡ gml_leaf local.now (position_text p)) }
{
    let text = position_text(alloc, p)?;
    gml_leaf(alloc, local, text)
}

fn corner_trees(alloc: Global, low: Pos, high: Pos) -> Mem<Vec<Element>>
    ensures { IfOk result (λ v. v.items ≡ gml_leaf (codes "lowerCorner") (position_text low)
        ∷ gml_leaf (codes "upperCorner") (position_text high) ∷ []) }
{
    let first = corner_tree(alloc, "lowerCorner", low)?;
    let second = corner_tree(alloc, "upperCorner", high)?;
    both(alloc, first, second)
}

fn srs_attributes(alloc: Global, srs: &List<Text>) -> Mem<Vec<Attribute>>
    ensures { IfOk result (λ v. v.items ≡ attribute (codes "srsName") (first_name srs.now) ∷ []) }
{
    let name = Text::of(alloc, first_name(srs))?;
    alone(alloc, attribute(alloc, "srsName", name)?)
}

#[tactic(auto, unfolding(crate::specs::Written::envelope_tree))]
fn envelope_tree(alloc: Global, srs: &List<Text>, area: Box2) -> Mem<Element>
    ensures { IfOk result (λ e. e ≡ envelope_tree srs.now area) }
{
    let attributes = srs_attributes(alloc, srs)?;
    let children = corner_trees(alloc, area.low, area.high)?;
    gml_parent(alloc, "Envelope", attributes, children)
}

fn box_children(
    alloc: Global,
    schema: &Schema,
    kind: Option<u32>,
    property: Option<u32>,
    envelope: Element,
) -> Mem<Vec<Element>>
    ensures { IfOk result (λ v. v.items ≡ box_children schema.now kind property envelope) }
{
    match property {
        None => alone(alloc, envelope),
        Some(property) => {
            let first = reference(alloc, schema, kind, property)?;
            both(alloc, first, envelope)
        }
    }
}

#[tactic(auto, unfolding(crate::specs::Written::box_tree))]
pub(crate) fn box_tree(
    alloc: Global,
    schema: &Schema,
    kind: Option<u32>,
    property: Option<u32>,
    area: Box2,
) -> Mem<Element>
    ensures { IfOk result (λ e. e ≡ box_tree schema.now kind property area) }
{
    let envelope = envelope_tree(alloc, &schema.srs, area)?;
    let children = box_children(alloc, schema, kind, property, envelope)?;
    parent(alloc, "BBOX", children)
}

#[tactic(auto, unfolding(crate::specs::Written::shape_tree))]
pub(crate) fn shape_tree(
    alloc: Global,
    schema: &Schema,
    kind: Option<u32>,
    local: &str,
    property: u32,
    shape: &Geometry,
) -> Mem<Element>
    ensures { IfOk result (λ e. e ≡ shape_tree schema.now kind local.now property shape.now) }
{
    let first = reference(alloc, schema, kind, property)?;
    let id = Text::of(alloc, "g")?;
    let name = Text::of(alloc, first_name(&schema.srs))?;
    let second = geometry_tree(alloc, shape, &id, &name)?;
    parent(alloc, local, both(alloc, first, second)?)
}
