//! BBOX, Intersects and Disjoint.

ghost use Rattle.std.specs.Prelude.{◌≡◌};
ghost use Rattle.std.specs.Option.{option_copied};
ghost use Rattle.wfs_ends.specs.Read.{GivesBut};
ghost use Rattle.gml_docs.specs.Elements.{geometry_of, envelope_of};
ghost use Rattle.fes_docs.specs.Spatial.{drawn, shape_at, envelope_alone, box_of, operands_of};
ghost use Rattle.fes_docs.specs.declared.fault.FilterDocFault.TheVariants.{OutOfMemory};

use crate::element::{and_no_more, first_in, is_fes, named, no_more, no_others};
use crate::fault::FilterDocFault;
use crate::sides::{property_at, suited};
use doc_tree::Element;
use feature_values::FeatureType;
use fes_filter::{Filter, is_shape};
use geom_core::{Box2, Geometry};
use gml_docs::{read_envelope, read_geometry};
use std::alloc::Global;
use wfs_ends::{List, Text};

// A property whose values are geometries.
#[tactic(auto, unfolding(crate::specs::Spatial::shape_at))]
fn shape_at(
    alloc: Global,
    of_type: Option<&FeatureType>,
    element: &Element,
) -> Result<u32, FilterDocFault>
    ensures { GivesBut OutOfMemory (λ x. x) result
        (shape_at (option_copied of_type.entry) element.now) }
{
    let (property, kind) = property_at(alloc, of_type, element)?;
    suited(alloc, is_shape(kind), element)?;
    Ok(property)
}

fn envelope_at(srs: &List<Text>, element: &Element) -> Result<Box2, FilterDocFault>
    ensures { GivesBut OutOfMemory (λ x. x) result (drawn (envelope_of srs.now element.now)) }
{
    Ok(read_envelope(element, srs)?)
}

fn geometry_at(
    alloc: Global,
    srs: &List<Text>,
    element: &Element,
) -> Result<Geometry, FilterDocFault>
    ensures { GivesBut OutOfMemory (λ x. x) result (drawn (geometry_of srs.now element.now)) }
{
    Ok(read_geometry(alloc, element, srs)?)
}

// ---- BBOX

// One Envelope, behind which nothing stands.
#[tactic(auto, unfolding(crate::specs::Spatial::envelope_alone))]
fn envelope_alone(
    alloc: Global,
    srs: &List<Text>,
    whole: &Element,
    elements: &[Element],
) -> Result<Box2, FilterDocFault>
    ensures { GivesBut OutOfMemory (λ x. x) result (envelope_alone srs.now whole.now elements.now) }
{
    let (first, rest) = first_in(alloc, whole, elements)?;
    let area = envelope_at(srs, first)?;
    no_more(alloc, rest)?;
    Ok(area)
}

// BBOX: a property, which may be left out, and then an Envelope.
#[tactic(auto, unfolding(crate::specs::Spatial::box_of))]
pub(crate) fn box_of(
    alloc: Global,
    srs: &List<Text>,
    of_type: Option<&FeatureType>,
    element: &Element,
) -> Result<Filter, FilterDocFault>
    ensures { GivesBut OutOfMemory (λ x. x) result
        (box_of srs.now (option_copied of_type.entry) element.now) }
{
    no_others(alloc, element, &[])?;
    let elements = element.children.items();
    let (first, rest) = first_in(alloc, element, elements)?;
    if is_fes(first, "ValueReference") {
        let property = shape_at(alloc, of_type, first)?;
        let area = envelope_alone(alloc, srs, element, rest)?;
        return Ok(Filter::InBox {
            property: Some(property),
            area,
        });
    }
    let area = envelope_alone(alloc, srs, element, elements)?;
    Ok(Filter::InBox {
        property: None,
        area,
    })
}

// ---- Intersects and Disjoint

// A property, and then a geometry.
#[tactic(auto, unfolding(crate::specs::Spatial::operands_of))]
pub(crate) fn operands_of(
    alloc: Global,
    srs: &List<Text>,
    of_type: Option<&FeatureType>,
    element: &Element,
) -> Result<(u32, Geometry), FilterDocFault>
    ensures { GivesBut OutOfMemory (λ x. x) result
        (operands_of srs.now (option_copied of_type.entry) element.now) }
{
    no_others(alloc, element, &[])?;
    let (first, rest) = first_in(alloc, element, element.children.items())?;
    named(alloc, first, "ValueReference")?;
    let property = shape_at(alloc, of_type, first)?;
    let (second, rest) = first_in(alloc, element, rest)?;
    let shape = geometry_at(alloc, srs, second)?;
    and_no_more(alloc, (property, shape), rest)
}
