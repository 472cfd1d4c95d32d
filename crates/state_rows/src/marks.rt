//! A service of marks, each with a size, in its first opening.

ghost use Rattle.std.specs.Prelude.{◌≡◌, IfOk, Ok};
ghost use Rattle.feature_values.specs.Fits.{feature_fits};
ghost use Rattle.request_plans.specs.Marks.{AreMarks, mark_properties, mark_types};

use feature_values::{Feature, FeatureType, Property, Rid, Schema, Value, ValueKind, fits};
use feature_versions::Features;
use service_state::ServiceState;
use std::alloc::Global;
use wfs_ends::{List, Mem, OutOfMemory, Text};
use wfs_model::Change;

fn size(alloc: Global) -> Mem<List<Property>>
    ensures { IfOk result (λ properties. properties ≡ mark_properties) }
{
    let mut properties = Vec::new(alloc);
    properties.push(Property {
        name: Text::of(alloc, "size")?,
        kind: ValueKind::Whole,
        required: false,
        max: 1,
    })?;
    Ok(List::of(properties))
}

fn mark_type(alloc: Global) -> Mem<List<FeatureType>>
    ensures { IfOk result (λ types. types ≡ mark_types) }
{
    let mut types = Vec::new(alloc);
    types.push(FeatureType {
        name: Text::of(alloc, "Mark")?,
        properties: size(alloc)?,
    })?;
    Ok(List::of(types))
}

fn feature_type(alloc: Global, name: &str) -> Mem<FeatureType> {
    Ok(FeatureType {
        name: Text::of(alloc, name)?,
        properties: size(alloc)?,
    })
}

fn schema_of(alloc: Global, types: List<FeatureType>) -> Mem<Schema>
    ensures { IfOk result (λ schema. schema.types ≡ types) }
{
    Ok(Schema {
        title: Text::of(alloc, "Marks")?,
        address: Text::of(alloc, "http://localhost/wfs")?,
        space: Text::of(alloc, "urn:marks")?,
        prefix: Text::of(alloc, "m")?,
        srs: List::of(Vec::new(alloc)),
        types,
    })
}

/// A schema whose one type is Mark, with a size.
pub fn schema(alloc: Global) -> Mem<Schema>
    ensures { IfOk result AreMarks }
{
    schema_of(alloc, mark_type(alloc)?)
}

/// A schema of two types with a size each.
pub fn two_types(alloc: Global) -> Mem<Schema> {
    let mut types = Vec::new(alloc);
    types.push(feature_type(alloc, "Mark")?)?;
    types.push(feature_type(alloc, "Spot")?)?;
    schema_of(alloc, List::of(types))
}

/// The identifier of a mark.
pub fn mark(number: u64) -> Rid
    ensures { result ≡ record { kind = 0; number = number } }
{
    Rid { kind: 0, number }
}

/// A feature of this type that comes.
pub fn new_feature(alloc: Global, schema: &Schema, kind: u32) -> Mem<Feature>
    ensures id { IfOk result (λ f. f.id ≡ record { kind = kind; number = 0 }) }
    ensures fits { IfOk result (λ f. feature_fits schema.now f ≡ Ok tt) }
{
    let mut values = Vec::new(alloc);
    values.push(Value::Whole(10))?;
    let feature = Feature::of(alloc, Rid { kind, number: 0 }, values)?;
    match fits(schema, &feature) {
        Ok(()) => Ok(feature),
        Err(_) => Err(OutOfMemory),
    }
}

/// The state in which the first opening begins.
pub fn first_state(alloc: Global, schema: &Schema) -> Mem<ServiceState>
    ensures { IfOk result (λ state. state.schema ≡ schema.now) }
{
    let mut features = Features::new(alloc, schema)?;
    let opening = Change::Opening(1);
    if !features.accepts(alloc, &opening)? {
        return Err(OutOfMemory);
    }
    features.reserve(&opening)?;
    features.apply(opening);
    Ok(ServiceState::open(alloc, features))
}
