//! The features that a drill inserts.

ghost use Rattle.std.specs.Prelude.{◌≡◌, ◌≤◌, IfOk, Some};
ghost use Rattle.geom_core.specs.declared.geometry.Geometry.TheVariants.{Along, Over};
ghost use Rattle.drill_requests.specs.Requests.{area_of, beside, diagonal, feature_of, value_of, values_of};

use crate::round::Round;
use feature_values::{Feature, FeatureType, Rid, Schema, Value, ValueKind};
use geom_core::{Geometry, Line, Polygon, Pos, Ring};
use std::alloc::Global;
use wfs_ends::{Mem, OutOfMemory, Shared, Text};

/// The place so far to the right of a round's, and above it.
pub fn beside(round: Round, right: u32, up: u32) -> Pos
    requires right { right ≤ 60_000 }
    requires up { up ≤ 60_000 }
    ensures { result ≡ beside round right up }
{
    Pos {
        x: (round.x + right) as i32,
        y: (round.y + up) as i32,
    }
}

/// The feature that a round inserts, with one value for each property of its type.
pub fn feature_of(alloc: Global, schema: &Schema, round: Round) -> Mem<Feature>
    ensures { IfOk result (λ feature. feature ≡ feature_of schema.now round) }
{
    match schema.types.items().get(round.kind as usize) {
        None => feature_with(alloc, round, Vec::new(alloc)),
        Some(of_type) => feature_with(alloc, round, values_of(alloc, round, of_type)?),
    }
}

// A feature of the round's type, with no number yet.
fn feature_with(alloc: Global, round: Round, values: Vec<Value>) -> Mem<Feature>
    ensures { IfOk result (λ feature. feature ≡
        record { id = record { kind = round.kind; number = 0 }; values = values.items }) }
{
    let id = Rid {
        kind: round.kind,
        number: 0,
    };
    Feature::of(alloc, id, values)
}

// The values of a feature of this type.
fn values_of(alloc: Global, round: Round, of_type: &FeatureType) -> Mem<Vec<Value>>
    ensures { IfOk result (λ values. values.items ≡ values_of round (Some of_type.now)) }
{
    let properties = of_type.properties.items();
    let mut values = Vec::with_capacity(alloc, properties.len())?;
    for property in properties {
        values.push(value_of(alloc, round, property.kind)?)?;
    }
    Ok(values)
}

// The value of a property by its kind.
fn value_of(alloc: Global, round: Round, kind: ValueKind) -> Mem<Value>
    ensures { IfOk result (λ value. value ≡ value_of round kind) }
{
    match kind {
        ValueKind::Words => Ok(Value::Words(Text::of(alloc, "a")?)),
        ValueKind::Whole => Ok(Value::Whole(i64::from(round.number))),
        ValueKind::Truth => Ok(Value::Truth(true)),
        ValueKind::Point => Ok(Value::Shape(Geometry::At(beside(round, 0, 0)))),
        ValueKind::Line => Ok(Value::Shape(line_of(alloc, round)?)),
        ValueKind::Polygon => Ok(Value::Shape(square_of(alloc, round)?)),
    }
}

// From the round's place to the right and up.
fn line_of(alloc: Global, round: Round) -> Mem<Geometry>
    ensures { IfOk result (λ shape. shape ≡ Along (diagonal round)) }
{
    let places = vec![in alloc; beside(round, 0, 0), beside(round, 10, 10)]?;
    match Line::new(places) {
        Ok(line) => Ok(Geometry::Along(Shared::new(alloc, line)?)),
        Err(_) => Err(OutOfMemory),
    }
}

// The square at the round's place.
fn square_of(alloc: Global, round: Round) -> Mem<Geometry>
    ensures { IfOk result (λ shape. shape ≡ Over (area_of round)) }
{
    let places = vec![in alloc;
        beside(round, 0, 0),
        beside(round, 10, 0),
        beside(round, 10, 10),
        beside(round, 0, 10),
        beside(round, 0, 0),
    ]?;
    let Ok(shell) = Ring::new(places) else {
        return Err(OutOfMemory);
    };
    match Polygon::new(shell, Vec::new(alloc)) {
        Ok(area) => Ok(Geometry::Over(Shared::new(alloc, area)?)),
        Err(_) => Err(OutOfMemory),
    }
}
