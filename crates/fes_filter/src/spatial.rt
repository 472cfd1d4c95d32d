//! Spatial tests of values.

ghost use Rattle.std.specs.Prelude.{◌≡◌};
ghost use Rattle.std.specs.Option.{option_copied};
ghost use Rattle.std.specs.List.{list_any};
ghost use Rattle.fes_filter.specs.Truth.{passes, is_in, meets, is_in_box};

use crate::values::property_of;
use feature_values::{Feature, Value};
use geom_core::{Box2, Geometry};
use spatial_tests::{intersects, meets_box};

fn is_in(area: &Box2, value: &Value) -> bool
    ensures { result ≡ is_in area.now value.now }
{
    match value {
        Value::Shape(shape) => meets_box(shape, area),
        _ => false,
    }
}

fn is_some_in(area: &Box2, values: &[Value]) -> bool
    ensures { result ≡ list_any (is_in area.now) values.now }
{
    for value in values {
        if is_in(area, value) {
            return true;
        }
    }
    false
}

/// Whether the property's geometry, or where no property is named some geometry of the feature, meets the box.
#[tactic(auto, unfolding(crate::specs::Truth::is_in_box))]
pub fn is_in_box(feature: &Feature, property: Option<u32>, area: &Box2) -> bool
    ensures { result ≡ is_in_box feature.now property area.now }
{
    match property {
        None => is_some_in(area, feature.items()),
        Some(property) => match property_of(feature, property) {
            None => false,
            Some(value) => is_in(area, value),
        },
    }
}

/// Whether there is a geometry, and it shares a point with the shape.
pub fn meets(value: Option<&Value>, shape: &Geometry) -> bool
    ensures { result ≡ passes (meets shape.now) (option_copied value.entry) }
{
    match value {
        Some(Value::Shape(other)) => intersects(other, shape),
        _ => false,
    }
}
