//! Which features a schema allows.

ghost use Rattle.std.specs.Prelude.{◌≡◌, length};
ghost use Rattle.feature_values.specs.Fits.{is_of_kind, value_fits, values_fit, type_fits, feature_fits};

use crate::fault::ValueFault;
use crate::feature::Feature;
use crate::read::is_longer;
use crate::schema::{FeatureType, Property, Schema, ValueKind};
use crate::value::Value;
use geom_core::Geometry;

/// Whether a value is of a kind. A null is of none.
#[tactic(auto, unfolding(crate::specs::Fits::is_of_kind))]
pub fn is_of_kind(value: &Value, kind: ValueKind) -> bool
    ensures { result ≡ is_of_kind value.now kind }
{
    match (value, kind) {
        (Value::Words(_), ValueKind::Words) => true,
        (Value::Whole(_), ValueKind::Whole) => true,
        (Value::Truth(_), ValueKind::Truth) => true,
        (Value::Shape(Geometry::At(_)), ValueKind::Point) => true,
        (Value::Shape(Geometry::Along(_)), ValueKind::Line) => true,
        (Value::Shape(Geometry::Over(_)), ValueKind::Polygon) => true,
        _ => false,
    }
}

#[tactic(auto, unfolding(crate::specs::Fits::value_fits))]
fn value_fits(property: &Property, value: &Value) -> Result<(), ValueFault>
    ensures { result ≡ value_fits property.now value.now }
{
    if let Value::Null = value {
        if property.required {
            return Err(ValueFault::Missing);
        }
        return Ok(());
    }
    if !is_of_kind(value, property.kind) {
        return Err(ValueFault::BadValue);
    }
    match value {
        Value::Words(text) => {
            if is_longer(text.as_str(), property.max) {
                return Err(ValueFault::TooLong);
            }
            Ok(())
        }
        _ => Ok(()),
    }
}

#[tactic(auto, unfolding(crate::specs::Fits::type_fits))]
fn type_fits(of_type: &FeatureType, values: &[Value]) -> Result<(), ValueFault>
    ensures { result ≡ type_fits of_type.now values.now }
{
    let properties = of_type.properties.items();
    if properties.len() != values.len() {
        return Err(ValueFault::Unknown);
    }
    values_fit(properties, values)
}

#[tactic(auto, using(crate::proofs::Each::fit_turn, crate::proofs::Each::fit_end))]
fn values_fit(properties: &[Property], values: &[Value]) -> Result<(), ValueFault>
    requires { length properties.now ≡ length values.now }
    ensures { result ≡ values_fit properties.now values.now }
{
    for i in 0..properties.len() {
        value_fits(&properties[i], &values[i])?;
    }
    Ok(())
}

/// Whether a schema allows a feature: its type is one of the schema, it has one value for each property of this type,
/// and each value is null where none is required, or of the property's kind and no longer than it allows. It takes no
/// memory.
///
/// `Unknown`: there is no such type, or not one value per property. Then the first value in the order of the
/// properties that does not fit decides. `Missing`: it is null, and required. `BadValue`: it is of another kind.
/// `TooLong`: it is a text of more characters than the property's `max`.
#[tactic(auto, unfolding(crate::specs::Fits::feature_fits))]
pub fn fits(schema: &Schema, feature: &Feature) -> Result<(), ValueFault>
    ensures { result ≡ feature_fits schema.now feature.now }
{
    match schema.types.items().get(feature.id.kind as usize) {
        None => Err(ValueFault::Unknown),
        Some(of_type) => type_fits(of_type, feature.items()),
    }
}
