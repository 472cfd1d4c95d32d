//! What expressions stand for.

ghost use Rattle.std.specs.Prelude.{◌≡◌};
ghost use Rattle.std.specs.Option.{option_copied};
ghost use Rattle.fes_filter.specs.Truth.{property_of, value_of, is_missing};

use crate::expr::Expr;
use feature_values::{Feature, Value};

/// The value of a property, which is named by its index in the feature type, if the feature has this property.
pub fn property_of(feature: &Feature, property: u32) -> Option<&Value>
    ensures { option_copied result ≡ property_of feature.now property }
{
    feature.items().get(property as usize)
}

/// What an expression stands for.
pub fn value_of<'a>(feature: &'a Feature, expr: &'a Expr) -> Option<&'a Value>
    ensures { option_copied result ≡ value_of feature.now expr.now }
{
    match expr {
        Expr::Property(property) => property_of(feature, *property),
        Expr::Literal(value) => Some(value),
        Expr::Parameter(_) => None,
    }
}

/// Whether there is no value, or the null.
pub fn is_missing(value: Option<&Value>) -> bool
    ensures { result ≡ is_missing (option_copied value.entry) }
{
    match value {
        None | Some(Value::Null) => true,
        Some(_) => false,
    }
}
