//! Types, properties and kinds of values, and which operators take them.

ghost use Rattle.std.specs.Prelude.{◌≡◌};
ghost use Rattle.std.specs.Option.{option_copied};
ghost use Rattle.fes_filter.specs.Check.{type_in, property_in, wanted, kind_of, is_same, is_words, is_shape, is_equality, is_comparable, known, is_suited};

use crate::expr::{By, Expr};
use crate::fault::FilterFault;
use feature_values::{FeatureType, Schema, ValueKind, is_of_kind, without_prefix};

/// The type of a number in a schema; `None` is no type.
pub fn type_in(schema: &Schema, kind: Option<u32>) -> Option<&FeatureType>
    ensures { option_copied result ≡ type_in schema.now kind }
{
    match kind {
        None => None,
        Some(kind) => schema.types.items().get(kind as usize),
    }
}

/// The number of the first property of a type with this name, and its kind. The name may have a prefix, which is not
/// judged. No type has no properties.
pub fn property_in(of_type: Option<&FeatureType>, name: &str) -> Option<(u32, ValueKind)>
    ensures { result ≡ property_in (option_copied of_type.entry) name.now }
{
    let of_type = of_type?;
    let property = of_type.property_named(without_prefix(name))?;
    match of_type.properties.items().get(property as usize) {
        None => None,
        Some(found) => Some((property, found.kind)),
    }
}

/// What has to hold, or else the fault.
#[tactic(auto, unfolding(crate::specs::Check::wanted))]
pub fn wanted(holds: bool, fault: FilterFault) -> Result<(), FilterFault>
    ensures { result ≡ wanted holds fault }
{
    if holds { Ok(()) } else { Err(fault) }
}

/// The kind of a property of the type.
pub fn kind_of(of_type: Option<&FeatureType>, property: u32) -> Result<ValueKind, FilterFault>
    ensures { result ≡ kind_of (option_copied of_type.entry) property }
{
    let Some(of_type) = of_type else {
        return Err(FilterFault::Unknown);
    };
    match of_type.properties.items().get(property as usize) {
        None => Err(FilterFault::Unknown),
        Some(property) => Ok(property.kind),
    }
}

/// Whether two kinds are one.
pub fn is_same(a: ValueKind, b: ValueKind) -> bool
    ensures { result ≡ is_same a b }
{
    a == b
}

/// Whether values of a kind are texts.
pub fn is_words(kind: ValueKind) -> bool
    ensures { result ≡ is_words kind }
{
    matches!(kind, ValueKind::Words)
}

/// Whether values of a kind are geometries.
pub fn is_shape(kind: ValueKind) -> bool
    ensures { result ≡ is_shape kind }
{
    matches!(
        kind,
        ValueKind::Point | ValueKind::Line | ValueKind::Polygon
    )
}

/// Whether an operator is one of the two equalities.
pub fn is_equality(by: By) -> bool
    ensures { result ≡ is_equality by }
{
    matches!(by, By::Equal | By::NotEqual)
}

/// Whether values of a kind are compared so: texts and whole numbers by each operator, truth values by the two equalities
/// alone, and geometries by none.
pub fn is_comparable(by: By, kind: ValueKind) -> bool
    ensures { result ≡ is_comparable by kind }
{
    match kind {
        ValueKind::Words | ValueKind::Whole => true,
        ValueKind::Truth => is_equality(by),
        ValueKind::Point | ValueKind::Line | ValueKind::Polygon => false,
    }
}

/// The type has each property that an expression names.
pub fn known(of_type: Option<&FeatureType>, expr: &Expr) -> Result<(), FilterFault>
    ensures { result ≡ known (option_copied of_type.entry) expr.now }
{
    match expr {
        Expr::Property(property) => {
            kind_of(of_type, *property)?;
            Ok(())
        }
        Expr::Literal(_) | Expr::Parameter(_) => Ok(()),
    }
}

/// Whether an expression is of a kind. A parameter is of any.
pub fn is_suited(of_type: Option<&FeatureType>, kind: ValueKind, expr: &Expr) -> bool
    ensures { result ≡ is_suited (option_copied of_type.entry) kind expr.now }
{
    match expr {
        Expr::Property(property) => match kind_of(of_type, *property) {
            Err(_) => false,
            Ok(other) => is_same(kind, other),
        },
        Expr::Literal(value) => is_of_kind(value, kind),
        Expr::Parameter(_) => true,
    }
}
