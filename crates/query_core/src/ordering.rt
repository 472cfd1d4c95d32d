//! How features stand to each other.

ghost use Rattle.std.specs.Prelude.{◌≡◌};
ghost use Rattle.std.specs.Option.{option_copied};
ghost use Rattle.std.specs.Ordering.{nat_cmp};
ghost use Rattle.feature_values.specs.Order.{order_of};
ghost use Rattle.fes_filter.specs.Truth.{property_of};
ghost use Rattle.query_core.specs.Keyed.{by_way, value_behind};
ghost use Rattle.query_core.specs.Sorting.{or_null, kind_place, value_order, key_order, rid_order, feature_order};

use feature_values::{Feature, Rid, Value};
use fes_filter::{SortKey, property_of};
use geom_core::Geometry;
use std::cmp::Ordering;

/// A value as it is compared: what it holds is borrowed, so that a comparison needs no other look-up.
#[derive(Clone, Copy)]
pub(crate) enum ValueRef<'a> {
    Null,
    Words(&'a str),
    Whole(i64),
    Truth(bool),
    Shape(&'a Geometry),
}

/// No value counts as a null.
fn borrowed(value: Option<&Value>) -> ValueRef<'_>
    ensures { value_behind result ≡ or_null (option_copied value.entry) }
{
    match value {
        None | Some(Value::Null) => ValueRef::Null,
        Some(Value::Words(text)) => ValueRef::Words(text.as_str()),
        Some(Value::Whole(number)) => ValueRef::Whole(*number),
        Some(Value::Truth(truth)) => ValueRef::Truth(*truth),
        Some(Value::Shape(shape)) => ValueRef::Shape(shape),
    }
}

/// The value of a property as it is compared.
pub(crate) fn value_at(feature: &Feature, property: u32) -> ValueRef<'_>
    ensures { value_behind result ≡ or_null (property_of feature.now property) }
{
    borrowed(property_of(feature, property))
}

/// Where the values of a kind stand.
fn kind_place(value: &ValueRef) -> u8
    ensures { result ≡ kind_place (value_behind value.now) }
{
    match value {
        ValueRef::Null => 0,
        ValueRef::Words(_) => 1,
        ValueRef::Whole(_) => 2,
        ValueRef::Truth(_) => 3,
        ValueRef::Shape(_) => 4,
    }
}

/// How two values of one kind stand to each other.
fn compare(a: &ValueRef, b: &ValueRef) -> Option<Ordering>
    ensures { result ≡ order_of (value_behind a.now) (value_behind b.now) }
{
    match (a, b) {
        (ValueRef::Words(a), ValueRef::Words(b)) => Some(a.cmp(b)),
        (ValueRef::Whole(a), ValueRef::Whole(b)) => Some(a.cmp(b)),
        (ValueRef::Truth(a), ValueRef::Truth(b)) => Some(a.cmp(b)),
        _ => None,
    }
}

/// How their kinds stand to each other.
fn kinds_order(a: &ValueRef, b: &ValueRef) -> Ordering
    ensures { result ≡ nat_cmp (kind_place (value_behind a.now)) (kind_place (value_behind b.now)) }
{
    kind_place(a).cmp(&kind_place(b))
}

/// The ascending order of values. Two of one kind are the usual case, so they are compared first.
pub(crate) fn value_order(a: &ValueRef, b: &ValueRef) -> Ordering
    ensures { result ≡ value_order (value_behind a.now) (value_behind b.now) }
{
    let Some(order) = compare(a, b) else {
        return kinds_order(a, b);
    };
    order
}

/// An order that ascends, turned round where it is to descend.
pub(crate) fn by_way(descending: bool, ascending: Ordering) -> Ordering
    ensures { result ≡ by_way descending ascending }
{
    if descending {
        ascending.reverse()
    } else {
        ascending
    }
}

#[tactic(auto, unfolding(crate::specs::Sorting::key_order))]
fn key_order(key: SortKey, a: &Feature, b: &Feature) -> Ordering
    ensures { result ≡ key_order key a.now b.now }
{
    by_way(
        key.descending,
        value_order(&value_at(a, key.property), &value_at(b, key.property)),
    )
}

#[tactic(auto, unfolding(crate::specs::Sorting::rid_order))]
/// The default order of identifiers.
pub(crate) fn rid_order(a: Rid, b: Rid) -> Ordering
    ensures { result ≡ rid_order a b }
{
    a.kind.cmp(&b.kind).then(a.number.cmp(&b.number))
}

/// How two features stand to each other by all keys, of which the first counts first, and then in default order.
pub(crate) fn feature_order(keys: &[SortKey], a: &Feature, b: &Feature) -> Ordering
    ensures { result ≡ feature_order keys.now a.now b.now }
{
    for key in keys {
        let order = key_order(*key, a, b);
        if order.is_ne() {
            return order;
        }
    }
    rid_order(a.id, b.id)
}
