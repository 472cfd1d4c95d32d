//! What a schema allows, and how values compare.

use crate::values::{KINDS, Sketch, fault_of_one, property, schema, schema_of_one, value};
use feature_values::{Feature, Rid, Schema, Value, ValueFault, ValueKind, compare, fits};
use std::alloc::Global;
use std::cmp::Ordering;
use wfs_ends::Mem;

// A mark with this label, size and a place.
fn mark(alloc: Global, label: Sketch, size: Sketch) -> Mem<Feature> {
    let mut values = Vec::new(alloc);
    values.push(value(alloc, label)?)?;
    values.push(value(alloc, size)?)?;
    values.push(value(alloc, Sketch::Point)?)?;
    Feature::of(alloc, Rid { kind: 0, number: 0 }, values)
}

const SIZE: Sketch = Sketch::Whole(7);

const NO_SIZE: Sketch = Sketch::Truth(true);

// The label and the size of a mark, and what is wrong with it.
static MARKS: [(Sketch, Sketch, Option<ValueFault>); 7] = [
    (Sketch::Words("\u{e4}bc"), SIZE, None),
    (Sketch::Words(""), SIZE, None),
    (Sketch::Null, SIZE, Some(ValueFault::Missing)),
    (Sketch::Null, NO_SIZE, Some(ValueFault::Missing)),
    (Sketch::Words("abcd"), NO_SIZE, Some(ValueFault::TooLong)),
    (
        Sketch::Words("\u{e4}\u{f6}\u{fc}\u{df}"),
        SIZE,
        Some(ValueFault::TooLong),
    ),
    (Sketch::Words("abc"), NO_SIZE, Some(ValueFault::BadValue)),
];

fn is_copied(alloc: Global, feature: &Feature) -> Mem<bool> {
    let copy = feature.copy(alloc)?;
    Ok(copy == *feature)
}

fn fault_of_mark(
    alloc: Global,
    schema: &Schema,
    label: Sketch,
    size: Sketch,
) -> Mem<Option<ValueFault>> {
    let feature = mark(alloc, label, size)?;
    Ok(fits(schema, &feature).err())
}

fn is_mark_copied(alloc: Global, label: Sketch, size: Sketch) -> Mem<bool> {
    let feature = mark(alloc, label, size)?;
    is_copied(alloc, &feature)
}

// The first row of `MARKS` that is judged otherwise, or whose copy is not equal.
fn misjudged(alloc: Global, schema: &Schema) -> Mem<Option<usize>> {
    for i in 0..MARKS.len() {
        let (label, size, wanted) = MARKS[i];
        let fault = fault_of_mark(alloc, schema, label, size)?;
        if fault != wanted || !is_mark_copied(alloc, label, size)? {
            return Ok(Some(i));
        }
    }
    Ok(None)
}

fn misjudged_mark(alloc: Global) -> Mem<Option<usize>> {
    let schema = schema(alloc)?;
    misjudged(alloc, &schema)
}

#[test]
fn judges_features(rt: HostRuntime) {
    assert_eq!(rt; misjudged_mark(rt.alloc()), Ok(None));
}

fn is_unknown(alloc: Global, schema: &Schema, kind: u32) -> Mem<bool> {
    let mut field = mark(alloc, Sketch::Words("abc"), SIZE)?;
    field.id.kind = kind;
    Ok(fits(schema, &field) == Err(ValueFault::Unknown))
}

// Whether a mark's values are refused under each of these numbers of types, and one value alone under its own.
fn are_unknown(alloc: Global) -> Mem<bool> {
    let schema = schema(alloc)?;
    Ok(
        is_unknown(alloc, &schema, 1)?
            && is_unknown(alloc, &schema, 2)?
            && is_unknown(alloc, &schema, 4_294_967_295)?
            && fault_of_one(alloc, &schema, Value::Null)? == Some(ValueFault::Unknown),
    )
}

#[test]
fn knows_the_types_of_the_schema(rt: HostRuntime) {
    assert_eq!(rt; are_unknown(rt.alloc()), Ok(true));
}

fn has_equal_copy(alloc: Global, schema: &Schema) -> Mem<bool> {
    let copy = schema.copy(alloc)?;
    Ok(copy == *schema)
}

fn is_schema_copied(alloc: Global) -> Mem<bool> {
    let schema = schema(alloc)?;
    has_equal_copy(alloc, &schema)
}

#[test]
fn copies_a_schema(rt: HostRuntime) {
    assert_eq!(rt; is_schema_copied(rt.alloc()), Ok(true));
}

// A schema of one property of this kind.
fn schema_of_kind(alloc: Global, kind: ValueKind, required: bool) -> Mem<Schema> {
    let property = property(alloc, "p", kind, required, 3)?;
    schema_of_one(alloc, property)
}

// What is wrong with a value as that of a required property of this kind, by the rule.
fn fault_of(kind: ValueKind, other: ValueKind) -> Option<ValueFault> {
    if kind == other {
        return None;
    }
    Some(ValueFault::BadValue)
}

// The first kind of which a value is misjudged for the property of this kind.
fn misfit(alloc: Global, schema: &Schema, kind: ValueKind) -> Mem<Option<ValueKind>> {
    for row in KINDS.iter() {
        let (other, sketch) = *row;
        let fault = fault_of_one(alloc, schema, value(alloc, sketch)?)?;
        if fault != fault_of(kind, other) {
            return Ok(Some(other));
        }
    }
    Ok(None)
}

fn misfit_of(alloc: Global, kind: ValueKind) -> Mem<Option<ValueKind>> {
    let schema = schema_of_kind(alloc, kind, true)?;
    misfit(alloc, &schema, kind)
}

#[test]
fn tells_kinds_apart(rt: HostRuntime) {
    for row in KINDS.iter() {
        let kind = row.0;
        assert_eq!(rt; misfit_of(rt.alloc(), kind), Ok(None), "{kind:?}");
    }
}

fn fault_of_null(alloc: Global, kind: ValueKind, required: bool) -> Mem<Option<ValueFault>> {
    let schema = schema_of_kind(alloc, kind, required)?;
    fault_of_one(alloc, &schema, Value::Null)
}

fn is_null_judged(alloc: Global, kind: ValueKind) -> Mem<bool> {
    let optional = fault_of_null(alloc, kind, false)?;
    let required = fault_of_null(alloc, kind, true)?;
    Ok(optional.is_none() && required == Some(ValueFault::Missing))
}

#[test]
fn requires_values(rt: HostRuntime) {
    for row in KINDS.iter() {
        let kind = row.0;
        assert_eq!(rt; is_null_judged(rt.alloc(), kind), Ok(true), "{kind:?}");
    }
}

static ORDERS: [(Sketch, Sketch, Option<Ordering>); 13] = [
    (
        Sketch::Words("Z"),
        Sketch::Words("\u{e4}"),
        Some(Ordering::Less),
    ),
    (
        Sketch::Words("\u{e4}"),
        Sketch::Words("\u{e4}"),
        Some(Ordering::Equal),
    ),
    (
        Sketch::Words("a"),
        Sketch::Words("ab"),
        Some(Ordering::Less),
    ),
    (
        Sketch::Words("b"),
        Sketch::Words("aB"),
        Some(Ordering::Greater),
    ),
    (Sketch::Words("Z"), Sketch::Words("a"), Some(Ordering::Less)),
    (
        Sketch::Words("\u{fffd}"),
        Sketch::Words("\u{1f5fa}"),
        Some(Ordering::Less),
    ),
    (
        Sketch::Whole(-9_223_372_036_854_775_808),
        Sketch::Whole(9_223_372_036_854_775_807),
        Some(Ordering::Less),
    ),
    (
        Sketch::Whole(9),
        Sketch::Whole(-10),
        Some(Ordering::Greater),
    ),
    (
        Sketch::Truth(false),
        Sketch::Truth(true),
        Some(Ordering::Less),
    ),
    (Sketch::Null, Sketch::Null, None),
    (Sketch::Point, Sketch::Point, None),
    (Sketch::Words("\u{e4}"), Sketch::Whole(1), None),
    (Sketch::Null, Sketch::Whole(1), None),
];

fn order(alloc: Global, a: Sketch, b: Sketch) -> Mem<Option<Ordering>> {
    let a = value(alloc, a)?;
    order_to(alloc, &a, b)
}

fn order_to(alloc: Global, a: &Value, b: Sketch) -> Mem<Option<Ordering>> {
    let b = value(alloc, b)?;
    Ok(compare(a, &b))
}

// The first row of `ORDERS` that stands otherwise.
fn misordered(alloc: Global) -> Mem<Option<usize>> {
    for i in 0..ORDERS.len() {
        let (a, b, wanted) = ORDERS[i];
        if order(alloc, a, b)? != wanted {
            return Ok(Some(i));
        }
    }
    Ok(None)
}

#[test]
fn orders_values(rt: HostRuntime) {
    assert_eq!(rt; misordered(rt.alloc()), Ok(None));
}

fn has_order(kind: ValueKind) -> bool {
    matches!(kind, ValueKind::Words | ValueKind::Whole | ValueKind::Truth)
}

// The first kind of which a value stands otherwise to one of this kind.
fn misordered_kind(alloc: Global, kind: ValueKind, of_kind: Sketch) -> Mem<Option<ValueKind>> {
    for row in KINDS.iter() {
        let (other, of_other) = *row;
        let wanted = if kind == other && has_order(kind) {
            Some(Ordering::Equal)
        } else {
            None
        };
        if order(alloc, of_kind, of_other)? != wanted {
            return Ok(Some(other));
        }
    }
    Ok(None)
}

#[test]
fn orders_values_of_one_kind(rt: HostRuntime) {
    for row in KINDS.iter() {
        let (kind, sketch) = *row;
        assert_eq!(rt;
            misordered_kind(rt.alloc(), kind, sketch),
            Ok(None),
            "{kind:?}"
        );
    }
}
