//! What is wrong first with a filter for a feature type.

use super::Side::{At, Null, Open, Truth, Whole, Words};
use super::Sketch::{Apart, Between, Compare, Id, InBox, IsNull, Like, Meets};
use super::*;
use feature_values::{FeatureType, Property, Schema, ValueKind};
use fes_filter::By::{Equal, Greater, Less, LessEqual, NotEqual};
use fes_filter::FilterFault::{Choice, TooLarge, Types, Unknown};
use fes_filter::{FilterFault, check};

static KINDS: [ValueKind; 8] = [
    ValueKind::Words,
    ValueKind::Whole,
    ValueKind::Truth,
    ValueKind::Whole,
    ValueKind::Words,
    ValueKind::Polygon,
    ValueKind::Line,
    ValueKind::Point,
];

fn property(alloc: Global, kind: ValueKind) -> Mem<Property> {
    Ok(Property {
        name: Text::of(alloc, "p")?,
        kind,
        required: false,
        max: 40,
    })
}

// The type of marks.
fn marks(alloc: Global) -> Mem<FeatureType> {
    let mut properties = Vec::new(alloc);
    for kind in KINDS.iter() {
        properties.push(property(alloc, *kind)?)?;
    }
    Ok(FeatureType {
        name: Text::of(alloc, "Mark")?,
        properties: List::of(properties),
    })
}

pub fn schema(alloc: Global) -> Mem<Schema> {
    let mut types = Vec::new(alloc);
    types.push(marks(alloc)?)?;
    Ok(Schema {
        title: Text::of(alloc, "Marks")?,
        address: Text::of(alloc, "http://localhost/wfs")?,
        space: Text::of(alloc, "urn:marks")?,
        prefix: Text::of(alloc, "m")?,
        srs: List::of(Vec::new(alloc)),
        types: List::of(types),
    })
}

// The fault of a filter for a type.
fn fault_for(
    alloc: Global,
    schema: &Schema,
    sketch: Sketch,
    kind: Option<u32>,
) -> Mem<Option<FilterFault>> {
    let filter = filter(alloc, sketch)?;
    Ok(check(&filter, kind, schema).err())
}

static RIGHT: [(&str, Sketch); 18] = [
    ("texts", Compare(Less, At(LABEL), Words("a"), false)),
    ("literal first", Compare(Less, Whole(1), At(SIZE), false)),
    ("parameter", Compare(Less, At(SIZE), Open, false)),
    ("one kind", Compare(Equal, At(SIZE), At(DEPTH), false)),
    ("flags", Compare(NotEqual, At(FLAG), Truth(true), false)),
    ("no case", Compare(NotEqual, At(LABEL), Words("a"), true)),
    ("like", Like(LABEL)),
    ("null geometry", IsNull(SPOT)),
    ("between", Between(SIZE, Whole(1), Whole(2))),
    ("text between", Between(LABEL, Words("a"), At(NOTE))),
    ("id", Id(0, 1)),
    ("box", InBox(Some(SPOT), (0, 0), (1, 1))),
    ("box for any", InBox(None, (0, 0), (1, 1))),
    ("meets", Meets(WAY, (0, 0))),
    ("apart", Apart(FIELD, (0, 0))),
    ("flag is", Compare(Equal, At(FLAG), Truth(true), false)),
    ("equal", Compare(Equal, At(LABEL), Words("a"), true)),
    ("parameter first", Compare(Less, Open, At(SIZE), false)),
];

// The first of `RIGHT` that is refused.
fn refused(alloc: Global, schema: &Schema) -> Mem<Option<&'static str>> {
    for row in RIGHT.iter() {
        let (name, sketch) = *row;
        if fault_for(alloc, schema, sketch, Some(0))?.is_some() {
            return Ok(Some(name));
        }
    }
    Ok(None)
}

fn refused_mark(alloc: Global) -> Mem<Option<&'static str>> {
    let schema = schema(alloc)?;
    refused(alloc, &schema)
}

#[test]
fn filters_that_a_type_allows(rt: HostRuntime) {
    assert_eq!(rt; refused_mark(rt.alloc()), Ok(None));
}

static WRONG: [(&str, Sketch, FilterFault); 33] = [
    ("left", Compare(Equal, At(OTHER), Whole(1), false), Unknown),
    ("right", Compare(Equal, Whole(1), At(OTHER), false), Unknown),
    ("1st", Compare(Less, At(FLAG), At(OTHER), true), Unknown),
    ("like", Like(OTHER), Unknown),
    ("null", IsNull(OTHER), Unknown),
    ("high", Between(SIZE, Words("a"), At(OTHER)), Unknown),
    ("box", InBox(Some(OTHER), (0, 0), (1, 1)), Unknown),
    ("meets", Meets(OTHER, (0, 0)), Unknown),
    ("apart", Apart(OTHER, (0, 0)), Unknown),
    ("number", Compare(Equal, At(LABEL), Whole(1), false), Types),
    ("text", Compare(Equal, Words("1"), At(SIZE), false), Types),
    ("kinds", Compare(Equal, At(LABEL), At(SIZE), false), Types),
    ("null", Compare(Equal, At(SIZE), Null, false), Types),
    ("literals", Compare(Equal, Whole(1), Whole(1), false), Types),
    ("flag", Compare(LessEqual, At(FLAG), At(FLAG), false), Types),
    ("areas", Compare(Equal, At(FIELD), At(FIELD), false), Types),
    ("2nd", Compare(Less, At(LABEL), Whole(1), true), Types),
    ("flags", Between(FLAG, Truth(true), Truth(true)), Types),
    ("low", Between(SIZE, Words("a"), Whole(2)), Types),
    ("high", Between(SIZE, Whole(1), Words("a")), Types),
    ("like", Like(SIZE), Types),
    ("box", InBox(Some(LABEL), (0, 0), (1, 1)), Types),
    ("meets", Meets(LABEL, (0, 0)), Types),
    ("order", Compare(Less, At(LABEL), Words("a"), true), Choice),
    ("size", Compare(Equal, At(SIZE), Whole(1), true), Choice),
    ("truth", Compare(Equal, At(FLAG), Truth(true), true), Choice),
    ("low", Between(SIZE, At(OTHER), Words("a")), Unknown),
    ("apart", Apart(LABEL, (0, 0)), Types),
    ("ways", Compare(Equal, At(WAY), At(WAY), false), Types),
    ("spots", Compare(NotEqual, At(SPOT), At(SPOT), false), Types),
    ("1", Compare(Equal, At(FLAG), Whole(1), false), Types),
    (
        "after",
        Compare(Greater, At(FLAG), Truth(true), false),
        Types,
    ),
    ("no property", Compare(Equal, Open, Whole(1), false), Types),
];

// The first row of `WRONG` with another fault.
fn misjudged(alloc: Global, schema: &Schema) -> Mem<Option<usize>> {
    for i in 0..WRONG.len() {
        let (_, sketch, wanted) = WRONG[i];
        if fault_for(alloc, schema, sketch, Some(0))? != Some(wanted) {
            return Ok(Some(i));
        }
    }
    Ok(None)
}

fn misjudged_mark(alloc: Global) -> Mem<Option<usize>> {
    let schema = schema(alloc)?;
    misjudged(alloc, &schema)
}

#[test]
fn the_first_fault_is_named(rt: HostRuntime) {
    assert_eq!(rt; misjudged_mark(rt.alloc()), Ok(None));
}

fn fault_of_type(alloc: Global, sketch: Sketch, kind: Option<u32>) -> Mem<Option<FilterFault>> {
    let schema = schema(alloc)?;
    fault_for(alloc, &schema, sketch, kind)
}

// No type, and one that the schema has not, have no properties.
#[test]
fn without_a_type(rt: HostRuntime) {
    let unknown = Ok(Some(Unknown));
    assert_eq!(rt; fault_of_type(rt.alloc(), IsNull(LABEL), None), unknown);
    assert_eq!(rt; fault_of_type(rt.alloc(), IsNull(LABEL), Some(1)), unknown);
    assert_eq!(rt; fault_of_type(rt.alloc(), Id(0, 1), None), Ok(None));
    let area = InBox(None, (0, 0), (1, 1));
    assert_eq!(rt; fault_of_type(rt.alloc(), area, None), Ok(None));
}

// And over so many operators, of which one names a property that is not there.
fn many(alloc: Global, count: u32, wrong: u32) -> Mem<Filter> {
    let mut all = Vec::new(alloc);
    for i in 0..count {
        let property = if i == wrong { OTHER } else { LABEL };
        all.push(Filter::IsNull(property))?;
    }
    Ok(Filter::Both(List::of(all)))
}

fn fault_of_many(
    alloc: Global,
    schema: &Schema,
    count: u32,
    wrong: u32,
) -> Mem<Option<FilterFault>> {
    let filter = many(alloc, count, wrong)?;
    Ok(check(&filter, Some(0), schema).err())
}

/// With And, at most 1,000 operators are allowed, and the fault that comes first counts.
static COUNTS: [(u32, u32, Option<FilterFault>); 4] = [
    (999, 2000, None),
    (1000, 2000, Some(TooLarge)),
    (1000, 998, Some(Unknown)),
    (1000, 999, Some(TooLarge)),
];

// The first row of `COUNTS` with another fault.
fn miscounted(alloc: Global, schema: &Schema) -> Mem<Option<usize>> {
    for i in 0..COUNTS.len() {
        let (count, wrong, wanted) = COUNTS[i];
        if fault_of_many(alloc, schema, count, wrong)? != wanted {
            return Ok(Some(i));
        }
    }
    Ok(None)
}

fn miscounted_mark(alloc: Global) -> Mem<Option<usize>> {
    let schema = schema(alloc)?;
    miscounted(alloc, &schema)
}

#[test]
fn operators_are_counted(rt: HostRuntime) {
    assert_eq!(rt; miscounted_mark(rt.alloc()), Ok(None));
}

// Or over so many operators of one sort.
fn fault_of_or(
    alloc: Global,
    schema: &Schema,
    part: Sketch,
    count: u32,
) -> Mem<Option<FilterFault>> {
    let mut all = Vec::new(alloc);
    for _ in 0..count {
        all.push(filter(alloc, part)?)?;
    }
    let filter = Filter::Either(List::of(all));
    Ok(check(&filter, Some(0), schema).err())
}

/// One of each sort that has no parts.
static SORTS: [(&str, Sketch); 8] = [
    ("compare", Compare(Equal, At(SIZE), Whole(1), false)),
    ("like", Like(LABEL)),
    ("null", IsNull(LABEL)),
    ("between", Between(SIZE, Whole(1), Whole(2))),
    ("ids", Id(0, 1)),
    ("box", InBox(None, (0, 0), (1, 1))),
    ("meets", Meets(WAY, (0, 0))),
    ("apart", Apart(WAY, (0, 0))),
];

// The first sort that does not count as one operator.
fn uncounted(alloc: Global, schema: &Schema) -> Mem<Option<&'static str>> {
    for row in SORTS.iter() {
        let (name, part) = *row;
        if fault_of_or(alloc, schema, part, 999)?.is_some()
            || fault_of_or(alloc, schema, part, 1000)? != Some(TooLarge)
        {
            return Ok(Some(name));
        }
    }
    Ok(None)
}

fn uncounted_of_mark(alloc: Global) -> Mem<Option<&'static str>> {
    let schema = schema(alloc)?;
    uncounted(alloc, &schema)
}

#[test]
fn each_operator_counts(rt: HostRuntime) {
    assert_eq!(rt; uncounted_of_mark(rt.alloc()), Ok(None));
}

// And over so many negations.
fn fault_of_negations(alloc: Global, count: u32) -> Mem<Option<FilterFault>> {
    let schema = schema(alloc)?;
    let mut all = Vec::new(alloc);
    for _ in 0..count {
        all.push(negated(alloc, Filter::IsNull(LABEL))?)?;
    }
    let filter = Filter::Both(List::of(all));
    Ok(check(&filter, Some(0), &schema).err())
}

#[test]
fn negations_count(rt: HostRuntime) {
    assert_eq!(rt; fault_of_negations(rt.alloc(), 499), Ok(None));
    assert_eq!(rt; fault_of_negations(rt.alloc(), 500), Ok(Some(TooLarge)));
}
