//! Values of each kind, as text and against a schema, and identifiers.

use feature_values::{
    Feature, FeatureType, Property, Rid, Schema, Value, ValueFault, ValueKind, fits,
};
use geom_core::{Geometry, Line, Polygon, Pos, Ring};
use std::alloc::Global;
use wfs_ends::{List, Mem, Shared, Text};

mod judging;
mod naming;
mod reading;

/// A value.
#[derive(Clone, Copy)]
enum Sketch {
    Null,
    Words(&'static str),
    Whole(i64),
    Truth(bool),
    Point,
    Line,
    Polygon,
}

// A square's corners, the first again at the end.
static CORNERS: [(i32, i32); 5] = [(0, 0), (9, 0), (9, 9), (0, 9), (0, 0)];

fn corners(alloc: Global) -> Mem<Vec<Pos>> {
    let mut all = Vec::new(alloc);
    for corner in CORNERS.iter() {
        let (x, y) = *corner;
        all.push(Pos { x, y })?;
    }
    Ok(all)
}

// The line along the corners, or null where they make none.
fn line(alloc: Global) -> Mem<Value> {
    Ok(match Line::new(corners(alloc)?) {
        Ok(line) => Value::Shape(Geometry::Along(Shared::new(alloc, line)?)),
        Err(_) => Value::Null,
    })
}

// The polygon of the corners, or null where they make none.
fn polygon(alloc: Global) -> Mem<Value> {
    let Ok(shell) = Ring::new(corners(alloc)?) else {
        return Ok(Value::Null);
    };
    Ok(match Polygon::new(shell, Vec::new(alloc)) {
        Ok(area) => Value::Shape(Geometry::Over(Shared::new(alloc, area)?)),
        Err(_) => Value::Null,
    })
}

fn words(alloc: Global, text: &str) -> Mem<Value> {
    Ok(Value::Words(Text::of(alloc, text)?))
}

fn value(alloc: Global, sketch: Sketch) -> Mem<Value> {
    match sketch {
        Sketch::Null => Ok(Value::Null),
        Sketch::Words(text) => words(alloc, text),
        Sketch::Whole(number) => Ok(Value::Whole(number)),
        Sketch::Truth(truth) => Ok(Value::Truth(truth)),
        Sketch::Point => Ok(Value::Shape(Geometry::At(Pos { x: 1, y: 2 }))),
        Sketch::Line => line(alloc),
        Sketch::Polygon => polygon(alloc),
    }
}

// Each kind and a value of it.
static KINDS: [(ValueKind, Sketch); 6] = [
    (ValueKind::Words, Sketch::Words("abc")),
    (ValueKind::Whole, Sketch::Whole(0)),
    (ValueKind::Truth, Sketch::Truth(false)),
    (ValueKind::Point, Sketch::Point),
    (ValueKind::Line, Sketch::Line),
    (ValueKind::Polygon, Sketch::Polygon),
];

fn property(alloc: Global, name: &str, kind: ValueKind, required: bool, max: u32) -> Mem<Property> {
    Ok(Property {
        name: Text::of(alloc, name)?,
        kind,
        required,
        max,
    })
}

fn feature_type(alloc: Global, name: &str, properties: Vec<Property>) -> Mem<FeatureType> {
    Ok(FeatureType {
        name: Text::of(alloc, name)?,
        properties: List::of(properties),
    })
}

fn srs(alloc: Global) -> Mem<List<Text>> {
    let mut srs = Vec::new(alloc);
    srs.push(Text::of(alloc, "EPSG:25832")?)?;
    Ok(List::of(srs))
}

fn schema_of(alloc: Global, types: Vec<FeatureType>) -> Mem<Schema> {
    Ok(Schema {
        title: Text::of(alloc, "Marks")?,
        address: Text::of(alloc, "http://localhost/wfs")?,
        space: Text::of(alloc, "urn:marks")?,
        prefix: Text::of(alloc, "m")?,
        srs: srs(alloc)?,
        types: List::of(types),
    })
}

fn mark_properties(alloc: Global) -> Mem<Vec<Property>> {
    let mut all = Vec::new(alloc);
    all.push(property(alloc, "label", ValueKind::Words, true, 3)?)?;
    all.push(property(alloc, "Size", ValueKind::Whole, false, 1)?)?;
    all.push(property(alloc, "place", ValueKind::Point, false, 1)?)?;
    Ok(all)
}

// Marks with a label of at most three characters, a size and a place; and fields without a property.
fn schema(alloc: Global) -> Mem<Schema> {
    let mut types = Vec::new(alloc);
    types.push(feature_type(alloc, "Mark", mark_properties(alloc)?)?)?;
    types.push(feature_type(alloc, "Field", Vec::new(alloc))?)?;
    schema_of(alloc, types)
}

// A schema of one type with this property.
fn schema_of_one(alloc: Global, property: Property) -> Mem<Schema> {
    let mut properties = Vec::new(alloc);
    properties.push(property)?;
    let mut types = Vec::new(alloc);
    types.push(feature_type(alloc, "One", properties)?)?;
    schema_of(alloc, types)
}

// A feature of one value.
fn feature_of_one(alloc: Global, value: Value) -> Mem<Feature> {
    let mut values = Vec::new(alloc);
    values.push(value)?;
    Feature::of(alloc, Rid { kind: 0, number: 1 }, values)
}

// What is wrong with a feature of one value.
fn fault_of_one(alloc: Global, schema: &Schema, value: Value) -> Mem<Option<ValueFault>> {
    let feature = feature_of_one(alloc, value)?;
    Ok(fits(schema, &feature).err())
}
