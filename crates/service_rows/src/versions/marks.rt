//! Two types of features with a label and two places, and changes of them.

ghost use Rattle.std.specs.Prelude.{◌≡◌, [], All, IfOk};
ghost use Rattle.wfs_model.specs.Playable.{AreQueriesOf};
ghost use Rattle.feature_values.specs.declared.schema.Schema.{Schema as TheSchema};

use super::{Done, Lay, Row};
use crate::samples::{property, schema_of, texts};
use feature_values::{Feature, FeatureType, Rid, Schema, Value, ValueKind};
use geom_core::{Box2, Geometry, Pos};
use std::alloc::Global;
use wfs_ends::{List, Mem, OutOfMemory, Text};
use wfs_model::{Change, Part, StoredQuery};

fn marks(alloc: Global, name: &str) -> Mem<FeatureType> {
    let mut properties = Vec::new(alloc);
    properties.push(property(alloc, "label", ValueKind::Words, 10)?)?;
    properties.push(property(alloc, "first", ValueKind::Point, 10)?)?;
    properties.push(property(alloc, "second", ValueKind::Point, 10)?)?;
    Ok(FeatureType {
        name: Text::of(alloc, name)?,
        properties: List::of(properties),
    })
}

/// Types 0 and 1: a label of at most 10 characters, and two points.
pub fn schema(alloc: Global) -> Mem<Schema> {
    let mut types = Vec::new(alloc);
    types.push(marks(alloc, "Mark")?)?;
    types.push(marks(alloc, "Sign")?)?;
    schema_of(alloc, List::of(Vec::new(alloc)), List::of(types))
}

/// A position; one that cannot be made, as if there were no memory.
fn position(x: i64, y: i64) -> Mem<Pos> {
    match Pos::new(x, y) {
        Ok(at) => Ok(at),
        Err(_) => Err(OutOfMemory),
    }
}

/// The box between these corners.
pub fn area(corners: &[i64; 4]) -> Mem<Box2> {
    let low = position(corners[0], corners[1])?;
    let high = position(corners[2], corners[3])?;
    match Box2::new(low, high) {
        Ok(area) => Ok(area),
        Err(_) => Err(OutOfMemory),
    }
}

fn point(at: Option<(i64, i64)>) -> Mem<Value> {
    match at {
        None => Ok(Value::Null),
        Some((x, y)) => Ok(Value::Shape(Geometry::At(position(x, y)?))),
    }
}

fn feature(alloc: Global, row: &Row) -> Mem<Feature> {
    let (kind, number, label, first, second) = *row;
    let mut values = Vec::new(alloc);
    values.push(Value::Words(Text::of(alloc, label)?))?;
    values.push(point(first)?)?;
    values.push(point(second)?)?;
    Feature::of(alloc, Rid { kind, number }, values)
}

fn part(alloc: Global, lay: &Lay) -> Mem<Part> {
    match lay {
        Lay::Mark(number) => {
            let row = (0, *number, "A", Some((0, 0)), None);
            Ok(Part::Put(feature(alloc, &row)?))
        }
        Lay::Other(row) => Ok(Part::Put(feature(alloc, row)?)),
        Lay::Gone(kind, number) => Ok(Part::Remove(Rid {
            kind: *kind,
            number: *number,
        })),
    }
}

fn parts(alloc: Global, all: &[Lay]) -> Mem<List<Part>> {
    let mut parts = Vec::new(alloc);
    for one in all {
        parts.push(part(alloc, one)?)?;
    }
    Ok(List::of(parts))
}

// A stored query that asks nothing.
fn query(alloc: Global, id: &str, parameters: &[&str]) -> Mem<StoredQuery>
    ensures { IfOk result (λ query. query.queries ≡ []) }
{
    Ok(StoredQuery {
        id: Text::of(alloc, id)?,
        title: Text::of(alloc, "")?,
        parameters: texts(alloc, parameters)?,
        queries: List::of(Vec::new(alloc)),
        text: Text::of(alloc, "")?,
    })
}

fn queries(alloc: Global, all: &[(&str, &[&str])]) -> Mem<List<StoredQuery>>
    ensures { IfOk result (λ all. All (λ query. query.queries ≡ []) all) }
{
    let mut queries = Vec::new(alloc);
    for (id, parameters) in all {
        queries.push(query(alloc, id, parameters)?)?;
    }
    Ok(List::of(queries))
}

/// A change. Its stored queries ask nothing, so every schema allows what they ask.
pub fn change(alloc: Global, done: &Done) -> Mem<Change>
    ensures { IfOk result (λ change. (schema : TheSchema) → AreQueriesOf schema change) }
{
    match done {
        Done::Opens(opening) => Ok(Change::Opening(*opening)),
        Done::Lays(all) => Ok(Change::Rows(parts(alloc, all)?)),
        Done::Makes(all) => Ok(Change::Created(queries(alloc, all)?)),
        Done::Drops(id) => Ok(Change::Dropped(Text::of(alloc, id)?)),
        Done::Begins(opening, counters) => Ok(Change::Base {
            opening: *opening,
            counters: List::of(Vec::from_slice(alloc, counters)?),
        }),
    }
}
