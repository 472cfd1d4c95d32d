//! Filters for marks, each of one operator. What is expected comes from OGC 09-026r2, and where that leaves a choice from
//! what the public functions say.

use feature_values::{Rid, Value};
use fes_filter::{By, Expr, Filter, IdRef, LikePart};
use geom_core::{Box2, Geometry, Pos};
use std::alloc::Global;
use wfs_ends::{Boxed, List, Mem, Text};

mod checks;
mod copies;

// The properties of a mark: a text, a whole number, a truth value, a number, a text, a field, a way and a point; and one
// that it has not.
const LABEL: u32 = 0;

const SIZE: u32 = 1;

const FLAG: u32 = 2;

const DEPTH: u32 = 3;

const NOTE: u32 = 4;

const FIELD: u32 = 5;

const WAY: u32 = 6;

const SPOT: u32 = 7;

const OTHER: u32 = 8;

type Place = (i64, i64);

/// A side of a comparison, or a bound.
#[derive(Clone, Copy)]
enum Side {
    At(u32),
    Words(&'static str),
    Whole(i64),
    Truth(bool),
    Null,
    Open,
}

/// A filter of one operator.
#[derive(Clone, Copy)]
enum Sketch {
    Compare(By, Side, Side, bool),
    /// Like any text.
    Like(u32),
    IsNull(u32),
    Between(u32, Side, Side),
    /// One of nobody and this identifier.
    Id(u32, u64),
    InBox(Option<u32>, Place, Place),
    Meets(u32, Place),
    Apart(u32, Place),
}

fn expr(alloc: Global, side: Side) -> Mem<Expr> {
    Ok(match side {
        Side::At(property) => Expr::Property(property),
        Side::Words(text) => Expr::Literal(Value::Words(Text::of(alloc, text)?)),
        Side::Whole(number) => Expr::Literal(Value::Whole(number)),
        Side::Truth(truth) => Expr::Literal(Value::Truth(truth)),
        Side::Null => Expr::Literal(Value::Null),
        Side::Open => Expr::Parameter(0),
    })
}

fn compare(alloc: Global, by: By, left: Side, right: Side, fold: bool) -> Mem<Filter> {
    let left = expr(alloc, left)?;
    let right = expr(alloc, right)?;
    Ok(Filter::Compare {
        by,
        left,
        right,
        fold,
    })
}

fn between(alloc: Global, property: u32, low: Side, high: Side) -> Mem<Filter> {
    let low = expr(alloc, low)?;
    let high = expr(alloc, high)?;
    Ok(Filter::Between {
        property,
        low,
        high,
    })
}

// Like any text.
fn like(alloc: Global, property: u32) -> Mem<Filter> {
    let mut pattern = Vec::new(alloc);
    pattern.push(LikePart::Many)?;
    Ok(Filter::Like {
        property,
        pattern: List::of(pattern),
    })
}

fn ids(alloc: Global, id: IdRef) -> Mem<Filter> {
    let mut all = Vec::new(alloc);
    all.push(IdRef::Nobody)?;
    all.push(id)?;
    Ok(Filter::Ids(List::of(all)))
}

// The position at these coordinates, or the origin where there is none.
fn at(place: Place) -> Pos {
    Pos::new(place.0, place.1).unwrap_or(Pos { x: 0, y: 0 })
}

fn filter(alloc: Global, sketch: Sketch) -> Mem<Filter> {
    match sketch {
        Sketch::Compare(by, left, right, fold) => compare(alloc, by, left, right, fold),
        Sketch::Like(property) => like(alloc, property),
        Sketch::IsNull(property) => Ok(Filter::IsNull(property)),
        Sketch::Between(property, low, high) => between(alloc, property, low, high),
        Sketch::Id(kind, number) => ids(alloc, IdRef::Known(Rid { kind, number })),
        Sketch::InBox(property, low, high) => Ok(Filter::InBox {
            property,
            area: Box2::between(at(low), at(high)),
        }),
        Sketch::Meets(property, place) => Ok(Filter::Meets {
            property,
            shape: Geometry::At(at(place)),
        }),
        Sketch::Apart(property, place) => Ok(Filter::Apart {
            property,
            shape: Geometry::At(at(place)),
        }),
    }
}

fn negated(alloc: Global, part: Filter) -> Mem<Filter> {
    Ok(Filter::Not(Boxed::new(alloc, part)?))
}
