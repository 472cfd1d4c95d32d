//! What the bodies of the tests say.

use feature_values::{Feature, Rid, Value};
use geom_core::{Geometry, Line, Polygon, Pos, Ring};
use journal_format::{RecordFault, Recorded};
use std::alloc::Global;
use wfs_ends::{List, Mem, Shared, Text};
use wfs_model::{Change, Part, StoredQuery};

const SIGNATURE: &str =
    "Mark(label:text,size:integer,place:point);Field(name:text,area:polygon);Way(course:line);";

/// A value.
#[derive(Clone, Copy)]
enum Sketch {
    Null,
    Words(&'static str),
    Whole(i64),
    Truth(bool),
    Point,
    Line,
    Polygon,
}

static LINE: [(i64, i64); 2] = [(0, 0), (-1_000_000_000, 1_000_000_000)];

static SHELL: [(i64, i64); 4] = [(0, 0), (9, 0), (0, 9), (0, 0)];

static HOLE: [(i64, i64); 4] = [(1, 1), (2, 1), (1, 2), (1, 1)];

/// The positions at these coordinates, but for those that are none.
fn positions(alloc: Global, at: &[(i64, i64)]) -> Mem<Vec<Pos>> {
    let mut all = Vec::new(alloc);
    for pair in at {
        let (x, y) = *pair;
        if let Ok(position) = Pos::new(x, y) {
            all.push(position)?;
        }
    }
    Ok(all)
}

/// The line, or null where it is none.
fn line(alloc: Global) -> Mem<Value> {
    Ok(match Line::new(positions(alloc, &LINE)?) {
        Ok(line) => Value::Shape(Geometry::Along(Shared::new(alloc, line)?)),
        Err(_) => Value::Null,
    })
}

/// The hole alone, or nothing where it is none.
fn holes(alloc: Global) -> Mem<Vec<Ring>> {
    let mut holes = Vec::new(alloc);
    if let Ok(hole) = Ring::new(positions(alloc, &HOLE)?) {
        holes.push(hole)?;
    }
    Ok(holes)
}

/// The polygon, or null where it is none.
fn polygon(alloc: Global) -> Mem<Value> {
    let Ok(shell) = Ring::new(positions(alloc, &SHELL)?) else {
        return Ok(Value::Null);
    };
    Ok(match Polygon::new(shell, holes(alloc)?) {
        Ok(area) => Value::Shape(Geometry::Over(Shared::new(alloc, area)?)),
        Err(_) => Value::Null,
    })
}

fn value(alloc: Global, sketch: Sketch) -> Mem<Value> {
    match sketch {
        Sketch::Null => Ok(Value::Null),
        Sketch::Words(text) => Ok(Value::Words(Text::of(alloc, text)?)),
        Sketch::Whole(number) => Ok(Value::Whole(number)),
        Sketch::Truth(truth) => Ok(Value::Truth(truth)),
        Sketch::Point => Ok(Value::Shape(Geometry::At(Pos { x: 1, y: -1 }))),
        Sketch::Line => line(alloc),
        Sketch::Polygon => polygon(alloc),
    }
}

static MARK: [Sketch; 3] = [Sketch::Words("A"), Sketch::Null, Sketch::Null];

static EACH: [Sketch; 9] = [
    Sketch::Null,
    Sketch::Words("é"),
    Sketch::Whole(258),
    Sketch::Whole(-2),
    Sketch::Truth(true),
    Sketch::Truth(false),
    Sketch::Point,
    Sketch::Line,
    Sketch::Polygon,
];

fn put(alloc: Global, kind: u32, number: u64, sketches: &[Sketch]) -> Mem<Part> {
    let mut values = Vec::new(alloc);
    for sketch in sketches {
        values.push(value(alloc, *sketch)?)?;
    }
    Ok(Part::Put(Feature::of(alloc, Rid { kind, number }, values)?))
}

fn inserted(alloc: Global) -> Mem<Change> {
    let mut parts = Vec::new(alloc);
    parts.push(put(alloc, 0, 1, &MARK)?)?;
    Ok(Change::Rows(List::of(parts)))
}

fn rows(alloc: Global) -> Mem<Change> {
    let mut parts = Vec::new(alloc);
    parts.push(put(alloc, 1, 7, &EACH)?)?;
    parts.push(Part::Remove(Rid {
        kind: 0,
        number: 256,
    }))?;
    Ok(Change::Rows(List::of(parts)))
}

fn parameters(alloc: Global) -> Mem<List<Text>> {
    let mut names = Vec::new(alloc);
    names.push(Text::of(alloc, "a")?)?;
    names.push(Text::of(alloc, "bc")?)?;
    Ok(List::of(names))
}

fn created(alloc: Global) -> Mem<Change> {
    let query = StoredQuery {
        id: Text::of(alloc, "q")?,
        title: Text::of(alloc, "")?,
        parameters: parameters(alloc)?,
        queries: List::of(Vec::new(alloc)),
        text: Text::of(alloc, "<x/>")?,
    };
    let mut all = Vec::new(alloc);
    all.push(query)?;
    Ok(Change::Created(List::of(all)))
}

fn base(alloc: Global) -> Mem<Change> {
    let mut counters = Vec::new(alloc);
    counters.push(7)?;
    counters.push(1_000_000_000_000)?;
    Ok(Change::Base {
        opening: 3,
        counters: List::of(counters),
    })
}

fn change(alloc: Global, place: usize) -> Mem<Change> {
    match place {
        0 => Ok(Change::Opening(1)),
        1 => inserted(alloc),
        2 => rows(alloc),
        3 => created(alloc),
        4 => Ok(Change::Dropped(Text::of(alloc, "q")?)),
        _ => base(alloc),
    }
}

/// What the body at this place says.
pub fn said(alloc: Global, place: usize) -> Result<Recorded, RecordFault> {
    let signature = if place == 0 {
        Some(Text::of(alloc, SIGNATURE)?)
    } else {
        None
    };
    Ok(Recorded {
        change: change(alloc, place)?,
        signature,
    })
}
