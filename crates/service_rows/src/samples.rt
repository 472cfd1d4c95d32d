//! What the rows of several crates need: texts, a property, a schema of any types, and whether something has just these numbers.

ghost use Rattle.std.specs.Prelude.{◌≡◌, IfOk};

use feature_values::{Feature, FeatureType, Property, Rid, Schema, ValueKind};
use std::alloc::Global;
use wfs_ends::{List, Mem, Text};
use wfs_model::Made;

/// The handle of each action.
pub const HANDLE: &str = "h";

/// A list of these texts.
pub fn texts(alloc: Global, all: &[&str]) -> Mem<List<Text>> {
    let mut found = Vec::new(alloc);
    for text in all {
        found.push(Text::of(alloc, *text)?)?;
    }
    Ok(List::of(found))
}

/// A property that a feature may lack.
pub fn property(alloc: Global, name: &str, kind: ValueKind, max: u32) -> Mem<Property> {
    Ok(Property {
        name: Text::of(alloc, name)?,
        kind,
        required: false,
        max,
    })
}

/// A schema of these types.
pub fn schema_of(alloc: Global, srs: List<Text>, types: List<FeatureType>) -> Mem<Schema>
    ensures { IfOk result (λ schema. schema.types ≡ types) }
{
    Ok(Schema {
        title: Text::of(alloc, "Marks")?,
        address: Text::of(alloc, "http://localhost:8080/wfs")?,
        space: Text::of(alloc, "http://example.org/marks")?,
        prefix: Text::of(alloc, "m")?,
        srs,
        types,
    })
}

/// Whether identifiers have just these numbers, in this order.
pub fn are(ids: &[Rid], numbers: &[u64]) -> bool {
    if ids.len() != numbers.len() {
        return false;
    }
    for (id, number) in ids.iter().zip(numbers) {
        if id.number != *number {
            return false;
        }
    }
    true
}

fn is_handle(handle: &Option<Text>) -> bool {
    match handle {
        None => false,
        Some(handle) => handle.as_str() == HANDLE,
    }
}

/// Whether what was made has just these numbers, in this order, and the handle of its action.
pub fn are_made(made: &[Made], numbers: &[u64]) -> bool {
    if made.len() != numbers.len() {
        return false;
    }
    for (one, number) in made.iter().zip(numbers) {
        if one.id.number != *number || !is_handle(&one.handle) {
            return false;
        }
    }
    true
}

/// Whether features have just these numbers, in this order.
pub fn are_given(features: &[Feature], numbers: &[u64]) -> bool {
    if features.len() != numbers.len() {
        return false;
    }
    for (feature, number) in features.iter().zip(numbers) {
        if feature.id.number != *number {
            return false;
        }
    }
    true
}
