//! Schemas from their parts.

use feature_values::{FeatureType, Property, Schema, ValueKind};
use std::alloc::Global;
use wfs_ends::{List, Mem, Text};

/// A property: its name, its kind, and whether it is required.
pub(crate) type Named = (&'static str, ValueKind, bool);

fn texts(alloc: Global, all: &[&str]) -> Mem<List<Text>> {
    let mut found = Vec::new(alloc);
    for text in all {
        found.push(Text::of(alloc, text)?)?;
    }
    Ok(List::of(found))
}

/// A type of these properties.
pub(crate) fn feature_type(alloc: Global, name: &str, properties: &[Named]) -> Mem<FeatureType> {
    let mut found = Vec::new(alloc);
    for (name, kind, required) in properties {
        found.push(Property {
            name: Text::of(alloc, name)?,
            kind: *kind,
            required: *required,
            max: 4_096,
        })?;
    }
    Ok(FeatureType {
        name: Text::of(alloc, name)?,
        properties: List::of(found),
    })
}

/// A schema of these types.
pub(crate) fn schema(alloc: Global, types: Vec<FeatureType>) -> Mem<Schema> {
    Ok(Schema {
        title: Text::of(alloc, "Marks")?,
        address: Text::of(alloc, "http://localhost:8080/wfs")?,
        space: Text::of(alloc, "http://example.org/marks")?,
        prefix: Text::of(alloc, "m")?,
        srs: texts(alloc, &["urn:ogc:def:crs:EPSG::25832", "EPSG:25832"])?,
        types: List::of(types),
    })
}
