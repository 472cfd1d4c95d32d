//! Identifiers and names.

use crate::values::schema;
use feature_values::{FeatureType, Schema, read_rid, without_prefix};
use std::alloc::Global;
use wfs_ends::Mem;

static IDS: [(&str, Option<(u32, u64)>); 20] = [
    ("Mark.1", Some((0, 1))),
    ("Field.20", Some((1, 20))),
    (
        "Mark.18446744073709551615",
        Some((0, 18_446_744_073_709_551_615)),
    ),
    ("Mark.18446744073709551616", None),
    ("Mark.0", None),
    ("Mark.00", None),
    ("Mark.01", None),
    ("Mark.\u{661}", None),
    ("Mark.+1", None),
    ("Mark.-1", None),
    ("Mark. 1", None),
    ("Mark.1 ", None),
    ("Mark.", None),
    ("Mark", None),
    ("Mark.1.2", None),
    ("mark.1", None),
    ("m:Mark.1", None),
    ("Marks.1", None),
    (".1", None),
    ("", None),
];

fn is_id(schema: &Schema, text: &str, id: Option<(u32, u64)>) -> bool {
    match (read_rid(schema, text), id) {
        (Some(read), Some(wanted)) => read.kind == wanted.0 && read.number == wanted.1,
        (None, None) => true,
        _ => false,
    }
}

// The first text of `IDS` that is read as something else.
fn misread_id(alloc: Global) -> Mem<Option<&'static str>> {
    let schema = schema(alloc)?;
    for row in IDS.iter() {
        let (text, id) = *row;
        if !is_id(&schema, text, id) {
            return Ok(Some(text));
        }
    }
    Ok(None)
}

#[test]
fn reads_identifiers(rt: HostRuntime) {
    assert_eq!(rt; misread_id(rt.alloc()), Ok(None));
}

static NAMES: [(&str, &str); 5] = [
    ("m:Mark", "Mark"),
    ("Mark", "Mark"),
    (":Mark", "Mark"),
    ("a:b:c", "b:c"),
    ("m:", ""),
];

// The first name of `NAMES` that has another local name.
fn misread_name() -> Option<&'static str> {
    for row in NAMES.iter() {
        let (name, local) = *row;
        if without_prefix(name) != local {
            return Some(name);
        }
    }
    None
}

#[test]
fn takes_prefixes_off(rt: HostRuntime) {
    assert_eq!(rt; misread_name(), None);
}

// Whether a mark's properties are found by their names.
fn are_properties_found(of_type: &FeatureType) -> bool {
    of_type.property_named("Size") == Some(1) && of_type.property_named("place") == Some(2)
}

// Whether a property is found by its name alone, in the case in which it is written (XML names differ by case).
fn are_properties_named(of_type: &FeatureType) -> bool {
    of_type.property_named("Mark").is_none()
        && of_type.property_named("Place").is_none()
        && of_type.property_named("size").is_none()
        && (of_type.properties.items().is_empty() || are_properties_found(of_type))
}

fn are_names_found(alloc: Global) -> Mem<bool> {
    let schema = schema(alloc)?;
    for of_type in schema.types.items() {
        if !are_properties_named(of_type) {
            return Ok(false);
        }
    }
    Ok(schema.type_named("Field") == Some(1))
}

#[test]
fn finds_names(rt: HostRuntime) {
    assert_eq!(rt; are_names_found(rt.alloc()), Ok(true));
}
