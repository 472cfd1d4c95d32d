//! A property with its value as an element.

ghost use Rattle.std.specs.Prelude.{◌≡◌, Bool};
ghost use Rattle.std.specs.Fmt.{signed_decimal};
ghost use Rattle.wfs_ends.specs.Ends.{Writes};
ghost use Rattle.doc_tree.specs.Escape.{escaped};
ghost use Rattle.feature_values.specs.Fits.{is_null};
ghost use Rattle.gml_docs.specs.Printed.{id_text, geometry_text};
ghost use Rattle.reply_documents.specs.Features.{first_name, truth_text, value_text, is_blank, valued_text, property_text};

use crate::names::{put_empty_tag, put_end_tag, put_start_tag};
use doc_tree::put_escaped;
use feature_values::{FeatureType, Property, Schema, Value};
use geom_core::Geometry;
use gml_docs::{GeometryId, put_geometry};
use itoa::Buffer;
use wfs_ends::{List, Sink, Text, put_on};

// The reference system that is written: the first.
fn first_name(names: &List<Text>) -> &str
    ensures { result.now ≡ first_name names.now }
{
    match names.items() {
        [] => "",
        [name, ..] => name.as_str(),
    }
}

pub(crate) fn is_null(value: &Value) -> bool
    ensures { result ≡ is_null value.now }
{
    match value {
        Value::Null => true,
        _ => false,
    }
}

// Whether a value is a text without characters.
fn is_blank(value: &Value) -> bool
    ensures { result ≡ is_blank value.now }
{
    match value {
        Value::Words(text) => text.as_str().is_empty(),
        _ => false,
    }
}

fn put_words<S: Sink>(sink: &mut S, failed: bool, text: &Text) -> bool
    ensures { Writes (record { shown = S.sink sink.old; failed = failed })
        (escaped Bool.false text.now) (record { shown = S.sink sink.new; failed = result }) }
{
    put_escaped(sink, failed, text, false)
}

fn put_whole<S: Sink>(sink: &mut S, failed: bool, whole: i64) -> bool
    ensures { Writes (record { shown = S.sink sink.old; failed = failed }) (signed_decimal whole)
        (record { shown = S.sink sink.new; failed = result }) }
{
    let mut buffer = Buffer::new();
    put_on(sink, failed, buffer.format(whole).as_bytes())
}

pub(crate) fn put_truth<S: Sink>(sink: &mut S, failed: bool, truth: bool) -> bool
    ensures { Writes (record { shown = S.sink sink.old; failed = failed }) (truth_text truth)
        (record { shown = S.sink sink.new; failed = result }) }
{
    if truth {
        put_on(sink, failed, b"true")
    } else {
        put_on(sink, failed, b"false")
    }
}

fn put_shape<S: Sink>(
    sink: &mut S,
    failed: bool,
    schema: &Schema,
    of_type: &FeatureType,
    number: u64,
    property: &Property,
    shape: &Geometry,
) -> bool
    ensures { Writes (record { shown = S.sink sink.old; failed = failed })
        (geometry_text shape.now (id_text of_type.now.name number property.now.name)
        (first_name schema.now.srs)) (record { shown = S.sink sink.new; failed = result }) }
{
    let id = GeometryId {
        kind: of_type.name.as_str(),
        number,
        property: property.name.as_str(),
    };
    put_geometry(sink, failed, shape, &id, first_name(&schema.srs))
}

// Gives a value of a property, of the feature with this number.
#[tactic(auto, unfolding(crate::specs::Features::value_text))]
fn put_value<S: Sink>(
    sink: &mut S,
    failed: bool,
    schema: &Schema,
    of_type: &FeatureType,
    number: u64,
    property: &Property,
    value: &Value,
) -> bool
    ensures { Writes (record { shown = S.sink sink.old; failed = failed })
        (value_text schema.now of_type.now number property.now value.now)
        (record { shown = S.sink sink.new; failed = result }) }
{
    match value {
        Value::Null => put_on(sink, failed, b""),
        Value::Words(text) => put_words(sink, failed, text),
        Value::Whole(whole) => put_whole(sink, failed, *whole),
        Value::Truth(truth) => put_truth(sink, failed, *truth),
        Value::Shape(shape) => put_shape(sink, failed, schema, of_type, number, property, shape),
    }
}

fn put_valued<S: Sink>(
    sink: &mut S,
    failed: bool,
    schema: &Schema,
    of_type: &FeatureType,
    number: u64,
    property: &Property,
    value: &Value,
) -> bool
    ensures { Writes (record { shown = S.sink sink.old; failed = failed })
        (valued_text schema.now of_type.now number property.now value.now)
        (record { shown = S.sink sink.new; failed = result }) }
{
    let failed = put_start_tag(sink, failed, &schema.prefix, &property.name);
    let failed = put_value(sink, failed, schema, of_type, number, property, value);
    put_end_tag(sink, failed, &schema.prefix, &property.name)
}

// Gives a property with its value, of the feature with this number; nothing for null.
#[tactic(auto, unfolding(crate::specs::Features::property_text))]
pub(crate) fn put_property<S: Sink>(
    sink: &mut S,
    failed: bool,
    schema: &Schema,
    of_type: &FeatureType,
    number: u64,
    property: &Property,
    value: &Value,
) -> bool
    ensures { Writes (record { shown = S.sink sink.old; failed = failed })
        (property_text schema.now of_type.now number (property.now, value.now))
        (record { shown = S.sink sink.new; failed = result }) }
{
    if is_null(value) {
        put_on(sink, failed, b"")
    } else if is_blank(value) {
        put_empty_tag(sink, failed, &schema.prefix, &property.name)
    } else {
        put_valued(sink, failed, schema, of_type, number, property, value)
    }
}
