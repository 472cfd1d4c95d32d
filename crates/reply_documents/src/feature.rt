//! A feature as an element.

ghost use Rattle.std.specs.Prelude.{◌≡◌};
ghost use Rattle.std.specs.List.{flat_map, zip};
ghost use Rattle.std.specs.Option.{option_copied};
ghost use Rattle.wfs_ends.specs.Ends.{Writes};
ghost use Rattle.reply_documents.specs.Features.{rid_text, property_text, properties_text, has_value, filled_text, inside_text, feature_text, bare_text, bare_body, type_of};

use crate::answer::put_number;
use crate::names::put_end_tag;
use crate::value::{is_null, put_property};
use doc_tree::{put_escaped, put_plain};
use feature_values::{Feature, FeatureType, Property, Schema, Value};
use wfs_ends::{Sink, put_on};

// The type of a schema with this number.
pub(crate) fn find_type(schema: &Schema, number: u32) -> Option<&FeatureType>
    ensures { option_copied result ≡ type_of schema.now number }
{
    schema.types.items().get(number as usize)
}

// Gives the identifier of a feature of this type.
pub(crate) fn put_rid<S: Sink>(
    sink: &mut S,
    failed: bool,
    of_type: &FeatureType,
    number: u64,
) -> bool
    ensures { Writes (record { shown = S.sink sink.old; failed = failed })
        (rid_text of_type.now number) (record { shown = S.sink sink.new; failed = result }) }
{
    let failed = put_escaped(sink, failed, &of_type.name, true);
    let failed = put_on(sink, failed, b".");
    put_number(sink, failed, number)
}

// Gives each of some properties with its value, up to the end of the shorter list.
fn put_pairs<S: Sink>(
    sink: &mut S,
    failed: bool,
    schema: &Schema,
    of_type: &FeatureType,
    number: u64,
    properties: &[Property],
    values: &[Value],
) -> bool
    ensures { Writes (record { shown = S.sink sink.old; failed = failed })
        (flat_map (property_text schema.now of_type.now number) (zip properties.now values.now))
        (record { shown = S.sink sink.new; failed = result }) }
{
    let mut failed = failed;
    let count = properties.len().min(values.len());
    for i in 0..count {
        failed = put_property(
            sink,
            failed,
            schema,
            of_type,
            number,
            &properties[i],
            &values[i],
        );
    }
    failed
}

fn put_properties<S: Sink>(
    sink: &mut S,
    failed: bool,
    schema: &Schema,
    of_type: &FeatureType,
    feature: &Feature,
) -> bool
    ensures { Writes (record { shown = S.sink sink.old; failed = failed })
        (properties_text schema.now of_type.now feature.now.id.number feature.now.values)
        (record { shown = S.sink sink.new; failed = result }) }
{
    put_pairs(
        sink,
        failed,
        schema,
        of_type,
        feature.id.number,
        of_type.properties.items(),
        feature.items(),
    )
}

// Whether a property has a value that is not null.
fn has_value(properties: &[Property], values: &[Value]) -> bool
    ensures { result ≡ has_value properties.now values.now }
{
    let count = properties.len().min(values.len());
    values[..count].iter().any(|value| !is_null(value))
}

fn put_filled<S: Sink>(
    sink: &mut S,
    failed: bool,
    schema: &Schema,
    of_type: &FeatureType,
    feature: &Feature,
) -> bool
    ensures { Writes (record { shown = S.sink sink.old; failed = failed })
        (filled_text schema.now of_type.now feature.now.id.number feature.now.values)
        (record { shown = S.sink sink.new; failed = result }) }
{
    let failed = put_on(sink, failed, b">");
    let failed = put_properties(sink, failed, schema, of_type, feature);
    put_end_tag(sink, failed, &schema.prefix, &of_type.name)
}

// Gives what follows the attribute of a feature's element.
#[tactic(auto, unfolding(crate::specs::Features::inside_text))]
fn put_inside<S: Sink>(
    sink: &mut S,
    failed: bool,
    schema: &Schema,
    of_type: &FeatureType,
    feature: &Feature,
) -> bool
    ensures { Writes (record { shown = S.sink sink.old; failed = failed })
        (inside_text schema.now of_type.now feature.now.id.number feature.now.values)
        (record { shown = S.sink sink.new; failed = result }) }
{
    if has_value(of_type.properties.items(), feature.items()) {
        put_filled(sink, failed, schema, of_type, feature)
    } else {
        put_on(sink, failed, b"/>")
    }
}

// Gives a feature of this type.
pub(crate) fn put_feature<S: Sink>(
    sink: &mut S,
    failed: bool,
    schema: &Schema,
    of_type: &FeatureType,
    feature: &Feature,
) -> bool
    ensures { Writes (record { shown = S.sink sink.old; failed = failed })
        (feature_text schema.now of_type.now feature.now)
        (record { shown = S.sink sink.new; failed = result }) }
{
    let failed = put_on(sink, failed, b"<");
    let failed = put_plain(sink, failed, &schema.prefix);
    let failed = put_on(sink, failed, b":");
    let failed = put_plain(sink, failed, &of_type.name);
    let failed = put_on(sink, failed, b" gml:id=\"");
    let failed = put_rid(sink, failed, of_type, feature.id.number);
    let failed = put_on(sink, failed, b"\"");
    put_inside(sink, failed, schema, of_type, feature)
}

// Gives the document of a feature of this type by itself.
fn put_typed_bare<S: Sink>(
    sink: &mut S,
    failed: bool,
    schema: &Schema,
    of_type: &FeatureType,
    feature: &Feature,
) -> bool
    ensures { Writes (record { shown = S.sink sink.old; failed = failed })
        (bare_text schema.now of_type.now feature.now)
        (record { shown = S.sink sink.new; failed = result }) }
{
    let failed = put_on(sink, failed, b"<?xml version=\"1.0\" encoding=\"UTF-8\"?><");
    let failed = put_plain(sink, failed, &schema.prefix);
    let failed = put_on(sink, failed, b":");
    let failed = put_plain(sink, failed, &of_type.name);
    let failed = put_on(
        sink,
        failed,
        b" xmlns:gml=\"http://www.opengis.net/gml/3.2\" xmlns:",
    );
    let failed = put_plain(sink, failed, &schema.prefix);
    let failed = put_on(sink, failed, b"=\"");
    let failed = put_escaped(sink, failed, &schema.space, true);
    let failed = put_on(sink, failed, b"\" gml:id=\"");
    let failed = put_rid(sink, failed, of_type, feature.id.number);
    let failed = put_on(sink, failed, b"\"");
    put_inside(sink, failed, schema, of_type, feature)
}

// Gives the document of a feature by itself, where its type is in the schema.
#[tactic(auto, unfolding(crate::specs::Features::bare_body))]
pub(crate) fn put_bare<S: Sink>(
    sink: &mut S,
    failed: bool,
    schema: &Schema,
    feature: &Feature,
) -> bool
    ensures { Writes (record { shown = S.sink sink.old; failed = failed })
        (bare_body schema.now feature.now) (record { shown = S.sink sink.new; failed = result }) }
{
    match find_type(schema, feature.id.kind) {
        None => put_on(sink, failed, b""),
        Some(of_type) => put_typed_bare(sink, failed, schema, of_type, feature),
    }
}
