//! The body of an answer with values of a property.

ghost use Rattle.std.specs.Prelude.{◌≡◌};
ghost use Rattle.std.specs.List.{flat_map};
ghost use Rattle.wfs_ends.specs.Ends.{Writes};
ghost use Rattle.reply_documents.specs.Collection.{valued_member_text, typed_value_text, value_member_text, some_values_text, values_text, values_body};

use crate::collection::{count, put_counted, put_declared, put_link};
use crate::feature::find_type;
use crate::value::put_property;
use feature_values::{Feature, FeatureType, Property, Schema, Value};
use wfs_ends::{List, Sink, Text, put_on};

// Gives a property with its value as a member.
fn put_valued_member<S: Sink>(
    sink: &mut S,
    failed: bool,
    schema: &Schema,
    of_type: &FeatureType,
    number: u64,
    property: &Property,
    value: &Value,
) -> bool
    ensures { Writes (record { shown = S.sink sink.old; failed = failed })
        (valued_member_text schema.now of_type.now number property.now value.now)
        (record { shown = S.sink sink.new; failed = result }) }
{
    let failed = put_on(sink, failed, b"<wfs:member>");
    let failed = put_property(sink, failed, schema, of_type, number, property, value);
    put_on(sink, failed, b"</wfs:member>")
}

// Gives a feature's value of a property as a member, where its type has the property and it has a value of it.
#[tactic(auto, unfolding(crate::specs::Collection::typed_value_text))]
fn put_typed_value<S: Sink>(
    sink: &mut S,
    failed: bool,
    schema: &Schema,
    of_type: &FeatureType,
    property: u32,
    feature: &Feature,
) -> bool
    ensures { Writes (record { shown = S.sink sink.old; failed = failed })
        (typed_value_text schema.now of_type.now property feature.now)
        (record { shown = S.sink sink.new; failed = result }) }
{
    match of_type.properties.items().get(property as usize) {
        None => put_on(sink, failed, b""),
        Some(found) => match feature.items().get(property as usize) {
            None => put_on(sink, failed, b""),
            Some(value) => {
                put_valued_member(
                    sink,
                    failed,
                    schema,
                    of_type,
                    feature.id.number,
                    found,
                    value,
                )
            }
        },
    }
}

// Gives a feature's value of a property as a member, where its type is in the schema.
#[tactic(auto, unfolding(crate::specs::Collection::value_member_text))]
fn put_value_member<S: Sink>(
    sink: &mut S,
    failed: bool,
    schema: &Schema,
    property: u32,
    feature: &Feature,
) -> bool
    ensures { Writes (record { shown = S.sink sink.old; failed = failed })
        (value_member_text schema.now property feature.now)
        (record { shown = S.sink sink.new; failed = result }) }
{
    match find_type(schema, feature.id.kind) {
        None => put_on(sink, failed, b""),
        Some(of_type) => put_typed_value(sink, failed, schema, of_type, property, feature),
    }
}

fn put_each_value<S: Sink>(
    sink: &mut S,
    failed: bool,
    schema: &Schema,
    property: u32,
    features: &List<Feature>,
) -> bool
    ensures { Writes (record { shown = S.sink sink.old; failed = failed })
        (flat_map (value_member_text schema.now property) features.now)
        (record { shown = S.sink sink.new; failed = result }) }
{
    let mut failed = put_on(sink, failed, b"");
    for feature in features.items() {
        failed = put_value_member(sink, failed, schema, property, feature);
    }
    failed
}

fn put_some_values<S: Sink>(
    sink: &mut S,
    failed: bool,
    schema: &Schema,
    property: u32,
    features: &List<Feature>,
) -> bool
    ensures { Writes (record { shown = S.sink sink.old; failed = failed })
        (some_values_text schema.now property features.now)
        (record { shown = S.sink sink.new; failed = result }) }
{
    let failed = put_on(sink, failed, b">");
    let failed = put_each_value(sink, failed, schema, property, features);
    put_on(sink, failed, b"</wfs:ValueCollection>")
}

// Gives the end of the root, with the values before it.
#[tactic(auto, unfolding(crate::specs::Collection::values_text))]
fn put_values_inside<S: Sink>(
    sink: &mut S,
    failed: bool,
    schema: &Schema,
    property: u32,
    features: &List<Feature>,
) -> bool
    ensures { Writes (record { shown = S.sink sink.old; failed = failed })
        (values_text schema.now property features.now)
        (record { shown = S.sink sink.new; failed = result }) }
{
    if features.items().is_empty() {
        put_on(sink, failed, b"/>")
    } else {
        put_some_values(sink, failed, schema, property, features)
    }
}

// Gives the body of a collection of values.
pub(crate) fn put_values<S: Sink>(
    sink: &mut S,
    failed: bool,
    schema: &Schema,
    moment: u64,
    matched: u64,
    property: u32,
    features: &List<Feature>,
    next: &Option<Text>,
    previous: &Option<Text>,
) -> bool
    ensures { Writes (record { shown = S.sink sink.old; failed = failed })
        (values_body schema.now moment matched property features.now next.now previous.now)
        (record { shown = S.sink sink.new; failed = result }) }
{
    let failed = put_declared(sink, failed, b"wfs:ValueCollection", schema);
    let failed = put_counted(sink, failed, moment, matched, count(features));
    let failed = put_link(sink, failed, b" next=\"", next);
    let failed = put_link(sink, failed, b" previous=\"", previous);
    put_values_inside(sink, failed, schema, property, features)
}
