//! The schema of the feature types.

ghost use Rattle.std.specs.Prelude.{◌≡◌};
ghost use Rattle.std.specs.List.{flat_map};
ghost use Rattle.wfs_ends.specs.Ends.{Gives, Writes};
ghost use Rattle.service_docs.specs.SchemaDocument.{kind_name, occurs_text, property_text, some_properties_text, properties_text, type_text, numbered_text, new_number, each_once, is_among, declared_text, schema_document};

use doc_tree::{put_escaped, put_plain};
use feature_values::{FeatureType, Property, Schema, ValueKind};
use wfs_ends::{List, Sink, Text, WriteFault, put_on};

// The parts of a schema document that are the same in each.
const START: &[u8] =
    b"<?xml version=\"1.0\" encoding=\"UTF-8\"?><xs:schema xmlns:xs=\"http://www.w3.org/2001/XMLSchema\" xmlns:gml=\"http://www.opengis.net/gml/3.2\" xmlns:";

const IMPORT: &[u8] =
    b"\" elementFormDefault=\"qualified\"><xs:import namespace=\"http://www.opengis.net/gml/3.2\" schemaLocation=\"http://schemas.opengis.net/gml/3.2.1/gml.xsd\"/>";

// The type of the values of a kind.
fn kind_name(kind: ValueKind) -> &'static [u8]
    ensures { result.now ≡ kind_name kind }
{
    match kind {
        ValueKind::Words => b"xs:string",
        ValueKind::Whole => b"xs:long",
        ValueKind::Truth => b"xs:boolean",
        ValueKind::Point => b"gml:PointPropertyType",
        ValueKind::Line => b"gml:CurvePropertyType",
        ValueKind::Polygon => b"gml:SurfacePropertyType",
    }
}

// Gives the type of the values of a kind.
fn put_kind<S: Sink>(sink: &mut S, failed: bool, kind: ValueKind) -> bool
    ensures { Writes (record { shown = S.sink sink.old; failed = failed }) (kind_name kind)
        (record { shown = S.sink sink.new; failed = result }) }
{
    put_on(sink, failed, kind_name(kind))
}

// Says that a property may be absent, where it is not required.
fn put_occurs<S: Sink>(sink: &mut S, failed: bool, required: bool) -> bool
    ensures { Writes (record { shown = S.sink sink.old; failed = failed }) (occurs_text required)
        (record { shown = S.sink sink.new; failed = result }) }
{
    if required {
        put_on(sink, failed, b"")
    } else {
        put_on(sink, failed, b" minOccurs=\"0\"")
    }
}

fn put_property<S: Sink>(sink: &mut S, failed: bool, property: &Property) -> bool
    ensures { Writes (record { shown = S.sink sink.old; failed = failed })
        (property_text property.now) (record { shown = S.sink sink.new; failed = result }) }
{
    let failed = put_on(sink, failed, b"<xs:element name=\"");
    let failed = put_plain(sink, failed, &property.name);
    let failed = put_on(sink, failed, b"\" type=\"");
    let failed = put_kind(sink, failed, property.kind);
    let failed = put_on(sink, failed, b"\"");
    let failed = put_occurs(sink, failed, property.required);
    put_on(sink, failed, b"/>")
}

fn put_each_property<S: Sink>(sink: &mut S, failed: bool, properties: &List<Property>) -> bool
    ensures { Writes (record { shown = S.sink sink.old; failed = failed })
        (flat_map property_text properties.now)
        (record { shown = S.sink sink.new; failed = result }) }
{
    let mut failed = put_on(sink, failed, b"");
    for property in properties.items() {
        failed = put_property(sink, failed, property);
    }
    failed
}

fn put_some_properties<S: Sink>(sink: &mut S, failed: bool, properties: &List<Property>) -> bool
    ensures { Writes (record { shown = S.sink sink.old; failed = failed })
        (some_properties_text properties.now)
        (record { shown = S.sink sink.new; failed = result }) }
{
    let failed = put_on(sink, failed, b"<xs:sequence>");
    let failed = put_each_property(sink, failed, properties);
    put_on(sink, failed, b"</xs:sequence>")
}

// Gives the properties of a type, in order.
#[tactic(auto, unfolding(crate::specs::SchemaDocument::properties_text))]
fn put_properties<S: Sink>(sink: &mut S, failed: bool, properties: &List<Property>) -> bool
    ensures { Writes (record { shown = S.sink sink.old; failed = failed })
        (properties_text properties.now) (record { shown = S.sink sink.new; failed = result }) }
{
    if properties.items().is_empty() {
        put_on(sink, failed, b"<xs:sequence/>")
    } else {
        put_some_properties(sink, failed, properties)
    }
}

// Gives a type: the element of its features, and the type of this element.
fn put_type<S: Sink>(sink: &mut S, failed: bool, schema: &Schema, of_type: &FeatureType) -> bool
    ensures { Writes (record { shown = S.sink sink.old; failed = failed })
        (type_text schema.now of_type.now) (record { shown = S.sink sink.new; failed = result }) }
{
    let failed = put_on(sink, failed, b"<xs:element name=\"");
    let failed = put_plain(sink, failed, &of_type.name);
    let failed = put_on(sink, failed, b"\" type=\"");
    let failed = put_plain(sink, failed, &schema.prefix);
    let failed = put_on(sink, failed, b":");
    let failed = put_plain(sink, failed, &of_type.name);
    let failed = put_on(
        sink,
        failed,
        b"Type\" substitutionGroup=\"gml:AbstractFeature\"/><xs:complexType name=\"",
    );
    let failed = put_plain(sink, failed, &of_type.name);
    let failed = put_on(
        sink,
        failed,
        b"Type\"><xs:complexContent><xs:extension base=\"gml:AbstractFeatureType\">",
    );
    let failed = put_properties(sink, failed, &of_type.properties);
    put_on(
        sink,
        failed,
        b"</xs:extension></xs:complexContent></xs:complexType>",
    )
}

// Gives the type with this number, where the schema has one.
#[tactic(auto, unfolding(crate::specs::SchemaDocument::numbered_text))]
fn put_numbered<S: Sink>(sink: &mut S, failed: bool, schema: &Schema, number: u32) -> bool
    ensures { Writes (record { shown = S.sink sink.old; failed = failed })
        (numbered_text schema.now number) (record { shown = S.sink sink.new; failed = result }) }
{
    match schema.types.items().get(number as usize) {
        None => put_on(sink, failed, b""),
        Some(of_type) => put_type(sink, failed, schema, of_type),
    }
}

// Whether a number is one of some. It looks from the end, so that a number that comes again and again is soon found.
fn is_among(numbers: &[u32], number: u32) -> bool
    ensures { result ≡ is_among numbers.now number }
{
    for behind in 0..numbers.len() {
        if numbers[numbers.len() - 1 - behind] == number {
            return true;
        }
    }
    false
}

// Gives the type with this number, unless the number is one of those before it.
fn put_new<S: Sink>(
    sink: &mut S,
    failed: bool,
    schema: &Schema,
    before: &[u32],
    number: u32,
) -> bool
    ensures { Writes (record { shown = S.sink sink.old; failed = failed })
        (flat_map (numbered_text schema.now) (new_number before.now number))
        (record { shown = S.sink sink.new; failed = result }) }
{
    if is_among(before, number) {
        put_on(sink, failed, b"")
    } else {
        put_numbered(sink, failed, schema, number)
    }
}

// Gives the types with these numbers, in order, each once.
fn put_numbers<S: Sink>(sink: &mut S, failed: bool, schema: &Schema, types: &[u32]) -> bool
    ensures { Writes (record { shown = S.sink sink.old; failed = failed })
        (flat_map (numbered_text schema.now) (each_once types.now))
        (record { shown = S.sink sink.new; failed = result }) }
{
    let mut failed = put_on(sink, failed, b"");
    for at in 0..types.len() {
        failed = put_new(sink, failed, schema, &types[..at], types[at]);
    }
    failed
}

fn put_each_type<S: Sink>(sink: &mut S, failed: bool, schema: &Schema, types: &List<u32>) -> bool
    ensures { Writes (record { shown = S.sink sink.old; failed = failed })
        (flat_map (numbered_text schema.now) (each_once types.now))
        (record { shown = S.sink sink.new; failed = result }) }
{
    put_numbers(sink, failed, schema, types.items())
}

// Gives the start of the document, with the namespaces and the import of GML's schema.
fn put_declared<S: Sink>(sink: &mut S, failed: bool, schema: &Schema) -> bool
    ensures { Writes (record { shown = S.sink sink.old; failed = failed })
        (declared_text schema.now) (record { shown = S.sink sink.new; failed = result }) }
{
    let failed = put_on(sink, failed, START);
    let failed = put_plain(sink, failed, &schema.prefix);
    let failed = put_on(sink, failed, b"=\"");
    let failed = put_escaped(sink, failed, &schema.space, true);
    let failed = put_on(sink, failed, b"\" targetNamespace=\"");
    let failed = put_escaped(sink, failed, &schema.space, true);
    put_on(sink, failed, IMPORT)
}

/// Gives the schema document as `put_schema` does, unless a put failed before. It says whether one has failed by now.
///
/// A writer of several pieces hands the answer of each call to the next one, and looks at the last alone.
pub fn put_schema_on<S: Sink>(
    sink: &mut S,
    failed: bool,
    types: &List<u32>,
    schema: &Schema,
) -> bool
    ensures { Writes (record { shown = S.sink sink.old; failed = failed })
        (schema_document schema.now types.now)
        (record { shown = S.sink sink.new; failed = result }) }
{
    let failed = put_declared(sink, failed, schema);
    let failed = put_each_type(sink, failed, schema, types);
    put_on(sink, failed, b"</xs:schema>")
}

/// Gives the schema of the feature types with these numbers as a document of XML Schema (OGC 09-025r2, 9.3), in the order
/// asked and each once. A number that is none of a type gives nothing. It takes no memory.
///
/// `WriteFault` comes only where the sink's count of failed puts rose; a front of the document was given then.
#[tactic(auto, using(wfs_ends::proofs::Writing::failed_is_front, wfs_ends::proofs::Writing::not_failed_is_all))]
pub fn put_schema<S: Sink>(
    types: &List<u32>,
    schema: &Schema,
    sink: &mut S,
) -> Result<(), WriteFault>
    ensures { Gives result (S.sink sink.old) (schema_document schema.now types.now)
        (S.sink sink.new) }
{
    if put_schema_on(sink, false, types, schema) {
        Err(WriteFault)
    } else {
        Ok(())
    }
}
