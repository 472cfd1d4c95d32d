//! What the service offers.

ghost use Rattle.std.specs.Prelude.{◌≡◌};
ghost use Rattle.std.specs.List.{flat_map};
ghost use Rattle.wfs_ends.specs.Ends.{Gives, Writes};
ghost use Rattle.service_docs.specs.CapabilitiesDocument.{operation_text, post_operation_text, operations_text, other_system_text, some_systems_text, systems_text, type_text, declared_text, capabilities_document};

use doc_tree::{put_escaped, put_plain};
use feature_values::{FeatureType, Schema};
use wfs_ends::{List, Sink, Text, WriteFault, put_on};

// The parts of a capabilities document that are the same in each.
const START: &[u8] =
    b"<?xml version=\"1.0\" encoding=\"UTF-8\"?><wfs:WFS_Capabilities xmlns:wfs=\"http://www.opengis.net/wfs/2.0\" xmlns:ows=\"http://www.opengis.net/ows/1.1\" xmlns:xlink=\"http://www.w3.org/1999/xlink\" xmlns:";

const SERVICE: &[u8] =
    b"</ows:Title><ows:ServiceType>WFS</ows:ServiceType><ows:ServiceTypeVersion>2.0.2</ows:ServiceTypeVersion></ows:ServiceIdentification><ows:OperationsMetadata>";

// Gives an operation that is asked for by GET and by POST.
fn put_operation<S: Sink>(sink: &mut S, failed: bool, address: &Text, name: &[u8]) -> bool
    ensures { Writes (record { shown = S.sink sink.old; failed = failed })
        (operation_text address.now name.now)
        (record { shown = S.sink sink.new; failed = result }) }
{
    let failed = put_on(sink, failed, b"<ows:Operation name=\"");
    let failed = put_on(sink, failed, name);
    let failed = put_on(
        sink,
        failed,
        b"\"><ows:DCP><ows:HTTP><ows:Get xlink:href=\"",
    );
    let failed = put_escaped(sink, failed, address, true);
    let failed = put_on(sink, failed, b"?\"/><ows:Post xlink:href=\"");
    let failed = put_escaped(sink, failed, address, true);
    put_on(sink, failed, b"\"/></ows:HTTP></ows:DCP></ows:Operation>")
}

// Gives an operation that is asked for by POST alone.
fn put_post_operation<S: Sink>(sink: &mut S, failed: bool, address: &Text, name: &[u8]) -> bool
    ensures { Writes (record { shown = S.sink sink.old; failed = failed })
        (post_operation_text address.now name.now)
        (record { shown = S.sink sink.new; failed = result }) }
{
    let failed = put_on(sink, failed, b"<ows:Operation name=\"");
    let failed = put_on(sink, failed, name);
    let failed = put_on(
        sink,
        failed,
        b"\"><ows:DCP><ows:HTTP><ows:Post xlink:href=\"",
    );
    let failed = put_escaped(sink, failed, address, true);
    put_on(sink, failed, b"\"/></ows:HTTP></ows:DCP></ows:Operation>")
}

// Gives all operations.
fn put_operations<S: Sink>(sink: &mut S, failed: bool, address: &Text) -> bool
    ensures { Writes (record { shown = S.sink sink.old; failed = failed })
        (operations_text address.now) (record { shown = S.sink sink.new; failed = result }) }
{
    let failed = put_operation(sink, failed, address, b"GetCapabilities");
    let failed = put_operation(sink, failed, address, b"DescribeFeatureType");
    let failed = put_operation(sink, failed, address, b"GetPropertyValue");
    let failed = put_operation(sink, failed, address, b"GetFeature");
    let failed = put_operation(sink, failed, address, b"GetFeatureWithLock");
    let failed = put_operation(sink, failed, address, b"LockFeature");
    let failed = put_post_operation(sink, failed, address, b"Transaction");
    let failed = put_operation(sink, failed, address, b"ListStoredQueries");
    let failed = put_operation(sink, failed, address, b"DescribeStoredQueries");
    let failed = put_post_operation(sink, failed, address, b"CreateStoredQuery");
    put_operation(sink, failed, address, b"DropStoredQuery")
}

// Gives a name of the reference system that is not the first.
fn put_other_system<S: Sink>(sink: &mut S, failed: bool, name: &Text) -> bool
    ensures { Writes (record { shown = S.sink sink.old; failed = failed })
        (other_system_text name.now) (record { shown = S.sink sink.new; failed = result }) }
{
    let failed = put_on(sink, failed, b"<wfs:OtherCRS>");
    let failed = put_escaped(sink, failed, name, false);
    put_on(sink, failed, b"</wfs:OtherCRS>")
}

fn put_other_systems<S: Sink>(sink: &mut S, failed: bool, names: &[Text]) -> bool
    ensures { Writes (record { shown = S.sink sink.old; failed = failed })
        (flat_map other_system_text names.now)
        (record { shown = S.sink sink.new; failed = result }) }
{
    let mut failed = put_on(sink, failed, b"");
    for name in names {
        failed = put_other_system(sink, failed, name);
    }
    failed
}

fn put_some_systems<S: Sink>(sink: &mut S, failed: bool, first: &Text, others: &[Text]) -> bool
    ensures { Writes (record { shown = S.sink sink.old; failed = failed })
        (some_systems_text first.now others.now)
        (record { shown = S.sink sink.new; failed = result }) }
{
    let failed = put_on(sink, failed, b"<wfs:DefaultCRS>");
    let failed = put_escaped(sink, failed, first, false);
    let failed = put_on(sink, failed, b"</wfs:DefaultCRS>");
    put_other_systems(sink, failed, others)
}

// Gives the names of the reference system.
fn put_systems<S: Sink>(sink: &mut S, failed: bool, names: &List<Text>) -> bool
    ensures { Writes (record { shown = S.sink sink.old; failed = failed }) (systems_text names.now)
        (record { shown = S.sink sink.new; failed = result }) }
{
    match names.items() {
        [] => put_on(sink, failed, b""),
        [first, others @ ..] => put_some_systems(sink, failed, first, others),
    }
}

fn put_type<S: Sink>(sink: &mut S, failed: bool, schema: &Schema, of_type: &FeatureType) -> bool
    ensures { Writes (record { shown = S.sink sink.old; failed = failed })
        (type_text schema.now of_type.now) (record { shown = S.sink sink.new; failed = result }) }
{
    let failed = put_on(sink, failed, b"<wfs:FeatureType><wfs:Name>");
    let failed = put_plain(sink, failed, &schema.prefix);
    let failed = put_on(sink, failed, b":");
    let failed = put_plain(sink, failed, &of_type.name);
    let failed = put_on(sink, failed, b"</wfs:Name><wfs:Title>");
    let failed = put_plain(sink, failed, &of_type.name);
    let failed = put_on(sink, failed, b"</wfs:Title>");
    let failed = put_systems(sink, failed, &schema.srs);
    put_on(sink, failed, b"</wfs:FeatureType>")
}

// Gives all types.
fn put_each_type<S: Sink>(sink: &mut S, failed: bool, schema: &Schema) -> bool
    ensures { Writes (record { shown = S.sink sink.old; failed = failed })
        (flat_map (type_text schema.now) schema.now.types)
        (record { shown = S.sink sink.new; failed = result }) }
{
    let mut failed = put_on(sink, failed, b"");
    for of_type in schema.types.items() {
        failed = put_type(sink, failed, schema, of_type);
    }
    failed
}

// Gives the start of the root, with the namespaces.
fn put_declared<S: Sink>(sink: &mut S, failed: bool, schema: &Schema) -> bool
    ensures { Writes (record { shown = S.sink sink.old; failed = failed })
        (declared_text schema.now) (record { shown = S.sink sink.new; failed = result }) }
{
    let failed = put_on(sink, failed, START);
    let failed = put_plain(sink, failed, &schema.prefix);
    let failed = put_on(sink, failed, b"=\"");
    let failed = put_escaped(sink, failed, &schema.space, true);
    put_on(sink, failed, b"\" version=\"2.0.2\">")
}

/// Gives the capabilities document as `put_capabilities` does, unless a put failed before. It says whether one has failed
/// by now.
///
/// A writer of several pieces hands the answer of each call to the next one, and looks at the last alone.
pub fn put_capabilities_on<S: Sink>(sink: &mut S, failed: bool, schema: &Schema) -> bool
    ensures { Writes (record { shown = S.sink sink.old; failed = failed })
        (capabilities_document schema.now) (record { shown = S.sink sink.new; failed = result }) }
{
    let failed = put_declared(sink, failed, schema);
    let failed = put_on(sink, failed, b"<ows:ServiceIdentification><ows:Title>");
    let failed = put_escaped(sink, failed, &schema.title, false);
    let failed = put_on(sink, failed, SERVICE);
    let failed = put_operations(sink, failed, &schema.address);
    let failed = put_on(
        sink,
        failed,
        b"</ows:OperationsMetadata><wfs:FeatureTypeList>",
    );
    let failed = put_each_type(sink, failed, schema);
    put_on(
        sink,
        failed,
        b"</wfs:FeatureTypeList></wfs:WFS_Capabilities>",
    )
}

/// Gives what a service with this schema offers (OGC 09-025r2, 8.3): its title, the operations with the address that they
/// are sent to, and the feature types with the names of their reference system. It takes no memory.
///
/// `WriteFault` comes only where the sink's count of failed puts rose; a front of the document was given then.
#[tactic(auto, using(wfs_ends::proofs::Writing::failed_is_front, wfs_ends::proofs::Writing::not_failed_is_all))]
pub fn put_capabilities<S: Sink>(schema: &Schema, sink: &mut S) -> Result<(), WriteFault>
    ensures { Gives result (S.sink sink.old) (capabilities_document schema.now) (S.sink sink.new) }
{
    if put_capabilities_on(sink, false, schema) {
        Err(WriteFault)
    } else {
        Ok(())
    }
}
