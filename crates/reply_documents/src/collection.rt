//! The body of an answer with features, and what it has in common with one with values.

ghost use Rattle.std.specs.Prelude.{◌≡◌, length};
ghost use Rattle.std.specs.List.{flat_map};
ghost use Rattle.wfs_ends.specs.Ends.{Writes};
ghost use Rattle.civil_time.specs.Civil.{moment_text};
ghost use Rattle.reply_documents.specs.Collection.{declared_text, counted_text, some_link_text, link_text, typed_member_text, member_text, some_members_text, members_text, collection_body};

use crate::answer::put_number;
use crate::feature::{find_type, put_feature};
use crate::lock::put_lock;
use civil_time::moment_text;
use doc_tree::{put_escaped, put_plain};
use feature_values::{Feature, FeatureType, Schema};
use lock_table::LockId;
use wfs_ends::{List, Sink, Text, put_on};

// Gives the start of a root of this name, with the namespaces.
pub(crate) fn put_declared<S: Sink>(
    sink: &mut S,
    failed: bool,
    root: &[u8],
    schema: &Schema,
) -> bool
    ensures { Writes (record { shown = S.sink sink.old; failed = failed })
        (declared_text root.now schema.now) (record { shown = S.sink sink.new; failed = result }) }
{
    let failed = put_on(sink, failed, b"<?xml version=\"1.0\" encoding=\"UTF-8\"?><");
    let failed = put_on(sink, failed, root);
    let failed = put_on(
        sink,
        failed,
        b" xmlns:wfs=\"http://www.opengis.net/wfs/2.0\" xmlns:gml=\"http://www.opengis.net/gml/3.2\" xmlns:",
    );
    let failed = put_plain(sink, failed, &schema.prefix);
    let failed = put_on(sink, failed, b"=\"");
    let failed = put_escaped(sink, failed, &schema.space, true);
    put_on(sink, failed, b"\"")
}

fn put_moment<S: Sink>(sink: &mut S, failed: bool, moment: u64) -> bool
    ensures { Writes (record { shown = S.sink sink.old; failed = failed }) (moment_text moment)
        (record { shown = S.sink sink.new; failed = result }) }
{
    put_on(sink, failed, &moment_text(moment))
}

// Gives when the answer was made, how many members were found, and how many of them stand here.
pub(crate) fn put_counted<S: Sink>(
    sink: &mut S,
    failed: bool,
    moment: u64,
    matched: u64,
    returned: u64,
) -> bool
    ensures { Writes (record { shown = S.sink sink.old; failed = failed })
        (counted_text moment matched returned)
        (record { shown = S.sink sink.new; failed = result }) }
{
    let failed = put_on(sink, failed, b" timeStamp=\"");
    let failed = put_moment(sink, failed, moment);
    let failed = put_on(sink, failed, b"\" numberMatched=\"");
    let failed = put_number(sink, failed, matched);
    let failed = put_on(sink, failed, b"\" numberReturned=\"");
    let failed = put_number(sink, failed, returned);
    put_on(sink, failed, b"\"")
}

// Gives a link to another page, where there is one.
pub(crate) fn put_link<S: Sink>(
    sink: &mut S,
    failed: bool,
    start: &[u8],
    link: &Option<Text>,
) -> bool
    ensures { Writes (record { shown = S.sink sink.old; failed = failed })
        (link_text start.now link.now) (record { shown = S.sink sink.new; failed = result }) }
{
    match link {
        None => put_on(sink, failed, b""),
        Some(link) => put_some_link(sink, failed, start, link),
    }
}

fn put_some_link<S: Sink>(sink: &mut S, failed: bool, start: &[u8], link: &Text) -> bool
    ensures { Writes (record { shown = S.sink sink.old; failed = failed })
        (some_link_text start.now link.now) (record { shown = S.sink sink.new; failed = result }) }
{
    let failed = put_on(sink, failed, start);
    let failed = put_escaped(sink, failed, link, true);
    put_on(sink, failed, b"\"")
}

// Gives a feature as a member, where its type is in the schema.
#[tactic(auto, unfolding(crate::specs::Collection::member_text))]
fn put_member<S: Sink>(sink: &mut S, failed: bool, schema: &Schema, feature: &Feature) -> bool
    ensures { Writes (record { shown = S.sink sink.old; failed = failed })
        (member_text schema.now feature.now) (record { shown = S.sink sink.new; failed = result }) }
{
    match find_type(schema, feature.id.kind) {
        None => put_on(sink, failed, b""),
        Some(of_type) => put_typed_member(sink, failed, schema, of_type, feature),
    }
}

// Gives a feature of this type as a member.
fn put_typed_member<S: Sink>(
    sink: &mut S,
    failed: bool,
    schema: &Schema,
    of_type: &FeatureType,
    feature: &Feature,
) -> bool
    ensures { Writes (record { shown = S.sink sink.old; failed = failed })
        (typed_member_text schema.now of_type.now feature.now)
        (record { shown = S.sink sink.new; failed = result }) }
{
    let failed = put_on(sink, failed, b"<wfs:member>");
    let failed = put_feature(sink, failed, schema, of_type, feature);
    put_on(sink, failed, b"</wfs:member>")
}

// Gives the members one after the other.
fn put_each_member<S: Sink>(
    sink: &mut S,
    failed: bool,
    schema: &Schema,
    features: &List<Feature>,
) -> bool
    ensures { Writes (record { shown = S.sink sink.old; failed = failed })
        (flat_map (member_text schema.now) features.now)
        (record { shown = S.sink sink.new; failed = result }) }
{
    let mut failed = put_on(sink, failed, b"");
    for feature in features.items() {
        failed = put_member(sink, failed, schema, feature);
    }
    failed
}

fn put_some_members<S: Sink>(
    sink: &mut S,
    failed: bool,
    schema: &Schema,
    features: &List<Feature>,
) -> bool
    ensures { Writes (record { shown = S.sink sink.old; failed = failed })
        (some_members_text schema.now features.now)
        (record { shown = S.sink sink.new; failed = result }) }
{
    let failed = put_on(sink, failed, b">");
    let failed = put_each_member(sink, failed, schema, features);
    put_on(sink, failed, b"</wfs:FeatureCollection>")
}

// Gives the end of the root, with the members before it.
#[tactic(auto, unfolding(crate::specs::Collection::members_text))]
fn put_members<S: Sink>(
    sink: &mut S,
    failed: bool,
    schema: &Schema,
    features: &List<Feature>,
) -> bool
    ensures { Writes (record { shown = S.sink sink.old; failed = failed })
        (members_text schema.now features.now)
        (record { shown = S.sink sink.new; failed = result }) }
{
    if features.items().is_empty() {
        put_on(sink, failed, b"/>")
    } else {
        put_some_members(sink, failed, schema, features)
    }
}

// How many features a list has.
pub(crate) fn count(features: &List<Feature>) -> u64
    ensures { result ≡ length features.now }
{
    features.items().len() as u64
}

// Gives the body of a collection.
pub(crate) fn put_collection<S: Sink>(
    sink: &mut S,
    failed: bool,
    schema: &Schema,
    moment: u64,
    matched: u64,
    features: &List<Feature>,
    lock: &Option<LockId>,
    next: &Option<Text>,
    previous: &Option<Text>,
) -> bool
    ensures { Writes (record { shown = S.sink sink.old; failed = failed })
        (collection_body schema.now moment matched features.now lock.now next.now previous.now)
        (record { shown = S.sink sink.new; failed = result }) }
{
    let failed = put_declared(sink, failed, b"wfs:FeatureCollection", schema);
    let failed = put_counted(sink, failed, moment, matched, count(features));
    let failed = put_lock(sink, failed, lock);
    let failed = put_link(sink, failed, b" next=\"", next);
    let failed = put_link(sink, failed, b" previous=\"", previous);
    put_members(sink, failed, schema, features)
}
