//! The tags of elements with a prefix.

ghost use Rattle.std.specs.Prelude.{◌≡◌};
ghost use Rattle.wfs_ends.specs.Ends.{Writes};
ghost use Rattle.reply_documents.specs.Features.{start_tag, end_tag, empty_tag};

use doc_tree::put_plain;
use wfs_ends::{Sink, Text, put_on};

pub(crate) fn put_start_tag<S: Sink>(sink: &mut S, failed: bool, prefix: &Text, name: &Text) -> bool
    ensures { Writes (record { shown = S.sink sink.old; failed = failed })
        (start_tag prefix.now name.now) (record { shown = S.sink sink.new; failed = result }) }
{
    let failed = put_on(sink, failed, b"<");
    let failed = put_plain(sink, failed, prefix);
    let failed = put_on(sink, failed, b":");
    let failed = put_plain(sink, failed, name);
    put_on(sink, failed, b">")
}

pub(crate) fn put_end_tag<S: Sink>(sink: &mut S, failed: bool, prefix: &Text, name: &Text) -> bool
    ensures { Writes (record { shown = S.sink sink.old; failed = failed })
        (end_tag prefix.now name.now) (record { shown = S.sink sink.new; failed = result }) }
{
    let failed = put_on(sink, failed, b"</");
    let failed = put_plain(sink, failed, prefix);
    let failed = put_on(sink, failed, b":");
    let failed = put_plain(sink, failed, name);
    put_on(sink, failed, b">")
}

pub(crate) fn put_empty_tag<S: Sink>(sink: &mut S, failed: bool, prefix: &Text, name: &Text) -> bool
    ensures { Writes (record { shown = S.sink sink.old; failed = failed })
        (empty_tag prefix.now name.now) (record { shown = S.sink sink.new; failed = result }) }
{
    let failed = put_on(sink, failed, b"<");
    let failed = put_plain(sink, failed, prefix);
    let failed = put_on(sink, failed, b":");
    let failed = put_plain(sink, failed, name);
    put_on(sink, failed, b"/>")
}
