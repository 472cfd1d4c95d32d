//! The commands that hold no session.

ghost use Rattle.std.specs.Prelude.{◌≡◌, ◌⊎◌, [], IfSome, None};
ghost use Rattle.feature_schema.specs.Rules.{KeepsRules};
ghost use Rattle.wfsd_commands.specs.Becoming.{IsLeft};
ghost use Rattle.wfsd_commands.specs.Commands.{Checks, Compacts, Looks, Shortened, Shortens, Unshortened};
ghost use Rattle.wfsd_commands.specs.Early.{Ends};

use crate::done::{Done, leave_disks, leave_store};
use crate::load::load_schema;
use crate::starting::{end_unloaded, start_store, stated_limits};
use crate::statuses::{say_counts, say_sides, say_stopped, say_unopened};
use disk_core::{Disk, Pair};
use feature_values::Schema;
use std::alloc::Global;
use wfs_ends::{Sink, Source};
use wfs_store::{Store, inspect, stands};

/// Tells how many types, features, stored queries and openings the disks hold, in one line. It writes nothing on them.
///
/// The status is 0; or 3, 4 or 8 as for a conversation; 5 where a disk failed; 6 where the disks hold no journal, or none of the schema; 7 where
/// the output failed; 11 where a side is longer than it may be.
pub fn check_store<Q: Source, O: Sink, D: Disk>(
    alloc: Global,
    schema: &mut Q,
    out: &mut O,
    disks: Pair<D>,
) -> Done<D>
    ensures checks { Checks D.Disk disks
        (record { schema = Q.source schema.old; out = O.sink out.old })
        result
        (record { schema = Q.source schema.new; out = O.sink out.new }) }
    ensures none { result.store ≡ None }
{
    match load_schema(alloc, schema) {
        Ok(schema) => look(alloc, &schema, out, disks),
        Err(unloaded) => end_unloaded(out, &unloaded, disks),
    }
}

// Tells what the disks hold.
fn look<O: Sink, D: Disk>(alloc: Global, schema: &Schema, out: &mut O, disks: Pair<D>) -> Done<D>
    ensures looks { Looks D.Disk schema.now disks (O.sink out.old) result (O.sink out.new) }
    ensures none { result.store ≡ None }
{
    let mut disks = disks;
    match inspect(alloc, &mut disks, schema, &stated_limits()) {
        Ok(counts) => leave_disks(say_counts(out, counts), disks),
        Err(fault) => leave_disks(say_unopened(out, fault), disks),
    }
}

/// Starts the store, makes its journal as short as it can be, and tells in one line how long its side was before and is now.
///
/// The status is 0; or 3, 4 or 8 as for a conversation; 5 where a disk failed; 6 where the disks hold no journal, or none of the schema; 7 where
/// the output failed; 11 where the journal has no room.
pub fn compact_store<Q: Source, O: Sink, D: Disk>(
    alloc: Global,
    schema: &mut Q,
    out: &mut O,
    disks: Pair<D>,
) -> Done<D>
    ensures compacts { Compacts D.Disk disks
        (record { schema = Q.source schema.old; out = O.sink out.old })
        result
        (record { schema = Q.source schema.new; out = O.sink out.new }) }
    ensures left { IfSome result.store (IsLeft D.Disk disks) }
{
    match load_schema(alloc, schema) {
        Ok(schema) => compact_with(alloc, &schema, out, disks),
        Err(unloaded) => end_unloaded(out, &unloaded, disks),
    }
}

// Starts the store, and makes its journal shorter.
fn compact_with<O: Sink, D: Disk>(
    alloc: Global,
    schema: &Schema,
    out: &mut O,
    disks: Pair<D>,
) -> Done<D>
    requires rules { KeepsRules schema.now }
    ensures shortens { Shortens D.Disk schema.now disks (O.sink out.old) result (O.sink out.new) }
    ensures left { IfSome result.store (IsLeft D.Disk disks) }
{
    match start_store(alloc, disks, schema) {
        Ok(store) => shorten(out, store),
        Err((disks, fault)) => leave_disks(say_unopened(out, fault), disks),
    }
}

// Makes the journal of a store shorter, and tells it.
fn shorten<O: Sink, D: Disk>(out: &mut O, store: Store<D>) -> Done<D>
    requires fresh { store.entries ≡ [] }
    requires rests { store.begun ≡ None }
    ensures shortened { Shortened D.Disk store (O.sink out.old) result (O.sink out.new)
        ⊎ Unshortened D.Disk store (O.sink out.old) result (O.sink out.new) }
    ensures left { IfSome result.store (IsLeft D.Disk store.disks) }
{
    let mut store = store;
    let before = store.side_length();
    match store.compact() {
        Ok(()) => {
            stands(&store);
            let after = store.side_length();
            leave_store(say_sides(out, before, after), store)
        }
        Err(fault) => {
            stands(&store);
            leave_store(say_stopped(out, fault), store)
        }
    }
}
