//! One session over a schema, an input and an output, with the store on two disks.

ghost use Rattle.std.specs.Prelude.{◌≡◌, [], IfOk, IfSome, None};
ghost use Rattle.disk_core.specs.Sides.{Always};
ghost use Rattle.feature_schema.specs.Rules.{KeepsRules};
ghost use Rattle.service_session.specs.Became.{SaysOnTheWay, StoreBecomes};
ghost use Rattle.wfs_ends.specs.Ends.{both};
ghost use Rattle.wfsd_commands.specs.Becoming.{IsLeft};
ghost use Rattle.wfsd_commands.specs.Talk.{Heard, HeldBy, MayTalk, TalkEnds, Talks, TalksWith, WasHeld, status_of};

use crate::done::{
    CUT, DONE, Done, OUT_OF_MEMORY, READ_FAULT, UNFRAMED, WRITE_FAULT, leave_disks, leave_store,
};
use crate::load::load_schema;
use crate::starting::{end_for_memory, end_unloaded, start_store};
use crate::statuses::say_unopened;
use disk_core::{Disk, Pair};
use feature_values::Schema;
use http_session::Reader;
use service_session::{SessionEnd, solo_session};
use std::alloc::Global;
use wfs_ends::{Buffer, Clock, Joined, Mem, OutOfMemory, Sink, Source};
use wfs_store::{Store, stands};

/// Holds one session: reads the schema, starts the store on the disks, and then reads message after message from the input, and answers
/// each to the output.
///
/// The status is 0 where the input was read to its end, or an answer closed the session; 3 where the schema is refused; 4 where its source
/// or the input failed; 5 where a disk failed while the store was started; 6 where the disks hold no journal, or none of the schema; 7 where
/// the output failed; 8 where memory ran out; 10 where the input ended within a message; 11 where the journal has no room for another
/// opening; and 12 where a refusal closed the session. For what comes before the session one line is written. The store that is left has a
/// legal history, and its disks stand for it.
pub fn talk<Q: Source, I: Source, O: Sink, D: Disk, C: Clock>(
    alloc: Global,
    schema: &mut Q,
    input: &mut I,
    out: &mut O,
    disks: Pair<D>,
    clock: &mut C,
) -> Done<D>
    ensures talks { Talks D.Disk disks
        (record {
          schema = Q.source schema.old;
          heard = record {
            input = I.source input.old;
            out = O.sink out.old;
            clock = C.moments clock.old;
          };
        })
        result
        (record {
          schema = Q.source schema.new;
          heard = record {
            input = I.source input.new;
            out = O.sink out.new;
            clock = C.moments clock.new;
          };
        }) }
    ensures left { IfSome result.store (IsLeft D.Disk disks) }
{
    match load_schema(alloc, schema) {
        Ok(schema) => talk_with(alloc, &schema, input, out, disks, clock),
        Err(unloaded) => end_unloaded(out, &unloaded, disks),
    }
}

// Takes the memory of a session, starts the store, and holds the session.
fn talk_with<I: Source, O: Sink, D: Disk, C: Clock>(
    alloc: Global,
    schema: &Schema,
    input: &mut I,
    out: &mut O,
    disks: Pair<D>,
    clock: &mut C,
) -> Done<D>
    requires rules { KeepsRules schema.now }
    ensures talks { MayTalk D.Disk schema.now disks
        (record { input = I.source input.old; out = O.sink out.old; clock = C.moments clock.old })
        result
        (record { input = I.source input.new; out = O.sink out.new; clock = C.moments clock.new }) }
    ensures left { IfSome result.store (IsLeft D.Disk disks) }
{
    match take_memory(alloc) {
        Ok(memory) => talk_on(alloc, schema, memory, input, out, disks, clock),
        Err(OutOfMemory) => end_for_memory(out, disks),
    }
}

// Starts the store, and holds a session with it.
fn talk_on<I: Source, O: Sink, D: Disk, C: Clock>(
    alloc: Global,
    schema: &Schema,
    memory: Memory,
    input: &mut I,
    out: &mut O,
    disks: Pair<D>,
    clock: &mut C,
) -> Done<D>
    requires rules { KeepsRules schema.now }
    requires fresh { memory.reader ≡ [] }
    ensures talks { TalksWith D.Disk schema.now disks
        (record { input = I.source input.old; out = O.sink out.old; clock = C.moments clock.old })
        result
        (record { input = I.source input.new; out = O.sink out.new; clock = C.moments clock.new }) }
    ensures left { IfSome result.store (IsLeft D.Disk disks) }
{
    match start_store(alloc, disks, schema) {
        Ok(store) => hold(alloc, store, memory, input, out, clock),
        Err((disks, fault)) => leave_disks(say_unopened(out, fault), disks),
    }
}

// The memory that a session takes when it begins.
#[derive(Drop)]
struct Memory {
    reader: Reader,
    buffer: Buffer,
}

fn take_memory(alloc: Global) -> Mem<Memory>
    ensures { IfOk result (λ memory. memory.reader ≡ []) }
{
    Ok(Memory {
        reader: Reader::new(alloc)?,
        buffer: Buffer::new(alloc)?,
    })
}

// Holds a session with the store.
fn hold<I: Source, O: Sink, D: Disk, C: Clock>(
    alloc: Global,
    store: Store<D>,
    memory: Memory,
    input: &mut I,
    out: &mut O,
    clock: &mut C,
) -> Done<D>
    requires fresh { memory.reader ≡ [] }
    requires entries { store.entries ≡ [] }
    requires rests { store.begun ≡ None }
    ensures held { HeldBy D.Disk store
        (C.moments clock.old) (both (I.source input.old) (O.sink out.old))
        result
        (C.moments clock.new) (both (I.source input.new) (O.sink out.new)) }
    ensures left { IfSome result.store (IsLeft D.Disk store.disks) }
{
    let mut store = store;
    let Memory {
        mut reader,
        mut buffer,
    } = memory;
    let end = converse(
        alloc,
        input,
        out,
        clock,
        &mut store,
        &mut reader,
        &mut buffer,
    );
    stands(&store);
    leave_store(status_of(end), store)
}

// Holds a session over the input and the output as one link.
fn converse<I: Source, O: Sink, D: Disk, C: Clock>(
    alloc: Global,
    input: &mut I,
    out: &mut O,
    clock: &mut C,
    store: &mut Store<D>,
    reader: &mut Reader,
    buffer: &mut Buffer,
) -> SessionEnd
    requires fresh { reader.old ≡ [] }
    ensures held { WasHeld D.Disk store.old
        (C.moments clock.old) (both (I.source input.old) (O.sink out.old))
        result store.new
        (C.moments clock.new) (both (I.source input.new) (O.sink out.new)) }
    ensures becomes { StoreBecomes D.faults store.old store.new }
    ensures goes { Always D.moment D.since (SaysOnTheWay D.moment D.since D.faults store.old
        store.new) store.old.disks store.new.disks }
{
    let mut link = Joined {
        source: input,
        sink: out,
    };
    converse_over(alloc, &mut link, clock, store, reader, buffer)
}

// Holds a session over two ends that are joined.
fn converse_over<'a, I: Source, O: Sink, D: Disk, C: Clock>(
    alloc: Global,
    link: &mut Joined<'a, I, O>,
    clock: &mut C,
    store: &mut Store<D>,
    reader: &mut Reader,
    buffer: &mut Buffer,
) -> SessionEnd
    requires fresh { reader.old ≡ [] }
    ensures held { WasHeld D.Disk store.old
        (C.moments clock.old) (both (I.source link.old.source.now) (O.sink link.old.sink.now))
        result store.new
        (C.moments clock.new) (both (I.source link.new.source.now) (O.sink link.new.sink.now)) }
    ensures source { link.new.source.ghost_name ≡ link.old.source.ghost_name }
    ensures sink { link.new.sink.ghost_name ≡ link.old.sink.ghost_name }
    ensures becomes { StoreBecomes D.faults store.old store.new }
    ensures goes { Always D.moment D.since (SaysOnTheWay D.moment D.since D.faults store.old
        store.new) store.old.disks store.new.disks }
{
    solo_session(alloc, store, link, clock, reader, buffer)
}

// The status of a session's end.
fn status_of(end: SessionEnd) -> u8
    ensures { result ≡ status_of end }
{
    match end {
        SessionEnd::Ended | SessionEnd::Closed => DONE,
        SessionEnd::Unframed => UNFRAMED,
        SessionEnd::Cut => CUT,
        SessionEnd::ReadFault => READ_FAULT,
        SessionEnd::WriteFault => WRITE_FAULT,
        SessionEnd::NoMemory => OUT_OF_MEMORY,
    }
}
