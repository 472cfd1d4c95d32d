//! A read that goes by the turn: where a seat has no viewer, or one that was told of more than is published.

ghost use Rattle.std.specs.Prelude.{◌≡◌, ◌<◌, [], IfSome, replicate, vec_capacity};
ghost use Rattle.feature_schema.specs.Rules.{KeepsRules};
ghost use Rattle.feature_values.specs.declared.schema.Schema.{Schema};
ghost use Rattle.snapshot_reads.specs.Viewers.{AreNew, schema_of};
ghost use Rattle.shared_store.specs.Knowing.{KnowsMore};
ghost use Rattle.shared_store.specs.Seats.{HasViewer, IsOfOpening};
ghost use Rattle.turnstile_core.specs.Seats.{name_of, past, IsFreeAt};

use super::{
    FIRST_MARK, Given, ONE_MATCHED, Role, are_answers, marks, no_files, no_signals, slot, start,
    written_on,
};
use disk_core::Disk;
use feature_values::Schema;
use session_workers::work;
use shared_store::{Counter, Desk};
use snapshot_reads::{Publisher, Viewer};
use std::alloc::Global;
use std::sync::Wait;
use std::test::Fail;
use turnstile_core::{Returned, Seat, Turnstile};
use wfs_ends::{Mem, OutOfMemory};
use wfs_store::Store;

// An insertion, and a count.
const INPUT: &str =
    "POST /wfs HTTP/1.1\r\nHost: h\r\nContent-Length: 205\r\n\r\n<wfs:Transaction service=\"WFS\" version=\"2.0.2\" xmlns:wfs=\"http://www.opengis.net/wfs/2.0\" xmlns:m=\"http://example.org/marks\"><wfs:Insert><m:Mark><m:label>A</m:label></m:Mark></wfs:Insert></wfs:Transaction>GET /wfs?service=WFS&request=GetFeature&typeNames=m:Mark&resultType=hits HTTP/1.1\r\nHost: h\r\n\r\n";

/// What front the viewer was told beforehand, and how many turns the insertion and the count take. None: there is no viewer.
type Row = (Option<u64>, u64);

// The insertion takes a turn; then one entry is published. The count takes none where the viewer was told of no more than that. Else it takes one,
// and is answered by the store, with the moment of its message: 1000 seconds since 1970.
static ROWS: [Row; 4] = [(Some(0), 1), (Some(1), 1), (Some(2), 2), (None, 2)];

// The last of these viewers, told this front.
fn viewer_of(viewers: Vec<Option<Viewer>>, told: Option<u64>) -> Option<Viewer>
    ensures { (book : _) (schema : Schema) → AreNew book schema viewers.items
        → IfSome result (λ v. (v.seen.book ≡ book) × (schema_of v ≡ schema)) }
{
    let mut viewers = viewers;
    let mut viewer = viewers.pop()??;
    viewer.tell(told?);
    Some(viewer)
}

// Has a worker at the first seat do its work. The seat comes back.
fn work_at<R: Wait, D: Disk>(
    rt: &R,
    alloc: Global,
    turnstile: &Turnstile<Counter<D>>,
    schema: &Schema,
    first: Seat<Counter<D>>,
    viewer: Option<Viewer>,
    slot: &mut Given<'_>,
) -> Seat<Counter<D>>
    requires own { IsFreeAt (name_of turnstile.now) first }
    requires number { (past first).number ≡ 0 }
    requires opening { IsOfOpening schema.now (past first) }
    requires viewer { HasViewer schema.now (past first) viewer }
    ensures own { IsFreeAt (name_of turnstile.now) result }
    ensures knows { KnowsMore (past first) (past result) }
{
    let mut desk = Desk::of(rt, turnstile, schema, 0, first, viewer);
    work(
        alloc,
        &mut desk,
        &mut slot.acceptor,
        None,
        &mut slot.clock,
        &mut slot.gate,
    );
    let (first, _viewer) = desk.leave();
    first
}

// What the turnstile kept, once its one seat is back.
fn closed<D: Disk>(
    turnstile: Turnstile<Counter<D>>,
    first: Seat<Counter<D>>,
    seats: Vec<Seat<Counter<D>>>,
) -> Counter<D>
    requires own { IsFreeAt (name_of turnstile) first }
    requires one { ((past first).number ≡ 0) × ((past first).given ≡ 0) }
    requires room { (seats.items ≡ []) × (0 < vec_capacity seats) }
{
    let mut seats = seats;
    seats.push(first).unwrap();
    turnstile.close(seats)
}

// Has a worker serve this store at the one seat of a turnstile.
fn work_by_turns<R: Wait, D: Disk + Drop>(
    rt: &R,
    alloc: Global,
    schema: &Schema,
    store: Store<D>,
    told: Option<u64>,
    slot: &mut Given<'_>,
) -> Mem<()>
    requires rules { KeepsRules schema.now }
    requires schema { store.schema ≡ schema.now }
    requires fresh { (store.entries ≡ []) × (store.tally ≡ replicate 17 0) }
{
    let seats = Vec::with_capacity(alloc, 1)?;
    let Ok((publisher, viewers)) = Publisher::new(rt, alloc, store.features(), 1) else {
        seats.destroy_empty();
        return Err(OutOfMemory);
    };
    let viewer = viewer_of(viewers, told);
    match Turnstile::new(alloc, Counter::of(store, publisher)) {
        Ok((turnstile, first)) => {
            let first = work_at(rt, alloc, &turnstile, schema, first, viewer, slot);
            let Counter {
                store: _,
                publisher,
            } = closed(turnstile, first, seats);
            publisher.end(rt);
            Ok(())
        }
        Err(
            Returned(
                Counter {
                    store: _,
                    publisher,
                },
            ),
        ) => {
            publisher.end(rt);
            seats.destroy_empty();
            Err(OutOfMemory)
        }
    }
}

// Whether a worker has inserted a mark and found it, by so many turns.
fn has_turned(slot: &Given<'_>, turns: u64) -> bool {
    slot.gate.turns == turns && are_answers(written_on(&slot.acceptor), &[FIRST_MARK, ONE_MATCHED])
}

fn is_so<R: Wait>(rt: &R, alloc: Global, schema: &Schema, row: &Row) -> Mem<bool>
    requires { KeepsRules schema.now }
{
    let (told, turns) = *row;
    let signals = no_signals();
    let mut slot = slot(alloc, &signals, Role::Free, INPUT, &[])?;
    let store = start(alloc, no_files(alloc, &[])?, schema)?;
    work_by_turns(rt, alloc, schema, store, told, &mut slot)?;
    Ok(has_turned(&slot, turns))
}

fn first_other<R: Wait>(rt: &R, alloc: Global, schema: &Schema) -> Mem<Option<usize>>
    requires { KeepsRules schema.now }
{
    for (number, row) in ROWS.iter().enumerate() {
        if !is_so(rt, alloc, schema, row)? {
            return Ok(Some(number));
        }
    }
    Ok(None)
}

fn first_wrong<R: Wait>(rt: &R, alloc: Global) -> Mem<Option<usize>> {
    let schema = marks(alloc)?;
    first_other(rt, alloc, &schema)
}

#[test]
fn a_read_goes_by_the_turn_where_what_is_published_may_be_old(rt: HostRuntime) -> Result<(), Fail> {
    assert_eq!(rt; first_wrong(&rt, rt.alloc()), Ok(None));
    Ok(())
}
