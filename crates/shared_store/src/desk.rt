//! A seat at the store's turnstile, which serves the sessions of one worker.

ghost use Rattle.std.specs.Prelude.{◌≡◌, ◌≤◌};
ghost use Rattle.shared_store.specs.Published.{pairs_of};
ghost use Rattle.shared_store.specs.Seats.{HasViewer, IsOfOpening};
ghost use Rattle.turnstile_core.specs.Seats.{name_of, turnstile_of, past, IsFree};

use crate::counter::Counter;
use crate::taking::carry_out;
use disk_core::Disk;
use feature_values::Schema;
use http_requests::read_asked;
use http_session::Message;
use service_session::{Answered, Gate, Service};
use snapshot_reads::Viewer;
use std::alloc::Global;
use std::marker::Model;
use std::sync::Wait;
use turnstile_core::{Kept, Seat, Turnstile};
use wfs_model::{AskFault, Entry, Reply};

/// A seat at the store's turnstile, with the schema that is served and the handle to wait by, and a viewer of what is published, where there is one.
/// It holds no turn.
///
/// Contracts see at which turnstile it is, the schema, what the seat knows, and what the viewer has found.
#[derive(Drop)]
pub struct Desk<'a, R, D: Disk>
where
    Counter<D>: Kept<Entry = Entry>,
{
    rt: &'a R,
    turnstile: &'a Turnstile<Counter<D>>,
    schema: &'a Schema,
    number: u32,
    seat: Seat<Counter<D>>,
    viewer: Option<Viewer>,
}

impl<'a, R, D: Disk> Model for Desk<'a, R, D>
where
    Counter<D>: Kept<Entry = Entry>,
{
    ghost use Rattle.std.specs.Prelude.{◌≡◌};
    ghost use Rattle.std.specs.Coded.{codes};
    ghost use Rattle.fes_filter.specs.contracts.filter.Filter as filter_row;
    ghost use Rattle.shared_store.specs.Published.{pairs_of};
    ghost use Rattle.shared_store.specs.Seats.{Seated, HasViewer, IsOfOpening};
    ghost use Rattle.turnstile_core.specs.Seats.{name_of, turnstile_of, past, IsFree};

    ghost Value = { Seated D };

    ghost coded = { Prim.hlevel (codes, filter_row.the_row.coded, D.code) };

    ghost view = { λ d. record {
      name = name_of d.turnstile.now;
      schema = d.schema.now;
      past = past d.seat;
      found = pairs_of d.viewer;
    } };

    ghost invariant = { λ d. (turnstile_of d.seat ≡ name_of d.turnstile.now) × IsFree d.seat
        × ((past d.seat).number ≡ d.number) × IsOfOpening d.schema.now (past d.seat)
        × HasViewer d.schema.now (past d.seat) d.viewer };
}

impl<'a, R: Wait, D: Disk> Desk<'a, R, D> {
    /// A desk of this seat, which holds no turn and has this number, and of this viewer.
    pub fn of(
        rt: &'a R,
        turnstile: &'a Turnstile<Counter<D>>,
        schema: &'a Schema,
        number: u32,
        seat: Seat<Counter<D>>,
        viewer: Option<Viewer>,
    ) -> Desk<'a, R, D>
        requires own { turnstile_of seat ≡ name_of turnstile.now }
        requires free { IsFree seat }
        requires number { (past seat).number ≡ number }
        requires opening { IsOfOpening schema.now (past seat) }
        requires viewer { HasViewer schema.now (past seat) viewer }
        ensures { result ≡ record {
          name = name_of turnstile.now;
          schema = schema.now;
          past = past seat;
          found = pairs_of viewer;
        } }
    {
        Desk {
            rt,
            turnstile,
            schema,
            number,
            seat,
            viewer,
        }
    }

    /// The seat, which holds no turn, and the viewer.
    pub fn leave(self) -> (Seat<Counter<D>>, Option<Viewer>)
        ensures own { turnstile_of result.0 ≡ self.entry.name }
        ensures free { IsFree result.0 }
        ensures past { past result.0 ≡ self.entry.past }
        ensures viewer { HasViewer self.entry.schema self.entry.past result.1 }
        ensures found { pairs_of result.1 ≡ self.entry.found }
    {
        let Desk { seat, viewer, .. } = self;
        (seat, viewer)
    }
}

impl<'a, R: Wait, D: Disk> Service for Desk<'a, R, D> {
    ghost use Rattle.shared_store.specs.Seats.{desk_meaning, leads_same, leads_both};

    ghost schema = { desk_meaning.schema };

    ghost judges = { desk_meaning.judges };

    ghost leads = { desk_meaning.leads };

    ghost stays = { leads_same };

    ghost follows = { leads_both };

    fn schema(&self) -> &Schema {
        self.schema
    }

    fn judge<G: Gate>(
        &mut self,
        alloc: Global,
        message: &Message,
        _is_last: bool,
        moment: u64,
        gate: &mut G,
    ) -> Answered {
        match read_asked(alloc, message, self.schema) {
            Ok(request) => carry_out(
                self.rt,
                alloc,
                self.turnstile,
                &mut self.seat,
                &mut self.viewer,
                self.number,
                self.schema,
                message,
                moment,
                request,
                gate,
            ),
            Err(AskFault::Refused(refusal)) => Answered::Reply(Reply::Refused(refusal)),
            Err(AskFault::OutOfMemory) => Answered::OutOfMemory,
        }
    }
}
