//! How seats are made at a turnstile, and what they tell.
ghost use Rattle.std.specs.Prelude.{◌≡◌, ℕ, ◌<◌, ◌≤◌, [], ◌∷◌, IfOk, IfErr};
ghost use Rattle.turnstile_core.specs.Seats.{name_of, turnstile_of, past, stage, IsFree};
ghost use Rattle.turnstile_core.specs.Steps.{fresh_past, saw, gave_one, newcomer};

use crate::gate::Gate;
use crate::kept::Kept;
use crate::seat::{Returned, Seat};
use crate::turnstile::Turnstile;
use atomic_table::{Refused, Table};
use std::alloc::Global;
use std::snapshot::Snapshot;

impl<T: Kept> Turnstile<T> {
    /// A turnstile that keeps this value, with the seat of number 0. `Returned`: there was no memory.
    pub fn new(alloc: Global, value: T) -> Result<(Turnstile<T>, Seat<T>), Returned<T>>
        requires empty { T.list value ≡ [] }
        requires zeros { (n : ℕ) → T.tally value n ≡ 0 }
        requires settled { T.settled value }
        ensures own { IfOk result (λ made. turnstile_of made.1 ≡ name_of made.0) }
        ensures free { IfOk result (λ made. IsFree made.1) }
        ensures seat { IfOk result (λ made. past made.1 ≡ fresh_past (value ∷ [])) }
        ensures returned { IfErr result (λ back. back.0 ≡ value) }
    {
        let about = Snapshot::of(&value);
        let words = [0, 0, value.entries(), value.shown()];
        let mut slots = Vec::new(alloc);
        if let Err(failed) = slots.push(Some(value)) {
            slots.destroy_empty();
            let Some(value) = failed.value else {
                unreachable!()
            };
            return Err(Returned(value));
        }
        match Table::new(alloc, &words, slots, &about) {
            Ok((table, token)) => {
                let gate = Gate::new();
                Ok((Turnstile { table, gate }, Seat { token, front: 0 }))
            }
            Err(Refused { mut slots }) => {
                let last = slots.pop().unwrap();
                slots.destroy_empty();
                let Some(value) = last else { unreachable!() };
                Err(Returned(value))
            }
        }
    }

    /// A seat with the next number, which has seen as much as this one and has no entries.
    pub fn split(&self, seat: &mut Seat<T>) -> Seat<T>
        requires own { turnstile_of seat.old ≡ name_of self.now }
        requires first { (past seat.old).number ≡ 0 }
        requires room { (past seat.old).given < 16 }
        ensures own { turnstile_of seat.new ≡ turnstile_of seat.old }
        ensures stage { stage seat.new ≡ stage seat.old }
        ensures seat { past seat.new ≡ gave_one (past seat.old) }
        ensures new_own { turnstile_of result ≡ turnstile_of seat.old }
        ensures new_free { IsFree result }
        ensures new { past result ≡ newcomer (past seat.old) }
    {
        let token = self.split_off(&mut seat.token);
        Seat {
            token,
            front: seat.front,
        }
    }

    /// How many entries are shown, without a turn.
    pub fn look(&self, seat: &mut Seat<T>) -> u64
        requires own { turnstile_of seat.old ≡ name_of self.now }
        ensures own { turnstile_of seat.new ≡ turnstile_of seat.old }
        ensures stage { stage seat.new ≡ stage seat.old }
        ensures rises { (past seat.old).shown ≤ result }
        ensures seat { past seat.new ≡ saw (past seat.old) result }
    {
        let shown = self.look_at_shown(&mut seat.token);
        seat.front = seat.front.max(shown);
        shown
    }
}

impl<T: Kept> Seat<T> {
    /// The greatest number of entries that the seat knows of.
    pub fn front(&self) -> u64
        ensures { result ≡ (past self.now).front }
    {
        self.front
    }
}
