//! The calls of a turn: take it, enter an entry, show the entries, pass it on.
ghost use Rattle.std.specs.Prelude.{◌≡◌, ◌≤◌, [], length};
ghost use Rattle.turnstile_core.specs.Seats.{name_of, turnstile_of, past, stage, IsFree, IsHolding, HasTurn, HasOneMore, FoundTallies, HasOpeningOf};
ghost use Rattle.turnstile_core.specs.Steps.{HasAll, HasTaken, caught_up, grown, shown_at, tallied};
ghost use Rattle.turnstile_core.specs.declared.view.Stage.TheVariants.{Idle};

use crate::kept::Kept;
use crate::seat::{Seat, Token, Turn};
use crate::turnstile::Turnstile;
use std::marker::Brand;
use std::sync::Wait;

impl<T: Kept> Turnstile<T> {
    /// Draws a ticket, waits until it is served, and takes the value out.
    fn wait_for<R: Wait>(&self, rt: &R, token: &mut Token<T, T::Entry>) -> T
        requires own { token.old.table_id ≡ name_of self.now }
        requires idle { token.old.me.0.stage ≡ Idle }
        requires empty { token.old.me.1 ≡ [] }
        ensures own { token.new.table_id ≡ token.old.table_id }
        ensures taken { HasTaken T.Kept token.old.me result token.new.me }
    {
        let ticket = self.draw(token);
        for _ in rt.forever() {
            let serving = self.look_at_served(token);
            if serving == ticket {
                return self.take_out(token);
            }
            self.table.shared.park(rt, 1, (serving % (1 << 32)) as u32);
        }
        unreachable!()
    }

    /// Waits until it is the seat's turn, and gives the turn. Who asked first need not be first.
    ///
    /// The seat has then seen all entries of the value, and knows how many of them are shown.
    pub fn take_turn<R: Wait>(&self, rt: &R, seat: &mut Seat<T>) -> Turn<T>
        requires own { turnstile_of seat.old ≡ name_of self.now }
        requires free { IsFree seat.old }
        ensures own { turnstile_of seat.new ≡ turnstile_of seat.old }
        ensures holds { IsHolding seat.new result.value }
        ensures value { HasAll T.Kept result.value (past seat.old) }
        ensures settled { T.settled result.value }
        ensures seat { past seat.new ≡ caught_up T.Kept (past seat.old) result.value }
    {
        self.gate.pass(rt);
        let value = self.wait_for(rt, &mut seat.token);
        seat.front = value.entries();
        Turn { value }
    }

    /// Adds the value's last entry to the history, once. The entry is the seat's own.
    pub fn enter(&self, seat: &mut Seat<T>, turn: &mut Turn<T>)
        requires own { turnstile_of seat.old ≡ name_of self.now }
        requires holds { HasTurn seat.old }
        requires one_more { HasOneMore T.Kept (past seat.old) (T.list turn.old.value) }
        ensures own { turnstile_of seat.new ≡ turnstile_of seat.old }
        ensures holds { stage seat.new ≡ stage seat.old }
        ensures seat { past seat.new ≡ grown (past seat.old) (T.list turn.old.value) }
        ensures turn { turn.new ≡ turn.old }
    {
        self.count_entry::<Brand>(&mut seat.token, &turn.value);
        seat.front = turn.value.entries();
    }

    /// Shows as many entries as the value's `shown` says.
    pub fn show(&self, seat: &mut Seat<T>, turn: &mut Turn<T>)
        requires own { turnstile_of seat.old ≡ name_of self.now }
        requires holds { HasTurn seat.old }
        requires above { (past seat.old).shown ≤ T.published turn.old.value }
        requires below { T.published turn.old.value ≤ length (past seat.old).seen }
        ensures own { turnstile_of seat.new ≡ turnstile_of seat.old }
        ensures holds { stage seat.new ≡ stage seat.old }
        ensures seat { past seat.new ≡ shown_at (past seat.old) (T.published turn.old.value) }
        ensures turn { turn.new ≡ turn.old }
    {
        let shown = turn.value.shown();
        self.raise_shown(&mut seat.token, shown);
    }

    /// Puts the value back for the next seat, the one with the next ticket or whoever comes first.
    pub fn pass_on(&self, seat: &mut Seat<T>, turn: Turn<T>)
        requires own { turnstile_of seat.old ≡ name_of self.now }
        requires holds { FoundTallies seat.old turn.value }
        requires entries { T.list turn.value ≡ (past seat.old).seen }
        requires shown { T.published turn.value ≡ (past seat.old).shown }
        requires settled { T.settled turn.value }
        requires opening { HasOpeningOf seat.old turn.value }
        ensures own { turnstile_of seat.new ≡ turnstile_of seat.old }
        ensures free { IsFree seat.new }
        ensures seat { past seat.new ≡ tallied (past seat.old)
            (T.tally turn.value (past seat.old).number) }
    {
        let Turn { value } = turn;
        self.put_back(&mut seat.token, value);
        self.serve_next(&mut seat.token);
        self.table.shared.wake_all(1);
        self.gate.leave();
    }
}
