//! The atomic steps of the turnstile, one function each. What a step does to the seat is in `specs/Steps.antt`.
ghost use Rattle.std.specs.Prelude.{◌≡◌, ℕ, true, ◌<◌, ◌≤◌, [], ◌∷◌, Some, None, length};
ghost use Rattle.turnstile_core.specs.Seats.{name_of, HasOneMore};
ghost use Rattle.turnstile_core.specs.Steps.{is_at_rest, MayLeave, HasLeft, drawn, looked, Learns, grown, shown_at, spied, split_left, split_right, join_both};
ghost use Rattle.turnstile_core.specs.declared.view.Stage.TheVariants.{Idle, Waits, Holds};

use crate::kept::Kept;
use crate::plays::{Cut, Draw, Enter, Entered, Gather, Look, Pass, Show, Spy};
use crate::seat::Token;
use crate::turnstile::Turnstile;

impl<T: Kept> Turnstile<T> {
    /// Draws the next ticket.
    pub(crate) fn draw(&self, token: &mut Token<T, T::Entry>) -> u64
        requires own { token.old.table_id ≡ name_of self.now }
        requires idle { token.old.me.0.stage ≡ Idle }
        ensures own { token.new.table_id ≡ token.old.table_id }
        ensures drawn { drawn token.old.me result token.new.me }
    {
        self.table.shared.fetch_add::<Draw>(token, 0, 1)
    }

    /// Looks at the ticket that is served.
    pub(crate) fn look_at_served(&self, token: &mut Token<T, T::Entry>) -> u64
        requires own { token.old.table_id ≡ name_of self.now }
        requires waits { (t : ℕ) × (token.old.me.0.stage ≡ Waits t) }
        ensures own { token.new.table_id ≡ token.old.table_id }
        ensures looked { looked T.Kept token.old.me result token.new.me }
    {
        self.table.shared.load::<Look>(token, 1)
    }

    /// Takes the value out of the slot.
    pub(crate) fn take_out(&self, token: &mut Token<T, T::Entry>) -> T
        requires own { token.old.table_id ≡ name_of self.now }
        requires full { (x : T) × (token.old.me.1 ≡ (0, Some x) ∷ []) }
        ensures own { token.new.table_id ≡ token.old.table_id }
        ensures value { token.old.me.1 ≡ (0, Some result) ∷ [] }
        ensures empty { token.new.me ≡ (token.old.me.0, (0, None) ∷ []) }
    {
        let full = self.table.shared.exchange(token, 0, None);
        let Some(value) = full else { unreachable!() };
        value
    }

    /// Puts the value into the slot.
    pub(crate) fn put_back(&self, token: &mut Token<T, T::Entry>, value: T)
        requires own { token.old.table_id ≡ name_of self.now }
        requires empty { token.old.me.1 ≡ (0, None) ∷ [] }
        ensures own { token.new.table_id ≡ token.old.table_id }
        ensures full { token.new.me ≡ (token.old.me.0, (0, Some value) ∷ []) }
    {
        let empty = self.table.shared.exchange(token, 0, Some(value));
        let None = empty else { unreachable!() };
    }

    /// Counts the entry that the value has more than the seat has seen. The call picks the value's entries.
    pub(crate) fn count_entry<B: Entered<T::Entry>>(
        &self,
        token: &mut Token<T, T::Entry>,
        _value: &T,
    )
        requires picked { T.list _value.now ≡ B.entries }
        requires own { token.old.table_id ≡ name_of self.now }
        requires holds { (x : T) × (t : ℕ) × (token.old.me.0.stage ≡ Holds t x) }
        requires one_more { HasOneMore T.Kept token.old.me.0.past B.entries }
        ensures own { token.new.table_id ≡ token.old.table_id }
        ensures seen { Learns token.old.me (grown token.old.me.0.past B.entries) token.new.me }
    {
        self.table.shared.fetch_add::<Enter<B>>(token, 2, 1);
    }

    /// Raises the number of entries that are shown.
    pub(crate) fn raise_shown(&self, token: &mut Token<T, T::Entry>, shown: u64)
        requires own { token.old.table_id ≡ name_of self.now }
        requires holds { (x : T) × (t : ℕ) × (token.old.me.0.stage ≡ Holds t x) }
        requires above { token.old.me.0.past.shown ≤ shown }
        requires below { shown ≤ length token.old.me.0.past.seen }
        ensures own { token.new.table_id ≡ token.old.table_id }
        ensures shown { Learns token.old.me (shown_at token.old.me.0.past shown) token.new.me }
    {
        self.table.shared.fetch_max::<Show>(token, 3, shown);
    }

    /// Looks at the number of entries that are shown.
    pub(crate) fn look_at_shown(&self, token: &mut Token<T, T::Entry>) -> u64
        requires own { token.old.table_id ≡ name_of self.now }
        requires rests { is_at_rest token.old.me.0.stage ≡ true }
        ensures own { token.new.table_id ≡ token.old.table_id }
        ensures spied { spied token.old.me result token.new.me }
    {
        self.table.shared.load::<Spy>(token, 3)
    }

    /// Serves the next ticket, whose seat finds the value in the slot.
    pub(crate) fn serve_next(&self, token: &mut Token<T, T::Entry>)
        requires own { token.old.table_id ≡ name_of self.now }
        requires ready { (x : T) × (y : T) × MayLeave T.Kept token.old.me x y }
        ensures own { token.new.table_id ≡ token.old.table_id }
        ensures left { HasLeft T.Kept token.old.me token.new.me }
    {
        self.table.shared.fetch_add::<Pass>(token, 1, 1);
    }

    /// Gives the next number to a new seat.
    pub(crate) fn split_off(&self, token: &mut Token<T, T::Entry>) -> Token<T, T::Entry>
        requires own { token.old.table_id ≡ name_of self.now }
        requires rests { is_at_rest token.old.me.0.stage ≡ true }
        requires first { token.old.me.0.past.number ≡ 0 }
        requires room { token.old.me.0.past.given < 16 }
        ensures own { token.new.table_id ≡ token.old.table_id }
        ensures new_own { result.table_id ≡ token.old.table_id }
        ensures left { token.new.me ≡ (split_left token.old.me.0, token.old.me.1) }
        ensures right { result.me ≡ (split_right token.old.me.0, []) }
    {
        self.table.shared.split_seat::<Cut>(token)
    }

    /// Takes in what another seat knows, which is then no more.
    pub(crate) fn take_in(&self, token: &mut Token<T, T::Entry>, other: Token<T, T::Entry>)
        requires own { (token.old.table_id ≡ name_of self.now)
            × (other.table_id ≡ name_of self.now) }
        requires idle { token.old.me.0.stage ≡ Idle }
        requires other_idle { (other.me.0.stage ≡ Idle) × (other.me.1 ≡ []) }
        ensures own { token.new.table_id ≡ token.old.table_id }
        ensures both { token.new.me ≡ (join_both token.old.me.0 other.me.0, token.old.me.1) }
    {
        self.table.shared.join_seat::<Gather>(token, other);
    }
}
