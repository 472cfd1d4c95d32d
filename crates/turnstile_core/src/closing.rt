//! The end of a turnstile: all seats come back, and the value with them.
ghost use Rattle.std.specs.Prelude.{◌≡◌, [], ◌∷◌, ◌++◌, map};
ghost use Rattle.std.specs.List.{All};
ghost use Rattle.turnstile_core.specs.Closing.{AreAllSeats, Ends};
ghost use Rattle.turnstile_core.specs.Seats.{name_of, past, IsFreeAt};
ghost use Rattle.turnstile_core.specs.Steps.{joined_with};
ghost use Rattle.turnstile_core.specs.declared.view.Stage.TheVariants.{Idle};

use crate::kept::Kept;
use crate::seat::{Seat, Token};
use crate::turnstile::Turnstile;

impl<T: Kept> Turnstile<T> {
    /// Takes in what all these seats know.
    fn take_in_all(&self, token: &mut Token<T, T::Entry>, seats: Vec<Seat<T>>)
        requires own { token.old.table_id ≡ name_of self.now }
        requires idle { token.old.me.0.stage ≡ Idle }
        requires seats { All (IsFreeAt (name_of self.now)) seats.items }
        ensures own { token.new.table_id ≡ token.old.table_id }
        ensures all { token.new.me ≡ (
          joined_with token.old.me.0 (map past seats.items),
          token.old.me.1,
        ) }
    {
        let mut others = seats;
        while let Some(other) = others.pop() {
            self.take_in(token, other.token);
        }
    }

    /// The value, once the last seat takes in the others.
    fn close_by(self, last: Seat<T>, others: Vec<Seat<T>>) -> T
        requires last { IsFreeAt (name_of self) last }
        requires others { All (IsFreeAt (name_of self)) others.items }
        requires all { AreAllSeats (map past (others.items ++ last ∷ [])) }
        ensures { Ends T.Kept (map past (others.items ++ last ∷ [])) result }
    {
        let Seat {
            mut token,
            front: _,
        } = last;
        self.take_in_all(&mut token, others);
        let Turnstile { table, gate: _ } = self;
        let mut closed = table.close_with(token);
        let full = closed.take(0);
        closed.free();
        let Some(value) = full else { unreachable!() };
        value
    }

    /// The value, once number 0 and all seats that it gave are back, in any order.
    ///
    /// It has all that each of them knows, no other entries, and it is settled.
    pub fn close(self, seats: Vec<Seat<T>>) -> T
        requires own { All (IsFreeAt (name_of self)) seats.items }
        requires all { AreAllSeats (map past seats.items) }
        ensures { Ends T.Kept (map past seats.items) result }
    {
        let mut others = seats;
        match others.pop() {
            Some(last) => self.close_by(last, others),
            None => unreachable!(),
        }
    }
}
