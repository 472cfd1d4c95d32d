//! The seats of a run are given.

ghost use Rattle.std.specs.Prelude.{◌≡◌, ◌<◌, ◌≤◌, [], All, map, vec_capacity};
ghost use Rattle.store_server.specs.Giving.{fresh_seats};
ghost use Rattle.turnstile_core.specs.Seats.{name_of, past, IsFreeAt};
ghost use Rattle.turnstile_core.specs.Steps.{fresh_past};

use turnstile_core::{Kept, Seat, Turnstile};

/// Gives so many seats, in the order of their numbers: the first one gives all others.
pub(crate) fn give_seats<T: Kept>(
    turnstile: &Turnstile<T>,
    first: Seat<T>,
    many: usize,
    seats: &mut Vec<Seat<T>>,
)
    requires own { IsFreeAt (name_of turnstile.now) first }
    requires fresh { past first ≡ fresh_past (past first).origin }
    requires many { (0 < many) × (many ≤ 16) }
    requires room { (seats.old.items ≡ []) × (many ≤ vec_capacity seats.old) }
    ensures own { All (IsFreeAt (name_of turnstile.now)) seats.new.items }
    ensures fresh { map past seats.new.items ≡ fresh_seats (past first).origin many }
    ensures room { vec_capacity seats.old ≤ vec_capacity seats.new }
{
    let mut first = first;
    while seats.len() + 1 < many {
        let next = turnstile.split(&mut first);
        seats.push(next).unwrap();
    }
    seats.insert(0, first).unwrap();
}
