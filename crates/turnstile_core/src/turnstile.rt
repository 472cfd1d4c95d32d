//! The turnstile: a value, and the words that threads take their turns by.
ghost use Rattle.std.specs.Prelude.{◌≡◌};

use crate::gate::Gate;
use crate::kept::Kept;
use crate::view::{InTurns, View};
use atomic_table::Table;
use std::alloc::Global;
use std::snapshot::Snapshot;

/// A value that threads take in turns.
///
/// Word 0 is the next ticket, word 1 the ticket that is served, word 2 the number of entries and word 3 how many of
/// them are shown. The one slot has the value while nobody holds the turn.
pub struct Turnstile<T: Kept> {
    pub(crate) table: Table<Option<T>, View<T, T::Entry>, Snapshot<T>, InTurns<T>, Global>,
    pub(crate) gate: Gate,
    ghost sized: { (table.shared.table_id.words ≡ 4) × (table.shared.table_id.slots ≡ 1) },
}
