//! What is published.

ghost use Rattle.std.specs.Prelude.{◌≡◌, IfOk};

use crate::book::{Law, Pair};
use crate::snapshot::Snapshot;
use left_right::Absorb;
use logbook::Seen;
use std::alloc::AllocError;

/// A pair that is published, with the history as it then was.
#[derive(Drop)]
pub struct Shown {
    pub front: u64,
    pub snapshot: Snapshot,
    pub seen: Seen<Pair, (), Law>,
}

impl Shown {
    /// The same. It takes no memory: it is refused only where the count of those that share the features is full.
    pub(crate) fn again(&self) -> Result<Shown, AllocError>
        ensures { IfOk result (λ x. x ≡ self.now) }
    {
        Ok(Shown {
            front: self.front,
            snapshot: self.snapshot.again()?,
            seen: self.seen.again(),
        })
    }
}

/// An operation on what is published is what takes its place. The features themselves are shared, so it takes no memory.
impl Absorb<Shown> for Shown {
    type State = Shown;

    ghost state = { λ x. x };

    ghost applied = { λ x y. y };

    fn absorb_first(&mut self, operation: &Shown, _other: &Shown) -> Result<(), AllocError> {
        *self = operation.again()?;
        Ok(())
    }

    fn absorb_second(&mut self, operation: Shown, _other: &Shown) -> Result<(), Shown> {
        *self = operation;
        Ok(())
    }
}
