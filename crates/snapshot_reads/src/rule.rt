//! The rule of those who publish and view.

ghost use Rattle.snapshot_reads.specs.Rules.{Holds, Sees, Shows, told_right, told_both, nobody};

use crate::book::{Law, Pair};
use crate::shown::Shown;
use atomic_table::{Join, Split};
use crossbeam_utils::rule::{Outcome, Protocol};
use logbook::Seen;
use std::collections::LinkedList;

/// What one of them knows. No value of it is made.
pub struct Knows {
    /// A front that was published. No later one is below it.
    pub reached: u64,
    /// The history, once it was met.
    pub of: LinkedList<Seen<Pair, (), Law>>,
    /// The pairs that this viewer found published, in order.
    pub entered: LinkedList<Pair>,
}

/// The rule: what is published stands in its history, no front goes down, and all know one history.
pub struct Published;

impl Protocol<Shown, Knows> for Published {
    ghost holds = { Holds };

    ghost first = { nobody };
}

// A viewer's entry.
pub(crate) struct Reads;

impl Outcome<Shown, Knows> for Reads {
    ghost then = { Sees };
}

// The publisher's swap.
pub(crate) struct Swaps;

impl Outcome<Shown, Knows> for Swaps {
    ghost then = { Shows };
}

// What the publisher tells a new viewer: which history it is.
pub(crate) struct Notes;

impl Split<Knows> for Notes {
    ghost left = { λ v. v };

    ghost right = { told_right };
}

impl Join<Knows> for Notes {
    ghost both = { told_both };

    ghost spent = { nobody };
}
