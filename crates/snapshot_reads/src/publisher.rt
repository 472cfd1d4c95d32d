//! The one who publishes.

ghost use Rattle.std.specs.Prelude.{◌≡◌, ◌≢◌, ◌+◌, [], None, length, drop};
ghost use Rattle.std.specs.Coded.{codes};
ghost use Rattle.std.specs.Option.{ForSome};
ghost use Rattle.fes_filter.specs.contracts.filter.Filter as filter_row;
ghost use Rattle.left_right.specs.Sides.{view};
ghost use Rattle.snapshot_reads.specs.Pairs.{head_of};
ghost use Rattle.snapshot_reads.specs.Whole.{Sound, content_of_other};

use crate::book::{Law, Pair};
use crate::other::Other;
use crate::rule::{Knows, Published};
use crate::shown::Shown;
use left_right::writer::Writer;
use logbook::{Seen, Word};
use std::alloc::Global;

mod publishing;

/// It publishes pairs of a front and the features there. It is not `Drop`: end it by `end`.
pub struct Publisher {
    writer: Option<Writer<Shown, Shown, Knows, Published>>,
    head: Word<Pair, (), Law>,
    pub seen: Seen<Pair, (), Law>,
    /// The front that was given last.
    given: u64,
    /// The second copy of what is published, which may lack the last change. There is none where the publisher is behind.
    other: Option<Other>,
    alloc: Global,
    ghost there: { writer ≢ None },
    ghost head_is: { head ≡ head_of seen.book },
    ghost names: { seen.names ≡ [] },
    ghost long: { length seen.log ≡ given + 1 },
    ghost sound: { ForSome writer (λ w. Sound seen.log seen.book w.desk.shown.value
        (drop w.behind w.log.items) (view w.desk.place)) },
    ghost alike: { ForSome other (λ o. ForSome writer
        (λ w. content_of_other o ≡ w.desk.shown.value.snapshot)) } by { Prim.hlevel (codes, filter_row.the_row.coded) },
}
