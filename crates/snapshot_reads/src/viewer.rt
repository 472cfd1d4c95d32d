//! Those who view what is published.

ghost use Rattle.std.specs.Prelude.{◌≢◌, ◌<◌, None, All, length};
ghost use Rattle.std.specs.Option.{ForSome};
ghost use Rattle.left_right.specs.Sides.{view};
ghost use Rattle.snapshot_reads.specs.Pairs.{Stands};
ghost use Rattle.snapshot_reads.specs.Whole.{KnowsOf};

use crate::book::{Law, Pair};
use crate::rule::{Knows, Published};
use crate::shown::Shown;
use left_right::reader::Reader;
use logbook::Seen;
use wfs_model::Reply;

mod reading;

/// One who reads what is published.
#[derive(Drop)]
pub struct Viewer {
    reader: Option<Reader<Shown, Knows, Published>>,
    pub seen: Seen<Pair, (), Law>,
    /// The greatest front that it was told.
    pub told: u64,
    ghost there: { reader ≢ None },
    ghost some: { 0 < length seen.log },
    ghost of: { ForSome reader (λ r. KnowsOf (view r.place) seen.book) },
    ghost entered: { ForSome reader (λ r. All (Stands seen.log) (view r.place).entered) },
}

/// What a read gives.
#[derive(Debug, PartialEq, Eq, Drop)]
pub enum Viewed {
    /// The answer, from the pair of this front.
    Answer(Reply, u64),
    /// What is published has this front, and a greater one was told.
    Behind(u64),
    /// Nothing was found: the publisher was ended.
    Gone,
}
