//! The pairs that the publisher was given, as a history that only grows. It exists in the proofs alone, beside one word.

ghost use Rattle.std.specs.Prelude.{◌≡◌, ◌<◌, ◌+◌, ◌++◌, ◌∷◌, [], length};
ghost use mathlib.Core.List.{IsPrefix};
ghost use Rattle.snapshot_reads.specs.Content.{content_of};
ghost use Rattle.snapshot_reads.specs.Pairs.{pair, head_of, schema_in};

use crate::snapshot::Snapshot;
use feature_versions::Features;
use logbook::{Gain, Offer, Opening, Plain, Play, Rule, Seen, Start, Word};
use std::sync::Wait;

/// A front, and what outlives the process there. No value of it is made.
pub struct Pair {
    pub front: u64,
    pub content: Snapshot,
}

/// What a step is asked to add.
#[derive(Clone, Copy)]
pub(crate) struct Asked<'a> {
    front: u64,
    features: &'a Features,
}

/// The rule of the history: its word is the place of the last pair, and all pairs are of one schema.
pub struct Law;

impl Rule<Pair, ()> for Law {
    ghost use Rattle.std.specs.Prelude.{[]};
    ghost use base.Fml.{ftrue};
    ghost use Rattle.snapshot_reads.specs.Pairs.{IsHistory};

    ghost holds = { λ cells log. IsHistory cells log };

    ghost first = { [] };

    ghost hinted = { λ n log. Unit {0} };

    ghost shows = { λ log. [] };

    ghost keeps = { λ names log. ftrue };

    ghost moves = { λ ask before after answer. Unit {0} };
}

// Nothing is traded.
pub(crate) struct Nothing;

impl Gain<Pair, ()> for Nothing {
    ghost use base.Fml.{ftrue};

    ghost after = { λ names about answer. ftrue };
}

// A step that adds a pair.
pub(crate) struct Adding;

impl Play<Pair, ()> for Adding {
    ghost use Rattle.snapshot_reads.specs.Pairs.{Adds};

    ghost then = { Adds };
}

impl<'a> Plain<Asked<'a>, Pair, ()> for Adding {
    ghost use Rattle.std.specs.Prelude.{None};
    ghost use Rattle.snapshot_reads.specs.Content.{content_of};
    ghost use Rattle.snapshot_reads.specs.Pairs.{pair};

    ghost ask = { λ a. pair a.front (content_of a.features.now) };

    ghost state = { λ a. None };
}

impl<'a> Opening<Asked<'a>, Pair> for Adding {
    ghost use Rattle.std.specs.Prelude.{[], ◌∷◌};
    ghost use Rattle.snapshot_reads.specs.Content.{content_of};
    ghost use Rattle.snapshot_reads.specs.Pairs.{pair};

    ghost log = { λ n a. pair a.front (content_of a.features.now) ∷ [] };
}

// A step that looks.
pub(crate) struct Looking;

impl Play<Pair, ()> for Looking {
    ghost use Rattle.snapshot_reads.specs.Pairs.{Looks};

    ghost then = { Looks };
}

impl Plain<u64, Pair, ()> for Looking {
    ghost use Rattle.std.specs.Prelude.{None};
    ghost use Rattle.snapshot_reads.specs.Content.{no_content};
    ghost use Rattle.snapshot_reads.specs.Pairs.{pair};

    ghost ask = { λ n. pair n no_content };

    ghost state = { λ n. None };
}

/// Makes the history of one pair.
pub(crate) fn open(features: &Features) -> (Word<Pair, (), Law>, Seen<Pair, (), Law>)
    ensures head { result.0 ≡ head_of result.1.book }
    ensures log { result.1.log ≡ pair 0 (content_of features.now) ∷ [] }
    ensures names { result.1.names ≡ [] }
{
    // it is kept well
    let _schema = features.schema();
    let first = Asked { front: 0, features };
    let (seen, mut pens) = Seen::open_row::<Asked, Adding>(&first, Start::alone(), 1);
    let mut pen = pens.take();
    (Word::tracked(0, &mut pen), seen)
}

/// Adds a pair. Nobody else adds, so the exchange finds what it expects. No clause of the history says so; were it otherwise, this would not return.
pub(crate) fn add<R: Wait>(
    rt: &R,
    head: &Word<Pair, (), Law>,
    seen: &mut Seen<Pair, (), Law>,
    front: u64,
    features: &Features,
)
    requires book { head.now ≡ head_of seen.old.book }
    requires names { seen.old.names ≡ [] }
    requires next { length seen.old.log ≡ front }
    requires some { 0 < front }
    requires schema { features.now.schema ≡ schema_in seen.old.log }
    ensures book { seen.new.book ≡ seen.old.book }
    ensures names { seen.new.names ≡ [] }
    ensures log { seen.new.log ≡ seen.old.log ++ pair front (content_of features.now) ∷ [] }
{
    // it is kept well
    let _schema = features.schema();
    let asked = Asked { front, features };
    let mut offer: Offer<Pair, (), Law, Nothing> = seen.plain::<Nothing, Asked, Adding>(&asked);
    let mut pen = seen.no_pen();
    let found = head.compare_exchange::<Adding, Nothing>(
        front - 1,
        front,
        seen,
        &mut offer,
        &mut pen,
    );
    if found != front - 1 {
        for _ in rt.forever() {}
        unreachable!()
    }
}

/// Sees the whole history, whose last front is this one. Were it another, this would not return.
pub(crate) fn see_all<R: Wait>(
    rt: &R,
    head: &Word<Pair, (), Law>,
    seen: &mut Seen<Pair, (), Law>,
    last: u64,
)
    requires book { head.now ≡ head_of seen.old.book }
    ensures book { seen.new.book ≡ seen.old.book }
    ensures more { IsPrefix seen.old.log seen.new.log }
    ensures all { length seen.new.log ≡ last + 1 }
{
    let mut offer: Offer<Pair, (), Law, Nothing> = seen.plain::<Nothing, u64, Looking>(&last);
    let found = head.load::<Looking, Nothing>(seen, &mut offer);
    if found != last {
        for _ in rt.forever() {}
        unreachable!()
    }
}
