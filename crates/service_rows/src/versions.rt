//! Changes accepted and refused, and what is kept after some. What is expected was worked out by hand from the rules of the journal.

ghost use Rattle.wfs_model.specs.Playable.{AreQueriesOf};

use feature_values::{Feature, Rid, Value};
use feature_versions::Features;
use fes_filter::FeatureView;
use marks::{area, change, schema};
use std::alloc::Global;
use wfs_ends::Mem;
use wfs_model::Change;

mod marks;

/// A type, a number, a label and two places.
pub type Row = (
    u32,
    u64,
    &'static str,
    Option<(i64, i64)>,
    Option<(i64, i64)>,
);

/// What a change does: it opens, puts features or removes them, makes stored queries with their parameters, drops one, or begins a checkpoint.
pub enum Done {
    Opens(u64),
    Lays(&'static [Lay]),
    Makes(&'static [(&'static str, &'static [&'static str])]),
    Drops(&'static str),
    Begins(u64, &'static [u64]),
}

/// What a part does: it puts a mark at the origin, or another feature, or removes one.
pub enum Lay {
    Mark(u64),
    Other(Row),
    Gone(u32, u64),
}

const BUILT_IN: &str = "urn:ogc:def:query:OGC-WFS::GetFeatureById";

// ---- which changes are accepted

/// What was played before.
static BEFORE: [Done; 3] = [
    Done::Opens(1),
    Done::Lays(&[
        Lay::Mark(1),
        Lay::Mark(2),
        Lay::Other((1, 7, "", None, None)),
    ]),
    Done::Makes(&[("urn:q", &["a"])]),
];

static JUDGED: [(Done, bool); 31] = [
    (Done::Opens(2), true),
    (Done::Opens(1), false),
    (Done::Opens(3), false),
    (Done::Opens(0), false),
    (Done::Lays(&[]), true),
    (Done::Lays(&[Lay::Mark(5)]), true),
    (Done::Lays(&[Lay::Mark(1)]), true),
    (Done::Lays(&[Lay::Mark(0)]), false),
    (Done::Lays(&[Lay::Mark(1_000_000_000_000)]), true),
    (Done::Lays(&[Lay::Mark(1_000_000_000_001)]), false),
    // no such type, and a label of 11 characters
    (Done::Lays(&[Lay::Other((2, 1, "", None, None))]), false),
    (
        Done::Lays(&[Lay::Other((1, 1, "12345678901", None, None))]),
        false,
    ),
    (
        Done::Lays(&[Lay::Other((1, 1, "1234567890", None, None))]),
        true,
    ),
    (Done::Lays(&[Lay::Gone(0, 1)]), true),
    (Done::Lays(&[Lay::Gone(0, 3)]), false),
    (Done::Lays(&[Lay::Gone(2, 1)]), false),
    // each part on what the earlier ones left
    (Done::Lays(&[Lay::Gone(0, 1), Lay::Gone(0, 1)]), false),
    (
        Done::Lays(&[Lay::Gone(0, 1), Lay::Mark(1), Lay::Gone(0, 1)]),
        true,
    ),
    (Done::Lays(&[Lay::Mark(3), Lay::Gone(0, 3)]), true),
    (Done::Lays(&[Lay::Gone(0, 3), Lay::Mark(3)]), false),
    (Done::Makes(&[("urn:r", &["a", "b"])]), true),
    (Done::Makes(&[("urn:q", &[])]), false),
    (Done::Makes(&[(BUILT_IN, &[])]), false),
    (Done::Makes(&[("urn:r", &[]), ("urn:r", &[])]), false),
    (Done::Makes(&[("urn:r", &["a", ""])]), false),
    (Done::Makes(&[("urn:r", &["name", "b", "NAME"])]), false),
    // of names the case of ASCII letters alone does not count
    (Done::Makes(&[("urn:r", &["é", "É"])]), true),
    (Done::Drops("urn:q"), true),
    (Done::Drops("urn:Q"), false),
    (Done::Drops(BUILT_IN), false),
    (Done::Begins(1, &[2, 7]), false),
];

/// The same where nothing was played.
static FIRST: [(Done, bool); 6] = [
    (Done::Opens(1), true),
    (Done::Opens(2), false),
    (Done::Begins(9, &[3, 1_000_000_000_000]), true),
    (Done::Begins(9, &[3, 1_000_000_000_001]), false),
    (Done::Begins(9, &[3]), false),
    (Done::Begins(9, &[3, 0, 0]), false),
];

/// Behind each of these alone no checkpoint begins: an opening, a number that was given, and a stored query.
static ALONE: [Done; 3] = [
    Done::Opens(1),
    Done::Begins(0, &[0, 1]),
    Done::Makes(&[("urn:q", &[])]),
];

// Plays a change where it may be played.
fn play(alloc: Global, features: &mut Features, change: Change) -> Mem<bool>
    requires { AreQueriesOf features.old.schema change }
{
    if !features.accepts(alloc, &change)? {
        return Ok(false);
    }
    features.reserve(&change)?;
    features.apply(change);
    Ok(true)
}

// Whether all may be played, one after the other.
fn play_all(alloc: Global, features: &mut Features, all: &[Done]) -> Mem<bool> {
    for done in all {
        if !play(alloc, features, change(alloc, done)?)? {
            return Ok(false);
        }
    }
    Ok(true)
}

fn judged_wrong(alloc: Global, features: &Features, rows: &[(Done, bool)]) -> Mem<Option<usize>> {
    for (i, (done, may)) in rows.iter().enumerate() {
        let change = change(alloc, done)?;
        if features.accepts(alloc, &change)? != *may {
            return Ok(Some(i));
        }
    }
    Ok(None)
}

fn empty(alloc: Global) -> Mem<Features> {
    let schema = schema(alloc)?;
    Features::new(alloc, &schema)
}

// What is kept after these changes.
fn after(alloc: Global, all: &[Done]) -> Mem<Features> {
    let mut features = empty(alloc)?;
    let _all = play_all(alloc, &mut features, all)?;
    Ok(features)
}

// The first row that is judged otherwise, where nothing was played.
fn first_wrong(alloc: Global) -> Mem<Option<usize>> {
    let features = empty(alloc)?;
    judged_wrong(alloc, &features, &FIRST)
}

// The first row that is judged otherwise behind what was played.
fn later_wrong(alloc: Global) -> Mem<Option<usize>> {
    let features = after(alloc, &BEFORE)?;
    judged_wrong(alloc, &features, &JUDGED)
}

// Whether a checkpoint may begin behind a change.
fn begins_behind(alloc: Global, done: &Done) -> Mem<bool> {
    let mut features = empty(alloc)?;
    let _played = play(alloc, &mut features, change(alloc, done)?)?;
    features.accepts(alloc, &change(alloc, &Done::Begins(1, &[2, 7]))?)
}

// The first change behind which a checkpoint begins.
fn begun_behind(alloc: Global) -> Mem<Option<usize>> {
    for (i, done) in ALONE.iter().enumerate() {
        if begins_behind(alloc, done)? {
            return Ok(Some(i));
        }
    }
    Ok(None)
}

#[test]
fn changes_are_judged(rt: HostRuntime) {
    assert_eq!(rt; first_wrong(rt.alloc()), Ok(None));
    assert_eq!(rt; begun_behind(rt.alloc()), Ok(None));
    assert_eq!(rt; later_wrong(rt.alloc()), Ok(None));
}

// ---- what is kept

static PLAYED: [Done; 6] = [
    Done::Begins(4, &[9, 2]),
    Done::Lays(&[
        Lay::Other((0, 1, "A", Some((0, 0)), Some((1, 1)))),
        Lay::Other((0, 2, "B", Some((300_000, 0)), None)),
        Lay::Other((0, 3, "C", Some((200_000, 0)), Some((3, 3)))),
        Lay::Other((0, 4, "D", None, None)),
        Lay::Other((0, 12, "E", Some((0, 0)), Some((0, 0)))),
        Lay::Other((1, 2, "J", None, None)),
        Lay::Other((1, 5, "F", Some((0, 0)), None)),
    ]),
    Done::Opens(5),
    Done::Makes(&[("urn:q", &["a"]), ("urn:r", &[])]),
    Done::Drops("urn:q"),
    Done::Lays(&[
        Lay::Gone(0, 12),
        Lay::Other((0, 4, "G", None, Some((-5, -5)))),
        Lay::Gone(0, 4),
        Lay::Other((0, 3, "H", Some((200_000, 0)), Some((4, 4)))),
        Lay::Other((0, 2, "I", Some((70_000, 0)), None)),
        Lay::Gone(1, 2),
        Lay::Other((1, 5, "K", Some((0, 0)), None)),
    ]),
];

/// Which features are near a box.
static NEAR: [(u32, [i64; 4], &[u64]); 7] = [
    (0, [5, 5, 6, 6], &[1, 3]),
    (0, [70_000, 0, 70_000, 0], &[2]),
    (0, [300_000, 0, 300_000, 0], &[]),
    (0, [-9, -9, -1, -1], &[]),
    (
        0,
        [-1_000_000_000, -1_000_000_000, 1_000_000_000, 1_000_000_000],
        &[1, 2, 3],
    ),
    (1, [5, 5, 6, 6], &[5]),
    (2, [5, 5, 6, 6], &[]),
];

/// Each with the label that it was put with last, in the same place or another.
static WALKED: [(Rid, &str); 4] = [
    (Rid { kind: 0, number: 1 }, "A"),
    (Rid { kind: 0, number: 2 }, "I"),
    (Rid { kind: 0, number: 3 }, "H"),
    (Rid { kind: 1, number: 5 }, "K"),
];

/// What comes next behind identifiers whose features are gone or never were.
static BEHIND: [(Rid, Option<Rid>); 5] = [
    (Rid { kind: 0, number: 0 }, Some(Rid { kind: 0, number: 1 })),
    (Rid { kind: 0, number: 4 }, Some(Rid { kind: 1, number: 5 })),
    (Rid { kind: 1, number: 2 }, Some(Rid { kind: 1, number: 5 })),
    (Rid { kind: 1, number: 6 }, None),
    (Rid { kind: 2, number: 1 }, None),
];

fn is_among(ids: &[Rid], kind: u32, number: u64) -> bool {
    for id in ids {
        if id.kind == kind && id.number == number {
            return true;
        }
    }
    false
}

fn are_just(ids: &[Rid], kind: u32, numbers: &[u64]) -> bool {
    for number in numbers {
        if !is_among(ids, kind, *number) {
            return false;
        }
    }
    ids.len() == numbers.len()
}

// Whether just these features of a type are near a box.
fn near_is(
    alloc: Global,
    features: &Features,
    kind: u32,
    corners: &[i64; 4],
    numbers: &[u64],
) -> Mem<bool> {
    let area = area(corners)?;
    let ids = features.near(alloc, kind, &area)?;
    Ok(are_just(ids.items(), kind, numbers))
}

fn near_wrong(alloc: Global, features: &Features) -> Mem<Option<usize>> {
    for (i, (kind, corners, numbers)) in NEAR.iter().enumerate() {
        if !near_is(alloc, features, *kind, corners, numbers)? {
            return Ok(Some(i));
        }
    }
    Ok(None)
}

fn is_labelled(feature: &Feature, label: &str) -> bool {
    match feature.items().first() {
        Some(Value::Words(words)) => words.as_str() == label,
        _ => false,
    }
}

fn is_found(found: Option<&Feature>, id: Rid, label: &str) -> bool {
    match found {
        Some(feature) => feature.id == id && is_labelled(feature, label),
        None => false,
    }
}

// Whether a walk gives just these features.
fn walks(features: &Features) -> bool {
    let mut after = None;
    let mut place = 0;
    for (id, label) in WALKED.iter() {
        if !is_found(features.walk(after, &mut place), *id, label) {
            return false;
        }
        after = Some(*id);
    }
    features.walk(after, &mut place).is_none()
}

fn finds(features: &Features) -> bool {
    for (id, label) in WALKED.iter() {
        if !is_found(features.get(*id), *id, label) {
            return false;
        }
    }
    true
}

fn is_next(found: Option<&Feature>, next: Option<Rid>) -> bool {
    match (found, next) {
        (Some(feature), Some(id)) => feature.id == id,
        (None, None) => true,
        _ => false,
    }
}

// Whether nothing is found under these identifiers, and what is behind them.
fn goes_on(features: &Features) -> bool {
    for (id, next) in BEHIND.iter() {
        let mut place = 0;
        if features.get(*id).is_some()
            || !is_next(features.next(Some(*id)), *next)
            || !is_next(features.walk(Some(*id), &mut place), *next)
        {
            return false;
        }
    }
    true
}

fn counts(features: &Features) -> bool {
    features.count() == 4
        && features.counter(0) == 12
        && features.counter(1) == 5
        && features.counter(2) == 0
}

fn tells(features: &Features) -> bool {
    features.openings() == 5
        && features.counters().items().len() == 2
        && features.schema().types.items().len() == 2
        && features.stored().list().len() == 1
}

// What is wrong: the first box, the walk, the look-ups, what is behind others, the counts, or what else is told.
fn wrong(alloc: Global, features: &Features) -> Mem<(Option<usize>, [bool; 5])> {
    let near = near_wrong(alloc, features)?;
    let rest = [
        walks(features),
        finds(features),
        goes_on(features),
        counts(features),
        tells(features),
    ];
    Ok((near, rest))
}

fn filled_wrong(alloc: Global) -> Mem<(Option<usize>, [bool; 5])> {
    let features = after(alloc, &PLAYED)?;
    wrong(alloc, &features)
}

fn copied(alloc: Global) -> Mem<Features> {
    let features = after(alloc, &PLAYED)?;
    features.copy(alloc)
}

fn copied_wrong(alloc: Global) -> Mem<(Option<usize>, [bool; 5])> {
    let copy = copied(alloc)?;
    wrong(alloc, &copy)
}

#[test]
fn what_is_kept_is_found(rt: HostRuntime) {
    assert_eq!(rt; filled_wrong(rt.alloc()), Ok((None, [true; 5])));
}

#[test]
fn what_is_copied_is_found(rt: HostRuntime) {
    assert_eq!(rt; copied_wrong(rt.alloc()), Ok((None, [true; 5])));
}
