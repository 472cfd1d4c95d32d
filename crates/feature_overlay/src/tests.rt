//! Changes laid over a few features. What is expected was worked out by hand.
ghost use Rattle.std.specs.Prelude.{◌≡◌};

use super::*;
use feature_values::{Feature, Rid, Schema, Value, fits};
use fes_filter::FeatureView;
use geom_core::Box2;
use std::alloc::Global;
use std::test::Fail;
use wfs_ends::{Mem, OutOfMemory};

mod views;

use views::{ORIGIN, SampleView, marked, sample};

/// The number of a type, and a feature's number within it.
type Place = (u32, u64);

/// A feature that has this mark.
type Mark = (Place, i64);

/// What is done: a feature with a mark is put, or none stands there any more.
type Step = (Place, Option<i64>);

static VIEW: [Mark; 4] = [((0, 2), 2), ((0, 4), 4), ((1, 3), 13), ((2, 1), 21)];

// The steps, what a walk gives then, and where nothing is found.
static CASES: [(&str, &[Step], &[Mark], &[Place]); 10] = [
    (
        "nothing is done",
        &[],
        &[((0, 2), 2), ((0, 4), 4), ((1, 3), 13), ((2, 1), 21)],
        &[(0, 3), (1, 2)],
    ),
    (
        "put before all",
        &[((0, 1), Some(1))],
        &[
            ((0, 1), 1),
            ((0, 2), 2),
            ((0, 4), 4),
            ((1, 3), 13),
            ((2, 1), 21),
        ],
        &[],
    ),
    (
        "put at the end of a type, and between",
        &[((1, 4), Some(14)), ((0, 3), Some(3))],
        &[
            ((0, 2), 2),
            ((0, 3), 3),
            ((0, 4), 4),
            ((1, 3), 13),
            ((1, 4), 14),
            ((2, 1), 21),
        ],
        &[(0, 1)],
    ),
    (
        "put behind all",
        &[((3, 1), Some(31))],
        &[
            ((0, 2), 2),
            ((0, 4), 4),
            ((1, 3), 13),
            ((2, 1), 21),
            ((3, 1), 31),
        ],
        &[],
    ),
    (
        "put in the place of another",
        &[((0, 4), Some(40))],
        &[((0, 2), 2), ((0, 4), 40), ((1, 3), 13), ((2, 1), 21)],
        &[],
    ),
    (
        "the last that is put counts",
        &[
            ((1, 3), Some(1)),
            ((1, 3), None),
            ((1, 3), Some(2)),
            ((1, 3), Some(3)),
        ],
        &[((0, 2), 2), ((0, 4), 4), ((1, 3), 3), ((2, 1), 21)],
        &[],
    ),
    (
        "two of the view removed",
        &[((0, 4), None), ((1, 3), None)],
        &[((0, 2), 2), ((2, 1), 21)],
        &[(0, 4), (1, 3)],
    ),
    (
        "put and removed",
        &[((0, 3), Some(3)), ((0, 3), None)],
        &[((0, 2), 2), ((0, 4), 4), ((1, 3), 13), ((2, 1), 21)],
        &[(0, 3)],
    ),
    (
        "what is not there removed",
        &[((1, 1), None)],
        &[((0, 2), 2), ((0, 4), 4), ((1, 3), 13), ((2, 1), 21)],
        &[(1, 1)],
    ),
    (
        "all removed",
        &[
            ((2, 1), None),
            ((1, 3), None),
            ((0, 4), None),
            ((0, 2), None),
        ],
        &[],
        &[(0, 2), (0, 4), (1, 3), (2, 1)],
    ),
];

fn rid(place: Place) -> Rid {
    let (kind, number) = place;
    Rid { kind, number }
}

/// A mark that does not fit is put as if there were no memory.
fn put(alloc: Global, overlay: &mut Overlay<'_, SampleView>, schema: &Schema, mark: Mark) -> Mem<()>
    requires { overlay.old.view.now.schema ≡ schema.now }
    ensures { overlay.new.view.now.schema ≡ schema.now }
{
    let feature = marked(alloc, mark)?;
    let Ok(()) = fits(schema, &feature) else {
        return Err(OutOfMemory);
    };
    overlay.put(feature)
}

fn step(alloc: Global, overlay: &mut Overlay<'_, SampleView>, schema: &Schema, of: Step) -> Mem<()>
    requires { overlay.old.view.now.schema ≡ schema.now }
    ensures { overlay.new.view.now.schema ≡ schema.now }
{
    let (place, mark) = of;
    match mark {
        Some(mark) => put(alloc, overlay, schema, (place, mark)),
        None => overlay.remove(rid(place)),
    }
}

fn laid<'a>(alloc: Global, view: &'a SampleView, steps: &[Step]) -> Mem<Overlay<'a, SampleView>> {
    let mut overlay = Overlay::over(alloc, view);
    for one in steps {
        step(alloc, &mut overlay, &view.schema, *one)?;
    }
    Ok(overlay)
}

fn has_mark(feature: &Feature, of: Mark) -> bool {
    let (place, mark) = of;
    feature.id == rid(place) && matches!(feature.items(), [Value::Whole(m), ..] if *m == mark)
}

fn is_found(found: Option<&Feature>, of: Mark) -> bool {
    match found {
        Some(feature) => has_mark(feature, of),
        None => false,
    }
}

fn walks(overlay: &Overlay<'_, SampleView>, wanted: &[Mark]) -> bool {
    let mut after = None;
    let mut place = 0;
    for mark in wanted {
        if !is_found(overlay.walk(after, &mut place), *mark) {
            return false;
        }
        after = Some(rid(mark.0));
    }
    overlay.walk(after, &mut place).is_none()
}

fn finds(overlay: &Overlay<'_, SampleView>, wanted: &[Mark]) -> bool {
    wanted
        .iter()
        .all(|mark| is_found(overlay.get(rid(mark.0)), *mark))
}

fn finds_none(overlay: &Overlay<'_, SampleView>, gone: &[Place]) -> bool {
    gone.iter().all(|place| overlay.get(rid(*place)).is_none())
}

#[test]
fn finds_what_was_done(rt: HostRuntime) -> Result<(), Fail> {
    let alloc = rt.alloc();
    let view = sample(alloc, &VIEW)?;
    for case in CASES.iter() {
        let (what, steps, wanted, gone) = *case;
        let overlay = laid(alloc, &view, steps)?;
        assert!(rt; walks(&overlay, wanted), "the walk: {what}");
        assert!(rt; finds(&overlay, wanted), "each: {what}");
        assert!(rt; finds_none(&overlay, gone), "none: {what}");
    }
    Ok(())
}

static STEPS: [Step; 5] = [
    ((0, 2), None),
    ((0, 3), Some(3)),
    ((0, 4), Some(40)),
    ((1, 1), Some(11)),
    ((2, 1), Some(22)),
];

static BEHIND: [(Place, Mark); 6] = [
    ((0, 0), ((0, 3), 3)),
    ((0, 2), ((0, 3), 3)),
    ((0, 3), ((0, 4), 40)),
    ((0, 9), ((1, 1), 11)),
    ((1, 2), ((1, 3), 13)),
    ((1, 9), ((2, 1), 22)),
];

#[test]
fn goes_on_behind_any_place(rt: HostRuntime) -> Result<(), Fail> {
    let alloc = rt.alloc();
    let view = sample(alloc, &VIEW)?;
    let overlay = laid(alloc, &view, &STEPS)?;
    for pair in BEHIND.iter() {
        let (place, mark) = *pair;
        let found = overlay.next(Some(rid(place)));
        assert!(rt; is_found(found, mark), "behind {}", place.1);
    }
    assert!(rt; overlay.next(Some(rid((2, 1)))).is_none(), "the end");
    Ok(())
}

// How often an identifier is given near where all features stand, of the first type. The view below gives those of all types.
static NEAR: [(Place, usize); 6] = [
    ((0, 2), 0),
    ((0, 3), 1),
    ((0, 4), 1),
    ((1, 1), 0),
    ((1, 3), 1),
    ((2, 1), 0),
];

#[test]
fn gives_what_may_be_near(rt: HostRuntime) -> Result<(), Fail> {
    let alloc = rt.alloc();
    let view = sample(alloc, &VIEW)?;
    let overlay = laid(alloc, &view, &STEPS)?;
    let near = overlay.near(alloc, 0, &Box2::at(ORIGIN))?;
    for pair in NEAR.iter() {
        let (place, count) = *pair;
        let times = near.items().iter().filter(|id| **id == rid(place)).count();
        assert!(rt; times == count, "{} times", times);
    }
    Ok(())
}
