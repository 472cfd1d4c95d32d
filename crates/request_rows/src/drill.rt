//! Rounds of drills of three and of four, by numbers worked out by hand, and what a round asks for.

use drill_requests::{moved, requests_of, round_at};
use feature_schema::read_schema;
use feature_values::{Feature, Value};
use fes_filter::Filter;
use geom_core::{Geometry, Pos};
use std::alloc::Global;
use std::test::Fail;
use wfs_ends::Mem;
use wfs_model::{Action, Asked, Request, Take};

fn seed_after(first: u32, rounds: u32) -> u32 {
    let mut seed = first;
    for _ in 0..rounds {
        seed = moved(moved(seed));
    }
    seed
}

fn is_there(number: u32, first: u32, x: u32, y: u32) -> bool {
    let round = round_at(number, seed_after(first, number), 3);
    round.kind == number % 3 && round.x == x && round.y == y
}

#[test]
fn first_draws_of_a_drill_of_three(rt: HostRuntime) {
    assert!(rt; is_there(0, 3, 4_485, 337_485));
}

// It takes the second type.
#[test]
fn second_round_of_a_drill_of_three(rt: HostRuntime) {
    assert!(rt; is_there(1, 3, 736_110, 158_280));
}

#[test]
fn last_round_of_a_drill_of_four(rt: HostRuntime) {
    assert!(rt; is_there(3, 4, 9_330, 700_860));
}

const MARKS: &[u8] =
    b"title = 'Marks'\naddress = 'http://localhost:8080/wfs'\nnamespace = 'http://example.org/marks'\nprefix = 'm'\nsrs = ['EPSG:25832']\n[[type]]\nname = 'Mark'\nproperty = [{ name = 'place', kind = 'point' }]\n[[type]]\nname = 'Each'\nproperty = [{ name = 'a', kind = 'text' }, { name = 'b', kind = 'integer' }, { name = 'c', kind = 'boolean' }, { name = 'd', kind = 'point' }, { name = 'e', kind = 'line' }, { name = 'f', kind = 'polygon' }]\n";

// The requests of a round of a drill whose first number is 3, over marks and a type with a property of each kind.
fn requests_in(alloc: Global, number: u32) -> Mem<Option<Vec<Request>>> {
    let Ok(schema) = read_schema(alloc, MARKS) else {
        return Ok(None);
    };
    let round = round_at(number, seed_after(3, number), 2);
    if (round.kind as usize) < schema.types.items().len() {
        Ok(Some(requests_of(alloc, &schema, round)?))
    } else {
        Ok(None)
    }
}

// What a request does: it inserts, deletes, locks those that are free for a second, or counts.
fn letter_of(request: &Request) -> char {
    match request {
        Request::Transact { actions, .. } => match actions.items() {
            [Action::Insert { .. }] => 'i',
            [Action::Delete { .. }] => 'd',
            _ => '?',
        },
        Request::Lock {
            take: Take::Free,
            period: 1,
            ..
        } => 'l',
        Request::GetFeatures(present, _) if present.hits => 'c',
        _ => '?',
    }
}

fn are(requests: &[Request], letters: &[char]) -> bool {
    requests.len() == letters.len()
        && requests
            .iter()
            .zip(letters.iter())
            .all(|(request, letter)| letter_of(request) == *letter)
}

// In each fourth round, and in no other, the features in the square are deleted.
#[test]
fn each_fourth_round_deletes(rt: HostRuntime) -> Result<(), Fail> {
    for (number, letters) in [
        (0, &['i', 'l', 'c'] as &[char]),
        (2, &['i', 'l', 'c']),
        (3, &['i', 'l', 'c', 'd']),
        (4, &['i', 'l', 'c']),
        (7, &['i', 'l', 'c', 'd']),
    ] {
        let asked = requests_in(rt.alloc(), number)?;
        assert!(rt; asked.is_some_and(|it| are(&it, letters)), "round {number}");
    }
    Ok(())
}

// The low and the high corner of a box.
type Corners = ((i32, i32), (i32, i32));

fn corners_in(filter: &Filter) -> Option<Corners> {
    match filter {
        Filter::InBox {
            property: None,
            area,
        } => Some(((area.low.x, area.low.y), (area.high.x, area.high.y))),
        _ => None,
    }
}

fn corners_of(asked: &[Asked]) -> Option<Corners> {
    match asked {
        [Asked::Plain(query)] => corners_in(query.filter.as_ref()?),
        _ => None,
    }
}

// The boxes in which features are locked and counted.
fn boxes_of(requests: &[Request]) -> Option<(Corners, Corners)> {
    match requests {
        [
            _,
            Request::Lock { asked, .. },
            Request::GetFeatures(_, counted),
        ] => { Some((corners_of(asked.items())?, corners_of(counted.items())?)) }
        _ => None,
    }
}

// The first round is at 4,485 and 337,485: its square has sides of 10, and its surroundings reach 50,000 beyond it.
#[test]
fn boxes_of_the_first_round(rt: HostRuntime) -> Result<(), Fail> {
    let asked = requests_in(rt.alloc(), 0)?;
    let boxes = asked.and_then(|it| boxes_of(&it));
    let square = ((4_485, 337_485), (4_495, 337_495));
    let surroundings = ((-45_515, 287_485), (54_495, 387_495));
    assert!(rt; boxes == Some((square, surroundings)));
    Ok(())
}

// The type of which features are deleted, and the box in which they are.
fn deleted_in(requests: &[Request]) -> Option<(u32, Corners)> {
    match requests {
        [_, _, _, Request::Transact { actions, .. }] => match actions.items() {
            [Action::Delete { kind, filter }] => Some((*kind, corners_in(filter)?)),
            _ => None,
        },
        _ => None,
    }
}

// The fourth round takes the second of two types again, at 793,905 and 560,685.
#[test]
fn the_fourth_round_deletes_in_its_square(rt: HostRuntime) -> Result<(), Fail> {
    let asked = requests_in(rt.alloc(), 3)?;
    let deleted = asked.and_then(|it| deleted_in(&it));
    let square = ((793_905, 560_685), (793_915, 560_695));
    assert!(rt; deleted == Some((1, square)));
    Ok(())
}

fn are_at(positions: &[Pos], places: &[(i32, i32)]) -> bool {
    positions.len() == places.len()
        && positions
            .iter()
            .zip(places.iter())
            .all(|(position, place)| (position.x, position.y) == *place)
}

// The second round is at 736,110 and 158,280.
static LINE: [(i32, i32); 2] = [(736_110, 158_280), (736_120, 158_290)];

static SHELL: [(i32, i32); 5] = [
    (736_110, 158_280),
    (736_120, 158_280),
    (736_120, 158_290),
    (736_110, 158_290),
    (736_110, 158_280),
];

// Whether a feature is the one of the second round.
fn is_second(feature: &Feature) -> bool {
    match feature.items() {
        [
            Value::Words(words),
            Value::Whole(1),
            Value::Truth(true),
            Value::Shape(Geometry::At(place)),
            Value::Shape(Geometry::Along(line)),
            Value::Shape(Geometry::Over(area)),
        ] => {
            feature.id.kind == 1
                && words.as_str() == "a"
                && (place.x, place.y) == (736_110, 158_280)
                && are_at(line.item().positions(), &LINE)
                && are_at(area.item().shell().positions(), &SHELL)
                && area.item().holes().is_empty()
        }
        _ => false,
    }
}

fn inserts_second(requests: &[Request]) -> bool {
    match requests {
        [Request::Transact { actions, .. }, ..] => match actions.items() {
            [Action::Insert { features, .. }] => match features.items() {
                [feature] => is_second(feature),
                _ => false,
            },
            _ => false,
        },
        _ => false,
    }
}

#[test]
fn a_feature_has_a_value_of_each_kind(rt: HostRuntime) -> Result<(), Fail> {
    let asked = requests_in(rt.alloc(), 1)?;
    assert!(rt; asked.is_some_and(|it| inserts_second(&it)));
    Ok(())
}
