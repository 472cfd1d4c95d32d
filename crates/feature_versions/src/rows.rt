//! The rows of one type by rising numbers: where one stands, and how a feature is put and taken out in place.

ghost use Rattle.std.specs.Prelude.{◌≡◌, ◌+◌, ◌<◌, ◌≤◌, true, false, Some, None, IsTrue, length, min, nat_lt, drop, slice_get};
ghost use Rattle.std.specs.List.{AllWithin};
ghost use Rattle.std.specs.Option.{option_copied};
ghost use Rattle.std.specs.Vec.{vec_len, vec_capacity};
ghost use Rattle.fes_filter.specs.View.{feature_at, next_after};
ghost use Rattle.feature_overlay.specs.Laid.{laid};
ghost use Rattle.feature_versions.specs.Rows.{live, IsRising, AreGone, AreRows, has_number, feature_of};

use feature_values::{Feature, Rid};
use std::mem::replace;

/// A number that was used, and the feature under it, where it is not gone.
#[derive(Drop)]
pub(crate) struct Row {
    pub(crate) number: u64,
    pub(crate) feature: Option<Feature>,
}

// Where the row of a number is while no row between the first and it was swept away.
fn expected_place(rows: &[Row], number: u64) -> usize {
    match rows.first() {
        None => 0,
        Some(first) => number.saturating_sub(first.number) as usize,
    }
}

// Whether all rows have lesser numbers, since the last one has.
fn are_lesser(rows: &[Row], number: u64) -> bool
    requires { IsRising rows.now }
    ensures { IsTrue result → AllWithin (λ row. nat_lt row.number number ≡ true) rows.now 0
        (length rows.now) }
{
    match rows.last() {
        None => true,
        Some(last) => last.number < number,
    }
}

// How many rows have lesser numbers. The last row and the expected place are looked at first; else the list is halved.
fn place_of(rows: &[Row], number: u64) -> usize
    requires { IsRising rows.now }
    ensures bound { result ≤ length rows.now }
    ensures low { AllWithin (λ row. nat_lt row.number number ≡ true) rows.now 0 result }
    ensures high { AllWithin (λ row. nat_lt row.number number ≡ false) rows.now result
        (length rows.now) }
{
    if are_lesser(rows, number) {
        return rows.len();
    }
    let expected = expected_place(rows, number);
    if is_at(rows, expected, number) {
        return expected;
    }
    rows.partition_point(|row| row.number < number)
}

// Whether there is a row at a place, and it has a number.
fn is_at(rows: &[Row], place: usize, number: u64) -> bool
    ensures value { result ≡ has_number number (slice_get rows.now place) }
    ensures within { IsTrue result → place < length rows.now }
{
    match rows.get(place) {
        None => false,
        Some(row) => row.number == number,
    }
}

// The feature of the row at a place.
fn feature_of(rows: &[Row], place: usize) -> Option<&Feature>
    ensures { option_copied result ≡ feature_of (slice_get rows.now place) }
{
    match rows.get(place) {
        None => None,
        Some(row) => row.feature.as_ref(),
    }
}

/// The feature with this identifier.
pub(crate) fn feature_in(rows: &[Row], id: Rid) -> Option<&Feature>
    requires { AreRows id.kind rows.now }
    ensures { option_copied result ≡ feature_at id (live rows.now) }
{
    let place = place_of(rows, id.number);
    if is_at(rows, place, id.number) {
        feature_of(rows, place)
    } else {
        None
    }
}

/// The first feature from a place on, and the place behind it.
pub(crate) fn feature_from(rows: &[Row], from: usize) -> (Option<&Feature>, usize)
    ensures { option_copied result.0 ≡ slice_get (live (drop from rows.now)) 0 }
{
    for place in from..rows.len() {
        if let Some(feature) = &rows[place].feature {
            return (Some(feature), place + 1);
        }
    }
    (None, rows.len())
}

// Whether the rows behind an identifier begin at a place, since the row before it has the identifier's number.
fn is_behind(rows: &[Row], place: usize, id: Rid) -> bool
    requires { AreRows id.kind rows.now }
    ensures { IsTrue result → slice_get (live (drop place rows.now)) 0
        ≡ next_after (Some id) (live rows.now) }
{
    if place == 0 {
        return false;
    }
    is_at(rows, place - 1, id.number)
}

// Where the rows behind an identifier begin, which need not be there.
fn place_behind(rows: &[Row], id: Rid) -> usize
    requires { AreRows id.kind rows.now }
    ensures { slice_get (live (drop result rows.now)) 0 ≡ next_after (Some id) (live rows.now) }
{
    let place = place_of(rows, id.number);
    if is_at(rows, place, id.number) {
        place + 1
    } else {
        place
    }
}

/// The first feature behind an identifier, and the place behind it. A guess is looked at first.
pub(crate) fn feature_behind(rows: &[Row], id: Rid, guess: usize) -> (Option<&Feature>, usize)
    requires { AreRows id.kind rows.now }
    ensures { option_copied result.0 ≡ next_after (Some id) (live rows.now) }
{
    if is_behind(rows, guess, id) {
        return feature_from(rows, guess);
    }
    feature_from(rows, place_behind(rows, id))
}

/// The place of the first row from a place on that has a feature, where one has.
#[tactic(auto, using(crate::proofs::Fronts::gone_more))]
pub(crate) fn first_live(rows: &[Row], from: usize) -> usize
    ensures { AreGone from rows.now → AreGone result rows.now }
{
    for place in from..rows.len() {
        if let Some(_) = &rows[place].feature {
            return place;
        }
    }
    from
}

/// Puts a feature, for which there is room. It gives back the one that stood in its place, and tells the place.
pub(crate) fn put(rows: &mut Vec<Row>, feature: Feature) -> (Option<Feature>, usize)
    requires rows { AreRows feature.id.kind rows.old.items }
    requires room { vec_len rows.old < vec_capacity rows.old }
    ensures was { result.0 ≡ feature_at feature.id (live rows.old.items) }
    ensures items { live rows.new.items ≡ laid (live rows.old.items) feature.id (Some feature) }
    ensures rows { AreRows feature.id.kind rows.new.items }
    ensures gone { (n : _) → AreGone n rows.old.items → AreGone (min n result.1) rows.new.items }
    ensures len { vec_len rows.new ≤ vec_len rows.old + 1 }
    ensures capacity { vec_capacity rows.old ≤ vec_capacity rows.new }
{
    let number = feature.id.number;
    let place = place_of(rows.as_slice(), number);
    let row = Row {
        number,
        feature: Some(feature),
    };
    if is_at(rows.as_slice(), place, number) {
        return (replace(&mut rows[place], row).feature, place);
    }
    match rows.insert(place, row) {
        Ok(()) => (None, place),
        Err(_) => unreachable!(),
    }
}

/// Takes the feature with an identifier out, where there is one. Its row stays, without a feature.
pub(crate) fn take_out(rows: &mut Vec<Row>, id: Rid) -> Option<Feature>
    requires { AreRows id.kind rows.old.items }
    ensures was { result ≡ feature_at id (live rows.old.items) }
    ensures items { live rows.new.items ≡ laid (live rows.old.items) id None }
    ensures rows { AreRows id.kind rows.new.items }
    ensures gone { (n : _) → AreGone n rows.old.items → AreGone n rows.new.items }
    ensures len { vec_len rows.new ≡ vec_len rows.old }
    ensures capacity { vec_capacity rows.new ≡ vec_capacity rows.old }
{
    let number = id.number;
    let place = place_of(rows.as_slice(), number);
    if !is_at(rows.as_slice(), place, number) {
        return None;
    }
    let row = Row {
        number,
        feature: None,
    };
    replace(&mut rows[place], row).feature
}

/// Takes out the rows whose features are gone.
pub(crate) fn sweep(rows: &mut Vec<Row>)
    ensures items { live rows.new.items ≡ live rows.old.items }
    ensures rows { (kind : _) → AreRows kind rows.old.items → AreRows kind rows.new.items }
    ensures len { vec_len rows.new ≤ vec_len rows.old }
    ensures capacity { vec_capacity rows.new ≡ vec_capacity rows.old }
{
    rows.retain(|row| row.feature.is_some());
}
