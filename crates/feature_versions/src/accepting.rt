//! Which changes may be played.

ghost use Rattle.std.specs.Prelude.{◌≡◌, ◌+◌, ◌==◌, ◌&&◌, true, not, length, IfOk, nat_le, nat_lt};
ghost use Rattle.std.specs.List.{list_all, list_any};
ghost use Rattle.feature_values.specs.Fits.{feature_fits};
ghost use Rattle.wfs_model.specs.Expand.{is_same_name};
ghost use Rattle.wfs_model.specs.Playable.{most_number, is_number, is_ok, are_parts, are_names};
ghost use Rattle.wfs_model.specs.State.{Durable};
ghost use Rattle.wfs_model.specs.Stored.{created};
ghost use Rattle.feature_versions.specs.Accepting.{part_on};
ghost use Rattle.feature_versions.specs.Types.{part_laid};

use feature_overlay::Overlay;
use feature_values::{Feature, Schema, fits};
use fes_filter::FeatureView;
use std::alloc::Global;
use stored_queries::first_known;
use wfs_ends::{Mem, Text};
use wfs_model::{Part, StoredQuery};

// The greatest number that is given of a type.
const MOST_NUMBER: u64 = 1_000_000_000_000;

// ---- features

// Numbers are counted from 1.
fn is_number(number: u64) -> bool
    ensures { result ≡ is_number number }
{
    1 <= number && number <= MOST_NUMBER
}

fn does_fit(schema: &Schema, feature: &Feature) -> bool
    ensures { result ≡ is_ok (feature_fits schema.now feature.now) }
{
    match fits(schema, feature) {
        Ok(()) => true,
        Err(_) => false,
    }
}

// Whether a part may be played. Where it may, it is laid over the features.
fn lay<'a, V: FeatureView>(
    alloc: Global,
    overlay: &mut Overlay<'a, V>,
    schema: &Schema,
    part: &Part,
) -> Mem<bool>
    requires { let schema_of = ⟦<Overlay<'a, V> as FeatureView>⟧.schema in schema_of overlay.old
        ≡ schema.now }
    ensures value { let features = ⟦<Overlay<'a, V> as FeatureView>⟧.features in IfOk result
        (λ yes. yes ≡ part_on schema.now (features overlay.old) part.now) }
    ensures laid { let features = ⟦<Overlay<'a, V> as FeatureView>⟧.features in IfOk result
        (λ yes. yes ≡ true → features overlay.new ≡ part_laid (features overlay.old) part.now) }
    ensures schema { let schema_of = ⟦<Overlay<'a, V> as FeatureView>⟧.schema in schema_of
        overlay.new ≡ schema_of overlay.old }
{
    match part {
        Part::Put(feature) => {
            if !does_fit(schema, feature) || !is_number(feature.id.number) {
                return Ok(false);
            }
            overlay.put(feature.copy(alloc)?)?;
        }
        Part::Remove(id) => {
            if overlay.get(*id).is_none() {
                return Ok(false);
            }
            overlay.remove(*id)?;
        }
    }
    Ok(true)
}

/// Whether parts may be played over the features of a view, each on what the earlier ones left.
pub(crate) fn are_parts<V: FeatureView>(
    alloc: Global,
    view: &V,
    schema: &Schema,
    parts: &[Part],
) -> Mem<bool>
    requires { V.schema view.now ≡ schema.now }
    ensures { (kept : Durable) → kept.features ≡ V.features view.now
        → IfOk result (λ yes. yes ≡ are_parts schema.now kept parts.now) }
{
    let mut overlay = Overlay::over(alloc, view);
    for part in parts {
        if !lay(alloc, &mut overlay, schema, part)? {
            return Ok(false);
        }
    }
    Ok(true)
}

// ---- stored queries

fn is_same_name(a: &str, b: &str) -> bool
    ensures { result ≡ is_same_name a.now b.now }
{
    a.eq_ignore_ascii_case(b)
}

fn is_among(names: &[Text], name: &str) -> bool
    ensures { result ≡ list_any (is_same_name name.now) names.now }
{
    names.iter().any(|other| is_same_name(name, other.as_str()))
}

// Whether a name is not empty, and stands not among others.
fn is_apart(name: &str, others: &[Text]) -> bool
    ensures { result ≡ (nat_lt 0 (length name.now) && not
        (list_any (is_same_name name.now) others.now)) }
{
    !name.is_empty() && !is_among(others, name)
}

// Whether no name is empty and no two are alike but for their case.
fn are_names(names: &[Text]) -> bool
    ensures { result ≡ are_names names.now }
{
    for i in 0..names.len() {
        if !is_apart(names[i].as_str(), &names[i + 1..]) {
            return false;
        }
    }
    true
}

/// Whether stored queries may be made beside others: each has a new identifier.
#[tactic(auto, using(crate::proofs::Naming::are_new_if))]
pub(crate) fn are_new(stored: &[StoredQuery], queries: &[StoredQuery]) -> bool
    ensures { result ≡ is_ok (created stored.now queries.now) }
{
    first_known(stored, queries).is_none()
}

/// Whether the names of the parameters of stored queries may be such.
pub(crate) fn are_named(queries: &[StoredQuery]) -> bool
    ensures { result ≡ list_all (λ query. are_names query.parameters) queries.now }
{
    queries
        .iter()
        .all(|query| are_names(query.parameters.items()))
}

// ---- openings and checkpoints

/// Whether an opening has the next number.
pub(crate) fn is_next(opening: u64, last: u64) -> bool
    ensures { result ≡ (opening == last + 1) }
{
    opening > 0 && opening - 1 == last
}

/// Whether no number was given of any type.
pub(crate) fn are_zero(counters: &[u64]) -> bool
    ensures { result ≡ list_all (λ n. n == 0) counters.now }
{
    counters.iter().all(|n| *n == 0)
}

fn are_numbers(counters: &[u64]) -> bool
    ensures { result ≡ list_all (λ n. nat_le n most_number) counters.now }
{
    counters.iter().all(|n| *n <= MOST_NUMBER)
}

/// Whether there is a counter for each of so many types, and none is above the greatest number.
pub(crate) fn are_counters(counters: &[u64], types: usize) -> bool
    ensures { result ≡ ((length counters.now == types) && list_all (λ n. nat_le n most_number)
        counters.now) }
{
    counters.len() == types && are_numbers(counters)
}
