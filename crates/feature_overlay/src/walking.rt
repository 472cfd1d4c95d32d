//! The features of a view under whose identifiers nothing has changed.

ghost use Rattle.std.specs.Prelude.{◌≡◌};
ghost use Rattle.std.specs.Option.{option_copied};
ghost use Rattle.fes_filter.specs.View.{is_before, IsView};
ghost use Rattle.feature_overlay.specs.Changed.{kept_at};
ghost use Rattle.feature_overlay.specs.First.{IsFirst, lesser};

use crate::changes::{Changes, has_changed};
use feature_values::{Feature, Rid};
use fes_filter::FeatureView;

fn id_of(feature: &Feature) -> Option<Rid>
    ensures { result ≡ Some feature.now.id }
{
    Some(feature.id)
}

/// The first of them behind an identifier. The place is the one for a walk of the view.
pub(crate) fn next_kept<'a, V: FeatureView>(
    view: &'a V,
    changes: &Changes,
    after: Option<Rid>,
    place: &mut u64,
) -> Option<&'a Feature>
    ensures value { IsFirst after (kept_at (V.features view.now) changes.now.entries)
        (option_copied result) }
    ensures view { IsView (V.schema view.now) (V.features view.now) }
{
    let mut passed = after;
    while let Some(feature) = view.walk(passed, place) {
        if !has_changed(changes, feature.id) {
            return Some(feature);
        }
        passed = id_of(feature);
    }
    None
}

pub(crate) fn is_before(a: Rid, b: Rid) -> bool
    ensures { result ≡ is_before a b }
{
    a.kind < b.kind || (a.kind == b.kind && a.number < b.number)
}

/// Of two features the one before the other.
pub(crate) fn lesser<'a>(kept: Option<&'a Feature>, put: Option<&'a Feature>) -> Option<&'a Feature>
    ensures { option_copied result ≡ lesser (option_copied kept.entry) (option_copied put.entry) }
{
    let Some(f) = kept else {
        return put;
    };
    let Some(g) = put else {
        return kept;
    };
    if is_before(f.id, g.id) { kept } else { put }
}
