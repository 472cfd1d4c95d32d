//! What an action does to the features that it selected, one after the other.

ghost use Rattle.std.specs.Prelude.{◌≡◌, ◌++◌, ◌∷◌, [], OnOk, All};
ghost use Rattle.std.specs.List.{fold};
ghost use Rattle.feature_overlay.specs.Changed.{IsOf, FitsIf};
ghost use Rattle.feature_overlay.specs.Laid.{laid};
ghost use Rattle.wfs_model.specs.OfSchema.{IsActionOf};
ghost use Rattle.transaction_core.specs.Planning.{part_at, turned, IsAimed};

use crate::changing::instead;
use feature_overlay::Overlay;
use feature_values::{Feature, Rid};
use fes_filter::FeatureView;
use std::alloc::Global;
use wfs_ends::Mem;
use wfs_model::{Action, Part};

/// From now on this stands under the identifier, and the change is behind the others.
pub(crate) fn lay<'a, V: FeatureView>(
    alloc: Global,
    overlay: &mut Overlay<'a, V>,
    parts: &mut Vec<Part>,
    id: Rid,
    now: Option<Feature>,
) -> Mem<()>
    requires id { IsOf id now }
    requires fits { let schema = ⟦<Overlay<'a, V> as FeatureView>⟧.schema in FitsIf
        (schema overlay.old) now }
    ensures features { let features = ⟦<Overlay<'a, V> as FeatureView>⟧.features in OnOk result
        (features overlay.new ≡ laid (features overlay.old) id now) }
    ensures parts { OnOk result (parts.new.items ≡ parts.old.items ++ part_at id now ∷ []) }
    ensures schema { let schema = ⟦<Overlay<'a, V> as FeatureView>⟧.schema in OnOk result
        (schema overlay.new ≡ schema overlay.old) }
{
    match now {
        None => {
            parts.push(Part::Remove(id))?;
            overlay.remove(id)
        }
        Some(feature) => {
            parts.push(Part::Put(feature.copy(alloc)?))?;
            overlay.put(feature)
        }
    }
}

// Does an action's work on the feature with this identifier, which is of the type that it selects.
#[tactic(auto, unfolding(crate::specs::Planning::turned))]
fn turn<'a, V: FeatureView>(
    alloc: Global,
    overlay: &mut Overlay<'a, V>,
    parts: &mut Vec<Part>,
    action: &Action,
    id: Rid,
) -> Mem<()>
    requires aimed { IsAimed action.now id.kind }
    requires fitting { let schema = ⟦<Overlay<'a, V> as FeatureView>⟧.schema in IsActionOf
        (schema overlay.old) action.now }
    ensures turned { let features = ⟦<Overlay<'a, V> as FeatureView>⟧.features in OnOk result
        (record { features = features overlay.new; parts = parts.new.items }
        ≡ turned action.now (record { features = features overlay.old; parts = parts.old.items })
        id) }
    ensures schema { let schema = ⟦<Overlay<'a, V> as FeatureView>⟧.schema in OnOk result
        (schema overlay.new ≡ schema overlay.old) }
{
    let Some(feature) = overlay.get(id) else {
        return Ok(());
    };
    let id = feature.id;
    let now = instead(alloc, action, feature)?;
    lay(alloc, overlay, parts, id, now)
}

/// Does an action's work on the features with these identifiers, in order. They are of the type that it selects.
pub(crate) fn turn_all<'a, V: FeatureView>(
    alloc: Global,
    overlay: &mut Overlay<'a, V>,
    parts: &mut Vec<Part>,
    action: &Action,
    ids: &[Rid],
) -> Mem<()>
    requires aimed { All (λ id. IsAimed action.now id.kind) ids.now }
    requires fitting { let schema = ⟦<Overlay<'a, V> as FeatureView>⟧.schema in IsActionOf
        (schema overlay.old) action.now }
    ensures turned { let features = ⟦<Overlay<'a, V> as FeatureView>⟧.features in OnOk result
        (record { features = features overlay.new; parts = parts.new.items }
        ≡ fold (turned action.now) (record {
          features = features overlay.old;
          parts = parts.old.items;
        }) ids.now) }
    ensures schema { let schema = ⟦<Overlay<'a, V> as FeatureView>⟧.schema in OnOk result
        (schema overlay.new ≡ schema overlay.old) }
{
    for id in ids {
        turn(alloc, overlay, parts, action, *id)?;
    }
    Ok(())
}
