//! Features that come in.

ghost use Rattle.std.specs.Prelude.{◌≡◌, ◌+◌, ◌<◌, IfOk, OnOk, All, Ok, length};
ghost use Rattle.std.specs.List.{fold};
ghost use Rattle.feature_values.specs.Fits.{feature_fits};
ghost use Rattle.wfs_model.specs.OfSchema.{IsNewOf};
ghost use Rattle.transaction_core.specs.Planning.{planning_of, came};

use crate::changing::under;
use crate::laying::lay;
use crate::tally::{Tally, told};
use feature_overlay::Overlay;
use feature_values::{Feature, Rid};
use fes_filter::FeatureView;
use std::alloc::Global;
use wfs_ends::{Mem, OutOfMemory, Text};

// The number after the last one. Behind the last that 64 bits hold it is a want of memory.
fn next_number(counter: u64) -> Mem<u64>
    ensures { IfOk result (λ n. n ≡ counter + 1) }
{
    counter.checked_add(1).ok_or(OutOfMemory)
}

// A feature comes in, under the next number of its type.
#[tactic(auto, unfolding(crate::specs::Planning::came, wfs_model::specs::Acts::inserted))]
fn insert<'a, V: FeatureView>(
    alloc: Global,
    overlay: &mut Overlay<'a, V>,
    tally: &mut Tally,
    handle: &Option<Text>,
    feature: &Feature,
) -> Mem<()>
    requires kind { feature.now.id.kind < length tally.old.counters.items }
    requires fits { let schema = ⟦<Overlay<'a, V> as FeatureView>⟧.schema in feature_fits
        (schema overlay.old) feature.now ≡ Ok tt }
    ensures came { let features = ⟦<Overlay<'a, V> as FeatureView>⟧.features in OnOk result
        (planning_of (features overlay.new) tally.new
        ≡ came handle.now (planning_of (features overlay.old) tally.old) feature.now) }
    ensures schema { let schema = ⟦<Overlay<'a, V> as FeatureView>⟧.schema in OnOk result
        (schema overlay.new ≡ schema overlay.old) }
{
    let kind = feature.id.kind as usize;
    let number = next_number(tally.counters[kind])?;
    let id = Rid {
        kind: feature.id.kind,
        number,
    };
    let fresh = under(id, feature)?;
    lay(alloc, overlay, &mut tally.parts, id, Some(fresh))?;
    tally.counters[kind] = number;
    tally.inserted.push(told(alloc, handle, id)?)?;
    Ok(())
}

/// Features come in, in order.
pub(crate) fn insert_all<'a, V: FeatureView>(
    alloc: Global,
    overlay: &mut Overlay<'a, V>,
    tally: &mut Tally,
    handle: &Option<Text>,
    features: &[Feature],
) -> Mem<()>
    requires counters { let schema = ⟦<Overlay<'a, V> as FeatureView>⟧.schema in length
        tally.old.counters.items ≡ length (schema overlay.old).types }
    requires fitting { let schema = ⟦<Overlay<'a, V> as FeatureView>⟧.schema in All
        (IsNewOf (schema overlay.old)) features.now }
    ensures came { let stand = ⟦<Overlay<'a, V> as FeatureView>⟧.features in OnOk result
        (planning_of (stand overlay.new) tally.new
        ≡ fold (came handle.now) (planning_of (stand overlay.old) tally.old) features.now) }
    ensures schema { let schema = ⟦<Overlay<'a, V> as FeatureView>⟧.schema in OnOk result
        (schema overlay.new ≡ schema overlay.old) }
{
    for feature in features {
        insert(alloc, overlay, tally, handle, feature)?;
    }
    Ok(())
}
