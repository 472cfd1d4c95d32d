//! Three marks, and a lock on the second.

ghost use Rattle.std.specs.Prelude.{◌≡◌, ◌≤◌, ◌∷◌, [], IfOk};
ghost use Rattle.transaction_core.specs.Marks.{AreMarks};
ghost use Rattle.request_plans.specs.Marks.{AreThree};

use crate::marks::{Nothing, allowed, mark};
use feature_overlay::Overlay;
use fes_filter::FeatureView;
use lock_table::LockTable;
use std::alloc::Global;
use wfs_ends::{List, Mem, OutOfMemory};

/// Three marks were given numbers.
pub fn counters(alloc: Global) -> Mem<List<u64>>
    ensures { IfOk result (λ counters. counters ≡ 3 ∷ []) }
{
    let mut counters = Vec::new(alloc);
    counters.push(3)?;
    Ok(List::of(counters))
}

/// Mark.1, Mark.2 and Mark.3.
#[tactic(auto, using(request_plans::proofs::Marks::are_three))]
pub fn three_marks<'a>(alloc: Global, nothing: &'a Nothing) -> Mem<Overlay<'a, Nothing>>
    requires { AreMarks nothing.now.schema }
    ensures schema { IfOk result (λ view. ⟦<Overlay<'a, Nothing> as FeatureView>⟧.schema view
        ≡ nothing.now.schema) }
    ensures kept { IfOk result (λ view. AreThree nothing.now.schema
        (⟦<Overlay<'a, Nothing> as FeatureView>⟧.features view)) }
{
    let mut overlay = Overlay::over(alloc, nothing);
    overlay.put(allowed(alloc, &nothing.schema, 1, 10)?)?;
    overlay.put(allowed(alloc, &nothing.schema, 2, 10)?)?;
    overlay.put(allowed(alloc, &nothing.schema, 3, 10)?)?;
    Ok(overlay)
}

/// The first lock is on Mark.2 until 1060.
#[tactic(auto, using(request_plans::proofs::Marks::alone))]
pub fn one_lock(alloc: Global) -> Mem<LockTable>
    ensures opening { IfOk result (λ table. table.opening ≡ 1) }
    ensures given { IfOk result (λ table. table.given ≡ 1) }
    ensures last { IfOk result (λ table. table.last ≤ 1000) }
{
    let mut table = LockTable::new(alloc, 1);
    let mut features = Vec::new(alloc);
    features.push(mark(2))?;
    if table.reserve(1, 1000, 16).is_err() || table.holder(mark(2), 1000).is_some() {
        return Err(OutOfMemory);
    }
    table.grant(List::of(features), 1000, 60);
    Ok(table)
}
