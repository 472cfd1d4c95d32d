//! Two marks, and a lock on each.

ghost use Rattle.std.specs.Prelude.{◌≡◌, ◌≤◌, ◌<◌, ◌+◌, IfOk, length};

use crate::marks::{Nothing, allowed, mark};
use feature_overlay::Overlay;
use fes_filter::FeatureView;
use lock_table::LockTable;
use std::alloc::Global;
use wfs_ends::{List, Mem, OutOfMemory};

/// Two marks were given numbers.
pub fn counters(alloc: Global) -> Mem<List<u64>>
    ensures { IfOk result (λ counters. length counters ≡ 1) }
{
    let mut counters = Vec::new(alloc);
    counters.push(2)?;
    Ok(List::of(counters))
}

/// Mark.1 of size 10 and Mark.2 of size 20.
pub fn two_marks<'a>(alloc: Global, nothing: &'a Nothing) -> Mem<Overlay<'a, Nothing>>
    ensures { IfOk result (λ view. ⟦<Overlay<'a, Nothing> as FeatureView>⟧.schema view
        ≡ nothing.now.schema) }
{
    let mut overlay = Overlay::over(alloc, nothing);
    overlay.put(allowed(alloc, &nothing.schema, 1, 10)?)?;
    overlay.put(allowed(alloc, &nothing.schema, 2, 20)?)?;
    Ok(overlay)
}

// A lock on a mark until 1100.
#[tactic(auto, using(transaction_core::proofs::Marks::alone))]
fn lock_mark(alloc: Global, table: &mut LockTable, number: u64) -> Mem<()>
    requires last { table.old.last ≤ 1000 }
    requires given { table.old.given < 10 }
    ensures last { table.new.last ≤ 1000 }
    ensures given { table.new.given ≤ table.old.given + 1 }
{
    let feature = mark(number);
    let mut features = Vec::new(alloc);
    features.push(feature)?;
    if table.reserve(1, 1000, 16).is_err() || table.holder(feature, 1000).is_some() {
        return Err(OutOfMemory);
    }
    table.grant(List::of(features), 1000, 100);
    Ok(())
}

/// The first lock is on Mark.1 and the second on Mark.2, both until 1100.
pub fn two_locks(alloc: Global) -> Mem<LockTable>
    ensures { IfOk result (λ table. table.last ≤ 1000) }
{
    let mut table = LockTable::new(alloc, 1);
    lock_mark(alloc, &mut table, 1)?;
    lock_mark(alloc, &mut table, 2)?;
    Ok(table)
}
