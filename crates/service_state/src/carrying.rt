//! What a plan does to what outlives the process and to locks: its memory is taken first, and then it cannot fail.

ghost use Rattle.std.specs.Prelude.{◌≡◌, ◌≤◌, OnOk};
ghost use Rattle.std.specs.Option.{IfSome, option_to_list};
ghost use Rattle.feature_versions.specs.Reserved.{IsReserved};
ghost use Rattle.request_plans.specs.Carried.{HasRoom, IsDoable, given_after, locks_after};
ghost use Rattle.service_state.specs.Running.{MayPlay};
ghost use Rattle.wfs_model.specs.Playable.{AreQueriesOf};
ghost use Rattle.wfs_model.specs.Played.{played};

use feature_versions::Features;
use lock_table::LockTable;
use request_plans::{LockWork, carry_locks};
use wfs_ends::Mem;
use wfs_model::Change;

/// Takes the memory for a change, where there is one.
pub(crate) fn reserve(features: &mut Features, change: &Option<Change>) -> Mem<()>
    ensures reserved { OnOk result (IfSome change.now
        (λ change. IsReserved change features.new.room)) }
    ensures kept { features.new.kept ≡ features.old.kept }
    ensures schema { features.new.schema ≡ features.old.schema }
{
    match change {
        None => Ok(()),
        Some(change) => features.reserve(change),
    }
}

/// Plays a change, where there is one.
pub(crate) fn play(features: &mut Features, change: Option<Change>)
    requires playable { MayPlay features.old.schema features.old.kept change }
    requires queries { IfSome change (AreQueriesOf features.old.schema) }
    requires reserved { IfSome change (λ change. IsReserved change features.old.room) }
    ensures kept { features.new.kept ≡ played features.old.kept (option_to_list change) }
    ensures schema { features.new.schema ≡ features.old.schema }
{
    if let Some(change) = change {
        features.apply(change);
    }
}

/// Does work on locks, and answers how many locks were granted then, where so many were before.
pub(crate) fn carry_out(work: LockWork, table: &mut LockTable, moment: u64, given: u64) -> u64
    requires given { table.old.given ≡ given }
    requires later { table.old.last ≤ moment }
    requires doable { IsDoable work given moment table.old.locks }
    requires room { HasRoom work table.old }
    ensures given { result ≡ given_after work given }
    ensures table_given { table.new.given ≡ given_after work given }
    ensures locks { table.new.locks ≡ locks_after work given moment table.old.locks }
    ensures opening { table.new.opening ≡ table.old.opening }
    ensures last { table.new.last ≤ moment }
{
    carry_locks(work, table, moment).unwrap_or(given)
}
