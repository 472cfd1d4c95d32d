//! Work on locks, carried out: its memory is taken first, and then it cannot fail.

ghost use Rattle.std.specs.Prelude.{◌≡◌, ◌≤◌, OnOk, length};
ghost use Rattle.lock_table.specs.Held.{live};
ghost use Rattle.request_plans.specs.Carried.{locks_after, given_after, number_granted, HasRoom, IsDoable, Reserves};

use crate::plan::LockWork;
use lock_table::{LockFault, LockTable};

/// Takes the memory for work on locks: room for the lock that is granted, where one is, and fewer than `limit` locks are live at the
/// moment. No lock is changed.
///
/// # Errors
///
/// `Full`, with the number of live locks, where a lock is to be granted and as many as `limit` or more are live, and `OutOfMemory`.
pub fn reserve_locks(
    work: &LockWork,
    table: &mut LockTable,
    moment: u64,
    limit: u64,
) -> Result<(), LockFault>
    requires { table.old.last ≤ moment }
    ensures fault { Reserves work.now limit (length (live moment table.old.locks)) result }
    ensures room { OnOk result (HasRoom work.now table.new) }
    ensures same { table.new ≡ record table.old {
      spare = table.new.spare;
      kept = table.new.kept;
      listed = table.new.listed;
      mapped = table.new.mapped;
    } }
{
    match work {
        LockWork::Grant { features, .. } => {
            table.reserve(features.items().len() as u64, moment, limit)
        }
        LockWork::Nothing | LockWork::Renew { .. } | LockWork::Release { .. } => Ok(()),
    }
}

/// Does work on locks at a moment, for which there is room (`reserve_locks`), and answers the number of the lock that it grants. It takes no
/// memory.
#[tactic(auto, unfolding(crate::specs::Carried::locks_after))]
pub fn carry_locks(work: LockWork, table: &mut LockTable, moment: u64) -> Option<u64>
    requires later { table.old.last ≤ moment }
    requires doable { IsDoable work table.old.given moment table.old.locks }
    requires room { HasRoom work table.old }
    ensures number { result ≡ number_granted work table.old.given }
    ensures locks { table.new.locks ≡ locks_after work table.old.given moment table.old.locks }
    ensures opening { table.new.opening ≡ table.old.opening }
    ensures given { table.new.given ≡ given_after work table.old.given }
    ensures last { table.new.last ≤ moment }
{
    match work {
        LockWork::Nothing => None,
        LockWork::Grant { features, period } => Some(table.grant(features, moment, period)),
        LockWork::Renew { number, period } => {
            table.renew(number, moment, period);
            None
        }
        LockWork::Release {
            number,
            touched,
            how,
        } => {
            table.release(number, &touched, how, moment);
            None
        }
    }
}
