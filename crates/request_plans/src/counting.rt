//! How many features stand after a plan.

ghost use Rattle.std.specs.Prelude.{◌≡◌, ◌+◌, ◌<◌, ◌≤◌};
ghost use Rattle.request_plans.specs.Plan.{inserted_in, deleted_in};

use crate::plan::Plan;
use wfs_model::Reply;

/// How many features stand after a plan is carried out, where so many stood before. The reply tells it, and nothing else is looked at.
pub fn features_after(plan: &Plan, before: u64) -> u64
    requires few { before < 9_223_372_036_854_775_808 }
    requires there { deleted_in plan.now.reply ≤ before + inserted_in plan.now.reply }
    ensures { result + deleted_in plan.now.reply ≡ before + inserted_in plan.now.reply }
{
    match &plan.reply {
        Reply::Transacted {
            deleted,
            inserted,
            ..
        } => before + inserted.items().len() as u64 - *deleted,
        _ => before,
    }
}
