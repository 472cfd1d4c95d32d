//! GetFeatureWithLock and LockFeature.

ghost use Rattle.wfs_ends.specs.Read.{GivesBut};
ghost use Rattle.std.specs.Prelude.{◌≡◌};
ghost use Rattle.kvp_queries.specs.Pairs.{said_by};
ghost use Rattle.kvp_queries.specs.Request.{held_of, locked_of, new_period, new_lock, names_features, chooses_features, asks_for_features, renewed, lock_asked};

use crate::asking::{all_asked, enough_of, query_of};
use crate::pairs::Listed;
use crate::selecting::type_names_of;
use feature_values::Schema;
use request_parameters::{
    Given, Operation, expiry_of, lock_of, locked_page_of, period_of, take_of,
};
use std::alloc::Global;
use wfs_ends::Text;
use wfs_model::{AskFault, LockId, Request, Take, refused};

// How long features are locked and which, where enough is named.
#[tactic(auto, unfolding(crate::specs::Request::held_of))]
fn held_of(alloc: Global, listed: &Listed) -> Result<(u32, Take), AskFault>
    ensures { GivesBut AskFault.OutOfMemory (λ x. x) result (held_of (said_by listed.now.pairs)) }
{
    let period = period_of(alloc, listed)?;
    let take = take_of(alloc, listed)?;
    enough_of(alloc, listed)?;
    Ok((period, take))
}

// GetFeatureWithLock.
#[tactic(auto, unfolding(crate::specs::Request::locked_of, crate::specs::Request::held_of))]
pub(crate) fn locked_of(
    alloc: Global,
    schema: &Schema,
    pairs: &[(Text, Text)],
    listed: &Listed,
) -> Result<Request, AskFault>
    ensures { GivesBut AskFault.OutOfMemory (λ r. r) result
        (locked_of schema.now pairs.now (said_by listed.now.pairs)) }
{
    let page = locked_page_of(alloc, listed)?;
    let query = query_of(alloc, schema, listed)?;
    let (period, take) = held_of(alloc, listed)?;
    let asked = all_asked(alloc, Operation::GetFeatureWithLock, pairs, listed, query)?;
    Ok(Request::GetLocked {
        present: page.presented(None),
        asked,
        take,
        period,
    })
}

// How long a new lock lives, where enough is named.
#[tactic(auto, unfolding(crate::specs::Request::new_period))]
fn new_period(alloc: Global, listed: &Listed) -> Result<u32, AskFault>
    ensures { GivesBut AskFault.OutOfMemory (λ x. x) result
        (new_period (said_by listed.now.pairs)) }
{
    enough_of(alloc, listed)?;
    period_of(alloc, listed)
}

// A new lock.
#[tactic(auto, unfolding(crate::specs::Request::new_lock, crate::specs::Request::new_period))]
fn new_lock(
    alloc: Global,
    schema: &Schema,
    pairs: &[(Text, Text)],
    listed: &Listed,
    take: Take,
) -> Result<Request, AskFault>
    ensures { GivesBut AskFault.OutOfMemory (λ r. r) result
        (new_lock schema.now pairs.now (said_by listed.now.pairs) take) }
{
    let query = query_of(alloc, schema, listed)?;
    let period = new_period(alloc, listed)?;
    let asked = all_asked(alloc, Operation::LockFeature, pairs, listed, query)?;
    Ok(Request::Lock {
        asked,
        take,
        period,
    })
}

// Whether a request names features by a stored query, by a type or in a reference system.
#[tactic(auto, unfolding(crate::specs::Request::names_features))]
fn names_features(listed: &Listed) -> bool
    ensures { result ≡ names_features (said_by listed.now.pairs) }
{
    listed.value_of("storedQuery_id").is_some()
        || type_names_of(listed).is_some()
        || listed.value_of("srsName").is_some()
}

// Whether a request chooses among features.
#[tactic(auto, unfolding(crate::specs::Request::chooses_features))]
fn chooses_features(listed: &Listed) -> bool
    ensures { result ≡ chooses_features (said_by listed.now.pairs) }
{
    listed.value_of("resourceId").is_some()
        || listed.value_of("filter").is_some()
        || listed.value_of("bbox").is_some()
}

// Whether a request asks for features.
#[tactic(auto, unfolding(crate::specs::Request::asks_for_features))]
fn asks_for_features(listed: &Listed) -> bool
    ensures { result ≡ asks_for_features (said_by listed.now.pairs) }
{
    names_features(listed)
        || chooses_features(listed)
        || listed.value_of("sortBy").is_some()
        || listed.value_of("propertyName").is_some()
}

// The lock that a client has lives longer.
#[tactic(auto, unfolding(crate::specs::Request::renewed, wfs_ends::specs::Read::unless))]
fn renewed(
    alloc: Global,
    listed: &Listed,
    lock: LockId,
    expiry: Option<u32>,
) -> Result<Request, AskFault>
    ensures { GivesBut AskFault.OutOfMemory (λ r. r) result
        (renewed (said_by listed.now.pairs) lock expiry) }
{
    if asks_for_features(listed) {
        return Err(refused(alloc, 11, "lockId"));
    }
    Ok(Request::Renew {
        lock,
        period: expiry,
    })
}

// LockFeature.
#[tactic(auto, unfolding(crate::specs::Request::lock_asked))]
pub(crate) fn lock_asked(
    alloc: Global,
    schema: &Schema,
    pairs: &[(Text, Text)],
    listed: &Listed,
) -> Result<Request, AskFault>
    ensures { GivesBut AskFault.OutOfMemory (λ r. r) result
        (lock_asked schema.now pairs.now (said_by listed.now.pairs)) }
{
    let lock = lock_of(alloc, listed)?;
    let expiry = expiry_of(alloc, listed)?;
    let take = take_of(alloc, listed)?;
    match lock {
        None => new_lock(alloc, schema, pairs, listed, take),
        Some(lock) => renewed(alloc, listed, lock, expiry),
    }
}
