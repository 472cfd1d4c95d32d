//! The requests of a round.

ghost use Rattle.std.specs.Prelude.{◌≡◌, ◌<◌, [], ◌∷◌, All, IfOk, length};
ghost use Rattle.feature_schema.specs.Rules.{KeepsRules};
ghost use Rattle.drill_requests.specs.Fitting.{IsOneOf};
ghost use Rattle.drill_requests.specs.Requests.{counting, deletion, insertion, locking, query_in, requests_of, square, surroundings, transaction};

use crate::feature::{beside, feature_of};
use crate::round::Round;
use feature_values::Schema;
use fes_filter::{Filter, Query};
use geom_core::{Box2, Pos};
use lock_table::Release;
use std::alloc::Global;
use wfs_ends::{List, Mem};
use wfs_model::{Action, Asked, Present, Request, Take};

/// The requests of a round, in order: one feature is inserted, the free ones in its square are locked, those in its surroundings are
/// counted, and in each fourth round those in the square are deleted.
pub fn requests_of(alloc: Global, schema: &Schema, round: Round) -> Mem<Vec<Request>>
    requires rules { KeepsRules schema.now }
    requires kind { round.kind < length schema.now.types }
    ensures are { IfOk result (λ requests. requests.items ≡ requests_of schema.now round) }
    ensures fitting { IfOk result (λ requests. All (IsOneOf schema.now) requests.items) }
{
    let mut requests = Vec::with_capacity(alloc, 4)?;
    requests.push(insertion(alloc, schema, round)?)?;
    requests.push(locking(alloc, round)?)?;
    requests.push(counting(alloc, round)?)?;
    if round.number % 4 == 3 {
        requests.push(deletion(alloc, round)?)?;
    }
    Ok(requests)
}

// One feature is inserted.
fn insertion(alloc: Global, schema: &Schema, round: Round) -> Mem<Request>
    ensures { IfOk result (λ request. request ≡ insertion schema.now round) }
{
    let features = vec![in alloc; feature_of(alloc, schema, round)?]?;
    transaction(
        alloc,
        Action::Insert {
            handle: None,
            features: List::of(features),
        },
    )
}

// A transaction of one action.
fn transaction(alloc: Global, action: Action) -> Mem<Request>
    ensures { IfOk result (λ request. request ≡ transaction action) }
{
    let actions = vec![in alloc; action]?;
    Ok(Request::Transact {
        lock: None,
        release: Release::Whole,
        actions: List::of(actions),
    })
}

// The free features in the square are locked.
fn locking(alloc: Global, round: Round) -> Mem<Request>
    ensures { IfOk result (λ request. request ≡ locking round) }
{
    Ok(Request::Lock {
        asked: asked_in(alloc, round, square(round))?,
        take: Take::Free,
        period: 1,
    })
}

// The features in the surroundings are counted.
fn counting(alloc: Global, round: Round) -> Mem<Request>
    ensures { IfOk result (λ request. request ≡ counting round) }
{
    let present = Present {
        start: 0,
        count: None,
        hits: true,
        link: None,
    };
    let asked = asked_in(alloc, round, surroundings(round))?;
    Ok(Request::GetFeatures(present, asked))
}

// The features in the square are deleted.
fn deletion(alloc: Global, round: Round) -> Mem<Request>
    ensures { IfOk result (λ request. request ≡ deletion round) }
{
    transaction(
        alloc,
        Action::Delete {
            kind: round.kind,
            filter: Filter::InBox {
                property: None,
                area: square(round),
            },
        },
    )
}

// The features of the round's type in a box.
fn asked_in(alloc: Global, round: Round, area: Box2) -> Mem<List<Asked>>
    ensures { IfOk result (λ asked. asked ≡ Asked.Plain (query_in round area) ∷ []) }
{
    let query = Query {
        kind: Some(round.kind),
        filter: Some(Filter::InBox {
            property: None,
            area,
        }),
        sort: List::of(Vec::new(alloc)),
    };
    let asked = vec![in alloc; Asked::Plain(query)]?;
    Ok(List::of(asked))
}

fn square(round: Round) -> Box2
    ensures { result ≡ square round }
{
    Box2 {
        low: beside(round, 0, 0),
        high: beside(round, 10, 10),
    }
}

fn surroundings(round: Round) -> Box2
    ensures { result ≡ surroundings round }
{
    let low = Pos {
        x: round.x as i32 - 50_000,
        y: round.y as i32 - 50_000,
    };
    Box2 {
        low,
        high: beside(round, 50_010, 50_010),
    }
}
