//! The queries that all that is asked stands for. Plain queries are borrowed.

ghost use Rattle.std.specs.Prelude.{◌≡◌, ◌∷◌, ◌++◌, [], IfOk, OnOk};
ghost use Rattle.wfs_ends.specs.Read.{GivesBut};
ghost use Rattle.wfs_model.specs.declared.fault.StoredFault.TheVariants.{OutOfMemory};
ghost use Rattle.wfs_model.specs.Expand.{expanded, all_expanded};
ghost use Rattle.stored_queries.specs.Meant.{meant_by, all_meant, with_more};

use crate::stored::Stored;
use crate::using::used;
use feature_values::Schema;
use fes_filter::Query;
use std::alloc::Global;
use wfs_ends::{List, Mem};
use wfs_model::{Asked, StoredFault, StoredQuery};

/// A query that stands for what is asked.
#[derive(Drop)]
pub enum Meant<'a> {
    /// The query itself was asked.
    Plain(&'a Query),
    /// A query of a stored one, with the texts of its parameters.
    Filled(Query),
}

impl<'a> Meant<'a> {
    /// The query.
    pub fn query(&self) -> &Query
        ensures { result.now ≡ meant_by self.now }
    {
        match self {
            Meant::Plain(query) => query,
            Meant::Filled(query) => query,
        }
    }
}

/// A copy of a query, alone.
fn copied(alloc: Global, query: &Query) -> Mem<List<Query>>
    ensures { IfOk result (λ all. all ≡ query.now ∷ []) }
{
    let mut all = Vec::new(alloc);
    all.push(query.copy(alloc)?)?;
    Ok(List::of(all))
}

/// The queries that one that is asked stands for, where stored queries are there (OGC 09-025r2, section 7.9.3).
///
/// # Errors
///
/// `Unknown`: there is no stored query with the identifier. Then the declared parameters are judged in order: `MissingParameter`
/// where one is not given, and `BadParameter` where its text does not read at each place of the parameter, both with the declared
/// name. Then `BadParameter`, with the name as it was given, for the first that is given and not declared. Names match whatever the
/// case of their letters is, and of several that match a declared one the first counts. `OutOfMemory`: memory ran out.
#[tactic(auto, unfolding(wfs_model::specs::Expand::expanded))]
pub fn expand(
    alloc: Global,
    stored: &Stored,
    asked: &Asked,
    schema: &Schema,
) -> Result<List<Query>, StoredFault>
    ensures { GivesBut OutOfMemory (λ queries. queries) result
        (expanded schema.now stored.now.list asked.now) }
{
    match asked {
        Asked::Plain(query) => Ok(copied(alloc, query)?),
        Asked::Stored { id, given } => Ok(List::of(used(
            alloc,
            stored.list(),
            schema,
            id,
            given.items(),
        )?)),
    }
}

/// Adds a query itself.
fn add_plain<'a>(all: &mut Vec<Meant<'a>>, query: &'a Query) -> Mem<()>
    ensures { OnOk result (all_meant all.new.items ≡ all_meant all.old.items ++ query.now ∷ []) }
{
    all.push(Meant::Plain(query))?;
    Ok(())
}

/// Adds queries of a stored one.
fn add_filled<'a>(all: &mut Vec<Meant<'a>>, queries: Vec<Query>) -> Mem<()>
    ensures { OnOk result (all_meant all.new.items ≡ all_meant all.old.items ++ queries.items) }
{
    for query in queries {
        all.push(Meant::Filled(query))?;
    }
    Ok(())
}

/// Adds what one that is asked stands for.
#[tactic(auto, unfolding(wfs_model::specs::Expand::expanded))]
fn add_expanded<'a>(
    alloc: Global,
    stored: &[StoredQuery],
    schema: &Schema,
    all: &mut Vec<Meant<'a>>,
    one: &'a Asked,
) -> Result<(), StoredFault>
    ensures { GivesBut OutOfMemory (λ _. all_meant all.new.items) result
        (with_more (all_meant all.old.items) (expanded schema.now stored.now one.now)) }
{
    match one {
        Asked::Plain(query) => add_plain(all, query)?,
        Asked::Stored { id, given } => {
            let queries = used(alloc, stored, schema, id, given.items())?;
            add_filled(all, queries)?;
        }
    }
    Ok(())
}

/// The queries that one that is asked stands for, as `expand` says, where a plain one is borrowed.
#[tactic(auto, using(crate::proofs::Turns::behind_none))]
pub fn expand_one<'a>(
    alloc: Global,
    stored: &[StoredQuery],
    asked: &'a Asked,
    schema: &Schema,
) -> Result<Vec<Meant<'a>>, StoredFault>
    ensures { GivesBut OutOfMemory (λ v. all_meant v.items) result
        (expanded schema.now stored.now asked.now) }
{
    let mut all = Vec::new(alloc);
    add_expanded(alloc, stored, schema, &mut all, asked)?;
    Ok(all)
}

/// The queries that all that is asked stands for, in order, up to the first fault. Its faults are those of `expand`.
pub fn expand_all<'a>(
    alloc: Global,
    stored: &[StoredQuery],
    asked: &'a [Asked],
    schema: &Schema,
) -> Result<Vec<Meant<'a>>, StoredFault>
    ensures { GivesBut OutOfMemory (λ v. all_meant v.items) result
        (all_expanded schema.now stored.now asked.now) }
{
    let mut all = Vec::new(alloc);
    for one in asked {
        add_expanded(alloc, stored, schema, &mut all, one)?;
    }
    Ok(all)
}
