//! Stored queries.

ghost use Rattle.std.specs.Prelude.{◌≡◌, IfOk};
ghost use Rattle.wfs_model.specs.Stored.{is_id_query};

use fes_filter::Query;
use std::alloc::Global;
use wfs_ends::{List, Mem, Text};

/// The name of the built-in query GetFeatureById that stands in replies (OGC 09-025r2, section 7.9.3.6).
pub const ID_QUERY_URN: &str = "urn:ogc:def:query:OGC-WFS::GetFeatureById";

/// Its other name.
const ID_QUERY_ADDRESS: &str = "http://www.opengis.net/def/query/OGC-WFS/0/GetFeatureById";

/// Whether an identifier is one of the two names of the built-in query (OGC 09-025r2, section 7.9.3.6).
#[tactic(auto, unfolding(crate::specs::Stored::is_id_query))]
pub fn is_id_query(id: &str) -> bool
    ensures { result ≡ is_id_query id.now }
{
    id == ID_QUERY_URN || id == ID_QUERY_ADDRESS
}

/// A stored query (OGC 09-025r2, 14.2).
#[derive(Debug, PartialEq, Eq, Drop)]
pub struct StoredQuery {
    /// Its identifier.
    pub id: Text,
    /// Its title, which may be empty.
    pub title: Text,
    /// The names of its parameters, in order.
    pub parameters: List<Text>,
    /// What it asks. A parameter stands by its place among the names.
    pub queries: List<Query>,
    /// Its queries as text.
    pub text: Text,
}

fn copy_names(alloc: Global, names: &[Text]) -> Mem<List<Text>>
    ensures { IfOk result (λ all. all ≡ names.now) }
{
    let mut all = Vec::with_capacity(alloc, names.len())?;
    for name in names {
        all.push(name.copy(alloc)?)?;
    }
    Ok(List::of(all))
}

fn copy_queries(alloc: Global, queries: &[Query]) -> Mem<List<Query>>
    ensures { IfOk result (λ all. all ≡ queries.now) }
{
    let mut all = Vec::with_capacity(alloc, queries.len())?;
    for query in queries {
        all.push(query.copy(alloc)?)?;
    }
    Ok(List::of(all))
}

impl StoredQuery {
    /// An equal stored query.
    pub fn copy(&self, alloc: Global) -> Mem<StoredQuery>
        ensures { IfOk result (λ q. q ≡ self.now) }
    {
        Ok(StoredQuery {
            id: self.id.copy(alloc)?,
            title: self.title.copy(alloc)?,
            parameters: copy_names(alloc, self.parameters.items())?,
            queries: copy_queries(alloc, self.queries.items())?,
            text: self.text.copy(alloc)?,
        })
    }
}

/// Equal stored queries, in order.
pub(crate) fn copy_stored(alloc: Global, stored: &[StoredQuery]) -> Mem<List<StoredQuery>>
    ensures { IfOk result (λ all. all ≡ stored.now) }
{
    let mut all = Vec::with_capacity(alloc, stored.len())?;
    for query in stored {
        all.push(query.copy(alloc)?)?;
    }
    Ok(List::of(all))
}
