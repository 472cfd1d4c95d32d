//! A service of marks without properties, and the mark that comes.

ghost use Rattle.std.specs.Prelude.{◌≡◌, IfOk};
ghost use Rattle.feature_values.specs.declared.schema.Schema.{Schema as TheSchema};
ghost use Rattle.wfs_model.specs.Changing.{IsChange};
ghost use Rattle.wfs_model.specs.Playable.{AreQueriesOf};

use feature_values::{Feature, FeatureType, Rid, Schema};
use fes_filter::Query;
use std::alloc::Global;
use wfs_ends::{List, Mem, Text};
use wfs_model::{Asked, Change, Part, Present, Request};

/// A schema whose one type is Mark.
pub fn schema(alloc: Global) -> Mem<Schema> {
    let mut types = Vec::new(alloc);
    types.push(FeatureType {
        name: Text::of(alloc, "Mark")?,
        properties: List::of(Vec::new(alloc)),
    })?;
    Ok(Schema {
        title: Text::of(alloc, "Marks")?,
        address: Text::of(alloc, "http://localhost/wfs")?,
        space: Text::of(alloc, "urn:marks")?,
        prefix: Text::of(alloc, "m")?,
        srs: List::of(Vec::new(alloc)),
        types: List::of(types),
    })
}

/// The mark of a number comes. No stored query does.
pub fn insert(alloc: Global, number: u64) -> Mem<Change>
    ensures { IfOk result (λ change. (schema : TheSchema) → AreQueriesOf schema change) }
{
    let mark = Feature::of(alloc, Rid { kind: 0, number }, Vec::new(alloc))?;
    let mut parts = Vec::new(alloc);
    parts.push(Part::Put(mark))?;
    Ok(Change::Rows(List::of(parts)))
}

/// How many marks there are.
pub fn count(alloc: Global) -> Mem<Request>
    ensures { IfOk result (λ request. IsChange request → ⊥) }
{
    let mut asked = Vec::new(alloc);
    asked.push(Asked::Plain(Query {
        kind: Some(0),
        filter: None,
        sort: List::of(Vec::new(alloc)),
    }))?;
    let present = Present {
        start: 0,
        count: None,
        hits: true,
        link: None,
    };
    Ok(Request::GetFeatures(present, List::of(asked)))
}
