//! GetFeature and GetPropertyValue.

ghost use Rattle.std.specs.Prelude.{◌≡◌, Some, IfOk};
ghost use Rattle.wfs_ends.specs.Read.{GivesBut};
ghost use Rattle.request_parameters.specs.Paging.{presented};
ghost use Rattle.kvp_queries.specs.Pairs.{said_by, link_of};
ghost use Rattle.kvp_queries.specs.Request.{features_of, reference_of, values_of};

use crate::asking::{all_asked, enough_of, query_of, valued};
use crate::link::link_of;
use crate::pairs::Listed;
use feature_values::Schema;
use request_parameters::{Operation, Page, page_of, required_of};
use std::alloc::Global;
use wfs_ends::{Mem, Text};
use wfs_model::{AskFault, Present, Request};

// How a page is presented, with links to other pages.
fn linked(alloc: Global, schema: &Schema, pairs: &[(Text, Text)], page: Page) -> Mem<Present>
    ensures { IfOk result (λ p. p ≡ presented page (Some (link_of schema.now.address pairs.now))) }
{
    let link = link_of(alloc, schema.address.as_str(), pairs)?;
    Ok(page.presented(Some(link)))
}

// GetFeature.
#[tactic(auto, unfolding(crate::specs::Request::features_of))]
pub(crate) fn features_of(
    alloc: Global,
    schema: &Schema,
    pairs: &[(Text, Text)],
    listed: &Listed,
) -> Result<Request, AskFault>
    ensures { GivesBut AskFault.OutOfMemory (λ r. r) result
        (features_of schema.now pairs.now (said_by listed.now.pairs)) }
{
    let page = page_of(alloc, listed)?;
    let query = query_of(alloc, schema, listed)?;
    enough_of(alloc, listed)?;
    let all = all_asked(alloc, Operation::GetFeature, pairs, listed, query)?;
    let present = linked(alloc, schema, pairs, page)?;
    Ok(Request::GetFeatures(present, all))
}

// The name of the property whose values are asked for, where enough is named.
#[tactic(auto, unfolding(crate::specs::Request::reference_of))]
fn reference_of(alloc: Global, listed: &Listed) -> Result<Text, AskFault>
    ensures { GivesBut AskFault.OutOfMemory (λ x. x) result
        (reference_of (said_by listed.now.pairs)) }
{
    let name = required_of(alloc, listed, "valueReference")?;
    enough_of(alloc, listed)?;
    Ok(name)
}

// GetPropertyValue.
#[tactic(auto, unfolding(crate::specs::Request::values_of, crate::specs::Request::reference_of))]
pub(crate) fn values_of(
    alloc: Global,
    schema: &Schema,
    pairs: &[(Text, Text)],
    listed: &Listed,
) -> Result<Request, AskFault>
    ensures { GivesBut AskFault.OutOfMemory (λ r. r) result
        (values_of schema.now pairs.now (said_by listed.now.pairs)) }
{
    let page = page_of(alloc, listed)?;
    let query = query_of(alloc, schema, listed)?;
    let name = reference_of(alloc, listed)?;
    let (asked, property) = valued(alloc, schema, pairs, listed, query, name)?;
    let present = linked(alloc, schema, pairs, page)?;
    Ok(Request::GetValues(present, asked, property))
}
