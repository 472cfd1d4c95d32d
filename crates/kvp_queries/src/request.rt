//! The request of a query of pairs.

ghost use Rattle.std.specs.Prelude.{◌≡◌, All, IfOk};
ghost use Rattle.wfs_ends.specs.Read.{GivesBut};
ghost use Rattle.wfs_model.specs.OfSchema.{stored_in, IsOfSchema};
ghost use Rattle.query_docs.specs.Reading.{IsKeptText};
ghost use Rattle.kvp_queries.specs.Pairs.{said_by};
ghost use Rattle.kvp_queries.specs.Request.{version_for, base_of, request_of, judged, asked_of};

use crate::describing::{capabilities_of, described_of, drop_of, types_of};
use crate::features::{features_of, values_of};
use crate::locks::{lock_asked, locked_of};
use crate::pairs::{Listed, listed_of, pairs_of};
use feature_values::Schema;
use request_parameters::{Operation, queried_of, service_of, version_of};
use std::alloc::Global;
use wfs_ends::{List, Text};
use wfs_model::{AskFault, Request, refused};

// The version, which GetCapabilities agrees on by itself.
fn version_for(alloc: Global, operation: Operation, listed: &Listed) -> Result<(), AskFault>
    ensures { GivesBut AskFault.OutOfMemory (λ x. x) result
        (version_for operation (said_by listed.now.pairs)) }
{
    match operation {
        Operation::GetCapabilities => Ok(()),
        _ => version_of(alloc, listed),
    }
}

// The service, the operation and the version.
#[tactic(auto, unfolding(crate::specs::Request::base_of))]
fn base_of(alloc: Global, listed: &Listed) -> Result<Operation, AskFault>
    ensures { GivesBut AskFault.OutOfMemory (λ x. x) result (base_of (said_by listed.now.pairs)) }
{
    service_of(alloc, listed)?;
    let operation = queried_of(alloc, listed)?;
    version_for(alloc, operation, listed)?;
    Ok(operation)
}

// The request of an operation.
#[tactic(auto, unfolding(crate::specs::Request::request_of))]
fn request_of(
    alloc: Global,
    schema: &Schema,
    pairs: &[(Text, Text)],
    listed: &Listed,
    operation: Operation,
) -> Result<Request, AskFault>
    ensures { GivesBut AskFault.OutOfMemory (λ r. r) result
        (request_of schema.now pairs.now (said_by listed.now.pairs) operation) }
{
    match operation {
        Operation::GetCapabilities => capabilities_of(alloc, listed),
        Operation::DescribeFeatureType => types_of(alloc, schema, listed),
        Operation::GetPropertyValue => values_of(alloc, schema, pairs, listed),
        Operation::GetFeature => features_of(alloc, schema, pairs, listed),
        Operation::GetFeatureWithLock => locked_of(alloc, schema, pairs, listed),
        Operation::LockFeature => lock_asked(alloc, schema, pairs, listed),
        Operation::ListStoredQueries => Ok(Request::ListStored),
        Operation::DescribeStoredQueries => described_of(alloc, listed),
        Operation::DropStoredQuery => drop_of(alloc, listed),
        Operation::Transaction | Operation::CreateStoredQuery => {
            Err(refused(alloc, 9, operation.name()))
        }
    }
}

// The request of pairs, of which these have listed names.
#[tactic(auto, unfolding(crate::specs::Request::judged))]
fn judged(
    alloc: Global,
    schema: &Schema,
    pairs: &[(Text, Text)],
    listed: &Listed,
) -> Result<Request, AskFault>
    ensures { GivesBut AskFault.OutOfMemory (λ r. r) result
        (judged schema.now pairs.now (said_by listed.now.pairs)) }
{
    let operation = base_of(alloc, listed)?;
    request_of(alloc, schema, pairs, listed, operation)
}

// The request that a query asks.
#[tactic(auto, unfolding(crate::specs::Request::asked_of))]
fn asked_of(alloc: Global, query: &str, schema: &Schema) -> Result<Request, AskFault>
    ensures { GivesBut AskFault.OutOfMemory (λ r. r) result (asked_of query.now schema.now) }
{
    let pairs = pairs_of(alloc, query.as_bytes())?;
    let listed = Listed {
        pairs: List::of(listed_of(alloc, &pairs)?),
    };
    judged(alloc, schema, &pairs, &listed)
}

/// Reads a request that came as a query of key-value pairs (OGC 09-025r2, section 6.2.5): what stands behind the `?` of the request's
/// target, with its escapes.
///
/// Names count without their case, values with it, and a pair whose name or value is empty counts as not there. The first of these
/// refusals is answered, by its row of the table of refusals (docs/FORMATS.md) and with the name as it is listed: a name comes twice
/// that some operation lists (8), in the query's order, where `typeName` and `typeNames` of one value count as one; no `service` (10),
/// or another than `WFS` (11); no `request` (10), or one that is no operation or none that may come as a query (9, with the
/// operation); a `version` other than `2.0.0` and `2.0.2` (11), which GetCapabilities does not look at; and then the operation's
/// parameters, in the order in which they stand here, and at the end what is missing (10). Names that the operation does not list are
/// ignored, or are parameters of a stored query.
///
/// - GetCapabilities: `acceptVersions`, a list of which one has to be the service's (13).
/// - DescribeFeatureType: `typeNames`, a list of types (11), and `outputFormat` (11). None stands for all types.
/// - GetFeature: how features are presented, and which are asked for.
/// - GetPropertyValue: the same, and `valueReference` (required), which is looked up last: a name that the type does not have is row 11
///   with the name as given, and without a type row 11 with `valueReference`. Beside a stored query it is kept among the parameters.
/// - GetFeatureWithLock: the same as GetFeature, where a `resultType` of `hits` is row 11; `expiry`, 1 to 4,294,967,295 seconds or 300;
///   and `lockAction`, `ALL` or `SOME` (11 each).
/// - LockFeature: `lockId` (15), `expiry`, `lockAction`, and which features are asked for, or nothing of that beside `lockId` (11 with
///   `lockId`).
/// - DescribeStoredQueries: `storedQuery_id`, a list. DropStoredQuery: `storedQuery_id` (required), which is not the built-in one (12).
///
/// How features are presented: a `count` or `startIndex` that is no number from 0 to 4,294,967,295, a `resultType` other than `results`
/// and `hits`, and an `outputFormat` other than GML 3.2 (11 each); a `resolve` other than `none` (12).
///
/// Which features are asked for:
///
/// - `storedQuery_id`, beside which the names that the operation does not list are parameters, in order and as given; the others are
///   judged all the same and ask for nothing;
/// - more than one type (12) or one that the schema does not have (11, both with `typeNames`); an `srsName` that the schema does not
///   have (11);
/// - a `filter` that is no document (8), or what `fes_docs::read_filter` says of it for the type, or for no type;
/// - a `bbox` (11) that is not the two coordinates of a lower corner, those of an upper corner of which none lies below the lower one's,
///   and then a name of the schema's reference system or none, with commas between them (OGC 06-121r9, section 10.2.3); a coordinate
///   is as `gml_docs::read_position` reads it, and the corners may be one position;
/// - more than one of `resourceId`, `filter` and `bbox` (11, with the last of them in this order);
/// - a `sortBy` without a type (11); one that is no list, with commas between them, of properties of the type, each with `ASC` or
///   `DESC` behind a space or nothing (OGC 09-026r2, section 7.12): a name that the type does not have (11, with the name as given), and a
///   geometry or another word (11, with `sortBy`);
/// - a `propertyName` other than `*` (12);
/// - and `typeNames` is missing where neither `resourceId` nor `storedQuery_id` is there.
///
/// `OutOfMemory`: there is no memory for the request or the refusal.
pub fn read_query(alloc: Global, query: &str, schema: &Schema) -> Result<Request, AskFault>
    ensures read { GivesBut AskFault.OutOfMemory (λ r. r) result (asked_of query.now schema.now) }
    ensures of_schema { IfOk result (λ r. IsOfSchema schema.now r) }
    // No stored query is made, whose text would have to read back.
    ensures kept { IfOk result (λ r. All (IsKeptText schema.now) (stored_in r)) }
{
    asked_of(alloc, query, schema)
}
