//! The request of a document, by its root.

ghost use Rattle.std.specs.Prelude.{◌≡◌, All, IfOk};
ghost use Rattle.wfs_ends.specs.Read.{GivesBut};
ghost use Rattle.doc_laws.specs.InDocument.{IsInDocument};
ghost use Rattle.feature_schema.specs.Rules.{KeepsRules};
ghost use Rattle.wfs_model.specs.OfSchema.{stored_in, IsOfSchema};
ghost use Rattle.query_docs.specs.Reading.{IsKeptText};
ghost use Rattle.wfs_requests.specs.Requests.{root_of, request_by, request_of};

use crate::capabilities::capabilities_of;
use crate::describing::types_of;
use crate::fetching::{features_of, lock_request, locked_of, values_request};
use crate::stored_queries::{created_of, described_of, drop_of, list_of};
use crate::transactions::transaction_of;
use doc_tree::Element;
use feature_values::Schema;
use request_parameters::{Operation, WFS, operation_of};
use std::alloc::Global;
use wfs_model::{AskFault, Request, refused};

// The operation that a root names.
#[tactic(auto, unfolding(crate::specs::Requests::root_of))]
fn root_of(alloc: Global, root: &Element) -> Result<Operation, AskFault>
    ensures { GivesBut AskFault.OutOfMemory (λ operation. operation) result (root_of root.now) }
{
    let name = root.name.local.as_str();
    if root.name.space.as_str() == WFS {
        return operation_of(alloc, name);
    }
    Err(refused(alloc, 9, name))
}

// The request of a root of an operation.
fn request_by(
    alloc: Global,
    schema: &Schema,
    root: &Element,
    operation: Operation,
) -> Result<Request, AskFault>
    ensures { GivesBut AskFault.OutOfMemory (λ request. request) result
        (request_by schema.now root.now operation) }
{
    match operation {
        Operation::GetCapabilities => capabilities_of(alloc, root),
        Operation::DescribeFeatureType => types_of(alloc, schema, root),
        Operation::GetPropertyValue => values_request(alloc, schema, root),
        Operation::GetFeature => features_of(alloc, schema, root),
        Operation::GetFeatureWithLock => locked_of(alloc, schema, root),
        Operation::LockFeature => lock_request(alloc, schema, root),
        Operation::Transaction => transaction_of(alloc, schema, root),
        Operation::ListStoredQueries => list_of(alloc, root),
        Operation::DescribeStoredQueries => described_of(alloc, root),
        Operation::CreateStoredQuery => created_of(alloc, schema, root),
        Operation::DropStoredQuery => drop_of(alloc, root),
    }
}

// The request of a document's root.
#[tactic(auto, unfolding(crate::specs::Requests::request_of))]
fn request_of(alloc: Global, root: &Element, schema: &Schema) -> Result<Request, AskFault>
    ensures { GivesBut AskFault.OutOfMemory (λ request. request) result
        (request_of root.now schema.now) }
{
    let operation = root_of(alloc, root)?;
    request_by(alloc, schema, root, operation)
}

/// Reads a document's root as a request to a service of this schema (OGC 09-025r2, section 7).
///
/// Each element is judged in this order, and the first refusal is answered, by its row of the table of refusals
/// (docs/FORMATS.md) and the name of the part that it points at. Its name is allowed where it stands, else row 8 with its local
/// name. Its listed attributes, in the order of the list: one that is required and missing is row 10, a value that is none row 11,
/// each with the attribute's name. Other attributes in no namespace: the first by name is row 12. Its children in document order.
/// Children that are missing are row 8 with the local name of the element that wants them. Attributes of namespaces are not looked
/// at, nor is text beside child elements. Where an element holds text alone, a child is row 8 with the child's local name.
///
/// The root names one of the eleven operations in the service's namespace; any other root is row 9 with its local name. Each has
/// `service` (required; `WFS`), `version` (`2.0.0` or `2.0.2`) and `handle`, and then:
///
/// - GetCapabilities (section 8) has at most one `ows:AcceptVersions`, with any number of `ows:Version`; `ows:Sections` and
///   `ows:AcceptFormats` are passed over. Where versions are listed and the service has none of them, row 13 is judged last.
/// - DescribeFeatureType (9) has `outputFormat` (GML 3.2), and any number of TypeName, without which all types are described. An
///   unknown type is row 11 with `TypeName`.
/// - GetFeature (11) has a page: `count`, `startIndex`, `resultType` (`results` or `hits`), `outputFormat` and `resolve` (`none`,
///   else row 12). It holds one Query or StoredQuery or more, which `query_docs` reads.
/// - GetPropertyValue (10) has a page and `valueReference` (required), and holds one Query or StoredQuery. The property is looked up
///   last of all in the type of the Query: an unknown one is row 11 with its name as given. Beside a StoredQuery the name is kept
///   behind the given parameters, under the empty name.
/// - GetFeatureWithLock (13) has a page, which is not only counted, `expiry` (1 or more seconds) and `lockAction` (`ALL` or `SOME`),
///   and holds what GetFeature holds.
/// - LockFeature (12) has `lockId` (row 15 where there could be no such lock), `expiry` and `lockAction`. With `lockId` it is a
///   renewal and holds nothing, else row 11 with `lockId`; without it holds what GetFeature holds.
/// - Transaction (15) has `lockId`, `releaseAction` (`ALL` or `SOME`) and `srsName` (one of the schema's), and any number of Insert,
///   Update, Replace and Delete. A Native is row 12 with `Native`.
/// - ListStoredQueries (14.3) holds nothing. DescribeStoredQueries (14.4) holds any number of StoredQueryId, without which all are
///   described. CreateStoredQuery (14.5) holds one StoredQueryDefinition or more, which `query_docs` reads. DropStoredQuery (14.6)
///   has `id` (required); the built-in query is row 12 with `storedQuery_id`.
///
/// The actions, with `handle`:
///
/// - Insert (15.2.4) has `inputFormat` (GML 3.2) and `srsName`, and holds one feature or more.
/// - Update (15.2.5) has `typeName` (required), `inputFormat` and `srsName`, and holds one Property or more and then at most one
///   `fes:Filter`. A Property holds a ValueReference (`action` is `replace`, else row 12), and then at most one Value. An unknown
///   property is row 11 with its name as given. No Value, or an empty one of a geometry, is null.
/// - Replace (15.2.6) has what Insert has, and holds a feature and then a `fes:Filter`.
/// - Delete (15.2.7) has `typeName` (required), and holds a `fes:Filter`.
///
/// A feature is an element of the schema's namespace with the name of a type, and its children are properties of the type in that
/// namespace, in any order and each at most once; else row 14 with the element's local name. A `gml:boundedBy` is passed over. A
/// required property that is missing is row 14 with its name. A property without content and with `xsi:nil` `true` or `1` is null,
/// which is row 14 with its name where it is required. A text is taken whole; whole numbers and truth values lose the white space at
/// both ends. A geometry is the one child element (OGC 07-036). What is no value of the property's kind, or longer than it allows, is
/// row 14 with its name.
///
/// A request that was read is one that the schema allows (`of_schema`): types, properties and values are the schema's, and filters
/// such as their types allow. Features have the number 0. The text that a stored query keeps reads back as its queries, by
/// `query_docs::read_text` (`kept`). Texts are shared with the tree. `OutOfMemory`: there is no memory for the request, or for the
/// name that a refusal points at.
#[tactic(auto, using(crate::proofs::Allowed::request_is, crate::proofs::Kept::request_kept))]
pub fn read_request(alloc: Global, root: &Element, schema: &Schema) -> Result<Request, AskFault>
    ensures gives { GivesBut AskFault.OutOfMemory (λ request. request) result
        (request_of root.now schema.now) }
    ensures of_schema { IfOk result (λ request. IsOfSchema schema.now request) }
    // The texts of stored queries read back, where the schema is one of a schema file, and the root one of a document.
    ensures kept { KeepsRules schema.now → IsInDocument root.now
        → IfOk result (λ request. All (IsKeptText schema.now) (stored_in request)) }
{
    request_of(alloc, root, schema)
}
