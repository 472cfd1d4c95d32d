//! What a message asks: its path is judged first, then its method, then its query or its document.

ghost use Rattle.std.specs.Prelude.{◌≡◌, All, IfOk};
ghost use Rattle.wfs_ends.specs.Read.{GivesBut};
ghost use Rattle.doc_read.specs.Document.{document};
ghost use Rattle.feature_schema.specs.Rules.{KeepsRules};
ghost use Rattle.query_docs.specs.Reading.{IsKeptText};
ghost use Rattle.wfs_model.specs.OfSchema.{IsOfSchema, stored_in};
ghost use Rattle.http_requests.specs.Asks.{is_service_path, is_get, is_post, path_of, query_of, posted, asked};

use doc_laws::in_document;
use doc_read::{DocFault, read_document};
use feature_values::Schema;
use http_session::Message;
use kvp_queries::read_query;
use percent_encoding::percent_decode;
use std::alloc::Global;
use wfs_model::{AskFault, Request, refused};
use wfs_requests::read_request;

// Whether a path is the one of the service, once it is decoded.
#[tactic(auto, unfolding(crate::specs::Asks::is_service_path))]
fn is_service_path(path: &[u8]) -> bool
    ensures { result ≡ is_service_path path.now }
{
    let mut bytes = percent_decode(path);
    bytes.next() == Some(b'/')
        && bytes.next() == Some(b'w')
        && bytes.next() == Some(b'f')
        && bytes.next() == Some(b's')
        && bytes.next().is_none()
}

/// A target's path, and the query behind its first question mark.
pub fn split_target(target: &str) -> (&str, &str)
    ensures path { result.0.now ≡ path_of target.now }
    ensures query { result.1.now ≡ query_of target.now }
{
    match target.split_once('?') {
        None => (target, ""),
        Some(parts) => parts,
    }
}

// Reads the request of a document.
fn read_posted(alloc: Global, body: &[u8], schema: &Schema) -> Result<Request, AskFault>
    ensures read { GivesBut AskFault.OutOfMemory (λ r. r) result
        (posted (document body.now) schema.now) }
    ensures of_schema { IfOk result (λ r. IsOfSchema schema.now r) }
    ensures kept { KeepsRules schema.now → IfOk result
        (λ r. All (IsKeptText schema.now) (stored_in r)) }
{
    match read_document(alloc, body) {
        Ok(root) => {
            in_document();
            read_request(alloc, &root, schema)
        }
        Err(DocFault::OutOfMemory) => Err(AskFault::OutOfMemory),
        Err(_) => Err(refused(alloc, 7, "document")),
    }
}

/// Reads what a message asks of a service with this schema: by its path, then its method, then its query or its document
/// (RFC 9110, section 9.3; OGC 09-025r2, sections 6.2 and 7.5).
///
/// A refusal is the first in this order. The one path is `/wfs`, which may come with escapes (404, `path`); the methods
/// are GET and POST (501, `method`); and what POST brings is a document (400, `document`). Else the refusal is that of the
/// query or of the document's request. Want of memory says nothing of the message.
#[tactic(auto, unfolding(crate::specs::Asks::asked))]
pub fn read_asked(alloc: Global, message: &Message, schema: &Schema) -> Result<Request, AskFault>
    ensures read { GivesBut AskFault.OutOfMemory (λ r. r) result (asked message.now schema.now) }
    ensures of_schema { IfOk result (λ r. IsOfSchema schema.now r) }
    // The texts of stored queries read back, where the schema is one of a schema file.
    ensures kept { KeepsRules schema.now → IfOk result
        (λ r. All (IsKeptText schema.now) (stored_in r)) }
{
    let (path, query) = split_target(message.target.as_str());
    if !is_service_path(path.as_bytes()) {
        return Err(refused(alloc, 5, "path"));
    }
    match message.method.as_str() {
        "GET" => read_query(alloc, query, schema),
        "POST" => read_posted(alloc, message.body.items(), schema),
        _ => Err(refused(alloc, 6, "method")),
    }
}
