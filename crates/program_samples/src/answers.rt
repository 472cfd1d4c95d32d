//! Answers as bytes, from the formats' own words.

use crate::messages::{add, add_length};
use std::alloc::Global;
use wfs_ends::Mem;

/// Adds an answer: its status and phrase, its content type, a further field, and its body. One that has no content type has nothing
/// but its status.
pub fn add_answer(
    text: &mut String,
    status: &str,
    kind: &str,
    field: &str,
    body: &[&str],
) -> Mem<()> {
    add(text, &["HTTP/1.1 ", status, "\r\n"])?;
    if !kind.is_empty() {
        add(text, &["Content-Type: ", kind, "\r\n"])?;
        add_length(text, body)?;
    }
    add(text, &[field, "\r\n"])?;
    add(text, body)
}

/// The body of a refusal, up to its code.
pub const REPORT: &str =
    "<?xml version=\"1.0\" encoding=\"UTF-8\"?><ows:ExceptionReport xmlns:ows=\"http://www.opengis.net/ows/1.1\" version=\"2.0.2\"><ows:Exception exceptionCode=\"";

/// What stands before the locator.
pub const REPORT_LOCATOR: &str = "\" locator=\"";

/// What stands before the text.
pub const REPORT_TEXT: &str = "\"><ows:ExceptionText>";

/// What stands behind the text.
pub const REPORT_END: &str = "</ows:ExceptionText></ows:Exception></ows:ExceptionReport>";

/// A refusal: its status and phrase, its code, its locator and its text.
pub fn refusal(alloc: Global, status: &str, code: &str, locator: &str, text: &str) -> Mem<String> {
    let mut all = String::new(alloc);
    let body = [
        REPORT,
        code,
        REPORT_LOCATOR,
        locator,
        REPORT_TEXT,
        text,
        REPORT_END,
    ];
    add_answer(&mut all, status, "text/xml", "", &body)?;
    Ok(all)
}

/// An answer: its status and phrase, its content type, a further field, and the parts of its body.
pub type Answer = (
    &'static str,
    &'static str,
    &'static str,
    &'static [&'static str],
);

/// Answers, one after the other.
pub fn answers_of(alloc: Global, answers: &[Answer]) -> Mem<String> {
    let mut output = String::new(alloc);
    for answer in answers {
        let (status, kind, field, body) = *answer;
        add_answer(&mut output, status, kind, field, body)?;
    }
    Ok(output)
}

/// The body behind the insertion of two marks, the first of all.
pub const INSERTED: &str =
    "<?xml version=\"1.0\" encoding=\"UTF-8\"?><wfs:TransactionResponse xmlns:wfs=\"http://www.opengis.net/wfs/2.0\" xmlns:fes=\"http://www.opengis.net/fes/2.0\" version=\"2.0.2\"><wfs:TransactionSummary><wfs:totalInserted>2</wfs:totalInserted><wfs:totalUpdated>0</wfs:totalUpdated><wfs:totalReplaced>0</wfs:totalReplaced><wfs:totalDeleted>0</wfs:totalDeleted></wfs:TransactionSummary><wfs:InsertResults><wfs:Feature><fes:ResourceId rid=\"Mark.1\"/></wfs:Feature><wfs:Feature><fes:ResourceId rid=\"Mark.2\"/></wfs:Feature></wfs:InsertResults></wfs:TransactionResponse>";

/// What a collection at the moment 1,000 begins with, up to how many were matched.
pub const COLLECTION: &str =
    "<?xml version=\"1.0\" encoding=\"UTF-8\"?><wfs:FeatureCollection xmlns:wfs=\"http://www.opengis.net/wfs/2.0\" xmlns:gml=\"http://www.opengis.net/gml/3.2\" xmlns:m=\"http://example.org/marks\" timeStamp=\"1970-01-01T00:16:40Z\" numberMatched=\"";

/// The content type of collections.
pub const FEATURES: &str = "application/gml+xml; version=3.2";

/// The body that answers the first lock, on the first mark.
pub const LOCKED: &str =
    "<?xml version=\"1.0\" encoding=\"UTF-8\"?><wfs:LockFeatureResponse xmlns:wfs=\"http://www.opengis.net/wfs/2.0\" xmlns:fes=\"http://www.opengis.net/fes/2.0\" lockId=\"lock-1-1\"><wfs:FeaturesLocked><fes:ResourceId rid=\"Mark.1\"/></wfs:FeaturesLocked></wfs:LockFeatureResponse>";
