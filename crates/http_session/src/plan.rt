//! What a head says of the rest of its message.
ghost use Rattle.std.specs.Prelude.{◌≡◌, length, All, codes, not, Ok};
ghost use Rattle.httparse.specs.Spans.{IsHeaderWithin};
ghost use Rattle.http_session.specs.Fields.{plan_of, framing_of, after_length, body_of, is_announced, is_due, is_coded, is_chunked, both_stated, is_none, is_only, is_other_than, values_of, fields_at, capped_length, length_of};

use crate::fields::{find_named, has_close, has_wait};
use crate::message::Ending;
use httparse::spans::HeaderSpan;

/// A message has at most so many bytes of content.
pub(crate) const BODY_LIMIT: usize = 4194304;

/// How the end of a body is known.
#[derive(Clone, Copy, Debug, PartialEq, Eq)]
pub(crate) enum Body {
    /// It has so many bytes.
    Sized(usize),
    /// It comes in chunks.
    Chunked,
}

/// What a head says of the rest of its message.
#[derive(Clone, Copy, Debug, PartialEq, Eq)]
pub(crate) struct Plan {
    pub body: Body,
    /// The sender waits for the line `100 Continue`.
    pub due: bool,
    /// The connection closes after the answer.
    pub close: bool,
}

/// A head has at most so many fields.
const FIELD_LIMIT: usize = 64;

/// What the head of this method, version and fields says.
#[tactic(auto, unfolding(crate::specs::Fields::plan_of, crate::specs::Fields::is_due, crate::specs::Fields::closes))]
pub(crate) fn plan_of(
    method: &[u8],
    minor: u8,
    bytes: &[u8],
    headers: &[HeaderSpan],
) -> Result<Plan, Ending>
    requires within { All (IsHeaderWithin (length bytes.now)) headers.now }
    ensures { result ≡ plan_of method.now minor (fields_at bytes.now headers.now) }
{
    match framing_of(method, bytes, headers) {
        Err(ending) => Err(ending),
        Ok(body) => Ok(Plan {
            body,
            due: minor == 1 && is_announced(body) && has_wait(bytes, headers),
            close: minor == 0 || has_close(bytes, headers),
        }),
    }
}

fn is_announced(body: Body) -> bool
    ensures { result ≡ is_announced body }
{
    match body {
        Body::Sized(size) => size > 0,
        Body::Chunked => true,
    }
}

/// Lengths and codings are judged in this order: too many fields, two kinds of length, lengths that are no number or
/// differ, codings, no length where one must be, a length above the limit.
#[tactic(auto, unfolding(crate::specs::Fields::framing_of), using(crate::proofs::Plans::after_capped))]
fn framing_of(method: &[u8], bytes: &[u8], headers: &[HeaderSpan]) -> Result<Body, Ending>
    requires within { All (IsHeaderWithin (length bytes.now)) headers.now }
    ensures { result ≡ framing_of method.now (fields_at bytes.now headers.now) }
{
    if headers.len() > FIELD_LIMIT {
        return Err(Ending::BadHead);
    }
    if are_both_stated(bytes, headers) {
        return Err(Ending::BadHead);
    }
    match stated_length(bytes, headers) {
        Err(ending) => Err(ending),
        Ok(stated) => coded_body(method, bytes, headers, stated),
    }
}

/// Both a length and a transfer coding stand, so that a body could be read in two ways.
#[tactic(auto, unfolding(crate::specs::Fields::both_stated))]
fn are_both_stated(bytes: &[u8], headers: &[HeaderSpan]) -> bool
    requires within { All (IsHeaderWithin (length bytes.now)) headers.now }
    ensures { result ≡ both_stated (fields_at bytes.now headers.now) }
{
    has(bytes, headers, b"transfer-encoding") && has(bytes, headers, b"content-length")
}

/// The body, where this length is stated.
#[tactic(auto, unfolding(crate::specs::Fields::is_chunked))]
fn coded_body(
    method: &[u8],
    bytes: &[u8],
    headers: &[HeaderSpan],
    stated: Option<usize>,
) -> Result<Body, Ending>
    requires within { All (IsHeaderWithin (length bytes.now)) headers.now }
    ensures { result ≡ after_length (Ok stated) method.now (fields_at bytes.now headers.now) }
{
    if is_coded(bytes, headers) {
        return Err(Ending::Coding);
    }
    let is_chunked = has(bytes, headers, b"transfer-encoding");
    body_of(is_chunked, method == b"POST".as_slice(), stated)
}

fn body_of(is_chunked: bool, is_post: bool, stated: Option<usize>) -> Result<Body, Ending>
    ensures { result ≡ body_of is_chunked is_post stated }
{
    match stated {
        Some(size) if size > BODY_LIMIT => Err(Ending::TooLarge),
        Some(size) => Ok(Body::Sized(size)),
        None if is_chunked => Ok(Body::Chunked),
        None if is_post => Err(Ending::NoLength),
        None => Ok(Body::Sized(0)),
    }
}

/// A transfer coding other than `chunked`, or a content coding other than `identity`.
#[tactic(auto, unfolding(crate::specs::Fields::is_coded))]
fn is_coded(bytes: &[u8], headers: &[HeaderSpan]) -> bool
    requires within { All (IsHeaderWithin (length bytes.now)) headers.now }
    ensures { result ≡ is_coded (fields_at bytes.now headers.now) }
{
    is_other_than(bytes, headers, b"transfer-encoding", b"chunked")
        || is_other_than(bytes, headers, b"content-encoding", b"identity")
}

/// A field of this name stands there.
fn has(bytes: &[u8], headers: &[HeaderSpan], name: &[u8]) -> bool
    requires within { All (IsHeaderWithin (length bytes.now)) headers.now }
    ensures { result ≡ not (is_none (values_of name.now (fields_at bytes.now headers.now))) }
{
    !find_named(bytes, headers, name).is_none()
}

/// The list that the fields of this name stand for is one word.
fn is_only(bytes: &[u8], headers: &[HeaderSpan], name: &[u8], word: &[u8]) -> bool
    requires within { All (IsHeaderWithin (length bytes.now)) headers.now }
    ensures { result ≡ is_only word.now (values_of name.now (fields_at bytes.now headers.now)) }
{
    find_named(bytes, headers, name).is_only(word)
}

/// A coding is named, and it is not this one.
fn is_other_than(bytes: &[u8], headers: &[HeaderSpan], name: &[u8], word: &[u8]) -> bool
    requires within { All (IsHeaderWithin (length bytes.now)) headers.now }
    ensures { result ≡ is_other_than word.now (values_of name.now
        (fields_at bytes.now headers.now)) }
{
    has(bytes, headers, name) && !is_only(bytes, headers, name, word)
}

/// The length that `Content-Length` states.
fn stated_length(bytes: &[u8], headers: &[HeaderSpan]) -> Result<Option<usize>, Ending>
    requires within { All (IsHeaderWithin (length bytes.now)) headers.now }
    ensures { result ≡ capped_length (length_of
        (values_of (codes "content-length") (fields_at bytes.now headers.now))) }
{
    find_named(bytes, headers, b"content-length").length()
}
