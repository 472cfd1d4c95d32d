//! The fields of a head.
ghost use Rattle.std.specs.Prelude.{option_map, ◌≡◌, ◌≤◌, ◌∷◌, length, map, All, codes, Option, false, true};
ghost use Rattle.std.specs.List.{list_any};
ghost use Rattle.httparse.specs.Spans.{IsHeaderWithin, header_bytes};
ghost use Rattle.http_session.specs.Fields.{same_word, values_of, found, found_of, found_more, found_field, is_close_field, is_wait_field, asks_to_wait, found_none, found_only, found_length, number_of, fields_at, lists_close, is_padded, after_first, is_only, is_none, length_of};

use crate::cut::{Class, split_run};
use crate::message::Ending;
use crate::plan::BODY_LIMIT;
use httparse::spans::HeaderSpan;

/// What the values of one name are, as far as the rules of lengths and codings ask.
#[derive(Clone, Copy, Debug)]
pub(crate) enum Named<'a> {
    None,
    One(&'a [u8]),
    /// Several, and all are this one.
    Equal(&'a [u8]),
    /// Several that differ.
    Other,
}

impl<'a> Named<'a> {
    pub fn is_none(&self) -> bool
        ensures { result ≡ found_none (found self.now) }
    {
        matches!(self, Named::None)
    }

    /// The only value is this word, in any case.
    pub fn is_only(&self, word: &[u8]) -> bool
        ensures { result ≡ found_only word.now (found self.now) }
    {
        match self {
            Named::One(value) => is_word(value, word),
            _ => false,
        }
    }

    /// The length that they state, where one above the limit stands for each greater one.
    pub fn length(&self) -> Result<Option<usize>, Ending>
        ensures { result ≡ found_length (found self.now) }
    {
        match self {
            Named::None => Ok(None),
            Named::One(value) | Named::Equal(value) => match number_of(value) {
                Some(number) => Ok(Some(number)),
                None => Err(Ending::BadHead),
            },
            Named::Other => Err(Ending::BadHead),
        }
    }

    /// With one more value.
    fn more(self, value: &'a [u8]) -> Named<'a>
        ensures { found result ≡ found_more (found self.entry) value.now }
    {
        match self {
            Named::None => Named::One(value),
            Named::One(first) | Named::Equal(first) => {
                if first == value {
                    Named::Equal(first)
                } else {
                    Named::Other
                }
            }
            Named::Other => Named::Other,
        }
    }

    /// With this field, if it has the name.
    fn with_field(self, bytes: &'a [u8], header: HeaderSpan, name: &[u8]) -> Named<'a>
        requires within { IsHeaderWithin (length bytes.now) header }
        ensures { found result ≡ found_field name.now (found self.entry)
            (header_bytes bytes.now header) }
    {
        if is_word(header.name.of(bytes), name) {
            self.more(header.value.of(bytes))
        } else {
            self
        }
    }
}

/// The values of the fields of this name.
pub(crate) fn find_named<'a>(bytes: &'a [u8], headers: &[HeaderSpan], name: &[u8]) -> Named<'a>
    requires within { All (IsHeaderWithin (length bytes.now)) headers.now }
    ensures { found result ≡ found_of (values_of name.now (fields_at bytes.now headers.now)) }
{
    let mut found = Named::None;
    for header in headers {
        found = found.with_field(bytes, *header, name);
    }
    found
}

/// A field `Connection` lists `close`.
pub(crate) fn has_close(bytes: &[u8], headers: &[HeaderSpan]) -> bool
    requires within { All (IsHeaderWithin (length bytes.now)) headers.now }
    ensures { result ≡ list_any lists_close (values_of (codes "connection")
        (fields_at bytes.now headers.now)) }
{
    for header in headers {
        if is_close(bytes, *header) {
            return true;
        }
    }
    false
}

fn is_close(bytes: &[u8], header: HeaderSpan) -> bool
    requires within { IsHeaderWithin (length bytes.now) header }
    ensures { result ≡ is_close_field (header_bytes bytes.now header) }
{
    is_word(header.name.of(bytes), b"connection") && lists_close(header.value.of(bytes))
}

/// A field `Expect` is `100-continue`: each is judged by itself, and a list is no such word.
pub(crate) fn has_wait(bytes: &[u8], headers: &[HeaderSpan]) -> bool
    requires within { All (IsHeaderWithin (length bytes.now)) headers.now }
    ensures { result ≡ list_any asks_to_wait (values_of (codes "expect")
        (fields_at bytes.now headers.now)) }
{
    for header in headers {
        if is_wait(bytes, *header) {
            return true;
        }
    }
    false
}

fn is_wait(bytes: &[u8], header: HeaderSpan) -> bool
    requires within { IsHeaderWithin (length bytes.now) header }
    ensures { result ≡ is_wait_field (header_bytes bytes.now header) }
{
    is_word(header.name.of(bytes), b"expect") && is_word(header.value.of(bytes), b"100-continue")
}

/// The list has the word `close`.
fn lists_close(value: &[u8]) -> bool
    ensures { result ≡ lists_close value.now }
{
    let mut rest = value;
    loop {
        let (part, tail) = split_run(rest, Class::Part);
        if is_padded(part, b"close") {
            return true;
        }
        match after_first(tail) {
            None => return false,
            Some(more) => rest = more,
        }
    }
}

/// The bytes without the first.
fn after_first(bytes: &[u8]) -> Option<&[u8]>
    ensures { option_map (λ rest. rest.now) result ≡ after_first bytes.now }
{
    match bytes {
        [] => None,
        [_, rest @ ..] => Some(rest),
    }
}

/// One word with blanks around it.
fn is_padded(bytes: &[u8], word: &[u8]) -> bool
    ensures { result ≡ is_padded word.now bytes.now }
{
    let (_, rest) = split_run(bytes, Class::Blank);
    let (front, back) = rest.split_at(rest.len().min(word.len()));
    let (_, more) = split_run(back, Class::Blank);
    is_word(front, word) && more.is_empty()
}

/// One word, whatever the case of its ASCII letters.
#[tactic(auto, unfolding(crate::specs::Fields::same_word))]
fn is_word(bytes: &[u8], word: &[u8]) -> bool
    ensures { result ≡ same_word bytes.now word.now }
{
    bytes.eq_ignore_ascii_case(word)
}

/// The number that the digits write, or one above the limit.
#[tactic(auto, unfolding(crate::specs::Fields::number_of))]
fn number_of(digits: &[u8]) -> Option<usize>
    ensures { result ≡ number_of digits.now }
{
    if digits.is_empty() {
        return None;
    }
    let mut number = 0;
    for digit in digits {
        if !digit.is_ascii_digit() {
            return None;
        }
        number = (number * 10 + usize::from(*digit - b'0')).min(BODY_LIMIT + 1);
    }
    Some(number)
}
