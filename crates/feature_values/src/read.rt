//! Texts read as values.

ghost use Rattle.std.specs.Prelude.{◌≡◌, ◌+◌, ◌≤◌, length};
ghost use Rattle.std.specs.List.{prefix_len, suffix_len};
ghost use Rattle.wfs_ends.specs.Read.{GivesBut};
ghost use Rattle.feature_values.specs.Reads.{is_space, trimmed, whole_of, truth_of, is_longer, read_as, reads};
ghost use Rattle.feature_values.specs.declared.fault.ValueFault.TheVariants.{OutOfMemory};

use crate::fault::ValueFault;
use crate::schema::{Property, ValueKind};
use crate::value::Value;
use std::alloc::Global;
use wfs_ends::Text;

#[tactic(auto, unfolding(crate::specs::Reads::is_space))]
fn is_space(byte: u8) -> bool
    ensures { result ≡ is_space byte }
{
    byte == b' ' || byte == b'\t' || byte == b'\n'
}

// How many bytes of white space stand first.
fn leading_spaces(bytes: &[u8]) -> usize
    ensures count { result ≡ prefix_len is_space bytes.now }
    ensures bound { result ≤ length bytes.now }
{
    for i in 0..bytes.len() {
        if !is_space(bytes[i]) {
            return i;
        }
    }
    bytes.len()
}

// Where the white space at the end begins.
#[tactic(auto, using(crate::proofs::Spaces::ends_in_space, crate::proofs::Spaces::ends_in_none, crate::proofs::Spaces::ends_at_once))]
fn trailing_start(bytes: &[u8]) -> usize
    ensures { result + suffix_len is_space bytes.now ≡ length bytes.now }
{
    let mut end = bytes.len();
    while end > 0 && is_space(bytes[end - 1]) {
        end -= 1;
    }
    end
}

#[tactic(auto, unfolding(crate::specs::Reads::trimmed))]
fn trimmed(bytes: &[u8]) -> &[u8]
    ensures { result.now ≡ trimmed bytes.now }
{
    let rest = &bytes[leading_spaces(bytes)..];
    &rest[..trailing_start(rest)]
}

fn whole_of_text(text: &str) -> Option<i64>
    ensures { result ≡ whole_of text.now }
{
    text.parse::<i64>().ok()
}

fn whole_of(bytes: &[u8]) -> Option<i64>
    ensures { result ≡ whole_of bytes.now }
{
    match str::from_utf8(bytes) {
        Ok(text) => whole_of_text(text),
        Err(_) => None,
    }
}

#[tactic(auto, unfolding(crate::specs::Reads::truth_of))]
fn truth_of(bytes: &[u8]) -> Option<bool>
    ensures { result ≡ truth_of bytes.now }
{
    if bytes == b"true" as &[u8] || bytes == b"1" as &[u8] {
        return Some(true);
    }
    if bytes == b"false" as &[u8] || bytes == b"0" as &[u8] {
        return Some(false);
    }
    None
}

#[tactic(auto, unfolding(crate::specs::Reads::is_longer))]
pub(crate) fn is_longer(text: &str, max: u32) -> bool
    ensures { result ≡ is_longer text.now max }
{
    text.chars().count() > max as usize
}

/// Reads a text as a value of a kind, whatever its length.
///
/// A text of `Words` is taken whole. Of `Whole` it is an optional sign and decimal digits whose number fits 64 bits
/// with sign, and of `Truth` one of `true`, `false`, `1` and `0` (XML Schema Part 2); both may have spaces, tabs and
/// line feeds at their ends. No text is a geometry.
///
/// `BadValue`: the text is no value of this kind. `OutOfMemory`: there is no memory for the text.
#[tactic(auto, unfolding(crate::specs::Reads::read_as))]
pub fn read_as(alloc: Global, kind: ValueKind, text: &str) -> Result<Value, ValueFault>
    ensures { GivesBut OutOfMemory (λ v. v) result (read_as kind text.now) }
{
    match kind {
        ValueKind::Words => Ok(Value::Words(Text::of(alloc, text)?)),
        ValueKind::Whole => match whole_of(trimmed(text.as_bytes())) {
            Some(number) => Ok(Value::Whole(number)),
            None => Err(ValueFault::BadValue),
        },
        ValueKind::Truth => match truth_of(trimmed(text.as_bytes())) {
            Some(truth) => Ok(Value::Truth(truth)),
            None => Err(ValueFault::BadValue),
        },
        ValueKind::Point | ValueKind::Line | ValueKind::Polygon => Err(ValueFault::BadValue),
    }
}

/// Reads a text as a value of a property, as `read_as` does for its kind.
///
/// `BadValue`: the text is no value of the property's kind. `TooLong`: the property is of `Words`, and the text has
/// more characters than its `max`. `OutOfMemory`: there is no memory for the text.
#[tactic(auto, unfolding(crate::specs::Reads::reads, crate::specs::Reads::read_as))]
pub fn read_value(alloc: Global, property: &Property, text: &str) -> Result<Value, ValueFault>
    ensures { GivesBut OutOfMemory (λ v. v) result (reads property.now text.now) }
{
    match property.kind {
        ValueKind::Words => {
            if is_longer(text, property.max) {
                return Err(ValueFault::TooLong);
            }
            read_as(alloc, ValueKind::Words, text)
        }
        kind => read_as(alloc, kind, text),
    }
}
