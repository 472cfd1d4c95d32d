//! Characters and names.

ghost use Rattle.std.specs.Prelude.{◌≡◌, ◌<◌, []};
ghost use Rattle.std.specs.Str.{chars};
ghost use Rattle.doc_read.specs.Read.{GivesBy};
ghost use Rattle.doc_read.specs.Rest.{IsRest, Skips};
ghost use Rattle.doc_read.specs.Chars.{holds, split_front, starts, skip_space, expected_at};
ghost use Rattle.doc_read.specs.Lex.{name_at, spelled_at, spelled};

use crate::fault::DocFault;
use crate::front::{before, first};
use memchr::{memchr2, memchr3};

/// A set of characters.
#[derive(Clone, Copy)]
pub enum Class {
    Space,
    NameStart,
    NamePart,
    /// What may stand in text as it is.
    Text,
    /// What may stand as it is in a value between these quotes.
    Value(char),
    /// All but this quote.
    Quoted(char),
    Decimal,
    Hexadecimal,
}

impl Class {
    pub fn holds(self, c: char) -> bool
        ensures { result ≡ holds self c }
    {
        match self {
            Class::Space => c == ' ' || c == '\t' || c == '\n',
            Class::NameStart => c.is_ascii_alphabetic() || c == '_',
            Class::NamePart => c.is_ascii_alphanumeric() || c == '_' || c == '-' || c == '.',
            Class::Text => c != '<' && c != '&',
            Class::Value(quote) => c != quote && c != '<' && c != '&',
            Class::Quoted(quote) => c != quote,
            Class::Decimal => c.is_ascii_digit(),
            Class::Hexadecimal => c.is_ascii_hexdigit(),
        }
    }
}

/// What comes after the first character, where that is of the class.
#[inline]
fn after_one(class: Class, text: &str) -> Option<&str>
    ensures { Skips class result text.now }
{
    match first(text) {
        Some((c, rest)) if class.holds(c) => Some(rest),
        _ => None,
    }
}

/// What comes after the longest front without markup, which is found by its bytes.
fn skip_text(text: &str) -> &str
    ensures chars { chars result.now ≡ (split_front Class.Text (chars text.now)).1 }
    ensures rest { IsRest text.now result.now }
{
    match memchr2(b'<', b'&', text.as_bytes()) {
        Some(place) => text.split_at(place).1,
        None => "",
    }
}

/// What comes after the longest front of a value between these quotes, which is found by its bytes.
fn skip_value(quote: u8, text: &str) -> &str
    requires { quote < 128 }
    ensures chars { chars result.now ≡ (split_front (Class.Value quote) (chars text.now)).1 }
    ensures rest { IsRest text.now result.now }
{
    match memchr3(quote, b'<', b'&', text.as_bytes()) {
        Some(place) => text.split_at(place).1,
        None => "",
    }
}

/// What comes after the longest front of what may stand in a name, which is all of ASCII, byte by byte.
fn skip_name(text: &str) -> &str
    ensures chars { chars result.now ≡ (split_front Class.NamePart (chars text.now)).1 }
    ensures rest { IsRest text.now result.now }
{
    let bytes = text.as_bytes();
    let mut place = 0;
    while place < bytes.len() && Class::NamePart.holds(bytes[place] as char) {
        place += 1;
    }
    text.split_at(place).1
}

/// What comes after the longest front of the class, character by character.
fn skip_each(class: Class, text: &str) -> &str
    ensures chars { chars result.now ≡ (split_front class (chars text.now)).1 }
    ensures rest { IsRest text.now result.now }
{
    let mut rest = text;
    while let Some(after) = after_one(class, rest) {
        rest = after;
    }
    rest
}

/// What comes after the longest front of the class.
fn skip(class: Class, text: &str) -> &str
    ensures chars { chars result.now ≡ (split_front class (chars text.now)).1 }
    ensures rest { IsRest text.now result.now }
{
    match class {
        Class::Text => skip_text(text),
        Class::Value('"') => skip_value(b'"', text),
        Class::Value('\'') => skip_value(b'\'', text),
        Class::NamePart => skip_name(text),
        _ => skip_each(class, text),
    }
}

/// The longest front of the class, and what comes after it.
pub fn split_front(class: Class, text: &str) -> (&str, &str)
    ensures { (chars result.0.now, chars result.1.now) ≡ split_front class (chars text.now) }
{
    let rest = skip(class, text);
    (before(text, rest), rest)
}

pub fn skip_space(text: &str) -> &str
    ensures { chars result.now ≡ skip_space (chars text.now) }
{
    skip(Class::Space, text)
}

pub fn starts(class: Class, text: &str) -> bool
    ensures { result ≡ starts class (chars text.now) }
{
    match first(text) {
        Some((c, _)) => class.holds(c),
        None => false,
    }
}

/// What comes after the character that has to stand here.
pub fn expected_at(c: char, text: &str) -> Result<&str, DocFault>
    ensures { GivesBy (λ x. chars x.now) result (expected_at c (chars text.now)) }
{
    match first(text) {
        Some((d, rest)) if d == c => Ok(rest),
        _ => Err(DocFault::Malformed),
    }
}

#[tactic(auto, unfolding(crate::specs::Lex::name_at))]
pub fn name_at(text: &str) -> Result<(&str, &str), DocFault>
    ensures { GivesBy (λ x. (chars x.0.now, chars x.1.now)) result (name_at (chars text.now)) }
{
    if !starts(Class::NameStart, text) {
        return Err(DocFault::Malformed);
    }
    Ok(split_front(Class::NamePart, text))
}

/// A name as it is spelled: with no prefix, the prefix is empty.
#[derive(Clone, Copy)]
pub struct Spelled<'a> {
    pub prefix: &'a str,
    pub local: &'a str,
}

/// A name, or two with a colon between.
#[tactic(auto, using(crate::proofs::Rests::chars_nil), unfolding(crate::specs::Lex::spelled_at))]
pub fn spelled_at(text: &str) -> Result<(Spelled<'_>, &str), DocFault>
    ensures { GivesBy (λ x. (spelled x.0, chars x.1.now)) result (spelled_at (chars text.now)) }
{
    let (name, rest) = name_at(text)?;
    match first(rest) {
        Some((':', after)) => {
            let (local, rest) = name_at(after)?;
            Ok((
                Spelled {
                    prefix: name,
                    local,
                },
                rest,
            ))
        }
        _ => Ok((
            Spelled {
                prefix: "",
                local: name,
            },
            rest,
        )),
    }
}
