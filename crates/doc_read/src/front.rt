//! Texts, from their first character on.

ghost use Rattle.std.specs.Prelude.{◌≡◌, ◌++◌, ◌<◌, ◌==◌, ◌∷◌, [], length, encode_utf8, MatchOption};
ghost use Rattle.std.specs.List.{list_any};
ghost use Rattle.std.specs.Str.{chars, bytes_eq};
ghost use Rattle.doc_read.specs.Rest.{IsRest};

/// The first character, and what comes after it.
#[inline]
pub fn first(text: &str) -> Option<(char, &str)>
    ensures { MatchOption result (chars text.now ≡ [])
        (λ (c, rest). (chars text.now ≡ c ∷ chars rest.now) × (length rest.now < length text.now)
        × (text.now ≡ encode_utf8 c ++ rest.now)) }
{
    let mut chars = text.chars();
    match chars.next() {
        Some(c) => Some((c, chars.as_str())),
        None => None,
    }
}

/// What stands before the rest of a text.
pub fn before<'a>(whole: &'a str, rest: &str) -> &'a str
    requires { IsRest whole.now rest.now }
    ensures { chars whole.now ≡ chars result.now ++ chars rest.now }
{
    let (front, _) = whole.split_at(whole.len() - rest.len());
    front
}

pub fn is_empty(text: &str) -> bool
    ensures { result ≡ (length (chars text.now) == 0) }
{
    match first(text) {
        Some(_) => false,
        None => true,
    }
}

/// Whether a character of ASCII stands anywhere.
pub fn has(text: &str, byte: u8) -> bool
    requires { byte < 128 }
    ensures { result ≡ list_any (λ c. c == byte) (chars text.now) }
{
    text.as_bytes().contains(&byte)
}

/// Whether two texts are the same.
pub fn same(a: &str, b: &str) -> bool
    ensures { result ≡ bytes_eq (chars a.now) (chars b.now) }
{
    a == b
}
