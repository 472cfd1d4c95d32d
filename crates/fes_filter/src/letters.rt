//! The characters of a text, one behind the other.

ghost use Rattle.std.specs.Prelude.{◌≡◌, ◌<◌, ◌≤◌, [], ◌∷◌, length, drop, chars, MatchOption};

/// The first character, and the text behind it.
pub fn split_first(text: &str) -> Option<(char, &str)>
    ensures { MatchOption result ((chars text.now ≡ []) × (text.now ≡ []))
        (λ (c, rest). (chars text.now ≡ c ∷ chars rest.now) × (length rest.now < length text.now)) }
{
    let mut chars = text.chars();
    match chars.next() {
        Some(c) => Some((c, chars.as_str())),
        None => None,
    }
}

/// The text behind its first `n` characters, which is empty where it has no more.
pub fn behind(text: &str, n: usize) -> &str
    ensures value { chars result.now ≡ drop n (chars text.now) }
    ensures shorter { length result.now ≤ length text.now }
{
    let mut rest = text;
    for _ in 0..n {
        match split_first(rest) {
            Some((_, left)) => rest = left,
            None => return rest,
        }
    }
    rest
}

/// How many characters a text has.
pub fn count(text: &str) -> usize
    ensures { result ≡ length (chars text.now) }
{
    text.chars().count()
}
