//! A text cut into words at white space.

ghost use Rattle.std.specs.Prelude.{◌≡◌, ◌≤◌, ◌<◌, [], ◌∷◌, length, MatchOption};
ghost use Rattle.std.specs.List.{prefix_len, position_or_len};
ghost use Rattle.gml_docs.specs.Numbers.{is_space, words};

#[tactic(auto, unfolding(crate::specs::Numbers::is_space))]
fn is_space(byte: u8) -> bool
    ensures { result ≡ is_space byte }
{
    byte == b' ' || byte == b'\t' || byte == b'\n'
}

// How many bytes of white space stand first.
fn leading_spaces(bytes: &[u8]) -> usize
    ensures count { result ≡ prefix_len is_space bytes.now }
    ensures bound { result ≤ length bytes.now }
{
    for i in 0..bytes.len() {
        if !is_space(bytes[i]) {
            return i;
        }
    }
    bytes.len()
}

// How many bytes stand before the first one of white space.
fn word_length(bytes: &[u8]) -> usize
    ensures count { result ≡ position_or_len is_space bytes.now }
    ensures bound { result ≤ length bytes.now }
{
    for i in 0..bytes.len() {
        if is_space(bytes[i]) {
            return i;
        }
    }
    bytes.len()
}

// The first word of a text, and what follows it.
pub(crate) fn first_word(text: &[u8]) -> Option<(&[u8], &[u8])>
    ensures { MatchOption result (words text.now ≡ [])
        (λ t. (words text.now ≡ t.0.now ∷ words t.1.now) × (length t.1.now < length text.now)) }
{
    let text = &text[leading_spaces(text)..];
    if text.is_empty() {
        return None;
    }
    Some(text.split_at(word_length(text)))
}
