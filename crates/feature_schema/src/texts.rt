//! Which texts are lines, names and prefixes.

ghost use Rattle.std.specs.Prelude.{◌≡◌, ◌&&◌, length};
ghost use Rattle.std.specs.List.{list_all};
ghost use Rattle.std.specs.Str.{chars};
ghost use Rattle.feature_schema.specs.Texts.{is_in_range, is_line_character, is_line, is_name_start, is_name_byte, is_name, is_taken, is_prefix};

use doc_tree::is_allowed;

#[tactic(auto, unfolding(crate::specs::Texts::is_line_character))]
fn is_line_character(c: char) -> bool
    ensures { result ≡ is_line_character c }
{
    is_allowed(c) && c != '\n'
}

fn are_line_characters(text: &str) -> bool
    ensures { result ≡ list_all is_line_character (chars text.now) }
{
    text.chars().all(is_line_character)
}

fn count_of_characters(text: &str) -> usize
    ensures { result ≡ length (chars text.now) }
{
    text.chars().count()
}

// 1 to 256 characters of XML, without line feeds.
fn has_line_characters(text: &str) -> bool
    ensures { result ≡ (is_in_range 1 256 (length (chars text.now)) && list_all is_line_character
        (chars text.now)) }
{
    let count = count_of_characters(text);
    count >= 1 && count <= 256 && are_line_characters(text)
}

// A text of 1 to 256 characters of XML, without line feeds.
pub(crate) fn is_line(text: &str) -> bool
    ensures { result ≡ is_line text.now }
{
    has_line_characters(text)
}

#[tactic(auto, unfolding(crate::specs::Texts::is_name_start))]
fn is_name_start(byte: u8) -> bool
    ensures { result ≡ is_name_start byte }
{
    byte == b'_' || (byte >= b'A' && byte <= b'Z') || (byte >= b'a' && byte <= b'z')
}

#[tactic(auto, unfolding(crate::specs::Texts::is_name_byte))]
fn is_name_byte(byte: u8) -> bool
    ensures { result ≡ is_name_byte byte }
{
    is_name_start(byte) || (byte >= b'0' && byte <= b'9')
}

fn are_name_bytes(bytes: &[u8]) -> bool
    ensures { result ≡ list_all is_name_byte bytes.now }
{
    bytes.iter().all(|byte| is_name_byte(*byte))
}

#[tactic(auto, unfolding(crate::specs::Texts::is_name))]
fn is_name_of(bytes: &[u8]) -> bool
    ensures { result ≡ is_name bytes.now }
{
    match bytes {
        [first, rest @ ..] => is_name_start(*first) && are_name_bytes(rest) && rest.len() <= 63,
        [] => false,
    }
}

// A name: an ASCII letter or _, and then letters, digits or _, at most 64 in all.
pub(crate) fn is_name(text: &str) -> bool
    ensures { result ≡ is_name text.now }
{
    is_name_of(text.as_bytes())
}

#[tactic(auto, unfolding(crate::specs::Texts::is_taken))]
fn is_taken(text: &str) -> bool
    ensures { result ≡ is_taken text.now }
{
    text == "wfs"
        || text == "fes"
        || text == "gml"
        || text == "ows"
        || text == "xlink"
        || text == "xs"
}

// A prefix that may stand for the namespace of a schema.
#[tactic(auto, unfolding(crate::specs::Texts::is_prefix))]
pub(crate) fn is_prefix(text: &str) -> bool
    ensures { result ≡ is_prefix text.now }
{
    is_name(text) && !is_taken(text) && !text.as_bytes().starts_with(b"xml")
}
