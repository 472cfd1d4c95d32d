//! The characters that a document may hold.

ghost use Rattle.std.specs.Prelude.{◌≡◌};
ghost use Rattle.std.specs.List.{list_all};
ghost use Rattle.std.specs.Str.{chars};
ghost use Rattle.doc_tree.specs.Characters.{is_allowed, is_plain};

/// Whether a document may hold the character (XML 1.0, section 2.2): a tab, a line feed, a carriage return, or any from
/// U+0020 on but U+FFFE and U+FFFF.
pub fn is_allowed(c: char) -> bool
    ensures { result ≡ is_allowed c }
{
    matches!(c, '\t' | '\n' | '\r' | ' '..='\u{d7ff}' | '\u{e000}'..='\u{fffd}' | '\u{10000}'..='\u{10ffff}')
}

// A character that is not allowed has a byte that is not plain.
fn is_plain(byte: u8) -> bool
    ensures { result ≡ is_plain byte }
{
    (byte >= b' ' && byte != 0xef) || byte == b'\t' || byte == b'\n' || byte == b'\r'
}

// Whether all bytes are plain. No byte ends the loop, so that many are compared at once.
#[tactic(auto, using(std::proofs::lemmas::List::Folds::list_all_more))]
fn all_plain(bytes: &[u8]) -> bool
    ensures { result ≡ list_all is_plain bytes.now }
{
    let mut are_plain = true;
    for byte in bytes {
        are_plain &= is_plain(*byte);
    }
    are_plain
}

fn each_allowed(text: &str) -> bool
    ensures { result ≡ list_all is_allowed (chars text.now) }
{
    text.chars().all(is_allowed)
}

/// Whether a document may hold all characters of a text.
pub fn all_allowed(text: &str) -> bool
    ensures { result ≡ list_all is_allowed (chars text.now) }
{
    if all_plain(text.as_bytes()) {
        return true;
    }
    each_allowed(text)
}
