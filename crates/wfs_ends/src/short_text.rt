//! A text that lies in place.

ghost use Rattle.std.specs.Prelude.{◌≡◌, ◌≤◌, length, take};
ghost use Rattle.std.specs.Str.{IsUtf8};
ghost use Rattle.wfs_ends.specs.ShortTexts.{max_in_place};

use std::marker::Model;
use std::str;

/// The most bytes of a text that lies in place: with their number and which kind of text it is they are 16 bytes.
pub const MAX_IN_PLACE: usize = 14;

/// A text of at most `MAX_IN_PLACE` bytes. What follows them in `bytes` counts for nothing.
#[derive(Drop)]
pub(crate) struct ShortText {
    length: u8,
    bytes: [u8; MAX_IN_PLACE],
}

impl Model for ShortText {
    ghost use Rattle.std.specs.Prelude.{List, ℕ, ◌≤◌, take, IsUtf8};
    ghost use Rattle.wfs_ends.specs.ShortTexts.{max_in_place};

    ghost Value = { List ℕ };

    ghost view = { λ t. take t.length t.bytes };

    ghost invariant = { λ t. (t.length ≤ max_in_place) × ∥ IsUtf8 (take t.length t.bytes) ∥₁ };
}

// Writes the text over the front of the bytes.
fn write_front(bytes: &mut [u8; MAX_IN_PLACE], text: &[u8])
    requires { length text.now ≤ max_in_place }
    ensures { take (length text.now) bytes.new ≡ text.now }
{
    bytes[..text.len()].copy_from_slice(text);
}

impl ShortText {
    /// The text in place. It takes no memory.
    pub(crate) fn of(text: &str) -> ShortText
        requires { length text.now ≤ max_in_place }
        ensures { result ≡ text.now }
    {
        let mut bytes = [0; MAX_IN_PLACE];
        write_front(&mut bytes, text.as_bytes());
        ShortText {
            length: text.len() as u8,
            bytes,
        }
    }

    /// An equal text.
    pub(crate) fn copy(&self) -> ShortText
        ensures { result ≡ self.now }
    {
        ShortText {
            length: self.length,
            bytes: self.bytes,
        }
    }

    /// The text. Its bytes are not looked at again: that they are UTF-8 is the type's invariant.
    pub(crate) fn as_str(&self) -> &str
        ensures value { result.now ≡ self.now }
        ensures utf8 { IsUtf8 self.now }
    {
        unsafe { str::from_utf8_unchecked(&self.bytes[..self.length as usize]) }
    }
}
