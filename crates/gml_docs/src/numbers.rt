//! A word as a coordinate, and two of them as a position.

ghost use Rattle.std.specs.Prelude.{◌≡◌, ◌≤◌, ◌*◌, ◌+◌, ◌-◌, ◌==◌, length, take, option_map, IfSome, IsTrue, pos, neg_ℤ};
ghost use Rattle.std.specs.List.{list_all};
ghost use Rattle.std.specs.Char.{is_ascii_digit};
ghost use Rattle.std.specs.Str.Parse.{digits_value};
ghost use Rattle.gml_docs.specs.Numbers.{digit_count, is_fraction, unsigned_of, coordinate_of, located, position_of_words, near, near_natural};

use crate::fault::GmlFault;
use geom_core::{GeomFault, Pos};

// Greater than every magnitude of a coordinate: larger numbers are read as this one, and are out of range as it is.
const BEYOND: u64 = 1_000_000_001;

fn is_digit(byte: u8) -> bool
    ensures { result ≡ is_ascii_digit byte }
{
    byte >= b'0' && byte <= b'9'
}

// A number with one more digit behind it.
fn with_digit(number: u64, digit: u8) -> u64
    requires number { number ≤ 1_000_000_001 }
    requires digit { IsTrue (is_ascii_digit digit) }
    ensures { result ≡ near_natural (number * 10 + (digit - 48)) }
{
    (number * 10 + u64::from(digit - b'0')).min(BEYOND)
}

// How many digits stand first, and the number that they write.
fn leading_number(text: &[u8]) -> (usize, u64)
    ensures count { result.0 ≡ digit_count text.now }
    ensures bound { result.0 ≤ length text.now }
    ensures number { result.1 ≡ near_natural (digits_value 10
        (take (digit_count text.now) text.now)) }
    ensures few { result.1 ≤ 1_000_000_001 }
{
    let mut number = 0;
    for i in 0..text.len() {
        if !is_digit(text[i]) {
            return (i, number);
        }
        number = with_digit(number, text[i]);
    }
    (text.len(), number)
}

fn are_zeros(bytes: &[u8]) -> bool
    ensures { result ≡ list_all (λ d. d == 48) bytes.now }
{
    bytes.iter().all(|byte| *byte == b'0')
}

// No fraction, or one of zeros.
#[tactic(auto, unfolding(crate::specs::Numbers::is_fraction))]
fn is_fraction(bytes: &[u8]) -> bool
    ensures { result ≡ is_fraction bytes.now }
{
    match bytes {
        [] => true,
        [dot, zeros @ ..] => *dot == b'.' && !zeros.is_empty() && are_zeros(zeros),
    }
}

#[tactic(auto, unfolding(crate::specs::Numbers::unsigned_of, crate::specs::Numbers::is_unsigned))]
fn unsigned_of(text: &[u8]) -> Option<u64>
    ensures value { result ≡ option_map near_natural (unsigned_of text.now) }
    ensures few { IfSome result (λ n. n ≤ 1_000_000_001) }
{
    let (count, number) = leading_number(text);
    if count == 0 || !is_fraction(&text[count..]) {
        return None;
    }
    Some(number)
}

#[tactic(auto, using(crate::proofs::Near::near_negative))]
fn negative_of(text: &[u8]) -> Option<i64>
    ensures { result ≡ option_map (λ n. near (neg_ℤ (pos n))) (unsigned_of text.now) }
{
    match unsigned_of(text) {
        Some(number) => Some(-(number as i64)),
        None => None,
    }
}

fn positive_of(text: &[u8]) -> Option<i64>
    ensures { result ≡ option_map (λ n. near (pos n)) (unsigned_of text.now) }
{
    match unsigned_of(text) {
        Some(number) => Some(number as i64),
        None => None,
    }
}

#[tactic(auto, unfolding(crate::specs::Numbers::coordinate_of))]
fn coordinate_of(word: &[u8]) -> Option<i64>
    ensures { result ≡ option_map near (coordinate_of word.now) }
{
    match word {
        [] => None,
        [b'-', digits @ ..] => negative_of(digits),
        [b'+', digits @ ..] => positive_of(digits),
        _ => positive_of(word),
    }
}

// The position at the coordinates that two words write, if it lies within range.
#[tactic(auto, using(crate::proofs::Near::near_position), unfolding(crate::specs::Numbers::point_of, crate::specs::Numbers::located))]
pub(crate) fn position_of(a: &[u8], b: &[u8]) -> Result<Result<Pos, GeomFault>, GmlFault>
    ensures { result ≡ located a.now b.now }
{
    let Some(x) = coordinate_of(a) else {
        return Err(GmlFault::Number);
    };
    let Some(y) = coordinate_of(b) else {
        return Err(GmlFault::Number);
    };
    Ok(Pos::new(x, y))
}

/// The position at the coordinates that two texts write, each as one word of a `gml:pos` (OGC 07-036, 10.1.4.1): an
/// optional sign, digits, and optionally a dot and one or more zeros, without white space.
///
/// `Number`: a text is no coordinate. `Shape`, with `OutOfRange`: a coordinate is beyond 1,000,000,000 in magnitude, where
/// both texts are one. It takes no memory, so `OutOfMemory` is no answer, and neither are `Kind` and `Srs`.
#[tactic(auto, unfolding(crate::specs::Numbers::position_of_words))]
pub fn read_position(x: &str, y: &str) -> Result<Pos, GmlFault>
    ensures { result ≡ position_of_words x.now y.now }
{
    Ok(position_of(x.as_bytes(), y.as_bytes())??)
}
