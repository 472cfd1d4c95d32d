//! References to characters.

ghost use Rattle.std.specs.Prelude.{◌≡◌, ◌≤◌, ◌<◌, Some, None, if◌then◌else◌, min};
ghost use Rattle.std.specs.Str.{chars};
ghost use Rattle.doc_read.specs.Read.{Gives, GivesBy};
ghost use Rattle.doc_tree.specs.Characters.{is_allowed};
ghost use Rattle.doc_read.specs.Lex.{named_reference, name_reference_at, digit, number, number_reference_at, numbered_at, reference_at};

use crate::fault::DocFault;
use crate::front::{first, same};
use crate::lex::{Class, expected_at, name_at, split_front, starts};
use doc_tree::is_allowed;

#[tactic(auto, using(crate::proofs::Rests::word_chars), unfolding(crate::specs::Lex::named_reference))]
fn named_reference(name: &str) -> Result<char, DocFault>
    ensures { Gives result (named_reference (chars name.now)) }
{
    if same(name, "lt") {
        Ok('<')
    } else if same(name, "gt") {
        Ok('>')
    } else if same(name, "amp") {
        Ok('&')
    } else if same(name, "quot") {
        Ok('"')
    } else if same(name, "apos") {
        Ok('\'')
    } else {
        Err(DocFault::Malformed)
    }
}

#[tactic(auto, unfolding(crate::specs::Lex::name_reference_at))]
fn name_reference_at(cs: &str) -> Result<(char, &str), DocFault>
    ensures { GivesBy (λ x. (x.0, chars x.1.now)) result (name_reference_at (chars cs.now)) }
{
    let (name, rest) = name_at(cs)?;
    let rest = expected_at(';', rest)?;
    Ok((named_reference(name)?, rest))
}

fn digit(c: char) -> u32
    ensures { result ≡ digit c }
{
    let code = c as u32;
    if code <= 57 {
        code.saturating_sub(48)
    } else if code <= 70 {
        code.saturating_sub(55)
    } else {
        code.saturating_sub(87)
    }
}

/// One more than the last character.
const NO_CHARACTER: u32 = 0x11_0000;

/// The number that digits write, or the first that is no character where it is greater.
#[tactic(auto, using(crate::proofs::Numbers::number_turn, crate::proofs::Numbers::number_end))]
fn number(base: u32, digits: &str) -> u32
    requires positive { 0 < base }
    requires small { base ≤ 16 }
    ensures { result ≡ min (number base 0 (chars digits.now)) 0x110000 }
{
    let mut value = 0;
    let mut rest = digits;
    while let Some((c, after)) = first(rest) {
        value = (value * base + digit(c)).min(NO_CHARACTER);
        rest = after;
    }
    value
}

fn allowed_char(code: u32) -> Option<char>
    ensures { result ≡ (if is_allowed code then Some code else None) }
{
    match char::from_u32(code) {
        Some(c) if is_allowed(c) => Some(c),
        _ => None,
    }
}

#[tactic(auto, using(crate::proofs::Numbers::allowed_capped, crate::proofs::Numbers::capped_is), unfolding(crate::specs::Lex::number_reference_at, wfs_ends::specs::Read::unless))]
fn number_reference_at(digits: Class, base: u32, cs: &str) -> Result<(char, &str), DocFault>
    requires positive { 0 < base }
    requires small { base ≤ 16 }
    ensures { GivesBy (λ x. (x.0, chars x.1.now)) result
        (number_reference_at digits base (chars cs.now)) }
{
    if !starts(digits, cs) {
        return Err(DocFault::Malformed);
    }
    let (front, rest) = split_front(digits, cs);
    let rest = expected_at(';', rest)?;
    match allowed_char(number(base, front)) {
        Some(c) => Ok((c, rest)),
        None => Err(DocFault::Malformed),
    }
}

/// A reference behind its number sign.
#[tactic(auto, unfolding(crate::specs::Lex::numbered_at))]
fn numbered_at(cs: &str) -> Result<(char, &str), DocFault>
    ensures { GivesBy (λ x. (x.0, chars x.1.now)) result (numbered_at (chars cs.now)) }
{
    match first(cs) {
        Some(('x', digits)) => number_reference_at(Class::Hexadecimal, 16, digits),
        _ => number_reference_at(Class::Decimal, 10, cs),
    }
}

/// A reference behind its ampersand.
#[tactic(auto, unfolding(crate::specs::Lex::reference_at))]
pub fn reference_at(cs: &str) -> Result<(char, &str), DocFault>
    ensures { GivesBy (λ x. (x.0, chars x.1.now)) result (reference_at (chars cs.now)) }
{
    match first(cs) {
        Some(('#', after)) => numbered_at(after),
        _ => name_reference_at(cs),
    }
}
