//! Character data, and the values of attributes.

ghost use Rattle.std.specs.Prelude.{◌≡◌, ◌++◌, map, IfOk, Ok, OnOk, string_bytes, encode_utf8_all};
ghost use Rattle.std.specs.Option.{IfSome};
ghost use Rattle.std.specs.Str.{chars};
ghost use Rattle.doc_read.specs.Read.{GivesBy};
ghost use Rattle.doc_read.specs.Lex.{part, plain, value_turn, inside_value, value_at};

use crate::fault::DocFault;
use crate::front::{first, has};
use crate::lex::{Class, split_front};
use crate::reference::reference_at;
use std::alloc::{AllocError, Global};
use wfs_ends::{Mem, Text};

pub fn add_characters(text: &mut String, cs: &str) -> Result<(), AllocError>
    ensures { OnOk result (string_bytes text.new
        ≡ string_bytes text.old ++ encode_utf8_all (chars cs.now)) }
{
    text.push_str(cs)
}

fn plain(c: char) -> char
    ensures { result ≡ plain c }
{
    if Class::Space.holds(c) { ' ' } else { c }
}

/// White space in a value counts as spaces.
#[tactic(auto, using(crate::proofs::Text::plain_stay, crate::proofs::Text::plain_turn, crate::proofs::Text::plain_end, std::proofs::Common::append_assoc))]
fn add_plain(text: &mut String, cs: &str) -> Result<(), AllocError>
    ensures { OnOk result (string_bytes text.new
        ≡ string_bytes text.old ++ encode_utf8_all (map plain (chars cs.now))) }
{
    if !has(cs, b'\t') && !has(cs, b'\n') {
        return add_characters(text, cs);
    }
    let mut rest = cs;
    while let Some((c, after)) = first(rest) {
        text.push(plain(c))?;
        rest = after;
    }
    Ok(())
}

/// One piece of a value, and whether it was the quote that ends it.
#[tactic(auto, unfolding(crate::specs::Lex::value_turn))]
fn value_turn<'a>(quote: char, text: &mut String, cs: &'a str) -> Result<(bool, &'a str), DocFault>
    ensures { GivesBy (λ x. (x.0, part (string_bytes text.new) (chars x.1.now))) result
        (value_turn quote (part (string_bytes text.old) (chars cs.now))) }
{
    match first(cs) {
        None => Err(DocFault::Malformed),
        Some((c, rest)) if c == quote => Ok((true, rest)),
        Some(('<', _)) => Err(DocFault::Malformed),
        Some(('&', after)) => {
            let (c, rest) = reference_at(after)?;
            text.push(c)?;
            Ok((false, rest))
        }
        Some(_) => {
            let (front, rest) = split_front(Class::Value(quote), cs);
            add_plain(text, front)?;
            Ok((false, rest))
        }
    }
}

/// A value behind its quote.
#[tactic(auto, using(wfs_ends::proofs::Turns::until_turn, wfs_ends::proofs::Turns::until_end, crate::proofs::Enough::value_enough))]
fn inside_value(alloc: Global, quote: char, cs: &str) -> Result<(String, &str), DocFault>
    ensures { GivesBy (λ x. part (string_bytes x.0) (chars x.1.now)) result
        (inside_value quote (chars cs.now)) }
{
    let mut text = String::new(alloc);
    let mut rest = cs;
    for _ in 0..cs.len() {
        let (is_end, after) = value_turn(quote, &mut text, rest)?;
        if is_end {
            return Ok((text, after));
        }
        rest = after;
    }
    Err(DocFault::Malformed)
}

/// A text of these characters.
pub fn text_of(alloc: Global, cs: &str) -> Mem<Text>
    ensures { IfOk result (λ t. t ≡ encode_utf8_all (chars cs.now)) }
{
    Text::of(alloc, cs)
}

/// A value that stands as it is, behind its quote: without references, tabs and line feeds.
fn plain_value(quote: char, cs: &str) -> Option<(&str, &str)>
    ensures { IfSome result (λ x. inside_value quote (chars cs.now)
        ≡ Ok (part (encode_utf8_all (chars x.0.now)) (chars x.1.now))) }
{
    let (front, rest) = split_front(Class::Value(quote), cs);
    match first(rest) {
        Some((c, after)) if c == quote && !has(front, b'\t') && !has(front, b'\n') => {
            Some((front, after))
        }
        _ => None,
    }
}

#[tactic(auto, unfolding(crate::specs::Lex::value_at))]
pub fn value_at<'a>(alloc: Global, cs: &'a str) -> Result<(Text, &'a str), DocFault>
    ensures { GivesBy (λ x. (x.0, chars x.1.now)) result (value_at (chars cs.now)) }
{
    match first(cs) {
        Some((quote @ ('"' | '\''), after)) => {
            if let Some((value, rest)) = plain_value(quote, after) {
                return Ok((text_of(alloc, value)?, rest));
            }
            let (text, rest) = inside_value(alloc, quote, after)?;
            Ok((Text::of_string(text)?, rest))
        }
        _ => Err(DocFault::Malformed),
    }
}
