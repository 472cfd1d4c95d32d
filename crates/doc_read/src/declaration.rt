//! The declaration that may stand first.

ghost use Rattle.std.specs.Prelude.{◌≡◌};
ghost use Rattle.std.specs.Str.{chars};
ghost use Rattle.doc_read.specs.Read.{GivesBy};
ghost use Rattle.doc_read.specs.Declaration.{quoted_at, setting_at, fits, required_at, optional_at, settings_at, declaration_at};

use crate::fault::DocFault;
use crate::front::{first, same};
use crate::lex::{Class, expected_at, skip_space, split_front, starts};
use crate::word::{Word, begins, word_at};

#[tactic(auto, unfolding(crate::specs::Declaration::quoted_at))]
fn quoted_at(cs: &str) -> Result<(&str, &str), DocFault>
    ensures { GivesBy (λ x. (chars x.0.now, chars x.1.now)) result (quoted_at (chars cs.now)) }
{
    match first(cs) {
        Some((quote @ ('"' | '\''), rest)) => {
            let (value, rest) = split_front(Class::Quoted(quote), rest);
            Ok((value, expected_at(quote, rest)?))
        }
        _ => Err(DocFault::Malformed),
    }
}

/// White space, a word, an equals sign and a value.
#[tactic(auto, unfolding(crate::specs::Declaration::setting_at, wfs_ends::specs::Read::unless))]
fn setting_at(word: Word, cs: &str) -> Result<(&str, &str), DocFault>
    ensures { GivesBy (λ x. (chars x.0.now, chars x.1.now)) result
        (setting_at word (chars cs.now)) }
{
    if !starts(Class::Space, cs) {
        return Err(DocFault::Malformed);
    }
    let rest = word_at(word, skip_space(cs))?;
    let rest = expected_at('=', skip_space(rest))?;
    quoted_at(skip_space(rest))
}

#[tactic(auto, using(crate::proofs::Rests::word_chars))]
fn is_version(value: &str) -> bool
    ensures { result ≡ fits Word.Version (chars value.now) }
{
    same(value, "1.0")
}

fn spells_utf8(value: &[u8]) -> bool
    ensures { result ≡ fits Word.Encoding value.now }
{
    match value {
        [u, t, f, dash, eight] => {
            u.to_ascii_lowercase() == b'u'
                && t.to_ascii_lowercase() == b't'
                && f.to_ascii_lowercase() == b'f'
                && dash.to_ascii_lowercase() == b'-'
                && eight.to_ascii_lowercase() == b'8'
        }
        _ => false,
    }
}

fn is_utf8(value: &str) -> bool
    ensures { result ≡ fits Word.Encoding (chars value.now) }
{
    spells_utf8(value.as_bytes())
}

#[tactic(auto, using(crate::proofs::Rests::word_chars))]
fn is_yes_or_no(value: &str) -> bool
    ensures { result ≡ fits Word.Standalone (chars value.now) }
{
    same(value, "yes") || same(value, "no")
}

/// Whether a setting may have the value.
fn fits(word: Word, value: &str) -> bool
    ensures { result ≡ fits word (chars value.now) }
{
    match word {
        Word::Version => is_version(value),
        Word::Encoding => is_utf8(value),
        _ => is_yes_or_no(value),
    }
}

#[tactic(auto, unfolding(crate::specs::Declaration::required_at))]
fn required_at(word: Word, cs: &str) -> Result<&str, DocFault>
    ensures { GivesBy (λ x. chars x.now) result (required_at word (chars cs.now)) }
{
    let (value, rest) = setting_at(word, cs)?;
    if fits(word, value) {
        Ok(rest)
    } else {
        Err(DocFault::Malformed)
    }
}

#[tactic(auto, unfolding(crate::specs::Declaration::optional_at))]
fn optional_at(word: Word, cs: &str) -> Result<&str, DocFault>
    ensures { GivesBy (λ x. chars x.now) result (optional_at word (chars cs.now)) }
{
    if begins(word, skip_space(cs)) {
        required_at(word, cs)
    } else {
        Ok(cs)
    }
}

#[tactic(auto, unfolding(crate::specs::Declaration::settings_at))]
fn settings_at(cs: &str) -> Result<&str, DocFault>
    ensures { GivesBy (λ x. chars x.now) result (settings_at (chars cs.now)) }
{
    let rest = required_at(Word::Version, cs)?;
    let rest = optional_at(Word::Encoding, rest)?;
    let rest = optional_at(Word::Standalone, rest)?;
    word_at(Word::DeclarationEnd, skip_space(rest))
}

/// What comes after the declaration, where one stands.
#[tactic(auto, unfolding(crate::specs::Declaration::declaration_at))]
pub fn declaration_at(cs: &str) -> Result<&str, DocFault>
    ensures { GivesBy (λ x. chars x.now) result (declaration_at (chars cs.now)) }
{
    if !begins(Word::Declaration, cs) {
        return Ok(cs);
    }
    settings_at(word_at(Word::Declaration, cs)?)
}
