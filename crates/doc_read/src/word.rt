//! The words of the format, and where they stand.

ghost use Rattle.std.specs.Prelude.{◌≡◌};
ghost use Rattle.std.specs.Str.{chars};
ghost use Rattle.doc_read.specs.Read.{Finds, GivesBy};
ghost use Rattle.doc_read.specs.Chars.{letters, letter_at, letters_at, begins, word_at, contains, split_word};

use crate::fault::DocFault;
use crate::front::{before, first};

/// A word that begins or ends a part of a document.
#[derive(Clone, Copy)]
pub enum Word {
    /// `--`
    Dashes,
    /// `-->`
    CommentEnd,
    /// `[CDATA[`
    Section,
    /// `]]>`
    SectionEnd,
    /// `DOCTYPE`
    Doctype,
    /// `<?xml`
    Declaration,
    /// `version`
    Version,
    /// `encoding`
    Encoding,
    /// `standalone`
    Standalone,
    /// `?>`
    DeclarationEnd,
}

impl Word {
    fn letters(self) -> &'static [char]
        ensures { result.now ≡ letters self }
    {
        match self {
            Word::Dashes => &['-', '-'],
            Word::CommentEnd => &['-', '-', '>'],
            Word::Section => &['[', 'C', 'D', 'A', 'T', 'A', '['],
            Word::SectionEnd => &[']', ']', '>'],
            Word::Doctype => &['D', 'O', 'C', 'T', 'Y', 'P', 'E'],
            Word::Declaration => &['<', '?', 'x', 'm', 'l'],
            Word::Version => &['v', 'e', 'r', 's', 'i', 'o', 'n'],
            Word::Encoding => &['e', 'n', 'c', 'o', 'd', 'i', 'n', 'g'],
            Word::Standalone => &['s', 't', 'a', 'n', 'd', 'a', 'l', 'o', 'n', 'e'],
            Word::DeclarationEnd => &['?', '>'],
        }
    }
}

#[tactic(auto, unfolding(crate::specs::Chars::letter_at))]
fn after_letter(c: char, cs: &str) -> Option<&str>
    ensures { Finds result (letter_at c (chars cs.now)) }
{
    match first(cs) {
        Some((d, rest)) if d == c => Some(rest),
        _ => None,
    }
}

#[tactic(auto, using(crate::proofs::Words::letters_turn, crate::proofs::Words::letters_end))]
fn after_letters<'a>(letters: &[char], cs: &'a str) -> Option<&'a str>
    ensures { Finds result (letters_at letters.now (chars cs.now)) }
{
    let mut rest = cs;
    for w in letters {
        rest = after_letter(*w, rest)?;
    }
    Some(rest)
}

/// What comes after a word, where the text begins with it.
fn after_word(word: Word, cs: &str) -> Option<&str>
    ensures { Finds result (word_at word (chars cs.now)) }
{
    after_letters(word.letters(), cs)
}

/// What comes after the word that has to stand here.
pub fn word_at(word: Word, cs: &str) -> Result<&str, DocFault>
    ensures { GivesBy (λ x. chars x.now) result (word_at word (chars cs.now)) }
{
    match after_word(word, cs) {
        Some(rest) => Ok(rest),
        None => Err(DocFault::Malformed),
    }
}

pub fn begins(word: Word, cs: &str) -> bool
    ensures { result ≡ begins word (chars cs.now) }
{
    match after_word(word, cs) {
        Some(_) => true,
        None => false,
    }
}

/// Whether the word stands anywhere.
#[tactic(auto, using(crate::proofs::Words::contains_turn, crate::proofs::Words::contains_end))]
pub fn contains(word: Word, cs: &str) -> bool
    ensures { result ≡ contains word (chars cs.now) }
{
    let mut rest = cs;
    while let Some((_, after)) = first(rest) {
        if begins(word, rest) {
            return true;
        }
        rest = after;
    }
    false
}

/// What stands before the first place of the word, and what comes after the word.
#[tactic(auto, using(crate::proofs::Words::split_turn, crate::proofs::Words::split_end))]
pub fn split_word(word: Word, cs: &str) -> Result<(&str, &str), DocFault>
    ensures { GivesBy (λ x. (chars x.0.now, chars x.1.now)) result
        (split_word word (chars cs.now)) }
{
    let mut rest = cs;
    while let Some((_, next)) = first(rest) {
        if let Some(after) = after_word(word, rest) {
            return Ok((before(cs, rest), after));
        }
        rest = next;
    }
    Err(DocFault::Malformed)
}
