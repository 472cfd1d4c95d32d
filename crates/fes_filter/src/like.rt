//! Texts that are like a pattern.

ghost use Rattle.std.specs.Prelude.{◌≡◌, ◌<◌, ◌≤◌, ◌+◌, [], ◌∷◌, length, drop, chars, Some, MatchOption, option_map, IfSome, false};
ghost use Rattle.std.specs.List.{list_any};
ghost use Rattle.std.specs.Option.{option_copied};
ghost use Rattle.fes_filter.specs.Like.{is_like, some_end};
ghost use Rattle.fes_filter.specs.LikeFront.{is_many, after_part, front_of, shown, by_front, IsShorter};
ghost use Rattle.fes_filter.specs.LikePlace.{letters, IsBeginOf, NoManyBefore};
ghost use Rattle.fes_filter.specs.Truth.{passes, is_text_like};

use crate::letters::{behind, count, split_first};
use crate::pattern::LikePart;
use crate::places::{
    LONG_BYTES, SHORT, SHORT_BYTES, from_run, has_many, is_many, longest_run, write_run,
};
use arrayvec::ArrayString;
use feature_values::Value;
use memchr::memmem::Finder;

/// The text behind its first character, where the part stands for this one character.
fn after_part(part: LikePart, text: &str) -> Option<&str>
    ensures value { option_map (λ rest. chars rest.now) result ≡ after_part part (chars text.now) }
    ensures shorter { IfSome result (λ rest. length rest.now < length text.now) }
{
    let (c, rest) = split_first(text)?;
    match part {
        LikePart::Exactly(d) if c == d => Some(rest),
        LikePart::One => Some(rest),
        LikePart::Exactly(_) | LikePart::Many => None,
    }
}

/// What comes of the parts before the first `Many` of a pattern at the start of a text.
enum Front<'a> {
    /// A part does not stand for its character, or one of the two is too short.
    Unlike,
    /// All parts stand for the whole text.
    Whole,
    /// The parts behind the first `Many`, and the text that is left there.
    Rest(&'a [LikePart], &'a str),
}

/// The parts behind one, and the text that is left there.
#[tactic(auto, using(std::proofs::lemmas::List::take_rest))]
fn rest_of<'a>(pattern: &'a [LikePart], i: usize, text: &'a str) -> Front<'a>
    requires { i < length pattern.now }
    ensures value { shown result ≡ Some (Some (drop (i + 1) pattern.now, chars text.now)) }
    ensures shorter { IsShorter (length pattern.now + length text.now) result }
{
    Front::Rest(&pattern[i + 1..], text)
}

/// What comes of no parts: a text has to be empty.
#[tactic(auto, unfolding(crate::specs::LikeFront::front_of))]
fn end_of<'a>(text: &str) -> Front<'a>
    ensures value { shown result ≡ front_of [] (chars text.now) }
    ensures shorter { IsShorter (length text.now) result }
{
    match split_first(text) {
        None => Front::Whole,
        Some(_) => Front::Unlike,
    }
}

/// Puts the parts before the first `Many` to the first characters of a text.
fn front_of<'a>(pattern: &'a [LikePart], text: &'a str) -> Front<'a>
    ensures value { shown result ≡ front_of pattern.now (chars text.now) }
    ensures shorter { IsShorter (length pattern.now + length text.now) result }
{
    let mut rest = text;
    for i in 0..pattern.len() {
        let part = pattern[i];
        if is_many(part) {
            return rest_of(pattern, i, rest);
        }
        match after_part(part, rest) {
            None => return Front::Unlike,
            Some(left) => rest = left,
        }
    }
    end_of(rest)
}

/// What is left behind the one place where the parts behind the last `Many` can stand: the end of the text.
fn last_piece<'a>(parts: &'a [LikePart], text: &'a str) -> Front<'a>
    requires { list_any is_many parts.now ≡ false }
    ensures value { by_front (shown result) ≡ some_end (is_like parts.now) (chars text.now) }
    ensures shorter { IsShorter (length parts.now + length text.now) result }
{
    let length = count(text);
    if length < parts.len() {
        return Front::Unlike;
    }
    front_of(parts, behind(text, length - parts.len()))
}

/// What is left behind the first place where the parts up to the next `Many` stand for the characters there. The first
/// place is as good as any later one, so nobody has to come back to it. The run is one of theirs, from `start` on.
fn piece_by_run<'a>(
    parts: &'a [LikePart],
    start: usize,
    run: &Finder<'_>,
    text: &'a str,
) -> Front<'a>
    requires within { start ≤ length parts.now }
    requires before { NoManyBefore parts.now start }
    requires begins { IsBeginOf run.now (letters (drop start parts.now)) }
    ensures value { by_front (shown result) ≡ some_end (is_like parts.now) (chars text.now) }
    ensures shorter { IsShorter (length parts.now + length text.now) result }
{
    let mut rest = text;
    loop {
        match from_run(parts, start, run, rest) {
            None => return Front::Unlike,
            Some(left) => rest = left,
        }
        match front_of(parts, rest) {
            Front::Whole => return Front::Whole,
            Front::Rest(behind, left) => return Front::Rest(behind, left),
            Front::Unlike => match split_first(rest) {
                None => return Front::Unlike,
                Some((_, left)) => rest = left,
            },
        }
    }
}

#[tactic(auto, using(std::proofs::lemmas::List::take_rest))]
fn piece_by_short_run<'a>(parts: &'a [LikePart], start: usize, text: &'a str) -> Front<'a>
    requires within { start ≤ length parts.now }
    requires before { NoManyBefore parts.now start }
    ensures value { by_front (shown result) ≡ some_end (is_like parts.now) (chars text.now) }
    ensures shorter { IsShorter (length parts.now + length text.now) result }
{
    let mut run = ArrayString::<SHORT_BYTES>::new();
    write_run(&parts[start..], &mut run);
    piece_by_run(parts, start, &Finder::new(run.as_str().as_bytes()), text)
}

#[tactic(auto, using(std::proofs::lemmas::List::take_rest))]
fn piece_by_long_run<'a>(parts: &'a [LikePart], start: usize, text: &'a str) -> Front<'a>
    requires within { start ≤ length parts.now }
    requires before { NoManyBefore parts.now start }
    ensures value { by_front (shown result) ≡ some_end (is_like parts.now) (chars text.now) }
    ensures shorter { IsShorter (length parts.now + length text.now) result }
{
    let mut run = ArrayString::<LONG_BYTES>::new();
    write_run(&parts[start..], &mut run);
    piece_by_run(parts, start, &Finder::new(run.as_str().as_bytes()), text)
}

/// What is left behind the first place for the parts up to the next `Many`, or behind the only one for the last parts. What
/// the search for their longest run needs is made once.
fn next_piece<'a>(parts: &'a [LikePart], text: &'a str) -> Front<'a>
    ensures value { by_front (shown result) ≡ some_end (is_like parts.now) (chars text.now) }
    ensures shorter { IsShorter (length parts.now + length text.now) result }
{
    if !has_many(parts) {
        return last_piece(parts, text);
    }
    let run = longest_run(parts);
    if run.length > SHORT {
        return piece_by_long_run(parts, run.start, text);
    }
    piece_by_short_run(parts, run.start, text)
}

/// Whether some end of the text is like the pattern, piece by piece.
fn has_end_like(pattern: &[LikePart], text: &str) -> bool
    ensures { result ≡ some_end (is_like pattern.now) (chars text.now) }
{
    let mut parts = pattern;
    let mut rest = text;
    loop {
        match next_piece(parts, rest) {
            Front::Unlike => return false,
            Front::Whole => return true,
            Front::Rest(behind, left) => {
                parts = behind;
                rest = left;
            }
        }
    }
}

/// Whether a text is like a pattern. It takes no memory.
fn is_like(pattern: &[LikePart], text: &str) -> bool
    ensures { result ≡ is_like pattern.now (chars text.now) }
{
    match front_of(pattern, text) {
        Front::Unlike => false,
        Front::Whole => true,
        Front::Rest(behind, left) => has_end_like(behind, left),
    }
}

/// Whether there is a text, and it is like the pattern.
pub fn is_text_like(value: Option<&Value>, pattern: &[LikePart]) -> bool
    ensures { result ≡ passes (is_text_like pattern.now) (option_copied value.entry) }
{
    match value {
        Some(Value::Words(text)) => is_like(pattern, text.as_str()),
        _ => false,
    }
}
