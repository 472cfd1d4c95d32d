//! Where in a text the parts of a pattern up to the next `Many` can stand.

ghost use Rattle.std.specs.Prelude.{◌≡◌, ◌≤◌, [], false, length, drop, chars, MatchOption};
ghost use Rattle.std.specs.List.{list_any};
ghost use Rattle.fes_filter.specs.Like.{is_like, some_end};
ghost use Rattle.fes_filter.specs.LikeFront.{is_many};
ghost use Rattle.fes_filter.specs.LikePlace.{letters, IsBeginOf, NoManyBefore, IsLeft};

use crate::letters::{behind, count};
use crate::pattern::LikePart;
use arrayvec::ArrayString;
use memchr::memmem::Finder;

/// A short run has at most so many characters.
pub const SHORT: usize = 16;

/// The room for the bytes of a short run.
pub const SHORT_BYTES: usize = 64;

/// The room for the bytes of a long run: a text of a feature has at most 4,096 characters, of at most four bytes each.
pub const LONG_BYTES: usize = 16_384;

pub fn is_many(part: LikePart) -> bool
    ensures { result ≡ is_many part }
{
    matches!(part, LikePart::Many)
}

pub fn has_many(parts: &[LikePart]) -> bool
    ensures { result ≡ list_any is_many parts.now }
{
    parts.iter().any(|part| is_many(*part))
}

/// Characters side by side in a pattern.
#[derive(Clone, Copy)]
pub struct Run {
    /// The first of them.
    pub start: usize,
    /// How many they are.
    pub length: usize,
}

/// The longest run of characters before the first `Many`.
pub fn longest_run(parts: &[LikePart]) -> Run
    ensures within { result.start ≤ length parts.now }
    ensures before { NoManyBefore parts.now result.start }
{
    let mut best = 0;
    let mut longest = 0;
    let mut start = 0;
    for i in 0..parts.len() {
        match parts[i] {
            LikePart::Exactly(_) => {
                if i - start >= longest {
                    best = start;
                    longest = i - start + 1;
                }
            }
            LikePart::One => start = i + 1,
            LikePart::Many => break,
        }
    }
    Run {
        start: best,
        length: longest,
    }
}

/// Writes the characters at the beginning of the parts, as many as there is room for.
pub fn write_run<const CAP: usize>(parts: &[LikePart], run: &mut ArrayString<CAP>)
    requires { run.old.bytes ≡ [] }
    ensures { IsBeginOf run.new.bytes (letters parts.now) }
{
    for part in parts {
        match *part {
            LikePart::Exactly(c) => {
                if run.try_push(c).is_err() {
                    return;
                }
            }
            LikePart::One | LikePart::Many => return,
        }
    }
}

/// What is left of a text from the first place on where the run, with which the parts from `start` on begin, stands as far
/// behind it as it has to. `None`: no end of the text is like the pattern.
pub fn from_run<'a>(
    parts: &[LikePart],
    start: usize,
    run: &Finder<'_>,
    text: &'a str,
) -> Option<&'a str>
    requires within { start ≤ length parts.now }
    requires before { NoManyBefore parts.now start }
    requires begins { IsBeginOf run.now (letters (drop start parts.now)) }
    ensures { MatchOption result (some_end (is_like parts.now) (chars text.now) ≡ false)
        (λ rest. IsLeft parts.now text.now rest.now) }
{
    let ahead = behind(text, start);
    match run.find(ahead.as_bytes()) {
        None => None,
        Some(place) => {
            if !ahead.is_char_boundary(place) {
                return Some(text);
            }
            Some(behind(text, count(ahead.split_at(place).0)))
        }
    }
}
