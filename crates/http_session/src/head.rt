//! The head of the next message.
ghost use Rattle.std.specs.Prelude.{◌≡◌, ◌≤◌, ◌<◌, [], ◌∷◌, List, length, drop, take, IfOk, IfSome, Some, true, option_map};
ghost use Rattle.std.specs.List.{list_all};
ghost use Rattle.httparse.specs.Grammar.{HasNoRequest};
ghost use Rattle.http_session.specs.Heads.{IsUndecided, EndsWithoutHead, SplitsTarget, after_space};
ghost use Rattle.http_session.specs.Cuts.{StartsOutside, Cut, is_of};
ghost use Rattle.http_session.specs.Watching.{HasJudged};
ghost use Rattle.http_session.specs.Reading.{Moved, IsStep, IsJudged, IsCalm, IsEarly, IsHeadEnd, IsHeadFull, IsHeadRead};

use crate::buffer::{Buffer, Filled, ROOM};
use crate::cut::{Class, split_run};
use crate::message::Ending;
use crate::watch::Watch;
use httparse::Status;
use httparse::spans::{EMPTY_HEADER_SPAN, HeaderSpan, RequestSpans, parse_request};
use std::alloc::{AllocError, Global};
use wfs_ends::Source;

/// Room for every field that 16,384 bytes can hold.
const FIELD_ROOM: usize = 5500;

/// What `httparse` makes of the bytes so far.
#[derive(Debug, Drop)]
pub(crate) enum Step {
    /// They begin with this head.
    Head(RequestSpans),
    /// More bytes can complete one.
    More,
    /// No bytes can.
    Never,
}

/// What the reader makes of them.
#[derive(Debug, Drop)]
pub(crate) enum Judged {
    Head(RequestSpans),
    More,
    Bad,
}

/// What was read.
#[derive(Debug, Drop)]
pub(crate) enum HeadRead {
    /// A head, which the buffer begins with.
    Head(RequestSpans),
    Ended(Ending),
    Fault,
}

/// The room for fields, taken once.
pub(crate) fn field_room(alloc: Global) -> Result<Vec<HeaderSpan>, AllocError>
    ensures { IfOk result (λ v. length v.items ≡ 5500) }
{
    vec![in alloc; EMPTY_HEADER_SPAN; FIELD_ROOM]
}

/// Reads the next head.
pub(crate) fn read_head<S: Source>(
    buffer: &mut Buffer,
    headers: &mut [HeaderSpan],
    source: &mut S,
) -> HeadRead
    requires room { length headers.old ≡ 5500 }
    ensures room { length headers.new ≡ 5500 }
    ensures moved { Moved buffer.old (S.source source.old) buffer.new (S.source source.new) }
    ensures read { IsHeadRead result buffer.new headers.new (S.source source.old)
        (S.source source.new) }
    ensures calm { (result ≡ HeadRead.Fault → ⊥)
        → IsCalm (S.source source.old) (S.source source.new) }
{
    let mut watch = Watch::new();
    while buffer.bytes().len() < ROOM {
        match judge_when_due(buffer.bytes(), &mut watch, headers) {
            Judged::Head(spans) => return HeadRead::Head(spans),
            Judged::Bad => return HeadRead::Ended(Ending::BadHead),
            Judged::More => {}
        }
        match buffer.fill(source) {
            Filled::More => {}
            Filled::End => return judge_at_end(buffer.bytes(), headers),
            Filled::Fault => return HeadRead::Fault,
        }
    }
    judge_when_full(buffer.bytes(), headers)
}

/// Looks for a head where one may be complete, and answers `More` elsewhere, where none ends.
fn judge_when_due(bytes: &[u8], watch: &mut Watch, headers: &mut [HeaderSpan]) -> Judged
    requires within { length bytes.now ≤ 16384 }
    requires seen { HasJudged watch.old bytes.now }
    requires room { length headers.old ≡ 5500 }
    ensures room { length headers.new ≡ 5500 }
    ensures judged { IsEarly bytes.now headers.new result }
    ensures seen { result ≡ Judged.More → HasJudged watch.new bytes.now }
{
    if watch.is_due(bytes) {
        judge(bytes, target_space(bytes), headers)
    } else {
        Judged::More
    }
}

/// Judges all the bytes of the input.
fn judge_at_end(bytes: &[u8], headers: &mut [HeaderSpan]) -> HeadRead
    requires within { length bytes.now < 16384 }
    requires room { length headers.old ≡ 5500 }
    ensures room { length headers.new ≡ 5500 }
    ensures read { IsHeadEnd result bytes.now headers.new }
{
    match judge(bytes, target_space(bytes), headers) {
        Judged::Head(spans) => HeadRead::Head(spans),
        Judged::Bad => HeadRead::Ended(Ending::BadHead),
        Judged::More => HeadRead::Ended(end_of(bytes)),
    }
}

/// Where the input ends between two messages, and where within one.
fn end_of(bytes: &[u8]) -> Ending
    requires within { length bytes.now < 16384 }
    requires open { IsUndecided bytes.now }
    ensures { EndsWithoutHead bytes.now result }
{
    let (_, rest) = split_run(bytes, Class::Line);
    if rest.is_empty() {
        Ending::End
    } else {
        Ending::Cut
    }
}

/// Judges as many bytes as a head may have.
fn judge_when_full(bytes: &[u8], headers: &mut [HeaderSpan]) -> HeadRead
    requires within { length bytes.now ≡ 16384 }
    requires room { length headers.old ≡ 5500 }
    ensures room { length headers.new ≡ 5500 }
    ensures read { IsHeadFull result bytes.now headers.new }
{
    match judge(bytes, target_space(bytes), headers) {
        Judged::Head(spans) => HeadRead::Head(spans),
        Judged::Bad => HeadRead::Ended(Ending::BadHead),
        Judged::More => HeadRead::Ended(Ending::TooLarge),
    }
}

/// What the bytes come to, given the place of the space where they end within the target.
fn judge(bytes: &[u8], space: Option<usize>, headers: &mut [HeaderSpan]) -> Judged
    requires within { length bytes.now ≤ 16384 }
    requires room { length headers.old ≡ 5500 }
    requires split { SplitsTarget bytes.now space }
    ensures room { length headers.new ≡ 5500 }
    ensures judged { IsJudged bytes.now headers.new result }
{
    match step_at(bytes, headers) {
        Step::Head(head) => Judged::Head(head),
        Step::More => match space {
            Some(at) => judge_front(bytes, at, headers),
            None => Judged::More,
        },
        Step::Never => match space {
            Some(at) => judge_front(bytes, at, headers),
            None => Judged::Bad,
        },
    }
}

/// The same, by the bytes before the space: what comes within the target is judged once that has ended.
fn judge_front(bytes: &[u8], at: usize, headers: &mut [HeaderSpan]) -> Judged
    requires within { length bytes.now ≤ 16384 }
    requires room { length headers.old ≡ 5500 }
    requires none { HasNoRequest bytes.now }
    requires split { SplitsTarget bytes.now (Some at) }
    ensures room { length headers.new ≡ 5500 }
    ensures judged { IsJudged bytes.now headers.new result }
{
    match step_at(front_of(bytes, at), headers) {
        Step::Never => Judged::Bad,
        _ => Judged::More,
    }
}

/// The bytes before the space.
fn front_of(bytes: &[u8], at: usize) -> &[u8]
    requires { at ≤ length bytes.now }
    ensures { result.now ≡ take at bytes.now }
{
    &bytes[..at]
}

/// What `httparse` makes of the bytes, with no doubt left by the room for fields.
fn step_at(bytes: &[u8], headers: &mut [HeaderSpan]) -> Step
    requires within { length bytes.now ≤ 16384 }
    requires room { length headers.old ≡ 5500 }
    ensures room { length headers.new ≡ 5500 }
    ensures step { IsStep bytes.now headers.new result }
{
    match parse_request(bytes, headers) {
        Ok(Status::Complete(head)) => Step::Head(head),
        Ok(Status::Partial) => Step::More,
        Err(_) => Step::Never,
    }
}

/// Where the space before the target stands, if the bytes end within the target.
fn target_space(bytes: &[u8]) -> Option<usize>
    ensures { SplitsTarget bytes.now result }
{
    let (lines, rest) = split_run(bytes, Class::Line);
    let (method, rest) = split_run(rest, Class::Plain);
    let Some(target) = after_space(rest) else {
        return None;
    };
    let (_, more) = split_run(target, Class::Plain);
    if more.is_empty() {
        Some(lines.len() + method.len())
    } else {
        None
    }
}

/// What stands behind a space in front.
fn after_space(bytes: &[u8]) -> Option<&[u8]>
    ensures { option_map (λ rest. rest.now) result ≡ after_space bytes.now }
{
    match bytes {
        [b' ', rest @ ..] => Some(rest),
        _ => None,
    }
}
