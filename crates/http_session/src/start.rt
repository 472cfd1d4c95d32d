//! The start of a message: what its head says.
ghost use Rattle.std.specs.Prelude.{◌≡◌, IfOk, IsUtf8};
ghost use Rattle.httparse.specs.Grammar.{IsToken};
ghost use Rattle.http_session.specs.Answers.{StartsBy};
ghost use Rattle.http_session.specs.Reading.{HeadAt};

use crate::message::Ending;
use crate::plan::{Plan, plan_of};
use http::Method;
use http::method::MethodError;
use httparse::spans::{HeaderSpan, RequestSpans};
use std::alloc::Global;
use wfs_ends::{Mem, OutOfMemory, Text};

/// The start of a message.
#[derive(Drop)]
pub(crate) struct Start {
    pub method: Method,
    pub target: Text,
    pub plan: Plan,
}

/// What was made of a head.
#[derive(Drop)]
pub(crate) enum StartRead {
    Start(Start),
    Ended(Ending),
    OutOfMemory,
}

/// Judges the head that the bytes begin with.
pub(crate) fn read_start(
    alloc: Global,
    bytes: &[u8],
    headers: &[HeaderSpan],
    spans: RequestSpans,
) -> StartRead
    requires head { HeadAt bytes.now headers.now spans }
    ensures { StartsBy result bytes.now headers.now spans }
{
    let method = spans.method.of(bytes);
    let target = spans.path.of(bytes);
    let plan = match plan_of(method, spans.version, bytes, &headers[..spans.headers]) {
        Ok(plan) => plan,
        Err(ending) => return StartRead::Ended(ending),
    };
    let Ok(method) = method_of(alloc, method) else {
        return StartRead::OutOfMemory;
    };
    let Ok(target) = target_of(alloc, target) else {
        return StartRead::OutOfMemory;
    };
    StartRead::Start(Start {
        method,
        target,
        plan,
    })
}

/// The method: a token, so that it fails only for want of memory.
fn method_of(alloc: Global, bytes: &[u8]) -> Mem<Method>
    requires { IsToken bytes.now }
    ensures { IfOk result (λ m. m ≡ bytes.now) }
{
    match Method::from_bytes(alloc, bytes) {
        Ok(method) => Ok(method),
        Err(MethodError::OutOfMemory) => Err(OutOfMemory),
        Err(MethodError::Invalid) => unreachable!(),
    }
}

/// The target as text.
fn target_of(alloc: Global, bytes: &[u8]) -> Mem<Text>
    requires { IsUtf8 bytes.now }
    ensures { IfOk result (λ t. t ≡ bytes.now) }
{
    match str::from_utf8(bytes) {
        Ok(text) => Text::of(alloc, text),
        Err(_) => unreachable!(),
    }
}
