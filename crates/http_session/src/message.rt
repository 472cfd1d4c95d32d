//! A message, and why none follows.

use http::Method;
use thiserror::Error;
use wfs_ends::{List, Text};

/// A request as it was sent (RFC 9112, sections 2 to 7).
#[derive(Drop)]
pub struct Message {
    /// Contracts see it as its bytes, in the case in which they were sent.
    pub method: Method,
    /// The request target, as it was sent.
    pub target: Text,
    /// The content, without the framing of chunks. It has at most 4,194,304 bytes.
    pub body: List<u8>,
    /// The connection closes after the answer: the version is 1.0, or `Connection` lists `close`.
    pub close: bool,
}

/// Why no message follows.
#[derive(Clone, Copy, Debug, PartialEq, Eq, Error)]
pub enum Ending {
    /// The input ended after the last message. Only CR and LF may stand there.
    #[error("the input has ended")]
    End,
    /// The input ended within a message.
    #[error("the input ended within a message")]
    Cut,
    /// What came is no message of HTTP/1.0 or HTTP/1.1, or says its length in two ways.
    #[error("bad message head")]
    BadHead,
    /// A limit was passed: 16,384 bytes of head, 4,194,304 of content, 8,388,608 of chunks as sent.
    #[error("message too large")]
    TooLarge,
    /// A POST says no length.
    #[error("length required")]
    NoLength,
    /// A transfer coding other than `chunked`, or a content coding other than `identity`.
    #[error("coded body")]
    Coding,
}

/// What comes next on a connection. After anything but a message nothing more is read.
#[derive(Drop)]
pub enum Next {
    Message(Message),
    /// The input ended after the last message. Only CR and LF may stand there.
    End,
    /// What came is no message of HTTP/1.0 or HTTP/1.1, or says its length in two ways.
    BadHead,
    /// A limit was passed: 16,384 bytes of head, 4,194,304 of content, 8,388,608 of chunks as sent.
    TooLarge,
    /// A POST says no length.
    NoLength,
    /// A transfer coding other than `chunked`, or a content coding other than `identity`.
    Coding,
    /// The input ended within a message.
    Cut,
    /// The link could not be read.
    ReadFault,
    /// The line that asks for a body could not be written.
    WriteFault,
    OutOfMemory,
}
