//! How a session ended.

/// How a session ended.
#[derive(Clone, Copy, Debug, PartialEq, Eq)]
pub enum SessionEnd {
    /// The input was read to its end.
    Ended,
    /// An answer closed the session, as the message or the limit of messages asked for.
    Closed,
    /// A refusal closed the session, since where the next message begins is not known.
    Unframed,
    /// The input ended within a message.
    Cut,
    /// The input failed.
    ReadFault,
    /// The output failed.
    WriteFault,
    /// Memory ran out while a message was read.
    NoMemory,
}
