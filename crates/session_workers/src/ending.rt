//! How a worker ended.

/// How a worker ended.
#[derive(Clone, Copy, Debug, PartialEq, Eq)]
pub enum WorkerEnd {
    /// It had as many links as it may have.
    LimitReached,
    /// No link was left.
    NoMore,
    /// The acceptor failed.
    AcceptFault,
}
