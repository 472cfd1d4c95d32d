//! What a service answers to a message.

use wfs_model::Reply;

/// What a service answers to a message.
#[derive(Drop)]
pub enum Answered {
    /// A reply, a refusal among them.
    Reply(Reply),
    /// Nothing was done, since a limit of the service would be passed (503, `full`).
    Full,
    /// The store failed (500, `store`).
    StoreFault,
    /// Memory ran out, and nothing was done (503, `memory`).
    OutOfMemory,
}
