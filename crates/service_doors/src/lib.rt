//! Where the links of workers come from: an acceptor for each worker, which doors give.
#![tactic(auto)]

mod acceptor;
mod calls;
mod doors;
mod memory_acceptor;
mod memory_doors;
mod pace;
mod stream_end;
mod tcp;

pub use acceptor::Acceptor;
pub use doors::{Asked, DoorFault, Doors};
pub use memory_acceptor::MemAcceptor;
pub use memory_doors::MemDoors;
pub use stream_end::StreamEnd;
pub use tcp::{TcpAcceptor, TcpDoors};

#[cfg(test)]
mod tests;
