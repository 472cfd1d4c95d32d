//! A gate is told where a session is, and may hold it up there.

/// Where a session is.
#[derive(Clone, Copy, Debug, PartialEq, Eq)]
pub enum GatePoint {
    /// The service holds its turn, and a message is to be carried out in it.
    InTurn,
    /// The answer to a message is known, and no byte of it is written.
    BeforeAnswer,
}

/// Is told where a session is, and may hold it up there. No answer depends on it.
pub trait Gate {
    /// The session is at this point, and goes on when the call returns.
    fn reach(&mut self, point: GatePoint);
}

/// A gate that holds nothing up.
#[derive(Drop)]
pub struct NoGate;

impl Gate for NoGate {
    fn reach(&mut self, _point: GatePoint) {}
}
