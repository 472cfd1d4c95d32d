//! What was done to a file in memory. What was written stands in one list, `size` bytes of it from the place `from` on.

#[derive(Clone, Copy)]
pub(crate) enum Call {
    Write { at: usize, from: usize, size: usize },
    Cut { to: usize },
    Sync,
}
