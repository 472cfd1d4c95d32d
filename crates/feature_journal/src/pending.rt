//! What a fault left begun: nothing, the record behind the ending gate, or the side that is not current.

#[derive(Clone, Copy)]
pub(crate) enum Pending {
    Nothing,
    Record,
    Side,
}
