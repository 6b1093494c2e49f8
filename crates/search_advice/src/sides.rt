//! The sides of a branch.

/// The side of a place in a branch.
#[derive(Clone, Copy, PartialEq, Eq)]
pub enum Side {
    /// It is free.
    Free,
    /// It is inside: a hub.
    In,
    /// It is closed.
    Out,
}
