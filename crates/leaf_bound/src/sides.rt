//! The side to which a candidate is fixed.

/// The value to which variable fixing sets a candidate.
#[derive(Clone, Copy, Debug, PartialEq, Eq)]
pub enum Side {
    /// The candidate is open (a hub).
    In,
    /// The candidate is closed.
    Out,
}
