//! The history of a seat and the size of a board, as plain data for contracts.

use std::collections::LinkedList;

/// The history of a seat: the numbers that it drew, its share of the board, and whether it has ended. Ghost data only.
pub struct Hand {
    /// The numbers drawn, in the order of the draws.
    pub drawn: LinkedList<u32>,
    /// The share of the board's seats that it represents.
    pub share: u32,
    /// Whether it drew past the last number.
    pub ended: bool,
}

/// What the thread of a seat knows. Ghost data only.
pub struct Told {
    /// The number of blocks of the board.
    pub blocks: u32,
    /// The history of the seat.
    pub hand: Hand,
}

/// The size of a board.
#[derive(Drop)]
pub struct Size {
    /// Numbers below this are handed out.
    pub blocks: u32,
    /// The share of all seats together.
    pub seats: u32,
}
