//! The results of a worker.

use crate::Seat;

/// A finished block, with its answer until it is taken out.
#[derive(Drop)]
pub struct Row<T: Drop> {
    /// The number of the block, from 0.
    pub block: u32,
    /// Its answer.
    pub value: Option<T>,
}

/// The results of one worker, or of several together.
#[derive(Drop)]
pub struct Crop<T: Drop> {
    /// The seat that drew the blocks. It has ended.
    pub seat: Seat,
    /// A row for each block drawn, in the order of the seat's list.
    pub rows: Vec<Row<T>>,
}
