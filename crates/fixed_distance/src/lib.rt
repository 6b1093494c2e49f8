//! Plane distances and square roots in whole numbers, rounded down.
//!
//! [`distance`] is the planar distance of the definitions in `file_spec`, and [`root`] the root that it is made with.
//! Nothing here takes memory.
#![tactic(auto)]

mod planes;

pub use planes::{distance, root};
