//! Distances in the plane, and roots.

use fixed_distance::{distance, root};
use std::alloc::Global;
use test_lines::Wrong;

/// The distance of two points so far apart, divided.
pub(crate) fn distance_told(
    alloc: Global,
    dx: &str,
    dy: &str,
    divide: &str,
) -> Result<String, Wrong> {
    match within(dx.parse()?, dy.parse()?, divide.parse()?) {
        Some(distance) => Ok(format!(in alloc; "{distance}")?),
        None => Err(Wrong::NoCase),
    }
}

// The distance, within its limits.
fn within(dx: i64, dy: i64, divide: u32) -> Option<u64> {
    let near = dx.unsigned_abs() <= 2_000_000_000_000 && dy.unsigned_abs() <= 2_000_000_000_000;
    if near && divide >= 1 && divide <= 1_000_000 {
        Some(distance(dx, dy, divide))
    } else {
        None
    }
}

/// The root of a number.
pub(crate) fn root_told(alloc: Global, value: &str) -> Result<String, Wrong> {
    let root = root(value.parse()?);
    Ok(format!(in alloc; "{root}")?)
}
