//! The texts of duals and of sums.

use std::alloc::{AllocError, Global};

/// The price and the values of a dual.
pub fn dual_told(alloc: Global, price: i128, values: &[(u32, i128)]) -> Result<String, AllocError> {
    format!(in alloc; "{price} {values:?}")
}

/// The total and the loads of a cut.
pub fn sums_told(alloc: Global, total: u128, loads: &[u128]) -> Result<String, AllocError> {
    format!(in alloc; "{total} {loads:?}")
}
