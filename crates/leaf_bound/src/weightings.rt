//! The data of a bound.

/// The data of a bound: weights on cuts, with the cuts' numbers borrowed from a pool.
#[derive(Clone, Copy)]
pub struct Weighting<'a> {
    /// The total of each cut, in 10^-12.
    pub totals: &'a [u128],
    /// The loads of each cut, one for each node, in 10^-12.
    pub loads: &'a [Vec<u128>],
    /// The part of each cut, from 1 to 1000.
    pub parts: &'a [u32],
    /// The fixed cost of each node, in 10^-12.
    pub fixed: &'a [u128],
    /// The weight of each of the first cuts, a multiple of its part.
    pub weights: &'a [u128],
    /// The denominator, of which the weights are shares.
    pub denom: u128,
}
