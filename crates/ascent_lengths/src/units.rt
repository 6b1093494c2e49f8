//! Units of lengths and flows, in which both fit 32 bits.
//!
//! The unit of lengths divides them all, and is as fine as possible while flows need no rounding. Where no divisor is
//! great enough, lengths are rounded; where lengths and flows together are too great, flows are rounded.

use hub_model::Instance;

/// The greatest length of a route, in the unit of lengths.
const MOST_LENGTH: u128 = 1 << 28;
/// The greatest product of a flow and the longest route, in both units: 256 of them do not wrap 64 bits.
const MOST_SINGLE: u128 = 1 << 54;
/// The greatest product of all flows and the longest route, in both units.
const MOST_TOTAL: u128 = 1 << 60;
/// The greatest flow, in the unit of flows.
const MOST_FLOW: u128 = (1 << 32) - 1;

/// The unit of lengths and the unit of flows, both in 10^-6, and the length of the longest route in that unit. `slack` is
/// what a route may lose by rounding: one for each leg, or nothing.
#[derive(Clone, Copy)]
pub(crate) struct Units {
    pub(crate) length: u64,
    pub(crate) flow: u64,
    pub(crate) longest: u32,
    pub(crate) slack: u32,
}

impl Units {
    /// The units that fit the instance.
    pub(crate) fn of(instance: &Instance, factors: [u64; 3]) -> Units {
        let flows = NumberSummary::of(instance.flows());
        let distances = NumberSummary::of(instance.distances());
        let factors = NumberSummary::of(&factors);
        let common = flows.common.max(1);
        let longest = factors.total.wrapping_mul(distances.most);
        // The greatest length of the longest route at which flows need no rounding.
        let single = MOST_SINGLE / (flows.most / common).max(1);
        let all = MOST_TOTAL / (flows.total / common).max(1);
        let most = single.min(all).clamp(1, MOST_LENGTH);
        let exact = distances.common.wrapping_mul(factors.common);
        let least = longest.div_ceil(MOST_LENGTH).max(1);
        let length = finest(exact, longest.div_ceil(most)).max(least);
        let longest = (longest / length).min(MOST_LENGTH);
        let least = (flows.most.wrapping_mul(longest.max(1)))
            .div_ceil(MOST_SINGLE)
            .max((flows.total.wrapping_mul(longest.max(1))).div_ceil(MOST_TOTAL))
            .max(flows.most.div_ceil(MOST_FLOW));
        Units {
            length: narrow(length),
            flow: narrow(common.wrapping_mul(least.max(1).div_ceil(common))),
            longest: longest as u32,
            slack: if exact % length == 0 { 0 } else { 3 },
        }
    }
}

/// The unit of distances: their greatest common divisor, or a coarser unit in which none is above `MOST_LENGTH`.
pub(crate) fn distance_unit(instance: &Instance) -> u64 {
    let distances = NumberSummary::of(instance.distances());
    narrow(distances.common.max(distances.most.div_ceil(MOST_LENGTH)))
}

/// The greatest common divisor of some numbers, at least 1, the greatest of them, and their sum.
#[derive(Drop)]
struct NumberSummary {
    common: u128,
    most: u128,
    total: u128,
}

impl NumberSummary {
    fn of(numbers: &[u64]) -> NumberSummary {
        let (mut common, mut most, mut total) = (0, 0, 0u128);
        for number in numbers {
            common = divisor(common, *number);
            most = most.max(*number);
            total = total.wrapping_add(*number as u128);
        }
        NumberSummary {
            common: common.max(1) as u128,
            most: most as u128,
            total,
        }
    }
}

/// The number in 64 bits, or `u64::MAX` if it does not fit.
fn narrow(number: u128) -> u64 {
    number.min(u64::MAX as u128) as u64
}

/// A small divisor of the unit that is not below the least, or the unit.
fn finest(unit: u128, least: u128) -> u128 {
    let mut finest = unit;
    for prime in [5, 3, 2] {
        // A number below 2^128 has no prime more often.
        for _ in 0..128 {
            if finest % prime != 0 || finest / prime < least {
                break;
            }
            finest /= prime;
        }
    }
    finest
}

/// The greatest common divisor of two numbers.
fn divisor(some: u64, other: u64) -> u64 {
    let (mut high, mut low) = (some, other);
    // Two turns halve the numbers at least.
    for _ in 0..128 {
        if low == 0 {
            break;
        }
        (high, low) = (low, high % low);
    }
    high
}
