//! The step of a commodity: a mix of old values and new ones, by 64ths.

use ascent_lengths::{at, put};
use dual_flow::{FULL_PRICE, Ramp};
use std::alloc::{AllocError, Global};

/// The number of parts of a whole step.
const PARTS: u32 = 64;

/// A place whose value the step changes, with its load before the step, and what one unit of value adds to the load.
#[derive(Clone, Copy)]
struct Change {
    place: usize,
    old: u32,
    new: u32,
    load: i64,
    weight: i64,
    ramp: Ramp,
}

impl Change {
    /// The cost of the next part of the step, after `part` parts of it.
    fn cost(&self, part: u32) -> i64 {
        let step = self.new as i64 - self.old as i64;
        let moved = self.weight.wrapping_mul(step).wrapping_mul(part as i64) >> 6;
        self.ramp
            .price(self.load.wrapping_add(moved))
            .wrapping_mul(step)
    }
}

/// The present loads of the places with their penalties, and the changes of the step that is made next.
#[derive(Drop)]
pub(crate) struct Steps {
    pub(crate) loads: Vec<i64>,
    pub(crate) prices: Vec<i64>,
    changes: Vec<Change>,
}

impl Steps {
    /// Steps over this many places.
    pub(crate) fn new(alloc: Global, places: usize) -> Result<Steps, AllocError> {
        Ok(Steps {
            loads: vec![in alloc; 0; places]?,
            prices: vec![in alloc; 0; places]?,
            changes: Vec::with_capacity(alloc, places)?,
        })
    }

    /// Lists the changes of the step from the old values to the new ones. A unit of value adds `weight` to a load.
    pub(crate) fn list(&mut self, old: &[u32], new: &[u32], ramps: &[Ramp], weight: i64) {
        self.changes.clear();
        let count = ramps.len().min(old.len()).min(new.len());
        for place in 0..count {
            if old[place] != new[place] {
                // It succeeds, since there is room for all places.
                let _ = self.changes.push(Change {
                    place,
                    old: old[place],
                    new: new[place],
                    load: at(&self.loads, place),
                    weight,
                    ramp: ramps[place],
                });
            }
        }
    }

    /// The step size: the greatest number of parts up to which the objective rises. `change` is the change of the
    /// commodity's own price in a whole step.
    pub(crate) fn parts(&self, change: i64) -> u32 {
        if self.slope(change, PARTS) >= 0 {
            return PARTS;
        }
        let mut parts = 0;
        for bit in [32, 16, 8, 4, 2, 1] {
            if self.slope(change, parts | bit) >= 0 {
                parts |= bit;
            }
        }
        parts
    }

    /// The gain of the next part of the step, after `part` parts of it.
    fn slope(&self, change: i64, part: u32) -> i64 {
        let mut slope = change.wrapping_mul(FULL_PRICE);
        for change in &self.changes {
            slope = slope.wrapping_sub(change.cost(part));
        }
        slope
    }

    /// Makes this many parts of the step, and updates the values of these places, loads and penalties. Penalties up to
    /// `coarse` count as 0. Returns whether other places than before have a penalty that counts.
    pub(crate) fn take(
        &mut self,
        parts: u32,
        places: &[usize],
        values: &mut [u32],
        coarse: i64,
    ) -> bool {
        let (loads, prices) = (self.loads.as_mut_slice(), self.prices.as_mut_slice());
        let mut is_other = false;
        for change in &self.changes {
            let value = narrow(weighed_sum(change.old, change.new, parts).div_ceil(PARTS as u64));
            let added = change.weight.wrapping_mul(value as i64 - change.old as i64);
            let load = change.load.wrapping_add(added);
            let price = change.ramp.price(load);
            is_other |= (price > coarse) != (at(prices, change.place) > coarse);
            put(values, at(places, change.place), value);
            put(loads, change.place, load);
            put(prices, change.place, price);
        }
        is_other
    }
}

/// `parts` 64ths of the way from the old number to the new one, rounded down.
pub(crate) fn mixed(old: u32, new: u32, parts: u32) -> u32 {
    narrow(weighed_sum(old, new, parts) / PARTS as u64)
}

/// The sum of 64 numbers: `parts` times the new one, else the old one.
fn weighed_sum(old: u32, new: u32, parts: u32) -> u64 {
    let left = PARTS.saturating_sub(parts) as u64;
    left.wrapping_mul(old as u64)
        .wrapping_add((parts as u64).wrapping_mul(new as u64))
}

/// The number in 32 bits, or `u32::MAX` if it does not fit.
fn narrow(number: u64) -> u32 {
    number.min(u32::MAX as u64) as u32
}
