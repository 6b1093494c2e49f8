//! The sums of the duals of all commodities, and the bound by them.

use crate::origins::OriginTerms;
use ascent_lengths::{Lengths, add, at, copy, fill};
use dual_flow::FULL_PRICE;
use search_advice::Side;
use std::alloc::{AllocError, Global};

/// The sum of the prices, and for each place its load: the sum of its values. Both are weighted by the flows.
#[derive(Drop)]
pub struct Sums {
    /// The sum of the prices.
    pub total: i64,
    /// The load of each place.
    pub loads: Vec<i64>,
}

impl Sums {
    /// Zero sums, for this many places.
    pub fn new(alloc: Global, places: usize) -> Result<Sums, AllocError> {
        Ok(Sums {
            total: 0,
            loads: vec![in alloc; 0; places]?,
        })
    }

    /// A copy.
    pub fn copied(&self, alloc: Global) -> Result<Sums, AllocError> {
        Ok(Sums {
            total: self.total,
            loads: self.loads.to_vec(alloc)?,
        })
    }

    /// Sets these to the other sums, as far as both vectors go.
    pub fn take(&mut self, other: &Sums) {
        self.total = other.total;
        copy(&other.loads, &mut self.loads);
    }

    /// Adds the other sums, as far as both vectors go.
    pub fn add(&mut self, other: &Sums) {
        self.total = self.total.wrapping_add(other.total);
        add(&other.loads, &mut self.loads);
    }

    /// Adds the dual of a commodity with this flow, price and values.
    pub fn add_dual(&mut self, flow: i64, price: u32, values: &[u32]) {
        self.total = self.total.wrapping_add(flow.wrapping_mul(price as i64));
        let loads = self.loads.as_mut_slice();
        for k in 0..loads.len().min(values.len()) {
            loads[k] = loads[k].wrapping_add(flow.wrapping_mul(values[k] as i64));
        }
    }

    /// Sets all sums to 0.
    pub fn clear(&mut self) {
        self.total = 0;
        fill(&mut self.loads, 0);
    }

    /// The objective that passes increase: total of the prices less the cost of the loads by their ramps, weighted by
    /// the flows.
    pub fn objective(&self, terms: OriginTerms<'_>) -> i128 {
        let extra = terms.extra_at(&self.loads);
        let hubs = terms.hubs.unwrap_or(1) as i128;
        let beside = hubs.wrapping_mul(extra as i128);
        let mut sum = (self.total as i128)
            .wrapping_sub(beside)
            .wrapping_mul(FULL_PRICE as i128);
        for (ramp, load) in terms.ramps.iter().zip(&self.loads) {
            sum = sum.wrapping_sub(ramp.cost(load.wrapping_sub(extra)));
        }
        sum / FULL_PRICE as i128
    }

    /// The bound of a branch with these sides by the Benders cut of these sums, in 10^-12. For exactly p hubs it has
    /// those inside, and of the free places those with the least reduced cost. Where any number will do, some hub is open:
    /// if none is inside, the least reduced cost of a free place is paid at least.
    pub fn bound(&self, lengths: &Lengths, sides: &[Side]) -> i128 {
        let mut bound = (self.total as i128).wrapping_mul(lengths.worth());
        let mut left = lengths.wanted.unwrap_or(1);
        for (k, side) in sides.iter().enumerate() {
            let rest = self.rest(lengths, k).0;
            if *side == Side::In {
                bound = bound.wrapping_add(rest);
                left = left.saturating_sub(1);
            } else if *side == Side::Free && lengths.wanted.is_none() {
                bound = bound.wrapping_add(rest.min(0));
            }
        }
        let least = lengths.wanted.map_or(0, |_| i128::MIN);
        let mut last = (i128::MIN, 0);
        for _ in 0..left {
            let Some(next) = self.next_rest(lengths, sides, last) else {
                break;
            };
            bound = bound.wrapping_add(next.0.max(least));
            last = next;
        }
        bound
    }

    /// The reduced cost of opening the place, in 10^-12 (its fixed cost less its load), with the place.
    fn rest(&self, lengths: &Lengths, place: usize) -> (i128, usize) {
        let load = (at(&self.loads, place) as i128).wrapping_mul(lengths.worth());
        let fixed = at(&lengths.fixed_costs, place);
        (fixed.wrapping_sub(load), place)
    }

    /// The least reduced cost of a free place after the last one, if there is one.
    fn next_rest(
        &self,
        lengths: &Lengths,
        sides: &[Side],
        last: (i128, usize),
    ) -> Option<(i128, usize)> {
        let mut found: Option<(i128, usize)> = None;
        for (k, side) in sides.iter().enumerate() {
            let rest = self.rest(lengths, k);
            let is_least = found.is_none_or(|found| rest < found);
            if *side == Side::Free && last < rest && is_least {
                found = Some(rest);
            }
        }
        found
    }
}
