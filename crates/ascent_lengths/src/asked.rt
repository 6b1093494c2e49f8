//! Values of places at a price: those of two places whose route is shorter than the price must together make up the
//! difference.

use crate::commodity::CommodityLengths;
use crate::rows::{FAR, at, copy, fill, put, set_sums};
use std::alloc::{AllocError, Global};

/// The values of the places for a commodity at a price. For each place it has the collection and the delivery leg plus
/// the value, or `FAR` while the place requires nothing of others.
#[derive(Drop)]
pub struct PlaceValues {
    price: u32,
    values: Vec<u32>,
    firsts: Vec<u32>,
    lasts: Vec<u32>,
}

impl PlaceValues {
    /// Values for this many places.
    pub fn new(alloc: Global, places: usize) -> Result<PlaceValues, AllocError> {
        let width = places.div_ceil(8).wrapping_mul(8);
        Ok(PlaceValues {
            price: 0,
            values: vec![in alloc; 0; places]?,
            firsts: vec![in alloc; FAR; width]?,
            lasts: vec![in alloc; FAR; width]?,
        })
    }

    /// The values by place.
    pub fn values(&self) -> &[u32] {
        &self.values
    }

    /// Begins at this price with all values 0, while no place requires anything of others.
    pub fn begin(&mut self, price: u32) {
        self.price = price;
        fill(&mut self.values, 0);
        fill(&mut self.firsts, FAR);
        fill(&mut self.lasts, FAR);
    }

    /// Begins at this price with these values; each place requires of others what its value leaves.
    pub fn begin_from(&mut self, legs: &CommodityLengths<'_>, price: u32, values: &[u32]) {
        self.price = price;
        copy(values, &mut self.values);
        set_sums(legs.ends.collect, values, &mut self.firsts);
        set_sums(legs.ends.deliver, values, &mut self.lasts);
    }

    /// Sets the value of a place.
    pub fn settle(&mut self, legs: &CommodityLengths<'_>, k: usize, value: u32) {
        let (collect, deliver) = (at(legs.ends.collect, k), at(legs.ends.deliver, k));
        put(&mut self.values, k, value);
        put(&mut self.firsts, k, collect.wrapping_add(value));
        put(&mut self.lasts, k, deliver.wrapping_add(value));
    }

    /// From now on the place requires nothing of others.
    pub fn withhold(&mut self, k: usize) {
        put(&mut self.firsts, k, FAR);
        put(&mut self.lasts, k, FAR);
    }

    /// Sets the value of each of these places, in order, to the least that its routes require, alone or with places
    /// that require something. A place requires nothing of others until it has a value.
    pub fn settle_asked(&mut self, legs: &CommodityLengths<'_>, places: &[usize]) {
        let legs = legs.below(self.price);
        for k in places {
            let (forth, back) = (legs.forth(*k), legs.back(*k));
            let mut least = self.price;
            if forth.min(back) < self.price {
                self.withhold(*k);
                least = least.min(legs.alone(*k));
            }
            if forth < least {
                least = least.min(legs.onward(*k).least(&self.lasts));
            }
            if back < least {
                least = least.min(legs.before(*k).least(&self.firsts));
            }
            self.settle(&legs, *k, self.price.saturating_sub(least));
        }
    }

    /// The least length of a route over the place, plus the value of its other hub.
    pub fn shortest_by(&self, legs: &CommodityLengths<'_>, k: usize) -> u32 {
        let onward = legs.onward(k).least(&self.lasts);
        let before = legs.before(k).least(&self.firsts);
        onward.min(before).min(legs.alone(k))
    }

    /// The greatest price, at most `most`, at which these values are feasible.
    pub fn greatest_price(
        &mut self,
        legs: &CommodityLengths<'_>,
        values: &[u32],
        most: u32,
    ) -> u32 {
        self.begin_from(legs, most, values);
        let mut price = most;
        for (k, value) in values.iter().enumerate() {
            if legs.forth(k).wrapping_add(*value) < price {
                let shortest = legs.onward(k).least(&self.lasts).min(legs.alone(k));
                price = price.min(shortest.wrapping_add(*value));
            }
        }
        price
    }
}
