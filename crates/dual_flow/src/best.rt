//! The best dual of a commodity at given penalties of the hubs.

use crate::network::{FULL_PRICE, Network};
use crate::ways::FlowPath;
use ascent_lengths::{CommodityLengths, FAR, PlaceValues, at, gather};
use std::alloc::{AllocError, Global};

/// From this many priced places on, all of them are tried for a cap.
const MANY: usize = 32;

/// The penalties by place, and the places whose penalties count.
#[derive(Clone, Copy)]
pub struct Priced<'a> {
    /// The penalty of each place.
    pub prices: &'a [i64],
    /// The places whose penalties count.
    pub places: &'a [usize],
}

/// A solver of the best dual of a commodity: the lengths of single routes with the places' penalties, the network with
/// its places and their collection and delivery legs, and the values that it found last.
#[derive(Drop)]
pub struct BestDual {
    network: Network,
    way: FlowPath,
    singles: Vec<(u32, i64)>,
    places: Vec<usize>,
    collect: Vec<u32>,
    deliver: Vec<u32>,
    found: PlaceValues,
}

impl BestDual {
    /// A solver over this many places.
    pub fn new(alloc: Global, places: usize) -> Result<BestDual, AllocError> {
        Ok(BestDual {
            network: Network::new(alloc, places)?,
            way: FlowPath::new(alloc, places)?,
            singles: Vec::with_capacity(alloc, places)?,
            places: Vec::with_capacity(alloc, places)?,
            collect: vec![in alloc; FAR; places]?,
            deliver: vec![in alloc; FAR; places]?,
            found: PlaceValues::new(alloc, places)?,
        })
    }

    /// The values of the last solution.
    pub fn values(&self) -> &[u32] {
        self.found.values()
    }

    /// Solves for the values of the priced places, and returns the commodity's price: at most `cap`. `last` is the
    /// price before. The other places have no values yet.
    pub fn find(
        &mut self,
        legs: &CommodityLengths<'_>,
        priced: Priced<'_>,
        cap: u32,
        last: u32,
    ) -> u32 {
        let cap = cap.min(self.single_cap(legs, priced, last));
        let legs = legs.below(cap);
        self.connect(&legs, priced, cap);
        let price = self.network.solve(cap, &mut self.way);
        self.found.begin(price);
        for (x, k) in self.places.iter().enumerate() {
            let value = self.network.value(x, price);
            self.found.settle(&legs, *k, value);
        }
        price
    }

    /// Sets the value of each of these places, in order, to the least that its routes require.
    pub fn complete(&mut self, legs: &CommodityLengths<'_>, others: &[usize]) {
        self.found.settle_asked(legs, others);
    }

    /// An upper bound on the best price: the length of the route over some single place.
    ///
    /// Two full units of flow are sent. Take the places with the shortest single routes whose penalties together reach
    /// two units: one has room left before the last unit is sent, so an augmenting path no longer than its single route
    /// is open. Places near the last price mostly suffice.
    fn single_cap(&mut self, legs: &CommodityLengths<'_>, priced: Priced<'_>, last: u32) -> u32 {
        let is_thorough = last == 0 || priced.places.len() >= MANY;
        let most = if is_thorough { FAR } else { last };
        for more in [last / 16, last / 4, last, most] {
            let limit = last.saturating_add(more).min(FAR - 1);
            if let Some(length) = self.cap_within(legs, priced, limit) {
                return length;
            }
        }
        FAR
    }

    /// The same over single routes no longer than the limit; none if the penalties of their places are below two full
    /// units.
    fn cap_within(
        &mut self,
        legs: &CommodityLengths<'_>,
        priced: Priced<'_>,
        limit: u32,
    ) -> Option<u32> {
        self.singles.clear();
        let mut sum = 0i64;
        for k in priced.places {
            let length = legs.alone(*k);
            if length <= limit {
                let price = at(priced.prices, *k);
                sum = sum.wrapping_add(price);
                // It succeeds, since there is room for all places.
                let _ = self.singles.push((length, price));
            }
        }
        if sum < 2 * FULL_PRICE {
            return None;
        }
        self.singles.sort_unstable();
        let mut sum = 0i64;
        for (length, price) in &self.singles {
            sum = sum.wrapping_add(*price);
            if sum >= 2 * FULL_PRICE {
                return Some(*length);
            }
        }
        None
    }

    /// Builds the network of the priced places over which some route is shorter than the cap.
    fn connect(&mut self, legs: &CommodityLengths<'_>, priced: Priced<'_>, cap: u32) {
        self.places.clear();
        for k in priced.places {
            if legs.is_near(*k, cap) {
                // It succeeds, since there is room for all places.
                let _ = self.places.push(*k);
            }
        }
        let count = self.places.len();
        gather(legs.ends.collect, &self.places, &mut self.collect);
        gather(legs.ends.deliver, &self.places, &mut self.deliver);
        let ends = [self.collect.as_slice(), self.deliver.as_slice()];
        self.network.begin(count);
        for (x, k) in self.places.iter().enumerate() {
            legs.set_pairs(*k, &self.places, ends, self.network.costs_mut(x, count));
            self.network.end_row(x, count, legs.alone(*k));
            let price = at(priced.prices, *k).clamp(0, FULL_PRICE);
            self.network.limit(x, price as i32);
        }
    }
}
