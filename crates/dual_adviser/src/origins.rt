//! The duals of an origin in closed form. The worker pool shares the origins.

use crate::fitting::{Fitting, Manner};
use ascent_lengths::{CommodityLengths, Lengths, PlaceValues, copy, put, row, row_mut};
use claim_board::Job;
use dual_ascent::{State, Sums};
use hub_moves::{begin_tight, is_tight};
use std::alloc::{AllocError, Global};

/// The new prices and values of an origin, and their sums; for a guess, the change of the sums. Only the sums are there
/// where duals are not stored.
#[derive(Drop)]
pub(crate) struct Fitted {
    pub(crate) prices: Vec<u32>,
    pub(crate) values: Vec<u32>,
    pub(crate) sums: Sums,
}

/// The job of a batch: block e is origin `first + e`. Places that are out of date require nothing of others; the listed
/// ones get, in order, the least values that are required.
#[derive(Clone, Copy)]
pub(crate) struct Origins<'a> {
    pub(crate) lengths: &'a Lengths,
    pub(crate) fitting: &'a Fitting,
    pub(crate) manner: Manner,
    pub(crate) state: &'a State,
    pub(crate) first: usize,
}

impl<'a> Origins<'a> {
    /// The start of an origin: its values and prices of 0 where duals are stored, and sums of 0.
    fn begin(&self, alloc: Global, values: &[u32]) -> Result<Fitted, AllocError> {
        let (prices, values) = if self.manner.keeps() {
            (vec![in alloc; 0; self.lengths.size]?, values.to_vec(alloc)?)
        } else {
            (Vec::new(alloc), Vec::new(alloc))
        };
        Ok(Fitted {
            prices,
            values,
            sums: Sums::new(alloc, self.lengths.places)?,
        })
    }

    /// Computes the dual of a commodity with this price and these values, and returns its price; none if it stays.
    fn fit(
        &self,
        found: &mut PlaceValues,
        from: [usize; 2],
        price: u32,
        values: &[u32],
    ) -> Option<u32> {
        let [i, j] = from;
        let legs = CommodityLengths::of(&self.lengths.tables, i, j);
        let routes = &self.fitting.routes;
        let is_guess = self.manner == Manner::Guess;
        if is_guess && is_tight(routes, self.lengths, from, price, values) {
            return None;
        }
        let price = if self.manner == Manner::Whole {
            found.begin_from(&legs, price, values);
            price
        } else {
            begin_tight(routes, self.lengths, from, values, found)
        };
        for k in &self.fitting.stale {
            found.withhold(*k);
        }
        found.settle_asked(&legs, &self.fitting.asked);
        Some(price)
    }
}

impl<'a> Job<Fitted> for Origins<'a> {
    type Scratch = PlaceValues;

    ghost answer = { λ job block duals. Unit {0} };

    ghost accepts = { λ job block. Unit {0} };

    ghost serves = { λ job scratch. Unit {0} };

    fn new_scratch(&self, alloc: Global) -> Result<PlaceValues, AllocError> {
        PlaceValues::new(alloc, self.lengths.places)
    }

    fn at(
        &self,
        alloc: Global,
        scratch: &mut PlaceValues,
        block: u32,
    ) -> Result<Fitted, AllocError> {
        let lengths = self.lengths;
        let i = self.first.wrapping_add(block as usize);
        let values = row(self.state.values(), i, lengths.origin_values());
        let quotes = row(self.state.quotes(), i, lengths.size);
        let mut duals = self.begin(alloc, values)?;
        for (j, (flow, quote)) in lengths.flows(i).iter().zip(quotes).enumerate() {
            let before = row(values, j, lengths.places);
            put(&mut duals.prices, j, quote.price);
            if *flow > 0 {
                if let Some(price) = self.fit(scratch, [i, j], quote.price, before) {
                    let flow = *flow as i64;
                    put(&mut duals.prices, j, price);
                    copy(
                        scratch.values(),
                        row_mut(&mut duals.values, j, lengths.places),
                    );
                    duals.sums.add_dual(flow, price, scratch.values());
                    if self.manner == Manner::Guess {
                        duals
                            .sums
                            .add_dual(0i64.wrapping_sub(flow), quote.price, before);
                    }
                }
            }
        }
        Ok(duals)
    }
}
