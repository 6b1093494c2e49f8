//! One origin of a pass: its commodities take their steps one after another.

use crate::passes::Pass;
use crate::steps::{Steps, mixed};
use crate::waits::{Gain, NO_GAIN, Quote};
use ascent_lengths::{CommodityLengths, at, copy, gather, row, row_mut};
use dual_flow::{
    BestDual, FULL_PRICE, NO_TURN, Priced, Ramp, Turn, balanced, is_enough, set_order, set_prices,
};
use std::alloc::{AllocError, Global};

/// What a pass reads of a node: a ramp for each place that it sees, an upper bound on each commodity's price, and
/// `little`, the promised gain in parts of full up to which a commodity is left out next.
#[derive(Clone, Copy)]
pub struct OriginTerms<'a> {
    /// The ramp of each place.
    pub ramps: &'a [Ramp],
    /// The upper bound on the price of each commodity.
    pub caps: &'a [u32],
    /// The gain up to which a commodity is left out; none where all take part.
    pub little: Option<i128>,
    /// The number p of hubs, if exactly p are required.
    pub hubs: Option<usize>,
    /// The last cost of each hub beside its fixed cost.
    pub extra: i64,
    /// Penalties up to this one count as 0.
    pub coarse: i64,
}

impl OriginTerms<'_> {
    /// The cost of each hub beside its fixed cost at these loads, at which the penalties add up to p hubs. Where any
    /// number will do, they add up to one hub at least, and the cost is not above 0.
    pub fn extra_at(&self, loads: &[i64]) -> i64 {
        match self.hubs {
            Some(hubs) => balanced(self.ramps, loads, hubs, self.extra),
            None if is_enough(self.ramps, loads, FULL_PRICE, 0) => 0,
            None => balanced(self.ramps, loads, 1, self.extra),
        }
    }
}

/// The workspace of an origin: the loads and penalties, the order of the places, split by whether their penalties count,
/// and the old values of a commodity. `changes` has the loads that it starts from, at its end the changes of the loads.
#[derive(Drop)]
pub(crate) struct Stand {
    best: BestDual,
    steps: Steps,
    order: Vec<Turn>,
    priced: Vec<usize>,
    others: Vec<usize>,
    is_split: bool,
    old: Vec<u32>,
    pub(crate) changes: Vec<i64>,
}

impl Stand {
    /// A workspace over this many places.
    pub(crate) fn new(alloc: Global, places: usize) -> Result<Stand, AllocError> {
        Ok(Stand {
            best: BestDual::new(alloc, places)?,
            steps: Steps::new(alloc, places)?,
            order: vec![in alloc; NO_TURN; places]?,
            priced: Vec::with_capacity(alloc, places)?,
            others: Vec::with_capacity(alloc, places)?,
            is_split: false,
            old: vec![in alloc; 0; places]?,
            changes: vec![in alloc; 0; places]?,
        })
    }

    /// Improves the duals of the origin, with these prices and values, from these loads. Returns the gain.
    pub(crate) fn better(
        &mut self,
        pass: Pass<'_>,
        loads: &[i64],
        i: usize,
        quotes: &mut [Quote],
        values: &mut [u32],
    ) -> Gain {
        self.begin(pass.terms, loads);
        let mut gain = NO_GAIN;
        for (j, (quote, flow)) in quotes.iter_mut().zip(pass.lengths.flows(i)).enumerate() {
            if *flow > 0 && !quote.wait.leaves_out() {
                let values = row_mut(values, j, pass.lengths.places);
                gain.add(self.better_one(pass, [i, j], quote, values));
            }
        }
        let copies = (pass.window.copies as i64).max(1);
        for (change, load) in self.changes.iter_mut().zip(&self.steps.loads) {
            *change = load.wrapping_sub(*change).div_euclid(copies);
        }
        gain
    }

    /// Starts from these loads.
    fn begin(&mut self, terms: OriginTerms<'_>, loads: &[i64]) {
        let extra = terms.extra_at(loads);
        for (start, load) in self.changes.iter_mut().zip(loads) {
            *start = load.wrapping_sub(extra);
        }
        copy(&self.changes, &mut self.steps.loads);
        set_order(terms.ramps, &self.changes, 0, &mut self.order);
        set_prices(terms.ramps, &self.changes, 0, &mut self.steps.prices);
        self.is_split = false;
    }

    /// Splits the places by whether their penalties count, each part in order.
    fn split(&mut self, coarse: i64) {
        self.priced.clear();
        self.others.clear();
        // They succeed, since there is room for all places.
        for (k, price) in self.steps.prices.iter().enumerate() {
            if *price > coarse {
                let _ = self.priced.push(k);
            }
        }
        for turn in &self.order {
            if at(&self.steps.prices, turn.place) <= coarse {
                let _ = self.others.push(turn.place);
            }
        }
        self.is_split = true;
    }

    /// Makes the step of a commodity with this price and back-off, and returns its gain. Where the step promises
    /// little, the dual stays as it is.
    fn better_one(
        &mut self,
        pass: Pass<'_>,
        from: [usize; 2],
        quote: &mut Quote,
        values: &mut [u32],
    ) -> Gain {
        let (terms, lengths, [i, j]) = (pass.terms, pass.lengths, from);
        let legs = CommodityLengths::of(&pass.core.tables, i, j);
        let flow = at(lengths.flows(i), j) as i64;
        if !self.is_split {
            self.split(terms.coarse);
        }
        let priced = Priced {
            prices: &self.steps.prices,
            places: &self.priced,
        };
        let before = quote.price;
        let cap = at(row(terms.caps, i, lengths.size), j);
        let found = self.best.find(&legs, priced, cap, before);
        gather(values, &pass.core.places, &mut self.old);
        let is_fine = terms.coarse == 0;
        if !is_fine {
            self.best.complete(&legs, &self.others);
        }
        let change = found as i64 - before as i64;
        let promised = self.promised(change).max(0);
        let weighed = (promised as i128).wrapping_mul(flow as i128);
        let is_little = terms.little.is_some_and(|little| weighed <= little);
        quote.wait.follow(is_little);
        if promised > 0 && !is_little {
            if is_fine {
                self.best.complete(&legs, &self.others);
            }
            let parts = self.step(pass, flow, change, values);
            quote.price = mixed(before, found, parts);
        }
        Gain {
            prices: flow.wrapping_mul(quote.price as i64 - before as i64),
            promised: weighed,
            turns: 1,
        }
    }

    /// The gain that a whole step promises to first order, where the commodity's own price changes by `change`.
    fn promised(&self, change: i64) -> i64 {
        let (prices, old) = (self.steps.prices.as_slice(), self.old.as_slice());
        let new = self.best.values();
        let count = prices.len().min(old.len()).min(new.len());
        let mut cost = 0i64;
        for place in 0..count {
            let step = new[place] as i64 - old[place] as i64;
            cost = cost.wrapping_add(prices[place].wrapping_mul(step));
        }
        change.wrapping_mul(FULL_PRICE).wrapping_sub(cost)
    }

    /// Makes a step towards the new values, where the commodity's own price changes by `change` in a whole step.
    /// Returns the parts of the step that were made.
    fn step(&mut self, pass: Pass<'_>, flow: i64, change: i64, values: &mut [u32]) -> u32 {
        let weight = flow.wrapping_mul(pass.window.copies as i64);
        let (terms, new) = (pass.terms, self.best.values());
        self.steps.list(&self.old, new, terms.ramps, weight);
        let parts = self.steps.parts(change);
        if self
            .steps
            .take(parts, &pass.core.places, values, terms.coarse)
        {
            self.is_split = false;
        }
        parts
    }
}
