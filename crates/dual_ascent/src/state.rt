//! The duals of all commodities, with their sums.

ghost use Rattle.std.specs.Prelude.{◌≡◌, ◌≤◌, length, IfOk};
ghost use Rattle.hub_spec.specs.Limits.{most_nodes};
ghost use Rattle.dual_ascent.specs.Shapes.{cells, KeepsShape};

use crate::sums::Sums;
use crate::waits::{LONG_WAIT, NO_QUOTE, NO_WAIT, Quote};
use ascent_lengths::{
    CommodityLengths, Lengths, PlaceValues, at, copy, fill, put, row, row_mut, short,
};
use search_advice::Side;
use std::alloc::{AllocError, Global};
use std::marker::Model;

/// The duals of all commodities in coarse units: a price with its back-off, and a value for each place. `sums` has the
/// sums of prices and values, weighted by the flows. Contracts see only its shape.
#[derive(Drop)]
pub struct State {
    pub(crate) size: usize,
    pub(crate) places: usize,
    pub(crate) quotes: Vec<Quote>,
    pub(crate) values: Vec<u32>,
    pub(crate) sums: Sums,
    // A buffer for the values of a commodity.
    found: PlaceValues,
}

impl Model for State {
    ghost use Rattle.std.specs.Prelude.{◌≡◌, ◌*◌, vec_len};
    ghost use Rattle.dual_ascent.specs.Shapes.{Shape};

    ghost Value = { Shape };

    ghost view = { λ s. record { size = s.size; places = s.places } };

    ghost invariant = { λ s. vec_len s.values ≡ s.size * s.size * s.places };
}

impl State {
    /// Duals for this many nodes and places, all 0.
    pub fn new(alloc: Global, size: usize, places: usize) -> Result<State, AllocError>
        requires size { size ≤ most_nodes }
        requires places { places ≤ most_nodes }
        ensures { IfOk result (λ s. s ≡ record { size = size; places = places }) }
    {
        let commodities = size * size;
        Ok(State {
            size,
            places,
            quotes: vec![in alloc; NO_QUOTE; commodities]?,
            values: vec![in alloc; 0; commodities * places]?,
            sums: Sums::new(alloc, places)?,
            found: PlaceValues::new(alloc, places)?,
        })
    }

    /// The values, commodity by commodity, one for each place.
    pub fn values(&self) -> &[u32]
        ensures { length result.now ≡ cells self.now }
    {
        &self.values
    }

    /// The prices and back-offs, commodity by commodity.
    pub fn quotes(&self) -> &[Quote] {
        &self.quotes
    }

    /// The number of places.
    pub fn places(&self) -> usize
        ensures { result ≡ self.now.places }
    {
        self.places
    }

    /// The sums of prices and values.
    pub fn sums(&self) -> &Sums {
        &self.sums
    }

    /// Sets the sums.
    pub fn take_sums(&mut self, sums: &Sums)
        ensures { KeepsShape self.old self.new }
    {
        self.sums.take(sums);
    }

    /// Sets the duals of an origin: a price and a row of values for each destination.
    pub fn put_origin(&mut self, i: usize, prices: &[u32], values: &[u32])
        ensures { KeepsShape self.old self.new }
    {
        let quotes = row_mut(&mut self.quotes, i, self.size);
        for (quote, price) in quotes.iter_mut().zip(prices) {
            quote.price = *price;
        }
        put_row(&mut self.values, i, values);
    }

    /// A copy of the duals.
    pub fn snapshot(&self, alloc: Global) -> Result<Snapshot, AllocError> {
        let some = self.values.iter().filter(|value| **value > 0).count();
        let mut values = Vec::with_capacity(alloc, some)?;
        for (index, value) in self.values.iter().enumerate() {
            if *value > 0 {
                values.push((short(index), *value))?;
            }
        }
        Ok(Snapshot {
            quotes: self.quotes.to_vec(alloc)?,
            values,
            sums: self.sums.copied(alloc)?,
        })
    }

    /// Restores the duals.
    pub fn restore(&mut self, kept: &Snapshot)
        ensures { KeepsShape self.old self.new }
    {
        copy(&kept.quotes, &mut self.quotes);
        self.sums.take(&kept.sums);
        let values = self.values.as_mut_slice();
        fill(values, 0);
        for (index, value) in &kept.values {
            put(values, *index as usize, *value);
        }
    }

    /// Clears all back-offs.
    pub fn end_waits(&mut self)
        ensures { KeepsShape self.old self.new }
    {
        for quote in self.quotes.iter_mut() {
            quote.wait = NO_WAIT;
        }
    }

    /// Ends all back-offs; the next of each commodity is about twice as long.
    pub fn break_off_waits(&mut self)
        ensures { KeepsShape self.old self.new }
    {
        for quote in self.quotes.iter_mut() {
            quote.wait.break_off();
        }
    }

    /// Clears the back-off of each commodity that could gain where a place changes sides.
    pub fn end_waits_at(&mut self, lengths: &Lengths, turned: Turned)
        ensures { KeepsShape self.old self.new }
    {
        let (places, found) = (self.places, &mut self.found);
        for (c, quote) in self.quotes.iter_mut().enumerate() {
            let values = row(&self.values, c, places);
            if turned.could_gain(lengths, found, c, quote.price, values) {
                quote.wait = NO_WAIT;
            }
        }
    }

    /// Leaves all commodities out of the next passes, except those listed that could gain where a place changes sides.
    pub fn leave_out_others(&mut self, lengths: &Lengths, listed: &[usize], turned: Turned)
        ensures { KeepsShape self.old self.new }
    {
        for quote in self.quotes.iter_mut() {
            quote.wait = LONG_WAIT;
        }
        let (places, quotes, found) = (self.places, &mut self.quotes, &mut self.found);
        for c in listed {
            let values = row(&self.values, *c, places);
            if let Some(quote) = quotes.get_mut(*c) {
                if turned.could_gain(lengths, found, *c, quote.price, values) {
                    quote.wait = NO_WAIT;
                }
            }
        }
    }

    /// Starts from these values, one for each place of each commodity in order, and from the greatest feasible prices.
    /// Past the end of the list values are 0. None is greater than the longest route.
    pub fn begin_with(&mut self, lengths: &Lengths, values: &[u32])
        ensures { KeepsShape self.old self.new }
    {
        let longest = lengths.longest();
        set_limited(&mut self.values, values, longest);
        fill(&mut self.quotes, NO_QUOTE);
        self.sums.clear();
        let (size, places) = (self.size.max(1), self.places);
        let (quotes, sums, found) = (&mut self.quotes, &mut self.sums, &mut self.found);
        for (c, quote) in quotes.iter_mut().enumerate() {
            let flow = lengths.flow(c) as i64;
            if flow > 0 {
                let values = row(&self.values, c, places);
                let legs = CommodityLengths::of(&lengths.tables, c / size, c % size);
                quote.price = found.greatest_price(&legs, values, longest);
                sums.add_dual(flow, quote.price, values);
            }
        }
    }

    /// Gives each merged commodity without flow the values of its reverse.
    pub fn mirror(&mut self, lengths: &Lengths)
        ensures { KeepsShape self.old self.new }
    {
        let (size, places) = (self.size, self.places);
        let values = self.values.as_mut_slice();
        for i in 0..size {
            for j in 0..size {
                let from = j.wrapping_mul(size).wrapping_add(i);
                let to = i.wrapping_mul(size).wrapping_add(j);
                if lengths.flow(to) == 0 && lengths.flow(from) > 0 {
                    copy_row(values, places, from, to);
                }
            }
        }
    }
}

/// The duals of a state as they were: prices with back-offs, the values above 0 with their indices, and the sums.
#[derive(Drop)]
pub struct Snapshot {
    quotes: Vec<Quote>,
    values: Vec<(u32, u32)>,
    sums: Sums,
}

/// Sets the row of this index in a table of rows of this length.
fn put_row(table: &mut [u32], index: usize, items: &[u32]) {
    copy(items, row_mut(table, index, items.len()));
}

/// Sets the items to the given ones, each at most this, and those past their end to 0.
fn set_limited(items: &mut [u32], given: &[u32], most: u32) {
    fill(items, 0);
    for (item, value) in items.iter_mut().zip(given) {
        *item = most.min(*value);
    }
}

/// Copies a row to another one.
fn copy_row(table: &mut [u32], width: usize, from: usize, to: usize) {
    let (from, to) = (from.wrapping_mul(width), to.wrapping_mul(width));
    for k in 0..width {
        let item = at(table, from.wrapping_add(k));
        put(table, to.wrapping_add(k), item);
    }
}

/// A place that changes sides.
#[derive(Clone, Copy)]
pub struct Turned {
    /// The place.
    pub place: usize,
    /// Its new side.
    pub side: Side,
}

impl Turned {
    /// Returns whether the dual of commodity `c`, with this price and these values, could gain: it has a value at the
    /// place, or the place does not become a hub and some route over it is nearly as short as the values allow.
    fn could_gain(
        self,
        lengths: &Lengths,
        found: &mut PlaceValues,
        c: usize,
        price: u32,
        values: &[u32],
    ) -> bool {
        let (has_flow, has_value) = (lengths.flow(c) > 0, at(values, self.place) > 0);
        if !has_flow || has_value || self.side == Side::In {
            return has_flow && has_value;
        }
        let limit = price.saturating_add(price / 64).saturating_add(1);
        let size = lengths.size.max(1);
        let legs = CommodityLengths::of(&lengths.tables, c / size, c % size);
        if !legs.is_near(self.place, limit) {
            return false;
        }
        found.begin_from(&legs, price, values);
        found.shortest_by(&legs, self.place) < limit
    }
}
