//! The price of a commodity, lowered to what its values permit on allowed routes.
//!
//! A route through two candidates has a first end, a trunk leg and a last end. An end is a leg plus the value of its
//! candidate. A price is found over the first ends, each with the least sum of trunk leg and last end. First ends that
//! cannot lower the price are skipped. With a length limit, `allowed` goes over the allowed routes alone.

ghost use Rattle.std.specs.Prelude.{◌≡◌, ℕ, ◌+◌, ◌*◌, ◌<◌, ◌≤◌, min, None, length, slice_index, All, IfOk};
ghost use Rattle.hub_spec.specs.Problem.{IsProblem};
ghost use Rattle.unit_duals.specs.Limits.{most_leg, most_length};
ghost use Rattle.unit_duals.specs.Leasts.{least_of};
ghost use Rattle.unit_duals.specs.Lengths.{IsLegRow};
ghost use Rattle.hub_model.specs.CandidateLengths.{length_ceiling};
ghost use Rattle.leg_duals.specs.CandidateLegs.{collection_length, delivery_length};
ghost use Rattle.cut_model.specs.ValueRows.{node_value, allowed_price, AreValuesFor};
ghost use Rattle.value_cuts.specs.Ends.{most_end, AreEnds};
ghost use Rattle.value_cuts.specs.Prices.{AreRowPrices, ArePricesFrom};

use crate::allowed::least_allowed_length;
use crate::{CandidateLegs, Values};
use std::alloc::{AllocError, Global};
use std::marker::Model;

/// A row of values: those of all candidates, in a unit.
#[derive(Clone, Copy)]
pub struct ListedRow<'a> {
    /// What a listed 1 is, per unit of flow, in 10^-6.
    pub unit: u32,
    /// The values of the candidates, in the unit.
    pub row: &'a [u32],
}

/// A workspace for prices: the first and last ends of routes. A worker has its own.
#[derive(Drop)]
pub struct PriceScratch {
    first: Vec<u64>,
    last: Vec<u64>,
}

impl Model for PriceScratch {
    ghost use Rattle.std.specs.Prelude.{◌≡◌, ℕ, vec_len};

    ghost Value = { ℕ };

    ghost view = { λ s. vec_len s.first };

    ghost invariant = { λ s. vec_len s.last ≡ vec_len s.first };
}

impl PriceScratch {
    /// A workspace for the instance of these tables.
    pub fn new(alloc: Global, tables: &CandidateLegs) -> Result<PriceScratch, AllocError>
        ensures { IfOk result (λ s. s ≡ length tables.now.candidates) }
    {
        let places = tables.places();
        Ok(PriceScratch {
            first: vec![in alloc; 0; places]?,
            last: vec![in alloc; 0; places]?,
        })
    }
}

/// The greatest feasible price of the commodity from `i` to `j` for the values of the row, up to the ceiling, per unit
/// of flow, in 10^-6. It is the least of the ceiling and of the lengths of all allowed routes with the values of their
/// hubs.
///
/// The row has a value for each candidate, in the unit. It allocates nothing.
pub fn price(
    tables: &CandidateLegs,
    i: u32,
    j: u32,
    unit: u32,
    row: &[u32],
    scratch: &mut PriceScratch,
) -> u64
    requires origin { i < tables.now.size }
    requires destination { j < tables.now.size }
    requires row { length row.now ≡ length tables.now.candidates }
    requires room { scratch.old ≡ length tables.now.candidates }
    ensures price { result ≡ allowed_price tables.now (i, j) (node_value tables.now unit row.now) }
    ensures room { scratch.new ≡ scratch.old }
{
    let row = ListedRow { unit, row };
    price_in(tables, i, j, &row, &mut scratch.first, &mut scratch.last)
}

/// Sets the prices of all commodities, row by row, one row for each origin. It allocates nothing.
pub fn set_prices(
    tables: &CandidateLegs,
    values: &Values,
    scratch: &mut PriceScratch,
    prices: &mut [u64],
)
    requires values { AreValuesFor tables.now values.now }
    requires room { scratch.old ≡ length tables.now.candidates }
    requires long { length prices.old ≡ tables.now.size * tables.now.size }
    ensures prices { AreRowPrices tables.now values.now prices.new }
    ensures room { scratch.new ≡ scratch.old }
{
    let size = tables.instance().size();
    for i in 0..size {
        let start = i as usize * size as usize;
        let row = &mut prices[start..start + size as usize];
        set_origin_prices(tables, values, i, scratch, row);
    }
}

/// Sets the prices of all commodities from `i`, one for each destination. It allocates nothing.
pub fn set_origin_prices(
    tables: &CandidateLegs,
    values: &Values,
    i: u32,
    scratch: &mut PriceScratch,
    prices: &mut [u64],
)
    requires values { AreValuesFor tables.now values.now }
    requires origin { i < tables.now.size }
    requires room { scratch.old ≡ length tables.now.candidates }
    requires long { length prices.old ≡ tables.now.size }
    ensures prices { ArePricesFrom tables.now values.now i prices.new tables.now.size }
    ensures long { length prices.new ≡ tables.now.size }
    ensures room { scratch.new ≡ scratch.old }
{
    let unit = values.unit();
    for j in 0..tables.instance().size() {
        prices[j as usize] = price(tables, i, j, unit, values.row(i, j), scratch);
    }
}

/// The price, found in these two slices.
fn price_in(
    tables: &CandidateLegs,
    i: u32,
    j: u32,
    row: &ListedRow<'_>,
    first: &mut [u64],
    last: &mut [u64],
) -> u64
    requires origin { i < tables.now.size }
    requires destination { j < tables.now.size }
    requires row { length row.now.row.now ≡ length tables.now.candidates }
    requires first { length first.old ≡ length tables.now.candidates }
    requires last { length last.old ≡ length tables.now.candidates }
    ensures { result ≡ allowed_price tables.now (i, j) (node_value tables.now row.now.unit row.now.row.now) }
{
    let ListedRow { unit, row } = *row;
    let delivery = tables.delivery_legs(j);
    set_ends(tables, tables.collection_legs(i), unit, row, first);
    set_ends(tables, delivery, unit, row, last);
    match tables.instance().length_limit() {
        Some(_) => least_allowed_length(tables, i, j, delivery, first, last),
        None => least_length(tables, i, j, delivery, first, last),
    }
}

/// Sets each end: the leg of the place with the value of its candidate.
fn set_ends(tables: &CandidateLegs, legs: &[u64], unit: u32, row: &[u32], ends: &mut [u64])
    requires row { length row.now ≡ length tables.now.candidates }
    requires legs { length legs.now ≡ length tables.now.candidates }
    requires limit { All (λ d. d ≤ most_leg) legs.now }
    requires ends { length ends.old ≡ length tables.now.candidates }
    ensures { AreEnds tables.now (slice_index legs.now) (node_value tables.now unit row.now) ends.new }
{
    let ceiling = tables.ceiling();
    for x in 0..legs.len() {
        ends[x] = legs[x] + value_of(ceiling, unit, row[x]);
    }
}

/// The value by unit of flow that is listed so in this unit.
pub(crate) fn value_of(ceiling: u64, unit: u32, listed: u32) -> u64
    ensures { result ≡ min ceiling (unit * listed) }
{
    ceiling.min(unit as u64 * listed as u64)
}

/// The least of the ceiling and of the valued lengths of the commodity from `i` to `j`, with these ends, where the length
/// of routes is not limited.
fn least_length(
    tables: &CandidateLegs,
    i: u32,
    j: u32,
    delivery: &[u64],
    first: &[u64],
    last: &[u64],
) -> u64
    requires unlimited { tables.now.longest ≡ None }
    requires delivery { IsLegRow (length tables.now.candidates) (delivery_length tables.now j) delivery.now }
    requires first { length first.now ≡ length tables.now.candidates }
    requires last { length last.now ≡ length tables.now.candidates }
    requires first_limit { All (λ d. d ≤ most_end) first.now }
    requires last_limit { All (λ d. d ≤ most_end) last.now }
    ensures { (values : ℕ → ℕ) → AreEnds tables.now (collection_length tables.now i) values first.now
        → AreEnds tables.now (delivery_length tables.now j) values last.now
        → result ≡ allowed_price tables.now (i, j) values }
{
    let nearest = least_end(tables.ceiling(), last);
    let mut least = least_sum(tables.ceiling(), first, delivery);
    for x in 0..first.len() {
        let end = first[x];
        if end + nearest < least {
            least = end + least_sum(least - end, tables.trunk_legs(x), last);
        }
    }
    least
}

/// The least of the number and of all ends.
pub(crate) fn least_end(most: u64, ends: &[u64]) -> u64
    ensures { result ≡ least_of most (slice_index ends.now) (length ends.now) }
{
    let mut least = most;
    for x in 0..ends.len() {
        least = least.min(ends[x]);
    }
    least
}

/// The least of the number and of the sums of a leg and an end at one place.
fn least_sum(most: u64, legs: &[u64], ends: &[u64]) -> u64
    requires long { length ends.now ≡ length legs.now }
    requires legs { All (λ d. d ≤ most_end) legs.now }
    requires ends { All (λ d. d ≤ most_end) ends.now }
    ensures { result ≡ least_of most (λ x. slice_index legs.now x + slice_index ends.now x) (length legs.now) }
{
    let mut least = most;
    for x in 0..legs.len() {
        least = least.min(legs[x] + ends[x]);
    }
    least
}
