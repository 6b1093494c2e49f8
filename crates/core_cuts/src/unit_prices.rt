//! Price and values per unit of flow, read off an optimal tableau.

ghost use Rattle.std.specs.Prelude.{◌≡◌, ◌↔◌, ◌+◌, ◌*◌, ◌<◌, ◌≤◌, [], length, map, zip, sum_by, All, IfOk, IsTrue, vec_capacity};
ghost use Rattle.hub_spec.specs.Cuts.{value_at};
ghost use Rattle.hub_spec.specs.Limits.{most_flow};
ghost use Rattle.hub_spec.specs.Separation.{values_listed};
ghost use Rattle.hub_model.specs.Prices.{signed_values};
ghost use Rattle.core_cuts.specs.Readings.{most_units, dual_of};
ghost use Rattle.core_cuts.specs.BasicRatios.{whole_at, reading_at, IsWithinUnits};

use crate::least_parts::times_part;
use crate::ratios::Ratio;
use hub_model::{Dual, Instance, list_value, signed};
use std::alloc::{AllocError, Global};
use std::marker::Model;

/// The most that a price or a value may be by unit of flow.
pub(crate) const MOST_UNITS: u128 = 100_000_000_000_000_000_000;

/// A price, and a value for each candidate in their order, by unit of flow and times the part.
#[derive(Drop)]
pub(crate) struct UnitPrices {
    part: u32,
    price: u128,
    values: Vec<u128>,
}

impl Model for UnitPrices {
    ghost use Rattle.core_cuts.specs.Readings.{Reading};

    ghost Value = { Reading };

    ghost view = { λ s. record { part = s.part; price = s.price; values = s.values.items } };
}

impl UnitPrices {
    /// The first ratio is the price, and the others are the values.
    pub(crate) fn of(alloc: Global, ratios: &[Ratio], part: u32) -> Result<UnitPrices, AllocError>
        requires some { 1 ≤ length ratios.now }
        requires over { All (λ r. 1 ≤ r.over) ratios.now }
        ensures { IfOk result (λ unit. unit ≡ reading_at part ratios.now) }
    {
        let price = times_part(ratios[0], part);
        let values = values_of(alloc, &ratios[1..], part)?;
        Ok(UnitPrices {
            part,
            price,
            values,
        })
    }

    /// The part.
    pub(crate) fn part(&self) -> u32
        ensures { result ≡ self.now.part }
    {
        self.part
    }

    /// Tells whether price and values are within their limit.
    pub(crate) fn is_within(&self) -> bool
        ensures { IsTrue result ↔ IsWithinUnits self.now }
    {
        self.price <= MOST_UNITS && are_units(&self.values)
    }

    /// Tells whether the price is this least cost, times the part, and the values of the hubs.
    pub(crate) fn is_tight(&self, candidates: &[u32], hubs: &[u32], least: u64) -> bool
        requires one_each { length self.now.values ≡ length candidates.now }
        requires values { All (λ v. v ≤ most_units) self.now.values }
        requires few { length hubs.now ≤ 200 }
        ensures { IsTrue result
            ↔ (self.now.price ≡ self.now.part * least + sum_by (value_at (zip candidates.now self.now.values)) hubs.now) }
    {
        let on_hubs = sum_at(candidates, &self.values, hubs);
        self.price == self.part as u128 * least as u128 + on_hubs
    }

    /// Price and values times the flow of the commodity from `i` to `j`.
    pub(crate) fn times_flow(
        &self,
        alloc: Global,
        instance: &Instance,
        i: u32,
        j: u32,
    ) -> Result<Dual, AllocError>
        requires from { i < instance.now.size }
        requires to { j < instance.now.size }
        requires one_each { length self.now.values ≡ length instance.now.candidates }
        requires within { IsWithinUnits self.now }
        ensures { IfOk result (λ d. d ≡ dual_of instance.now (i, j) self.now) }
    {
        let candidates = instance.candidates();
        let carried = instance.flow_between(i, j);
        let mut u = Vec::with_capacity(alloc, candidates.len())?;
        list_times(candidates, &self.values, carried, &mut u);
        Ok(Dual::new(signed(carried as u128 * self.price), u))
    }
}

/// What the ratios are, times the part.
fn values_of(alloc: Global, ratios: &[Ratio], part: u32) -> Result<Vec<u128>, AllocError>
    requires { All (λ r. 1 ≤ r.over) ratios.now }
    ensures { IfOk result (λ values. values.items ≡ map (whole_at part) ratios.now) }
{
    let mut values = Vec::new(alloc);
    for ratio in ratios {
        values.push(times_part(*ratio, part))?;
    }
    Ok(values)
}

/// Tells whether all values are within their limit.
fn are_units(values: &[u128]) -> bool
    ensures { IsTrue result ↔ All (λ v. v ≤ most_units) values.now }
{
    values.iter().all(|v| *v <= MOST_UNITS)
}

/// The sum of the values of these nodes.
fn sum_at(candidates: &[u32], values: &[u128], nodes: &[u32]) -> u128
    requires one_each { length values.now ≡ length candidates.now }
    requires values { All (λ v. v ≤ most_units) values.now }
    requires few { length nodes.now ≤ 200 }
    ensures value { result ≡ sum_by (value_at (zip candidates.now values.now)) nodes.now }
    ensures limit { result ≤ 200 * most_units }
{
    let mut sum = 0;
    for k in nodes {
        sum += value_of(candidates, values, *k);
    }
    sum
}

/// The value of the node, where these candidates have these values; 0 if it is none of them.
fn value_of(candidates: &[u32], values: &[u128], node: u32) -> u128
    requires { length values.now ≡ length candidates.now }
    ensures { result ≡ value_at (zip candidates.now values.now) node }
{
    for x in 0..candidates.len() {
        if candidates[x] == node {
            return values[x];
        }
    }
    0
}

/// Lists the candidates whose value times the flow is above 0.
fn list_times(candidates: &[u32], values: &[u128], carried: u64, list: &mut Vec<(u32, i128)>)
    requires one_each { length values.now ≡ length candidates.now }
    requires values { All (λ v. v ≤ most_units) values.now }
    requires carried { carried ≤ most_flow }
    requires empty { list.old.items ≡ [] }
    requires room { length candidates.now ≤ vec_capacity list.old }
    ensures { list.new.items
        ≡ signed_values (values_listed (λ k. carried * value_at (zip candidates.now values.now) k) candidates.now) }
{
    for k in candidates {
        let value = carried as u128 * value_of(candidates, values, *k);
        list_value(*k, value, list);
    }
}
