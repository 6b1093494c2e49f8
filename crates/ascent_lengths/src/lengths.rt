//! The instance: its tables over all places, its flows and its fixed costs.

ghost use Rattle.std.specs.Prelude.{◌≤◌};

use crate::commodity::CommodityLengths;
use crate::rows::{FAR, at, put, row, row_mut};
use crate::tables::{Distances, LegTables, LengthTables};
use crate::units::{Units, distance_unit};
use hub_model::Instance;
use std::alloc::{AllocError, Global};

/// The legs per unit of flow, flows and fixed costs of an instance. Places are the indices of its candidates.
///
/// Where all lengths are symmetric, a commodity and its reverse are merged: one of the two has the flow of both, the
/// other has none.
#[derive(Drop)]
pub struct Lengths {
    /// The number of nodes.
    pub size: usize,
    /// The number of candidates.
    pub places: usize,
    /// The tables over all places.
    pub tables: LengthTables,
    /// The number p of hubs, if exactly p are required.
    pub wanted: Option<usize>,
    /// Whether a commodity and its reverse are merged.
    pub are_merged: bool,
    /// The number of commodities with flow.
    pub flowing: usize,
    /// What the fixed cost of each place is above `least_fixed`, in the cost of one unit of flow along one unit of length.
    pub fixed: Vec<i64>,
    /// The least fixed cost if exactly p hubs are required, else 0; in 10^-12.
    pub least_fixed: i128,
    /// The surcharge of a hub set for each commodity that it is infeasible for, in 10^-12: more than any feasible set
    /// costs.
    pub lack_cost: i128,
    /// The fixed cost of each place, in 10^-12.
    pub fixed_costs: Vec<i128>,
    units: Units,
    flows: Vec<u32>,
}

impl Lengths {
    /// The instance in coarse units.
    pub fn new(alloc: Global, instance: &Instance) -> Result<Lengths, AllocError> {
        let size = instance.size() as usize;
        let places = instance.candidates().len();
        let factors = [instance.collect(), instance.trunk(), instance.deliver()];
        let units = Units::of(instance, factors);
        let legs = legs_of(alloc, instance, units.length, factors)?;
        let distances = distances_of(alloc, instance)?;
        let mut flows = flows_in(alloc, instance, units.flow)?;
        let are_even = legs.are_even()
            && distances.as_ref().is_none_or(|some| some.legs.are_even());
        let mut lengths = Lengths {
            size,
            places,
            tables: LengthTables::of(alloc, [size, places], legs, distances)?,
            wanted: instance.wanted().map(|wanted| wanted as usize),
            are_merged: are_even && merge(&mut flows, size),
            flowing: flows.iter().filter(|flow| **flow > 0).count(),
            fixed: Vec::with_capacity(alloc, places)?,
            least_fixed: 0,
            fixed_costs: Vec::with_capacity(alloc, places)?,
            lack_cost: 0,
            units,
            flows,
        };
        lengths.set_costs(instance)?;
        lengths.set_safe(alloc)?;
        Ok(lengths)
    }

    /// Sets the fixed costs, the least of them, what they are above it per unit of flow and length (rounded down, and at
    /// most what sums of 64 bits hold), and the surcharge: a little more than all commodities over the longest routes and
    /// all fixed costs together.
    fn set_costs(&mut self, instance: &Instance) -> Result<(), AllocError> {
        let worth = self.worth();
        let mut flow = 1i128;
        for some in &self.flows {
            flow = flow.wrapping_add(*some as i128);
        }
        let routes = flow
            .wrapping_mul(self.longest() as i128)
            .wrapping_mul(worth);
        self.lack_cost = routes.wrapping_add(1);
        let mut least = i128::MAX;
        for k in instance.candidates() {
            let cost = at(instance.fixed_costs(), *k as usize).min(1 << 120) as i128;
            least = least.min(cost);
            self.fixed_costs.push(cost)?;
            self.lack_cost = self.lack_cost.wrapping_add(cost);
        }
        if self.wanted.is_some() {
            self.least_fixed = least;
        }
        for cost in &self.fixed_costs {
            let above = cost.wrapping_sub(self.least_fixed);
            let fixed = above.checked_div(worth).unwrap_or(0);
            self.fixed.push(fixed.clamp(0, 1 << 58) as i64)?;
        }
        Ok(())
    }

    /// With `--max-length`, sets the lengths below which all routes of a commodity are allowed.
    fn set_safe(&mut self, alloc: Global) -> Result<(), AllocError> {
        if !self.tables.has_limit() {
            return Ok(());
        }
        let mut safe = Vec::with_capacity(alloc, self.commodities())?;
        for i in 0..self.size {
            for j in 0..self.size {
                safe.push(CommodityLengths::of(&self.tables, i, j).shortest_barred())?;
            }
        }
        if let Some(distances) = &mut self.tables.distances {
            distances.safe_below = safe;
        }
        Ok(())
    }

    /// The number of commodities.
    pub fn commodities(&self) -> usize {
        self.size.wrapping_mul(self.size)
    }

    /// The number of values that the commodities of an origin have.
    pub fn origin_values(&self) -> usize {
        self.size.wrapping_mul(self.places)
    }

    /// The unit of lengths, in 10^-6. It is at least 1.
    pub fn unit(&self) -> u64
        ensures { 1 ≤ result }
    {
        self.units.length.max(1)
    }

    /// The cost of one unit of flow along one unit of length, in 10^-12.
    pub fn worth(&self) -> i128 {
        (self.units.length as i128).wrapping_mul(self.units.flow as i128)
    }

    /// An upper bound on the length of a route. Exact prices and values are lowered to it.
    pub fn longest(&self) -> u32 {
        self.units.longest
    }

    /// How much longer than here the legs of a route are together, at most; 0 where the unit divides all lengths.
    pub fn slack(&self) -> u32 {
        self.units.slack
    }

    /// The flows from the origin to each node.
    pub fn flows(&self, i: usize) -> &[u32] {
        row(&self.flows, i, self.size)
    }

    /// The flow of the commodity of this index.
    pub fn flow(&self, commodity: usize) -> u32 {
        at(&self.flows, commodity)
    }

    /// The fixed costs of the marked places together, in 10^-12.
    pub fn fixed_cost_of(&self, marks: &[bool]) -> i128 {
        let mut cost = 0i128;
        for (fixed, mark) in self.fixed_costs.iter().zip(marks) {
            if *mark {
                cost = cost.wrapping_add(*fixed);
            }
        }
        cost
    }
}

/// The distance between two nodes times the factor, in this unit.
fn leg(instance: &Instance, unit: u64, factor: u64, nodes: [usize; 2]) -> u32 {
    let row = row(instance.distances(), nodes[0], instance.size() as usize);
    let leg = factor.wrapping_mul(at(row, nodes[1])) / unit.max(1);
    leg.min(FAR as u64) as u32
}

/// The legs of the instance in this unit, at these factors of collection, trunk legs and delivery.
fn legs_of(
    alloc: Global,
    instance: &Instance,
    unit: u64,
    factors: [u64; 3],
) -> Result<LegTables, AllocError> {
    let [collect, trunk, deliver] = factors;
    let size = instance.size() as usize;
    let candidates = instance.candidates();
    let mut legs = LegTables::new(alloc, size, candidates.len())?;
    for (x, k) in candidates.iter().enumerate() {
        let k = *k as usize;
        for i in 0..size {
            let to_place = leg(instance, unit, collect, [i, k]);
            let from_place = leg(instance, unit, deliver, [k, i]);
            put(legs.collect.row_mut(i), x, to_place);
            put(legs.deliver.row_mut(i), x, from_place);
        }
        for (onward, m) in legs.trunk.row_mut(x).iter_mut().zip(candidates) {
            *onward = leg(instance, unit, trunk, [k, *m as usize]);
        }
    }
    legs.turn(candidates.len());
    Ok(legs)
}

/// The distances of the instance and its limit, if it has one.
fn distances_of(alloc: Global, instance: &Instance) -> Result<Option<Distances>, AllocError> {
    let Some(limit) = instance.length_limit() else {
        return Ok(None);
    };
    let unit = distance_unit(instance);
    Ok(Some(Distances {
        legs: legs_of(alloc, instance, unit, [1, 1, 1])?,
        limit: (limit / unit.max(1)).min(FAR as u64 - 1) as u32,
        safe_below: Vec::new(alloc),
    }))
}

/// Merges each commodity with its reverse, and returns whether the flows of both fit 32 bits together; if not, nothing
/// is changed. So that origins get about equally many, the flow goes to the one from the lesser node where the sum of
/// the two nodes is even.
fn merge(flows: &mut [u32], size: usize) -> bool {
    for is_trial in [true, false] {
        for i in 0..size {
            for j in 0..i {
                let back = at(row(flows, j, size), i);
                let Some(both) = at(row(flows, i, size), j).checked_add(back) else {
                    return false;
                };
                let is_even = i.wrapping_add(j) % 2 == 0;
                let (from, to) = if is_even { (j, i) } else { (i, j) };
                if !is_trial {
                    put(row_mut(flows, from, size), to, both);
                    put(row_mut(flows, to, size), from, 0);
                }
            }
        }
    }
    true
}

/// The flows in this unit, rounded; one above 0 stays above 0.
fn flows_in(alloc: Global, instance: &Instance, unit: u64) -> Result<Vec<u32>, AllocError> {
    let mut flows = Vec::with_capacity(alloc, instance.flows().len())?;
    for flow in instance.flows() {
        let rounded = (flow.wrapping_add(unit / 2) / unit.max(1)).max((*flow).min(1));
        flows.push(rounded.min(u32::MAX as u64) as u32)?;
    }
    Ok(flows)
}
