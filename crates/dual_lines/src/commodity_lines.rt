//! The dual of one commodity, listed value by value and then tested, also for other commodities of its origin.

ghost use Rattle.std.specs.Prelude.{◌≡◌, ◌<◌, ◌≤◌, ◌↔◌, [], ◌∷◌, ◌++◌, IsTrue, IfOk, All};
ghost use Rattle.hub_spec.specs.Limits.{most_part};
ghost use Rattle.hub_spec.specs.Cuts.{IsDual};
ghost use Rattle.hub_spec.specs.Ranges.{IsAmount, IsDualInRange};
ghost use Rattle.dual_lines.specs.Units.{weighted_flow};

use crate::amounts::PricedCommodity;
use crate::places::{clear, put_anew, put_unit, set_places};
use crate::units::{inverse_of, is_covered, unit_value};
use hub_model::Instance;
use leg_duals::CandidateLegs;
use std::alloc::{AllocError, Global};
use std::marker::Model;

/// A commodity of an instance with a dual of some part that is listed for it: its price and its values, in 10^-12.
///
/// One after another may stand here. What the last one listed is taken back in time of its values alone.
#[derive(Drop)]
pub(crate) struct CommodityLine<'a> {
    legs: CandidateLegs<'a>,
    places: Vec<u32>,
    line: PricedCommodity,
    carried: u64,
    inverse: u64,
    listed: Vec<(u32, u128)>,
    are_candidates: bool,
    amounts: Vec<u128>,
    units: Vec<u64>,
}

impl<'a> Model for CommodityLine<'a> {
    ghost use Rattle.dual_lines.specs.Lines.{CommodityDual};
    ghost use Rattle.dual_lines.specs.LineParts.{held_dual, IsLineHeld};

    ghost Value = { CommodityDual };

    ghost view = { λ s. record {
      problem = s.legs;
      commodity = (s.line.from, s.line.to);
      part = s.line.part;
      dual = held_dual s;
    } };

    ghost invariant = { IsLineHeld };
}

impl<'a> CommodityLine<'a> {
    /// The first commodity of the instance, with the part 1, the price 0 and no values. The only call that takes
    /// memory.
    pub(crate) fn new(
        alloc: Global,
        instance: &'a Instance,
    ) -> Result<CommodityLine<'a>, AllocError>
        ensures { IfOk result (λ d. d
            ≡ record { problem = instance.now; commodity = (0, 0); part = 1; dual = record { a = 0; u = [] } }) }
    {
        let legs = CandidateLegs::new(alloc, instance)?;
        let nodes = instance.size() as usize;
        let count = legs.places();
        let mut places = vec![in alloc; count as u32; nodes]?;
        set_places(instance, &mut places);
        let carried = instance.flow_between(0, 0);
        Ok(CommodityLine {
            legs,
            places,
            line: PricedCommodity {
                from: 0,
                to: 0,
                part: 1,
                price: 0,
            },
            carried,
            inverse: 0,
            listed: Vec::with_capacity(alloc, nodes)?,
            are_candidates: true,
            amounts: vec![in alloc; 0; nodes]?,
            units: vec![in alloc; 0; count]?,
        })
    }

    /// Begins the dual of the commodity from `i` to `j` of this part, with this price, as yet without values.
    pub(crate) fn begin(&mut self, i: u32, j: u32, part: u32, a: u128)
        requires from { i < self.old.problem.size }
        requires to { j < self.old.problem.size }
        requires part { part ≤ most_part }
        requires most { IsAmount a }
        ensures { self.new ≡ record self.old { commodity = (i, j); part = part; dual = record { a = a; u = [] } } }
    {
        clear(
            &self.listed,
            &self.places,
            &mut self.amounts,
            &mut self.units,
        );
        self.listed.clear();
        self.line = PricedCommodity {
            from: i,
            to: j,
            part,
            price: a,
        };
        self.carried = carried(&self.legs, i, j, part);
        self.inverse = inverse_of(self.carried);
        self.are_candidates = true;
    }

    /// Turns to another commodity of the origin, with the same dual: what depends on the flow is computed again, in time of
    /// what is listed. Nothing is done where it is the commodity already.
    pub(crate) fn turn_to(&mut self, j: u32)
        requires { j < self.old.problem.size }
        ensures { self.new ≡ record self.old { commodity = (self.old.commodity.0, j) } }
    {
        if j == self.line.to {
            return;
        }
        self.line.to = j;
        self.carried = carried(&self.legs, self.line.from, j, self.line.part);
        self.inverse = inverse_of(self.carried);
        put_anew(
            &self.listed,
            &self.places,
            self.carried,
            self.inverse,
            &mut self.units,
        );
    }

    /// Lists the value of a node after those of lower nodes.
    pub(crate) fn list(&mut self, k: u32, u: u128)
        requires node { k < self.old.problem.size }
        requires above { All (λ e. e.0 < k) self.old.dual.u }
        requires least { 1 ≤ u }
        requires most { IsAmount u }
        ensures { self.new ≡ record self.old {
          dual = record { a = self.old.dual.a; u = self.old.dual.u ++ (k, u) ∷ [] };
        } }
    {
        let value = unit_value(u, self.carried, self.inverse);
        self.listed.push_reserved((k, u));
        self.amounts[k as usize] = u;
        let placed = put_unit(&self.places, k, value, &mut self.units);
        self.are_candidates = self.are_candidates && placed;
    }

    /// Tells whether it is a feasible dual of the commodity: with the values of its hubs added, no route that is allowed
    /// by way of candidates costs, times the part, less than the price, and only candidates are listed.
    pub(crate) fn holds(&self) -> bool
        ensures { IsTrue result ↔ IsDual self.now.problem self.now.part self.now.commodity self.now.dual }
    {
        self.are_candidates
            && is_covered(
                &self.legs,
                self.line,
                self.carried,
                &self.amounts,
                &self.units,
            )
    }

    /// The part.
    pub(crate) fn part(&self) -> u32
        ensures { result ≡ self.now.part }
    {
        self.line.part
    }

    /// The price.
    pub(crate) fn price(&self) -> u128
        ensures value { result ≡ self.now.dual.a }
        ensures limit { IsAmount result }
    {
        self.line.price
    }

    /// The nodes with their values, as they were listed.
    pub(crate) fn values(&self) -> &[(u32, u128)]
        ensures values { result.now ≡ self.now.dual.u }
        ensures in_range { IsDualInRange self.now.problem.size self.now.dual }
    {
        &self.listed
    }
}

/// What the commodity carries for the part: its flow, as often as the part says.
fn carried(legs: &CandidateLegs, i: u32, j: u32, part: u32) -> u64
    requires from { i < legs.now.size }
    requires to { j < legs.now.size }
    requires part { part ≤ most_part }
    ensures { result ≡ weighted_flow legs.now part (i, j) }
{
    part as u64 * legs.instance().flow_between(i, j)
}
