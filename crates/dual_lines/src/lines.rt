//! The dual of a run of commodities, listed value by value and then tested.

ghost use Rattle.std.specs.Prelude.{◌≡◌, ℕ, ◌+◌, ◌<◌, ◌≤◌, ◌↔◌, [], ◌∷◌, ◌++◌, IsTrue, IfOk, All};
ghost use Rattle.hub_spec.specs.Limits.{most_part};
ghost use Rattle.hub_spec.specs.Cuts.{IsDual};
ghost use Rattle.hub_spec.specs.Ranges.{IsAmount, IsDualInRange};

use crate::commodity_lines::CommodityLine;
use hub_model::Instance;
use std::alloc::{AllocError, Global};
use std::marker::Model;

/// A run of commodities from one origin to consecutive destinations, with one dual of some part for each of them: a
/// price and values, in 10^-12.
///
/// It is used for one run after another. Clearing the last dual takes time only for its listed values.
#[derive(Drop)]
pub struct DualLine<'a> {
    line: CommodityLine<'a>,
    first: u32,
    run: u32,
}

impl<'a> Model for DualLine<'a> {
    ghost use Rattle.dual_lines.specs.Lines.{ListedDual, IsRun, run_from};

    ghost Value = { ListedDual };

    ghost view = { λ s. run_from s.first s.run s.line };

    ghost invariant = { λ s. IsRun s.line.problem s.first s.run };
}

impl<'a> DualLine<'a> {
    /// The first commodity of the instance alone, with the part 1, the price 0 and no values. Only this call allocates.
    pub fn new(alloc: Global, instance: &'a Instance) -> Result<DualLine<'a>, AllocError>
        ensures { IfOk result (λ d. d ≡ record {
          problem = instance.now;
          commodity = (0, 0);
          part = 1;
          run = 1;
          dual = record { a = 0; u = [] };
        }) }
    {
        // That there is a node comes with their number.
        let nodes = instance.size();
        prove!(nodes > 0);
        Ok(DualLine {
            line: CommodityLine::new(alloc, instance)?,
            first: 0,
            run: 1,
        })
    }

    /// Begins the dual of `run` commodities from `i`, the first one to `j`, with this part and this price, and no
    /// values yet.
    pub fn begin(&mut self, i: u32, j: u32, run: u32, part: u32, a: u128)
        requires from { i < self.old.problem.size }
        requires some { 1 ≤ run }
        requires to { j + run ≤ self.old.problem.size }
        requires part_least { 1 ≤ part }
        requires part_most { part ≤ most_part }
        requires most { IsAmount a }
        ensures { self.new ≡ record self.old {
          commodity = (i, j);
          part = part;
          run = run;
          dual = record { a = a; u = [] };
        } }
    {
        self.line.begin(i, j, part, a);
        self.first = j;
        self.run = run;
    }

    /// Lists the value of a node, greater than the nodes before it.
    pub fn list(&mut self, k: u32, u: u128)
        requires node { k < self.old.problem.size }
        requires above { All (λ e. e.0 < k) self.old.dual.u }
        requires least { 1 ≤ u }
        requires most { IsAmount u }
        ensures { self.new ≡ record self.old {
          dual = record { a = self.old.dual.a; u = self.old.dual.u ++ (k, u) ∷ [] };
        } }
    {
        self.line.list(k, u);
    }

    /// Tells whether the dual is feasible for each commodity of the run. Only candidates may be listed. No allowed
    /// route may cost, times the part and with the values of its hubs added, less than the price.
    pub fn holds(&mut self) -> bool
        ensures holds { IsTrue result
            ↔ ((s : ℕ) → s < self.old.run
            → IsDual self.old.problem self.old.part (self.old.commodity.0, self.old.commodity.1 + s) self.old.dual) }
        ensures same { self.new ≡ self.old }
    {
        for s in 0..self.run {
            self.line.turn_to(self.first + s);
            if !self.line.holds() {
                return false;
            }
        }
        true
    }

    /// The part.
    pub fn part(&self) -> u32
        ensures { result ≡ self.now.part }
    {
        self.line.part()
    }

    /// The number of commodities of the run.
    pub fn run(&self) -> u32
        ensures { result ≡ self.now.run }
    {
        self.run
    }

    /// The price, in 10^-12.
    pub fn price(&self) -> u128
        ensures value { result ≡ self.now.dual.a }
        ensures limit { IsAmount result }
    {
        self.line.price()
    }

    /// The nodes with their values, in 10^-12, as listed.
    pub fn values(&self) -> &[(u32, u128)]
        ensures values { result.now ≡ self.now.dual.u }
        ensures in_range { IsDualInRange self.now.problem.size self.now.dual }
    {
        self.line.values()
    }
}
