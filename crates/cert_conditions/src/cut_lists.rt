//! The sums of the cuts of a certificate.

ghost use Rattle.std.specs.Prelude.{◌≡◌, ◌≢◌, ◌+◌, ◌≤◌, ◌++◌, [], ◌∷◌, length, IfOk, OnErr};
ghost use Rattle.hub_spec.specs.Limits.{most_part};
ghost use Rattle.hub_spec.specs.Ranges.{IsDualInRange};
ghost use Rattle.cert_conditions.specs.Sums.{
  CutTally,
  IsNoDual,
  most_duals,
  last_of,
  numbered,
  IsLastAdded,
};

use crate::sums::RunningSums;
use std::alloc::{AllocError, Global};
use std::marker::Model;

/// The sums of each cut in the order of their numbers, of which the last may still lack duals.
#[derive(Drop)]
pub(crate) struct CutList {
    sums: Vec<RunningSums>,
}

impl Model for CutList {
    ghost use Rattle.std.specs.Prelude.{List};
    ghost use Rattle.cert_conditions.specs.Sums.{CutTally};

    ghost Value = { List CutTally };

    ghost view = { λ s. s.sums.items };
}

impl CutList {
    /// The sums of no cut.
    pub(crate) fn new(alloc: Global) -> CutList
        ensures { result ≡ [] }
    {
        CutList {
            sums: Vec::new(alloc),
        }
    }

    /// Appends a cut over `n` nodes, with this part and no dual. It allocates. Where memory runs out, nothing changes.
    pub(crate) fn begin(&mut self, alloc: Global, n: u32, part: u32) -> Result<(), AllocError>
        requires least { 1 ≤ part }
        requires most { part ≤ most_part }
        ensures begun { IfOk result (λ _.
            (sums : CutTally) × IsNoDual n part sums × (self.new ≡ self.old ++ sums ∷ [])) }
        ensures same { OnErr result (self.new ≡ self.old) }
    {
        let sums = RunningSums::new(alloc, n, part)?;
        self.sums.push(sums)?;
        Ok(())
    }

    /// Adds `run` equal duals of this price and these values to the last cut.
    pub(crate) fn add(&mut self, run: u32, price: u128, values: &[(u32, u128)])
        requires some { self.old ≢ [] }
        requires few { (last_of self.old).count + run ≤ most_duals }
        requires dual { IsDualInRange (length (last_of self.old).loads) (record { a = price; u = values.now }) }
        ensures { IsLastAdded self.old run (record { a = price; u = values.now }) self.new }
    {
        let at = self.sums.len() - 1;
        self.sums[at].add(run, price, values);
    }

    /// The number of cuts.
    pub(crate) fn len(&self) -> usize
        ensures { result ≡ length self.now }
    {
        self.sums.len()
    }

    /// The sums of the last cut.
    pub(crate) fn last(&self) -> &RunningSums
        requires { self.now ≢ [] }
        ensures { result.now ≡ last_of self.now }
    {
        &self.sums[self.sums.len() - 1]
    }

    /// The sums of the cut of this number, counted from 1.
    pub(crate) fn numbered(&self, c: u128) -> &RunningSums
        requires least { 1 ≤ c }
        requires most { c ≤ length self.now }
        ensures { result.now ≡ numbered self.now c }
    {
        &self.sums[c as usize - 1]
    }
}
