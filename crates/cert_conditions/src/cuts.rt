//! The conditions of the cuts.

ghost use Rattle.std.specs.Prelude.{◌≡◌, ◌≢◌, ◌^◌, ◌-◌, ◌<◌, ◌≤◌, ◌↔◌, [], IfSome, IsTrue, IfOk, OnErr};
ghost use Rattle.hub_spec.specs.Limits.{most_part};
ghost use Rattle.cert_conditions.specs.Steps.{
  Tried,
  CutTaken,
  sum_tests,
  dual_tests,
  begun_dual,
  with_value,
  dual_with,
  IsDualOfEach,
  IsKnownWith,
  DualEnds,
  DualGoesOn,
  MayDual,
  MayValue,
  MayEndDual,
};

use crate::checks::Checks;
use crate::kinds::Kind;
use std::alloc::{AllocError, Global};

impl<'a> Checks<'a> {
    pub(crate) fn take_cut(&mut self, alloc: Global, part: u32) -> Result<(), AllocError>
        requires room { self.old.line < 2 ^ 64 - 1 }
        requires least { 1 ≤ part }
        requires most { part ≤ most_part }
        ensures taken { IfOk result (λ _. CutTaken self.old part self.new) }
        ensures same { OnErr result (self.new ≡ self.old) }
    {
        self.cuts.begin(alloc, self.instance.size(), part)?;
        self.end_line(None);
        Ok(())
    }

    pub(crate) fn take_dual(
        &mut self,
        commodity: (u32, u32),
        run: u32,
        a: u128,
        last: bool,
        known: Option<u32>,
    )
        requires room { self.old.line < 2 ^ 64 - 1 }
        requires dual { MayDual self.old commodity run a }
        requires known { IfSome known (IsKnownWith (begun_dual self.old commodity run a)) }
        ensures { DualGoesOn last (dual_with self.old (begun_dual self.old commodity run a)) self.new }
    {
        let part = self.cuts.last().part();
        self.dual.begin(commodity.0, commodity.1, run, part, a);
        if !last {
            return;
        }
        self.end_dual(known);
    }

    pub(crate) fn take_value(&mut self, k: u32, u: u128, last: bool, known: Option<u32>)
        requires room { self.old.line < 2 ^ 64 - 1 }
        requires value { MayValue self.old k u }
        requires known { IfSome known (IsKnownWith (with_value self.old.dual (k, u))) }
        ensures { DualGoesOn last (dual_with self.old (with_value self.old.dual (k, u))) self.new }
    {
        self.dual.list(k, u);
        if !last {
            return;
        }
        self.end_dual(known);
    }

    fn end_dual(&mut self, known: Option<u32>)
        requires room { self.old.line < 2 ^ 64 - 1 }
        requires may { MayEndDual self.old self.old.dual.run }
        requires known { IfSome known (IsKnownWith self.old.dual) }
        ensures { DualEnds self.old self.new }
    {
        self.cuts
            .add(self.dual.run(), self.dual.price(), self.dual.values());
        let found = self.failed_dual(known);
        self.end_line(found);
    }

    // Of a run that is added to its cut already; with the last one, the cut's sums are tried.
    fn failed_dual(&mut self, known: Option<u32>) -> Option<Kind>
        requires cuts { self.old.cuts ≢ [] }
        requires known { IfSome known (IsKnownWith self.old.dual) }
        ensures tried { Tried (dual_tests self.old) result self.old.line }
        ensures same { self.new ≡ self.old }
    {
        if self.dual_holds(known) {
            self.failed_sum()
        } else {
            Some(Kind::Dual)
        }
    }

    // Tells whether the dual that is listed is feasible for each commodity of its run. Where that is known it is not tried.
    fn dual_holds(&mut self, known: Option<u32>) -> bool
        requires { IfSome known (IsKnownWith self.old.dual) }
        ensures holds { IsTrue result ↔ IsDualOfEach self.old.dual }
        ensures same { self.new ≡ self.old }
    {
        match known {
            Some(part) if part == self.dual.part() => true,
            _ => self.dual.holds(),
        }
    }

    fn failed_sum(&self) -> Option<Kind>
        requires { self.now.cuts ≢ [] }
        ensures { Tried (sum_tests self.now) result self.now.line }
    {
        let n = self.instance.size();
        let sums = self.cuts.last();
        if sums.count() == n * n && !sums.are_within() {
            return Some(Kind::Sum);
        }
        None
    }
}
