//! The conditions of the mark of a cut, and of the proofs of its duals.

ghost use Rattle.std.specs.Prelude.{◌≡◌, ◌≢◌, ℕ, ◌^◌, ◌-◌, ◌<◌, ◌≤◌, ◌∷◌, ◌++◌, List, IfOk, OnErr};
ghost use Rattle.core_lines.specs.Tests.{IsListed};
ghost use Rattle.cert_conditions.specs.Steps.{
  Tried,
  mark_begun,
  mark_with,
  mark_tests,
  proof_tests,
  MarkTaken,
  ProofEnds,
  ProofTaken,
  WayTaken,
  MayCut,
  MayMarkHub,
  MayEndProof,
  MayProof,
  MayWay,
};

use crate::checks::Checks;
use crate::kinds::Kind;
use std::alloc::{AllocError, Global};

impl<'a> Checks<'a> {
    pub(crate) fn begin_mark(&mut self, part: u32)
        requires { MayCut part }
        ensures { self.new ≡ mark_begun self.old part }
    {
        self.mark.begin(part);
    }

    pub(crate) fn take_mark_hub(&mut self, k: u32)
        requires { MayMarkHub self.old k }
        ensures { self.new ≡ mark_with self.old k }
    {
        self.mark.add_hub(k);
    }

    // The cut begins with the last hub of its mark.
    pub(crate) fn take_mark(&mut self, alloc: Global, k: u32) -> Result<(), AllocError>
        requires room { self.old.line < 2 ^ 64 - 1 }
        requires hub { MayMarkHub self.old k }
        ensures taken { IfOk result (λ _. MarkTaken self.old k self.new) }
        ensures same { OnErr result (self.new ≡ self.old) }
    {
        self.cuts
            .begin(alloc, self.instance.size(), self.mark.part())?;
        self.mark.add_hub(k);
        let found = self.failed_mark();
        self.end_line(found);
        Ok(())
    }

    fn failed_mark(&self) -> Option<Kind>
        ensures { Tried (mark_tests self.now) result self.now.line }
    {
        if self.mark.may_mark(self.instance) {
            return None;
        }
        Some(Kind::Core)
    }

    // The proof is of the dual that was added to the cut last.
    pub(crate) fn take_proof(&mut self, turns: u32, scale: u32, last: bool)
        requires room { self.old.line < 2 ^ 64 - 1 }
        requires proof { MayProof self.old turns scale }
        ensures { ProofTaken self.old turns scale last self.new }
    {
        let n = self.instance.size();
        let at = self.cuts.last().count() - 1;
        self.mark.begin_proof((at / n, at % n), turns, scale);
        if !last {
            return;
        }
        self.end_proof();
    }

    pub(crate) fn take_way(&mut self, way: (u32, u32, u64), last: bool)
        requires room { self.old.line < 2 ^ 64 - 1 }
        requires way { MayWay self.old way }
        ensures { WayTaken self.old way last self.new }
    {
        self.mark.take_way(way);
        if !last {
            return;
        }
        self.end_proof();
    }

    fn end_proof(&mut self)
        requires room { self.old.line < 2 ^ 64 - 1 }
        requires may { MayEndProof self.old }
        ensures { ProofEnds self.old self.new }
    {
        let found = self.failed_proof();
        self.end_line(found);
    }

    fn failed_proof(&mut self) -> Option<Kind>
        requires { MayEndProof self.old }
        ensures tried { (row : List ℕ) × IsListed self.old.dual.dual self.old.dual.dual.a row
            × Tried (proof_tests self.old row) result self.old.line }
        ensures same { self.new ≡ self.old }
    {
        let part = self.cuts.last().part();
        if self
            .mark
            .proves(part, self.dual.price(), self.dual.values())
        {
            return None;
        }
        Some(Kind::Core)
    }
}
