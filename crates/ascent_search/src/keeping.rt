//! Cuts that are stored.

ghost use Rattle.std.specs.Prelude.{◌≡◌, ◌≤◌, length, IfOk, OnOk};
ghost use Rattle.hub_spec.specs.Trees.{cut_at};
ghost use Rattle.cut_pool.specs.Kept.{kept_of, kept_cut, IsRemade, IsKeptFor};
ghost use Rattle.ascent_search.specs.SingleCuts.{AreLoads};
ghost use Rattle.ascent_search.specs.Progressing.{cuts_of, IsGoing, IsAt};
ghost use Rattle.ascent_search.specs.Walking.{IsSameWalk};

use crate::walk::Walk;
use cut_pool::KeptCut;
use hub_model::MOST_CUTS;
use std::alloc::AllocError;

impl Walk<'_> {
    /// Stores the cut with this total and the loads of the workspace, and returns its number.
    ///
    /// Returns `AllocError` also where there are as many cuts as a certificate can have.
    pub(crate) fn keep(&mut self, cut: KeptCut, total: u128) -> Result<u64, AllocError>
        requires going { IsGoing self.old.task.now self.old.progress }
        requires own { IsRemade (kept_of cut) }
        requires fit { IsKeptFor self.old.task.now.instance.now (kept_of cut) }
        requires sums { let p = self.old.task.now.instance.now in AreLoads p (kept_cut p (kept_of cut)) total self.old.bench.loads }
        ensures same { IsSameWalk self.old self.new }
        ensures at { OnOk result (IsAt self.old.task.now self.old.progress self.new.progress) }
        ensures least { IfOk result (λ c. 1 ≤ c) }
        ensures most { IfOk result (λ c. c ≤ length self.new.progress.cuts.cuts) }
        ensures cut { let p = self.old.task.now.instance.now in
            IfOk result (λ c. cut_at (cuts_of p self.new.progress) c ≡ kept_cut p (kept_of cut)) }
        ensures cost { OnOk result (self.new.progress.cost ≡ self.old.progress.cost) }
    {
        let cuts = &mut self.progress.cuts;
        if cuts.len() >= MOST_CUTS as u64 {
            return Err(AllocError);
        }
        cuts.keep(self.alloc, cut, total, self.bench.loads())
    }
}
