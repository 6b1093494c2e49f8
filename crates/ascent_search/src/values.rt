//! The cut of the heuristic's values, at a branch.

ghost use Rattle.std.specs.Prelude.{◌≡◌, ◌≤◌, length, IsTrue, false, IfOk, OnOk};
ghost use Rattle.hub_spec.specs.Trees.{IsBranch, HasRoom, cut_at};
ghost use Rattle.cut_model.specs.ValueRows.{AreValuesFor, value_cut};
ghost use Rattle.search_spec.specs.Findings.{IsSpent};
ghost use Rattle.ascent_search.specs.Gaps.{goal_of};
ghost use Rattle.ascent_search.specs.Progressing.{cuts_of, IsGoing, IsAt, IsDone, IsAdvised};
ghost use Rattle.ascent_search.specs.SingleCuts.{AreLoads, ClosesBy};
ghost use Rattle.ascent_search.specs.Walking.{IsWalking, IsSameWalk};

use crate::progress::may_split;
use crate::walk::Walk;
use cut_pool::{KeptCut, PackedValues};
use hub_model::{Branch, Instance};
use std::alloc::AllocError;
use std::thread::Threads;
use value_cuts::Values;

impl Walk<'_> {
    /// Ends the branch with the leaf on the Benders cut from the values, in this unit, if it fathoms. Ends it with a stop
    /// where two more nodes are not allowed. Returns whether it ended the branch. The unit is capped at 32 bits. A list
    /// that has not a value for each candidate of each commodity gives no cut.
    pub(crate) fn end_by_values<R: Threads + Sync>(
        &mut self,
        rt: &R,
        unit: u64,
        values: &[u32],
        branch: &Branch,
    ) -> Result<bool, AllocError>
        requires walking { IsWalking self.old }
        requires branch { IsBranch self.old.task.now.instance.now branch.now }
        requires room { HasRoom self.old.task.now.instance.now.wanted branch.now }
        requires some_free { 1 ≤ length branch.now.free }
        ensures same { IsSameWalk self.old self.new }
        ensures advised { IfOk result (λ ended. IsAdvised self.old.task.now branch.now self.old.progress self.new.progress ended) }
    {
        let unit = u32::try_from(unit).unwrap_or(u32::MAX);
        if let Some(mut values) = Values::over(self.task.instance, unit, values) {
            return self.end_by_cut(rt, &mut values, branch);
        }
        if may_split(self.task, &self.progress) {
            return Ok(false);
        }
        self.stopped_leaf(branch)?;
        Ok(true)
    }

    // The same by values that fit. Their offset is set.
    fn end_by_cut<R: Threads + Sync>(
        &mut self,
        rt: &R,
        values: &mut Values,
        branch: &Branch,
    ) -> Result<bool, AllocError>
        requires walking { IsWalking self.old }
        requires fit { AreValuesFor self.old.task.now.instance.now values.old }
        requires branch { IsBranch self.old.task.now.instance.now branch.now }
        requires room { HasRoom self.old.task.now.instance.now.wanted branch.now }
        requires some_free { 1 ≤ length branch.now.free }
        ensures same { IsSameWalk self.old self.new }
        ensures advised { IfOk result (λ ended. IsAdvised self.old.task.now branch.now self.old.progress self.new.progress ended) }
    {
        let total = self.bench.value_sums(
            rt,
            self.alloc,
            self.task.workers,
            values,
            some_open(self.task.instance, branch),
        )?;
        let closes = self.sums_close(branch, total)?;
        if !closes && may_split(self.task, &self.progress) {
            return Ok(false);
        }
        self.end_by_sums(values, branch, total, closes)?;
        Ok(true)
    }

    // Stores the Benders cut from the values, and ends the branch: with the leaf on that cut, if it fathoms at the
    // cutoff, else with a stop.
    fn end_by_sums(
        &mut self,
        values: &Values,
        branch: &Branch,
        total: u128,
        closes: bool,
    ) -> Result<(), AllocError>
        requires going { IsGoing self.old.task.now self.old.progress }
        requires fit { AreValuesFor self.old.task.now.instance.now values.now }
        requires sums { let p = self.old.task.now.instance.now in AreLoads p (value_cut p values.now) total self.old.bench.loads }
        requires branch { IsBranch self.old.task.now.instance.now branch.now }
        requires room { HasRoom self.old.task.now.instance.now.wanted branch.now }
        requires some_free { 1 ≤ length branch.now.free }
        requires closing { let p = self.old.task.now.instance.now in IsTrue closes
            → ClosesBy p (value_cut p values.now) (goal_of self.old.task.now.gap self.old.progress.cost) branch.now }
        requires spent { closes ≡ false → IsSpent self.old.task.now.nodes self.old.progress.made }
        ensures same { IsSameWalk self.old self.new }
        ensures done { OnOk result (IsDone self.old.task.now branch.now self.old.progress self.new.progress) }
    {
        let number = self.keep_values(values, total)?;
        if closes {
            self.cut_leaf(branch, number)
        } else {
            self.stopped_leaf(branch)
        }
    }

    // Stores the Benders cut from the values, from which it can be computed again, and returns its number.
    fn keep_values(&mut self, values: &Values, total: u128) -> Result<u64, AllocError>
        requires going { IsGoing self.old.task.now self.old.progress }
        requires fit { AreValuesFor self.old.task.now.instance.now values.now }
        requires sums { let p = self.old.task.now.instance.now in AreLoads p (value_cut p values.now) total self.old.bench.loads }
        ensures same { IsSameWalk self.old self.new }
        ensures at { OnOk result (IsAt self.old.task.now self.old.progress self.new.progress) }
        ensures least { IfOk result (λ c. 1 ≤ c) }
        ensures most { IfOk result (λ c. c ≤ length self.new.progress.cuts.cuts) }
        ensures cut { let p = self.old.task.now.instance.now in
            IfOk result (λ c. cut_at (cuts_of p self.new.progress) c ≡ value_cut p values.now) }
        ensures cost { OnOk result (self.new.progress.cost ≡ self.old.progress.cost) }
    {
        let packed = PackedValues::pack(self.alloc, self.task.instance, values)?;
        self.keep(KeptCut::Values(packed), total)
    }
}

// Nodes of the branch of which one is open in each wanted hub set, where it has no hub yet and any number is wanted.
fn some_open<'b>(instance: &Instance, branch: &'b Branch) -> &'b [u32] {
    if instance.wanted().is_none() && branch.inside().is_empty() {
        return branch.free();
    }
    &[]
}
