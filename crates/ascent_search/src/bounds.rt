//! The bound of one cut alone.

ghost use Rattle.std.specs.Prelude.{◌≡◌, ◌≤◌, [], map, length, IsTrue, IfOk};
ghost use Rattle.hub_spec.specs.Problem.{IsProblem};
ghost use Rattle.hub_spec.specs.Cuts.{Cut};
ghost use Rattle.hub_spec.specs.Trees.{IsBranch, HasRoom, leaf_bound, cut_at, Closes};
ghost use Rattle.hub_spec.specs.Limits.{most_cost};
ghost use Rattle.leaf_bound.specs.Weighing.{most_bound, IsWithin};
ghost use Rattle.search_spec.specs.States.{denominator};
ghost use Rattle.ascent_search.specs.Gaps.{goal_of};
ghost use Rattle.ascent_search.specs.Progressing.{cuts_of, IsGoing};
ghost use Rattle.ascent_search.specs.SingleCuts.{AreLoads, AreLentOf, IsOnCut, IsOnNone, cut_bound, ClosesBy};

use crate::progress::{TreeProgress, goal};
use crate::task::SearchTask;
use crate::walk::Walk;
use hub_model::{Branch, Instance};
use leaf_bound::{Weighting, threshold};
use p_hub::bound_by_number;
use search_core::WHOLE_WEIGHT;
use std::alloc::AllocError;

/// The whole weight, for one cut.
static WHOLE: [u128; 1] = [WHOLE_WEIGHT];

/// The part of each cut that the workspace computes.
static PART: [u32; 1] = [1];

// The input of a bound by one cut: its numbers, each in a list of one, with the whole weight.
fn cut_weighting<'a>(
    instance: &'a Instance,
    totals: &'a [u128],
    loads: &'a [Vec<u128>],
    parts: &'a [u32],
) -> Weighting<'a>
    ensures { (cut : Cut) → AreLentOf instance.now cut totals.now (map (λ v. v.items) loads.now) parts.now
        → IsOnCut instance.now cut result }
{
    Weighting {
        totals,
        loads,
        parts,
        fixed: instance.fixed_costs(),
        weights: &WHOLE,
        denom: WHOLE_WEIGHT,
    }
}

// The input of a bound by no cut.
fn bare_weighting<'a>(instance: &'a Instance) -> Weighting<'a>
    ensures problem { IsProblem instance.now }
    ensures lent { IsOnNone instance.now result }
{
    Weighting {
        totals: &[],
        loads: &[],
        parts: &[],
        fixed: instance.fixed_costs(),
        weights: &[],
        denom: WHOLE_WEIGHT,
    }
}

/// The bound of the branch by no cut.
pub(crate) fn bare_bound(instance: &Instance, branch: &Branch) -> i128
    requires branch { IsBranch instance.now branch.now }
    requires room { HasRoom instance.now.wanted branch.now }
    ensures bound { result ≡ leaf_bound instance.now [] denominator [] branch.now }
    ensures limit { IsWithin most_bound result }
{
    bound_by_number(instance, &bare_weighting(instance), branch)
}

/// The bound of the branch by the stored cut of this number alone.
pub(crate) fn kept_bound(
    task: &SearchTask,
    branch: &Branch,
    progress: &TreeProgress,
    number: u64,
) -> i128
    requires going { IsGoing task.now progress.now }
    requires branch { IsBranch task.now.instance.now branch.now }
    requires room { HasRoom task.now.instance.now.wanted branch.now }
    requires least { 1 ≤ number }
    requires most { number ≤ length progress.now.cuts.cuts }
    ensures bound { let p = task.now.instance.now in result ≡ cut_bound p (cut_at (cuts_of p progress.now) number) branch.now }
    ensures limit { IsWithin most_bound result }
{
    let start = (number - 1) as usize;
    let totals = &progress.cuts.totals()[start..start + 1];
    let loads = &progress.cuts.loads()[start..start + 1];
    let parts = &progress.cuts.parts()[start..start + 1];
    let weighting = cut_weighting(task.instance, totals, loads, parts);
    bound_by_number(task.instance, &weighting, branch)
}

impl Walk<'_> {
    /// Returns whether the last cut of the workspace, with this total, fathoms the branch at the cutoff.
    pub(crate) fn sums_close(&self, branch: &Branch, total: u128) -> Result<bool, AllocError>
        requires going { IsGoing self.now.task.now self.now.progress }
        requires branch { IsBranch self.now.task.now.instance.now branch.now }
        requires room { HasRoom self.now.task.now.instance.now.wanted branch.now }
        requires sums { (cut : Cut) × AreLoads self.now.task.now.instance.now cut total self.now.bench.loads }
        ensures { let p = self.now.task.now.instance.now in
            IfOk result (λ yes. (cut : Cut) → AreLoads p cut total self.now.bench.loads → IsTrue yes
            → ClosesBy p cut (goal_of self.now.task.now.gap self.now.progress.cost) branch.now) }
    {
        let row = self.bench.loads().to_vec(self.alloc)?;
        let rows = vec![in self.alloc; row]?;
        let totals = [total];
        let weighting = cut_weighting(self.task.instance, &totals, &rows, &PART);
        let by_cut = bound_by_number(self.task.instance, &weighting, branch);
        Ok(is_above(by_cut, goal(self.task, &self.progress)))
    }
}

/// Returns whether a bound fathoms at the cutoff.
pub(crate) fn is_above(bound: i128, target: u128) -> bool
    requires target { target ≤ most_cost }
    ensures { IsTrue result → Closes denominator target bound }
{
    bound > threshold(WHOLE_WEIGHT, target)
}
