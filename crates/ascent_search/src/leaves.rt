//! The leaves of the tree.

ghost use Rattle.std.specs.Prelude.{◌≡◌, ◌≤◌, ◌+◌, length, ◌≤ℤ◌, ◌⊎◌, false, IfOk, IfSome, OnOk};
ghost use Rattle.hub_spec.specs.Limits.{most_cost};
ghost use Rattle.hub_spec.specs.Problem.{opening_cost};
ghost use Rattle.hub_spec.specs.Plans.{IsHubSet, HasWanted, IsSetCost};
ghost use Rattle.hub_spec.specs.Trees.{IsBranch, HasRoom, leaf_of, leaf_bound, cut_at};
ghost use Rattle.hub_model.specs.Lines.{tree_line_of};
ghost use Rattle.leaf_bound.specs.Weighing.{most_bound, IsWithin};
ghost use Rattle.search_spec.specs.States.{denominator};
ghost use Rattle.search_spec.specs.Findings.{IsSpent};
ghost use Rattle.ascent_search.specs.Ends.{IsLastSet};
ghost use Rattle.ascent_search.specs.Gaps.{goal_of};
ghost use Rattle.ascent_search.specs.Progressing.{cuts_of, IsGoing, IsAt, IsDone};
ghost use Rattle.ascent_search.specs.Walking.{IsWalking, IsSameWalk};
ghost use Rattle.ascent_search.specs.SingleCuts.{ClosesBy, weights_on, IsChoice, IsOrderedSet};

use crate::bounds::{bare_bound, is_above, kept_bound};
use crate::progress::{TreeProgress, end_with, goal, offer};
use crate::task::SearchTask;
use crate::walk::Walk;
use cut_pool::KeptCut;
use hub_model::{Branch, HubSet, Mix, TreeLine, outside};
use search_core::{WHOLE_WEIGHT, lesser, rounded_up, whole_leaf};
use std::alloc::{AllocError, Global};

/// The number of newest stored cuts that are tried at a branch before the heuristic.
const MOST_TRIES: u64 = 64;

impl Walk<'_> {
    /// Ends the branch with the leaf on the stored cut of this number, which fathoms at the cutoff.
    pub(crate) fn cut_leaf(&mut self, branch: &Branch, number: u64) -> Result<(), AllocError>
        requires going { IsGoing self.old.task.now self.old.progress }
        requires least { 1 ≤ number }
        requires most { number ≤ length self.old.progress.cuts.cuts }
        requires branch { IsBranch self.old.task.now.instance.now branch.now }
        requires room { HasRoom self.old.task.now.instance.now.wanted branch.now }
        requires closes { let p = self.old.task.now.instance.now in
            ClosesBy p (cut_at (cuts_of p self.old.progress) number) (goal_of self.old.task.now.gap self.old.progress.cost) branch.now }
        ensures same { IsSameWalk self.old self.new }
        ensures done { OnOk result (IsDone self.old.task.now branch.now self.old.progress self.new.progress) }
    {
        let bound = kept_bound(self.task, branch, &self.progress, number);
        let line = whole_leaf(self.alloc, number)?;
        self.progress.left = Some(lesser(rounded_up(bound), self.progress.left));
        end_with(self.task, branch, line, &mut self.progress)
    }

    /// The number of a stored cut that alone fathoms the branch at the cutoff, if one of the newest does.
    pub(crate) fn closing_cut(&self, branch: &Branch) -> Option<u64>
        requires going { IsGoing self.now.task.now self.now.progress }
        requires branch { IsBranch self.now.task.now.instance.now branch.now }
        requires room { HasRoom self.now.task.now.instance.now.wanted branch.now }
        ensures least { IfSome result (λ c. 1 ≤ c) }
        ensures most { IfSome result (λ c. c ≤ length self.now.progress.cuts.cuts) }
        ensures closes { let p = self.now.task.now.instance.now in
            IfSome result (λ c. ClosesBy p (cut_at (cuts_of p self.now.progress) c) (goal_of self.now.task.now.gap self.now.progress.cost) branch.now) }
    {
        let count = self.progress.cuts.len();
        let goal = goal(self.task, &self.progress);
        for back in 0..count.min(MOST_TRIES) {
            let number = count - back;
            if is_above(kept_bound(self.task, branch, &self.progress, number), goal) {
                return Some(number);
            }
        }
        None
    }

    /// Ends the branch with the leaf on the cut of its only hub set. That set becomes the incumbent, if it costs less.
    pub(crate) fn set_leaf(&mut self, branch: &Branch, set: HubSet) -> Result<(), AllocError>
        requires walking { IsWalking self.old }
        requires branch { IsBranch self.old.task.now.instance.now branch.now }
        requires room { HasRoom self.old.task.now.instance.now.wanted branch.now }
        requires last { IsLastSet self.old.task.now.instance.now branch.now set }
        ensures same { IsSameWalk self.old self.new }
        ensures done { OnOk result (IsDone self.old.task.now branch.now self.old.progress self.new.progress) }
    {
        let ordered = with_order(self.alloc, self.task, set)?;
        let total = self.bench.set_sums(&ordered.set, &ordered.order);
        offer_set(
            self.alloc,
            self.task,
            &ordered.set,
            total,
            &mut self.progress,
        )?;
        let cut = KeptCut::Set(ordered.set, ordered.order);
        let number = self.keep(cut, total)?;
        self.cut_leaf(branch, number)
    }

    /// Ends the branch with the leaf of a stop. The first stop comes only where a node is free.
    pub(crate) fn stopped_leaf(&mut self, branch: &Branch) -> Result<(), AllocError>
        requires going { IsGoing self.old.task.now self.old.progress }
        requires branch { IsBranch self.old.task.now.instance.now branch.now }
        requires room { HasRoom self.old.task.now.instance.now.wanted branch.now }
        requires spent { IsSpent self.old.task.now.nodes self.old.progress.made }
        requires due { self.old.progress.stopped ≡ false → 1 ≤ length branch.now.free }
        ensures same { IsSameWalk self.old self.new }
        ensures done { OnOk result (IsDone self.old.task.now branch.now self.old.progress self.new.progress) }
    {
        let choice = best_choice(self.task, branch, &self.progress);
        let line = leaf_line(self.alloc, choice.number)?;
        self.progress.stopped = true;
        self.progress.left = Some(lesser(rounded_up(choice.bound), self.progress.left));
        end_with(self.task, branch, line, &mut self.progress)
    }
}

// The leaf with the whole weight on the cut of this number, or with no weight.
fn leaf_line(alloc: Global, number: Option<u64>) -> Result<TreeLine, AllocError>
    requires { IfSome number (λ c. 1 ≤ c) }
    ensures { IfOk result (λ line. tree_line_of line ≡ leaf_of denominator (weights_on number)) }
{
    match number {
        None => Ok(TreeLine::Leaf(Mix::new(WHOLE_WEIGHT as i128, Vec::new(alloc)))),
        Some(number) => whole_leaf(alloc, number),
    }
}

/// A hub set, and the order of the other candidates for its cut.
#[derive(Drop)]
pub(crate) struct OrderedSet {
    pub(crate) set: HubSet,
    pub(crate) order: Vec<u32>,
}

fn with_order(alloc: Global, task: &SearchTask, set: HubSet) -> Result<OrderedSet, AllocError>
    requires { IsHubSet task.now.instance.now set }
    ensures { IfOk result (IsOrderedSet task.now.instance.now set) }
{
    let order = outside(alloc, task.instance, &set)?;
    Ok(OrderedSet { set, order })
}

// Makes the set the incumbent, if it costs less. Its cost is the total of its cut plus its fixed costs.
fn offer_set(
    alloc: Global,
    task: &SearchTask,
    set: &HubSet,
    total: u128,
    progress: &mut TreeProgress,
) -> Result<(), AllocError>
    requires going { IsGoing task.now progress.old }
    requires set { IsHubSet task.now.instance.now set.now }
    requires wanted { HasWanted task.now.instance.now set.now }
    requires total { total ≤ most_cost }
    requires cost { let p = task.now.instance.now in IsSetCost p set.now (total + opening_cost p set.now) }
    ensures at { OnOk result (IsAt task.now progress.old progress.new) }
    ensures reached { OnOk result (progress.new.cost ≤ total + opening_cost task.now.instance.now set.now) }
{
    let cost = total + task.instance.opening_cost(set.members());
    let hubs = set.copy(alloc)?;
    offer(task, hubs, cost, progress);
    Ok(())
}

/// The stored cut with the best bound in a branch, if that is better than the bound by no cut; and the bound, in 10^-12
/// times the whole weight.
#[derive(Clone, Copy)]
pub(crate) struct Choice {
    pub(crate) number: Option<u64>,
    pub(crate) bound: i128,
}

fn best_choice(task: &SearchTask, branch: &Branch, progress: &TreeProgress) -> Choice
    requires going { IsGoing task.now progress.now }
    requires branch { IsBranch task.now.instance.now branch.now }
    requires room { HasRoom task.now.instance.now.wanted branch.now }
    ensures choice { let p = task.now.instance.now in IsChoice p (cuts_of p progress.now) branch.now result }
    ensures limit { IsWithin most_bound result.bound }
{
    let mut best = Choice {
        number: None,
        bound: bare_bound(task.instance, branch),
    };
    for before in 0..progress.cuts.len() {
        let number = before + 1;
        let other = Choice {
            number: Some(number),
            bound: kept_bound(task, branch, progress, number),
        };
        best = better_of(best, other);
    }
    best
}

// The choice with the greater bound, the first if they are equal.
fn better_of(best: Choice, other: Choice) -> Choice
    ensures { (result ≡ best) ⊎ ((best.bound ≤ℤ other.bound) × (result ≡ other)) }
{
    if other.bound > best.bound {
        other
    } else {
        best
    }
}
