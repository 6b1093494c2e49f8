//! The state of a search, and the lines that it adds.

ghost use Rattle.std.specs.Prelude.{◌≡◌, ◌+◌, ◌≤◌, IsTrue, false, Contains, None, IfSome, IfOk, OnOk};
ghost use Rattle.hub_spec.specs.Limits.{most_cost};
ghost use Rattle.hub_spec.specs.Plans.{IsHubSet, HasWanted, IsSetCost};
ghost use Rattle.hub_spec.specs.Trees.{IsBranch};
ghost use Rattle.hub_spec.specs.Ranges.{IsFirstLine, IsLineInRange};
ghost use Rattle.hub_model.specs.Lines.{tree_line_of};
ghost use Rattle.search_spec.specs.Laws.{IsWantedSet};
ghost use Rattle.search_spec.specs.Findings.{AreWithin, IsSpent};
ghost use Rattle.search_spec.specs.Walks.{IsSoundLine};
ghost use Rattle.cut_pool.specs.Findings.{IsUnlimited};
ghost use Rattle.ascent_search.specs.Ends.{IsEndLine};
ghost use Rattle.ascent_search.specs.Gaps.{goal_of};
ghost use Rattle.ascent_search.specs.Progressing.{cuts_of, target_of, IsWantedAs, IsGoing, IsAt, IsDone, IsLastLine, IsHalved};

use crate::task::{MOST_GAP, SearchTask};
use assign_sub::{cost_of_set, lacking};
use cut_pool::KeptCuts;
use hub_model::{Branch, HubSet, Instance, TreeLine, has_wanted, is_candidate_set};
use search_core::{Task, add_line, lesser};
use std::alloc::{AllocError, Global};

/// Cuts, tree lines, incumbent with its cost, number of nodes, whether the search was stopped, and `left`: the least
/// bound of a leaf on a cut or of a stop. Costs are in 10^-12.
#[derive(Drop)]
pub(crate) struct TreeProgress {
    pub(crate) cuts: KeptCuts,
    pub(crate) lines: Vec<TreeLine>,
    pub(crate) hubs: HubSet,
    pub(crate) cost: u128,
    pub(crate) made: u64,
    pub(crate) stopped: bool,
    pub(crate) left: Option<u128>,
}

/// The bound that all leaves reach, in 10^-12: the incumbent's cost, or the least of it and of `left`.
pub(crate) fn target(progress: &TreeProgress) -> u128
    ensures { result ≡ target_of progress.now }
{
    lesser(progress.cost, progress.left)
}

/// The cutoff of a leaf before a stop, in 10^-12: the incumbent's cost less the gap.
pub(crate) fn goal(task: &SearchTask, progress: &TreeProgress) -> u128
    requires { IsGoing task.now progress.now }
    ensures value { result ≡ goal_of task.now.gap progress.now.cost }
    ensures limit { result ≤ most_cost }
{
    progress.cost - u128::from(task.gap) * progress.cost / u128::from(MOST_GAP)
}

/// Ends the branch with a line, unless the tree is as long as a certificate's can be.
pub(crate) fn end_with(
    task: &SearchTask,
    branch: &Branch,
    line: TreeLine,
    progress: &mut TreeProgress,
) -> Result<(), AllocError>
    requires going { IsGoing task.now progress.old }
    requires end { IsEndLine (tree_line_of line) }
    requires sound { IsSoundLine task.now.instance.now (cuts_of task.now.instance.now progress.old) (target_of progress.old) branch.now (tree_line_of line) }
    requires in_range { IsLineInRange task.now.instance.now.size (tree_line_of line) }
    requires first { IsUnlimited task.now.instance.now → IsFirstLine (tree_line_of line) }
    ensures done { OnOk result (IsDone task.now branch.now progress.old progress.new) }
    ensures last { OnOk result (IsLastLine task.now branch.now (tree_line_of line) progress.old progress.new) }
{
    add_line(&mut progress.lines, line)?;
    Ok(())
}

/// Adds the line of a branching on the free node, which makes two more nodes.
pub(crate) fn split_on(
    task: &SearchTask,
    branch: &Branch,
    k: u32,
    progress: &mut TreeProgress,
) -> Result<(), AllocError>
    requires going { IsGoing task.now progress.old }
    requires branch { IsBranch task.now.instance.now branch.now }
    requires free { Contains branch.now.free k }
    requires allowed { AreWithin task.now.nodes (progress.old.made + 2) }
    ensures { OnOk result (IsHalved task.now branch.now k progress.old progress.new) }
{
    add_line(&mut progress.lines, TreeLine::BranchOn(k))?;
    progress.made += 2;
    Ok(())
}

/// Returns whether two more nodes are allowed.
pub(crate) fn may_split(task: &SearchTask, progress: &TreeProgress) -> bool
    requires { IsGoing task.now progress.now }
    ensures may { IsTrue result → AreWithin task.now.nodes (progress.now.made + 2) }
    ensures spent { result ≡ false → IsSpent task.now.nodes progress.now.made }
{
    Task::new(task.instance, task.nodes).allows_two(progress.made)
}

/// Makes the wanted set the incumbent, if it costs less.
pub(crate) fn offer(task: &SearchTask, set: HubSet, cost: u128, progress: &mut TreeProgress)
    requires going { IsGoing task.now progress.old }
    requires set { IsHubSet task.now.instance.now set }
    requires wanted { HasWanted task.now.instance.now set }
    requires cost { IsSetCost task.now.instance.now set cost }
    ensures at { IsAt task.now progress.old progress.new }
    ensures reached { progress.new.cost ≤ cost }
    ensures same { progress.new.cuts ≡ progress.old.cuts }
{
    if cost < progress.cost {
        progress.hubs = set;
        progress.cost = cost;
    }
}

/// Makes the nodes the incumbent, if they are a feasible set of candidates of the wanted number, and cost less.
pub(crate) fn offer_nodes(
    alloc: Global,
    task: &SearchTask,
    hubs: &[u32],
    progress: &mut TreeProgress,
) -> Result<(), AllocError>
    requires { IsGoing task.now progress.old }
    ensures { OnOk result (IsAt task.now progress.old progress.new) }
{
    if let Some(set) = wanted_set(alloc, task.instance, hubs)? {
        let cost = cost_of_set(task.instance, set.members());
        offer(task, set, cost, progress);
    }
    Ok(())
}

/// The nodes as a hub set, if they are a feasible set of candidates of the wanted number.
pub(crate) fn wanted_set(
    alloc: Global,
    instance: &Instance,
    nodes: &[u32],
) -> Result<Option<HubSet>, AllocError>
    ensures set { IfOk result (λ found. IfSome found (IsWantedAs instance.now nodes.now)) }
    ensures none { IfOk result (λ found. found ≡ None → IsWantedSet instance.now nodes.now → ⊥) }
{
    if !is_candidate_set(instance, nodes) {
        return Ok(None);
    }
    if !has_wanted(instance, nodes) {
        return Ok(None);
    }
    let set = HubSet::of(alloc, nodes)?;
    match lacking(instance, &set) {
        Some(_) => Ok(None),
        None => Ok(Some(set)),
    }
}
