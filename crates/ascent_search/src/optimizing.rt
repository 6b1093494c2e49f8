//! The whole search.

ghost use Rattle.std.specs.Prelude.{◌≡◌, ◌+◌, ◌^◌, ◌≤◌, ◌<◌, [], ◌∷◌, ◌⊎◌, length, None, false, IfOk};
ghost use Rattle.std.specs.List.{AllZip};
ghost use Rattle.hub_spec.specs.Problem.{IsProblem, commodities};
ghost use Rattle.hub_spec.specs.Plans.{IsHubSet, IsSetCost, IsLeastRoute, NoPlanBelow};
ghost use Rattle.hub_spec.specs.Trees.{root};
ghost use Rattle.search_spec.specs.Costs.{IsAtMostOf, first_hubs};
ghost use Rattle.search_spec.specs.Findings.{AreWithin, IsSpent, IsEnough};
ghost use Rattle.cut_pool.specs.Findings.{AreRemade, IsProved};
ghost use Rattle.ascent_search.specs.Gaps.{most_gap, IsWithinGap};
ghost use Rattle.ascent_search.specs.Progressing.{AreFirstHubs, IsWantedAs, IsFirst, IsGoing, IsDone, IsOver, IsBestBound};

use crate::progress::{TreeProgress, target, wanted_set};
use crate::task::SearchTask;
use crate::walker::Walker;
use assign_sub::{assign, cost_of_set};
use cut_pool::{Found, KeptCuts};
use hub_model::{Branch, HubSet, Instance, Plan};
use p_hub::first_hubs;
use search_advice::Advice;
use std::alloc::{AllocError, Global};
use std::thread::Threads;

/// A wanted plan, with the cuts and the tree that prove a lower bound on the cost of every wanted plan. `nodes` is the
/// limit on the nodes of the tree, with the root; `None` is no limit. The routes are least allowed routes through the
/// hubs of the plan. It costs at most what all candidates as hubs cost, or with p hubs what the p least candidates
/// cost, since the search begins with these.
///
/// All candidates together must be feasible for each commodity; the caller checks that (`assign_sub::lacking`). Where
/// no length of routes is limited it holds (`all_candidates_serve`).
///
/// The search stops only where two more nodes are not allowed, and then the bound may be below the cost. Else both are
/// equal and the plan is optimal. The bound is the greatest that its cuts prove by its tree. The nodes of a whole tree,
/// 2^(q + 1) - 1 for q candidates, always suffice.
///
/// The heuristic is not trusted. Equal heuristics give equal findings; that is tested, and in no clause. A heuristic
/// may use threads of its own.
///
/// Returns `AllocError` where memory runs out, and for a search that would have more cuts or tree lines than a
/// certificate's text can have, 67,108,864 and 268,435,456.
pub fn optimize<R: Threads + Sync, A: Advice + Drop>(
    rt: &R,
    alloc: Global,
    instance: &Instance,
    nodes: Option<u64>,
    advice: A,
) -> Result<Found, AllocError>
    requires lacks_none { IsHubSet instance.now instance.now.candidates }
    ensures proved { IfOk result (IsProved instance.now) }
    ensures own { IfOk result AreRemade }
    ensures routes { IfOk result (λ found. AllZip (IsLeastRoute instance.now found.plan.hubs) (commodities instance.now.size) found.plan.routes) }
    ensures at_most { IfOk result (λ found. IsAtMostOf instance.now (first_hubs instance.now) found.cost) }
    ensures best { IfOk result (IsBestBound instance.now) }
    ensures within { IfOk result (λ found. found.bound ≤ found.cost) }
    ensures below { IfOk result (λ found. NoPlanBelow instance.now found.bound) }
    ensures most { IfOk result (λ found. length found.tree.items + 1 ≤ 2 ^ (length instance.now.candidates + 1)) }
    ensures allowed { IfOk result (λ found. AreWithin nodes (length found.tree.items)) }
    ensures spent { IfOk result (λ found. found.bound < found.cost → IsSpent nodes (length found.tree.items)) }
    ensures enough { IsEnough (2 ^ (length instance.now.candidates + 1)) nodes → IfOk result (λ found. found.bound ≡ found.cost) }
    ensures whole { nodes ≡ None → IfOk result (λ found. found.bound ≡ found.cost) }
{
    let task = SearchTask {
        instance,
        nodes,
        gap: 0,
        workers: 1,
        first: &[],
    };
    optimize_within(rt, alloc, &task, advice)
}

/// The same for a task, up to its gap: how far the bound may be below the cost. The plan also costs at most what the
/// first nodes of the task cost, where these are a feasible set of candidates of the wanted number. Only where two more
/// nodes are not allowed the search stops, and then the bound may be further below. With a gap of 0 and no first nodes
/// it is `optimize`. The finding is the same for every number of workers; that is tested, and in no clause.
pub fn optimize_within<R: Threads + Sync, A: Advice + Drop>(
    rt: &R,
    alloc: Global,
    task: &SearchTask,
    advice: A,
) -> Result<Found, AllocError>
    requires lacks_none { IsHubSet task.now.instance.now task.now.instance.now.candidates }
    requires gap { task.now.gap ≤ most_gap }
    requires workers { (1 ≤ task.now.workers) × (task.now.workers ≤ 64) }
    ensures proved { IfOk result (IsProved task.now.instance.now) }
    ensures own { IfOk result AreRemade }
    ensures routes { IfOk result (λ found. AllZip (IsLeastRoute task.now.instance.now found.plan.hubs) (commodities task.now.instance.now.size) found.plan.routes) }
    ensures at_most { let p = task.now.instance.now in IfOk result (λ found. IsAtMostOf p (first_hubs p) found.cost) }
    ensures given { IfOk result (λ found. IsAtMostOf task.now.instance.now task.now.first.now found.cost) }
    ensures best { IfOk result (IsBestBound task.now.instance.now) }
    ensures within { IfOk result (λ found. found.bound ≤ found.cost) }
    ensures below { IfOk result (λ found. NoPlanBelow task.now.instance.now found.bound) }
    ensures most { IfOk result (λ found. length found.tree.items + 1 ≤ 2 ^ (length task.now.instance.now.candidates + 1)) }
    ensures allowed { IfOk result (λ found. AreWithin task.now.nodes (length found.tree.items)) }
    ensures spent { IfOk result (λ found. found.bound < found.cost → IsSpent task.now.nodes (length found.tree.items) ⊎ IsWithinGap task.now.gap found.bound found.cost) }
    ensures enough { IsEnough (2 ^ (length task.now.instance.now.candidates + 1)) task.now.nodes → IfOk result (λ found. IsWithinGap task.now.gap found.bound found.cost) }
    ensures whole { task.now.nodes ≡ None → IfOk result (λ found. IsWithinGap task.now.gap found.bound found.cost) }
{
    let begun = begin(alloc, task)?;
    let progress = fill_tree(rt, alloc, task, advice, begun)?;
    finish(alloc, task, progress)
}

// Evaluates the root and all nodes below it, with this heuristic.
fn fill_tree<'a, R: Threads + Sync, A: Advice + Drop>(
    rt: &'a R,
    alloc: Global,
    task: &'a SearchTask<'a>,
    advice: A,
    begun: TreeProgress,
) -> Result<TreeProgress, AllocError>
    requires going { IsGoing task.now begun }
    requires workers { (1 ≤ task.now.workers) × (task.now.workers ≤ 64) }
    ensures { IfOk result (IsDone task.now (root task.now.instance.now) begun) }
{
    let root = Branch::root(alloc, task.instance)?;
    let mut walker = Walker::new(rt, alloc, task, advice, begun)?;
    walker.node(&root)?;
    let walk = walker.walk;
    Ok(walk.progress)
}

// The state at the start: no cut, no line, and the cheaper of two incumbents: the instance's own, and the first nodes
// of the task.
fn begin(alloc: Global, task: &SearchTask) -> Result<TreeProgress, AllocError>
    requires lacks_none { IsHubSet task.now.instance.now task.now.instance.now.candidates }
    requires gap { task.now.gap ≤ most_gap }
    ensures going { IfOk result (IsGoing task.now) }
    ensures no_line { IfOk result (λ s. s.lines.items ≡ []) }
    ensures one_node { IfOk result (λ s. s.made ≡ 1) }
    ensures no_stop { IfOk result (λ s. s.stopped ≡ false) }
    ensures no_left { IfOk result (λ s. s.left ≡ None) }
{
    let Incumbent { hubs, cost } = first_incumbent(alloc, task)?;
    Ok(TreeProgress {
        cuts: KeptCuts::new(alloc),
        lines: Vec::new(alloc),
        hubs,
        cost,
        made: 1,
        stopped: false,
        left: None,
    })
}

// A hub set with its cost.
#[derive(Drop)]
struct Incumbent {
    hubs: HubSet,
    cost: u128,
}

// The hubs of the instance's first incumbent, or the first nodes of the task, where they are a wanted hub set and cost
// less.
fn first_incumbent(alloc: Global, task: &SearchTask) -> Result<Incumbent, AllocError>
    requires lacks_none { IsHubSet task.now.instance.now task.now.instance.now.candidates }
    ensures problem { IsProblem task.now.instance.now }
    ensures first { IfOk result (λ first. IsFirst task.now first.hubs first.cost) }
{
    let hubs = HubSet::of(alloc, first_hubs(task.instance))?;
    let cost = cost_of_set(task.instance, hubs.members());
    let own = Incumbent { hubs, cost };
    let told = wanted_set(alloc, task.instance, task.first)?;
    match told {
        None => Ok(own),
        Some(given) => Ok(cheaper(task, own, given)),
    }
}

// The incumbent, or the first nodes of the task where they cost less.
fn cheaper(task: &SearchTask, own: Incumbent, given: HubSet) -> Incumbent
    requires first { AreFirstHubs task.now.instance.now own.hubs }
    requires cost { IsSetCost task.now.instance.now own.hubs own.cost }
    requires given { IsWantedAs task.now.instance.now task.now.first.now given }
    ensures { IsFirst task.now result.hubs result.cost }
{
    let less = cost_of_set(task.instance, given.members());
    if less < own.cost {
        return Incumbent {
            hubs: given,
            cost: less,
        };
    }
    own
}

// The incumbent with its least routes, and the lower bound on the cost of every plan.
fn finish(alloc: Global, task: &SearchTask, progress: TreeProgress) -> Result<Found, AllocError>
    requires { IsOver task.now progress }
    ensures proved { IfOk result (IsProved task.now.instance.now) }
    ensures own { IfOk result AreRemade }
    ensures routes { let p = task.now.instance.now in
        IfOk result (λ found. AllZip (IsLeastRoute p found.plan.hubs) (commodities p.size) found.plan.routes) }
    ensures at_most { let p = task.now.instance.now in IfOk result (λ found. IsAtMostOf p (first_hubs p) found.cost) }
    ensures given { IfOk result (λ found. IsAtMostOf task.now.instance.now task.now.first.now found.cost) }
    ensures best { IfOk result (IsBestBound task.now.instance.now) }
    ensures within { IfOk result (λ found. found.bound ≤ found.cost) }
    ensures below { IfOk result (λ found. NoPlanBelow task.now.instance.now found.bound) }
    ensures most { IfOk result (λ found. length found.tree.items + 1 ≤ 2 ^ (length task.now.instance.now.candidates + 1)) }
    ensures allowed { IfOk result (λ found. AreWithin task.now.nodes (length found.tree.items)) }
    ensures spent { IfOk result (λ found. found.bound < found.cost
        → IsSpent task.now.nodes (length found.tree.items) ⊎ IsWithinGap task.now.gap found.bound found.cost) }
    ensures enough { IsEnough (2 ^ (length task.now.instance.now.candidates + 1)) task.now.nodes
        → IfOk result (λ found. IsWithinGap task.now.gap found.bound found.cost) }
    ensures whole { task.now.nodes ≡ None → IfOk result (λ found. IsWithinGap task.now.gap found.bound found.cost) }
{
    let assignment = assign(alloc, task.instance, &progress.hubs)?;
    let hubs = progress.hubs.members().to_vec(alloc)?;
    Ok(Found {
        cost: progress.cost,
        bound: target(&progress),
        plan: Plan::new(hubs, assignment.routes),
        cuts: progress.cuts,
        tree: progress.lines,
    })
}
