//! The whole search.

ghost use Rattle.std.specs.Prelude.{◌≡◌, ℕ, ◌≤◌, ◌<◌, ◌+◌, ◌^◌, [], length, IfOk};
ghost use Rattle.hub_spec.specs.Plans.{IsHubSet, plan_cost, NoPlanBelow};
ghost use Rattle.hub_spec.specs.Trees.{preorder};
ghost use Rattle.search_spec.specs.States.{Grown};
ghost use Rattle.search_spec.specs.Steps.{searched};
ghost use Rattle.search_spec.specs.Costs.{IsAtMostOf, first_hubs};
ghost use Rattle.search_spec.specs.Findings.{certificate_of, AreWithin, IsSpent, IsEnough};
ghost use Rattle.cut_pool.specs.Findings.{lines_of, proof_of, AreRemade, IsProved};
ghost use Rattle.search_steps.specs.Progressing.{state_of, IsGoing};
ghost use Rattle.branch_tree.specs.Findings.{found_by};
ghost use Rattle.search_steps.specs.Findings.{IsFound};
ghost use Rattle.search_steps.specs.Kinds.{minimal, parts_for};

use crate::walk::RuleWalk;
use cut_pool::Found;
use hub_model::{Branch, Instance};
use search_core::Task;
use search_steps::{Progress, Rule, Separator, begin, finish};
use std::alloc::{AllocError, Global};

/// Branch and bound by the rule. The finding has a wanted plan with its cost, a lower bound, and the cuts and the tree
/// that prove it.
///
/// `nodes` is the most nodes of the tree, the root included, or `None` for no limit. All candidates together must be
/// feasible for every commodity. The plan costs at most as much as all candidates as hubs, or, for exactly p hubs, as
/// the p least candidates. The search stops early only where two more nodes pass the limit; then the bound is below the
/// cost. Otherwise both are equal and the plan is optimal. The finding is the same for every separator of the same kind
/// of cuts.
///
/// `AllocError` means that memory ran out, or that a limit of certificates was reached: 67,108,864 cuts or 268,435,456
/// tree lines.
pub fn search<R: Rule, S: Separator>(
    alloc: Global,
    rule: &R,
    instance: &Instance,
    nodes: Option<u64>,
    separator: &mut S,
) -> Result<Found, AllocError>
    requires serves { R.serves rule.now instance.now }
    requires lacks_none { IsHubSet instance.now instance.now.candidates }
    requires ready { S.ready separator.old }
    ensures ready { S.ready separator.new }
    ensures found { IfOk result (IsFound instance.now (found_by S.kind instance.now nodes)) }
    ensures certificate { let g = found_by S.kind instance.now nodes in
        IfOk result (λ found. (v : ℕ) → proof_of v instance.now found g.tree ≡ certificate_of instance.now v g) }
    ensures proved { IfOk result (IsProved instance.now) }
    ensures remade { S.kind ≡ minimal → IfOk result AreRemade }
    ensures paid { IfOk result (λ found. found.cost ≡ plan_cost instance.now found.plan) }
    ensures below { IfOk result (λ found. NoPlanBelow instance.now found.bound) }
    ensures within { IfOk result (λ found. found.bound ≤ found.cost) }
    ensures at_most { IfOk result (λ found. IsAtMostOf instance.now (first_hubs instance.now) found.cost) }
    ensures most { IfOk result (λ found. length found.tree.items + 1 ≤ 2 ^ (length instance.now.candidates + 1)) }
    ensures allowed { IfOk result (λ found. AreWithin nodes (length found.tree.items)) }
    ensures spent { IfOk result (λ found. found.bound < found.cost → IsSpent nodes (length found.tree.items)) }
    ensures enough { IsEnough (2 ^ (length instance.now.candidates + 1)) nodes → IfOk result (λ found. found.bound ≡ found.cost) }
{
    let task = Task { instance, nodes };
    let progress = begin(alloc, &task, separator)?;
    search_on(alloc, rule, &task, separator, progress)
}

/// What the search finds that goes on from here, with the root still to be handled.
pub(crate) fn search_on<R: Rule, S: Separator>(
    alloc: Global,
    rule: &R,
    task: &Task,
    separator: &mut S,
    progress: Progress,
) -> Result<Found, AllocError>
    requires serves { R.serves rule.now task.now.instance.now }
    requires ready { S.ready separator.old }
    requires going { IsGoing task.now progress }
    requires no_line { lines_of progress.lines.items ≡ [] }
    ensures ready { S.ready separator.new }
    ensures found { let p = task.now.instance.now in
        IfOk result (IsFound p (searched p (parts_for S.kind p) task.now.nodes (state_of p progress))) }
{
    let mut walk = RuleWalk {
        alloc,
        task,
        rule,
        progress,
    };
    let root = Branch::root(alloc, task.instance)?;
    let depth = root.free().len() as u32 + 1;
    walk.node(depth, separator, &root, &[])?;
    finish(alloc, task, walk.progress)
}
