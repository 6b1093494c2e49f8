//! The search with a warm start: imported cuts, and hubs that are tried first.

ghost use Rattle.std.specs.Prelude.{◌≡◌, ℕ, ◌≤◌, ◌<◌, ◌+◌, ◌^◌, [], ◌∷◌, length, All, IsTrue, IfOk, OnOk};
ghost use Rattle.std.specs.List.Sorted.{IsStrictlyIncreasing};
ghost use Rattle.hub_spec.specs.Plans.{IsHubSet, plan_cost, NoPlanBelow};
ghost use Rattle.hub_spec.specs.Cuts.{IsCut};
ghost use Rattle.hub_spec.specs.Ranges.{IsCutInRange};
ghost use Rattle.search_spec.specs.Again.{IsStartOf, with_given, has_wanted, is_tried, tried, begun_again};
ghost use Rattle.search_spec.specs.Costs.{IsAtMostBoth};
ghost use Rattle.search_spec.specs.Findings.{certificate_of, AreWithin, IsSpent, IsEnough};
ghost use Rattle.search_core.specs.Starts.{start_seen};
ghost use Rattle.cut_pool.specs.Entries.{Lacks};
ghost use Rattle.search_steps.specs.Kinds.{parts_for};
ghost use Rattle.cut_pool.specs.Findings.{lines_of, proof_of, IsProved};
ghost use Rattle.search_steps.specs.Progressing.{state_of, IsGoing, IsAt};
ghost use Rattle.branch_tree.specs.Findings.{found_again};
ghost use Rattle.search_steps.specs.Findings.{IsFound};

use crate::searching::search_on;
use assign_sub::lacking;
use cut_model::StatedCut;
use cut_pool::Found;
use hub_model::{HubSet, Instance, MOST_CUTS, are_among, outside};
use search_core::{Start, Task};
use search_steps::{Progress, Rule, Separator, begin, number_of, separate};
use std::alloc::{AllocError, Global};

/// Branch and bound by the rule with a warm start. The finding has a wanted plan with its cost, a lower bound, and the
/// cuts and the tree that prove it.
///
/// The imported cuts are numbered after those with which the rule begins, in their order. The hubs are separated next,
/// if they are a wanted hub set without a cut. They are the first incumbent where they cost less than the rule's. So
/// the plan costs at most what either of the two costs.
///
/// `nodes` is the most nodes of the tree, the root included, or `None` for no limit. All candidates together must be
/// feasible for every commodity. The search stops early only where two more nodes pass the limit; then the bound is
/// below the cost. Otherwise both are equal and the plan is optimal. The finding is the same for every separator of the
/// same kind of cuts.
///
/// `AllocError` means that memory ran out, or that a limit of certificates was reached: 67,108,864 cuts or 268,435,456
/// tree lines.
pub fn search_from<R: Rule, S: Separator>(
    alloc: Global,
    rule: &R,
    instance: &Instance,
    nodes: Option<u64>,
    separator: &mut S,
    start: Start,
) -> Result<Found, AllocError>
    requires serves { R.serves rule.now instance.now }
    requires lacks_none { IsHubSet instance.now instance.now.candidates }
    requires ready { S.ready separator.old }
    requires start { IsStartOf instance.now (start_seen start) }
    ensures ready { S.ready separator.new }
    ensures found { IfOk result (IsFound instance.now (found_again S.kind instance.now nodes (start_seen start))) }
    ensures certificate { let g = found_again S.kind instance.now nodes (start_seen start) in
        IfOk result (λ found. (v : ℕ) → proof_of v instance.now found g.tree ≡ certificate_of instance.now v g) }
    ensures proved { IfOk result (IsProved instance.now) }
    ensures paid { IfOk result (λ found. found.cost ≡ plan_cost instance.now found.plan) }
    ensures below { IfOk result (λ found. NoPlanBelow instance.now found.bound) }
    ensures within { IfOk result (λ found. found.bound ≤ found.cost) }
    ensures at_most { IfOk result (λ found. IsAtMostBoth instance.now (start_seen start) found.cost) }
    ensures most { IfOk result (λ found. length found.tree.items + 1 ≤ 2 ^ (length instance.now.candidates + 1)) }
    ensures allowed { IfOk result (λ found. AreWithin nodes (length found.tree.items)) }
    ensures spent { IfOk result (λ found. found.bound < found.cost → IsSpent nodes (length found.tree.items)) }
    ensures enough { IsEnough (2 ^ (length instance.now.candidates + 1)) nodes → IfOk result (λ found. found.bound ≡ found.cost) }
{
    let task = Task { instance, nodes };
    let progress = begin_from(alloc, &task, separator, start)?;
    search_on(alloc, rule, &task, separator, progress)
}

// As the rule begins, then the imported cuts, then the hubs.
fn begin_from<S: Separator>(
    alloc: Global,
    task: &Task,
    separator: &mut S,
    start: Start,
) -> Result<Progress, AllocError>
    requires lacks_none { IsHubSet task.now.instance.now task.now.instance.now.candidates }
    requires ready { S.ready separator.old }
    requires start { IsStartOf task.now.instance.now (start_seen start) }
    ensures ready { S.ready separator.new }
    ensures begun { let p = task.now.instance.now in
        IfOk result (λ s. state_of p s ≡ begun_again p (parts_for S.kind p) (start_seen start)) }
    ensures no_line { IfOk result (λ s. lines_of s.lines.items ≡ []) }
    ensures going { IfOk result (IsGoing task.now) }
{
    let Start { cuts, hubs } = start;
    let mut progress = begin(alloc, task, separator)?;
    give(alloc, task, &mut progress, cuts)?;
    try_hubs(alloc, task, &mut progress, separator, &hubs)?;
    Ok(progress)
}

// Adds the imported cuts, one by one.
fn give(
    alloc: Global,
    task: &Task,
    progress: &mut Progress,
    cuts: Vec<StatedCut>,
) -> Result<(), AllocError>
    requires going { IsGoing task.now progress.old }
    requires cuts { All (IsCut task.now.instance.now) cuts.items }
    requires in_range { All (IsCutInRange task.now.instance.now.size) cuts.items }
    ensures at { let p = task.now.instance.now in
        OnOk result (IsAt task.now progress.old progress.new (with_given cuts.items (state_of p progress.old))) }
{
    for cut in cuts {
        give_one(alloc, task, progress, cut)?;
    }
    Ok(())
}

// Adds an imported cut, unless there are as many cuts as a certificate can have.
fn give_one(
    alloc: Global,
    task: &Task,
    progress: &mut Progress,
    cut: StatedCut,
) -> Result<(), AllocError>
    requires going { IsGoing task.now progress.old }
    requires cut { IsCut task.now.instance.now cut }
    requires in_range { IsCutInRange task.now.instance.now.size cut }
    ensures at { let p = task.now.instance.now in
        OnOk result (IsAt task.now progress.old progress.new (with_given (cut ∷ []) (state_of p progress.old))) }
{
    if progress.pool.len() >= MOST_CUTS as u64 {
        return Err(AllocError);
    }
    let size = task.instance.size();
    if progress.pool.add_given(alloc, size, cut).is_err() {
        return Err(AllocError);
    }
    Ok(())
}

// Separates the hubs over the ascending order of the other candidates, if they are to be tried. They become the
// incumbent if they cost less.
fn try_hubs<S: Separator>(
    alloc: Global,
    task: &Task,
    progress: &mut Progress,
    separator: &mut S,
    hubs: &[u32],
) -> Result<(), AllocError>
    requires ready { S.ready separator.old }
    requires going { IsGoing task.now progress.old }
    requires some_hub { 1 ≤ length hubs.now }
    requires ascend { IsStrictlyIncreasing hubs.now }
    ensures ready { S.ready separator.new }
    ensures at { let p = task.now.instance.now in
        OnOk result (IsAt task.now progress.old progress.new (tried p (parts_for S.kind p) hubs.now (state_of p progress.old))) }
{
    let set = HubSet::of(alloc, hubs)?;
    if !is_tried(task, progress, &set) {
        return Ok(());
    }
    let order = outside(alloc, task.instance, &set)?;
    separate(alloc, task, progress, separator, set, order)
}

// Tells whether the set is to be tried. Its hubs must be candidates, be feasible for each commodity and have the wanted
// number, and it must have no cut yet.
fn is_tried(task: &Task, progress: &Progress, set: &HubSet) -> bool
    ensures is { let p = task.now.instance.now in result ≡ is_tried p (state_of p progress.now) set.now }
    ensures first_time { IsTrue result → Lacks progress.now.pool.entries set.now }
{
    let instance = task.instance;
    if !are_among(instance.candidates(), set.members()) {
        return false;
    }
    if lacking(instance, set).is_some() {
        return false;
    }
    has_wanted(instance, set) && number_of(progress, set).is_none()
}

// Tells whether the set has as many hubs as are wanted, if a number is.
fn has_wanted(instance: &Instance, set: &HubSet) -> bool
    ensures { result ≡ has_wanted instance.now.wanted set.now }
{
    match instance.wanted() {
        None => true,
        Some(wanted) => set.members().len() == wanted as usize,
    }
}
