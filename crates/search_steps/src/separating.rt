//! The separation of a hub set, whose cut becomes the next of the pool.

ghost use Rattle.std.specs.Prelude.{◌≡◌, ◌≤◌, false, is_some, IfSome, IfOk, OnOk};
ghost use Rattle.hub_spec.specs.Problem.{Problem, IsProblem};
ghost use Rattle.hub_spec.specs.Plans.{IsHubSet};
ghost use Rattle.hub_spec.specs.Separation.{IsOrder};
ghost use Rattle.cut_pool.specs.Entries.{entry_of, core_entry, Lacks};
ghost use Rattle.search_spec.specs.States.{number_in_pool};
ghost use Rattle.search_spec.specs.Steps.{separated};
ghost use Rattle.search_steps.specs.Pools.{IsSumsOf};
ghost use Rattle.search_steps.specs.Kinds.{CutKind, parts_for};
ghost use Rattle.search_steps.specs.Entered.{entry_with, hubs_in, IsEntryOf};
ghost use Rattle.search_steps.specs.Progressing.{state_of, IsGoing, IsAt};
ghost use Rattle.search_steps.specs.Separating.{HasCut, IsAdded};

use crate::progress::Progress;
use crate::{Separated, Separator};
use assign_sub::cost_of_set;
use cut_model::MarkedCut;
use cut_pool::{CutSums, Pool};
use hub_model::{HubSet, Instance, MOST_CUTS};
use search_core::Task;
use std::alloc::{AllocError, Global};

/// The number of the set's cut in the pool, counted from 1, if the set has been separated.
pub fn number_of(progress: &Progress, set: &HubSet) -> Option<u64>
    ensures number { (p : Problem) → result ≡ number_in_pool (state_of p progress.now) set.now }
    ensures least { IfSome result (λ c. 1 ≤ c) }
    ensures none { is_some result ≡ false → Lacks progress.now.pool.entries set.now }
{
    progress.pool.find(set)
}

/// Computes the Benders cut from this hub set over this order of the other candidates. The cut becomes the next of the
/// pool. Returns what the set costs, in 10^-12.
pub(crate) fn add_cut<S: Separator>(
    alloc: Global,
    instance: &Instance,
    pool: &mut Pool,
    separator: &mut S,
    set: HubSet,
    order: Vec<u32>,
) -> Result<u128, AllocError>
    requires ready { S.ready separator.old }
    requires problem { IsProblem instance.now }
    requires set { IsHubSet instance.now set }
    requires order { IsOrder instance.now set order.items }
    requires first_time { Lacks pool.old.entries set }
    ensures ready { S.ready separator.new }
    ensures cut { IfOk result (HasCut S.kind instance.now pool.old.entries pool.new.entries set order.items) }
{
    pool.reserve(1)?;
    let cut = separator.separate(alloc, instance, set, &order)?;
    add(alloc, instance, pool, cut, order)
}

// Adds the Benders cut that was separated from a hub set over this order. The cut becomes the next of the pool. Returns
// what the set costs, in 10^-12.
fn add(
    alloc: Global,
    instance: &Instance,
    pool: &mut Pool,
    cut: Separated,
    order: Vec<u32>,
) -> Result<u128, AllocError>
    requires problem { IsProblem instance.now }
    requires set { IsHubSet instance.now (hubs_in cut) }
    requires sums { let p = instance.now in IsSumsOf p (entry_with p.size cut order.items) }
    requires first_time { Lacks pool.old.entries (hubs_in cut) }
    ensures { let p = instance.now in
        IfOk result (IsAdded p pool.old.entries pool.new.entries (entry_with p.size cut order.items) (hubs_in cut)) }
{
    match cut {
        Separated::Sums(sums) => add_sums(instance, pool, sums, order),
        Separated::Core(cut) => add_core(alloc, instance, pool, cut),
    }
}

// The same for the sums of a cut from minimal duals: its set costs the cut's total and the fixed costs of its hubs.
fn add_sums(
    instance: &Instance,
    pool: &mut Pool,
    sums: CutSums,
    order: Vec<u32>,
) -> Result<u128, AllocError>
    requires problem { IsProblem instance.now }
    requires set { IsHubSet instance.now sums.hubs }
    requires sums { IsSumsOf instance.now (entry_of sums order.items) }
    requires first_time { Lacks pool.old.entries sums.hubs }
    ensures { IfOk result (IsAdded instance.now pool.old.entries pool.new.entries (entry_of sums order.items) sums.hubs) }
{
    let opening = instance.opening_cost(sums.set().members());
    let cost = sums.total() + opening;
    if pool.add(sums, order).is_err() {
        return Err(AllocError);
    }
    Ok(cost)
}

// The same for a Pareto-optimal cut: its set costs its least routes and the fixed costs of its hubs.
fn add_core(
    alloc: Global,
    instance: &Instance,
    pool: &mut Pool,
    cut: MarkedCut,
) -> Result<u128, AllocError>
    requires problem { IsProblem instance.now }
    requires set { IsHubSet instance.now cut.mark.hubs }
    requires sums { let p = instance.now in IsSumsOf p (core_entry p.size cut) }
    requires first_time { Lacks pool.old.entries cut.mark.hubs }
    ensures { let p = instance.now in
        IfOk result (IsAdded p pool.old.entries pool.new.entries (core_entry p.size cut) cut.mark.hubs) }
{
    let cost = cost_of_set(instance, cut.mark.hubs());
    if pool.add_core(alloc, instance.size(), cut).is_err() {
        return Err(AllocError);
    }
    Ok(cost)
}

/// Separates the set over this order of the other candidates. The set becomes the incumbent if it costs less.
///
/// It fails where memory runs out, or where there are as many cuts as a certificate can have.
pub fn separate<S: Separator>(
    alloc: Global,
    task: &Task,
    progress: &mut Progress,
    separator: &mut S,
    set: HubSet,
    order: Vec<u32>,
) -> Result<(), AllocError>
    requires ready { S.ready separator.old }
    requires going { IsGoing task.now progress.old }
    requires set { IsHubSet task.now.instance.now set }
    requires order { IsOrder task.now.instance.now set order.items }
    requires first_time { Lacks progress.old.pool.entries set }
    ensures ready { S.ready separator.new }
    ensures at { let p = task.now.instance.now in
        OnOk result (IsAt task.now progress.old progress.new
        (separated (parts_for S.kind p) set order.items (state_of p progress.old))) }
{
    let cut = separator.separate(alloc, task.instance, set, &order)?;
    keep(alloc, task, progress, cut, order)
}

/// Stores the Benders cut that was separated from a hub set over this order of the other candidates: the second half of
/// `separate`. The set becomes the incumbent if it costs less.
///
/// It fails where memory runs out, or where there are as many cuts as a certificate can have.
pub fn keep(
    alloc: Global,
    task: &Task,
    progress: &mut Progress,
    cut: Separated,
    order: Vec<u32>,
) -> Result<(), AllocError>
    requires going { IsGoing task.now progress.old }
    requires set { IsHubSet task.now.instance.now (hubs_in cut) }
    requires sums { let p = task.now.instance.now in IsSumsOf p (entry_with p.size cut order.items) }
    requires first_time { Lacks progress.old.pool.entries (hubs_in cut) }
    ensures { let p = task.now.instance.now in
        (kind : CutKind) → IsEntryOf kind p (hubs_in cut) order.items (entry_with p.size cut order.items)
        → OnOk result (IsAt task.now progress.old progress.new
        (separated (parts_for kind p) (hubs_in cut) order.items (state_of p progress.old))) }
{
    if progress.pool.len() >= MOST_CUTS as u64 {
        return Err(AllocError);
    }
    let hubs = HubSet::of(alloc, cut.hubs())?;
    let cost = add(alloc, task.instance, &mut progress.pool, cut, order)?;
    if cost < progress.cost {
        progress.hubs = hubs;
        progress.cost = cost;
    }
    Ok(())
}
