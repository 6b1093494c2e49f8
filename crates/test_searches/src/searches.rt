//! The findings of searches.

ghost use Rattle.std.specs.Prelude.{IfOk, IfSome};
ghost use Rattle.hub_spec.specs.Plans.{IsHubSet};
ghost use Rattle.hub_spec.specs.Cuts.{IsCut};
ghost use Rattle.hub_spec.specs.Ranges.{IsCutInRange};
ghost use Rattle.core_cuts.specs.Theorems.{IsServing};
ghost use Rattle.search_spec.specs.Again.{IsStartOf};
ghost use Rattle.search_core.specs.Starts.{start_seen};
ghost use Rattle.cut_pool.specs.Findings.{AreRemade, IsProved};

use crate::steps::set_of;
use crate::texts::tree_text;
use branch_tree::{search, search_from};
use core_cuts::core_cut;
use cut_model::{MarkedCut, StatedCut};
use cut_pool::{Found, KeptCut};
use hub_model::{HubSet, Instance};
use search_core::Start;
use search_steps::{Plain, Solo};
use std::alloc::{AllocError, Global};
use test_lines::list;
use test_plain::{best_plan, is_hub_set, set_cost};

/// What the search of the instance finds with the most nodes that the line names.
pub(crate) fn found_of(alloc: Global, instance: &Instance, line: &str) -> Result<Found, AllocError>
    ensures proved { IfOk result (IsProved instance.now) }
    ensures remade { IfOk result AreRemade }
{
    // The instances of the lines have a network, and want no number of hubs.
    if instance.wanted().is_some() || !is_hub_set(instance, instance.candidates()) {
        return Err(AllocError);
    }
    let nodes = most_nodes(alloc, line)?;
    let mut separator = Solo::new(alloc, instance)?;
    search(alloc, &Plain, instance, nodes, &mut separator)
}

// The number behind the first word, or none for `all`.
fn most_nodes(alloc: Global, line: &str) -> Result<Option<u64>, AllocError> {
    let nodes = list::<u32>(alloc, line, " ")?;
    if nodes.is_empty() {
        return Ok(None);
    }
    Ok(Some(nodes[0] as u64))
}

/// The cost, the bound, the hubs, the number of cuts and the tree.
pub(crate) fn search_told(
    alloc: Global,
    instance: &Instance,
    line: &str,
) -> Result<String, AllocError> {
    let found = found_of(alloc, instance, line)?;
    let cost = found.cost;
    let bound = found.bound;
    let hubs = found.plan.hubs();
    let cuts = found.cuts.len();
    let tree = tree_text(alloc, &found.tree)?;
    format!(in alloc; "cost {cost} bound {bound} hubs {hubs:?} cuts {cuts}\n{tree}")
}

/// What the search finds that begins again with the line's hubs and the Pareto-optimal cut of these: the cost, the
/// bound, the hubs, and how many of its cuts were imported. Also what an optimal plan costs.
pub(crate) fn again_told(
    alloc: Global,
    instance: &Instance,
    line: &str,
) -> Result<String, AllocError> {
    let hubs = list::<u32>(alloc, line, "hubs")?;
    let Some(set) = set_of(alloc, instance, &hubs)? else {
        return String::from_str(alloc, "no hub set");
    };
    let Some(start) = start_of(alloc, instance, &set)? else {
        return String::from_str(alloc, "no core cut");
    };
    let found = found_again(alloc, instance, line, start)?;
    let cost = found.cost;
    let bound = found.bound;
    let hubs = found.plan.hubs();
    let given = given_cuts(&found);
    let best = best_cost(alloc, instance)?;
    format!(in alloc; "cost {cost} bound {bound} hubs {hubs:?} given {given} best {best:?}")
}

// The set, and its Pareto-optimal cut as one that is given, if it has one.
fn start_of(alloc: Global, instance: &Instance, set: &HubSet) -> Result<Option<Start>, AllocError>
    requires { IsHubSet instance.now set.now }
    ensures { IfOk result (λ found. IfSome found (λ start. IsStartOf instance.now (start_seen start))) }
{
    match served(alloc, instance, set)? {
        Some(found) => Ok(Some(start_with(alloc, instance, set, found.cut)?)),
        None => Ok(None),
    }
}

// The Pareto-optimal Benders cut from the hub set, within the ranges of a certificate.
fn served(alloc: Global, instance: &Instance, set: &HubSet) -> Result<Option<MarkedCut>, AllocError>
    requires { IsHubSet instance.now set.now }
    ensures { IfOk result (λ found. IfSome found (IsServing instance.now set.now)) }
{
    let _ = instance.size();
    match core_cut(alloc, instance, set)? {
        Some(found) => Ok(Some(found)),
        None => Ok(None),
    }
}

fn start_with(
    alloc: Global,
    instance: &Instance,
    set: &HubSet,
    cut: StatedCut,
) -> Result<Start, AllocError>
    requires set { IsHubSet instance.now set.now }
    requires cut { IsCut instance.now cut }
    requires in_range { IsCutInRange instance.now.size cut }
    ensures { IfOk result (λ start. IsStartOf instance.now (start_seen start)) }
{
    let _ = instance.size();
    let mut cuts = Vec::new(alloc);
    cuts.push(cut)?;
    let hubs = set.members().to_vec(alloc)?;
    Ok(Start { cuts, hubs })
}

fn found_again(
    alloc: Global,
    instance: &Instance,
    line: &str,
    start: Start,
) -> Result<Found, AllocError>
    requires { IsStartOf instance.now (start_seen start) }
{
    if instance.wanted().is_some() || !is_hub_set(instance, instance.candidates()) {
        return Err(AllocError);
    }
    let nodes = most_nodes(alloc, line)?;
    let mut separator = Solo::new(alloc, instance)?;
    search_from(alloc, &Plain, instance, nodes, &mut separator, start)
}

// How many of the cuts were given.
fn given_cuts(found: &Found) -> u32 {
    let mut given = 0u32;
    for c in 1..=found.cuts.len() {
        if let KeptCut::Given(_) = found.cuts.cut(c) {
            given = given.saturating_add(1);
        }
    }
    given
}

// What an optimal plan costs, of all plans.
fn best_cost(alloc: Global, instance: &Instance) -> Result<Option<u128>, AllocError> {
    let Some(plan) = best_plan(alloc, instance)? else {
        return Ok(None);
    };
    Ok(Some(set_cost_of(instance, plan.hubs())))
}

fn set_cost_of(instance: &Instance, hubs: &[u32]) -> u128 {
    if !is_hub_set(instance, hubs) {
        return 0;
    }
    set_cost(instance, hubs)
}
