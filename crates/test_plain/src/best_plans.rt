//! An optimal plan, by enumeration of all sets of candidates.

ghost use Rattle.std.specs.Prelude.{◌≡◌, ℕ, ◌≤◌, [], ◌∷◌, ◌++◌, length, IfOk, IfSome};
ghost use Rattle.hub_spec.specs.Problem.{IsProblem};
ghost use Rattle.hub_spec.specs.Plans.{IsHubSet, HasWanted, IsPlan, IsSetCost, plan_cost};
ghost use Rattle.test_plain.specs.AllSets.{AreFirstHubs, IsBest, IsWantedPlan, IsNotDearer};
ghost use Rattle.test_plain.specs.AllSets.{NoneCheaper, NoneOfThemCheaper};

use crate::assignments::assign_to;
use crate::plans::is_hub_set;
use hub_model::{Instance, Plan, has_wanted, plan_cost};
use std::alloc::{AllocError, Global};

/// An optimal plan. `None` where no plan exists with the wanted number of hubs, or with any number where none is
/// wanted.
pub fn best_plan(alloc: Global, instance: &Instance) -> Result<Option<Plan>, AllocError>
    ensures { IfOk result (λ best. IsBest instance.now best) }
{
    let candidates = instance.candidates();
    let none: Vec<u32> = Vec::new(alloc);
    let best = best_with(alloc, instance, candidates, 0, &none, None)?;
    Ok(best)
}

/// The cheapest of this plan and all wanted plans whose hubs among the first `at` candidates are these.
fn best_with(
    alloc: Global,
    instance: &Instance,
    candidates: &[u32],
    at: usize,
    inside: &[u32],
    best: Option<Plan>,
) -> Result<Option<Plan>, AllocError>
    requires problem { IsProblem instance.now }
    requires candidates { candidates.now ≡ instance.now.candidates }
    requires at { at ≤ length instance.now.candidates }
    requires inside { AreFirstHubs instance.now.candidates at inside.now }
    requires best { IfSome best (IsWantedPlan instance.now) }
    ensures plan { IfOk result (λ found. IfSome found (IsWantedPlan instance.now)) }
    ensures not_dearer { IfOk result (λ found. IsNotDearer instance.now best found) }
    ensures least { IfOk result (λ found. NoneCheaper instance.now at inside.now found) }
{
    if at == candidates.len() {
        return cheaper(alloc, instance, inside, best);
    }
    let opened = with_last(alloc, inside, candidates[at])?;
    let best_opened = best_with(alloc, instance, candidates, at + 1, &opened, best)?;
    let best_closed = best_with(alloc, instance, candidates, at + 1, inside, best_opened)?;
    Ok(best_closed)
}

/// These nodes and one more at the end.
fn with_last(alloc: Global, nodes: &[u32], k: u32) -> Result<Vec<u32>, AllocError>
    ensures { IfOk result (λ more. more.items ≡ nodes.now ++ k ∷ []) }
{
    let mut more = nodes.to_vec(alloc)?;
    more.push(k)?;
    Ok(more)
}

/// The cheaper of this plan and the best one with just these hubs, if they are a hub set and have the wanted number.
fn cheaper(
    alloc: Global,
    instance: &Instance,
    hubs: &[u32],
    best: Option<Plan>,
) -> Result<Option<Plan>, AllocError>
    requires problem { IsProblem instance.now }
    requires hubs { AreFirstHubs instance.now.candidates (length instance.now.candidates) hubs.now }
    requires best { IfSome best (IsWantedPlan instance.now) }
    ensures plan { IfOk result (λ found. IfSome found (IsWantedPlan instance.now)) }
    ensures not_dearer { IfOk result (λ found. IsNotDearer instance.now best found) }
    ensures least { IfOk result (λ found. NoneOfThemCheaper instance.now hubs.now found) }
{
    if !has_wanted(instance, hubs) || !is_hub_set(instance, hubs) {
        return Ok(best);
    }
    let plan = plan_with(alloc, instance, hubs)?;
    let Some(best) = best else {
        return Ok(Some(plan));
    };
    if cost_of(instance, &plan) < cost_of(instance, &best) {
        return Ok(Some(plan));
    }
    Ok(Some(best))
}

/// What the plan costs.
fn cost_of(instance: &Instance, plan: &Plan) -> u128
    requires { IsPlan instance.now plan.now }
    ensures { result ≡ plan_cost instance.now plan.now }
{
    plan_cost(instance, plan.hubs(), plan.routes())
}

/// The plan with these hubs in which each commodity takes its least route.
fn plan_with(alloc: Global, instance: &Instance, hubs: &[u32]) -> Result<Plan, AllocError>
    requires set { IsHubSet instance.now hubs.now }
    requires wanted { HasWanted instance.now hubs.now }
    ensures plan { IfOk result (IsWantedPlan instance.now) }
    ensures cost { IfOk result (λ plan. IsSetCost instance.now hubs.now (plan_cost instance.now plan)) }
{
    let assignment = assign_to(alloc, instance, hubs)?;
    Ok(Plan::new(hubs.to_vec(alloc)?, assignment.routes))
}
