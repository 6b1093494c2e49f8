//! The results of the reference program for an instance.

ghost use Rattle.std.specs.Prelude.{◌<◌};
ghost use Rattle.hub_spec.specs.Plans.{IsHubSet};

use hub_model::{HubSet, Instance, least_route, outside, plan_cost};
use std::alloc::{AllocError, Global};
use test_lines::{first, list, node};
use test_plain::{assign, best_plan, is_hub_set, is_plan, minimal_dual, set_cost, set_cut_rows};

/// The cost of an optimal plan, by its routes, if there is a plan.
pub fn best(alloc: Global, instance: &Instance) -> Result<String, AllocError> {
    let Some(plan) = best_plan(alloc, instance)? else {
        return String::from_str(alloc, "none");
    };
    if !is_plan(instance, &plan) {
        return String::from_str(alloc, "no plan");
    }
    let cost = plan_cost(instance, plan.hubs(), plan.routes());
    format!(in alloc; "cost {cost}")
}

/// The hubs and routes of a copy of an optimal plan.
pub fn plan(alloc: Global, instance: &Instance) -> Result<String, AllocError> {
    let Some(best) = best_plan(alloc, instance)? else {
        return String::from_str(alloc, "none");
    };
    let plan = best.clone()?;
    let hubs = plan.hubs();
    let routes = plan.routes();
    format!(in alloc; "hubs {hubs:?} routes {routes:?}")
}

/// The result of the line for its hubs.
pub fn with_hubs(alloc: Global, instance: &Instance, line: &str) -> Result<String, AllocError> {
    let hubs = list::<u32>(alloc, line, " hubs ")?;
    if !is_hub_set(instance, &hubs) {
        return String::from_str(alloc, "no hub set");
    }
    of_hubs(alloc, instance, &hubs, line)
}

fn of_hubs(
    alloc: Global,
    instance: &Instance,
    hubs: &[u32],
    line: &str,
) -> Result<String, AllocError>
    requires { IsHubSet instance.now hubs.now }
{
    match first(line) {
        "opening" => opening(alloc, instance, hubs),
        "set_cost" => cost_of(alloc, instance, hubs),
        "least_route" => route(
            alloc,
            instance,
            hubs,
            node(line, " from "),
            node(line, " to "),
        ),
        _ => with_set(alloc, instance, hubs, line),
    }
}

/// What it costs to open the hubs.
fn opening(alloc: Global, instance: &Instance, hubs: &[u32]) -> Result<String, AllocError>
    requires { IsHubSet instance.now hubs.now }
{
    let cost = instance.opening_cost(hubs);
    format!(in alloc; "{cost}")
}

fn cost_of(alloc: Global, instance: &Instance, hubs: &[u32]) -> Result<String, AllocError>
    requires { IsHubSet instance.now hubs.now }
{
    let cost = set_cost(instance, hubs);
    format!(in alloc; "{cost}")
}

fn route(
    alloc: Global,
    instance: &Instance,
    hubs: &[u32],
    i: u32,
    j: u32,
) -> Result<String, AllocError>
    requires { IsHubSet instance.now hubs.now }
{
    if i >= instance.size() || j >= instance.size() {
        return String::from_str(alloc, "no node");
    }
    let route = least_route(instance, hubs, i, j);
    format!(in alloc; "{route:?}")
}

/// The answer to the line, for the set of these hubs.
fn with_set(
    alloc: Global,
    instance: &Instance,
    hubs: &[u32],
    line: &str,
) -> Result<String, AllocError>
    requires { IsHubSet instance.now hubs.now }
{
    let set = HubSet::of(alloc, hubs)?;
    of_set(alloc, instance, &set, line)
}

fn of_set(
    alloc: Global,
    instance: &Instance,
    set: &HubSet,
    line: &str,
) -> Result<String, AllocError>
    requires { IsHubSet instance.now set.now }
{
    match first(line) {
        "copy" => copied(alloc, set),
        "assign" => assigned(alloc, instance, set),
        "dual" => dual(
            alloc,
            instance,
            set,
            node(line, " from "),
            node(line, " to "),
        ),
        _ => cut_rows(alloc, instance, set),
    }
}

fn copied(alloc: Global, set: &HubSet) -> Result<String, AllocError> {
    let copy = set.copy(alloc)?;
    let members = copy.members();
    format!(in alloc; "{members:?}")
}

fn assigned(alloc: Global, instance: &Instance, set: &HubSet) -> Result<String, AllocError>
    requires { IsHubSet instance.now set.now }
{
    let assignment = assign(alloc, instance, set)?;
    format!(in alloc; "{assignment:?}")
}

/// The candidates outside the set, in order, and the minimal dual over them.
fn dual(
    alloc: Global,
    instance: &Instance,
    set: &HubSet,
    i: u32,
    j: u32,
) -> Result<String, AllocError>
    requires { IsHubSet instance.now set.now }
{
    if i >= instance.size() || j >= instance.size() {
        return String::from_str(alloc, "no node");
    }
    let order = outside(alloc, instance, set)?;
    let dual = minimal_dual(alloc, instance, i, j, set, &order)?;
    format!(in alloc; "order {order:?} {dual:?}")
}

/// The minimal duals of all commodities.
fn cut_rows(alloc: Global, instance: &Instance, set: &HubSet) -> Result<String, AllocError>
    requires { IsHubSet instance.now set.now }
{
    let order = outside(alloc, instance, set)?;
    let rows = set_cut_rows(alloc, instance, set, &order)?;
    format!(in alloc; "{rows:?}")
}
