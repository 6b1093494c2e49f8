//! Results for a hub set: feasibility, assignment (`assign_sub`), cuts and duals.

ghost use Rattle.hub_spec.specs.Plans.{IsHubSet};
ghost use Rattle.hub_spec.specs.Separation.{IsOrder};

use super::{cores, cuts, edges, origins};
use assign_sub::{assign, set_cost};
use hub_model::{HubSet, Instance, is_candidate_set, outside};
use pareto_cuts::order_of;
use std::alloc::{AllocError, Global};
use test_lines::{first, list, node};
use test_plain::is_hub_set;

/// The result of the line for its hubs.
pub fn asked(alloc: Global, instance: &Instance, line: &str) -> Result<String, AllocError> {
    let hubs = list::<u32>(alloc, line, " hubs ")?;
    if first(line) == "lacking" {
        return lacked(alloc, instance, &hubs);
    }
    if !is_hub_set(instance, &hubs) {
        return String::from_str(alloc, "no hub set");
    }
    let set = HubSet::of(alloc, &hubs)?;
    of_set(alloc, instance, &set, line)
}

/// The first commodity that the hubs lack, by each of three calls.
fn lacked(alloc: Global, instance: &Instance, hubs: &[u32]) -> Result<String, AllocError> {
    if !is_candidate_set(instance, hubs) {
        return String::from_str(alloc, "no candidates");
    }
    let plain = test_plain::lacking(instance, hubs);
    let fast = leg_duals::lacking(instance, hubs);
    let set = HubSet::of(alloc, hubs)?;
    let of_set = assign_sub::lacking(instance, &set);
    format!(in alloc; "{plain:?} {fast:?} {of_set:?}")
}

fn of_set(
    alloc: Global,
    instance: &Instance,
    set: &HubSet,
    line: &str,
) -> Result<String, AllocError>
    requires { IsHubSet instance.now set.now }
{
    match first(line) {
        "assign" => assigned(alloc, instance, set),
        "order" => ordered(alloc, instance, set, line),
        "core_cut" => cores::cut(alloc, instance, set),
        _ => over_order(alloc, instance, set, line),
    }
}

/// What the set costs, by both calls, and the routes of all commodities.
fn assigned(alloc: Global, instance: &Instance, set: &HubSet) -> Result<String, AllocError>
    requires { IsHubSet instance.now set.now }
{
    let assignment = assign(alloc, instance, set)?;
    let cost = set_cost(instance, set);
    let cost_again = assignment.cost;
    let routes = assignment.routes;
    format!(in alloc; "{cost} {cost_again} {routes:?}")
}

/// The candidates outside the set by the line's point.
fn ordered(
    alloc: Global,
    instance: &Instance,
    set: &HubSet,
    line: &str,
) -> Result<String, AllocError> {
    let point = list::<i128>(alloc, line, " point ")?;
    if point.len() != instance.size() as usize {
        return String::from_str(alloc, "no point");
    }
    let order = order_of(alloc, instance, &point, set)?;
    format!(in alloc; "{order:?}")
}

/// The answer to the line, for the set and the ascending order of the candidates outside it.
fn over_order(
    alloc: Global,
    instance: &Instance,
    set: &HubSet,
    line: &str,
) -> Result<String, AllocError>
    requires { IsHubSet instance.now set.now }
{
    let order = outside(alloc, instance, set)?;
    of_order(alloc, instance, set, &order, line)
}

fn of_order(
    alloc: Global,
    instance: &Instance,
    set: &HubSet,
    order: &[u32],
    line: &str,
) -> Result<String, AllocError>
    requires set { IsHubSet instance.now set.now }
    requires order { IsOrder instance.now set.now order.now }
{
    let i = node(line, " from ");
    let j = node(line, " to ");
    if i >= instance.size() || j >= instance.size() {
        return String::from_str(alloc, "no commodity");
    }
    match first(line) {
        "cut" => cuts::cut(alloc, instance, set, order),
        "core_dual" => cores::dual(alloc, instance, set, i, j),
        "row_dual" => edges::dual(alloc, instance, set, order, i, j),
        "strong_dual" => cuts::dual(alloc, instance, set, order, i, j),
        _ => origins::separation(alloc, instance, set, order, i, j),
    }
}
