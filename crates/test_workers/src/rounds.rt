//! Rounds of a search by two workers, and the evaluations of nodes.

ghost use Rattle.std.specs.Prelude.{◌≡◌, ◌≤◌, ◌^◌, None, List, length, All, IfOk};
ghost use Rattle.hub_spec.specs.Problem.{IsProblem};
ghost use Rattle.hub_spec.specs.Plans.{IsHubSet};
ghost use Rattle.hub_spec.specs.Trees.{IsBranch};
ghost use Rattle.cut_pool.specs.Entries.{Entry};
ghost use Rattle.search_steps.specs.Pools.{IsPoolOf};
ghost use Rattle.search_steps.specs.Progressing.{IsGoing};
ghost use Rattle.node_rounds.specs.Outcomes.{IsPendingOf};

use crate::gates::{Meeting, Watch};
use crate::instances::{first_alone, limited_triangle};
use cut_pool::Pool;
use hub_io::{Gate, OpenGate};
use hub_make::made_instance;
use hub_model::{Branch, HubSet, Instance, outside};
use leaf_bound::Side;
use node_rounds::{Outcome, Pending, search_rounds, turn, turns};
use search_core::Task;
use search_steps::{Progress, Solo, begin, number_of, separate};
use std::alloc::{AllocError, Global};
use std::test::Fail;
use std::thread::Threads;
use test_plain::is_hub_set;

// The rounds of the smallest made-up instance have one node, one, one and two. The last two are those with both hubs
// and with the first alone, and each ends in a leaf. In the last round each worker waits at its node until the other
// has drawn one.
#[test]
fn two_workers_meet_in_the_fourth_round(rt: HostRuntime) -> Result<(), Fail> {
    let alloc = rt.alloc();
    let instance = made_instance(alloc, 1, 2)?;
    if instance.wanted().is_some() || !is_hub_set(&instance, instance.candidates()) {
        Err("another instance")?
    }
    let gate = Meeting::after(3);
    let mut separator = Solo::new(alloc, &instance)?;
    let found = search_rounds(&rt, alloc, &instance, None, &mut separator, 2, &gate)?;
    assert!(rt; gate.both_came(5) && found.bound == found.cost && found.tree.len() == 5);
    Ok(())
}

// Separates the set, which must not be separated yet.
fn separate_new(
    alloc: Global,
    task: &Task,
    progress: &mut Progress,
    separator: &mut Solo,
    set: HubSet,
) -> Result<(), Fail>
    requires going { IsGoing task.now progress.old }
    requires set { IsHubSet task.now.instance.now set }
    ensures { IfOk result (λ x. IsGoing task.now progress.new) }
{
    if number_of(progress, &set).is_none() {
        let order = outside(alloc, task.instance, &set)?;
        separate(alloc, task, progress, separator, set, order)?;
        Ok(())
    } else {
        Err("a set that is known")?
    }
}

// A search that has begun, and has separated the first node alone, which must be a hub set.
fn begun_by(alloc: Global, task: &Task) -> Result<Progress, Fail>
    requires plain { task.now.instance.now.wanted ≡ None }
    requires set { IsHubSet task.now.instance.now task.now.instance.now.candidates }
    ensures { IfOk result (IsGoing task.now) }
{
    let mut separator = Solo::new(alloc, task.instance)?;
    let mut progress = begin(alloc, task, &mut separator)?;
    let set = first_alone(alloc, task.instance)?;
    separate_new(alloc, task, &mut progress, &mut separator, set)?;
    Ok(progress)
}

// The same of an instance in which any number of hubs must do.
fn begun(alloc: Global, instance: &Instance) -> Result<Progress, Fail>
    ensures problem { IfOk result (λ s. IsProblem instance.now) }
    ensures plain { IfOk result (λ s. instance.now.wanted ≡ None) }
    ensures pool { IfOk result (λ s. IsPoolOf instance.now s.pool.entries) }
    ensures cost { IfOk result (λ s. s.cost ≤ 10 ^ 30) }
{
    if instance.wanted().is_none() && is_hub_set(instance, instance.candidates()) {
        begun_by(alloc, &Task::new(instance, None))
    } else {
        Err("another instance")?
    }
}

// The branch in which nothing is decided.
#[tactic(auto, using(hub_spec::proofs::ChildLists::root_branch))]
fn root(alloc: Global, instance: &Instance) -> Result<Branch, AllocError>
    ensures { IfOk result (IsBranch instance.now) }
{
    let _ = instance.size();
    Branch::root(alloc, instance)
}

// The child of the branch in which the node stays on this side.
fn child(
    alloc: Global,
    instance: &Instance,
    branch: &Branch,
    k: u32,
    side: Side,
) -> Result<Branch, Fail>
    requires { IsBranch instance.now branch.now }
    ensures { IfOk result (IsBranch instance.now) }
{
    if branch.free().contains(&k) {
        match side {
            Side::In => Ok(branch.open_child(alloc, k)?),
            Side::Out => Ok(branch.closed_child(alloc, k)?),
        }
    } else {
        Err("a node that is not free")?
    }
}

// The branch in which the first two nodes stay on these sides.
fn decided(alloc: Global, instance: &Instance, first: Side, second: Side) -> Result<Branch, Fail>
    ensures { IfOk result (IsBranch instance.now) }
{
    let root = root(alloc, instance)?;
    let half = child(alloc, instance, &root, 0, first)?;
    child(alloc, instance, &half, 1, second)
}

// The node of the branch, with no weights, once it has waited so often.
fn node(alloc: Global, instance: &Instance, branch: Branch, waits: u32) -> Pending
    requires { IsBranch instance.now branch }
    ensures { (entries : List Entry) → IsPendingOf instance.now entries result }
{
    let _ = instance.size();
    Pending {
        branch,
        weights: Vec::new(alloc),
        waits,
    }
}

// The outcome of a node evaluation.
fn told(alloc: Global, outcome: &Outcome) -> Result<String, AllocError> {
    match outcome {
        Outcome::Ends(line) => format!(in alloc; "ends {line:?}\n"),
        Outcome::Ask {
            set,
            order,
            weights,
            waited,
            sums: _,
        } => {
            let set = set.members();
            format!(in alloc; "asks {set:?} over {order:?}, weights {weights:?}, waited {waited}\n")
        }
        Outcome::Split {
            weights,
            fixings,
            advice,
        } => {
            let point = &advice.point;
            format!(in alloc; "splits, weights {weights:?}, fixings {fixings:?}, point {point:?}\n")
        }
    }
}

fn all_told(alloc: Global, outcomes: &[Outcome]) -> Result<String, AllocError> {
    let mut text = String::new(alloc);
    for outcome in outcomes {
        text.push_str(told(alloc, outcome)?.as_str())?;
    }
    Ok(text)
}

// The turns of these nodes in the search that has begun, by so many workers.
fn turns_by<R: Threads + Sync, G: Gate>(
    rt: &R,
    alloc: Global,
    instance: &Instance,
    nodes: &[Pending],
    workers: u32,
    gate: &G,
) -> Result<String, Fail>
    requires nodes { (entries : List Entry) → All (IsPendingOf instance.now entries) nodes.now }
    requires few { length nodes.now ≤ 8 }
    requires workers { (1 ≤ workers) × (workers ≤ 64) }
{
    let s = begun(alloc, instance)?;
    let outcomes = turns(rt, alloc, instance, nodes, &s.pool, s.cost, workers, gate)?;
    Ok(all_told(alloc, &outcomes)?)
}

// The turns of these nodes by the cuts of the pool and the incumbent's cost, one after another.
fn turns_in_order(
    alloc: Global,
    instance: &Instance,
    nodes: &[Pending],
    pool: &Pool,
    cost: u128,
) -> Result<String, AllocError>
    requires problem { IsProblem instance.now }
    requires plain { instance.now.wanted ≡ None }
    requires pool { IsPoolOf instance.now pool.now.entries }
    requires nodes { All (IsPendingOf instance.now pool.now.entries) nodes.now }
    requires cost { cost ≤ 10 ^ 30 }
{
    let mut text = String::new(alloc);
    for x in nodes {
        let outcome = turn(alloc, instance, x, pool, cost)?;
        text.push_str(told(alloc, &outcome)?.as_str())?;
    }
    Ok(text)
}

// The turns of these nodes in the search that has begun, one after another.
fn turns_alone(alloc: Global, instance: &Instance, nodes: &[Pending]) -> Result<String, Fail>
    requires { (entries : List Entry) → All (IsPendingOf instance.now entries) nodes.now }
{
    let s = begun(alloc, instance)?;
    Ok(turns_in_order(alloc, instance, nodes, &s.pool, s.cost)?)
}

// The node with both hubs, that with the second alone, the root, and the root once it has waited twice.
fn nodes_of_two(alloc: Global, instance: &Instance) -> Result<Vec<Pending>, Fail>
    ensures nodes { IfOk result (λ nodes. (entries : List Entry) → All (IsPendingOf instance.now entries) nodes.items) }
    ensures four { IfOk result (λ nodes. length nodes.items ≡ 4) }
{
    let both = decided(alloc, instance, Side::In, Side::In)?;
    let second = decided(alloc, instance, Side::Out, Side::In)?;
    let mut nodes = Vec::new(alloc);
    nodes.push(node(alloc, instance, both, 0))?;
    nodes.push(node(alloc, instance, second, 0))?;
    nodes.push(node(alloc, instance, root(alloc, instance)?, 0))?;
    nodes.push(node(alloc, instance, root(alloc, instance)?, 2))?;
    Ok(nodes)
}

// The hubs cost 1200 and 1300 * 10^12. The Benders cut from the first alone has the total 9414850000000000 and the load
// 8285068000000000 of the second. By this cut the root's bound is 2429782000000000, and 3629782000000000 where the
// first is a hub, which is what both cost.
const TURNS_OF_TWO: &str = "ends Leaf(Mix { denom: 1000000, weights: [(1, 1000000)] })
asks [1] over [0], weights [], waited false
asks [1] over [0], weights [0, 1000000], waited true
splits, weights [0, 1000000], fixings [(0, Out), (1, In)], point [0, 1]
";

// Tells whether two workers find the outcomes that are found node by node. It tests this where they wait for one
// another, and where each in turn waits for all draws of the other.
fn turns_agree<R: Threads + Sync>(
    rt: &R,
    alloc: Global,
    instance: &Instance,
    nodes: &[Pending],
) -> Result<bool, Fail>
    requires nodes { (entries : List Entry) → All (IsPendingOf instance.now entries) nodes.now }
    requires few { length nodes.now ≤ 8 }
{
    let alone = turns_alone(alloc, instance, nodes)?;
    for awaited in [[1, 1], [3, 1], [1, 3]] {
        let gate = Watch::new(awaited);
        let found = turns_by(rt, alloc, instance, nodes, 2, &gate)?;
        if !gate.saw_all(4) || found != alone || found.as_str() != TURNS_OF_TWO {
            return Ok(false);
        }
    }
    Ok(true)
}

#[test]
fn two_workers_find_the_turns_of_a_round(rt: HostRuntime) -> Result<(), Fail> {
    let instance = made_instance(rt.alloc(), 1, 2)?;
    let nodes = nodes_of_two(rt.alloc(), &instance)?;
    assert!(rt; turns_agree(&rt, rt.alloc(), &instance, &nodes)?);
    Ok(())
}

// The node with the third alone, that with the first two, and the root.
fn nodes_of_three(alloc: Global, instance: &Instance) -> Result<Vec<Pending>, Fail>
    ensures nodes { IfOk result (λ nodes. (entries : List Entry) → All (IsPendingOf instance.now entries) nodes.items) }
    ensures three { IfOk result (λ nodes. length nodes.items ≡ 3) }
{
    let third = decided(alloc, instance, Side::Out, Side::Out)?;
    let first_two = decided(alloc, instance, Side::In, Side::In)?;
    let first_two = child(alloc, instance, &first_two, 2, Side::Out)?;
    let mut nodes = Vec::new(alloc);
    nodes.push(node(alloc, instance, third, 0))?;
    nodes.push(node(alloc, instance, first_two, 0))?;
    nodes.push(node(alloc, instance, root(alloc, instance)?, 0))?;
    Ok(nodes)
}

// By way of the third alone the one route is too long, and all hubs cost what the cut of all says.
const TURNS_OF_THREE: &str = "ends Block { i: 0, j: 1 }
asks [0, 1] over [2], weights [], waited false
ends Leaf(Mix { denom: 1000000, weights: [(1, 1000000)] })
";

#[test]
fn turns_where_routes_are_limited(rt: HostRuntime) -> Result<(), Fail> {
    let instance = limited_triangle(rt.alloc())?;
    let nodes = nodes_of_three(rt.alloc(), &instance)?;
    let alone = turns_alone(rt.alloc(), &instance, &nodes)?;
    let found = turns_by(&rt, rt.alloc(), &instance, &nodes, 1, &OpenGate)?;
    assert!(rt; found == alone && found.as_str() == TURNS_OF_THREE);
    Ok(())
}
