//! The evaluation of a node.

ghost use Rattle.std.specs.Prelude.{◌≡◌, ◌≤◌, ◌^◌, ◌&&◌, None, not, nat_lt, is_some, IfOk};
ghost use Rattle.hub_spec.specs.Problem.{Problem, IsProblem};
ghost use Rattle.hub_spec.specs.Plans.{IsHubSet};
ghost use Rattle.hub_spec.specs.Trees.{IsBranch};
ghost use Rattle.search_spec.specs.Laws.{GoesOn};
ghost use Rattle.search_spec.specs.States.{number_in_pool};
ghost use Rattle.search_spec.specs.Steps.{better};
ghost use Rattle.search_steps.specs.Advising.{parts_of};
ghost use Rattle.search_steps.specs.Pools.{IsPoolOf, InEachState, InEachStateAt};
ghost use Rattle.search_steps.specs.Weights.{AreNodeWeights, AreWeighed, pairs_of};
ghost use Rattle.search_spec.specs.Turns.{most_waits, turn_alone, turn_advised};
ghost use Rattle.node_rounds.specs.Outcomes.{pending_of, IsPendingOf, outcome_of, IsTurnOf, IsOutcomeOf};

use crate::outcomes::{Outcome, Pending};
use cut_pool::Pool;
use hub_model::{Branch, HubSet, Instance, outside};
use pareto_cuts::order_of;
use search_core::whole_leaf;
use search_steps::{NodeWeights, Plain, Rule, Solo, closes, is_better, leaf_line, node_advice};
use std::alloc::{AllocError, Global};

// How often a node may ask for a set that the master's point picks.
const MOST_WAITS: u32 = 2;

/// Evaluates a node, by the pool and the incumbent's cost, in 10^-12, for any number of hubs.
///
/// `AllocError` means that memory ran out, or that the master is larger than its tableau can hold.
pub fn turn(
    alloc: Global,
    instance: &Instance,
    node: &Pending,
    pool: &Pool,
    cost: u128,
) -> Result<Outcome, AllocError>
    requires problem { IsProblem instance.now }
    requires plain { instance.now.wanted ≡ None }
    requires pool { IsPoolOf instance.now pool.now.entries }
    requires node { IsPendingOf instance.now pool.now.entries node.now }
    requires cost { cost ≤ 10 ^ 30 }
    ensures turn { IfOk result (IsTurnOf instance.now pool.now.entries cost node.now) }
    ensures sound { IfOk result (IsOutcomeOf instance.now pool.now.entries node.now) }
{
    let branch = &node.branch;
    if let Some(line) = Plain.end(branch) {
        return Ok(Outcome::Ends(line));
    }
    if let Some(line) = Plain.blocked(alloc, instance, branch)? {
        return Ok(Outcome::Ends(line));
    }
    if let Some(hubs) = Plain.alone(alloc, instance, branch)? {
        return turn_alone(alloc, instance, node, pool, &hubs);
    }
    turn_advised(alloc, instance, node, pool, cost)
}

/// The same, with the sums of the cut that the node asks for, if it asks for one.
pub(crate) fn turn_ahead(
    alloc: Global,
    instance: &Instance,
    node: &Pending,
    pool: &Pool,
    cost: u128,
    solo: &mut Solo,
) -> Result<Outcome, AllocError>
    requires problem { IsProblem instance.now }
    requires plain { instance.now.wanted ≡ None }
    requires pool { IsPoolOf instance.now pool.now.entries }
    requires node { IsPendingOf instance.now pool.now.entries node.now }
    requires cost { cost ≤ 10 ^ 30 }
    ensures turn { IfOk result (IsTurnOf instance.now pool.now.entries cost node.now) }
    ensures sound { IfOk result (IsOutcomeOf instance.now pool.now.entries node.now) }
{
    let outcome = turn(alloc, instance, node, pool, cost)?;
    match outcome {
        Outcome::Ask {
            set,
            order,
            weights,
            waited,
            sums: _,
        } => {
            let asked = set.copy(alloc)?;
            let sums = solo.sums(alloc, instance, asked, &order)?;
            Ok(Outcome::Ask {
                set,
                order,
                weights,
                waited,
                sums: Some(sums),
            })
        }
        other => Ok(other),
    }
}

// The evaluation of a node in which the set of these hubs alone is left: the leaf of their cut, if it is in the pool.
fn turn_alone(
    alloc: Global,
    instance: &Instance,
    node: &Pending,
    pool: &Pool,
    hubs: &[u32],
) -> Result<Outcome, AllocError>
    requires problem { IsProblem instance.now }
    requires set { IsHubSet instance.now hubs.now }
    requires weights { AreNodeWeights pool.now.entries node.now.weights.items }
    ensures turn { let p = instance.now in IfOk result (λ o. InEachState p pool.now.entries
        (λ s. outcome_of o ≡ turn_alone (parts_of p) (pending_of node.now) hubs.now (number_in_pool s hubs.now))) }
    ensures sound { IfOk result (IsOutcomeOf instance.now pool.now.entries node.now) }
{
    let set = HubSet::of(alloc, hubs)?;
    if let Some(number) = pool.find(&set) {
        return Ok(Outcome::Ends(whole_leaf(alloc, number)?));
    }
    let order = outside(alloc, instance, &set)?;
    let weights = node.weights.to_vec(alloc)?;
    Ok(Outcome::Ask {
        set,
        order,
        weights,
        waited: false,
        sums: None,
    })
}

// The evaluation of a node in which more sets than one are left.
fn turn_advised(
    alloc: Global,
    instance: &Instance,
    node: &Pending,
    pool: &Pool,
    cost: u128,
) -> Result<Outcome, AllocError>
    requires problem { IsProblem instance.now }
    requires plain { instance.now.wanted ≡ None }
    requires pool { IsPoolOf instance.now pool.now.entries }
    requires node { IsPendingOf instance.now pool.now.entries node.now }
    requires goes_on { GoesOn (parts_of instance.now) node.now.branch }
    requires cost { cost ≤ 10 ^ 30 }
    ensures turn { let p = instance.now in IfOk result (λ o. InEachStateAt p pool.now.entries cost
        (λ s. outcome_of o ≡ turn_advised p (parts_of p) s (pending_of node.now))) }
    ensures sound { IfOk result (IsOutcomeOf instance.now pool.now.entries node.now) }
{
    let branch = &node.branch;
    let advice = node_advice(&Plain, alloc, instance, pool, branch, cost)?;
    let present = NodeWeights {
        instance,
        pool,
        weights: &node.weights,
    };
    let weights = better_of(alloc, &present, branch, &advice.weights)?;
    let weighed = NodeWeights {
        instance,
        pool,
        weights: &weights,
    };
    if closes(&Plain, &weighed, branch, cost) {
        return Ok(Outcome::Ends(leaf_line(alloc, &weights)?));
    }
    let set = Plain.pick(alloc, instance, &advice, branch)?;
    if may_ask(pool, node, &set) {
        let order = order_of(alloc, instance, &advice.point, &set)?;
        return Ok(Outcome::Ask {
            set,
            order,
            weights,
            waited: true,
            sums: None,
        });
    }
    let fixings = Plain.fixings(alloc, &weighed, branch, cost)?;
    Ok(Outcome::Split {
        weights,
        fixings,
        advice,
    })
}

// Tells whether the node may ask for the set: it is new, and the node has not waited too often.
fn may_ask(pool: &Pool, node: &Pending, set: &HubSet) -> bool
    ensures { (p : Problem) → InEachState p pool.now.entries
        (λ s. result ≡ (not (is_some (number_in_pool s set.now)) && nat_lt node.now.waits most_waits)) }
{
    if pool.find(set).is_some() {
        return false;
    }
    node.waits < MOST_WAITS
}

// The master's weights if their bound is above that of the present ones, else the present ones.
fn better_of(
    alloc: Global,
    present: &NodeWeights,
    branch: &Branch,
    advised: &[u128],
) -> Result<Vec<u128>, AllocError>
    requires plain { present.now.instance.now.wanted ≡ None }
    requires present { AreWeighed present.now }
    requires branch { IsBranch present.now.instance.now branch.now }
    requires advised { AreNodeWeights present.now.pool.now.entries advised.now }
    ensures better { let p = present.now.instance.now in
        IfOk result (λ w. InEachState p present.now.pool.now.entries
        (λ s. pairs_of w.items ≡ better p s branch.now (pairs_of present.now.weights.now) (pairs_of advised.now))) }
    ensures weights { IfOk result (λ w. AreNodeWeights present.now.pool.now.entries w.items) }
{
    if is_better(&Plain, present, branch, advised) {
        advised.to_vec(alloc)
    } else {
        present.weights.to_vec(alloc)
    }
}
