//! The instance of a worked case.

ghost use Rattle.std.specs.Prelude.{◌≡◌, ◌*◌, ◌↔◌, IsTrue, map, pos, IfOk, IfSome};
ghost use Rattle.std.specs.Prelude.{None, Some};
ghost use Rattle.test_lines.specs.Problems.{contents_of, problem_of, terms_of, longest_of, MayBeAsked};

use crate::Case;
use hub_model::{
    HubNumber, Instance, MOST_NODES, Nodes, Order, Parts, Refusal, Tail, Terms, is_cost_list,
    is_node_list,
};
use std::alloc::{AllocError, Global};
use thiserror::Error;

// The most that the length of routes may be limited to, in whole numbers.
const MOST_LONGEST: u32 = 30_000_000;

/// Why a case gives no instance.
#[derive(Clone, Copy, Debug, PartialEq, Eq, Error)]
pub enum NoInstance {
    #[error("the case is not within the limits of an instance")]
    OutOfLimits,
    #[error("{0}")]
    Refused(Refusal),
}

impl From<Refusal> for NoInstance {
    fn from(refusal: Refusal) -> NoInstance {
        NoInstance::Refused(refusal)
    }
}

impl From<AllocError> for NoInstance {
    fn from(_error: AllocError) -> NoInstance {
        NoInstance::Refused(Refusal::OutOfMemory)
    }
}

/// The instance of the case.
pub fn instance(alloc: Global, case: &Case) -> Result<Instance, NoInstance>
    ensures { IfOk result (λ instance. instance ≡ problem_of case.now) }
{
    let parts = parts(alloc, case)?;
    let terms = terms(alloc, case)?;
    let costs = scaled(alloc, case.fixed_costs, 1_000_000)?;
    if !is_cost_list(case.size, &costs) {
        return Err(NoInstance::OutOfLimits);
    }
    Ok(Instance::build(alloc, parts, &terms, Some(costs))?)
}

// What a file of the case would give.
fn parts(alloc: Global, case: &Case) -> Result<Parts, NoInstance>
    ensures { IfOk result (λ parts. parts ≡ contents_of case.now) }
{
    let flows = scaled(alloc, case.flows, 1_000_000)?;
    let distances = scaled(alloc, case.distances, 1000)?;
    match Parts::new(case.size, flows, distances, case.factors, None, None) {
        Some(parts) => Ok(parts),
        None => Err(NoInstance::OutOfLimits),
    }
}

// The terms of the case: its candidates, and its longest route or its number of hubs, if it has one.
fn terms(alloc: Global, case: &Case) -> Result<Terms, NoInstance>
    ensures { IfOk result (λ terms. terms ≡ terms_of case.now) }
{
    let candidates = case.candidates.to_vec(alloc)?;
    if !is_node_list(&candidates) || !may_be_asked(case) {
        return Err(NoInstance::OutOfLimits);
    }
    Ok(Terms {
        order: Order::FlowFirst,
        tail: Tail::Ignore,
        divide: 1,
        collect: None,
        trunk: None,
        deliver: None,
        fixed: None,
        candidates: Some(Nodes::from_vec(candidates)),
        no_self: false,
        longest: case.longest.map(|most| most as i128 * 1000),
        hubs: case.wanted.map(|count| HubNumber::Said(count)),
    })
}

// Tells whether what the case asks for is within the limits.
fn may_be_asked(case: &Case) -> bool
    ensures { IsTrue result ↔ MayBeAsked (longest_of case.now) case.now.wanted }
{
    match (case.longest, case.wanted) {
        (None, None) => true,
        (Some(most), None) => most <= MOST_LONGEST,
        (None, Some(count)) => 1 <= count && count <= MOST_NODES,
        (Some(_), Some(_)) => false,
    }
}

// The numbers in units of which so many are a whole one.
fn scaled(alloc: Global, numbers: &[u32], units: u32) -> Result<Vec<i128>, AllocError>
    ensures { IfOk result (λ scaled. scaled.items ≡ map (λ x. pos (x * units)) numbers.now) }
{
    let mut scaled = Vec::with_capacity(alloc, numbers.len())?;
    for x in numbers {
        scaled.push(*x as i128 * units as i128)?;
    }
    Ok(scaled)
}
