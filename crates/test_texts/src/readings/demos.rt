//! Made-up instances, and the lines of a demonstration.

use hub_io::{Failed, MemSink};
use hub_make::{made_instance, put_demo};
use hub_model::Instance;
use std::alloc::{AllocError, Global};
use test_lines::{Wrong, comma_list};

/// The instance of a seed and a number of nodes.
pub(crate) fn instance(alloc: Global, seed: &str, nodes: &str) -> Result<String, Wrong> {
    let (seed, nodes): (u32, u32) = (seed.parse()?, nodes.parse()?);
    if seed > 1_000_000 || nodes < 1 || nodes > 200 {
        return Err(Wrong::NoCase);
    }
    let instance = made_instance(alloc, seed, nodes)?;
    Ok(instance_told(alloc, &instance)?)
}

fn instance_told(alloc: Global, instance: &Instance) -> Result<String, AllocError> {
    let (candidates, flows, distances) = (
        instance.candidates(),
        instance.flows(),
        instance.distances(),
    );
    let factors = [instance.collect(), instance.trunk(), instance.deliver()];
    let hubs = instance.listed_p();
    let costs = costs(alloc, instance)?;
    format!(in alloc;
        "candidates {candidates:?}, flows {flows:?}, distances {distances:?}, factors {factors:?}, hubs {hubs:?}, costs {costs:?}"
    )
}

// The fixed cost of each node.
fn costs(alloc: Global, instance: &Instance) -> Result<Vec<u128>, AllocError> {
    let mut costs = Vec::new(alloc);
    for k in 0..instance.size() {
        costs.push(instance.fixed_cost(k))?;
    }
    Ok(costs)
}

/// What a sink has taken of the lines of a demonstration.
pub(crate) fn lines(alloc: Global, words: &[&str]) -> Result<String, Wrong> {
    match words {
        [room, nodes, cost, bound, hubs, searched] => {
            let mut sink = MemSink::new(alloc, room.parse()?)?;
            let hubs = comma_list(alloc, hubs)?;
            let (cost, bound) = (cost.parse()?, bound.parse()?);
            let (nodes, searched) = (nodes.parse()?, searched.parse()?);
            let done = put_demo(nodes, cost, bound, &hubs, searched, &mut sink);
            Ok(taken(alloc, done, &sink)?)
        }
        _ => Err(Wrong::NoCase),
    }
}

fn taken(alloc: Global, done: Result<(), Failed>, sink: &MemSink) -> Result<String, AllocError> {
    let (taken, faults) = (sink.taken(), sink.faults());
    match done {
        Ok(()) => format!(in alloc; "ok \"{}\", faults {faults}", taken.escape_ascii()),
        Err(Failed) => format!(in alloc; "failed \"{}\", faults {faults}", taken.escape_ascii()),
    }
}
