//! Routes and branches of an instance.

use hub_model::{Instance, route_cost};
use plan_model::Branch;
use std::alloc::{AllocError, Global};
use test_lines::{first, node};

/// The costs of all routes: from and to each node, by each two hubs.
pub fn routes(alloc: Global, instance: &Instance) -> Result<String, AllocError> {
    let mut costs = Vec::new(alloc);
    let n = instance.size();
    for i in 0..n {
        for j in 0..n {
            for k in 0..n {
                for m in 0..n {
                    costs.push(route_cost(instance, i, j, k, m))?;
                }
            }
        }
    }
    format!(in alloc; "{costs:?}")
}

/// The root, or its child where the line's candidate is a hub or is closed.
pub fn branch(alloc: Global, instance: &Instance, line: &str) -> Result<String, AllocError> {
    let root = Branch::root(alloc, instance)?;
    match first(line) {
        "open" => open(alloc, &root, node(line, " node ")),
        "close" => close(alloc, &root, node(line, " node ")),
        _ => format!(in alloc; "{root:?}"),
    }
}

fn open(alloc: Global, root: &Branch, k: u32) -> Result<String, AllocError> {
    if !root.free().contains(&k) {
        return String::from_str(alloc, "not free");
    }
    let child = root.open_child(alloc, k)?.clone()?;
    format!(in alloc; "{child:?}")
}

fn close(alloc: Global, root: &Branch, k: u32) -> Result<String, AllocError> {
    if !root.free().contains(&k) {
        return String::from_str(alloc, "not free");
    }
    let child = root.closed_child(alloc, k)?;
    format!(in alloc; "{child:?}")
}
