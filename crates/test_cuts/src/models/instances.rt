//! Instances, one for each line.

use hub_model::Instance;
use std::alloc::{AllocError, Global};
use test_lines::{LINE_OF_THREE, NoInstance, THREE_COSTS, behind, instance, named_instance};

/// The instance of a line, or its fault.
pub fn told(alloc: Global, line: &str) -> Result<String, AllocError> {
    match instance_of(alloc, line) {
        Ok(instance) => format!(in alloc; "{instance:?}"),
        Err(refusal) => format!(in alloc; "{refusal}"),
    }
}

/// The instance of a line: the worked case that it names, or the one of its numbers.
pub fn instance_of(alloc: Global, line: &str) -> Result<Instance, NoInstance> {
    match behind(line, " ") {
        "line_of_three" => instance(alloc, &LINE_OF_THREE),
        "three_costs" => instance(alloc, &THREE_COSTS),
        _ => named_instance(alloc, line),
    }
}
