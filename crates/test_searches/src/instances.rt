//! The instance of a line's numbers.

ghost use Rattle.std.specs.Prelude.{◌≡◌, None, IfOk, IfSome};

use hub_model::{Factors, Instance, Nodes, Parts, Terms, is_cost_list, is_node_list};
use std::alloc::{AllocError, Global};
use test_lines::{list, node};

/// The instance of the numbers behind `fixed`, `candidates`, `trunk`, `flows` and `distances`; none where they are
/// outside the limits.
pub(crate) fn instance_of(alloc: Global, line: &str) -> Result<Option<Instance>, AllocError> {
    let fixed = scaled(alloc, line, "fixed", 1_000_000)?;
    let Some(parts) = parts(alloc, line, fixed.len())? else {
        return Ok(None);
    };
    let Some(terms) = terms(alloc, line)? else {
        return Ok(None);
    };
    if !is_cost_list(parts.size(), &fixed) {
        return Ok(None);
    }
    Ok(Instance::build(alloc, parts, &terms, Some(fixed)).ok())
}

// The numbers of so many nodes.
fn parts(alloc: Global, line: &str, size: usize) -> Result<Option<Parts>, AllocError>
    ensures { IfOk result (λ found. IfSome found (λ parts. parts.costs ≡ None)) }
{
    let Some(factors) = factors(alloc, line)? else {
        return Ok(None);
    };
    let Ok(size) = u32::try_from(size) else {
        return Ok(None);
    };
    let flows = scaled(alloc, line, "flows", 1_000_000)?;
    let distances = scaled(alloc, line, "distances", 1000)?;
    Ok(Parts::new(size, flows, distances, factors, None, None))
}

// The factors, of which the line names the trunk's.
fn factors(alloc: Global, line: &str) -> Result<Option<Factors>, AllocError> {
    let trunk = node(line, "trunk");
    if trunk > 1_000_000 {
        return Ok(None);
    }
    Ok(Some(Factors {
        collect: 1000,
        trunk: trunk as i128,
        deliver: 1000,
    }))
}

// The terms that name the candidates.
fn terms(alloc: Global, line: &str) -> Result<Option<Terms>, AllocError>
    ensures fixed { IfOk result (λ found. IfSome found (λ terms. terms.fixed ≡ None)) }
    ensures hubs { IfOk result (λ found. IfSome found (λ terms. terms.hubs ≡ None)) }
{
    let candidates = list::<u32>(alloc, line, "candidates")?;
    if !is_node_list(&candidates) {
        return Ok(None);
    }
    Ok(Some(Terms {
        candidates: Some(Nodes::from_vec(candidates)),
        ..Terms::plain()
    }))
}

// The numbers behind this word, in units of which so many are a whole one.
fn scaled(alloc: Global, line: &str, name: &str, units: u32) -> Result<Vec<i128>, AllocError> {
    let numbers = list::<u32>(alloc, line, name)?;
    numbers
        .iter()
        .map(|number| i128::from(*number) * i128::from(units))
        .collect(alloc)
}
