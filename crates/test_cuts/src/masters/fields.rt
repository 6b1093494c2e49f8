//! The fields of a line.

use hub_model::{Branch, Factors, Instance, Nodes, Parts, Refusal, Terms, is_node_list};
use std::alloc::{AllocError, Global};
use std::str::FromStr;

/// The numbers of a text. Words that are no numbers are for the reader.
pub(crate) fn numbers<T: FromStr + Drop>(alloc: Global, text: &str) -> Result<Vec<T>, AllocError>
where
    T::Err: Drop,
{
    let mut numbers = Vec::new(alloc);
    for word in text.split_whitespace() {
        if let Ok(number) = word.parse() {
            numbers.push(number)?;
        }
    }
    Ok(numbers)
}

/// The text before the first such mark, and what follows the mark, if there is one.
pub(crate) fn parted(text: &str, mark: char) -> (&str, &str) {
    match text.split_once(mark) {
        Some(parts) => parts,
        None => (text, ""),
    }
}

/// The cuts of a case: the total of each, its load of each node and its part, and the fixed cost of each node.
#[derive(Drop)]
pub(crate) struct Lent {
    pub(crate) totals: Vec<u128>,
    pub(crate) loads: Vec<Vec<u128>>,
    pub(crate) parts: Vec<u32>,
    pub(crate) fixed: Vec<u128>,
}

/// Reads the fixed costs from the first field, and from each of the others a cut: its total and then its loads, with
/// the word `part` its part before them. Or a field has cuts of the same loads: the word `cuts`, how many they are, and
/// the total of the first, which rises by one.
pub(crate) fn cuts_of(alloc: Global, text: &str) -> Result<Lent, AllocError> {
    let (fixed, cuts) = parted(text, ';');
    let mut lent = Lent {
        totals: Vec::new(alloc),
        loads: Vec::new(alloc),
        parts: Vec::new(alloc),
        fixed: numbers(alloc, fixed)?,
    };
    for cut in cuts.split(';') {
        let numbers: Vec<u128> = numbers(alloc, cut)?;
        match numbers.as_slice() {
            [count, total, loads @ ..] if cut.contains("cuts") => {
                for more in 0..u32::try_from(*count).unwrap_or(0) {
                    let total = total.saturating_add(u128::from(more));
                    push_cut(alloc, &mut lent, 1, total, loads)?;
                }
            }
            [part, total, loads @ ..] if cut.contains("part") => {
                let part = u32::try_from(*part).unwrap_or(0);
                push_cut(alloc, &mut lent, part, *total, loads)?;
            }
            [total, loads @ ..] => push_cut(alloc, &mut lent, 1, *total, loads)?,
            [] => {}
        }
    }
    Ok(lent)
}

fn push_cut(
    alloc: Global,
    lent: &mut Lent,
    part: u32,
    total: u128,
    loads: &[u128],
) -> Result<(), AllocError> {
    lent.parts.push(part)?;
    lent.totals.push(total)?;
    lent.loads.push(loads.to_vec(alloc)?)?;
    Ok(())
}

/// The branch of these signs, a node each: `+` a hub, `-` closed, `?` free, `.` no candidate.
pub(crate) fn branch(alloc: Global, signs: &str) -> Result<Option<Branch>, AllocError> {
    let Some(mut branch) = root(alloc, signs)? else {
        return Ok(None);
    };
    for (k, sign) in (0..200).zip(signs.bytes()) {
        branch = decided(alloc, branch, k, sign)?;
    }
    Ok(Some(branch))
}

// The branch once the node, if it is free, is a hub by the sign `+`, or closed by the sign `-`.
fn decided(alloc: Global, branch: Branch, k: u32, sign: u8) -> Result<Branch, AllocError> {
    if !branch.free().contains(&k) {
        return Ok(branch);
    }
    match sign {
        b'+' => branch.open_child(alloc, k),
        b'-' => branch.closed_child(alloc, k),
        _ => Ok(branch),
    }
}

// The root of an instance with these candidates, one for each sign that is no `.`.
fn root(alloc: Global, signs: &str) -> Result<Option<Branch>, AllocError> {
    let mut candidates = Vec::new(alloc);
    for (k, sign) in (0..200).zip(signs.bytes()) {
        if sign != b'.' {
            candidates.push(k)?;
        }
    }
    match instance(alloc, signs.len(), candidates)? {
        Some(instance) => Ok(Some(Branch::root(alloc, &instance)?)),
        None => Ok(None),
    }
}

// Collection, trunk and delivery at their price.
const AS_THEY_ARE: Factors = Factors {
    collect: 1000,
    trunk: 1000,
    deliver: 1000,
};

// An instance with no flows and no distances, if there can be one of so many nodes with these candidates.
fn instance(
    alloc: Global,
    size: usize,
    candidates: Vec<u32>,
) -> Result<Option<Instance>, AllocError> {
    if size > 200 || !is_node_list(&candidates) {
        return Ok(None);
    }
    let nothing = vec![in alloc; 0; size * size]?;
    let distances = nothing.clone()?;
    let Some(parts) = Parts::new(size as u32, nothing, distances, AS_THEY_ARE, None, None) else {
        return Ok(None);
    };
    let mut terms = Terms::with_fixed(0);
    terms.candidates = Some(Nodes::from_vec(candidates));
    match Instance::build(alloc, parts, &terms, None) {
        Ok(instance) => Ok(Some(instance)),
        Err(Refusal::OutOfMemory) => Err(AllocError),
        Err(Refusal::Fault(_)) => Ok(None),
    }
}
