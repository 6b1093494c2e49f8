//! Masters of branches, with their weights and points.

ghost use Rattle.std.specs.Prelude.{◌≡◌, ◌<◌, ◌≤◌, length, map, max, All, IsTrue, IfOk};
ghost use Rattle.frac_master.specs.Masters.{AreMasterNumbers, AreWithinTotals, candidates_of};

use super::fields::{Lent, branch, cuts_of, parted};
use super::limits::are_below;
use super::tables;
use frac_master::{Advice, advise, advise_by_totals, rows_of};
use hub_model::Branch;
use std::alloc::{AllocError, Global};

/// The answer of the line's master: its first tableau, its weights and point, or these for loads within their totals.
pub(crate) fn told(alloc: Global, word: &str, text: &str) -> Result<String, AllocError> {
    let (signs, rest) = parted(text, ';');
    let lent = cuts_of(alloc, rest)?;
    match branch(alloc, signs.trim())? {
        Some(branch) => asked(alloc, word, &lent, &branch),
        None => String::from_str(alloc, "no branch\n"),
    }
}

fn asked(alloc: Global, word: &str, lent: &Lent, branch: &Branch) -> Result<String, AllocError> {
    let told = match word {
        "first" => first(alloc, lent, branch)?,
        "advise" => advised(alloc, lent, branch)?,
        _ => advised_by_totals(alloc, lent, branch)?,
    };
    match told {
        Some(told) => Ok(told),
        None => String::from_str(alloc, "no master\n"),
    }
}

// The table before the first pivot.
fn first(alloc: Global, lent: &Lent, branch: &Branch) -> Result<Option<String>, AllocError> {
    if !is_master(lent, branch) {
        return Ok(None);
    }
    let loads = views(alloc, &lent.loads)?;
    let rows = rows_of(alloc, &lent.totals, &loads, &lent.fixed, branch)?;
    let mut told = String::new(alloc);
    tables::tell(&mut told, &rows)?;
    Ok(Some(told))
}

fn advised(alloc: Global, lent: &Lent, branch: &Branch) -> Result<Option<String>, AllocError> {
    if !is_master(lent, branch) {
        return Ok(None);
    }
    let loads = views(alloc, &lent.loads)?;
    let found = advise(alloc, &lent.totals, &loads, &lent.fixed, branch)?;
    Ok(Some(read(alloc, &found)?))
}

fn advised_by_totals(
    alloc: Global,
    lent: &Lent,
    branch: &Branch,
) -> Result<Option<String>, AllocError> {
    if !is_master(lent, branch) || !are_within(&lent.totals, &lent.loads) {
        return Ok(None);
    }
    let loads = views(alloc, &lent.loads)?;
    let found = advise_by_totals(alloc, &lent.totals, &loads, None, 0, &lent.fixed, branch)?;
    Ok(Some(read(alloc, &found)?))
}

fn read(alloc: Global, found: &Advice) -> Result<String, AllocError> {
    let Advice {
        weights,
        point,
        scale,
        ended,
        pivots,
    } = found;
    format!(in alloc;
        "weights {weights:?}, point {point:?} of {scale}, {ended:?} after {pivots} pivots\n"
    )
}

// The rows, each as a slice.
fn views(alloc: Global, rows: &[Vec<u128>]) -> Result<Vec<&[u128]>, AllocError>
    ensures { IfOk result (λ views. map (λ row. row.now) views.items ≡ map (λ v. v.items) rows.now) }
{
    let mut views = Vec::with_capacity(alloc, rows.len())?;
    for row in rows {
        views.push(row.as_slice())?;
    }
    Ok(views)
}

// Whether these are the numbers of a master for the branch.
fn is_master(lent: &Lent, branch: &Branch) -> bool
    ensures numbers { IsTrue result →
        AreMasterNumbers lent.now.totals.items (map (λ v. v.items) lent.now.loads.items) lent.now.fixed.items }
    ensures nodes { IsTrue result → All (λ k. k < length lent.now.fixed.items) (candidates_of branch.now) }
{
    let nodes = lent.fixed.len();
    lent.loads.len() == lent.totals.len()
        && are_rows(&lent.loads, nodes)
        && are_below(branch.inside(), nodes)
        && are_below(branch.outside(), nodes)
        && are_below(branch.free(), nodes)
}

// Whether each row has a number for each node.
fn are_rows(rows: &[Vec<u128>], nodes: usize) -> bool
    ensures { IsTrue result → All (λ row. length row ≡ nodes) (map (λ v. v.items) rows.now) }
{
    for row in rows {
        if row.len() != nodes {
            return false;
        }
    }
    true
}

// Whether no load is above its cut's total.
fn are_within(totals: &[u128], loads: &[Vec<u128>]) -> bool
    ensures { IsTrue result → AreWithinTotals 0 totals.now (map (λ v. v.items) loads.now) }
{
    if totals.len() != loads.len() {
        return false;
    }
    for i in 0..totals.len() {
        if !are_up_to(&loads[i], totals[i]) {
            return false;
        }
    }
    true
}

fn are_up_to(loads: &[u128], total: u128) -> bool
    ensures { IsTrue result → All (λ x. x ≤ max total 0) loads.now }
{
    loads.iter().all(|x| *x <= total)
}
