//! The check of a certificate in memory, line by line in the order of its text.

ghost use Rattle.std.specs.Prelude.{◌≡◌, ◌+◌, ◌*◌, ◌≤◌, ◌<◌, ◌^◌, ◌-◌, ◌∷◌, [], length, map, zip, IfSome, IfOk, All, None};
ghost use Rattle.hub_spec.specs.Limits.{most_nodes, most_denominator};
ghost use Rattle.hub_spec.specs.Problem.{commodities};
ghost use Rattle.hub_spec.specs.Trees.{leaf_of};
ghost use Rattle.hub_spec.specs.Ranges.{IsCutInRange};
ghost use Rattle.cert_spec.specs.Lines.{says_marked, says_tree};
ghost use Rattle.cert_spec.specs.Stated.{IsStatedInRange};
ghost use Rattle.cert_spec.specs.Text.{route_items, dual_items, proved_items, cut_items_as, top_items, cuts_items, tree_items};
ghost use Rattle.hub_model.specs.Lines.{tree_line_of};
ghost use Rattle.cert_scan.specs.Parts.{items_of};
ghost use Rattle.cert_scan.specs.Versions.{version_number};
ghost use Rattle.cert_format.specs.Parts.{HasProofs};
ghost use Rattle.cert_format.specs.DualItems.{row_items};
ghost use Rattle.cert_conditions.specs.Taken.{HasTaken};
ghost use Rattle.cert_conditions.specs.ListLines.{MayTakeLines, TakesLines};
ghost use Rattle.cert_checker.specs.Walks.{head_items, HasSmallDenominator, IsKnownCut, IsKnownRow, SaysPart};

use crate::side_by_side::known_part;
use cert_conditions::{Checks, ListLine};
use cert_format::{Certificate, DualRow, Heading, run_at};
use cert_scan::{Item, Version};
use cut_model::{Mark, StatedCut};
use hub_model::{Mix, Plan, TreeLine};
use std::alloc::{AllocError, Global};
use std::thread::Threads;

/// Takes all lines of the certificate, which is of the size of the check's instance. The duals of a cut are tested in
/// parallel.
pub(crate) fn take_certificate<R: Threads + Sync>(
    rt: &R,
    alloc: Global,
    certificate: &Certificate,
    checks: &mut Checks<'_>,
) -> Result<(), AllocError>
    requires none { HasTaken [] checks.old }
    requires size { certificate.now.proof.size ≡ checks.old.instance.now.size }
    ensures taken { IfOk result (λ _. HasTaken (items_of certificate.now) checks.new) }
    ensures instance { checks.new.instance ≡ checks.old.instance }
{
    let n = certificate.size();
    let version = certificate.version();
    let heading = certificate.heading();
    let plan = certificate.plan();
    let cuts = certificate.cuts();
    let marks = certificate.marks();
    let tree = certificate.tree();
    take_top(alloc, heading, plan, cuts.len() as u32, checks)?;
    take_cuts(rt, alloc, version, n, cuts, marks, checks)?;
    take_tree(alloc, tree, checks)?;
    Ok(())
}

/// Takes the lines up to the number of cuts.
fn take_top(
    alloc: Global,
    heading: &Heading,
    plan: &Plan,
    cuts: u32,
    checks: &mut Checks<'_>,
) -> Result<(), AllocError>
    requires some { 1 ≤ heading.now.size }
    requires few { heading.now.size ≤ most_nodes }
    requires whole { length plan.now.routes ≡ heading.now.size * heading.now.size }
    requires may { MayTakeLines checks.old (top_items (version_number heading.now.version) heading.now.size heading.now.candidates
        heading.now.cost heading.now.bound plan.now cuts) }
    ensures taken { IfOk result (λ _. TakesLines checks.old (top_items (version_number heading.now.version) heading.now.size
        heading.now.candidates heading.now.cost heading.now.bound plan.now cuts) checks.new) }
    ensures instance { checks.new.instance ≡ checks.old.instance }
{
    let hubs = plan.hubs();
    let routes = plan.routes();
    take_head(alloc, heading, checks)?;
    checks.take_line(alloc, &ListLine::Hubs(hubs), None)?;
    take_routes(alloc, heading.size, routes, checks)?;
    checks.take_alone(alloc, Item::Cuts(cuts))?;
    Ok(())
}

fn take_head(alloc: Global, heading: &Heading, checks: &mut Checks<'_>) -> Result<(), AllocError>
    requires { MayTakeLines checks.old (head_items (version_number heading.now.version) heading.now.size heading.now.candidates
        heading.now.cost heading.now.bound) }
    ensures taken { IfOk result (λ _. TakesLines checks.old (head_items (version_number heading.now.version) heading.now.size
        heading.now.candidates heading.now.cost heading.now.bound) checks.new) }
    ensures instance { checks.new.instance ≡ checks.old.instance }
{
    let n = heading.size;
    let q = heading.candidates;
    checks.take_alone(alloc, Item::Version(heading.version))?;
    checks.take_alone(alloc, Item::Size { n, q })?;
    checks.take_alone(alloc, Item::Cost(heading.cost))?;
    checks.take_alone(alloc, Item::Bound(heading.bound))?;
    Ok(())
}

fn take_routes(
    alloc: Global,
    n: u32,
    routes: &[(u32, u32)],
    checks: &mut Checks<'_>,
) -> Result<(), AllocError>
    requires some { 1 ≤ n }
    requires few { n ≤ most_nodes }
    requires whole { length routes.now ≡ n * n }
    requires may { MayTakeLines checks.old (route_items (zip (commodities n) routes.now)) }
    ensures taken { IfOk result (λ _. TakesLines checks.old (route_items (zip (commodities n) routes.now)) checks.new) }
    ensures instance { checks.new.instance ≡ checks.old.instance }
{
    for (t, route) in routes.iter().enumerate() {
        let (k, m) = *route;
        let i = t as u32 / n;
        let j = t as u32 % n;
        checks.take_alone(alloc, Item::Route { i, j, k, m })?;
    }
    Ok(())
}

/// Takes the lines of the cuts, each with its mark.
fn take_cuts<R: Threads + Sync>(
    rt: &R,
    alloc: Global,
    version: Version,
    n: u32,
    cuts: &[StatedCut],
    marks: &[Option<Mark>],
    checks: &mut Checks<'_>,
) -> Result<(), AllocError>
    requires size { n ≡ checks.old.instance.now.size }
    requires some { 1 ≤ n }
    requires nodes { n ≤ most_nodes }
    requires few { length cuts.now < 2 ^ 32 - 1 }
    requires cuts { All (IsCutInRange n) cuts.now }
    requires parts { All (SaysPart (version_number version)) cuts.now }
    requires one_for_each { length marks.now ≡ length cuts.now }
    requires proved { All (HasProofs n) marks.now }
    requires may { MayTakeLines checks.old (cuts_items (version_number version) n 1 (zip cuts.now marks.now)) }
    ensures taken { IfOk result (λ _. TakesLines checks.old (cuts_items (version_number version) n 1 (zip cuts.now marks.now)) checks.new) }
    ensures instance { checks.new.instance ≡ checks.old.instance }
{
    for (x, cut) in cuts.iter().enumerate() {
        take_cut(rt, alloc, version, n, x as u32 + 1, cut, &marks[x], checks)?;
    }
    Ok(())
}

/// Takes the lines of a cut. If no condition failed before, its duals are tested in parallel. If all are feasible, the
/// check does not test them again.
fn take_cut<R: Threads + Sync>(
    rt: &R,
    alloc: Global,
    version: Version,
    n: u32,
    x: u32,
    cut: &StatedCut,
    mark: &Option<Mark>,
    checks: &mut Checks<'_>,
) -> Result<(), AllocError>
    requires size { n ≡ checks.old.instance.now.size }
    requires some { 1 ≤ n }
    requires few { n ≤ most_nodes }
    requires cut { IsCutInRange n cut.now }
    requires part { SaysPart (version_number version) cut.now }
    requires proved { HasProofs n mark.now }
    requires may { MayTakeLines checks.old (cut_items_as (version_number version) n x cut.now mark.now) }
    ensures taken { IfOk result (λ _. TakesLines checks.old (cut_items_as (version_number version) n x cut.now mark.now) checks.new) }
    ensures instance { checks.new.instance ≡ checks.old.instance }
{
    let known = known_part(rt, checks, cut);
    match mark {
        None => take_unmarked(alloc, version, n, x, cut, known, checks),
        Some(mark) => take_marked(alloc, n, x, cut, mark, known, checks),
    }
}

fn take_unmarked(
    alloc: Global,
    version: Version,
    n: u32,
    x: u32,
    cut: &StatedCut,
    known: Option<u32>,
    checks: &mut Checks<'_>,
) -> Result<(), AllocError>
    requires some { 1 ≤ n }
    requires few { n ≤ most_nodes }
    requires whole { length cut.now.duals ≡ n * n }
    requires part { SaysPart (version_number version) cut.now }
    requires known { IfSome known (IsKnownCut n checks.old.instance.now cut.now) }
    requires may { MayTakeLines checks.old (cut_items_as (version_number version) n x cut.now None) }
    ensures taken { IfOk result (λ _. TakesLines checks.old (cut_items_as (version_number version) n x cut.now None) checks.new) }
    ensures instance { checks.new.instance ≡ checks.old.instance }
{
    let part = cut.part();
    let last = true;
    checks.take_alone(alloc, Item::Cut { x, part, last })?;
    for i in 0..n {
        let row = DualRow::of(cut, n, i);
        take_row(alloc, version, n, i, &row, known, checks)?;
    }
    Ok(())
}

/// Takes the lines of the duals of all commodities from node i.
fn take_row(
    alloc: Global,
    version: Version,
    n: u32,
    i: u32,
    row: &DualRow<'_>,
    known: Option<u32>,
    checks: &mut Checks<'_>,
) -> Result<(), AllocError>
    requires few { n ≤ most_nodes }
    requires whole { length row.now ≡ n }
    requires known { IfSome known (IsKnownRow checks.old.instance.now i row.now) }
    requires may { MayTakeLines checks.old (row_items (version_number version) n i row.now) }
    ensures taken { IfOk result (λ _. TakesLines checks.old (row_items (version_number version) n i row.now) checks.new) }
    ensures instance { checks.new.instance ≡ checks.old.instance }
{
    let mut j = 0;
    while j < row.len() {
        let dual = row.dual(j);
        let run = run_at(version, row, j);
        checks.take_line(alloc, &ListLine::Dual { i, j, run, dual }, known)?;
        j += run;
    }
    Ok(())
}

fn take_marked(
    alloc: Global,
    n: u32,
    x: u32,
    cut: &StatedCut,
    mark: &Mark,
    known: Option<u32>,
    checks: &mut Checks<'_>,
) -> Result<(), AllocError>
    requires some { 1 ≤ n }
    requires whole { length cut.now.duals ≡ n * n }
    requires proved { length mark.now.proofs ≡ length cut.now.duals }
    requires known { IfSome known (IsKnownCut n checks.old.instance.now cut.now) }
    requires may { MayTakeLines checks.old (says_marked x cut.now.part mark.now.hubs ∷ proved_items n 0 cut.now.duals mark.now.proofs) }
    ensures taken { IfOk result (λ _. TakesLines checks.old
        (says_marked x cut.now.part mark.now.hubs ∷ proved_items n 0 cut.now.duals mark.now.proofs) checks.new) }
    ensures instance { checks.new.instance ≡ checks.old.instance }
{
    let part = cut.part();
    let hubs = mark.hubs();
    let proofs = mark.proofs();
    checks.take_line(alloc, &ListLine::Mark { x, part, hubs }, None)?;
    for t in 0..cut.count() {
        let dual = cut.dual(t);
        let i = t / n;
        let j = t % n;
        let run = 1;
        checks.take_line(alloc, &ListLine::Dual { i, j, run, dual }, known)?;
        checks.take_line(alloc, &ListLine::Proof(&proofs[t as usize]), None)?;
    }
    Ok(())
}

/// Takes the number of lines of the tree, these lines, and the last line of the text.
fn take_tree(alloc: Global, lines: &[TreeLine], checks: &mut Checks<'_>) -> Result<(), AllocError>
    requires few { length lines.now < 2 ^ 32 }
    requires lines { All HasSmallDenominator (map tree_line_of lines.now) }
    requires may { MayTakeLines checks.old (tree_items (map tree_line_of lines.now)) }
    ensures taken { IfOk result (λ _. TakesLines checks.old (tree_items (map tree_line_of lines.now)) checks.new) }
    ensures instance { checks.new.instance ≡ checks.old.instance }
{
    checks.take_alone(alloc, Item::Nodes(lines.len() as u32))?;
    for line in lines {
        take_tree_line(alloc, line, checks)?;
    }
    checks.take_alone(alloc, Item::End)?;
    Ok(())
}

fn take_tree_line(alloc: Global, line: &TreeLine, checks: &mut Checks<'_>) -> Result<(), AllocError>
    requires line { HasSmallDenominator (tree_line_of line.now) }
    requires may { MayTakeLines checks.old (says_tree (tree_line_of line.now) ∷ []) }
    ensures taken { IfOk result (λ _. TakesLines checks.old (says_tree (tree_line_of line.now) ∷ []) checks.new) }
    ensures instance { checks.new.instance ≡ checks.old.instance }
{
    match line {
        TreeLine::BranchOn(k) => checks.take_alone(alloc, Item::Branch(*k)),
        TreeLine::Leaf(mix) => take_leaf(alloc, mix, checks),
        TreeLine::Empty => checks.take_alone(alloc, Item::Empty),
        TreeLine::Block { i, j } => checks.take_alone(alloc, Item::Block { i: *i, j: *j }),
        TreeLine::Count => checks.take_alone(alloc, Item::Count),
    }
}

fn take_leaf(alloc: Global, mix: &Mix, checks: &mut Checks<'_>) -> Result<(), AllocError>
    requires denom { mix.now.denom ≤ most_denominator }
    requires may { MayTakeLines checks.old (says_tree (leaf_of mix.now.denom mix.now.weights) ∷ []) }
    ensures taken { IfOk result (λ _. TakesLines checks.old (says_tree (leaf_of mix.now.denom mix.now.weights) ∷ []) checks.new) }
    ensures instance { checks.new.instance ≡ checks.old.instance }
{
    let denom = mix.denominator() as u32;
    checks.take_line(alloc, &ListLine::Leaf { denom, mix }, None)
}
