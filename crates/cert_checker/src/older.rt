//! The cuts of an older certificate, for the warm start of a search.

ghost use Rattle.std.specs.Prelude.{◌≡◌, ℕ, ◌+◌, ◌*◌, ◌<◌, ◌≤◌, ◌↔◌, length, slice_index, IsTrue, IfOk, All};
ghost use Rattle.std.specs.Option.{IfSome, IfNone, IsNone};
ghost use Rattle.hub_spec.specs.Limits.{most_nodes, most_part};
ghost use Rattle.hub_spec.specs.Cuts.{IsWithinSums, IsCut};
ghost use Rattle.hub_spec.specs.Certificates.{HasCutsOf};
ghost use Rattle.hub_spec.specs.Ranges.{IsDualInRange, IsCutInRange};
ghost use Rattle.cert_spec.specs.Conditions.{FailsFirst, older_conditions};
ghost use Rattle.cert_scan.specs.Versions.{version_number};
ghost use Rattle.cert_conditions.specs.Kinds.{kind_of};
ghost use Rattle.cert_checker.specs.Duals.{IsFirstFailing};
ghost use Rattle.cert_checker.specs.Older.{dual_place, cut_lines, CutFails};

use crate::checks::{SIZE_LINE, is_of_size};
use crate::runs::{run_count, run_place};
use cert_conditions::Kind;
use cert_format::{Certificate, Version};
use cut_model::{Mark, StatedCut, StatedDual};
use dual_lines::DualLine;
use hub_model::{Instance, MOST_COST};
use std::alloc::{AllocError, Global};
use std::thread::Threads;

/// Tests the size and the cuts of an older certificate, whatever their marks. It returns the first condition that fails, with
/// its line in the certificate's text, counted from 1, or `None`.
///
/// The cuts are tested one after another. It fails only where memory runs out.
pub fn check_cuts<R: Threads + Sync>(
    _rt: &R,
    alloc: Global,
    instance: &Instance,
    certificate: &Certificate,
) -> Result<Option<(Kind, u64)>, AllocError>
    ensures fails { IfOk result (λ o. IfSome o (λ f. FailsFirst (older_conditions instance.now certificate.now) (kind_of f.0) f.1)) }
    ensures holds { IfOk result (λ o. IfNone o (HasCutsOf instance.now certificate.now.proof)) }
    ensures only { HasCutsOf instance.now certificate.now.proof → IfOk result IsNone }
{
    if !is_of_size(instance, certificate) {
        return Ok(Some((Kind::Size, SIZE_LINE)));
    }
    let n = instance.size();
    let version = certificate.version();
    let cuts = certificate.cuts();
    let marks = certificate.marks();
    let mut duals = DualLine::new(alloc, instance)?;
    // The first cut stands behind the line that says how many there are.
    let mut line = 7 + n as u64 * n as u64;
    for x in 0..cuts.len() {
        let cut = &cuts[x];
        let mark = &marks[x];
        if let Some((kind, place)) = failure_of(alloc, instance, &mut duals, version, cut, mark)? {
            return Ok(Some((kind, line + place)));
        }
        line += lines_of(version, n, cut, mark);
    }
    Ok(None)
}

// What fails first of the cut, with the place of its line among the cut's, the first of which has the place 0.
fn failure_of(
    alloc: Global,
    instance: &Instance,
    duals: &mut DualLine<'_>,
    version: Version,
    cut: &StatedCut,
    mark: &Option<Mark>,
) -> Result<Option<(Kind, u64)>, AllocError>
    requires same { duals.old.problem ≡ instance.now }
    requires cut { IsCutInRange instance.now.size cut.now }
    ensures same { duals.new.problem ≡ instance.now }
    ensures fails { IfOk result (λ o. IfSome o (CutFails (version_number version) instance.now cut.now mark.now)) }
    ensures limit { IfOk result (λ o. IfSome o (λ f. f.1 ≤ 2 * (instance.now.size * instance.now.size))) }
    ensures holds { IfOk result (λ o. IfNone o (IsCut instance.now cut.now)) }
{
    let n = instance.size();
    if let Some(t) = first_failing_on(duals, n, cut) {
        return Ok(Some((Kind::Dual, place_of_dual(version, n, cut, mark, t))));
    }
    if !is_within_sums(alloc, instance, cut)? {
        return Ok(Some((Kind::Sum, place_of_dual(version, n, cut, mark, n * n - 1))));
    }
    Ok(None)
}

// The place of the dual of the commodity of this number among the lines of its cut.
fn place_of_dual(version: Version, n: u32, cut: &StatedCut, mark: &Option<Mark>, t: u32) -> u64
    requires some { 1 ≤ n }
    requires few { n ≤ most_nodes }
    requires within { t < length cut.now.duals }
    ensures value { result ≡ dual_place (version_number version) n cut.now.duals mark.now t }
    ensures limit { result ≤ 1 + 2 * t }
{
    match mark {
        None => 1 + run_place(version, n, cut, t),
        Some(_) => 1 + 2 * t as u64,
    }
}

// How many lines the cut takes.
fn lines_of(version: Version, n: u32, cut: &StatedCut, mark: &Option<Mark>) -> u64
    requires some { 1 ≤ n }
    requires few { n ≤ most_nodes }
    requires one_for_each { length cut.now.duals ≡ n * n }
    ensures value { result ≡ cut_lines (version_number version) n cut.now mark.now }
    ensures limit { result ≤ 2 * (n * n) + 1 }
{
    match mark {
        None => run_count(version, n, cut) + 1,
        Some(_) => 2 * cut.count() as u64 + 1,
    }
}

// The number of the first commodity whose dual is not feasible, by this line.
fn first_failing_on(duals: &mut DualLine<'_>, n: u32, cut: &StatedCut) -> Option<u32>
    requires size { n ≡ duals.old.problem.size }
    requires few { n ≤ most_nodes }
    requires cut { IsCutInRange n cut.now }
    ensures same { duals.new.problem ≡ duals.old.problem }
    ensures first { IsFirstFailing duals.old.problem cut.now.part cut.now.duals result }
{
    for t in 0..n * n {
        list_dual(duals, (t / n, t % n), cut.part(), &cut.dual(t));
        if !duals.holds() {
            return Some(t);
        }
    }
    None
}

// Lists the dual of a commodity, with this part.
fn list_dual(line: &mut DualLine<'_>, commodity: (u32, u32), part: u32, dual: &StatedDual<'_>)
    requires from { commodity.0 < line.old.problem.size }
    requires to { commodity.1 < line.old.problem.size }
    requires part_least { 1 ≤ part }
    requires part_most { part ≤ most_part }
    requires dual { IsDualInRange line.old.problem.size dual.now }
    ensures { line.new ≡ record {
      problem = line.old.problem;
      commodity = commodity;
      part = part;
      run = 1;
      dual = dual.now;
    } }
{
    line.begin(commodity.0, commodity.1, 1, part, dual.price());
    for at in 0..dual.count() {
        let (k, value) = dual.value(at);
        line.list(k, value);
    }
}

// Tells whether the total of the cut and its loads of the candidates are within their limit.
fn is_within_sums(alloc: Global, instance: &Instance, cut: &StatedCut) -> Result<bool, AllocError>
    requires { IsCutInRange instance.now.size cut.now }
    ensures { IfOk result (λ is. IsTrue is ↔ IsWithinSums instance.now cut.now) }
{
    let n = instance.size();
    let limit = cut.part() as u128 * MOST_COST;
    if cut.total() > limit {
        return Ok(false);
    }
    let loads = cut.loads(alloc, n)?;
    Ok(are_loads_within(instance, &loads, limit))
}

fn are_loads_within(instance: &Instance, loads: &[u128], limit: u128) -> bool
    requires { length loads.now ≡ instance.now.size }
    ensures { IsTrue result ↔ All (λ k. slice_index loads.now k ≤ limit) instance.now.candidates }
{
    let candidates = instance.candidates();
    for k in candidates {
        if !is_load_within(loads, *k, limit) {
            return false;
        }
    }
    true
}

fn is_load_within(loads: &[u128], k: u32, limit: u128) -> bool
    requires { k < length loads.now }
    ensures { IsTrue result ↔ (slice_index loads.now k ≤ limit) }
{
    loads[k as usize] <= limit
}
