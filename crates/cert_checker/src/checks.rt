//! The check of a certificate that is held in memory.

ghost use Rattle.std.specs.Prelude.{◌≡◌, ◌↔◌, length, IsTrue, IfOk};
ghost use Rattle.hub_spec.specs.Problem.{IsProblem};
ghost use Rattle.cert_spec.specs.Stated.{IsStatedInRange};
ghost use Rattle.cert_scan.specs.Parts.{items_of};
ghost use Rattle.cert_conditions.specs.Taken.{HasTaken};
ghost use Rattle.cert_checker.specs.Answers.{IsOfSize, IsByCost, IsVerdict, ShowsBound, ShowsOptimal, ShowsMarks};

use crate::verdicts::Verdict;
use crate::walks::take_certificate;
use cert_conditions::{Checks, Kind};
use cert_format::Certificate;
use hub_model::Instance;
use std::alloc::{AllocError, Global};
use std::thread::Threads;

/// The line of a certificate's text that states its numbers of nodes and of candidates, counted from 1.
pub(crate) const SIZE_LINE: u64 = 2;

/// What the certificate proves of its plan for the instance.
///
/// The conditions are tested in order: size, bound and cost, plan, cuts and their marks, tree. Lines are those of the
/// certificate's text, counted from 1. The duals of a large cut are tested in parallel. It fails only where memory runs
/// out.
pub fn check<R: Threads + Sync>(
    rt: &R,
    alloc: Global,
    instance: &Instance,
    certificate: &Certificate,
) -> Result<Verdict, AllocError>
    ensures verdict { IfOk result (IsVerdict instance.now certificate.now) }
    ensures bound { IfOk result (ShowsBound instance.now certificate.now) }
    ensures optimal { IfOk result (ShowsOptimal instance.now certificate.now) }
    ensures marks { IfOk result (ShowsMarks instance.now certificate.now) }
{
    if !is_of_size(instance, certificate) {
        return Ok(Verdict::No {
            kind: Kind::Size,
            line: SIZE_LINE,
        });
    }
    let mut checks = Checks::new(alloc, instance)?;
    take_certificate(rt, alloc, certificate, &mut checks)?;
    Ok(verdict_by(certificate, &checks))
}

/// Whether the certificate's numbers of nodes and candidates are the instance's.
pub(crate) fn is_of_size(instance: &Instance, certificate: &Certificate) -> bool
    ensures problem { IsProblem instance.now }
    ensures in_range { IsStatedInRange certificate.now }
    ensures is { IsTrue result ↔ IsOfSize instance.now certificate.now.proof }
{
    certificate.size() == instance.size()
        && certificate.candidates() as usize == instance.candidates().len()
}

/// The verdict after the check of all lines.
fn verdict_by(certificate: &Certificate, checks: &Checks<'_>) -> Verdict
    requires problem { IsProblem checks.now.instance.now }
    requires taken { HasTaken (items_of certificate.now) checks.now }
    ensures verdict { IsVerdict checks.now.instance.now certificate.now result }
    ensures bound { ShowsBound checks.now.instance.now certificate.now result }
    ensures optimal { ShowsOptimal checks.now.instance.now certificate.now result }
    ensures marks { ShowsMarks checks.now.instance.now certificate.now result }
{
    // What is known of a certificate comes with its size.
    let nodes = certificate.size();
    prove!(nodes > 0);
    match checks.first_failure() {
        Some((kind, line)) => Verdict::No { kind, line },
        None => verdict_of(certificate),
    }
}

/// The verdict if all conditions hold.
fn verdict_of(certificate: &Certificate) -> Verdict
    ensures { IsByCost certificate.now result }
{
    if certificate.bound() == certificate.cost() {
        return Verdict::Optimal;
    }
    Verdict::Bounds
}
