//! The duals of a cut, tested in parallel.

ghost use Rattle.std.specs.Prelude.{◌≡◌, ◌*◌, ◌<◌, ◌≤◌, ◌↔◌, length, false, IsTrue, IfSome, All};
ghost use Rattle.hub_spec.specs.Limits.{most_part};
ghost use Rattle.hub_spec.specs.Ranges.{IsDualInRange, IsCutInRange};
ghost use Rattle.cert_checker.specs.Duals.{IsDualAt, MayTryDual, IsFirstFailing};
ghost use Rattle.cert_checker.specs.Walks.{IsKnownCut};

use cert_conditions::Checks;
use cut_model::StatedCut;
use dual_lines::is_dual;
use hub_model::Instance;
use rayon::prelude::*;
use std::thread::Threads;

/// A thread tests at least this many duals, so that a small cut is tested by one.
const DUALS_OF_A_THREAD: usize = 512;

/// The part of the cut, if no condition failed before and all of its duals are feasible with it.
pub(crate) fn known_part<R: Threads + Sync>(
    rt: &R,
    checks: &Checks<'_>,
    cut: &StatedCut,
) -> Option<u32>
    requires cut { IsCutInRange checks.now.instance.now.size cut.now }
    ensures { IfSome result (IsKnownCut checks.now.instance.now.size checks.now.instance.now cut.now) }
{
    if checks.first_failure().is_some() {
        return None;
    }
    match first_failing(rt, checks.instance(), cut) {
        None => Some(cut.part()),
        Some(_) => None,
    }
}

/// The number of the first commodity whose dual is infeasible. The duals are tested in parallel, also those after it.
pub(crate) fn first_failing<R: Threads + Sync>(
    rt: &R,
    instance: &Instance,
    cut: &StatedCut,
) -> Option<u32>
    requires part { cut.now.part ≤ most_part }
    requires one_for_each { length cut.now.duals ≡ instance.now.size * instance.now.size }
    requires duals { All (IsDualInRange instance.now.size) cut.now.duals }
    ensures { IsFirstFailing instance.now cut.now.part cut.now.duals result }
{
    let n = instance.size();
    (0..n * n)
        .into_par_iter()
        .with_min_len(DUALS_OF_A_THREAD)
        .find_first(
            rt,
            |t: &u32| -> bool
                requires { MayTryDual instance.now cut.now.part cut.now.duals t.now }
                ensures { (result ≡ false) ↔ IsDualAt instance.entry.now cut.entry.now.part cut.entry.now.duals t.entry.now }
            { !is_dual_at(instance, cut, *t) },
        )
}

/// Whether the dual of the commodity of this number is feasible.
fn is_dual_at(instance: &Instance, cut: &StatedCut, t: u32) -> bool
    requires { MayTryDual instance.now cut.now.part cut.now.duals t }
    ensures { IsTrue result ↔ IsDualAt instance.now cut.now.part cut.now.duals t }
{
    let n = instance.size();
    is_dual(instance, cut.part(), (t / n, t % n), &cut.dual(t))
}
