//! The runs of a cut's duals, each of which is a line. From version 2 on a run is equal neighbours of one origin. In version
//! 1 it is a single dual.

ghost use Rattle.std.specs.Prelude.{◌≡◌, ◌+◌, ◌*◌, ◌^◌, ◌<◌, ◌≤◌, length};
ghost use Rattle.hub_spec.specs.Limits.{most_nodes};
ghost use Rattle.cert_spec.specs.Text.{dual_runs};
ghost use Rattle.cert_scan.specs.Versions.{version_number};
ghost use Rattle.cert_checker.specs.Runs.{place_of, begins_run, begun};

use cert_format::Version;
use cut_model::StatedCut;

/// The number of runs of the duals.
pub(crate) fn run_count(version: Version, n: u32, cut: &StatedCut) -> u64
    requires some { 1 ≤ n }
    requires few { n ≤ most_nodes }
    requires one_for_each { length cut.now.duals ≡ n * n }
    ensures value { result ≡ length (dual_runs (version_number version) n cut.now.duals) }
    ensures limit { result ≤ n * n }
{
    run_place(version, n, cut, n * n - 1) + 1
}

/// The index of the run, from 0, that has the commodity `t`.
pub(crate) fn run_place(version: Version, n: u32, cut: &StatedCut, t: u32) -> u64
    requires some { 1 ≤ n }
    requires few { n ≤ most_nodes }
    requires within { t < length cut.now.duals }
    ensures value { result ≡ place_of (dual_runs (version_number version) n cut.now.duals) t }
    ensures limit { result ≤ t }
{
    match version {
        Version::First => t as u64,
        Version::Second | Version::Third => runs_begun(n, cut, t),
    }
}

/// The number of runs of equal neighbours that begin after the first commodity, up to commodity `t`.
fn runs_begun(n: u32, cut: &StatedCut, t: u32) -> u64
    requires some { 1 ≤ n }
    requires within { t < length cut.now.duals }
    ensures value { result ≡ begun n cut.now.duals t }
    ensures limit { result ≤ t }
{
    let mut count = 0;
    for u in 0..t {
        if begins_run(n, cut, u + 1) {
            count += 1;
        }
    }
    count
}

/// Whether a run begins with commodity `t`: its origin or its dual differs from that of the commodity before it.
fn begins_run(n: u32, cut: &StatedCut, t: u32) -> bool
    requires some { 1 ≤ n }
    requires later { 1 ≤ t }
    requires within { t < length cut.now.duals }
    ensures { result ≡ begins_run n cut.now.duals t }
{
    t % n == 0 || !cut.is_same(t - 1, t)
}
