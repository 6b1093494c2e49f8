//! The text of the certificate of a finding, put part by part.

ghost use Rattle.std.specs.Prelude.{◌≡◌, ◌≤◌, All};
ghost use Rattle.cert_spec.specs.Text.{cut_items_as};
ghost use Rattle.hub_io.specs.Outside.{Puts};
ghost use Rattle.cert_scan.specs.Versions.{version_number};
ghost use Rattle.cert_format.specs.Puts.{PutsLines};
ghost use Rattle.cut_pool.specs.Kept.{kept_of, kept_cut, IsKeptFor};
ghost use Rattle.dual_lender.specs.Lenders.{IsLenderFor};
ghost use Rattle.proof_text.specs.Certificates.{mark_said, CanBeStated};
ghost use Rattle.proof_text.specs.Places.{AreLines};
ghost use Rattle.proof_text.specs.Texts.{kept_items, found_top_items, found_items, found_text};

use crate::dual_lines::{put_cut_line, put_kept_duals};
use crate::headings::heading_of;
use crate::numbered::NumberedCut;
use crate::places::CutLines;
use crate::together::{Workers, put_cuts_together};
use cert_format::{Version, put_top, put_tree};
use cut_pool::{Found, KeptCuts};
use dual_lender::DualLender;
use hub_io::{Buffer, Failed, Sink};
use hub_model::Instance;
use std::thread::Threads;

/// The finding of a search of the instance, and the version of its text.
#[derive(Clone, Copy)]
pub struct Finding<'a> {
    pub instance: &'a Instance,
    pub found: &'a Found,
    pub version: Version,
}

/// Writes the certificate of the finding. In the third version Pareto-optimal cuts are marked. It fails only where a
/// put does.
///
/// Each dual is computed again, in the workspace, which is for the instance, or by the workers. The text does not
/// depend on the number of workers. One worker allocates nothing. Where memory for several runs out, this thread does
/// their work in the workspace.
pub fn write_found<R: Threads + Sync, K: Sink>(
    workers: &Workers<R>,
    finding: &Finding<'_>,
    lender: &mut DualLender,
    sink: &mut K,
) -> Result<(), Failed>
    requires lender { IsLenderFor finding.now.instance.now lender.old }
    requires found { CanBeStated finding.now.instance.now finding.now.found.now }
    requires workers { (1 ≤ workers.now.count) × (workers.now.count ≤ 64) }
    ensures lender { IsLenderFor finding.now.instance.now lender.new }
    ensures text { Puts K.taken K.faults sink.old sink.new result
        (found_text (version_number finding.now.version) finding.now.instance.now finding.now.found.now) }
{
    let mut buffer = Buffer::new();
    put_found(workers, finding, lender, &mut buffer, sink)?;
    buffer.finish(sink)
}

fn put_found<R: Threads + Sync, K: Sink>(
    workers: &Workers<R>,
    finding: &Finding<'_>,
    lender: &mut DualLender,
    buffer: &mut Buffer,
    sink: &mut K,
) -> Result<(), Failed>
    requires lender { IsLenderFor finding.now.instance.now lender.old }
    requires found { CanBeStated finding.now.instance.now finding.now.found.now }
    requires workers { (1 ≤ workers.now.count) × (workers.now.count ≤ 64) }
    ensures lender { IsLenderFor finding.now.instance.now lender.new }
    ensures lines { PutsLines K.taken K.faults sink.old sink.new buffer.old buffer.new result
        (found_items (version_number finding.now.version) finding.now.instance.now finding.now.found.now) }
{
    put_found_top(finding, buffer, sink)?;
    let lines = CutLines {
        tables: lender.tables(),
        cuts: &finding.found.cuts,
        version: finding.version,
    };
    put_cuts(workers, &lines, lender, buffer, sink)?;
    put_tree(&finding.found.tree, buffer, sink)
}

// Puts the lines of the cuts: one worker needs no thread, and no text in memory.
fn put_cuts<'a, R: Threads + Sync, K: Sink>(
    workers: &Workers<R>,
    lines: &'a CutLines<'a>,
    lender: &mut DualLender,
    buffer: &mut Buffer,
    sink: &mut K,
) -> Result<(), Failed>
    requires lines { AreLines lines.now }
    requires workers { (1 ≤ workers.now.count) × (workers.now.count ≤ 64) }
    requires lender { IsLenderFor lines.now.tables.now lender.old }
    ensures lender { IsLenderFor lines.now.tables.now lender.new }
    ensures lines { PutsLines K.taken K.faults sink.old sink.new buffer.old buffer.new result
        (kept_items (version_number lines.now.version) lines.now.tables.now lines.now.cuts.now.cuts) }
{
    if workers.count > 1 {
        return put_cuts_together(workers, lines, lender, buffer, sink);
    }
    put_kept_cuts(
        lines.version,
        lines.tables.instance(),
        lines.cuts,
        lender,
        buffer,
        sink,
    )
}

// Puts the lines up to the number of cuts.
fn put_found_top<K: Sink>(
    finding: &Finding<'_>,
    buffer: &mut Buffer,
    sink: &mut K,
) -> Result<(), Failed>
    requires { CanBeStated finding.now.instance.now finding.now.found.now }
    ensures { PutsLines K.taken K.faults sink.old sink.new buffer.old buffer.new result
        (found_top_items (version_number finding.now.version) finding.now.instance.now finding.now.found.now) }
{
    let found = finding.found;
    let heading = heading_of(finding.instance, found, finding.version);
    let cuts = found.cuts.len();
    put_top(&heading, &found.plan, cuts, buffer, sink)
}

// Puts the lines of the cuts.
fn put_kept_cuts<K: Sink>(
    version: Version,
    instance: &Instance,
    cuts: &KeptCuts,
    lender: &mut DualLender,
    buffer: &mut Buffer,
    sink: &mut K,
) -> Result<(), Failed>
    requires some { 1 ≤ instance.now.size }
    requires lender { IsLenderFor instance.now lender.old }
    requires fit { All (IsKeptFor instance.now) cuts.now.cuts }
    ensures lender { IsLenderFor instance.now lender.new }
    ensures lines { PutsLines K.taken K.faults sink.old sink.new buffer.old buffer.new result
        (kept_items (version_number version) instance.now cuts.now.cuts) }
{
    for place in 0..cuts.len() {
        let number = place + 1;
        let kept = cuts.cut(number);
        let cut = NumberedCut {
            instance,
            version,
            number,
            kept,
        };
        put_kept_cut(&cut, lender, buffer, sink)?;
    }
    Ok(())
}

// Puts the lines of the cut.
fn put_kept_cut<K: Sink>(
    cut: &NumberedCut<'_>,
    lender: &mut DualLender,
    buffer: &mut Buffer,
    sink: &mut K,
) -> Result<(), Failed>
    requires some { 1 ≤ cut.now.instance.now.size }
    requires lender { IsLenderFor cut.now.instance.now lender.old }
    requires fits { IsKeptFor cut.now.instance.now (kept_of cut.now.kept.now) }
    ensures lender { IsLenderFor cut.now.instance.now lender.new }
    ensures lines { let v = version_number cut.now.version in let k = kept_of cut.now.kept.now in
        PutsLines K.taken K.faults sink.old sink.new buffer.old buffer.new result
        (cut_items_as v cut.now.instance.now.size cut.now.number (kept_cut cut.now.instance.now k) (mark_said v k)) }
{
    put_cut_line(cut, buffer, sink)?;
    put_kept_duals(cut, lender, buffer, sink)
}
