//! The lines of a stored cut: its first line, and those of its duals.

ghost use Rattle.std.specs.Prelude.{◌≡◌, ◌<◌};
ghost use Rattle.cert_scan.specs.Versions.{version_number};
ghost use Rattle.cert_format.specs.Puts.{PutsLine, PutsLines};
ghost use Rattle.cert_format.specs.DualItems.{dual_items_from};
ghost use Rattle.cut_pool.specs.Kept.{kept_of, IsKeptFor};
ghost use Rattle.dual_lender.specs.Lenders.{kept_dual, IsLenderFor, IsReady, HasDuals};
ghost use Rattle.proof_text.specs.Certificates.{mark_said};
ghost use Rattle.proof_text.specs.Texts.{head_item, duals_with, kept_dual_items};

use crate::dual_runs::put_runs;
use crate::marks::said_mark;
use crate::numbered::NumberedCut;
use crate::proved_duals::put_proved;
use cert_format::{Version, put_cut, put_dual, put_marked_cut};
use cut_pool::KeptCut;
use dual_lender::DualLender;
use hub_io::{Buffer, Failed, Sink};
use hub_model::Instance;

/// Puts the line that begins the cut, with the mark that the version says.
pub(crate) fn put_cut_line<K: Sink>(
    cut: &NumberedCut<'_>,
    buffer: &mut Buffer,
    sink: &mut K,
) -> Result<(), Failed>
    ensures { let v = version_number cut.now.version in let k = kept_of cut.now.kept.now in
        PutsLine K.taken K.faults sink.old sink.new buffer.old buffer.new result (head_item v cut.now.number k (mark_said v k)) }
{
    let part = cut.kept.part();
    match said_mark(cut.version, cut.kept) {
        Some(mark) => put_marked_cut(cut.number, part, mark.hubs(), buffer, sink),
        None => put_cut(cut.version, cut.number, part, buffer, sink),
    }
}

/// Puts the lines of the duals of the cut, origin by origin. It takes no memory.
pub(crate) fn put_kept_duals<K: Sink>(
    cut: &NumberedCut<'_>,
    lender: &mut DualLender,
    buffer: &mut Buffer,
    sink: &mut K,
) -> Result<(), Failed>
    requires lender { IsLenderFor cut.now.instance.now lender.old }
    requires fits { IsKeptFor cut.now.instance.now (kept_of cut.now.kept.now) }
    ensures lender { IsLenderFor cut.now.instance.now lender.new }
    ensures lines { PutsLines K.taken K.faults sink.old sink.new buffer.old buffer.new result
        (kept_dual_items (version_number cut.now.version) cut.now.instance.now (kept_of cut.now.kept.now)) }
{
    lender.begin(cut.instance, cut.kept);
    for i in 0..cut.instance.size() {
        put_origin(cut, i, lender, buffer, sink)?;
    }
    Ok(())
}

/// Puts the lines of the duals of the commodities from `i`. Each has its proof where the version states a mark of the
/// cut. The workspace stays ready for the cut.
pub(crate) fn put_origin<K: Sink>(
    cut: &NumberedCut<'_>,
    i: u32,
    lender: &mut DualLender,
    buffer: &mut Buffer,
    sink: &mut K,
) -> Result<(), Failed>
    requires fits { IsKeptFor cut.now.instance.now (kept_of cut.now.kept.now) }
    requires ready { IsReady cut.now.instance.now (kept_of cut.now.kept.now) lender.old }
    requires origin { i < cut.now.instance.now.size }
    ensures ready { IsReady cut.now.instance.now (kept_of cut.now.kept.now) lender.new }
    ensures lines { let v = version_number cut.now.version in let k = kept_of cut.now.kept.now in
        PutsLines K.taken K.faults sink.old sink.new buffer.old buffer.new result (duals_with v cut.now.instance.now k (mark_said v k) i) }
{
    lender.work_out(cut.instance, cut.kept, i);
    match said_mark(cut.version, cut.kept) {
        Some(mark) => put_proved(cut, mark.proofs(), i, lender, buffer, sink),
        None => put_unmarked(cut, i, lender, buffer, sink),
    }
}

// Puts the lines of the duals of the commodities from `i` without proofs.
fn put_unmarked<K: Sink>(
    cut: &NumberedCut<'_>,
    i: u32,
    lender: &mut DualLender,
    buffer: &mut Buffer,
    sink: &mut K,
) -> Result<(), Failed>
    requires fits { IsKeptFor cut.now.instance.now (kept_of cut.now.kept.now) }
    requires duals { HasDuals cut.now.instance.now (kept_of cut.now.kept.now) i lender.old }
    requires origin { i < cut.now.instance.now.size }
    ensures duals { HasDuals cut.now.instance.now (kept_of cut.now.kept.now) i lender.new }
    ensures lines { PutsLines K.taken K.faults sink.old sink.new buffer.old buffer.new result
        (dual_items_from (version_number cut.now.version) cut.now.instance.now.size (kept_dual cut.now.instance.now (kept_of cut.now.kept.now)) i) }
{
    match cut.version {
        Version::First => put_each(cut.instance, cut.kept, i, lender, buffer, sink),
        Version::Second | Version::Third => {
            put_runs(cut.instance, cut.kept, i, lender, buffer, sink)
        }
    }
}

// Puts a line for the dual of each commodity from `i`, as the first version has them.
fn put_each<K: Sink>(
    instance: &Instance,
    kept: &KeptCut,
    i: u32,
    lender: &mut DualLender,
    buffer: &mut Buffer,
    sink: &mut K,
) -> Result<(), Failed>
    requires fits { IsKeptFor instance.now (kept_of kept.now) }
    requires duals { HasDuals instance.now (kept_of kept.now) i lender.old }
    requires origin { i < instance.now.size }
    ensures duals { HasDuals instance.now (kept_of kept.now) i lender.new }
    ensures lines { PutsLines K.taken K.faults sink.old sink.new buffer.old buffer.new result
        (dual_items_from 1 instance.now.size (kept_dual instance.now (kept_of kept.now)) i) }
{
    for j in 0..instance.size() {
        lender.make(instance, kept, i, j);
        let (a, u) = lender.dual(kept);
        put_dual(i, j, 1, a, u, buffer, sink)?;
    }
    Ok(())
}
