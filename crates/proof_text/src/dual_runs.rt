//! The lines of the duals of an origin from the second version on: a run of equal duals is one line.

ghost use Rattle.std.specs.Prelude.{◌≡◌, ◌<◌};
ghost use Rattle.cert_spec.specs.Lines.{says_dual};
ghost use Rattle.cert_format.specs.Puts.{PutsLine, PutsLines};
ghost use Rattle.cert_format.specs.DualItems.{dual_items_from};
ghost use Rattle.cut_pool.specs.Kept.{kept_of, IsKeptFor};
ghost use Rattle.dual_lender.specs.Lenders.{kept_dual, HasDuals};

use cert_format::put_dual;
use cut_pool::KeptCut;
use dual_lender::DualLender;
use hub_io::{Buffer, Failed, Sink};
use hub_model::Instance;

/// Puts a line for each run of equal duals of the commodities from `i`. It takes no memory.
///
/// The workspace holds the dual of the run, and the next one is compared with it.
pub(crate) fn put_runs<K: Sink>(
    instance: &Instance,
    kept: &KeptCut,
    i: u32,
    lender: &mut DualLender,
    buffer: &mut Buffer,
    sink: &mut K,
) -> Result<(), Failed>
    requires fits { IsKeptFor instance.now (kept_of kept.now) }
    requires duals { HasDuals instance.now (kept_of kept.now) i lender.old }
    requires origin { i < instance.now.size }
    ensures duals { HasDuals instance.now (kept_of kept.now) i lender.new }
    ensures lines { PutsLines K.taken K.faults sink.old sink.new buffer.old buffer.new result
        (dual_items_from 2 instance.now.size (kept_dual instance.now (kept_of kept.now)) i) }
{
    let size = instance.size();
    let mut first = 0;
    lender.make(instance, kept, i, 0);
    lender.hold(kept);
    for j in 1..size {
        lender.make(instance, kept, i, j);
        if !lender.holds(kept) {
            put_run(i, first, j - first, lender, buffer, sink)?;
            lender.hold(kept);
            first = j;
        }
    }
    put_run(i, first, size - first, lender, buffer, sink)
}

// Puts the line of the dual that is held, for so many commodities from `i`, the first of which goes to `first`.
fn put_run<K: Sink>(
    i: u32,
    first: u32,
    run: u32,
    lender: &DualLender,
    buffer: &mut Buffer,
    sink: &mut K,
) -> Result<(), Failed>
    ensures { PutsLine K.taken K.faults sink.old sink.new buffer.old buffer.new result
        (says_dual (i, first) run lender.now.held) }
{
    let (a, u) = lender.held();
    put_dual(i, first, run, a, u, buffer, sink)
}
