//! The lines of a finding's cuts, by workers side by side.

ghost use Rattle.std.specs.Prelude.{◌≤◌, flat_map};
ghost use Rattle.hub_io.specs.Outside.{PutsThrough};
ghost use Rattle.cert_scan.specs.Versions.{version_number};
ghost use Rattle.cert_format.specs.Puts.{PutsLines};
ghost use Rattle.dual_lender.specs.Lenders.{IsLenderFor};
ghost use Rattle.proof_text.specs.Places.{AreLines};
ghost use Rattle.proof_text.specs.Texts.{kept_items};
ghost use Rattle.proof_text.specs.Stretches.{IsStretch, items_along};

use crate::places::CutLines;
use crate::stretches::Stretch;
use claim_board::answers;
use dual_lender::DualLender;
use hub_io::{Buffer, Failed, OpenGate, Sink};
use std::alloc::Global;
use std::thread::Threads;

/// The workers that compute texts: 1 to 64, each in its own thread where one can be made, with their allocator.
#[derive(Clone, Copy)]
pub struct Workers<'a, R> {
    pub rt: &'a R,
    pub alloc: Global,
    pub count: u32,
}

// The most commodities of a stretch with more than one place. So its texts take little memory, and the work is worth
// the start of the workers.
const COMMODITIES: u32 = 16_384;

/// Puts the lines of the cuts. The workers make their texts, a stretch of places at a time. Where memory runs out,
/// this thread makes the stretch in the workspace.
pub(crate) fn put_cuts_together<'a, R: Threads + Sync, K: Sink>(
    workers: &Workers<R>,
    lines: &'a CutLines<'a>,
    lender: &mut DualLender,
    buffer: &mut Buffer,
    sink: &mut K,
) -> Result<(), Failed>
    requires lines { AreLines lines.now }
    requires workers { (1 ≤ workers.now.count) × (workers.now.count ≤ 64) }
    requires lender { IsLenderFor lines.now.tables.now lender.old }
    ensures lender { IsLenderFor lines.now.tables.now lender.new }
    ensures lines { PutsLines K.taken K.faults sink.old sink.new buffer.old buffer.new result
        (kept_items (version_number lines.now.version) lines.now.tables.now lines.now.cuts.now.cuts) }
{
    let places = lines.places();
    let most = stretch_length(lines.tables.instance().size());
    let mut first = 0;
    while first < places {
        let count = most.min(places - first) as u32;
        let stretch = Stretch {
            lines,
            first,
            count,
        };
        put_stretch(workers, &stretch, lender, buffer, sink)?;
        first += count as u64;
    }
    Ok(())
}

// How many places of so many nodes a stretch has at most.
fn stretch_length(size: u32) -> u64
    requires { 1 ≤ size }
    ensures some { 1 ≤ result }
    ensures few { result ≤ 16384 }
{
    (COMMODITIES / size).max(1) as u64
}

// Puts the lines of the stretch.
fn put_stretch<R: Threads + Sync, K: Sink>(
    workers: &Workers<R>,
    stretch: &Stretch,
    lender: &mut DualLender,
    buffer: &mut Buffer,
    sink: &mut K,
) -> Result<(), Failed>
    requires stretch { IsStretch stretch.now }
    requires workers { (1 ≤ workers.now.count) × (workers.now.count ≤ 64) }
    requires lender { IsLenderFor stretch.now.lines.now.tables.now lender.old }
    ensures lender { IsLenderFor stretch.now.lines.now.tables.now lender.new }
    ensures lines { PutsLines K.taken K.faults sink.old sink.new buffer.old buffer.new result (items_along stretch.now) }
{
    let Workers { rt, alloc, count } = *workers;
    match answers(rt, alloc, stretch, stretch.count, count, &OpenGate) {
        Ok(texts) => put_texts(&texts, buffer, sink),
        Err(_) => put_places(stretch, lender, buffer, sink),
    }
}

// Puts these texts one behind the other.
fn put_texts<K: Sink>(texts: &[Vec<u8>], buffer: &mut Buffer, sink: &mut K) -> Result<(), Failed>
    ensures { PutsThrough K.taken K.faults sink.old sink.new buffer.old buffer.new result (flat_map (λ text. text.items) texts.now) }
{
    for text in texts {
        buffer.put(text, sink)?;
    }
    Ok(())
}

// Puts the lines of the stretch on this thread. It takes no memory.
fn put_places<K: Sink>(
    stretch: &Stretch,
    lender: &mut DualLender,
    buffer: &mut Buffer,
    sink: &mut K,
) -> Result<(), Failed>
    requires stretch { IsStretch stretch.now }
    requires lender { IsLenderFor stretch.now.lines.now.tables.now lender.old }
    ensures lender { IsLenderFor stretch.now.lines.now.tables.now lender.new }
    ensures lines { PutsLines K.taken K.faults sink.old sink.new buffer.old buffer.new result (items_along stretch.now) }
{
    for block in 0..stretch.count {
        let place = stretch.first + block as u64;
        stretch.lines.begin(place, lender);
        stretch.lines.put_place(place, lender, buffer, sink)?;
    }
    Ok(())
}
