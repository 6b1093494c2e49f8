//! The texts of consecutive places, by workers side by side.

ghost use Rattle.std.specs.Prelude.{◌≡◌, ◌<◌, ◌+◌, ◌/◌, Some, flat_map, IfOk};
ghost use Rattle.cert_spec.specs.Text.{line_bytes};
ghost use Rattle.hub_io.specs.Outside.{Puts};
ghost use Rattle.dual_lender.specs.Lenders.{IsReady};
ghost use Rattle.proof_text.specs.Places.{AreLines, Lends, place_count, cut_of, items_of};
ghost use Rattle.proof_text.specs.Stretches.{IsStretch, IsTextAt, Serves};

use crate::memory_texts::MemoryText;
use crate::places::CutLines;
use claim_board::Job;
use dual_lender::DualLender;
use hub_io::{Buffer, Failed, Sink};
use std::alloc::{AllocError, Global};

/// Some places as a job of the worker pool: block b is the text of the place that stands so far behind the first.
#[derive(Drop)]
pub(crate) struct Stretch<'a> {
    pub(crate) lines: &'a CutLines<'a>,
    pub(crate) first: u64,
    pub(crate) count: u32,
}

/// What a worker makes duals in.
#[derive(Drop)]
pub(crate) struct PlaceScratch<'a> {
    lender: DualLender<'a>,
    // The number of the cut that the workspace is ready for.
    cut: Option<u64>,
}

impl<'a> Job<Vec<u8>> for Stretch<'a> {
    type Scratch = PlaceScratch<'a>;

    ghost answer = { λ job block text. IsTextAt job block text.items };

    ghost accepts = { λ job block. (block < job.count) × IsStretch job };

    ghost serves = { Serves };

    fn new_scratch(&self, alloc: Global) -> Result<PlaceScratch<'a>, AllocError> {
        Ok(PlaceScratch {
            lender: DualLender::new(alloc, self.lines.tables)?,
            cut: None,
        })
    }

    fn at(
        &self,
        alloc: Global,
        scratch: &mut PlaceScratch<'a>,
        block: u32,
    ) -> Result<Vec<u8>, AllocError> {
        let place = self.first + block as u64;
        scratch.make_ready(self.lines, place);
        place_text(alloc, self.lines, place, &mut scratch.lender)
    }
}

impl PlaceScratch<'_> {
    // Makes the workspace ready for the cut of the place, where it is not yet.
    fn make_ready(&mut self, lines: &CutLines, place: u64)
        requires lines { AreLines lines.now }
        requires place { place < place_count lines.now }
        requires lends { Lends lines.now self.old.cut self.old.lender }
        ensures lends { Lends lines.now self.new.cut self.new.lender }
        ensures cut { self.new.cut ≡ Some (place / lines.now.tables.now.size + 1) }
    {
        let c = lines.cut_number(place);
        if self.cut != Some(c) {
            lines.begin(place, &mut self.lender);
            self.cut = Some(c);
        }
    }
}

// The text of the place. The workspace stays ready for its cut.
fn place_text(
    alloc: Global,
    lines: &CutLines,
    place: u64,
    lender: &mut DualLender,
) -> Result<Vec<u8>, AllocError>
    requires lines { AreLines lines.now }
    requires place { place < place_count lines.now }
    requires ready { IsReady lines.now.tables.now (cut_of lines.now place) lender.old }
    ensures ready { IsReady lines.now.tables.now (cut_of lines.now place) lender.new }
    ensures text { IfOk result (λ text. text.items ≡ flat_map line_bytes (items_of lines.now place)) }
{
    let mut text = MemoryText::new(alloc);
    match write_place(lines, place, lender, &mut text) {
        Ok(()) => Ok(text.bytes),
        Err(Failed) => Err(AllocError),
    }
}

// Writes the text of the place. The workspace stays ready for its cut.
fn write_place<K: Sink>(
    lines: &CutLines,
    place: u64,
    lender: &mut DualLender,
    sink: &mut K,
) -> Result<(), Failed>
    requires lines { AreLines lines.now }
    requires place { place < place_count lines.now }
    requires ready { IsReady lines.now.tables.now (cut_of lines.now place) lender.old }
    ensures ready { IsReady lines.now.tables.now (cut_of lines.now place) lender.new }
    ensures text { Puts K.taken K.faults sink.old sink.new result (flat_map line_bytes (items_of lines.now place)) }
{
    let mut buffer = Buffer::new();
    lines.put_place(place, lender, &mut buffer, sink)?;
    buffer.finish(sink)
}
