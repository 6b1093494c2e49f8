//! The lines of a finding's cuts by places. A place is an origin of a cut, in the order of the cuts.

ghost use Rattle.std.specs.Prelude.{◌≡◌, ◌+◌, ◌/◌, ◌%◌, ◌<◌};
ghost use Rattle.cert_scan.specs.Versions.{version_number};
ghost use Rattle.cert_format.specs.Puts.{PutsLines};
ghost use Rattle.cut_pool.specs.Kept.{kept_of, IsKeptFor};
ghost use Rattle.dual_lender.specs.Lenders.{IsLenderFor, IsReady};
ghost use Rattle.proof_text.specs.Texts.{head_items, origin_items};
ghost use Rattle.proof_text.specs.Places.{AreLines, place_count, cut_of, items_of};

use crate::dual_lines::{put_cut_line, put_origin};
use crate::numbered::NumberedCut;
use cert_format::Version;
use cut_pool::{KeptCut, KeptCuts};
use dual_lender::DualLender;
use hub_io::{Buffer, Failed, Sink};
use value_cuts::CandidateLegs;

/// The cuts of a finding for the instance, whose lines are put in this version.
#[derive(Drop)]
pub(crate) struct CutLines<'a> {
    pub(crate) tables: &'a CandidateLegs<'a>,
    pub(crate) cuts: &'a KeptCuts,
    pub(crate) version: Version,
}

impl CutLines<'_> {
    /// How many places there are.
    pub(crate) fn places(&self) -> u64
        requires { AreLines self.now }
        ensures { result ≡ place_count self.now }
    {
        self.cuts.len() * self.tables.instance().size() as u64
    }

    /// The number of the place's cut, counted from 1.
    pub(crate) fn cut_number(&self, place: u64) -> u64
        requires lines { AreLines self.now }
        requires place { place < place_count self.now }
        ensures { result ≡ place / self.now.tables.now.size + 1 }
    {
        place / self.tables.instance().size() as u64 + 1
    }

    // The place's origin.
    fn origin(&self, place: u64) -> u32
        requires { AreLines self.now }
        ensures value { result ≡ place % self.now.tables.now.size }
        ensures node { result < self.now.tables.now.size }
    {
        (place % self.tables.instance().size() as u64) as u32
    }

    // The place's cut.
    fn kept(&self, place: u64) -> &KeptCut
        requires lines { AreLines self.now }
        requires place { place < place_count self.now }
        ensures value { kept_of result.now ≡ cut_of self.now place }
        ensures fits { IsKeptFor self.now.tables.now (kept_of result.now) }
    {
        self.cuts.cut(self.cut_number(place))
    }

    /// Makes the workspace ready for the cut of the place.
    pub(crate) fn begin(&self, place: u64, lender: &mut DualLender)
        requires lines { AreLines self.now }
        requires place { place < place_count self.now }
        requires lender { IsLenderFor self.now.tables.now lender.old }
        ensures { IsReady self.now.tables.now (cut_of self.now place) lender.new }
    {
        lender.begin(self.tables.instance(), self.kept(place));
    }

    /// Puts the lines of the place. The workspace stays ready for its cut.
    pub(crate) fn put_place<K: Sink>(
        &self,
        place: u64,
        lender: &mut DualLender,
        buffer: &mut Buffer,
        sink: &mut K,
    ) -> Result<(), Failed>
        requires lines { AreLines self.now }
        requires place { place < place_count self.now }
        requires ready { IsReady self.now.tables.now (cut_of self.now place) lender.old }
        ensures ready { IsReady self.now.tables.now (cut_of self.now place) lender.new }
        ensures lines { PutsLines K.taken K.faults sink.old sink.new buffer.old buffer.new result (items_of self.now place) }
    {
        let number = self.cut_number(place);
        let i = self.origin(place);
        let kept = self.kept(place);
        let cut = NumberedCut {
            instance: self.tables.instance(),
            version: self.version,
            number,
            kept,
        };
        put_cut_origin(&cut, i, lender, buffer, sink)
    }
}

// Puts the lines of the origin of the cut.
fn put_cut_origin<K: Sink>(
    cut: &NumberedCut<'_>,
    i: u32,
    lender: &mut DualLender,
    buffer: &mut Buffer,
    sink: &mut K,
) -> Result<(), Failed>
    requires fits { IsKeptFor cut.now.instance.now (kept_of cut.now.kept.now) }
    requires ready { IsReady cut.now.instance.now (kept_of cut.now.kept.now) lender.old }
    requires origin { i < cut.now.instance.now.size }
    ensures ready { IsReady cut.now.instance.now (kept_of cut.now.kept.now) lender.new }
    ensures lines { PutsLines K.taken K.faults sink.old sink.new buffer.old buffer.new result
        (origin_items (version_number cut.now.version) cut.now.instance.now cut.now.number (kept_of cut.now.kept.now) i) }
{
    put_head(cut, i, buffer, sink)?;
    put_origin(cut, i, lender, buffer, sink)
}

// Puts the line that begins the cut, where the origin is the first.
fn put_head<K: Sink>(
    cut: &NumberedCut<'_>,
    i: u32,
    buffer: &mut Buffer,
    sink: &mut K,
) -> Result<(), Failed>
    ensures { PutsLines K.taken K.faults sink.old sink.new buffer.old buffer.new result
        (head_items (version_number cut.now.version) cut.now.number (kept_of cut.now.kept.now) i) }
{
    if i > 0 {
        return Ok(());
    }
    put_cut_line(cut, buffer, sink)
}
