//! The conditions of the tree.

ghost use Rattle.std.specs.Prelude.{◌≡◌, ◌≢◌, ◌^◌, ◌-◌, ◌<◌, ◌≤◌, [], None};
ghost use Rattle.hub_spec.specs.Limits.{most_denominator};
ghost use Rattle.cert_conditions.specs.Steps.{
  Tried,
  ended,
  Ends,
  rooted,
  path_filled,
  BranchTaken,
  empty_tests,
  block_tests,
  count_tests,
  WeightsFound,
  LeafFound,
  LeafEnds,
  LeafTaken,
  no_multiple,
  IsWeighed,
  WeightTaken,
  MayBlock,
  MayEndLeaf,
  MayWeight,
};

use crate::checks::Checks;
use crate::kinds::Kind;
use cert_lines::is_multiple;

impl<'a> Checks<'a> {
    pub(crate) fn take_nodes(&mut self)
        requires { self.old.line < 2 ^ 64 - 1 }
        ensures { self.new ≡ ended (rooted self.old) None }
    {
        self.path.restart();
        self.end_line(None);
    }

    pub(crate) fn take_branch(&mut self, k: u32)
        requires room { self.old.line < 2 ^ 64 - 1 }
        requires some { self.old.path.pending ≢ [] }
        ensures { BranchTaken self.old k self.new }
    {
        if !self.path.is_free(k) {
            self.end_line(Some(Kind::Branch));
            return;
        }
        self.path.branch(k);
        self.end_line(None);
    }

    pub(crate) fn take_empty(&mut self)
        requires room { self.old.line < 2 ^ 64 - 1 }
        requires some { self.old.path.pending ≢ [] }
        ensures { Ends (empty_tests self.old) (path_filled self.old) self.new }
    {
        let found = self.failed_empty();
        self.path.fill();
        self.end_line(found);
    }

    fn failed_empty(&self) -> Option<Kind>
        requires { self.now.path.pending ≢ [] }
        ensures { Tried (empty_tests self.now) result self.now.line }
    {
        if self.path.is_closed() {
            return None;
        }
        Some(Kind::Empty)
    }

    pub(crate) fn take_block(&mut self, commodity: (u32, u32))
        requires room { self.old.line < 2 ^ 64 - 1 }
        requires may { MayBlock self.old commodity }
        ensures { Ends (block_tests self.old commodity) (path_filled self.old) self.new }
    {
        let found = self.failed_block(commodity);
        self.path.fill();
        self.end_line(found);
    }

    fn failed_block(&self, commodity: (u32, u32)) -> Option<Kind>
        requires { MayBlock self.now commodity }
        ensures { Tried (block_tests self.now commodity) result self.now.line }
    {
        if self
            .path
            .is_blocked(self.instance, commodity.0, commodity.1)
        {
            return None;
        }
        Some(Kind::Block)
    }

    pub(crate) fn take_count(&mut self)
        requires room { self.old.line < 2 ^ 64 - 1 }
        requires some { self.old.path.pending ≢ [] }
        ensures { Ends (count_tests self.old) (path_filled self.old) self.new }
    {
        let found = self.failed_count();
        self.path.fill();
        self.end_line(found);
    }

    fn failed_count(&self) -> Option<Kind>
        requires { self.now.path.pending ≢ [] }
        ensures { Tried (count_tests self.now) result self.now.line }
    {
        if self.path.lacks_room(self.instance.wanted()) {
            return None;
        }
        Some(Kind::Count)
    }

    pub(crate) fn take_leaf(&mut self, denom: u32, last: bool)
        requires room { self.old.line < 2 ^ 64 - 1 }
        requires denom { denom ≤ most_denominator }
        requires may { MayEndLeaf self.old }
        ensures { LeafTaken self.old denom last self.new }
    {
        self.leaf.begin(denom as u128);
        self.leaf_failure = None;
        if !last {
            return;
        }
        self.end_leaf();
    }

    pub(crate) fn take_weight(&mut self, c: u128, w: u128, last: bool)
        requires room { self.old.line < 2 ^ 64 - 1 }
        requires may { MayWeight self.old c }
        ensures { WeightTaken self.old c w last self.new }
    {
        self.add_weight(c, w);
        if !last {
            return;
        }
        self.end_leaf();
    }

    fn add_weight(&mut self, c: u128, w: u128)
        requires { MayWeight self.old c }
        ensures { IsWeighed self.old c w self.new }
    {
        if c > self.cuts.len() as u128 {
            self.leaf_failure = Some(Kind::CutNumber);
            return;
        }
        let sums = self.cuts.numbered(c);
        let part = sums.part();
        if !is_multiple(w, part) {
            self.leaf_failure = with_no_multiple(self.leaf_failure);
            return;
        }
        if self.leaf_failure.is_some() {
            return;
        }
        if !self.leaf.fits(w) {
            self.leaf_failure = Some(Kind::Weight);
            return;
        }
        self.leaf.add(w, part, sums.total(), sums.loads());
    }

    fn end_leaf(&mut self)
        requires room { self.old.line < 2 ^ 64 - 1 }
        requires may { MayEndLeaf self.old }
        ensures { LeafEnds self.old self.new }
    {
        let found = self.failed_leaf();
        self.path.fill();
        self.end_line(found);
    }

    // That there is room for the wanted hubs comes before what was found of the weights.
    fn failed_leaf(&self) -> Option<Kind>
        requires { MayEndLeaf self.now }
        ensures { LeafFound self.now result }
    {
        if !self.path.has_room(self.instance.wanted()) {
            return Some(Kind::Count);
        }
        self.failed_weights()
    }

    fn failed_weights(&self) -> Option<Kind>
        requires { MayEndLeaf self.now }
        ensures { WeightsFound self.now result }
    {
        if self.leaf_failure.is_some() {
            return self.leaf_failure;
        }
        if self.leaf.closes(&self.path, self.instance, self.bound) {
            return None;
        }
        Some(Kind::Leaf)
    }
}

// What fails of a leaf's weights with one that is no multiple of its cut's part: a number of no cut comes before it.
fn with_no_multiple(failure: Option<Kind>) -> Option<Kind>
    ensures { result ≡ no_multiple failure }
{
    match failure {
        Some(Kind::CutNumber) => failure,
        _ => Some(Kind::Multiple),
    }
}
