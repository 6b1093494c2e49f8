//! Whether a dual of an unmarked cut repeats the one before it in its origin.
ghost use Rattle.std.specs.Prelude.{◌≡◌, ◌&&◌, Some};
ghost use Rattle.cert_scan.specs.Repeats.{
  no_dual,
  with_mark,
  with_price,
  with_value,
  noted,
  is_repeated,
  ends_repeat,
};

use crate::items::Item;
use hub_model::MOST_NODES;
use std::marker::Model;

// A dual lists no more pairs.
const ROOM: usize = MOST_NODES as usize;

// What has come of a dual, and what is left of the one before it, as long as it repeats that one. The dual before is
// overwritten from where they differ.
#[derive(Drop)]
pub(crate) struct DualSoFar {
    price: u128,
    // The pairs that have come, and behind them those that are left of the dual before.
    pairs: [(u32, u128); ROOM],
    come: usize,
    // How many pairs the dual before has.
    all: usize,
    repeats: bool,
    // The cut is marked, so that its duals repeat none.
    marked: bool,
}

impl Model for DualSoFar {
    ghost use Rattle.std.specs.Prelude.{◌≡◌, ◌≤◌, Some, None, length, take, drop, if◌then◌else◌};
    ghost use Rattle.hub_spec.specs.Limits.{most_nodes};
    ghost use Rattle.cert_scan.specs.Repeats.{DualSoFar};

    ghost Value = { DualSoFar };

    ghost view = { λ s. record {
      dual = record { a = s.price; u = take s.come s.pairs };
      left = if s.repeats then Some (drop s.come (take s.all s.pairs)) else None;
      marked = s.marked;
    } };

    ghost invariant = { λ s. (s.come ≤ most_nodes) × (s.all ≤ most_nodes) × (length s.pairs ≡ most_nodes) };
}

impl DualSoFar {
    pub(crate) fn new() -> DualSoFar
        ensures { result ≡ no_dual }
    {
        DualSoFar {
            price: 0,
            pairs: [(0, 0); ROOM],
            come: 0,
            all: 0,
            repeats: false,
            marked: false,
        }
    }

    // Takes an item, and tells whether it ends a dual that repeats the one before it. The first version calls it never, and
    // is to be spared its code.
    #[inline(never)]
    pub(crate) fn note(&mut self, item: Item) -> bool
        ensures after { self.new ≡ noted self.old item }
        ensures repeats { result ≡ ends_repeat self.old item }
    {
        match item {
            Item::Cut { last, .. } => {
                self.mark(!last);
                false
            }
            Item::Dual { j, a, last, .. } => {
                self.begin(j, a);
                last && self.is_repeated()
            }
            Item::DualPair { k, u, last } => {
                self.list(k, u);
                last && self.is_repeated()
            }
            _ => false,
        }
    }

    // A cut begins.
    fn mark(&mut self, marked: bool)
        ensures { self.new ≡ with_mark self.old marked }
    {
        self.marked = marked;
    }

    // A price comes, of a dual of which this is the first destination.
    pub(crate) fn begin(&mut self, to: u32, price: u128)
        ensures { self.new ≡ with_price self.old to price }
    {
        self.repeats = !self.marked && to != 0 && self.price == price;
        self.price = price;
        self.all = self.come;
        self.come = 0;
    }

    #[inline(always)]
    pub(crate) fn list(&mut self, node: u32, value: u128)
        ensures { self.new ≡ with_value self.old (node, value) }
    {
        let next = self.repeats && self.come < self.all && self.pairs[self.come] == (node, value);
        if next {
            self.come += 1;
            return;
        }
        self.repeats = false;
        if self.come < ROOM {
            self.pairs[self.come] = (node, value);
            self.come += 1;
        }
    }

    fn is_repeated(&self) -> bool
        ensures { result ≡ is_repeated self.now.left }
    {
        self.repeats && self.come >= self.all
    }
}
