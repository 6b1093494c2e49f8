//! A line with a list that was begun.
ghost use Rattle.std.specs.Prelude.{◌≡◌, [], IfOk};
ghost use Rattle.hub_spec.specs.Ranges.{IsShort};

use hub_model::signed;
use std::alloc::{AllocError, Global};

// A dual, a proof or a leaf of which more may come.
#[derive(Drop)]
pub(crate) struct BegunLine {
    pub(crate) head: LineHead,
    // What a dual, a proof or a leaf lists so far, of which only that of the head counts. Each list keeps its room for
    // the lines to come, so that not every line takes memory.
    pub(crate) values: Vec<(u32, u128)>,
    pub(crate) ways: Vec<(u32, u32, u64)>,
    pub(crate) weights: Vec<(i128, i128)>,
}

// What stands before the list.
#[derive(Clone, Copy)]
pub(crate) enum LineHead {
    Nothing,
    // How many commodities the dual is for, and its price. It lists nodes with their values.
    Dual { run: u32, price: u128 },
    // Of the dual before it: its turns and its scale. It lists ways with how often each is taken.
    Proof { turns: u32, scale: u32 },
    // A denominator. It lists cuts with their weights.
    Leaf(u32),
}

impl BegunLine {
    ghost use Rattle.cert_format.specs.Gatherings.{begun_of};
    ghost use Rattle.cert_format.specs.Gathered.{no_line, dual_begun, proof_begun, leaf_begun, with_value, with_way, with_weight};

    // None is begun. It takes no memory.
    pub(crate) fn new(alloc: Global) -> BegunLine
        ensures { begun_of result ≡ no_line }
    {
        BegunLine {
            head: LineHead::Nothing,
            values: Vec::new(alloc),
            ways: Vec::new(alloc),
            weights: Vec::new(alloc),
        }
    }

    // A dual for so many commodities, with this price.
    pub(crate) fn begin_dual(&mut self, run: u32, price: u128)
        ensures { begun_of self.new ≡ dual_begun run (record { a = price; u = [] }) }
    {
        self.head = LineHead::Dual { run, price };
        self.values.clear();
    }

    // A proof with these turns and this scale.
    pub(crate) fn begin_proof(&mut self, turns: u32, scale: u32)
        ensures { begun_of self.new ≡ proof_begun (record { turns = turns; scale = scale; ways = [] }) }
    {
        self.head = LineHead::Proof { turns, scale };
        self.ways.clear();
    }

    // A leaf with this denominator.
    pub(crate) fn begin_leaf(&mut self, denominator: u32)
        ensures { begun_of self.new ≡ leaf_begun denominator [] }
    {
        self.head = LineHead::Leaf(denominator);
        self.weights.clear();
    }

    // Lists one more node of the dual with its value.
    pub(crate) fn list_value(&mut self, k: u32, u: u128) -> Result<(), AllocError>
        ensures { IfOk result (λ _. begun_of self.new ≡ with_value (begun_of self.old) k u) }
    {
        if let LineHead::Dual { .. } = self.head {
            self.values.push((k, u))?;
        }
        Ok(())
    }

    // Lists one more way of the proof, and how often it is taken.
    pub(crate) fn list_way(&mut self, k: u32, m: u32, y: u64) -> Result<(), AllocError>
        ensures { IfOk result (λ _. begun_of self.new ≡ with_way (begun_of self.old) k m y) }
    {
        if let LineHead::Proof { .. } = self.head {
            self.ways.push((k, m, y))?;
        }
        Ok(())
    }

    // Lists one more cut of the leaf with its weight.
    pub(crate) fn list_weight(&mut self, c: u128, w: u128) -> Result<(), AllocError>
        requires number { IsShort c }
        requires weight { IsShort w }
        ensures { IfOk result (λ _. begun_of self.new ≡ with_weight (begun_of self.old) c w) }
    {
        if let LineHead::Leaf(_) = self.head {
            self.weights.push((signed(c), signed(w)))?;
        }
        Ok(())
    }
}
