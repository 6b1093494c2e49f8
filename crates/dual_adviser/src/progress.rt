//! The bounds of a node after each pass, and whether another pass is worth its time.

use ascent_lengths::at;
use dual_ascent::{Gain, NO_GAIN};
use std::alloc::{AllocError, Global};

/// The limits after which a node is left, in passes: after `most`; where the last `back` gained little, after more than
/// these and `least`; and where `far` more at the rate of the last two would not fathom it, after `rated`.
#[derive(Clone, Copy)]
struct Patience {
    most: usize,
    back: usize,
    least: usize,
    far: i128,
    rated: usize,
}

/// At the root.
const ROOT: Patience = Patience {
    most: 60,
    back: 6,
    least: 20,
    far: 6,
    rated: 10,
};

/// Below the root.
const BELOW: Patience = Patience {
    most: 15,
    back: 3,
    least: 0,
    far: 8,
    rated: 3,
};
/// A gain is little below this part of the gap.
const LITTLE_GAIN: i128 = 8;
/// A root with a gap above a hundredth is not left by its rate before this many passes.
const ROOT_PATIENT: usize = 25;
/// In this many first passes at the root no commodity is left out.
const ROOT_WHOLE: usize = 2;
/// A step promises little up to this part of the mean promise of the last pass.
const LITTLE_PART: i128 = 2;

/// The best bound after each pass at a node, the present bound, both in 10^-12, and the result of the last pass.
#[derive(Drop)]
pub(crate) struct NodeProgress {
    pub(crate) is_root: bool,
    pub(crate) bound: i128,
    tops: Vec<i128>,
    gain: Gain,
}

impl NodeProgress {
    /// No progress yet, with room for all passes.
    pub(crate) fn new(alloc: Global) -> Result<NodeProgress, AllocError> {
        Ok(NodeProgress {
            is_root: true,
            bound: 0,
            tops: Vec::with_capacity(alloc, ROOT.most)?,
            gain: NO_GAIN,
        })
    }

    /// Starts a node.
    pub(crate) fn begin(&mut self, is_root: bool) {
        self.is_root = is_root;
        self.bound = 0;
        self.tops.clear();
        self.gain = NO_GAIN;
    }

    /// The number of passes.
    pub(crate) fn passes(&self) -> usize {
        self.tops.len()
    }

    /// The gap after the last pass, in thousandths of the scale; `wanted` is the cutoff. Before the first pass it is
    /// `i128::MAX` at the root, and 0 below it.
    pub(crate) fn gap(&self, wanted: i128, scale: i128) -> i128 {
        match self.tops.last() {
            None if self.is_root => i128::MAX,
            None => 0,
            Some(top) => wanted.wrapping_sub(*top).wrapping_mul(1000) / scale.max(1),
        }
    }

    /// The promised gain up to which a commodity is left out after its step. In the first passes at the root none is.
    pub(crate) fn little(&self, commodities: usize) -> Option<i128> {
        if self.is_root && self.tops.len() < ROOT_WHOLE {
            return None;
        }
        let all = (commodities as i128).max(1);
        Some(self.gain.promised / all / LITTLE_PART)
    }

    /// Returns whether the last pass at the root had few steps and gained little of the gap to the cutoff. Below the
    /// root a node is mostly left then.
    pub(crate) fn is_idle(&self, commodities: usize, wanted: i128) -> bool {
        self.is_root
            && self.gain.turns < commodities as u64 / 8
            && self.tops.len() > 1
            && self.gained(1) < self.left(wanted) / LITTLE_GAIN
    }

    /// The rise of the best bound in the last `back` passes.
    fn gained(&self, back: usize) -> i128 {
        let last = self.tops.len().saturating_sub(1);
        let before = at(&self.tops, last.saturating_sub(back));
        at(&self.tops, last).wrapping_sub(before)
    }

    /// The gap of the best bound to the cutoff.
    fn left(&self, wanted: i128) -> i128 {
        wanted.wrapping_sub(at(&self.tops, self.tops.len().saturating_sub(1)))
    }

    /// Records the result of a pass, and the bound after it.
    pub(crate) fn note(&mut self, bound: i128, gain: Gain) {
        self.gain = gain;
        let top = self.tops.last().copied().unwrap_or(bound).max(bound);
        self.bound = bound;
        // There is room for the greatest number of passes.
        let _ = self.tops.push(top);
    }

    /// Returns whether another pass is worth its time, for this cutoff and this scale of gaps.
    pub(crate) fn goes_on(&self, wanted: i128, scale: i128) -> bool {
        let patience = if self.is_root { ROOT } else { BELOW };
        let (passes, left) = (self.tops.len(), self.left(wanted));
        if self.bound >= wanted || passes >= patience.most {
            return false;
        }
        let is_slow = passes >= patience.rated
            && self.gained(2).wrapping_mul(patience.far / 2) < left;
        let may_be_left = !self.is_root
            || self.gained(6).wrapping_mul(3) < left
                && (left.wrapping_mul(100) < scale || passes >= ROOT_PATIENT);
        let is_still = passes > patience.least.max(patience.back)
            && self.gained(patience.back) < left / LITTLE_GAIN;
        !(is_slow && may_be_left) && !is_still
    }
}
