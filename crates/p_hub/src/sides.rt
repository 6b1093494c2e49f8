//! The value to which a candidate is fixed, for exactly p hubs.

ghost use Rattle.std.specs.Prelude.{◌≡◌};
ghost use Rattle.leaf_bound.specs.Weighing.{most_gain, most_bound, IsWithin};
ghost use Rattle.p_hub.specs.Fixing.{side_by};

use leaf_bound::Side;

/// The numbers that decide the free candidates of a branch.
#[derive(Clone, Copy)]
pub(crate) struct Margins {
    /// The bound of the branch.
    pub(crate) bound: i128,
    /// The greatest gain of a free node that the bound counts.
    pub(crate) last: i128,
    /// The least gain of a free node that it does not count.
    pub(crate) next: i128,
    /// What a bound has to exceed to fathom at the cutoff.
    pub(crate) threshold: i128,
}

impl Margins {
    /// The side to which the free candidate with this gain is fixed, if it is.
    pub(crate) fn side_of(&self, gain: i128) -> Option<Side>
        requires bound { IsWithin most_bound self.now.bound }
        requires last { IsWithin most_gain self.now.last }
        requires next { IsWithin most_gain self.now.next }
        requires gain { IsWithin most_gain gain }
        ensures { result ≡ side_by self.now.bound self.now.last self.now.next self.now.threshold gain }
    {
        // A closed node that counted gives way to the next one; an open one that did not takes the last one's place.
        let closed = self.bound + (self.next - gain).max(0);
        if closed > self.threshold {
            return Some(Side::In);
        }
        let open = self.bound + (gain - self.last).max(0);
        if open > self.threshold {
            return Some(Side::Out);
        }
        None
    }
}
