//! Whether the next branch is infeasible for a commodity.

ghost use Rattle.std.specs.Prelude.{◌≡◌, ◌≢◌, ◌<◌, ◌↔◌, [], IsTrue, Contains};
ghost use Rattle.hub_spec.specs.Trees.{IsBlocked};
ghost use Rattle.cert_lines.specs.Paths.{next};
ghost use Rattle.cert_lines.specs.Blocks.{IsBlockedBy, IsBlockedFrom};

use crate::paths::TreePath;
use hub_model::Instance;

impl TreePath {
    /// Tells whether each allowed route of the commodity from `i` to `j` has a closed hub in the next branch. The path
    /// is one of the instance. Routes are measured only for pairs of candidates that are not closed.
    pub fn is_blocked(&self, instance: &Instance, i: u32, j: u32) -> bool
        requires some { self.now.pending ≢ [] }
        requires candidates { self.now.candidates ≡ instance.now.candidates }
        requires from { i < instance.now.size }
        requires to { j < instance.now.size }
        ensures { IsTrue result ↔ IsBlocked instance.now (next self.now.pending) (i, j) }
    {
        let candidates = instance.candidates();
        for k in candidates {
            if !self.is_blocked_from(instance, i, j, *k) {
                return false;
            }
        }
        true
    }

    /// The same with `k` as the first hub.
    fn is_blocked_from(&self, instance: &Instance, i: u32, j: u32, k: u32) -> bool
        requires some { self.now.pending ≢ [] }
        requires candidates { self.now.candidates ≡ instance.now.candidates }
        requires from { i < instance.now.size }
        requires to { j < instance.now.size }
        requires first { Contains instance.now.candidates k }
        ensures { IsTrue result ↔ IsBlockedFrom instance.now (next self.now.pending) (i, j) k }
    {
        if self.is_shut(k) {
            return true;
        }
        let candidates = instance.candidates();
        for m in candidates {
            if !self.is_blocked_by(instance, i, j, k, *m) {
                return false;
            }
        }
        true
    }

    fn is_blocked_by(&self, instance: &Instance, i: u32, j: u32, k: u32, m: u32) -> bool
        requires some { self.now.pending ≢ [] }
        requires candidates { self.now.candidates ≡ instance.now.candidates }
        requires from { i < instance.now.size }
        requires to { j < instance.now.size }
        requires first { Contains instance.now.candidates k }
        requires first_node { k < instance.now.size }
        requires last { Contains instance.now.candidates m }
        requires last_node { m < instance.now.size }
        requires is_open { Contains (next self.now.pending).outside k → ⊥ }
        ensures { IsTrue result ↔ IsBlockedBy instance.now (next self.now.pending) (i, j) k m }
    {
        self.is_shut(m) || !instance.allowed(i, j, k, m)
    }
}
