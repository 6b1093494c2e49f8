//! The task of a search.

ghost use Rattle.std.specs.Prelude.{◌≡◌, ◌+◌, ◌<◌, ◌^◌, IsTrue, false};
ghost use Rattle.search_spec.specs.Findings.{AreWithin, IsSpent};
ghost use Rattle.search_core.specs.Tasks.{IsTaskOf, allows_two};

use hub_model::Instance;

/// The instance to solve, and the node limit of the tree, if there is one.
#[derive(Clone, Copy)]
pub struct Task<'a> {
    /// The instance.
    pub instance: &'a Instance,
    /// The most nodes of the tree, the root included.
    pub nodes: Option<u64>,
}

impl<'a> Task<'a> {
    /// The task to solve the instance with at most `nodes` nodes, or without a limit.
    pub fn new(instance: &'a Instance, nodes: Option<u64>) -> Task<'a>
        ensures { IsTaskOf instance.now nodes result }
    {
        Task { instance, nodes }
    }

    /// Tells whether two more nodes are within the limit, after `made` nodes.
    pub fn allows_two(&self, made: u64) -> bool
        requires { made + 2 < 2 ^ 64 }
        ensures is { result ≡ allows_two self.now.nodes made }
        ensures may { IsTrue result → AreWithin self.now.nodes (made + 2) }
        ensures spent { result ≡ false → IsSpent self.now.nodes made }
    {
        match self.nodes {
            None => true,
            Some(most) => made + 2 <= most,
        }
    }
}
