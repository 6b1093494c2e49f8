//! Sets of nodes by marks.

ghost use Rattle.std.specs.Prelude.{◌≡◌, ℕ, ◌<◌, ◌↔◌, [], length, IsTrue, IfOk, All, Contains};
ghost use Rattle.std.specs.List.Sorted.{IsStrictlyIncreasing};
ghost use Rattle.hub_spec.specs.Sums.{with_node, without};
ghost use Rattle.cert_lines.specs.Marks.{marked};

use std::alloc::{AllocError, Global};
use std::marker::Model;

/// A set of nodes below a size, seen as one mark for each node: whether it is in the set.
#[derive(Debug, Drop)]
pub struct NodeMarks {
    marks: Vec<bool>,
    count: usize,
}

impl Model for NodeMarks {
    ghost use Rattle.std.specs.Prelude.{◌≡◌, Bool, List, length};
    ghost use Rattle.cert_lines.specs.Marks.{marked};

    ghost Value = { List Bool };

    ghost view = { λ s. s.marks.items };

    ghost invariant = { λ s. s.count ≡ length (marked s.marks.items) };
}

impl NodeMarks {
    /// The empty set of nodes below this size.
    pub fn new(alloc: Global, size: u32) -> Result<NodeMarks, AllocError>
        ensures size { IfOk result (λ set. length set ≡ size) }
        ensures none { IfOk result (λ set. marked set ≡ []) }
    {
        Ok(NodeMarks {
            marks: vec![in alloc; false; size as usize]?,
            count: 0,
        })
    }

    /// The mark of each node.
    pub fn marks(&self) -> &[bool]
        ensures { result.now ≡ self.now }
    {
        &self.marks
    }

    /// Tells whether the node is in the set.
    pub fn has(&self, k: u32) -> bool
        ensures { IsTrue result ↔ Contains (marked self.now) k }
    {
        let at = k as usize;
        at < self.marks.len() && self.marks[at]
    }

    /// Tells whether the set is empty.
    pub fn is_empty(&self) -> bool
        ensures { IsTrue result ↔ marked self.now ≡ [] }
    {
        self.count == 0
    }

    /// Adds a node that is not in the set.
    pub fn add(&mut self, k: u32)
        requires room { k < length self.old }
        requires new { Contains (marked self.old) k → ⊥ }
        ensures size { length self.new ≡ length self.old }
        ensures nodes { marked self.new ≡ with_node k (marked self.old) }
    {
        self.marks[k as usize] = true;
        self.count += 1;
    }

    /// Removes a node of the set.
    pub fn remove(&mut self, k: u32)
        requires { Contains (marked self.old) k }
        ensures size { length self.new ≡ length self.old }
        ensures nodes { marked self.new ≡ without k (marked self.old) }
    {
        self.marks[k as usize] = false;
        self.count -= 1;
    }

    /// Removes all nodes.
    pub fn clear(&mut self)
        ensures size { length self.new ≡ length self.old }
        ensures none { marked self.new ≡ [] }
    {
        self.marks.fill(false);
        self.count = 0;
    }

    /// Replaces the set by these ascending nodes.
    pub fn assign(&mut self, nodes: &[u32])
        requires ascend { IsStrictlyIncreasing nodes.now }
        requires room { All (λ (k : ℕ). k < length self.old) nodes.now }
        ensures size { length self.new ≡ length self.old }
        ensures nodes { marked self.new ≡ nodes.now }
    {
        self.clear();
        for i in 0..nodes.len() {
            self.add(nodes[i]);
        }
    }
}
