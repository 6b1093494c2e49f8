//! The pending branches of a tree.

ghost use Rattle.std.specs.Prelude.{◌≡◌, ◌≢◌, ◌↔◌, [], ◌∷◌, length, Some, IsTrue, IfOk, Contains};
ghost use Rattle.hub_spec.specs.Trees.{root, open_child, closed_child, IsClosed, HasRoom, LacksRoom};
ghost use Rattle.cert_lines.specs.Marks.{marked};
ghost use Rattle.cert_lines.specs.Trails.{undecided, IsReached};
ghost use Rattle.cert_lines.specs.Paths.{next, behind_next};

use crate::trails::{Step, Trail};
use hub_model::Instance;
use std::alloc::{AllocError, Global};
use std::marker::Model;

/// The pending branches of a tree, the next one first. In memory it is the one path from the root to the next branch.
///
/// The lines of a tree come in preorder, the open child first. So each other pending branch is the closed child of a
/// step of the path into an open child.
#[derive(Drop)]
pub struct TreePath {
    trail: Trail,
    is_filled: bool,
}

impl Model for TreePath {
    ghost use Rattle.cert_lines.specs.Paths.{Pending, path_of};

    ghost Value = { Pending };

    ghost view = { λ s. path_of s.is_filled s.trail };
}

impl TreePath {
    /// The path of a tree before its first line. Only this call allocates: a step for each candidate, and a mark for
    /// each node.
    pub fn new(alloc: Global, instance: &Instance) -> Result<TreePath, AllocError>
        ensures { IfOk result (λ path. path ≡ record {
          size = instance.now.size;
          candidates = instance.now.candidates;
          pending = root instance.now ∷ [];
        }) }
    {
        Ok(TreePath {
            trail: Trail::new(alloc, instance)?,
            is_filled: false,
        })
    }

    /// Restarts at the root of a new tree.
    pub fn restart(&mut self)
        ensures { self.new ≡ record self.old { pending = undecided self.old.candidates ∷ [] } }
    {
        self.trail.restart();
        self.is_filled = false;
    }

    /// Tells whether no branch is pending.
    pub fn is_filled(&self) -> bool
        ensures { IsTrue result ↔ self.now.pending ≡ [] }
    {
        self.is_filled
    }

    /// Tells, in constant time, whether the node is free in the next branch.
    pub fn is_free(&self, k: u32) -> bool
        requires { self.now.pending ≢ [] }
        ensures { IsTrue result ↔ Contains (next self.now.pending).free k }
    {
        self.trail.is_free(k)
    }

    /// Tells, in constant time, whether every candidate is closed in the next branch.
    pub fn is_closed(&self) -> bool
        requires { self.now.pending ≢ [] }
        ensures { IsTrue result ↔ IsClosed (next self.now.pending) }
    {
        self.trail.is_closed()
    }

    /// Tells, in constant time, whether the next branch can have the wanted number of hubs. True where none is wanted.
    pub fn has_room(&self, wanted: Option<u32>) -> bool
        requires { self.now.pending ≢ [] }
        ensures { IsTrue result ↔ HasRoom wanted (next self.now.pending) }
    {
        match wanted {
            Some(wanted) => self.has_room_for(wanted as usize),
            None => true,
        }
    }

    /// Tells, in constant time, whether the next branch cannot have the wanted number of hubs. False where none is
    /// wanted.
    pub fn lacks_room(&self, wanted: Option<u32>) -> bool
        requires { self.now.pending ≢ [] }
        ensures { IsTrue result ↔ LacksRoom wanted (next self.now.pending) }
    {
        match wanted {
            Some(wanted) => !self.has_room_for(wanted as usize),
            None => false,
        }
    }

    /// Tells whether so many hubs can be had in the next branch: no more are hubs, and no fewer can be.
    fn has_room_for(&self, count: usize) -> bool
        requires { self.now.pending ≢ [] }
        ensures { IsTrue result ↔ HasRoom (Some count) (next self.now.pending) }
    {
        let hubs = self.trail.hub_count();
        hubs <= count && count - hubs <= self.trail.free_count()
    }

    /// Branches on a free node. The open child comes next, then the closed one.
    pub fn branch(&mut self, k: u32)
        requires some { self.old.pending ≢ [] }
        requires free { Contains (next self.old.pending).free k }
        ensures { self.new ≡ record self.old {
          pending = open_child (next self.old.pending) k ∷ closed_child (next self.old.pending) k ∷ behind_next self.old.pending;
        } }
    {
        self.trail.enter(Step {
            node: k,
            opened: true,
        });
    }

    /// Ends the next branch with a leaf. The path goes back to its last step into an open child, and into the closed
    /// one instead.
    pub fn fill(&mut self)
        requires { self.old.pending ≢ [] }
        ensures { self.new ≡ record self.old { pending = behind_next self.old.pending } }
    {
        while let Some(step) = self.trail.leave() {
            if step.opened {
                self.trail.enter(Step {
                    node: step.node,
                    opened: false,
                });
                return;
            }
        }
        self.is_filled = true;
    }

    /// Tells whether the candidate is closed in the next branch, in constant time.
    pub(crate) fn is_shut(&self, k: u32) -> bool
        requires some { self.now.pending ≢ [] }
        requires candidate { Contains self.now.candidates k }
        ensures { IsTrue result ↔ Contains (next self.now.pending).outside k }
    {
        self.trail.is_shut(k)
    }

    /// How many hubs the next branch has.
    pub(crate) fn hub_count(&self) -> usize
        requires { self.now.pending ≢ [] }
        ensures { result ≡ length (next self.now.pending).inside }
    {
        self.trail.hub_count()
    }

    /// The marks of the hubs of the next branch.
    pub(crate) fn inside(&self) -> &[bool]
        requires { self.now.pending ≢ [] }
        ensures size { length result.now ≡ self.now.size }
        ensures nodes { marked result.now ≡ (next self.now.pending).inside }
        ensures reached { IsReached self.now.candidates (next self.now.pending) }
    {
        self.trail.inside()
    }

    /// The marks of the free nodes of the next branch.
    pub(crate) fn free(&self) -> &[bool]
        requires { self.now.pending ≢ [] }
        ensures size { length result.now ≡ self.now.size }
        ensures nodes { marked result.now ≡ (next self.now.pending).free }
    {
        self.trail.free()
    }
}
