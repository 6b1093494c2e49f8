//! The path from the root of a tree to a branch.

ghost use Rattle.std.specs.Prelude.{◌≡◌, ◌↔◌, [], ◌∷◌, length, IsTrue, IfOk, MatchOption, Contains};
ghost use Rattle.hub_spec.specs.Trees.{IsClosed};
ghost use Rattle.cert_lines.specs.Marks.{marked};
ghost use Rattle.cert_lines.specs.Trails.{trail_end, IsReached};

use crate::NodeMarks;
use hub_model::Instance;
use std::alloc::{AllocError, Global};
use std::marker::Model;

/// A step down a tree: the node that is branched on, and whether the step goes into the open child.
#[derive(Clone, Copy)]
pub(crate) struct Step {
    pub(crate) node: u32,
    pub(crate) opened: bool,
}

/// The way from the root to a branch, seen with the last step first. No node stands twice on it, so it has at most as
/// many steps as there are candidates.
#[derive(Drop)]
pub(crate) struct Trail {
    size: u32,
    candidates: Vec<u32>,
    steps: Vec<Step>,
    inside: NodeMarks,
    free: NodeMarks,
    hub_count: usize,
}

impl Model for Trail {
    ghost use Rattle.std.specs.Prelude.{◌≡◌, ◌≤◌, length, vec_capacity};
    ghost use Rattle.cert_lines.specs.Marks.{marked};
    ghost use Rattle.cert_lines.specs.Trails as trails;

    ghost Value = { trails.Trail };

    ghost view = { λ s. trails.trail_of s.size s.candidates.items s.steps.items };

    ghost invariant = { λ s. trails.IsKept (trails.trail_of s.size s.candidates.items s.steps.items) s.inside s.free
        × (length s.candidates.items ≤ vec_capacity s.steps) × (s.hub_count ≡ length (marked s.inside)) };
}

impl Trail {
    /// The way of no step at the root of the instance's trees.
    pub(crate) fn new(alloc: Global, instance: &Instance) -> Result<Trail, AllocError>
        ensures { IfOk result (λ t. t ≡ record { size = instance.now.size; candidates = instance.now.candidates; steps = [] }) }
    {
        let size = instance.size();
        let candidates = instance.candidates().to_vec(alloc)?;
        let steps = Vec::with_capacity(alloc, candidates.len())?;
        let inside = NodeMarks::new(alloc, size)?;
        let mut free = NodeMarks::new(alloc, size)?;
        free.assign(&candidates);
        Ok(Trail {
            size,
            candidates,
            steps,
            inside,
            free,
            hub_count: 0,
        })
    }

    /// Goes back to the root.
    pub(crate) fn restart(&mut self)
        ensures { self.new ≡ record self.old { steps = [] } }
    {
        self.steps.clear();
        self.inside.clear();
        self.hub_count = 0;
        self.free.assign(&self.candidates);
    }

    /// Tells whether the node is free where the way leads.
    pub(crate) fn is_free(&self, k: u32) -> bool
        ensures { IsTrue result ↔ Contains (trail_end self.now).free k }
    {
        self.free.has(k)
    }

    /// Tells whether the candidate is closed where the way leads.
    pub(crate) fn is_shut(&self, k: u32) -> bool
        requires { Contains self.now.candidates k }
        ensures { IsTrue result ↔ Contains (trail_end self.now).outside k }
    {
        !self.inside.has(k) && !self.free.has(k)
    }

    /// How many hubs there are where the way leads.
    pub(crate) fn hub_count(&self) -> usize
        ensures { result ≡ length (trail_end self.now).inside }
    {
        self.hub_count
    }

    /// How many nodes are free where the way leads: each step decides one.
    pub(crate) fn free_count(&self) -> usize
        ensures { result ≡ length (trail_end self.now).free }
    {
        self.candidates.len() - self.steps.len()
    }

    /// Tells whether every candidate is closed where the way leads.
    pub(crate) fn is_closed(&self) -> bool
        ensures { IsTrue result ↔ IsClosed (trail_end self.now) }
    {
        self.inside.is_empty() && self.free.is_empty()
    }

    /// The marks of the hubs where the way leads.
    pub(crate) fn inside(&self) -> &[bool]
        ensures size { length result.now ≡ self.now.size }
        ensures nodes { marked result.now ≡ (trail_end self.now).inside }
        ensures reached { IsReached self.now.candidates (trail_end self.now) }
    {
        self.inside.marks()
    }

    /// The marks of the free nodes where the way leads.
    pub(crate) fn free(&self) -> &[bool]
        ensures size { length result.now ≡ self.now.size }
        ensures nodes { marked result.now ≡ (trail_end self.now).free }
    {
        self.free.marks()
    }

    /// Takes one more step.
    pub(crate) fn enter(&mut self, step: Step)
        requires { Contains (trail_end self.old).free step.node }
        ensures { self.new ≡ record self.old { steps = step ∷ self.old.steps } }
    {
        self.steps.push_reserved(step);
        self.free.remove(step.node);
        if step.opened {
            self.inside.add(step.node);
            self.hub_count += 1;
        }
    }

    /// Takes the last step back, if there is one.
    pub(crate) fn leave(&mut self) -> Option<Step>
        ensures trail { MatchOption result ((self.old.steps ≡ []) × (self.new ≡ self.old))
            (λ step. (self.old ≡ record self.new { steps = step ∷ self.new.steps }) × Contains (trail_end self.new).free step.node) }
    {
        let step = self.steps.pop()?;
        self.free.add(step.node);
        if step.opened {
            self.inside.remove(step.node);
            self.hub_count -= 1;
        }
        Some(step)
    }
}
