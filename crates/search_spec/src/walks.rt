//! A branching tree as a walk over its lines, for searches with any branching rule.
//!
//! A depth-first search that takes the open child first writes the tree's lines one by one. It holds the pending
//! branches, the next one first. The definitions stand in `specs/`. There is no code: each function is empty, and its
//! contract is a theorem.

ghost use Rattle.search_spec.specs.WalkTheorems.{WalkGoesOn, WalkStays, WalkIsTree, PendingAreBranches};

/// A sound line for the next pending branch extends a walk.
pub fn walk_goes_on()
    ensures { WalkGoesOn }
{}

/// A walk stays one where cuts are added and the cutoff is lowered.
pub fn walk_stays()
    ensures { WalkStays }
{}

/// The lines of a walk from a branch that leaves no branch pending are one sound tree.
pub fn walk_is_tree()
    ensures { WalkIsTree }
{}

/// The pending branches of a walk are branches of the problem, if the walk began with such.
pub fn pending_are_branches()
    ensures { PendingAreBranches }
{}
