//! Laws of bounds for exactly p hubs.

ghost use Rattle.p_hub.specs.Theorems.{LeafHasCounted, SidesClose, NeverBoth, FixingIsSound};

/// The bound by weights in a list is the bound at a leaf with these weights, without those of 0, of an instance that
/// wants exactly p hubs.
pub fn leaf_has_counted()
    ensures { LeafHasCounted }
{}

/// Each listed candidate is free, and the child on its other side is fathomed at the cutoff.
pub fn sides_close()
    ensures { SidesClose }
{}

/// Where a branch is not fathomed at the cutoff, at most one child of a free candidate is.
pub fn never_both()
    ensures { NeverBoth }
{}

/// Where a child of a free candidate is fathomed at the cutoff, every plan of that child with exactly p hubs costs at
/// least the cutoff.
pub fn fixing_is_sound()
    ensures { FixingIsSound }
{}
