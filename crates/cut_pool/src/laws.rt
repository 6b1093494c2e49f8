//! Laws of stored cuts.

ghost use Rattle.cut_pool.specs.Theorems.{KeptCutIsCut, KeptCutIsInRange, KeptCutIsFirst, KeptPartIsPart, KeptMarkIsMark};

/// A stored cut is a Benders cut of the instance.
pub fn kept_cut_is_cut()
    ensures { KeptCutIsCut }
{}

/// A certificate can list it.
pub fn kept_cut_is_in_range()
    ensures { KeptCutIsInRange }
{}

/// A certificate of the first version can list it too, where its duals are computed again.
pub fn kept_cut_is_first()
    ensures { KeptCutIsFirst }
{}

/// Its part does not depend on the instance.
pub fn kept_part_is_part()
    ensures { KeptPartIsPart }
{}

/// A stored cut with a mark is Pareto-optimal by its mark, and a certificate can list the mark.
pub fn kept_mark_is_mark()
    ensures { KeptMarkIsMark }
{}
