//! Laws of the sums of a leaf. Each function is empty, and its contract is the law.

ghost use Rattle.cert_lines.specs.Theorems.{SumsBegin, SumsGoOn, SumsBoundLeaf};

/// New sums are those of no pair.
pub fn sums_begin()
    ensures { SumsBegin }
{}

/// Adding a cut with its weight to the sums of some pairs gives the sums of these pairs followed by the new one.
pub fn sums_go_on()
    ensures { SumsGoOn }
{}

/// The bound by the sums of a leaf's pairs is the bound at the leaf.
pub fn sums_bound_leaf()
    ensures { SumsBoundLeaf }
{}
