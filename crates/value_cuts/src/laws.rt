//! The laws of duals and cuts made from any values. Each function is empty, and its contract is the law.

ghost use Rattle.value_cuts.specs.Theorems.{ValueDualIsDual, ValueCutIsCut, ValueCutIsInRange, ValueCutIsFirst, NoGreaterPrice};

/// The dual of any row of values is feasible.
pub fn value_dual_is_dual()
    ensures { ValueDualIsDual }
{}

/// The Benders cut from any dual values is a cut of the instance.
pub fn value_cut_is_cut()
    ensures { ValueCutIsCut }
{}

/// A certificate can list that cut.
pub fn value_cut_is_in_range()
    ensures { ValueCutIsInRange }
{}

/// A certificate of the first version can list it too.
pub fn value_cut_is_first()
    ensures { ValueCutIsFirst }
{}

/// No feasible dual with the same values has a greater price, up to the ceiling of lengths.
pub fn no_greater_price()
    ensures { NoGreaterPrice }
{}
