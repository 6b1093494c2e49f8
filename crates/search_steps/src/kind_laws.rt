//! Laws of the rule, for each kind of cuts.

ghost use Rattle.search_steps.specs.KindTheorems.{PartsAreSound, MinimalIsRule, KeptIsOfSet};

/// The parts of the rule are sound, whichever cuts are separated.
pub fn parts_are_sound()
    ensures { PartsAreSound }
{}

/// With minimal duals, the rule is the one without Pareto-optimal cuts.
pub fn minimal_is_rule()
    ensures { MinimalIsRule }
{}

/// What the pool stores of a hub set's cut is of that set, and has the cut and its mark.
pub fn kept_is_of_set()
    ensures { KeptIsOfSet }
{}
