//! Upper bounds on the cost that a search finds.

ghost use Rattle.search_spec.specs.Costs.{CostNeverRises, BegunIsAtMost, AgainIsAtMost};

/// A search finds a cost no greater than that of its first incumbent.
pub fn cost_never_rises()
    ensures { CostNeverRises }
{}

/// The first incumbent costs no more than all candidates as hubs, or, for exactly p hubs, than the p least candidates,
/// where these are feasible.
pub fn begun_is_at_most()
    ensures { BegunIsAtMost }
{}

/// After a warm start that bound holds too. The first incumbent also costs no more than the older hubs, where they are
/// a hub set with the wanted number.
pub fn again_is_at_most()
    ensures { AgainIsAtMost }
{}
