//! What holds of a search by rounds.

ghost use Rattle.search_spec.specs.RoundTheorems.{RoundSearchIsSound, RoundSearchIsCounted, RoundStopIsForNodes, RoundEnoughNodesSuffice, RoundCostNeverRises, EachRoundFalls, RoundsAreOver, RoundIsByOutcomes};

/// What a search by rounds finds shows its answer: the cuts are cuts, the tree is sound for the answer, and the incumbent
/// costs what it says. This is so whatever number of nodes is allowed.
pub fn round_search_is_sound()
    ensures { RoundSearchIsSound }
{}

/// The tree has a line for each node that was made, no more than are allowed, and no more than a whole tree has.
pub fn round_search_is_counted()
    ensures { RoundSearchIsCounted }
{}

/// A search stops only where two nodes more are not allowed. Where it did not stop, its answer is its cost.
pub fn round_stop_is_for_nodes()
    ensures { RoundStopIsForNodes }
{}

/// With no number of nodes, or as many as a whole tree has, a search does not stop.
pub fn round_enough_nodes_suffice()
    ensures { RoundEnoughNodesSuffice }
{}

/// What a search finds costs at most what it began with.
pub fn round_cost_never_rises()
    ensures { RoundCostNeverRises }
{}

/// Each round of a search leaves fewer turns than there were, so that the rounds end.
pub fn each_round_falls()
    ensures { EachRoundFalls }
{}

/// After the rounds of a search no other follows: no node is pending, or the search is stopped.
pub fn rounds_are_over()
    ensures { RoundsAreOver }
{}

/// A round is all turns by the state at its start, and then what is taken of their outcomes in order.
pub fn round_is_by_outcomes()
    ensures { RoundIsByOutcomes }
{}
