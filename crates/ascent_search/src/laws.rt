//! The set of all candidates.

ghost use Rattle.ascent_search.specs.Ends.{AllCandidatesServe};

/// Where no length of routes is limited, all candidates together are feasible for each commodity: they are a hub set,
/// which a search requires.
pub fn all_candidates_serve()
    ensures { AllCandidatesServe }
{}
