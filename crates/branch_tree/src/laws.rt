//! Laws of the finding of a search.

ghost use Rattle.branch_tree.specs.Findings.{SearchIsProved, AgainIsProved, UnlimitedIsFirst, WithoutCoreCuts};

/// The certificate of a finding proves it, and is within the ranges of a certificate's text. All candidates together
/// must be feasible for every commodity.
pub fn search_is_proved()
    ensures { SearchIsProved }
{}

/// So does the certificate of a search with a warm start.
pub fn again_is_proved()
    ensures { AgainIsProved }
{}

/// With neither a length limit nor a wanted number of hubs, the tree has only lines of the first version of
/// certificates.
pub fn unlimited_is_first()
    ensures { UnlimitedIsFirst }
{}

/// Without Pareto-optimal cuts, the finding is that of the rule in the search's definition.
pub fn without_core_cuts()
    ensures { WithoutCoreCuts }
{}
