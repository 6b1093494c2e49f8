//! Warm start: a search that begins with imported cuts and hubs.

ghost use Rattle.search_spec.specs.Theorems.{StartOfCertificate, CutIsInRange, AgainIsStart, GivenAreKept, NothingGiven, GivenOneByOne, WholeSearchesAgree, NoLoadOffCandidates, RuleIsOfSets};

/// A certificate in range whose cuts are cuts of the instance gives a warm start.
pub fn start_of_certificate()
    ensures { StartOfCertificate }
{}

/// A cut of the instance is in range where the values of its duals are listed in the required form.
pub fn cut_is_in_range()
    ensures { CutIsInRange }
{}

/// A search may begin from a warm start of the instance.
pub fn again_is_start()
    ensures { AgainIsStart }
{}

/// The imported cuts are numbered after the cuts with which the rule begins, and stay in the pool.
pub fn given_are_kept()
    ensures { GivenAreKept }
{}

/// With no imported cuts, and with hubs whose cut is in the pool, a search begins as the plain rule does.
pub fn nothing_given()
    ensures { NothingGiven }
{}

/// Importing cuts one by one gives the same state as importing them together.
pub fn given_one_by_one()
    ensures { GivenOneByOne }
{}

/// Two searches of one instance that ran to the end have the same cost.
pub fn whole_searches_agree()
    ensures { WholeSearchesAgree }
{}

/// A cut has loads only at candidates.
pub fn no_load_off_candidates()
    ensures { NoLoadOffCandidates }
{}

/// Each cut of a search by rule is the cut of a hub set.
pub fn rule_is_of_sets()
    ensures { RuleIsOfSets }
{}
