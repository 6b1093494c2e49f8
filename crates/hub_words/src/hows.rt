//! The method of a search, from the arguments.

ghost use Rattle.std.specs.Prelude.{◌≡◌, IfSome, codes, option_map};
ghost use Rattle.hub_words.specs.Requests.{IsGap, gap_of};
ghost use Rattle.hub_words.specs.Words as spec;
ghost use Rattle.hub_words.specs.Views.{how_seen, rows_found, rule_seen};

use crate::requests::{How, SearchRule};
use crate::settings::given;
use crate::values::{core_cuts, gap, rule};
use clap::ArgMatches;

/// By a rule, which `solve` asks for.
#[tactic(auto, unfolding(crate::specs::Words::by_rule_asked))]
pub(crate) fn by_rule<'a>(found: &ArgMatches<'a>) -> Option<How<'a>>
    ensures how { option_map how_seen result ≡ spec.by_rule_asked (rows_found found.now) }
    ensures gap { IfSome result (λ how. IsGap (gap_of (how_seen how))) }
{
    let rule = rule(given(found, "rule"))?;
    let core = core_cuts(given(found, "cuts"))?;
    Some(How::Follow(with_cuts(core, rule)?))
}

/// The rule, with Pareto-optimal cuts where `core` holds. None for the rule by rounds with such cuts.
fn with_cuts(core: bool, rule: SearchRule) -> Option<SearchRule>
    ensures { option_map rule_seen result ≡ spec.with_cuts core (rule_seen rule) }
{
    match (core, rule) {
        (false, _) => Some(rule),
        (true, SearchRule::ByRounds) => None,
        (true, SearchRule::NodeByNode | SearchRule::ByCoreCuts) => Some(SearchRule::ByCoreCuts),
    }
}

/// By no rule, which `optimize` asks for.
#[tactic(auto, unfolding(crate::specs::Words::freely_asked))]
pub(crate) fn freely<'a>(found: &ArgMatches<'a>) -> Option<How<'a>>
    ensures how { option_map how_seen result ≡ spec.freely_asked (rows_found found.now) }
    ensures gap { IfSome result (λ how. IsGap (gap_of (how_seen how))) }
{
    let gap = gap(given(found, "gap"))?;
    let from = given(found, "from");
    Some(How::Freely { gap, from })
}

/// Again, which `resolve` asks for.
#[tactic(auto, unfolding(crate::specs::Words::again_asked))]
pub(crate) fn again<'a>(found: &ArgMatches<'a>) -> Option<How<'a>>
    ensures how { option_map how_seen result ≡ spec.again_asked (rows_found found.now) }
    ensures gap { IfSome result (λ how. IsGap (gap_of (how_seen how))) }
{
    Some(How::Again(given(found, "older")?))
}
