//! The limits of a search, from the arguments.

ghost use Rattle.std.specs.Prelude.{◌≡◌, IfSome, codes, option_map};
ghost use Rattle.cert_scan.specs.Versions.{version_number};
ghost use Rattle.hub_words.specs.Requests.{IsSearch};
ghost use Rattle.hub_words.specs.Words as spec;
ghost use Rattle.hub_words.specs.Views.{rows_found, search_seen};

use crate::requests::Search;
use crate::settings::given;
use crate::values::{nodes, workers};
use cert_scan::Version;
use clap::ArgMatches;

/// The search that the words ask for, with this version of the certificate.
#[tactic(auto, unfolding(crate::specs::Words::search_asked))]
pub(crate) fn read_search(found: &ArgMatches<'_>, version: Version) -> Option<Search>
    ensures value { option_map search_seen result ≡ spec.search_asked (rows_found found.now) (version_number version) }
    ensures limits { IfSome result (λ s. IsSearch (search_seen s)) }
    ensures version { IfSome result (λ s. s.version ≡ version) }
{
    Some(Search {
        nodes: nodes(given(found, "nodes"))?,
        workers: workers(given(found, "workers"))?,
        version,
    })
}
