//! A made-up instance, from the arguments.

ghost use Rattle.std.specs.Prelude.{◌≡◌, IfSome, codes, option_map};
ghost use Rattle.hub_words.specs.Requests.{IsMaking};
ghost use Rattle.hub_words.specs.Words as spec;
ghost use Rattle.hub_words.specs.Views.{making_seen, rows_found};

use crate::requests::Making;
use crate::settings::given;
use crate::values::{seed, size};
use clap::ArgMatches;

/// The instance that the words ask to be made.
#[tactic(auto, unfolding(crate::specs::Words::making_asked))]
pub(crate) fn read_making(found: &ArgMatches<'_>) -> Option<Making>
    ensures value { option_map making_seen result ≡ spec.making_asked (rows_found found.now) }
    ensures limits { IfSome result (λ m. IsMaking (making_seen m)) }
{
    Some(Making {
        seed: seed(given(found, "seed"))?,
        size: size(given(found, "size"))?,
    })
}
