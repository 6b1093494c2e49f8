//! The instance options that are single values, and those with the candidates.

ghost use Rattle.std.specs.Prelude.{◌≡◌, IfSome, Some, option_map};
ghost use Rattle.file_spec.specs.Options.{australia_post, listed_number, IsOptions};
ghost use Rattle.hub_model.specs.Asked.{number_of};
ghost use Rattle.hub_model.specs.Amounts.{IsNatural, natural};
ghost use Rattle.hub_words.specs.Words as spec;
ghost use Rattle.hub_words.specs.Views.{layout_of, rows_found};
ghost use Rattle.hub_words.specs.Settings.{AreLimits, IsFactors, factors_of, limits_of, settings_of};

use crate::requests::Layout;
use crate::values::{divide, factor, fixed, hubs, is_set, longest, order, tail};
use clap::ArgMatches;
use hub_model::{HubNumber, Nodes, Order, Tail, Terms};

/// The options that are single values.
#[derive(Clone, Copy)]
pub(crate) struct Settings {
    pub(crate) order: Order,
    pub(crate) tail: Tail,
    pub(crate) divide: u32,
    pub(crate) factors: FactorSettings,
    pub(crate) fixed: Option<u64>,
    pub(crate) limits: PlanLimits,
    pub(crate) no_self: bool,
}

/// How long routes may be, and how many hubs are wanted: not both are given.
#[derive(Clone, Copy)]
pub(crate) struct PlanLimits {
    /// In 10^-3.
    pub(crate) longest: Option<u64>,
    pub(crate) hubs: Option<HubNumber>,
}

/// The factors that are given.
#[derive(Clone, Copy)]
pub(crate) struct FactorSettings {
    pub(crate) collect: Option<u64>,
    pub(crate) trunk: Option<u64>,
    pub(crate) deliver: Option<u64>,
}

/// The value that the words give to the argument of this name.
pub(crate) fn given<'a>(found: &ArgMatches<'a>, name: &str) -> Option<&'a str>
    ensures { option_map (λ word. word.now) result ≡ spec.given (rows_found found.now) name.now }
{
    found.get_str(name)
}

/// The single values, where each is within its form.
pub(crate) fn read_settings(layout: Layout, found: &ArgMatches<'_>) -> Option<Settings>
    ensures value { option_map settings_of result ≡ spec.settings_asked (layout_of layout) (rows_found found.now) }
    ensures limits { IfSome result (λ s. IsOptions (settings_of s)) }
    ensures listed { IfSome result (λ s. (settings_of s).hubs ≡ Some listed_number → layout_of layout ≡ australia_post) }
{
    Some(Settings {
        order: order(layout, given(found, "order"))?,
        tail: tail(layout, given(found, "tail"))?,
        divide: divide(given(found, "divide"))?,
        factors: read_factors(found)?,
        fixed: fixed(given(found, "fixed"))?,
        limits: read_limits(layout, found)?,
        no_self: is_set(given(found, "no-self")),
    })
}

fn read_factors(found: &ArgMatches<'_>) -> Option<FactorSettings>
    ensures value { option_map factors_of result ≡ spec.factors_asked (rows_found found.now) }
    ensures limits { IfSome result IsFactors }
{
    Some(FactorSettings {
        collect: factor(given(found, "collect"))?,
        trunk: factor(given(found, "trunk"))?,
        deliver: factor(given(found, "deliver"))?,
    })
}

fn read_limits(layout: Layout, found: &ArgMatches<'_>) -> Option<PlanLimits>
    ensures value { option_map limits_of result ≡ spec.limits_asked (layout_of layout) (rows_found found.now) }
    ensures limits { IfSome result AreLimits }
    ensures listed { IfSome result (λ l. option_map number_of l.hubs ≡ Some listed_number → layout_of layout ≡ australia_post) }
{
    let longest = longest(given(found, "max-length"))?;
    let hubs = hubs(layout, given(found, "hubs"))?;
    if longest.is_some() && hubs.is_some() {
        return None;
    }
    Some(PlanLimits { longest, hubs })
}

/// The terms of these options and candidates.
pub(crate) fn terms(settings: Settings, candidates: Option<Nodes>) -> Terms
    requires { IsOptions (settings_of settings) }
    ensures value { result ≡ record (settings_of settings) { candidates = candidates } }
    ensures limits { IsOptions result }
{
    Terms {
        order: settings.order,
        tail: settings.tail,
        divide: settings.divide,
        collect: amount(settings.factors.collect),
        trunk: amount(settings.factors.trunk),
        deliver: amount(settings.factors.deliver),
        fixed: amount(settings.fixed),
        candidates,
        no_self: settings.no_self,
        longest: amount(settings.limits.longest),
        hubs: settings.limits.hubs,
    }
}

fn amount(value: Option<u64>) -> Option<i128>
    ensures same { option_map natural result ≡ value }
    ensures natural { IfSome result IsNatural }
{
    value.map(i128::from)
}
