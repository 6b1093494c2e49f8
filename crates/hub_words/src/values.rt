//! The values of single arguments and options, by their forms.

ghost use Rattle.std.specs.Prelude.{◌≡◌, ◌≤◌, true, length, Some, IfSome, option_map};
ghost use Rattle.std.specs.List.{list_any, after_first};
ghost use Rattle.hub_spec.specs.Limits.{most_factor, most_length, most_nodes};
ghost use Rattle.file_spec.specs.Options.{australia_post, listed_number, IsHubNumber};
ghost use Rattle.file_spec.specs.Limits.{most_cost_read, most_divisor};
ghost use Rattle.text_spec.specs.Numbers.{count_value, is_exponent_mark, is_point};
ghost use Rattle.hub_model.specs.Asked.{order_of, tail_of, number_of};
ghost use Rattle.cert_scan.specs.Versions.{version_number};
ghost use Rattle.hub_words.specs.Limits.{most_gap, most_search_nodes, most_seed, most_workers};
ghost use Rattle.hub_words.specs.Requests.{IsVersion, by_core_cuts};
ghost use Rattle.hub_words.specs.Values as spec;
ghost use Rattle.hub_words.specs.Views.{layout_of, rule_seen};

use crate::limits::{MOST_GAP, MOST_SEARCH_NODES, MOST_SEED, MOST_WORKERS};
use crate::requests::{Layout, SearchRule};
use cert_scan::Version;
use dec_text::{read_count, read_decimal};
use hub_model::{
    HubNumber, MOST_COST_READ, MOST_DIVISOR, MOST_FACTOR, MOST_LENGTH, MOST_NODES, Order, Tail,
    unsigned_small,
};

pub(crate) fn layout_named(word: &str) -> Option<Layout>
    ensures { option_map layout_of result ≡ spec.layout_named word.now }
{
    if word == "cab-matrix" {
        Some(Layout::CabMatrix)
    } else if word == "cab-rows" {
        Some(Layout::CabRows)
    } else if word == "ap" {
        Some(Layout::AustraliaPost)
    } else {
        None
    }
}

fn order_named(word: &str) -> Option<Order>
    ensures { option_map order_of result ≡ spec.order_named word.now }
{
    if word == "flow-first" {
        Some(Order::FlowFirst)
    } else if word == "distance-first" {
        Some(Order::DistanceFirst)
    } else {
        None
    }
}

fn tail_named(word: &str) -> Option<Tail>
    ensures { option_map tail_of result ≡ spec.tail_named word.now }
{
    if word == "ignore" {
        Some(Tail::Ignore)
    } else if word == "fixed" {
        Some(Tail::Fixed)
    } else {
        None
    }
}

/// The order of the matrices, which only a file of two matrices lets choose.
pub(crate) fn order(layout: Layout, given: Option<&str>) -> Option<Order>
    ensures { option_map order_of result ≡ spec.order_asked (layout_of layout) (option_map (λ word. word.now) given.entry) }
{
    match given {
        None => Some(Order::FlowFirst),
        Some(word) => match layout {
            Layout::CabMatrix => order_named(word),
            Layout::CabRows | Layout::AustraliaPost => None,
        },
    }
}

/// What the tail is, which only a file of Australia Post lets choose.
pub(crate) fn tail(layout: Layout, given: Option<&str>) -> Option<Tail>
    ensures { option_map tail_of result ≡ spec.tail_asked (layout_of layout) (option_map (λ word. word.now) given.entry) }
{
    match given {
        None => Some(Tail::Ignore),
        Some(word) => match layout {
            Layout::AustraliaPost => tail_named(word),
            Layout::CabMatrix | Layout::CabRows => None,
        },
    }
}

pub(crate) fn divide(given: Option<&str>) -> Option<u32>
    ensures value { result ≡ spec.divide_asked (option_map (λ word. word.now) given.entry) }
    ensures limits { IfSome result (λ d. (1 ≤ d) × (d ≤ most_divisor)) }
{
    match given {
        None => Some(1),
        Some(word) => small_count(word, 1, MOST_DIVISOR),
    }
}

/// At most how many nodes a search makes, where a number is given.
pub(crate) fn nodes(given: Option<&str>) -> Option<Option<u64>>
    ensures value { result ≡ spec.nodes_asked (option_map (λ word. word.now) given.entry) }
    ensures limits { IfSome result (λ nodes. IfSome nodes (λ n. (1 ≤ n) × (n ≤ most_search_nodes))) }
{
    match given {
        None => Some(None),
        Some(word) => count(word, 1, MOST_SEARCH_NODES).map(Some),
    }
}

/// How many workers a search has.
pub(crate) fn workers(given: Option<&str>) -> Option<u32>
    ensures value { result ≡ spec.workers_asked (option_map (λ word. word.now) given.entry) }
    ensures limits { IfSome result (λ w. (1 ≤ w) × (w ≤ most_workers)) }
{
    match given {
        None => Some(1),
        Some(word) => small_count(word, 1, MOST_WORKERS),
    }
}

/// How far the bound may be below the cost, in thousandths of a per cent of the cost: not at all where no gap is given.
pub(crate) fn gap(given: Option<&str>) -> Option<u32>
    ensures value { result ≡ spec.gap_asked (option_map (λ word. word.now) given.entry) }
    ensures limit { IfSome result (λ gap. gap ≤ most_gap) }
{
    match given {
        None => Some(0),
        Some(word) => gap_named(word),
    }
}

fn gap_named(word: &str) -> Option<u32>
    ensures value { result ≡ spec.gap_named word.now }
    ensures limit { IfSome result (λ gap. gap ≤ most_gap) }
{
    if !has_places(word, 3) {
        return None;
    }
    match quantity(word, 3, MOST_GAP) {
        Some(gap) => Some(gap as u32),
        None => None,
    }
}

/// Tells whether the word has no exponent, and at most so many digits behind its point.
fn has_places(word: &str, most: usize) -> bool
    ensures { result ≡ spec.has_places most word.now }
{
    !has_exponent(word.as_bytes()) && places_of(word) <= most
}

fn has_exponent(word: &[u8]) -> bool
    ensures { result ≡ list_any is_exponent_mark word.now }
{
    word.iter().any(|b| *b == b'e' || *b == b'E')
}

/// How many bytes stand behind the word's point.
#[tactic(auto, using(std::proofs::lemmas::Str::Pattern::split_once_first))]
fn places_of(word: &str) -> usize
    ensures { result ≡ length (after_first is_point word.now) }
{
    match word.split_once('.') {
        Some((_, behind)) => behind.len(),
        None => 0,
    }
}

/// The rule of a search, node by node where none is given.
pub(crate) fn rule(given: Option<&str>) -> Option<SearchRule>
    ensures value { option_map rule_seen result ≡ spec.rule_asked (option_map (λ word. word.now) given.entry) }
    ensures named { IfSome result (λ rule. rule_seen rule ≡ by_core_cuts → ⊥) }
{
    match given {
        None => Some(SearchRule::NodeByNode),
        Some(word) => rule_named(word),
    }
}

fn rule_named(word: &str) -> Option<SearchRule>
    ensures value { option_map rule_seen result ≡ spec.rule_named word.now }
    ensures named { IfSome result (λ rule. rule_seen rule ≡ by_core_cuts → ⊥) }
{
    if word == "1" {
        Some(SearchRule::NodeByNode)
    } else if word == "2" {
        Some(SearchRule::ByRounds)
    } else {
        None
    }
}

/// Tells whether the word asks for Pareto-optimal cuts. Without a word the answer is no.
pub(crate) fn core_cuts(given: Option<&str>) -> Option<bool>
    ensures { result ≡ spec.core_cuts_asked (option_map (λ word. word.now) given.entry) }
{
    match given {
        None => Some(false),
        Some(word) => cuts_named(word),
    }
}

fn cuts_named(word: &str) -> Option<bool>
    ensures { result ≡ spec.cuts_named word.now }
{
    if word == "minimal" {
        Some(false)
    } else if word == "core" {
        Some(true)
    } else {
        None
    }
}

/// The version of the certificate's text, the first where none is given; where the length of routes is limited or a
/// number of hubs wanted, the second alone.
pub(crate) fn version(limited: bool, given: Option<&str>) -> Option<Version>
    ensures value { option_map version_number result ≡ spec.version_asked limited (option_map (λ word. word.now) given.entry) }
    ensures limits { IfSome result (λ v. IsVersion (version_number v)) }
    ensures sayable { IfSome result (λ v. limited ≡ true → version_number v ≡ 2) }
{
    match (limited, given) {
        (false, None) => Some(Version::First),
        (false, Some(word)) => version_named(word),
        (true, None | Some("2")) => Some(Version::Second),
        (true, Some(_)) => None,
    }
}

fn version_named(word: &str) -> Option<Version>
    ensures value { option_map version_number result ≡ spec.version_named word.now }
    ensures limits { IfSome result (λ v. IsVersion (version_number v)) }
{
    if word == "1" {
        Some(Version::First)
    } else if word == "2" {
        Some(Version::Second)
    } else {
        None
    }
}

/// The seed of a made instance.
pub(crate) fn seed(given: Option<&str>) -> Option<u32>
    ensures value { result ≡ spec.seed_asked (option_map (λ word. word.now) given.entry) }
    ensures limit { IfSome result (λ seed. seed ≤ most_seed) }
{
    match given {
        None => None,
        Some(word) => small_count(word, 0, MOST_SEED),
    }
}

/// The number of nodes of a made instance.
pub(crate) fn size(given: Option<&str>) -> Option<u32>
    ensures value { result ≡ spec.size_asked (option_map (λ word. word.now) given.entry) }
    ensures limits { IfSome result (λ n. (1 ≤ n) × (n ≤ most_nodes)) }
{
    match given {
        None => None,
        Some(word) => small_count(word, 1, MOST_NODES),
    }
}

fn small_count(word: &str, least: u32, most: u32) -> Option<u32>
    ensures value { result ≡ count_value least most word.now }
    ensures limits { IfSome result (λ n. (least ≤ n) × (n ≤ most)) }
{
    match count(word, u64::from(least), u64::from(most)) {
        Some(number) => Some(number as u32),
        None => None,
    }
}

/// A count within its limits.
pub(crate) fn count(word: &str, least: u64, most: u64) -> Option<u64>
    ensures value { result ≡ count_value least most word.now }
    ensures limits { IfSome result (λ n. (least ≤ n) × (n ≤ most)) }
{
    read_count(word, least, most)
}

pub(crate) fn factor(given: Option<&str>) -> Option<Option<u64>>
    ensures value { result ≡ spec.factor_asked (option_map (λ word. word.now) given.entry) }
    ensures limit { IfSome result (λ factor. IfSome factor (λ x. x ≤ most_factor)) }
{
    match given {
        None => Some(None),
        Some(word) => quantity(word, 3, MOST_FACTOR).map(Some),
    }
}

pub(crate) fn fixed(given: Option<&str>) -> Option<Option<u64>>
    ensures value { result ≡ spec.fixed_asked (option_map (λ word. word.now) given.entry) }
    ensures limit { IfSome result (λ fixed. IfSome fixed (λ x. x ≤ most_cost_read)) }
{
    match given {
        None => Some(None),
        Some(word) => quantity(word, 6, MOST_COST_READ as u64).map(Some),
    }
}

/// How long a route may be, in 10^-3.
pub(crate) fn longest(given: Option<&str>) -> Option<Option<u64>>
    ensures value { result ≡ spec.longest_asked (option_map (λ word. word.now) given.entry) }
    ensures limit { IfSome result (λ longest. IfSome longest (λ x. x ≤ most_length)) }
{
    match given {
        None => Some(None),
        Some(word) => quantity(word, 3, MOST_LENGTH).map(Some),
    }
}

/// The wanted number of hubs, if there is a word for one.
pub(crate) fn hubs(layout: Layout, given: Option<&str>) -> Option<Option<HubNumber>>
    ensures value { option_map (option_map number_of) result ≡ spec.hubs_asked (layout_of layout) (option_map (λ word. word.now) given.entry) }
    ensures limit { IfSome result (λ hubs. IfSome (option_map number_of hubs) IsHubNumber) }
    ensures listed { IfSome result (λ hubs. option_map number_of hubs ≡ Some listed_number → layout_of layout ≡ australia_post) }
{
    match given {
        None => Some(None),
        Some(word) => hub_number_named(layout, word).map(Some),
    }
}

fn hub_number_named(layout: Layout, word: &str) -> Option<HubNumber>
    ensures value { option_map number_of result ≡ spec.hub_number_named (layout_of layout) word.now }
    ensures limit { IfSome result (λ number. IsHubNumber (number_of number)) }
    ensures listed { IfSome result (λ number. number_of number ≡ listed_number → layout_of layout ≡ australia_post) }
{
    if word == "file" {
        return listed_in(layout);
    }
    Some(HubNumber::Said(small_count(word, 1, MOST_NODES)?))
}

/// The number of hubs that a file of this layout lists.
fn listed_in(layout: Layout) -> Option<HubNumber>
    ensures value { option_map number_of result ≡ spec.listed_in (layout_of layout) }
    ensures listed { IfSome result (λ number. layout_of layout ≡ australia_post) }
{
    match layout {
        Layout::AustraliaPost => Some(HubNumber::Listed),
        Layout::CabMatrix | Layout::CabRows => None,
    }
}

fn quantity(word: &str, places: u32, most: u64) -> Option<u64>
    requires { places ≤ 6 }
    ensures value { result ≡ spec.quantity places most word.now }
    ensures limit { IfSome result (λ x. x ≤ most) }
{
    match read_decimal(word.as_bytes(), places) {
        Ok(value) if value >= 0 && value <= most as i128 => Some(unsigned_small(value)),
        _ => None,
    }
}

pub(crate) fn is_set(given: Option<&str>) -> bool
    ensures { result ≡ spec.is_set (option_map (λ word. word.now) given.entry) }
{
    match given {
        None => false,
        Some(word) => word == "true",
    }
}
