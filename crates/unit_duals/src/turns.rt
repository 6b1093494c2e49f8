//! The values of all positions for all destinations of one origin, one position after another.
//!
//! Values are row by row, one row for each position. Slack and rest have rows too, for the positions that are done. The
//! slack is the price less a value and its last leg, and the rest is the price less the value.

ghost use Rattle.std.specs.Prelude.{◌≡◌, ℕ, ◌+◌, ◌-◌, ◌*◌, ◌<◌, ◌≤◌, length, slice_index};
ghost use Rattle.unit_duals.specs.Cells.{cell};
ghost use Rattle.unit_duals.specs.Lengths.{IsLegRow, last_leg, trunk_leg, stops};
ghost use Rattle.unit_duals.specs.Values.{AreOriginLengths, AreRowsDone, AreRowsNoted, AreWorkLists};
ghost use Rattle.unit_duals.specs.Raised.{asked_by_hubs, asked_forth, asked_home, IsSparedForth, IsSparedHome, IsRowRaised, IsRowSet};

use crate::Tables;
use crate::lanes::{excess, lesser};
use crate::legs::row;
use crate::raising::{raise_forth, raise_home};

/// What the values of one origin follow from.
#[derive(Clone, Copy)]
pub(crate) struct OriginLengths<'a> {
    pub(crate) tables: &'a Tables,
    /// The price of each destination.
    pub(crate) prices: &'a [u64],
    /// The legs from the origin to the stops.
    pub(crate) first: &'a [u64],
    /// The least lengths to them.
    pub(crate) reach: &'a [u64],
}

/// Gives each place, in its turn, the least values that it may have.
pub(crate) fn pull_values(
    lengths: &OriginLengths<'_>,
    slack: &mut [u64],
    rest: &mut [u64],
    values: &mut [u64],
)
    requires lengths { AreOriginLengths lengths.now }
    requires lists { AreWorkLists lengths.now.tables.now.legs slack.old rest.old values.old }
    ensures { AreRowsDone lengths.now lengths.now.tables.now.legs.count values.new }
{
    for t in 0..lengths.tables.count() {
        pull_row(lengths, slack, rest, values, t);
        set_slack_row(lengths, values, slack, rest, t);
    }
}

/// The turn of the place `t`.
fn pull_row(lengths: &OriginLengths<'_>, slack: &[u64], rest: &[u64], values: &mut [u64], t: usize)
    requires lengths { AreOriginLengths lengths.now }
    requires lists { AreWorkLists lengths.now.tables.now.legs slack.now rest.now values.old }
    requires place { t < lengths.now.tables.now.legs.count }
    requires noted { AreRowsNoted lengths.now t values.old slack.now rest.now }
    requires before { AreRowsDone lengths.now t values.old }
    ensures noted { AreRowsNoted lengths.now t values.new slack.now rest.now }
    ensures done { AreRowsDone lengths.now (t + 1) values.new }
{
    set_row(lengths, values, t);
    let tables = lengths.tables;
    let size = tables.size();
    let trunk = tables.trunk_row(t);
    let turned = tables.turned_row(t);
    for e in 0..t {
        go_forth(lengths, trunk, row(slack, e, size), values, e, t);
        go_home(lengths, turned, row(rest, e, size), values, e, t);
    }
}

/// Gives the place what the ways by hubs ask.
fn set_row(lengths: &OriginLengths<'_>, values: &mut [u64], t: usize)
    requires lengths { AreOriginLengths lengths.now }
    requires place { t < lengths.now.tables.now.legs.count }
    requires values { length values.old ≡ lengths.now.tables.now.legs.count * lengths.now.tables.now.legs.size }
    ensures { let l = lengths.now.tables.now.legs in
        IsRowSet l.size t l.size (asked_by_hubs l lengths.now.prices.now lengths.now.first.now lengths.now.reach.now t) values.old values.new }
{
    let tables = lengths.tables;
    let size = tables.size();
    let at = t * size;
    let prices = lengths.prices;
    let first = lengths.first[t];
    let reach = lengths.reach[t];
    let back = tables.back_row(t);
    let last = tables.last_row(t);
    for j in 0..size {
        let least = lesser(first + back[j], reach + last[j]);
        values[at + j] = excess(prices[j], least);
    }
}

/// Raises the place's values to what the ways by it and then the earlier place `e` ask. The place's own legs to all stops
/// are `trunk`.
fn go_forth(
    lengths: &OriginLengths<'_>,
    trunk: &[u64],
    slack: &[u64],
    values: &mut [u64],
    e: usize,
    t: usize,
)
    requires lengths { AreOriginLengths lengths.now }
    requires place { t < lengths.now.tables.now.legs.count }
    requires earlier { e < t }
    requires trunk { let l = lengths.now.tables.now.legs in IsLegRow (stops l) (trunk_leg l t) trunk.now }
    requires slack { length slack.now ≡ lengths.now.tables.now.legs.size }
    requires values { length values.old ≡ lengths.now.tables.now.legs.count * lengths.now.tables.now.legs.size }
    ensures { let l = lengths.now.tables.now.legs in let first = lengths.now.first.now in
        IsRowRaised l.size t (asked_forth l first slack.now t e) (IsSparedForth l first lengths.now.reach.now t e) values.old values.new }
{
    let tables = lengths.tables;
    let base = lengths.first[t] + trunk[e];
    if base < lengths.reach[e] {
        let at = t * tables.size();
        raise_forth(values, at, tables.near_forth(t, e), slack, base);
    }
}

/// Raises the place's values to what the ways by the earlier place `e` and then it ask. The legs of all stops to the place
/// are `turned`.
fn go_home(
    lengths: &OriginLengths<'_>,
    turned: &[u64],
    rest: &[u64],
    values: &mut [u64],
    e: usize,
    t: usize,
)
    requires lengths { AreOriginLengths lengths.now }
    requires place { t < lengths.now.tables.now.legs.count }
    requires earlier { e < t }
    requires turned { let l = lengths.now.tables.now.legs in IsLegRow (stops l) (λ m. trunk_leg l m t) turned.now }
    requires rest { length rest.now ≡ lengths.now.tables.now.legs.size }
    requires values { length values.old ≡ lengths.now.tables.now.legs.count * lengths.now.tables.now.legs.size }
    ensures { let l = lengths.now.tables.now.legs in let first = lengths.now.first.now in
        IsRowRaised l.size t (asked_home l first rest.now t e) (IsSparedHome l first lengths.now.reach.now t e) values.old values.new }
{
    let tables = lengths.tables;
    let base = lengths.first[e] + turned[e];
    if base < lengths.reach[t] {
        let at = t * tables.size();
        let near = tables.near_home(t, e);
        raise_home(values, at, near, rest, tables.last_row(t), base);
    }
}

/// Notes what the prices leave beside the place's values, once its turn is over.
fn set_slack_row(
    lengths: &OriginLengths<'_>,
    values: &[u64],
    slack: &mut [u64],
    rest: &mut [u64],
    t: usize,
)
    requires lengths { AreOriginLengths lengths.now }
    requires place { t < lengths.now.tables.now.legs.count }
    requires lists { AreWorkLists lengths.now.tables.now.legs slack.old rest.old values.now }
    requires within { let n = lengths.now.tables.now.legs.size in
        (j : ℕ) → j < n → cell n values.now t j ≤ slice_index lengths.now.prices.now j }
    ensures slack { let l = lengths.now.tables.now.legs in IsRowSet l.size t l.size
        (λ j. slice_index lengths.now.prices.now j - cell l.size values.now t j - last_leg l t j) slack.old slack.new }
    ensures rest { let l = lengths.now.tables.now.legs in IsRowSet l.size t l.size
        (λ j. slice_index lengths.now.prices.now j - cell l.size values.now t j) rest.old rest.new }
{
    let prices = lengths.prices;
    let size = lengths.tables.size();
    let at = t * size;
    let last = lengths.tables.last_row(t);
    for j in 0..size {
        let above = excess(prices[j], values[at + j]);
        rest[at + j] = above;
        slack[at + j] = excess(above, last[j]);
    }
}
