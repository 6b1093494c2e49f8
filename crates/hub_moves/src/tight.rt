//! The dual of a commodity that is tight at a hub set.

use crate::routes::SetRoutes;
use ascent_lengths::{CommodityLengths, Lengths, PlaceValues, at};

/// Returns whether a commodity's dual is tight at the set: its price is the length of the shortest route plus the
/// values of the hubs.
pub fn is_tight(
    routes: &SetRoutes,
    lengths: &Lengths,
    from: [usize; 2],
    price: u32,
    values: &[u32],
) -> bool {
    let mut sum = routes.shortest(&lengths.tables, from[0], from[1]).length;
    for k in routes.hubs() {
        sum = sum.wrapping_add(at(values, *k));
    }
    sum == price
}

/// Sets the values that are tight at the set and closest to these, and returns the price. The values of the shortest
/// route's hubs are at most what the routes without them allow. Places outside the set keep their values. Where
/// lengths are rounded, those that get values later get a little more.
pub fn begin_tight(
    routes: &SetRoutes,
    lengths: &Lengths,
    from: [usize; 2],
    values: &[u32],
    found: &mut PlaceValues,
) -> u32 {
    let [i, j] = from;
    let (most, slack) = (lengths.longest(), lengths.slack());
    let detours = routes.detours(&lengths.tables, i, j);
    let route = detours.route;
    let (k, m) = (route.first, route.last);
    let room = |length: u32| length
        .min(most)
        .saturating_sub(route.length.wrapping_add(slack));
    let neither = room(detours.neither);
    let first = at(values, k).min(room(detours.without_first)).min(neither);
    let mut last = 0;
    if k != m {
        let left = room(detours.without_last).min(neither.saturating_sub(first));
        last = at(values, m).min(left);
    }
    let price = route.length.wrapping_add(first).wrapping_add(last);
    let legs = CommodityLengths::of(&lengths.tables, i, j);
    found.begin_from(&legs, price.wrapping_add(slack), values);
    for h in routes.hubs() {
        found.settle(&legs, *h, 0);
    }
    found.settle(&legs, m, last);
    found.settle(&legs, k, first);
    price
}
