//! The routes of a commodity. A route that `--max-length` forbids has length `FAR`.

use crate::rows::{FAR, at, least_sum, row, small};
use crate::tables::{LegTables, LengthTables};

/// The legs of a commodity over places, allowed or not: collection, delivery, and the least lengths of each with a
/// trunk leg. With `--max-length` it has the distances that say which routes are allowed, and a length below which all
/// of them are.
#[derive(Clone, Copy)]
pub struct CommodityLengths<'a> {
    /// Collection and delivery.
    pub ends: Ends<'a>,
    collect_near: &'a [u32],
    deliver_near: &'a [u32],
    distances: Option<Ends<'a>>,
    limit: u32,
    safe_below: u32,
}

impl<'a> CommodityLengths<'a> {
    /// The legs of the commodity from `i` to `j`.
    pub fn of(tables: &'a LengthTables, i: usize, j: usize) -> CommodityLengths<'a> {
        let mut legs = CommodityLengths {
            ends: tables.legs.ends(i, j),
            collect_near: tables.collect_near.row(i),
            deliver_near: tables.deliver_near.row(j),
            distances: None,
            limit: FAR,
            safe_below: FAR,
        };
        if let Some(distances) = &tables.distances {
            legs.distances = Some(distances.legs.ends(i, j));
            legs.limit = distances.limit;
            legs.safe_below = at(row(&distances.safe_below, i, tables.size), j);
        }
        legs
    }

    /// Returns whether some route over the place, allowed or not, is shorter than the limit.
    pub fn is_near(&self, k: usize, limit: u32) -> bool {
        self.forth(k) < limit || self.back(k) < limit
    }

    /// The least length of a route with the place as its first hub.
    pub(crate) fn forth(&self, k: usize) -> u32 {
        at(self.ends.collect, k).wrapping_add(at(self.deliver_near, k))
    }

    /// The least length of a route with the place as its last hub.
    pub(crate) fn back(&self, k: usize) -> u32 {
        at(self.collect_near, k).wrapping_add(at(self.ends.deliver, k))
    }

    /// Returns whether all routes shorter than this are allowed.
    pub fn is_safe(&self, limit: u32) -> bool {
        self.distances.is_none() || limit <= self.safe_below
    }

    /// The same commodity where only routes shorter than this matter: without distances, if all of these are allowed.
    pub fn below(&self, limit: u32) -> CommodityLengths<'a> {
        let mut legs = *self;
        if self.is_safe(limit) {
            legs.distances = None;
        }
        legs
    }

    /// The length of the route with the place as its only hub.
    pub fn alone(&self, k: usize) -> u32 {
        match self.distances {
            Some(distances) if distances.alone(k) > self.limit => FAR,
            _ => self.ends.alone(k),
        }
    }

    /// The routes with the place as their first hub.
    pub fn onward(&self, k: usize) -> HubRoutes<'a> {
        HubRoutes {
            legs: self.ends.onward(k),
            distances: self.distances.map(|distances| distances.onward(k)),
            limit: self.limit,
        }
    }

    /// The routes with the place as their last hub.
    pub fn before(&self, k: usize) -> HubRoutes<'a> {
        HubRoutes {
            legs: self.ends.before(k),
            distances: self.distances.map(|distances| distances.before(k)),
            limit: self.limit,
        }
    }

    /// Sets, for each of the others, the length of the shorter route over it and the place, in either order. Collection
    /// and delivery legs of the others are given in the same order.
    pub fn set_pairs(&self, k: usize, others: &[usize], ends: [&[u32]; 2], lengths: &mut [i32]) {
        let (onward, before) = (self.onward(k), self.before(k));
        if self.distances.is_some() {
            for (length, m) in lengths.iter_mut().zip(others) {
                *length = small(onward.length(*m).min(before.length(*m)));
            }
            return;
        }
        let ([collect, deliver], own) = (ends, [onward.legs.own, before.legs.own]);
        let count = lengths.len().min(others.len());
        for x in 0..count.min(collect.len()).min(deliver.len()) {
            let trunk = at(onward.legs.trunk, others[x]);
            let forth = trunk.wrapping_add(own[0]).wrapping_add(deliver[x]);
            let trunk = at(before.legs.trunk, others[x]);
            let back = trunk.wrapping_add(own[1]).wrapping_add(collect[x]);
            lengths[x] = small(forth.min(back));
        }
    }

    /// The length of the shortest forbidden route, or `FAR`.
    pub(crate) fn shortest_barred(&self) -> u32 {
        let mut least = FAR;
        for k in 0..self.ends.collect.len() {
            if self.forth(k) < least {
                least = least.min(self.onward(k).shortest_barred());
            }
        }
        least
    }
}

/// The legs of a commodity, or their distances: from its origin to each place, from each place to its destination, and
/// between places.
#[derive(Clone, Copy)]
pub struct Ends<'a> {
    legs: &'a LegTables,
    /// The collection leg to each place.
    pub collect: &'a [u32],
    /// The delivery leg from each place.
    pub deliver: &'a [u32],
}

impl LegTables {
    fn ends(&self, i: usize, j: usize) -> Ends<'_> {
        Ends {
            legs: self,
            collect: self.collect.row(i),
            deliver: self.deliver.row(j),
        }
    }
}

impl<'a> Ends<'a> {
    fn alone(&self, k: usize) -> u32 {
        at(self.collect, k).wrapping_add(at(self.deliver, k))
    }

    fn onward(&self, k: usize) -> Fan<'a> {
        Fan {
            own: at(self.collect, k),
            trunk: self.legs.trunk.row(k),
            other: self.deliver,
        }
    }

    fn before(&self, k: usize) -> Fan<'a> {
        Fan {
            own: at(self.deliver, k),
            trunk: self.legs.trunk_back.row(k),
            other: self.collect,
        }
    }
}

/// The legs of routes with one hub in common, or their distances: the leg that they share, and by the other hub the two
/// other legs.
#[derive(Clone, Copy)]
struct Fan<'a> {
    own: u32,
    trunk: &'a [u32],
    other: &'a [u32],
}

impl Fan<'_> {
    /// The length of the route with this other hub.
    fn length(&self, other: usize) -> u32 {
        self.own
            .wrapping_add(at(self.trunk, other))
            .wrapping_add(at(self.other, other))
    }
}

/// The routes of a commodity with one hub in common, and their distances with the limit, if there is one.
#[derive(Clone, Copy)]
pub struct HubRoutes<'a> {
    legs: Fan<'a>,
    distances: Option<Fan<'a>>,
    limit: u32,
}

impl HubRoutes<'_> {
    /// The length of the route with this other hub.
    pub fn length(&self, other: usize) -> u32 {
        match self.distances {
            Some(distances) if distances.length(other) > self.limit => FAR,
            _ => self.legs.length(other),
        }
    }

    /// The least length where the other hub's outer leg is taken from the list; above `FAR` where there is none.
    pub fn least(&self, others: &[u32]) -> u32 {
        let least = match self.distances {
            None => least_sum(self.legs.trunk, others),
            Some(distances) => self.least_where(others, distances, true),
        };
        self.legs.own.wrapping_add(least)
    }

    /// The least sum of trunk leg and listed leg over allowed routes, or over forbidden ones. It is at most `FAR`.
    fn least_where(&self, others: &[u32], distances: Fan<'_>, is_allowed: bool) -> u32 {
        let (forth, back, trunk) = (distances.trunk, distances.other, self.legs.trunk);
        let count = trunk.len().min(others.len());
        let count = count.min(forth.len()).min(back.len());
        let mut least = FAR;
        for place in 0..count {
            let legs = forth[place].wrapping_add(back[place]);
            let is_in = distances.own.wrapping_add(legs) <= self.limit;
            let sum = trunk[place].wrapping_add(others[place]);
            least = least.min(if is_in == is_allowed { sum } else { FAR });
        }
        least
    }

    /// The length of the shortest forbidden route.
    pub(crate) fn shortest_barred(&self) -> u32 {
        let Some(distances) = self.distances else {
            return FAR
        };
        let least = self.least_where(self.legs.other, distances, false);
        self.legs.own.wrapping_add(least)
    }
}
