//! The shortest routes over a hub set, and those that leave one or two of its hubs out.

use ascent_lengths::{
    CommodityLengths, FAR, LengthTables, Table, at, fill, gather, row, row_mut, short,
};
use std::alloc::{AllocError, Global};

/// A shortest route: its first and last hub, as places, and its length.
#[derive(Clone, Copy)]
pub struct ShortRoute {
    /// The first hub.
    pub first: usize,
    /// The last hub.
    pub last: usize,
    /// The length.
    pub length: u32,
}

/// A route to fill vectors with.
pub(crate) const NO_ROUTE: ShortRoute = ShortRoute {
    first: usize::MAX,
    last: usize::MAX,
    length: FAR,
};

/// The shortest route of a commodity, and the lengths of the shortest ones without its first hub, without its last hub,
/// and without both.
#[derive(Clone, Copy)]
pub struct Detours {
    /// The shortest route.
    pub route: ShortRoute,
    /// The length without its first hub.
    pub without_first: u32,
    /// The length without its last hub.
    pub without_last: u32,
    /// The length without both.
    pub neither: u32,
}

/// The end of a route: from a hub by a last hub, a place, to a destination.
#[derive(Clone, Copy)]
struct RouteEnd {
    last: u32,
    length: u32,
}

/// A route end to fill vectors with.
const NO_HOP: RouteEnd = RouteEnd {
    last: u32::MAX,
    length: FAR,
};

/// The three shortest route ends with different last hubs, in order.
#[derive(Clone, Copy)]
struct RouteEnds([RouteEnd; 3]);

impl RouteEnds {
    /// Takes the route end in, if it is one of the shortest.
    fn take(&mut self, hop: RouteEnd) {
        let [first, second, third] = self.0;
        if hop.length < first.length {
            self.0 = [hop, first, second];
        } else if hop.length < second.length {
            self.0 = [first, hop, second];
        } else if hop.length < third.length {
            self.0 = [first, second, hop];
        }
    }

    /// The shortest route end that avoids both places.
    fn without(&self, left_out: [usize; 2]) -> RouteEnd {
        let [first, second, third] = self.0;
        if !left_out.contains(&(first.last as usize)) {
            first
        } else if !left_out.contains(&(second.last as usize)) {
            second
        } else {
            third
        }
    }
}

/// The legs over the hubs of a set, by origin and by destination, and the shortest route ends from each hub.
#[derive(Drop)]
pub struct SetRoutes {
    hubs: Vec<usize>,
    pub(crate) collect: Table,
    pub(crate) deliver: Table,
    hops: Vec<RouteEnds>,
}

impl SetRoutes {
    /// Empty routes, with room for this many nodes and hubs.
    pub fn new(alloc: Global, size: usize, hubs: usize) -> Result<SetRoutes, AllocError> {
        Ok(SetRoutes {
            hubs: Vec::with_capacity(alloc, hubs)?,
            collect: Table::new(alloc, size, hubs)?,
            deliver: Table::new(alloc, size, hubs)?,
            hops: vec![in alloc; RouteEnds([NO_HOP; 3]); size.wrapping_mul(hubs)]?,
        })
    }

    /// The hubs, as places.
    pub fn hubs(&self) -> &[usize] {
        &self.hubs
    }

    /// Computes the routes over the marked places.
    pub fn take(&mut self, tables: &LengthTables, marks: &[bool]) {
        self.hubs.clear();
        for (k, mark) in marks.iter().enumerate() {
            if *mark {
                // It succeeds where there is room for all hubs.
                let _ = self.hubs.push(k);
            }
        }
        for i in 0..tables.size {
            fill(self.collect.row_mut(i), FAR);
            fill(self.deliver.row_mut(i), FAR);
            gather(
                tables.legs.collect.row(i),
                &self.hubs,
                self.collect.row_mut(i),
            );
            gather(
                tables.legs.deliver.row(i),
                &self.hubs,
                self.deliver.row_mut(i),
            );
            self.take_hops(tables, i);
        }
    }

    /// Computes the shortest route ends to the destination.
    fn take_hops(&mut self, tables: &LengthTables, j: usize) {
        let deliver = tables.legs.deliver.row(j);
        let rows = row_mut(&mut self.hops, j, self.hubs.len());
        for (hops, k) in rows.iter_mut().zip(&self.hubs) {
            let trunk = tables.legs.trunk.row(*k);
            *hops = RouteEnds([NO_HOP; 3]);
            for m in &self.hubs {
                hops.take(RouteEnd {
                    last: short(*m),
                    length: at(trunk, *m).wrapping_add(at(deliver, *m)),
                });
            }
        }
    }

    /// The shortest route; ties by the order of the first hubs.
    pub fn shortest(&self, tables: &LengthTables, i: usize, j: usize) -> ShortRoute {
        self.without(tables, [i, j], [usize::MAX; 2])
    }

    /// The shortest route that avoids both places.
    #[inline(always)]
    pub(crate) fn without(
        &self,
        tables: &LengthTables,
        from: [usize; 2],
        left_out: [usize; 2],
    ) -> ShortRoute {
        let [i, j] = from;
        let collect = self.collect.row(i);
        let hops = row(&self.hops, j, self.hubs.len());
        let hubs = self.hubs.as_slice();
        let mut found = NO_ROUTE;
        for e in 0..hubs.len().min(collect.len()).min(hops.len()) {
            let hop = hops[e].without(left_out);
            let length = collect[e].wrapping_add(hop.length);
            if length < found.length && !left_out.contains(&hubs[e]) {
                found = ShortRoute {
                    first: hubs[e],
                    last: hop.last as usize,
                    length,
                };
            }
        }
        if tables.has_limit() {
            let legs = CommodityLengths::of(tables, i, j);
            if !legs.is_safe(found.length.wrapping_add(1)) {
                return self.shortest_allowed(&legs, j, left_out);
            }
        }
        found
    }

    /// The shortest route, and the lengths without its hubs.
    pub fn detours(&self, tables: &LengthTables, i: usize, j: usize) -> Detours {
        let route = self.shortest(tables, i, j);
        let (k, m) = (route.first, route.last);
        let length = |left_out| self.without(tables, [i, j], left_out).length;
        let without_first = length([k, k]);
        let (without_last, neither) = if k == m {
            (without_first, without_first)
        } else {
            (length([m, m]), length([k, m]))
        };
        Detours {
            route,
            without_first,
            without_last,
            neither,
        }
    }

    /// The shortest allowed route that avoids these places, or none.
    fn shortest_allowed(
        &self,
        legs: &CommodityLengths<'_>,
        j: usize,
        left_out: [usize; 2],
    ) -> ShortRoute {
        let hops = row(&self.hops, j, self.hubs.len());
        let mut found = NO_ROUTE;
        for (k, hops) in self.hubs.iter().zip(hops) {
            // No route by this first hub is shorter.
            let least = at(legs.ends.collect, *k).wrapping_add(hops.0[0].length);
            if least < found.length && !left_out.contains(k) {
                let onward = legs.onward(*k);
                for m in &self.hubs {
                    let length = onward.length(*m);
                    if length < found.length && !left_out.contains(m) {
                        found = ShortRoute {
                            first: *k,
                            last: *m,
                            length,
                        };
                    }
                }
            }
        }
        found
    }
}
