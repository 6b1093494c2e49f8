//! The best duals for one hub, in closed form.

ghost use Rattle.dual_ascent.specs.Shapes.{KeepsShape};

use crate::fitting::Manner;
use ascent_lengths::{FAR, Lengths, at, fill, put, row, row_mut};
use dual_ascent::{State, Sums};
use std::alloc::{AllocError, Global};

/// Computes the duals at which the route over each single place is tight, in this manner, and returns their sums: the
/// value of a place is the price less the length of that route, and the price is the least at which every pair of hubs
/// allows this. Then the bound for one hub is the cost of the best hub.
pub(crate) fn fit_single(
    alloc: Global,
    lengths: &Lengths,
    state: &mut State,
    manner: Manner,
) -> Result<Sums, AllocError>
    ensures { KeepsShape state.old state.new }
{
    let places = lengths.places;
    let mut sums = Sums::new(alloc, places)?;
    let mut prices = vec![in alloc; 0; lengths.size]?;
    let mut values = vec![in alloc; 0; lengths.origin_values()]?;
    let mut turned = vec![in alloc; 0; places]?;
    for i in 0..lengths.size {
        set_turned(lengths, i, &mut turned);
        for (j, flow) in lengths.flows(i).iter().enumerate() {
            let values = row_mut(&mut values, j, places);
            let price = if *flow > 0 {
                fit_one(lengths, [i, j], &turned, values)
            } else {
                // Exact prices take least time where all values are great.
                fill(values, lengths.longest());
                lengths.longest()
            };
            put(&mut prices, j, price);
            sums.add_dual(*flow as i64, price, values);
        }
        if manner.keeps() {
            state.put_origin(i, &prices, &values);
        }
    }
    if manner.keeps() {
        state.take_sums(&sums);
    }
    Ok(sums)
}

/// Sets, for each place, the greatest of its collection leg and, over the other places, their collection leg less the
/// trunk leg.
fn set_turned(lengths: &Lengths, i: usize, turned: &mut [u32]) {
    let collect = lengths.tables.legs.collect.row(i);
    for (k, most) in turned.iter_mut().enumerate() {
        *most = at(collect, k);
        let trunk = lengths.tables.legs.trunk.row(k);
        for (m, leg) in collect.iter().enumerate() {
            if m != k && *leg < FAR {
                *most = leg.saturating_sub(at(trunk, m)).max(*most);
            }
        }
    }
}

/// Sets the values of a commodity, and returns its price.
fn fit_one(lengths: &Lengths, from: [usize; 2], turned: &[u32], values: &mut [u32]) -> u32 {
    let [i, j] = from;
    let (collect, deliver) = (
        lengths.tables.legs.collect.row(i),
        lengths.tables.legs.deliver.row(j),
    );
    let mut price = 0u32;
    for (most, leg) in turned.iter().zip(deliver) {
        price = price.max(most.wrapping_add(*leg));
    }
    for (k, value) in values.iter_mut().enumerate() {
        let alone = at(collect, k).wrapping_add(at(deliver, k));
        *value = price.saturating_sub(alone);
    }
    price
}
