//! What a trial pass of strong branching changes, to undo it.

ghost use Rattle.dual_ascent.specs.Shapes.{KeepsShape};

use crate::state::State;
use crate::sums::Sums;
use crate::waits::Quote;
use ascent_lengths::{Lengths, copy, row, row_mut, short};
use std::alloc::{AllocError, Global};

/// Trials take this part of the commodities with flow, and at least `LEAST_LISTED`.
const LISTED_PART: usize = 10;

const LEAST_LISTED: usize = 100;

/// The commodities with the greatest flows, for trials. A scrambled number breaks ties without regard to the order.
pub fn listed(alloc: Global, lengths: &Lengths) -> Result<Vec<usize>, AllocError> {
    let mut all = Vec::with_capacity(alloc, lengths.flowing)?;
    for c in 0..lengths.commodities() {
        let flow = lengths.flow(c);
        if flow > 0 {
            all.push((flow, short(c).wrapping_mul(2_654_435_761), c))?;
        }
    }
    all.sort_unstable();
    let count = all.len().div_ceil(LISTED_PART).max(LEAST_LISTED);
    let mut listed = Vec::with_capacity(alloc, count)?;
    for (_, _, commodity) in all.iter().rev().take(count) {
        listed.push(*commodity)?;
    }
    Ok(listed)
}

/// What trials over some listed commodities may change, as it was before: all prices and back-offs, the sums, and the
/// values of these commodities.
#[derive(Drop)]
pub struct Trial {
    quotes: Vec<Quote>,
    sums: Sums,
    values: Vec<u32>,
}

impl Trial {
    /// A copy of what trials over these commodities may change.
    pub fn new(alloc: Global, state: &State, listed: &[usize]) -> Result<Trial, AllocError> {
        let mut values = Vec::with_capacity(alloc, listed.len().wrapping_mul(state.places))?;
        for c in listed {
            values.extend_from_slice(row(&state.values, *c, state.places))?;
        }
        Ok(Trial {
            quotes: state.quotes.to_vec(alloc)?,
            sums: state.sums.copied(alloc)?,
            values,
        })
    }

    /// Restores everything, given the same commodities.
    pub fn take_back(&self, listed: &[usize], state: &mut State)
        ensures { KeepsShape state.old state.new }
    {
        copy(&self.quotes, &mut state.quotes);
        state.sums.take(&self.sums);
        let (places, values) = (state.places, state.values.as_mut_slice());
        for (number, c) in listed.iter().enumerate() {
            let kept = row(&self.values, number, places);
            copy(kept, row_mut(values, *c, places));
        }
    }
}
