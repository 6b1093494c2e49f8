//! Strong branching: the candidate to branch on.

ghost use Rattle.std.specs.Prelude.{◌≡◌};
ghost use Rattle.dual_ascent.specs.Shapes.{KeepsShape};

use crate::adviser::Adviser;
use ascent_lengths::{PassWorkers, put};
use dual_ascent::{Trial, Turned};
use dual_flow::FULL_PRICE;
use search_advice::Side;
use std::alloc::AllocError;
use std::thread::Threads;

/// The number of candidates that are tried.
const MOST_TRIED: usize = 5;

impl Adviser {
    /// Strong branching: tries candidates on both sides, and chooses the one with the greatest product of rises, each
    /// at least a little above 0 and at most the gap. `wanted` is the cutoff.
    pub(crate) fn choose_branch<R: Threads + Sync>(
        &mut self,
        workers: &PassWorkers<'_, R>,
        wanted: i128,
    ) -> Result<(), AllocError>
        ensures { KeepsShape self.old self.new }
    {
        let unit = self.lengths.worth().max(1);
        let gap = (wanted.wrapping_sub(self.progress.bound) / unit).max(1);
        let least = (gap / 100).wrapping_add(1);
        self.node.little = None;
        self.node.coarse = 0;
        self.node.sort_by_price();
        let trial = Trial::new(workers.alloc, &self.state, &self.listed)?;
        let mut most = -1i128;
        let mut chosen = None;
        for number in 0..MOST_TRIED {
            let Some(place) = self.near_place(number) else {
                break;
            };
            let opened = self.rise(workers, &trial, place, Side::In);
            let closed = self.rise(workers, &trial, place, Side::Out);
            let score = opened.min(gap).wrapping_add(least);
            let score = score.wrapping_mul(closed.min(gap).wrapping_add(least));
            if score > most {
                most = score;
                chosen = Some(place);
            }
        }
        self.branch = chosen;
        Ok(())
    }

    /// The rise of the objective by a trial pass with the place on this side, over the listed commodities that could
    /// gain by it. Afterwards the duals are as before.
    fn rise<R: Threads + Sync>(
        &mut self,
        workers: &PassWorkers<'_, R>,
        trial: &Trial,
        place: usize,
        side: Side,
    ) -> i128
        ensures { KeepsShape self.old self.new }
    {
        put(&mut self.node.sides, place, side);
        self.node.set_ramps(&self.lengths, None);
        let (lengths, terms) = (&self.lengths, self.node.terms());
        let turned = Turned { place, side };
        self.state.leave_out_others(lengths, &self.listed, turned);
        let before = self.state.sums().objective(terms);
        let _ = self.state.pass(workers, lengths, terms, &mut self.bench);
        let after = self.state.sums().objective(terms);
        trial.take_back(&self.listed, &mut self.state);
        put(&mut self.node.sides, place, Side::Free);
        after.wrapping_sub(before).max(0)
    }

    /// The free place with the penalty closest to a half after `before` others, if it is between closed and full.
    fn near_place(&self, before: usize) -> Option<usize> {
        let (sides, order) = (&self.node.sides, &self.node.order);
        let mut free = order
            .iter()
            .filter(|turn| sides.get(turn.place).copied() == Some(Side::Free));
        let turn = free.nth(before)?;
        if turn.rank < FULL_PRICE / 2 {
            Some(turn.place)
        } else {
            None
        }
    }
}
