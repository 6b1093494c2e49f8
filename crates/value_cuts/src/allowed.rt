//! The price of a commodity over its allowed routes, where the length of routes is limited.
//!
//! Only a route that would lower the least price so far is measured.

ghost use Rattle.std.specs.Prelude.{◌≡◌, ℕ, ◌+◌, ◌<◌, ◌≤◌, length, slice_index, All};
ghost use Rattle.hub_spec.specs.Problem.{is_allowed};
ghost use Rattle.unit_duals.specs.Leasts.{least_of};
ghost use Rattle.unit_duals.specs.Lengths.{IsLegRow};
ghost use Rattle.hub_model.specs.CandidateLengths.{candidate_at, length_ceiling};
ghost use Rattle.leg_duals.specs.CandidateLegs.{collection_length, trunk_length, delivery_length};
ghost use Rattle.cut_model.specs.ValueRows.{if_allowed, allowed_price};
ghost use Rattle.value_cuts.specs.Ends.{most_end, AreEnds};

use crate::CandidateLegs;
use crate::pricing::least_end;

/// The least of the ceiling and of the valued lengths of the routes that the commodity from `i` to `j` may go by, with
/// these ends.
pub(crate) fn least_allowed_length(
    tables: &CandidateLegs,
    i: u32,
    j: u32,
    delivery: &[u64],
    first: &[u64],
    last: &[u64],
) -> u64
    requires origin { i < tables.now.size }
    requires destination { j < tables.now.size }
    requires delivery { IsLegRow (length tables.now.candidates) (delivery_length tables.now j) delivery.now }
    requires first { length first.now ≡ length tables.now.candidates }
    requires last { length last.now ≡ length tables.now.candidates }
    requires first_limit { All (λ d. d ≤ most_end) first.now }
    requires last_limit { All (λ d. d ≤ most_end) last.now }
    ensures { (values : ℕ → ℕ) → AreEnds tables.now (collection_length tables.now i) values first.now
        → AreEnds tables.now (delivery_length tables.now j) values last.now
        → result ≡ allowed_price tables.now (i, j) values }
{
    let nearest = least_end(tables.ceiling(), last);
    let mut least = least_single(tables, i, j, delivery, first);
    for x in 0..first.len() {
        let end = first[x];
        if end + nearest < least {
            least = end + least_onward(tables, i, j, x, least - end, last);
        }
    }
    least
}

/// The least of the ceiling and of the lengths by a single hub that the commodity may go by, with its value.
fn least_single(tables: &CandidateLegs, i: u32, j: u32, delivery: &[u64], first: &[u64]) -> u64
    requires origin { i < tables.now.size }
    requires destination { j < tables.now.size }
    requires delivery { length delivery.now ≡ length tables.now.candidates }
    requires first { length first.now ≡ length tables.now.candidates }
    requires delivery_limit { All (λ d. d ≤ most_end) delivery.now }
    requires first_limit { All (λ d. d ≤ most_end) first.now }
    ensures { let ceiling = length_ceiling tables.now in
        result ≡ least_of ceiling
        (λ x. if_allowed tables.now (i, j) x x (slice_index first.now x + slice_index delivery.now x) ceiling)
        (length first.now) }
{
    let mut least = tables.ceiling();
    for x in 0..first.len() {
        let sum = first[x] + delivery[x];
        if sum < least && may_go(tables, i, j, x, x) {
            least = sum;
        }
    }
    least
}

/// The least of the number and of a leg of trunk from the candidate at place `x` and a last end together, where the commodity
/// may go by these two.
fn least_onward(tables: &CandidateLegs, i: u32, j: u32, x: usize, most: u64, last: &[u64]) -> u64
    requires origin { i < tables.now.size }
    requires destination { j < tables.now.size }
    requires place { x < length tables.now.candidates }
    requires last { length last.now ≡ length tables.now.candidates }
    requires last_limit { All (λ d. d ≤ most_end) last.now }
    ensures { result ≡ least_of most
        (λ y. if_allowed tables.now (i, j) x y (trunk_length tables.now x y + slice_index last.now y) most)
        (length last.now) }
{
    let trunk = tables.trunk_legs(x);
    let mut least = most;
    for y in 0..last.len() {
        let sum = trunk[y] + last[y];
        if sum < least && may_go(tables, i, j, x, y) {
            least = sum;
        }
    }
    least
}

/// Tells whether the commodity from `i` to `j` may go by way of the candidates at these two places.
fn may_go(tables: &CandidateLegs, i: u32, j: u32, x: usize, y: usize) -> bool
    requires origin { i < tables.now.size }
    requires destination { j < tables.now.size }
    requires first { x < length tables.now.candidates }
    requires last { y < length tables.now.candidates }
    ensures { result ≡ is_allowed tables.now (i, j) (candidate_at tables.now x) (candidate_at tables.now y) }
{
    let instance = tables.instance();
    let candidates = instance.candidates();
    instance.allowed(i, j, candidates[x], candidates[y])
}
