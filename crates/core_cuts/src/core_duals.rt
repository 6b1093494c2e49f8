//! The Pareto-optimal dual of a commodity.

ghost use Rattle.std.specs.Prelude.{◌≡◌, ◌↔◌, ◌+◌, ◌<◌, ◌≤◌, length, None, IfOk, IfSome, IsTrue};
ghost use Rattle.hub_spec.specs.Limits.{most_part};
ghost use Rattle.hub_spec.specs.Plans.{IsHubSet};
ghost use Rattle.core_spec.specs.CoreCuts.{MayBeMarked};
ghost use Rattle.frac_rows.specs.Rows.{objective};
ghost use Rattle.frac_rows.specs.Theorems.{IsBasic, AreRightsLow};
ghost use Rattle.core_cuts.specs.Ahead.{AreWays, IsReadOff, IsRead};
ghost use Rattle.core_cuts.specs.BasicRatios.{IsLeastReading};
ghost use Rattle.core_cuts.specs.Finding.{core_found};
ghost use Rattle.core_cuts.specs.Readings.{Reading, proof_of, IsReading, IsFit, IsFound, IsNotFound};

use crate::edges::least_right;
use crate::problems::first_table;
use crate::readings::least_reading;
use crate::table_proofs::TableProof;
use crate::unit_prices::UnitPrices;
use crate::ways::RouteWays;
use cut_model::DualProof;
use frac_rows::Ended;
use hub_model::{Dual, HubSet, Instance};
use plain_rows::PlainRows;
use std::alloc::{AllocError, Global};
use std::marker::Model;

/// A Pareto-optimal dual of a commodity: its part, its price and values in 10^-12 times the part, and its proof.
#[derive(Drop)]
pub struct CoreDual {
    pub part: u32,
    pub dual: Dual,
    pub proof: DualProof,
}

/// What is read of a best table: price and values by unit of flow, and what proves the dual.
#[derive(Drop)]
pub(crate) struct UnitDual {
    pub(crate) prices: UnitPrices,
    pub(crate) proof: TableProof,
}

impl Model for CoreDual {
    ghost use Rattle.core_cuts.specs.Readings.{FoundDual};

    ghost Value = { FoundDual };

    ghost view = { λ s. record { part = s.part; dual = s.dual; proof = s.proof } };
}

/// A Pareto-optimal dual (Magnanti and Wong 1981) of the commodity from `i` to `j` at these hubs. `None` where the
/// simplex run does not end optimal, or where the dual read off the last tableau is not tight at the hubs or passes a
/// limit.
pub fn core_dual(
    alloc: Global,
    instance: &Instance,
    i: u32,
    j: u32,
    hubs: &HubSet,
) -> Result<Option<CoreDual>, AllocError>
    requires from { i < instance.now.size }
    requires to { j < instance.now.size }
    requires may { MayBeMarked instance.now }
    requires set { IsHubSet instance.now hubs.now }
    ensures found { IfOk result (λ found. IfSome found (λ d. IsFound instance.now hubs.now (i, j) d)) }
    ensures none { IfOk result (λ found. found ≡ None → IsNotFound instance.now hubs.now (i, j)) }
    ensures is { IfOk result (λ found. found ≡ core_found instance.now hubs.now (i, j)) }
{
    let _ = instance.size();
    found_at(alloc, instance, i, j, hubs.members())
}

/// The same with the hubs as a list.
fn found_at(
    alloc: Global,
    instance: &Instance,
    i: u32,
    j: u32,
    hubs: &[u32],
) -> Result<Option<CoreDual>, AllocError>
    requires from { i < instance.now.size }
    requires to { j < instance.now.size }
    requires may { MayBeMarked instance.now }
    requires set { IsHubSet instance.now hubs.now }
    ensures found { IfOk result (λ found. IfSome found (λ d. IsFound instance.now hubs.now (i, j) d)) }
    ensures none { IfOk result (λ found. found ≡ None → IsNotFound instance.now hubs.now (i, j)) }
{
    let ways = RouteWays::of(alloc, instance, i, j)?;
    match unit_dual(alloc, instance, i, j, hubs, &ways)? {
        Some(UnitDual { prices, proof }) => {
            found_by(alloc, instance, i, j, hubs, &prices, proof)
        }
        None => Ok(None),
    }
}

/// What is read of the best table of the commodity's linear program, where these are its ways.
pub(crate) fn unit_dual(
    alloc: Global,
    instance: &Instance,
    i: u32,
    j: u32,
    hubs: &[u32],
    ways: &RouteWays,
) -> Result<Option<UnitDual>, AllocError>
    requires from { i < instance.now.size }
    requires to { j < instance.now.size }
    requires may { MayBeMarked instance.now }
    requires set { IsHubSet instance.now hubs.now }
    requires ways { AreWays instance.now (i, j) ways.now.edges.items ways.now.rights.items }
    ensures some { IfOk result (λ found. IfSome found (λ u. IsRead instance.now hubs.now (i, j) u.prices u.proof)) }
    ensures none { IfOk result (λ found. found ≡ None → IsNotFound instance.now hubs.now (i, j)) }
{
    let _ = instance.size();
    let mut rows = first_table(alloc, instance, i, j, hubs, &ways.edges, &ways.rights)?;
    let (ended, _) = rows.run();
    match ended {
        Ended::Best => read_in(alloc, instance, &rows, &ways.edges),
        Ended::Turns => Ok(None),
        Ended::Wide => Ok(None),
    }
}

/// What is read of a best table, where these are its ways.
fn read_in(
    alloc: Global,
    instance: &Instance,
    rows: &PlainRows,
    edges: &[(u32, u32)],
) -> Result<Option<UnitDual>, AllocError>
    requires few { length instance.now.candidates ≤ 200 }
    requires basic { IsBasic rows.now }
    requires rights { AreRightsLow rows.now }
    requires wide { length instance.now.candidates + 1 + length edges.now ≤ length (objective rows.now) }
    ensures some { IfOk result (λ found. IfSome found (λ u. IsReadOff instance.now rows.now edges.now u.prices u.proof)) }
    ensures none { IfOk result (λ found. found ≡ None
        → (r : Reading) × IsLeastReading instance.now rows.now r × (most_part < r.part)) }
{
    let candidates = instance.candidates();
    match least_reading(alloc, instance, rows)? {
        Some(prices) => {
            let proof = TableProof::of(alloc, candidates, rows, edges)?;
            Ok(Some(UnitDual { prices, proof }))
        }
        None => Ok(None),
    }
}

/// What is found by this reading and this proof.
pub(crate) fn found_by(
    alloc: Global,
    instance: &Instance,
    i: u32,
    j: u32,
    hubs: &[u32],
    prices: &UnitPrices,
    proof: TableProof,
) -> Result<Option<CoreDual>, AllocError>
    requires from { i < instance.now.size }
    requires to { j < instance.now.size }
    requires may { MayBeMarked instance.now }
    requires set { IsHubSet instance.now hubs.now }
    requires reading { IsReading instance.now hubs.now (i, j) prices.now }
    requires part { prices.now.part ≤ most_part }
    requires proof { proof ≡ proof_of instance.now hubs.now (i, j) }
    ensures found { IfOk result (λ found. IfSome found (λ d. IsFound instance.now hubs.now (i, j) d)) }
    ensures none { IfOk result (λ found. found ≡ None → IsNotFound instance.now hubs.now (i, j)) }
{
    if !is_fit(instance, i, j, hubs, prices, &proof) {
        return Ok(None);
    }
    let dual = prices.times_flow(alloc, instance, i, j)?;
    Ok(Some(CoreDual {
        part: prices.part(),
        dual,
        proof: proof.into_short(),
    }))
}

/// Tells whether price and values are tight at the hubs and within their limits, and the proof can stand in a line.
fn is_fit(
    instance: &Instance,
    i: u32,
    j: u32,
    hubs: &[u32],
    prices: &UnitPrices,
    proof: &TableProof,
) -> bool
    requires from { i < instance.now.size }
    requires to { j < instance.now.size }
    requires may { MayBeMarked instance.now }
    requires set { IsHubSet instance.now hubs.now }
    requires one_each { length prices.now.values ≡ length instance.now.candidates }
    requires part { prices.now.part ≤ most_part }
    requires proof { proof.now ≡ proof_of instance.now hubs.now (i, j) }
    ensures { IsTrue result ↔ IsFit instance.now hubs.now (i, j) prices.now }
{
    let candidates = instance.candidates();
    let least = least_right(instance, i, j, hubs);
    prices.is_within() && proof.is_short() && prices.is_tight(candidates, hubs, least)
}
