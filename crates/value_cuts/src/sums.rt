//! The sums of the cut of any dual values.

ghost use Rattle.std.specs.Prelude.{◌≡◌, ℕ, ◌+◌, ◌*◌, ◌^◌, ◌<◌, ◌≤◌, length, slice_index, All};
ghost use Rattle.hub_spec.specs.Limits.{most_flow, most_cost};
ghost use Rattle.hub_spec.specs.Cuts.{total, load, value_at};
ghost use Rattle.hub_spec.specs.Separation.{values_listed};
ghost use Rattle.cut_model.specs.ValueRows.{AreValuesFor, node_value, value_cut};
ghost use Rattle.value_cuts.specs.Prices.{AreRowPrices};

use crate::offsets::offset_of;
use crate::pricing::value_of;
use crate::{CandidateLegs, PriceScratch, Values, set_prices};

/// The total of the Benders cut from these dual values, in 10^-12. It sets `prices`, per unit of flow, one for each
/// commodity. It sets `loads`, one for each node, which are 0 for nodes that are no candidates. It allocates nothing.
pub fn cut_sums(
    tables: &CandidateLegs,
    values: &Values,
    scratch: &mut PriceScratch,
    prices: &mut [u64],
    loads: &mut [u128],
) -> u128
    requires values { AreValuesFor tables.now values.now }
    requires room { scratch.old ≡ length tables.now.candidates }
    requires prices { length prices.old ≡ tables.now.size * tables.now.size }
    requires long { length loads.old ≡ tables.now.size }
    ensures total { result ≡ total (value_cut tables.now values.now) }
    ensures loads { (k : ℕ) → k < tables.now.size → slice_index loads.new k ≡ load (value_cut tables.now values.now) k }
    ensures prices { AreRowPrices tables.now values.now prices.new }
    ensures room { scratch.new ≡ scratch.old }
{
    set_prices(tables, values, scratch, prices);
    sums_of(tables, values, prices, loads)
}

/// The total of the Benders cut from these dual values, whose prices are known, in 10^-12. It sets `loads`, one for
/// each node.
pub fn sums_of(tables: &CandidateLegs, values: &Values, prices: &[u64], loads: &mut [u128]) -> u128
    requires values { AreValuesFor tables.now values.now }
    requires prices { AreRowPrices tables.now values.now prices.now }
    requires long { length loads.old ≡ tables.now.size }
    ensures total { result ≡ total (value_cut tables.now values.now) }
    ensures loads { (k : ℕ) → k < tables.now.size → slice_index loads.new k ≡ load (value_cut tables.now values.now) k }
{
    let instance = tables.instance();
    loads.fill(0);
    let mut total = 0;
    let mut offset = offset_of(instance, values.offset(), 0, 0);
    for t in 0..prices.len() {
        let flow = instance.flows()[t];
        let price = offset + flow as u128 * prices[t] as u128;
        total += price;
        add_values(tables, flow, offset, values.unit(), values.row_at(t), loads);
        offset = 0;
    }
    total
}

/// Adds the offset, and the flow times its value, to the load of each candidate.
fn add_values(
    tables: &CandidateLegs,
    flow: u64,
    offset: u128,
    unit: u32,
    row: &[u32],
    loads: &mut [u128],
)
    requires flow { flow ≤ most_flow }
    requires offset { offset ≤ most_cost }
    requires row { length row.now ≡ length tables.now.candidates }
    requires long { length loads.old ≡ tables.now.size }
    requires limit { All (λ v. v ≤ 2 ^ 120) loads.old }
    ensures { let p = tables.now in let value : ℕ → ℕ = λ k. offset + flow * node_value p unit row.now k in
        (k : ℕ) → k < p.size
        → slice_index loads.new k ≡ slice_index loads.old k + value_at (values_listed value p.candidates) k }
{
    let ceiling = tables.ceiling();
    let candidates = tables.instance().candidates();
    for x in 0..candidates.len() {
        let value = offset + flow as u128 * value_of(ceiling, unit, row[x]) as u128;
        loads[candidates[x] as usize] += value;
    }
}
