//! The exact test: the price against the costs of the allowed routes times the part, with the values as listed.

ghost use Rattle.std.specs.Prelude.{◌≡◌, ◌*◌, ◌<◌, ◌≤◌, ◌↔◌, length, IsTrue, All};
ghost use Rattle.hub_spec.specs.Limits.{most_part, most_cost};
ghost use Rattle.hub_spec.specs.Ranges.{IsAmount};
ghost use Rattle.dual_lines.specs.Covers.{IsCoveredAlone, IsCoveredBy, IsCoveredFrom, IsCoveredFirst, IsCovered};

use hub_model::Instance;

/// A commodity with a part and a price of that part, in 10^-12.
#[derive(Clone, Copy)]
pub(crate) struct PricedCommodity {
    pub from: u32,
    pub to: u32,
    pub part: u32,
    pub price: u128,
}

/// Tells whether the price is covered with each candidate as the first hub. `amounts` has a value for each node.
pub(crate) fn is_covered_by_amounts(
    instance: &Instance,
    line: PricedCommodity,
    amounts: &[u128],
) -> bool
    requires from { line.from < instance.now.size }
    requires to { line.to < instance.now.size }
    requires part { line.part ≤ most_part }
    requires long { length amounts.now ≡ instance.now.size }
    requires short { All IsAmount amounts.now }
    ensures { IsTrue result ↔ IsCovered instance.now line.part (line.from, line.to) line.price amounts.now }
{
    let candidates = instance.candidates();
    for k in candidates {
        if !is_covered_first(instance, line, amounts, *k) {
            return false;
        }
    }
    true
}

/// Tells whether the price is covered with `k` as the only hub, and as the first with each candidate as the last.
pub(crate) fn is_covered_first(
    instance: &Instance,
    line: PricedCommodity,
    amounts: &[u128],
    k: u32,
) -> bool
    requires from { line.from < instance.now.size }
    requires to { line.to < instance.now.size }
    requires part { line.part ≤ most_part }
    requires long { length amounts.now ≡ instance.now.size }
    requires short { All IsAmount amounts.now }
    requires hub { k < instance.now.size }
    ensures { IsTrue result ↔ IsCoveredFirst instance.now line.part (line.from, line.to) line.price amounts.now k }
{
    is_covered_alone(instance, line, amounts, k) && is_covered_from(instance, line, amounts, k)
}

fn is_covered_alone(instance: &Instance, line: PricedCommodity, amounts: &[u128], k: u32) -> bool
    requires from { line.from < instance.now.size }
    requires to { line.to < instance.now.size }
    requires part { line.part ≤ most_part }
    requires long { length amounts.now ≡ instance.now.size }
    requires short { All IsAmount amounts.now }
    requires hub { k < instance.now.size }
    ensures { IsTrue result ↔ IsCoveredAlone instance.now line.part (line.from, line.to) line.price amounts.now k }
{
    let cost = times_part(line.part, instance.cost_of_route(line.from, line.to, k, k));
    line.price <= cost + amounts[k as usize] || !instance.allowed(line.from, line.to, k, k)
}

/// Tells whether the price is covered with `k` as the first hub and each candidate as the last. Where collection and the
/// value of `k` alone cover it, no last hub is visited.
fn is_covered_from(instance: &Instance, line: PricedCommodity, amounts: &[u128], k: u32) -> bool
    requires from { line.from < instance.now.size }
    requires to { line.to < instance.now.size }
    requires part { line.part ≤ most_part }
    requires long { length amounts.now ≡ instance.now.size }
    requires short { All IsAmount amounts.now }
    requires hub { k < instance.now.size }
    ensures { IsTrue result ↔ IsCoveredFrom instance.now line.part (line.from, line.to) line.price amounts.now k }
{
    let collection = times_part(line.part, instance.collection_cost(line.from, line.to, k));
    if line.price <= collection + amounts[k as usize] {
        return true;
    }
    let candidates = instance.candidates();
    for m in candidates {
        if !is_covered_by(instance, line, amounts, k, *m) {
            return false;
        }
    }
    true
}

fn is_covered_by(
    instance: &Instance,
    line: PricedCommodity,
    amounts: &[u128],
    k: u32,
    m: u32,
) -> bool
    requires from { line.from < instance.now.size }
    requires to { line.to < instance.now.size }
    requires part { line.part ≤ most_part }
    requires long { length amounts.now ≡ instance.now.size }
    requires short { All IsAmount amounts.now }
    requires first { k < instance.now.size }
    requires last { m < instance.now.size }
    ensures { IsTrue result ↔ IsCoveredBy instance.now line.part (line.from, line.to) line.price amounts.now k m }
{
    if k == m {
        return true;
    }
    let cost = times_part(line.part, instance.cost_of_route(line.from, line.to, k, m));
    let values = amounts[k as usize] + amounts[m as usize];
    line.price <= cost + values || !instance.allowed(line.from, line.to, k, m)
}

/// The cost as often as the part says.
fn times_part(part: u32, cost: u128) -> u128
    requires part { part ≤ most_part }
    requires cost { cost ≤ most_cost }
    ensures value { result ≡ part * cost }
    ensures limit { result ≤ most_part * most_cost }
{
    part as u128 * cost
}
