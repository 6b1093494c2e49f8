//! Cuts of any dual values (`value_cuts`).

ghost use Rattle.std.specs.Prelude.{◌≡◌, ◌<◌, ◌≤◌, length};
ghost use Rattle.cut_model.specs.ValueRows.{AreValuesFor, allowed_price, node_value};

use super::texts::{dual_told, sums_told};
use hub_model::Instance;
use std::alloc::{AllocError, Global};
use test_lines::{list, node, number};
use value_cuts::{
    CandidateLegs, DualScratch, ListedRow, PriceScratch, Values, cut_sums, price, set_prices,
};

/// The result of the line for one row of values in a unit, with a value for each candidate.
pub fn asked(alloc: Global, instance: &Instance, line: &str) -> Result<String, AllocError> {
    let row = list::<u32>(alloc, line, " row ")?;
    let i = node(line, " from ");
    let j = node(line, " to ");
    let n = instance.size();
    if row.is_empty() || row.len() != instance.candidates().len() || i >= n || j >= n {
        return String::from_str(alloc, "no row");
    }
    let row = ListedRow {
        unit: node(line, " unit "),
        row: &row,
    };
    let offset = u128::from(number(line, " offset ").unwrap_or(0));
    if line.starts_with("value_dual") {
        return of_commodity(alloc, instance, i, j, &row, offset);
    }
    let items = repeated(alloc, instance, row.row)?;
    let Some(mut values) = Values::over(instance, row.unit, &items) else {
        return String::from_str(alloc, "no row");
    };
    values.set_offset(offset);
    if line.starts_with("value_prices") {
        return prices(alloc, instance, &values);
    }
    sums(alloc, instance, &values)
}

/// The row for each commodity.
#[tactic(auto, using(hub_model::proofs::CandidateNodes::few_places))]
fn repeated(alloc: Global, instance: &Instance, row: &[u32]) -> Result<Vec<u32>, AllocError>
    requires { 1 ≤ length row.now }
{
    let size = instance.size() as usize;
    let mut items = vec![in alloc; 0; size * size * instance.candidates().len()]?;
    for at in 0..items.len() {
        items[at] = row[at % row.len()];
    }
    Ok(items)
}

/// The prices of all commodities by unit of flow.
fn prices(alloc: Global, instance: &Instance, values: &Values) -> Result<String, AllocError>
    requires { AreValuesFor instance.now values.now }
{
    let tables = CandidateLegs::new(alloc, instance)?;
    prices_by(alloc, &tables, values)
}

fn prices_by(alloc: Global, tables: &CandidateLegs, values: &Values) -> Result<String, AllocError>
    requires { AreValuesFor tables.now values.now }
{
    let size = tables.instance().size() as usize;
    let mut scratch = PriceScratch::new(alloc, tables)?;
    let mut prices = vec![in alloc; 7; size * size]?;
    set_prices(tables, values, &mut scratch, &mut prices);
    format!(in alloc; "{prices:?}")
}

/// The total and the loads of the Benders cut from the dual values.
fn sums(alloc: Global, instance: &Instance, values: &Values) -> Result<String, AllocError>
    requires { AreValuesFor instance.now values.now }
{
    let tables = CandidateLegs::new(alloc, instance)?;
    priced(alloc, &tables, values)
}

fn priced(alloc: Global, tables: &CandidateLegs, values: &Values) -> Result<String, AllocError>
    requires { AreValuesFor tables.now values.now }
{
    let size = tables.instance().size() as usize;
    let mut scratch = PriceScratch::new(alloc, tables)?;
    let mut prices = vec![in alloc; 0; size * size]?;
    let mut loads = vec![in alloc; 7; size]?;
    let total = cut_sums(tables, values, &mut scratch, &mut prices, &mut loads);
    sums_told(alloc, total, &loads)
}

/// The dual of the commodity.
fn of_commodity(
    alloc: Global,
    instance: &Instance,
    i: u32,
    j: u32,
    row: &ListedRow,
    offset: u128,
) -> Result<String, AllocError>
    requires from { i < instance.now.size }
    requires to { j < instance.now.size }
    requires row { length row.now.row.now ≡ length instance.now.candidates }
{
    let tables = CandidateLegs::new(alloc, instance)?;
    let mut scratch = PriceScratch::new(alloc, &tables)?;
    let price = price(&tables, i, j, row.unit, row.row, &mut scratch);
    dual(alloc, &tables, (i, j), row, price, offset)
}

fn dual(
    alloc: Global,
    tables: &CandidateLegs,
    commodity: (u32, u32),
    row: &ListedRow,
    price: u64,
    offset: u128,
) -> Result<String, AllocError>
    requires from { commodity.0 < tables.now.size }
    requires to { commodity.1 < tables.now.size }
    requires row { length row.now.row.now ≡ length tables.now.candidates }
    requires price { price ≡ allowed_price tables.now commodity (node_value tables.now row.now.unit row.now.row.now) }
{
    let (i, j) = commodity;
    let mut dual = DualScratch::new(alloc, tables)?;
    dual.make(tables, i, j, row, price, offset);
    let (price, values) = dual.dual();
    dual_told(alloc, price, values)
}
