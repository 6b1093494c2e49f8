//! Prices of all commodities, by workers.

ghost use Rattle.std.specs.Prelude.{◌≤◌};
ghost use Rattle.cut_model.specs.ValueRows.{AreValuesFor};

use hub_make::made_instance;
use hub_model::Instance;
use std::alloc::{AllocError, Global};
use std::test::Fail;
use std::thread::Threads;
use value_cuts::{CandidateLegs, PriceScratch, Values, set_prices, set_prices_by_workers};

// As many nodes as it takes until workers share the prices.
const SHARED: u32 = 64;

// Values of all commodities by a rule, some of them 0 and some above the legs.
#[tactic(auto, using(hub_model::proofs::CandidateNodes::few_places))]
fn some_values(alloc: Global, instance: &Instance) -> Result<Vec<u32>, AllocError> {
    let size = instance.size() as usize;
    let mut items = vec![in alloc; 0; size * size * instance.candidates().len()]?;
    for at in 0..items.len() {
        items[at] = (at % 9973 * 7) as u32;
    }
    Ok(items)
}

fn prices_alone(
    alloc: Global,
    tables: &CandidateLegs,
    values: &Values,
) -> Result<Vec<u64>, AllocError>
    requires { AreValuesFor tables.now values.now }
{
    let size = tables.instance().size() as usize;
    let mut scratch = PriceScratch::new(alloc, tables)?;
    let mut prices = vec![in alloc; 0; size * size]?;
    set_prices(tables, values, &mut scratch, &mut prices);
    Ok(prices)
}

fn prices_by<R: Threads + Sync>(
    rt: &R,
    alloc: Global,
    tables: &CandidateLegs,
    values: &Values,
    workers: u32,
) -> Result<Vec<u64>, AllocError>
    requires values { AreValuesFor tables.now values.now }
    requires workers { (1 ≤ workers) × (workers ≤ 64) }
{
    let size = tables.instance().size() as usize;
    let mut scratch = PriceScratch::new(alloc, tables)?;
    let mut prices = vec![in alloc; 0; size * size]?;
    set_prices_by_workers(
        rt,
        alloc,
        tables,
        values,
        workers,
        &mut scratch,
        &mut prices,
    )?;
    Ok(prices)
}

#[test]
fn one_worker_and_more_find_the_same_prices(rt: HostRuntime) -> Result<(), Fail> {
    let instance = made_instance(rt.alloc(), 1, SHARED)?;
    let items = some_values(rt.alloc(), &instance)?;
    let values = Values::over(&instance, 1000, &items).ok_or(AllocError)?;
    let tables = CandidateLegs::new(rt.alloc(), &instance)?;
    let alone = prices_alone(rt.alloc(), &tables, &values)?;
    for workers in [1, 2, 64] {
        let found = prices_by(&rt, rt.alloc(), &tables, &values, workers)?;
        assert!(rt; found.len() == 4096 && found == alone);
    }
    Ok(())
}
