//! Worked cuts, whole and by their sums, by workers.

ghost use Rattle.std.specs.Prelude.{◌≡◌, ◌≤◌, IfOk};
ghost use Rattle.hub_spec.specs.Plans.{IsHubSet};
ghost use Rattle.hub_spec.specs.Separation.{IsOrder};
ghost use Rattle.cut_pool.specs.Entries.{entry_of};
ghost use Rattle.search_steps.specs.Pools.{IsSumsOf};
ghost use Rattle.par_separate.specs.Origins.{IsWhole};

use crate::gates::Watch;
use crate::instances::{first_alone, line_of_three, of_the_plane};
use claim_board::{Board, Row};
use cut_pool::CutSums;
use hub_io::{Gate, OpenGate};
use hub_model::{Cut, Dual, HubSet, Instance, outside};
use par_separate::{Crew, OriginSums, separate, separate_sums, work, work_on_sums, workers_for};
use pareto_cuts::{Separation, SetTables};
use search_steps::{Separated, Separator};
use std::alloc::{AllocError, Global};
use std::test::Fail;
use std::thread::Threads;

// What one worker brings with the one seat of a board of two blocks.
#[derive(Drop)]
struct SeatRows {
    sums: Vec<Row<OriginSums>>,
    duals: Vec<Row<Vec<Dual>>>,
}

fn rows_of_one_seat(alloc: Global, separation: &Separation) -> Result<SeatRows, AllocError>
    requires whole { IsWhole separation.now }
    requires blocks { 2 ≤ separation.now.problem.size }
{
    let (board, seat) = Board::new(alloc, 2, 1)?;
    let sums = work_on_sums(alloc, &board, seat, separation, 0, &OpenGate)?.rows;
    let (board, seat) = Board::new(alloc, 2, 1)?;
    let duals = work(alloc, &board, seat, separation, 0, &OpenGate)?.rows;
    Ok(SeatRows { sums, duals })
}

// The same for a hub set and an order.
fn rows_of_set(
    alloc: Global,
    instance: &Instance,
    set: &HubSet,
    order: &[u32],
) -> Result<SeatRows, AllocError>
    requires set { IsHubSet instance.now set.now }
    requires order { IsOrder instance.now set.now order.now }
    requires blocks { 2 ≤ instance.now.size }
{
    let mut tables = SetTables::new(alloc, instance.size() as usize)?;
    tables.fill(instance, set, order, None);
    let separation = Separation::new(instance, set.members(), order, 0, &tables);
    rows_of_one_seat(alloc, &separation)
}

// The same for the set of the first node alone, where the instance has at least two nodes.
fn rows_of_first(alloc: Global, instance: &Instance) -> Result<SeatRows, Fail> {
    if instance.size() < 2 {
        Err("too few nodes")?
    }
    let set = first_alone(alloc, instance)?;
    let order = outside(alloc, instance, &set)?;
    Ok(rows_of_set(alloc, instance, &set, &order)?)
}

fn has_sums(row: &Row<OriginSums>, block: u32, total: u128, loads: &[u128]) -> bool {
    match &row.value {
        Some(sums) => row.block == block && sums.total == total && sums.loads.as_slice() == loads,
        None => false,
    }
}

#[test]
fn one_seat_has_the_sums_of_each_origin(rt: HostRuntime) -> Result<(), Fail> {
    let instance = of_the_plane(rt.alloc())?;
    let rows = rows_of_first(rt.alloc(), &instance)?.sums;
    let first_loads = &[0, 941_485_000_000_000];
    let second_loads = &[0, 7_343_583_000_000_000];
    assert!(rt;
        rows.len() == 2
            && has_sums(&rows[0], 0, 1_506_376_000_000_000, first_loads)
            && has_sums(&rows[1], 1, 7_908_474_000_000_000, second_loads)
    );
    Ok(())
}

// Whether a dual of this price and these values has the place.
fn has_dual(duals: &[Dual], place: usize, a: i128, u: &[(u32, i128)]) -> bool {
    match duals.get(place) {
        Some(dual) => dual.a() == a && dual.u() == u,
        None => false,
    }
}

// Whether the duals of an origin of two destinations are of these prices and values.
fn has_duals(
    row: &Row<Vec<Dual>>,
    block: u32,
    first: (i128, &[(u32, i128)]),
    second: (i128, &[(u32, i128)]),
) -> bool {
    match &row.value {
        Some(duals) => {
            row.block == block
                && has_dual(duals, 0, first.0, first.1)
                && has_dual(duals, 1, second.0, second.1)
        }
        None => false,
    }
}

#[test]
fn one_seat_has_the_duals_of_each_origin(rt: HostRuntime) -> Result<(), Fail> {
    let instance = of_the_plane(rt.alloc())?;
    let rows = rows_of_first(rt.alloc(), &instance)?.duals;
    let there = (1_506_376_000_000_000, [(1, 941_485_000_000_000)].as_slice());
    let back = (
        2_259_564_000_000_000,
        [(1, 1_694_673_000_000_000)].as_slice(),
    );
    let inside = (
        5_648_910_000_000_000,
        [(1, 5_648_910_000_000_000)].as_slice(),
    );
    assert!(rt;
        rows.len() == 2
            && has_duals(&rows[0], 0, (0, &[]), there)
            && has_duals(&rows[1], 1, back, inside)
    );
    Ok(())
}

// The sums of the set of the first node alone, by so many workers.
fn separate_first<R: Threads + Sync, G: Gate>(
    rt: &R,
    alloc: Global,
    instance: &Instance,
    workers: u32,
    gate: &G,
) -> Result<CutSums, Fail>
    requires { (1 ≤ workers) × (workers ≤ 64) }
{
    let set = first_alone(alloc, instance)?;
    let order = outside(alloc, instance, &set)?;
    Ok(separate_sums(rt, alloc, instance, set, &order, workers, gate)?)
}

#[test]
fn one_worker_and_more_find_the_same_sums(rt: HostRuntime) -> Result<(), Fail> {
    let instance = of_the_plane(rt.alloc())?;
    for workers in [1, 2, 64] {
        let sums = separate_first(&rt, rt.alloc(), &instance, workers, &OpenGate)?;
        assert!(rt;
            sums.total() == 9_414_850_000_000_000
                && sums.loads() == [0, 8_285_068_000_000_000].as_slice()
        );
    }
    Ok(())
}

// What a search does with a separator.
fn asked<S: Separator>(separator: &mut S, alloc: Global, instance: &Instance) -> Result<u128, Fail>
    requires ready { S.ready separator.old }
{
    let set = first_alone(alloc, instance)?;
    let order = outside(alloc, instance, &set)?;
    match separator.separate(alloc, instance, set, &order)? {
        Separated::Sums(sums) => Ok(sums.total()),
        Separated::Core(_) => Err("a core cut")?,
    }
}

#[test]
fn a_crew_separates_for_a_search(rt: HostRuntime) -> Result<(), Fail> {
    let instance = of_the_plane(rt.alloc())?;
    let handle = &rt;
    let cut = |alloc: Global, i: &Instance, s: HubSet, o: &[u32]| -> Result<CutSums, AllocError>
        requires { IsHubSet i.now s × IsOrder i.now s o.now }
        ensures { IfOk result (λ c. (c.hubs ≡ s) × IsSumsOf i.entry.now (entry_of c o.entry.now)) }
    { separate_sums(handle, alloc, i, s, o, workers_for(i.size(), 2), &OpenGate) };
    let mut crew = Crew { cut };
    let total = asked(&mut crew, rt.alloc(), &instance)?;
    assert!(rt; total == 9_414_850_000_000_000);
    Ok(())
}

// Two workers wait for one another, and each in turn for all draws of the other.
#[test]
fn two_workers_meet(rt: HostRuntime) -> Result<(), Fail> {
    let line = line_of_three(rt.alloc())?;
    for awaited in [[1, 1], [2, 1], [1, 2]] {
        let gate = Watch::new(awaited);
        separate_first(&rt, rt.alloc(), &line, 2, &gate)?;
        assert!(rt; gate.saw_all(3));
    }
    Ok(())
}

// The whole Benders cut from the set of the first node alone, by two workers.
fn whole_cut_of_first<R: Threads + Sync, G: Gate>(
    rt: &R,
    alloc: Global,
    instance: &Instance,
    gate: &G,
) -> Result<Cut, Fail> {
    let set = first_alone(alloc, instance)?;
    let order = outside(alloc, instance, &set)?;
    Ok(separate(rt, alloc, instance, set, &order, 2, gate)?)
}

// Two workers wait for one another, and each in turn for all draws of the other.
#[test]
fn two_workers_make_a_whole_cut(rt: HostRuntime) -> Result<(), Fail> {
    let line = line_of_three(rt.alloc())?;
    let values = &[(1, 80_000_000_000_000), (2, 160_000_000_000_000)];
    for awaited in [[1, 1], [2, 1], [1, 2]] {
        let gate = Watch::new(awaited);
        let cut = whole_cut_of_first(&rt, rt.alloc(), &line, &gate)?;
        assert!(rt;
            gate.saw_all(3)
                && cut.rows().len() == 9
                && cut.total() == 400_000_000_000_000
                && has_dual(cut.rows(), 2, 200_000_000_000_000, values)
                && has_dual(cut.rows(), 5, 0, &[])
                && has_dual(cut.rows(), 6, 200_000_000_000_000, values)
        );
    }
    Ok(())
}
