//! The workers of a separation.

ghost use Rattle.std.specs.Prelude.{◌≡◌, ◌≤◌, [], nat_lt, if◌then◌else◌, IfOk};
ghost use Rattle.claim_board.specs.Places.{hand_of, IsSeatOf};
ghost use Rattle.claim_board.specs.Crops.{IsCropOf};
ghost use Rattle.par_separate.specs.Origins.{IsWhole, AreMinimalDualsFrom, AreSumsFrom, least_shared};

use crate::OriginSums;
use crate::origin_duals::DualsByOrigin;
use crate::origins::SumsByOrigin;
use claim_board::{Board, Crop, Seat};
use hub_io::Gate;
use hub_model::Dual;
use pareto_cuts::Separation;
use std::alloc::{AllocError, Global};

// The least number of nodes at which workers are worth their start.
const LEAST_SHARED: u32 = 50;

/// The number of workers for a separation with `size` nodes, of at most `workers`: all of them from 50 nodes on, and
/// one below. On a busy machine, starting threads can take longer than a smaller separation.
pub fn workers_for(size: u32, workers: u32) -> u32
    requires { 1 ≤ workers }
    ensures is { result ≡ if nat_lt size least_shared then 1 else workers }
    ensures least { 1 ≤ result }
    ensures most { result ≤ workers }
{
    if size < LEAST_SHARED { 1 } else { workers }
}

/// The work of one worker: draws origins until none is left, and computes the duals of each. It passes the gate before
/// each origin that it drew.
///
/// The separation has all nodes as destinations, and the blocks of the board are its origins. The result has the ended
/// seat, and the duals of the origins in the seat's list, in its order. The duals of an origin are in the order of
/// destinations.
pub fn work<G: Gate>(
    alloc: Global,
    board: &Board,
    seat: Seat,
    separation: &Separation,
    worker: u32,
    gate: &G,
) -> Result<Crop<Vec<Dual>>, AllocError>
    requires seat { IsSeatOf board.now seat × ((hand_of seat).drawn ≡ []) }
    requires origins { board.now.blocks ≤ separation.now.problem.size }
    requires whole { IsWhole separation.now }
    ensures { IfOk result (IsCropOf (λ i duals. AreMinimalDualsFrom separation.now i duals.items) board.now (hand_of seat).share) }
{
    claim_board::work(
        alloc,
        board,
        seat,
        &DualsByOrigin { separation },
        worker,
        gate,
    )
}

/// As `work`, but a worker stores only the sums of an origin's duals.
///
/// The result has the ended seat, and the sums of the origins in the seat's list, in its order.
pub fn work_on_sums<G: Gate>(
    alloc: Global,
    board: &Board,
    seat: Seat,
    separation: &Separation,
    worker: u32,
    gate: &G,
) -> Result<Crop<OriginSums>, AllocError>
    requires seat { IsSeatOf board.now seat × ((hand_of seat).drawn ≡ []) }
    requires origins { board.now.blocks ≤ separation.now.problem.size }
    requires whole { IsWhole separation.now }
    ensures { IfOk result (IsCropOf (AreSumsFrom separation.now) board.now (hand_of seat).share) }
{
    claim_board::work(
        alloc,
        board,
        seat,
        &SumsByOrigin { separation },
        worker,
        gate,
    )
}
