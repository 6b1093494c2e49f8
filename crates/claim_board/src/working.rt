//! The work of one worker.
ghost use Rattle.std.specs.Prelude.{◌≡◌, ℕ, ◌<◌, [], IfOk};
ghost use Rattle.claim_board.specs.Places.{hand_of, IsSeatOf};
ghost use Rattle.claim_board.specs.Crops.{IsCropOf};

use crate::crops::{Crop, Row};
use crate::jobs::Job;
use crate::{Board, Seat};
use hub_io::Gate;
use std::alloc::{AllocError, Global};

/// Draws blocks until none is left, and computes each of them in one scratch. The worker passes the gate before each
/// block that it drew.
pub fn work<T: Drop, J: Job<T>, G: Gate>(
    alloc: Global,
    board: &Board,
    mut seat: Seat,
    job: &J,
    worker: u32,
    gate: &G,
) -> Result<Crop<T>, AllocError>
    requires seat { IsSeatOf board.now seat × ((hand_of seat).drawn ≡ []) }
    requires accepts { (b : ℕ) → b < board.now.blocks → J.accepts job.now b }
    ensures { IfOk result (IsCropOf (J.answer job.now) board.now (hand_of seat).share) }
{
    let mut scratch = job.new_scratch(alloc)?;
    let mut rows = Vec::new(alloc);
    while let Some(block) = board.draw(&mut seat) {
        gate.at(worker, block);
        let value = Some(job.at(alloc, &mut scratch, block)?);
        rows.push(Row { block, value })?;
    }
    Ok(Crop { seat, rows })
}
