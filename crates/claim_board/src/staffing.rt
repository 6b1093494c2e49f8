//! Workers side by side, by fork and join.
ghost use Rattle.std.specs.Prelude.{◌≡◌, ℕ, ◌+◌, ◌<◌, ◌≤◌, [], IfOk};
ghost use Rattle.std.specs.List.{AllZip, range_with_len};
ghost use denote.Param.Send.{IsSend, IsSync};
ghost use Rattle.claim_board.specs.Places.{hand_of, IsSeatOf};
ghost use Rattle.claim_board.specs.Crops.{IsCropOf};

use crate::crops::Crop;
use crate::gathering::gather;
use crate::jobs::Job;
use crate::working::work;
use crate::{Board, Seat};
use hub_io::Gate;
use std::alloc::{AllocError, Global};
use std::thread::{Threads, join};

// The crop of so many workers, whose numbers begin at `first`. Half of them work in a thread of their own.
#[cycle(staff)]
fn staff<R: Threads + Sync, T: Send + Drop, J: Job<T> + Sync, G: Gate>(
    rt: &R,
    alloc: Global,
    board: &Board,
    seat: Seat,
    job: &J,
    first: u32,
    workers: u32,
    gate: &G,
) -> Result<Crop<T>, AllocError>
    requires seat { IsSeatOf board.now seat × ((hand_of seat).drawn ≡ []) × ((hand_of seat).share ≡ workers) }
    requires workers { (1 ≤ workers) × (first + workers ≤ 64) }
    requires accepts { (b : ℕ) → b < board.now.blocks → J.accepts job.now b }
    ensures { IfOk result (IsCropOf (J.answer job.now) board.now workers) }
{
    if workers == 1 {
        return work(alloc, board, seat, job, first, gate);
    }
    let half = workers / 2;
    let rest = workers - half;
    let up = first + rest;
    let (mine, theirs) = board.split(seat);
    let front = move || -> Result<Crop<T>, AllocError>
        requires { IsSync R.row × IsSync J.row × IsSync G.row × IsSend T.row × IsSend J.Scratch.row × IsSeatOf board.now theirs × ((hand_of theirs).drawn ≡ []) × ((hand_of theirs).share ≡ half) × (1 ≤ half) × (up + half ≤ 64) × ((b : ℕ) → b < board.now.blocks → J.accepts job.now b) }
        ensures { IfOk result (IsCropOf (J.answer job.entry.now) board.entry.now half) }
    { staff(rt, alloc, board, theirs, job, up, half, gate) };
    let back = move || -> Result<Crop<T>, AllocError>
        requires { IsSync R.row × IsSync J.row × IsSync G.row × IsSend T.row × IsSend J.Scratch.row × IsSeatOf board.now mine × ((hand_of mine).drawn ≡ []) × ((hand_of mine).share ≡ rest) × (1 ≤ rest) × (first + rest ≤ 64) × ((b : ℕ) → b < board.now.blocks → J.accepts job.now b) }
        ensures { IfOk result (IsCropOf (J.answer job.entry.now) board.entry.now rest) }
    { staff(rt, alloc, board, mine, job, first, rest, gate) };
    let (b, a) = join(rt, front, back);
    let Crop { seat, mut rows } = a?;
    let Crop {
        seat: other,
        rows: mut more,
    } = b?;
    rows.append(&mut more)?;
    Ok(Crop {
        seat: board.join(seat, other),
        rows,
    })
}

/// The answers of all blocks below `blocks`, in the order of the blocks.
///
/// At most `workers` workers compute them, from 1 to 64, and no more than there are blocks. Each has its own thread
/// where one can be made. The answers depend neither on the number of workers nor on their schedule.
pub fn answers<R: Threads + Sync, T: Send + Drop, J: Job<T> + Sync, G: Gate>(
    rt: &R,
    alloc: Global,
    job: &J,
    blocks: u32,
    workers: u32,
    gate: &G,
) -> Result<Vec<T>, AllocError>
    requires accepts { (b : ℕ) → b < blocks → J.accepts job.now b }
    requires workers { (1 ≤ workers) × (workers ≤ 64) }
    ensures { IfOk result (λ v. AllZip (J.answer job.now) (range_with_len 0 blocks) v.items) }
{
    let seats = workers.min(blocks).max(1);
    let (board, seat) = Board::new(alloc, blocks, seats)?;
    let Crop { seat, rows } = staff(rt, alloc, &board, seat, job, 0, seats, gate)?;
    board.close(seat);
    gather(alloc, job, rows, blocks)
}
