//! The answers in the order of the blocks.
ghost use Rattle.std.specs.Prelude.{◌≡◌, ℕ, ◌<◌, ◌==◌, length, All, HoldsAt, IfOk, count_by};
ghost use Rattle.std.specs.List.{AllZip, range_with_len};
ghost use Rattle.claim_board.specs.Crops.{IsAnswered};

use crate::crops::Row;
use crate::jobs::Job;
use std::alloc::{AllocError, Global};

// The place of the row of a block.
fn place_of<T: Drop>(rows: &[Row<T>], block: u32) -> usize
    requires { 0 < count_by (λ r. r.block == block) rows.now }
    ensures inside { result < length rows.now }
    ensures block { HoldsAt (λ r. r.block ≡ block) rows.now result }
{
    for (i, row) in rows.iter().enumerate() {
        if row.block == block {
            return i;
        }
    }
    unreachable!()
}

/// The answers of all blocks below `blocks`, in the order of the blocks. Each of them has a row.
pub(crate) fn gather<T: Drop, J: Job<T>>(
    alloc: Global,
    _job: &J,
    mut rows: Vec<Row<T>>,
    blocks: u32,
) -> Result<Vec<T>, AllocError>
    requires answered { All (IsAnswered (J.answer _job.now)) rows.items }
    requires each { (b : ℕ) → b < blocks → 0 < count_by (λ r. r.block == b) rows.items }
    ensures { IfOk result (λ v. AllZip (J.answer _job.now) (range_with_len 0 blocks) v.items) }
{
    let mut answers = Vec::with_capacity(alloc, blocks as usize)?;
    for block in 0..blocks {
        let place = place_of(rows.as_slice(), block);
        match rows[place].value.take() {
            Some(answer) => answers.push(answer)?,
            None => unreachable!(),
        }
    }
    Ok(answers)
}
