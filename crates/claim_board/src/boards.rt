//! The board, which threads share by reference.
ghost use Rattle.std.specs.Prelude.{◌≡◌};

use crate::hands::{Size, Told};
use crate::rules::IsDrawn;
use atomic_table::Table;
use std::alloc::Global;

/// Hands out the numbers below `blocks`, each once. Threads share it by reference.
#[derive(Drop)]
pub struct Board {
    pub(crate) table: Table<(), Told, Size, IsDrawn, Global>,
    pub(crate) blocks: u32,
    ghost one_word: { (table.shared.table_id.words ≡ 1) × (table.shared.table_id.slots ≡ 0) },
    ghost counts: { table.shared.key.blocks ≡ blocks },
}
