//! The rule of a board's table, and the names of its steps.
ghost use Rattle.std.specs.Prelude.{[], false};
ghost use Rattle.claim_board.specs.Hands.{hand, kept_half, new_half, both, spent};
ghost use Rattle.claim_board.specs.Rules.{told, IsRun, Draws};

use crate::hands::{Size, Told};
use atomic_table::{Join, Play, Split, TableRule};

/// The board is the draw machine after some list of events.
pub struct IsDrawn;

impl TableRule<(), Told, Size> for IsDrawn {
    ghost holds = { IsRun };

    ghost first = { λ size. told size.blocks (hand [] size.seats false) };
}

/// The step of a draw.
pub struct Draw;

impl Play<(), Told> for Draw {
    ghost then = { Draws };
}

/// How a seat's share is halved, and put together again.
pub struct Halves;

impl Split<Told> for Halves {
    ghost left = { λ v. told v.blocks (kept_half v.hand) };

    ghost right = { λ v. told v.blocks (new_half v.hand) };
}

impl Join<Told> for Halves {
    ghost both = { λ v w. told v.blocks (both v.hand w.hand) };

    ghost spent = { told 0 spent };
}
