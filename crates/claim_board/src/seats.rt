//! The right to draw from a board.
ghost use Rattle.std.specs.Prelude.{◌≡◌, ◌<◌, []};

use crate::hands::Told;

/// The right to draw from one board, for one thread at a time. Contracts know it by its `Hand`; at run time it only
/// records whether it has ended.
#[derive(Drop)]
pub struct Seat {
    pub(crate) place: atomic_table::Seat<(), Told>,
    pub(crate) ended: bool,
    ghost marked: { ended ≡ place.me.0.hand.ended },
    ghost holds_no_slot: { place.me.1 ≡ [] },
    ghost has_share: { 0 < place.me.0.hand.share },
}
