//! Where texts are put.
ghost use Rattle.std.specs.Prelude.{ℕ, List, Option};
ghost use Rattle.hub_io.specs.Outside.{Puts};

use crate::Failed;

/// Takes bytes, one piece after another.
pub trait Sink {
    /// The bytes taken so far, where the sink tells.
    ghost taken: { Self → Option (List ℕ) };

    /// How often the sink has failed.
    ghost faults: { Self → ℕ };

    /// Takes all of the piece, or fails. On failure a prefix of it may have been taken.
    ///
    /// A call fails only where the count of faults rose in that call, or is at its last value 2^64 - 1.
    fn put(&mut self, piece: &[u8]) -> Result<(), Failed>
        ensures { Puts taken faults self.old self.new result piece.now };
}
