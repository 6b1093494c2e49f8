//! What holds of the draw machine after every list of events.
ghost use Rattle.claim_board.specs.Draws.{DrawsAreSound};

/// After every list of events, the lists of all seats together have each number below the lesser of `next` and `blocks`
/// exactly once, and no other. The shares add up.
pub fn draws_are_sound()
    ensures { DrawsAreSound }
{}
