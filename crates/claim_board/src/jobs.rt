//! What a job is.
ghost use Rattle.std.specs.Prelude.{ℕ, IfOk};

use std::alloc::{AllocError, Global};

/// Work in independent blocks.
pub trait Job<T> {
    /// The workspace of a worker. Each worker has its own, for all of its blocks.
    type Scratch: Send + Drop;

    // The answer of a block.
    ghost answer: { Self → ℕ → T → Type 0 };

    // The blocks that may be asked for.
    ghost accepts: { Self → ℕ → Type 0 };

    // The scratches that serve any block.
    ghost serves: { Self → Self.Scratch → Type 0 };

    /// A workspace for one worker.
    fn new_scratch(&self, alloc: Global) -> Result<Self::Scratch, AllocError>
        ensures { IfOk result (serves self.now) };

    /// Computes the answer of one block.
    fn at(&self, alloc: Global, scratch: &mut Self::Scratch, block: u32) -> Result<T, AllocError>
        requires accepts { accepts self.now block }
        requires serves { serves self.now scratch.old }
        ensures answer { IfOk result (answer self.now block) }
        ensures serves { serves self.now scratch.new };
}
