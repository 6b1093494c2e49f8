//! The threads that share the work of a heuristic.

ghost use Rattle.std.specs.Prelude.{◌≤◌};

use std::alloc::Global;

/// The workers of a job: how many there are, and what they take memory from.
#[derive(Drop)]
pub struct PassWorkers<'a, R> {
    /// The runtime's handle.
    pub rt: &'a R,
    /// The memory.
    pub alloc: Global,
    /// How many there are.
    pub count: u32,
}

impl<R> PassWorkers<'_, R> {
    /// The number of workers that share a job in blocks: from 1 to 64.
    pub fn many(&self) -> u32
        ensures { (1 ≤ result) × (result ≤ 64) }
    {
        self.count.clamp(1, 64)
    }
}
