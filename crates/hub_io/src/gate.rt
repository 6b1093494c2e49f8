//! Where the workers of the program pass.

/// What a worker passes before each block of its work. A gate in a test may hold a worker, so that every schedule can
/// be tried. No result depends on it.
pub trait Gate: Sync {
    /// Worker number `worker` is about to do block number `block`, both counted from 0.
    fn at(&self, worker: u32, block: u32);
}

/// A gate that lets every worker pass at once.
#[derive(Clone, Copy, Default)]
pub struct OpenGate;

impl Gate for OpenGate {
    fn at(&self, _worker: u32, _block: u32) {}
}
