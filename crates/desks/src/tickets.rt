//! Task numbers.

use std::sync::atomic::{AtomicBool, AtomicU64, Ordering};

/// What peers share: the next task number, whether one of them is done, and whether one gave up.
#[derive(Drop)]
pub struct Tickets {
    next: AtomicU64,
    done: AtomicBool,
    over: AtomicBool,
}

impl Tickets {
    /// Task numbers from 0, none of them drawn yet.
    pub fn new() -> Tickets {
        Tickets {
            next: AtomicU64::new(0),
            done: AtomicBool::new(false),
            over: AtomicBool::new(false),
        }
    }

    pub(crate) fn draw(&self) -> u64 {
        self.next.fetch_add(1, Ordering::SeqCst)
    }

    /// Records that a peer is done: it received every result, and draws no further task for the others.
    pub fn finish(&self) {
        self.done.store(true, Ordering::SeqCst);
    }

    pub(crate) fn is_done(&self) -> bool {
        self.done.load(Ordering::SeqCst)
    }

    /// Records that a peer gave up, so that all give up.
    pub fn end(&self) {
        self.over.store(true, Ordering::SeqCst);
    }

    pub(crate) fn is_over(&self) -> bool {
        self.over.load(Ordering::SeqCst)
    }
}
