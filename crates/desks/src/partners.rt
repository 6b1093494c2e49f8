//! Peers: workers that share numbered tasks.

ghost use Rattle.std.specs.Prelude.{◌≡◌, All, IfOk, IfSome, OnOk};
ghost use Rattle.std.specs.Arc.{arc_value};

use crate::places::Desk;
use crate::telling::Told;
use crate::tickets::Tickets;
use std::alloc::{AllocError, Global};
use std::hint::spin_loop;
use std::marker::Model;
use std::sync::Arc;
use std::thread::yield_now;

// How often a peer polls for the result of a task that another computes.
const MOST_LOOKS: u32 = 1 << 24;

// After so many polls a peer lets another thread run.
const LOOKS_AT_ONCE: u32 = 64;

/// A peer. Several peers run one computation; each task of it is computed by one peer, who sends the result to the
/// others.
///
/// In contracts it is the key of its endpoint.
#[derive(Drop)]
pub struct Partner<'t, K: Drop, T: Told<K> + Drop> {
    tickets: &'t Tickets,
    desk: Desk<K, T>,
    // The results received and not used yet, and its own.
    kept: Vec<Arc<T, Global>>,
    // The task number that it has drawn.
    ticket: u64,
}

impl<'t, K: Drop, T: Told<K> + Drop> Model for Partner<'t, K, T> {
    ghost use Rattle.std.specs.Prelude.{All};
    ghost use Rattle.std.specs.Arc.{arc_value};

    ghost Value = { K };

    ghost view = { λ p. p.desk };

    ghost invariant = { λ p. All (λ a. T.Told.holds p.desk (arc_value a)) p.kept.items };
}

impl<'t, K: Copy + Drop, T: Told<K> + Drop> Partner<'t, K, T> {
    /// The peer at this endpoint, with its first task number drawn.
    pub fn new(alloc: Global, tickets: &'t Tickets, desk: Desk<K, T>) -> Partner<'t, K, T>
        ensures { result ≡ desk }
    {
        Partner {
            tickets,
            desk,
            kept: Vec::new(alloc),
            ticket: tickets.draw(),
        }
    }

    /// The task number that it has drawn. The peers agree which task it means; this peer computes the task and sends
    /// the result.
    pub fn ticket(&self) -> u64 {
        self.ticket
    }

    /// Sends the result of a task that it computed, and draws the next task number.
    pub fn tell(&mut self, alloc: Global, told: T) -> Result<(), AllocError>
        requires holds { T.holds self.old told }
        ensures { self.new ≡ self.old }
    {
        let told = shared(alloc, told)?;
        self.desk.tell(&told)?;
        self.kept.push(told)?;
        self.ticket = self.tickets.draw();
        Ok(())
    }

    /// Waits for the result of this task. `None` after 2^24 polls, or once another peer is done, having received every
    /// result. `AllocError` means that memory ran out or that a peer gave up.
    pub fn awaited(&mut self, turn: u64) -> Result<Option<Arc<T, Global>>, AllocError>
        ensures key { self.new ≡ self.old }
        ensures holds { IfOk result (λ r. IfSome r (λ a. T.holds self.old (arc_value a))) }
    {
        for look in 0..MOST_LOOKS {
            let is_last = self.tickets.is_done();
            self.desk.hear(&mut self.kept)?;
            if let Some(told) = take_out(&self.desk, &mut self.kept, turn) {
                return Ok(Some(told));
            }
            if self.tickets.is_over() {
                return Err(AllocError);
            }
            if is_last {
                return Ok(None);
            }
            pause(look);
        }
        Ok(None)
    }
}

// The result of a task, to be held by several.
fn shared<T: Drop>(alloc: Global, told: T) -> Result<Arc<T, Global>, AllocError>
    ensures { IfOk result (λ a. arc_value a ≡ told) }
{
    match Arc::new(alloc, told) {
        Ok(told) => Ok(told),
        Err(_) => Err(AllocError),
    }
}

// Takes the result of this task out of the stored results, which hold under the key of the endpoint.
fn take_out<K: Copy + Drop, T: Told<K> + Drop>(
    _desk: &Desk<K, T>,
    kept: &mut Vec<Arc<T, Global>>,
    turn: u64,
) -> Option<Arc<T, Global>>
    requires { All (λ a. T.holds _desk.now (arc_value a)) kept.old.items }
    ensures kept { All (λ a. T.holds _desk.now (arc_value a)) kept.new.items }
    ensures holds { IfSome result (λ a. T.holds _desk.now (arc_value a)) }
{
    for at in 0..kept.len() {
        let told = &kept[at];
        if told.turn() == turn {
            return Some(kept.swap_remove(at));
        }
    }
    None
}

// Waits a moment. After every 64 polls it lets another thread run.
fn pause(look: u32) {
    if look % LOOKS_AT_ONCE == LOOKS_AT_ONCE - 1 {
        yield_now();
    } else {
        spin_loop();
    }
}
