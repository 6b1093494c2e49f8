//! Message passing between threads: a ring for each ordered pair of threads, without locks or waiting.
//!
//! Each of several threads has an endpoint ([`Desk`]). What one thread sends goes to all others, and each receives it
//! when it polls its rings. Nobody waits, and nothing is locked. All endpoints that were made together have one key. An
//! item may be sent only if it holds under that key ([`Told`]). So its receiver knows that it holds, but not when or by
//! whom it was sent. An item is lost where the ring between two endpoints is full, so a receiver must get on without
//! it.
//!
//! Threads that run one computation can share its numbered tasks, as peers ([`Partner`]). Each draws a task number,
//! computes the task, and sends the result to the others. The peers agree which task a number means. No proof depends
//! on who draws which number.
//!
//! In the order of reading: `telling` (what may be sent), `posts` (the messages in a ring), `places` (the endpoints),
//! `tickets` (task numbers) and `partners` (the peers).
#![tactic(auto)]

mod partners;
mod places;
mod posts;
mod telling;
mod tickets;

pub use partners::Partner;
pub use places::{Desk, desks};
pub use posts::{OfOneKey, Post};
pub use telling::Told;
pub use tickets::Tickets;
