//! A worker pool: work in blocks, drawn from a board by one atomic word, shared by fork and join, with answers in their order.
//!
//! A board gives out the numbers below `blocks`, each number once, and a seat is the right to draw from it. A seat has a list
//! of the numbers drawn and a share of the board, both of which only contracts know, and a mark that it has ended. `split`
//! makes two seats of one, each for a thread of its own, and `join` makes one of two. Who has a seat with the whole
//! share has all other seats joined to it, and learns by `close` that each number below `taken` was drawn once.
//! No call of a board takes a lock or waits, and only `Board::new` asks for memory.
//!
//! A [`Job`] says what the answer of a block is, and works it out. [`answers`] has a job done by so many workers, each
//! in a thread of its own where one can be made, and gives the answers in the order of the blocks: whatever the number
//! of workers and however their threads run, they are those that the job's own clause names. Each worker draws its
//! blocks from a board one at a time, so that none waits while blocks are left, and has one scratch for all of them.
//!
//! In the order of reading: `hands` (what a seat did, as plain data), `seats` and `boards` (the types), `rules` (what
//! holds of a board at all times: it is the draw machine of `specs/Draws` after some list of events), `steps` (the
//! calls) and `laws` (what holds of the draw machine); then `jobs` (what work is), `crops` (what a worker brings), `working`
//! (the work of one worker), `staffing` (workers side by side, by fork and join) and `gathering` (the answers in the order of
//! the blocks).
#![tactic(auto)]

mod boards;
mod crops;
mod gathering;
mod hands;
mod jobs;
mod laws;
mod rules;
mod seats;
mod staffing;
mod steps;
mod working;

pub use boards::Board;
pub use crops::{Crop, Row};
pub use hands::{Hand, Size, Told};
pub use jobs::Job;
pub use laws::draws_are_sound;
pub use seats::Seat;
pub use staffing::answers;
pub use steps::Drawn;
pub use working::work;
