//! Files and standard streams of the machine, behind the traits of `hub_io`.
//!
//! Both keep the meaning of the traits of `hub_io`. Files tell nothing of what they hold, and the streams of the machine
//! nothing of what they took, so what is claimed of them is what is counted: each call that failed.
#![tactic(auto)]

mod shelf;
mod sink;

pub use shelf::DiskShelf;
pub use sink::StreamSink;
