//! Reads the tokens of an instance file one by one, each as what its layout expects, or its fault.
//!
//! A [`Reader`] gives each token as what it is to be, or its fault. `specs/` says what is still unread and what is
//! wrong with the next tokens; `proofs/Stretches` and `proofs/Stages` bring that to the contents or the first fault
//! of the whole file: a layout shows what the tokens of each stretch are to be, and goes on from stage to stage.
#![tactic(auto)]

// The tokens in turn.
mod reading;

// What a token writes.
mod numbers;

pub use reading::Reader;
