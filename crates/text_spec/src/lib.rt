//! Tokens and numbers of a text as definitions. No code.
//!
//! `specs/Tokens.antt` has `tokens_of`, the tokens of a file, and `specs/Numbers.antt` has `decimal_value` and
//! `count_value`, the number that a token writes, and `specs/Fixed.antt` has `fixed_text`, how one is printed. The
//! functions below are empty: each carries a law as its contract.
#![tactic(auto)]

mod laws;

pub use laws::tokens_are_runs;
