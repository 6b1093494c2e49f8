//! The conditions of a certificate, tested item by item, whether it is read or held in memory.
//!
//! [`Checks`] takes the items that a scan of the text gives, one after another. It returns the first condition that
//! fails, with its line. By weak duality over the tree, a certificate on which none fails proves its bound. The
//! conditions, line by line, are defined in the crate `cert_spec`.
//!
//! `Checks` stores what later conditions need:
//!
//! - the stated cost and bound, and the sums of the plan;
//! - the part and the sums of each cut, of which the last may be incomplete, and the hubs of its mark;
//! - one dual, the sums of one proof, one path of the tree, and the sums of one leaf.
//!
//! A check that holds the certificate in memory gives a line with a list as a whole ([`ListLine`]). For the line of a
//! dual it may say that the dual is feasible. Such a dual is not tested again.
#![tactic(auto)]

mod checks;
mod cut_lists;
mod cuts;
mod items;
mod kinds;
mod list_lines;
mod marked_cuts;
mod marks;
mod plans;
mod sums;
mod trees;

pub use checks::Checks;
pub use kinds::Kind;
pub use list_lines::ListLine;
