//! What depends on the wanted number of hubs: bounds, variable fixing and rounding where exactly p are wanted, and the
//! choices of a search.
//!
//! In a branch as many free nodes become hubs as are missing to p. So its bound has the gains of the nodes inside, and the
//! least gains of as many free nodes as are missing; `leaf_bound` counts each free node whose gain is negative. A branch
//! has room for p hubs where at most p nodes are inside, and at least p are inside or free.
//!
//! [`bound_p`] and [`closes_p`] take no memory. [`fix_p`] is variable fixing by these bounds, and [`pick`] rounds a point
//! to p hubs. Units, limits and sides are those of `leaf_bound`.
//!
//! Each search begins with [`first_hubs`]. [`end_by_number`] and [`blocked_line`] end a branch in which no wanted hub set is
//! left, [`only_set`] is the one that is left, and [`bound_by_number`] is the bound, for any number of hubs or exactly p.
#![tactic(auto)]

mod bounds;
mod choices;
mod fixing;
mod laws;
mod openings;
mod picking;
mod rising;
mod sides;

pub use bounds::{bound_p, closes_p};
pub use choices::{bound_by_number, end_by_number, first_hubs, only_set};
pub use fixing::fix_p;
pub use laws::{fixing_is_sound, leaf_has_counted, never_both, sides_close};
pub use openings::{all_open, blocked_line};
pub use picking::pick;
