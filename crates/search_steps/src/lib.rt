//! What `solve` does at one node, and the state of its search: master, bound, fixing, branching, separation, beginning,
//! end.
//!
//! At a node a search has a branch, the pool of cuts, and weights on the first cuts of the pool. A weight is in 10^-6,
//! and a multiple of its cut's part. `node_advice` solves the master for other weights and a point. `is_better` says
//! whether they give a greater bound, and `closes` whether a bound fathoms at the incumbent's cost. `nearest` chooses
//! the candidate nearest to a half to branch on, and `leaf_line` writes a leaf.
//!
//! A [`Rule`] makes the choices that depend on the wanted plans: how a branch ends, its only hub set, bounds, fixing,
//! the hub set to separate, and the fixed costs of the master. It has the wanted number of hubs, and each choice is by
//! that number (`p_hub`). [`Plain`] is for any number of hubs, [`Counted`] for exactly p.
//!
//! [`Progress`] is the state of a search's definition (`search_spec`), with the lines of the tree that are finished.
//! [`begin`] separates the hub sets with which a rule begins. [`separate`] separates a set, and its cut becomes the
//! next of the pool. [`keep`] does the same with a cut that is there already. [`stopped_leaf`] makes a leaf of a branch
//! at a stop. Each leaves the state that the step of its name leaves. [`finish`] returns the finding. It is the
//! definition's where the state is that of the definition at its end, and the lines are those of its tree in preorder.
//!
//! A [`Separator`] (`asking`) computes the cut of its kind from a hub set over an order. One thread does it ([`Solo`]),
//! or several side by side; [`Coring`] makes Pareto-optimal cuts where there are. So no search depends on who computed
//! a cut.
//!
//! Each call is proved equal to the step of its name in `search_spec`. That the choices are unique are laws
//! (`greatest_is_one`, `nearest_is_one`, `picked_is_one`), and what holds of each kind of cuts is in `kind_laws`.
//! Costs, totals and loads are in 10^-12, bounds in 10^-12 times 10^6. Nodes are `u32`, counted from 0, and cuts are
//! counted from 1.
#![tactic(auto)]

mod advising;
mod asking;
mod bounding;
mod coring;
mod finishing;
mod kind_laws;
mod laws;
mod leaves;
mod picking;
mod progress;
mod rules;
mod separating;
mod solos;
mod starting;
mod stopping;
mod weightings;

pub use advising::node_advice;
pub use asking::{Separated, Separator};
pub use bounding::{closes, is_better};
pub use coring::Coring;
pub use finishing::finish;
pub use kind_laws::{kept_is_of_set, minimal_is_rule, parts_are_sound};
pub use laws::{advising_is_sound, greatest_is_one, nearest_is_one, picked_is_one};
pub use leaves::leaf_line;
pub use picking::nearest;
pub use progress::{Progress, may_split, two_more};
pub use rules::{Counted, Plain, Rule};
pub use separating::{keep, number_of, separate};
pub use solos::Solo;
pub use starting::begin;
pub use stopping::stopped_leaf;
pub use weightings::NodeWeights;
