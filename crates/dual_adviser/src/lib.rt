//! The heuristic of `optimize` (`Advice` of `search_advice`) by dual ascent: dual values for a cut, hub sets, and the
//! candidate to branch on.
//!
//! At a node ascent passes improve the duals (`dual_ascent`). The rounded penalties give a hub set, which a local
//! search improves (`hub_moves`). Where the bound is close to the cost of the set, the duals are made tight at it
//! (`fitting`), so that the bound becomes that cost. Where this does not fathom the node, strong branching chooses
//! the candidate.
//!
//! Nothing here is exact or trusted. The search makes each dual feasible first, with the greatest price that its values
//! allow, and computes costs and bounds again, exactly. What is proved is that each call ends without a fault, and that
//! lists keep their lengths, whatever the numbers.
//!
//! The dual of a commodity is tight at a hub set where its price is the length of its shortest route over the set plus
//! the values of the set's hubs. If all duals are tight, the cut's bound with exactly the set's hubs open is the set's
//! cost. Tight duals have a closed form, and so have those that complete what passes saw of a core of the candidates.
//!
//! In the order of reading: `origins` (the tight duals of an origin, as a job of the
//! worker pool), `fitting` (those of all origins), `single` (the best duals for one hub). Then
//! `node` (penalties, ramps and the core at a node), `progress` (its bounds, and when it is left), `memory` (state to
//! return to). Last `adviser` (the trait), `beginning`, `rounding` and `branching` (parts of a node).
#![tactic(auto)]

mod adviser;
mod beginning;
mod branching;
mod fitting;
mod memory;
mod node;
mod origins;
mod progress;
mod rounding;
mod single;

pub use adviser::Adviser;
