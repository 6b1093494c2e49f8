//! Lengths of the legs of routes per unit of flow, as tables; and by them duals and routes where `--max-length` limits routes.
//!
//! A leg is a factor times a distance, in 10^-6. For `unit_duals`, legs go by way of stops: a stop is a place of an order or
//! a hub, the places first, and stands for that node. `set_legs` has the legs between the stops and from them to the
//! destinations, `first_legs` those from one origin to the stops; `filling` works them out of the instance's distances.
//! `laws` says what the lengths of ways are in the instance: times the flow, the cost of the route by the same nodes.
//!
//! For tests of single duals, legs go by way of candidates: `candidate_legs` has those of an instance, made once, with the
//! ceiling of all lengths; `candidate_filling` works them out. There a place is the number of a candidate in their
//! order, from 0.
//!
//! Where `--max-length` limits the length of routes, `ways` are the ways from one origin by way of stops: how long, in 10^-6
//! by unit of flow, and how far, in 10^-3. Numbers for all destinations are lowered to the lengths of one way after another
//! (`lowering`), along rows, so that several destinations are taken at a time; a way that is no shorter and no nearer than
//! one that serves already is spared (`reaches`). `prices` and `turns` do so for the hubs and for each place in its turn, and
//! `duals` has the room for it. For one commodity alone `routes` has the least route of those that are allowed, and
//! `serving` tells the first commodity that has none.
#![tactic(auto)]

mod candidate_filling;
mod candidate_legs;
mod duals;
mod filling;
mod first_legs;
mod laws;
mod lowering;
mod prices;
mod reaches;
mod routes;
mod serving;
mod set_legs;
mod turns;
mod ways;

pub use candidate_legs::CandidateLegs;
pub use duals::LimitedDuals;
pub use filling::Stops;
pub use first_legs::FirstLegs;
pub use laws::{
    alone_costs_route, first_hub_serves_no_flow, first_route_is_least, hub_stops_are_hubs,
    price_is_least_cost, ways_cost_routes,
};
pub use routes::{LimitedRoute, least_route};
pub use serving::lacking;
pub use set_legs::SetLegs;
pub use ways::Ways;
