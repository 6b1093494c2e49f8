//! The lengths of routes by stops are costs of the instance. Each function is empty, and its contract is the law.

ghost use Rattle.leg_duals.specs.Theorems.{HubStopsAreHubs, WaysCostRoutes, AloneCostsRoute, PriceIsLeastCost, FirstRouteIsLeast, FirstHubServesNoFlow};

/// The nodes of the stops that are hubs are exactly the hubs.
pub fn hub_stops_are_hubs()
    ensures { HubStopsAreHubs }
{}

/// The flow times the length of a route by two stops is the cost of the route through their nodes.
pub fn ways_cost_routes()
    ensures { WaysCostRoutes }
{}

/// The flow times the length of a route by one stop alone is the cost of the route through its node.
pub fn alone_costs_route()
    ensures { AloneCostsRoute }
{}

/// Without a length limit, the flow times the price is the least cost through the hubs.
pub fn price_is_least_cost()
    ensures { PriceIsLeastCost }
{}

/// Without a length limit, and with flow, the first of the shortest routes through hubs is the least route.
pub fn first_route_is_least()
    ensures { FirstRouteIsLeast }
{}

/// Without flow, the route through the first hub alone is the least route.
pub fn first_hub_serves_no_flow()
    ensures { FirstHubServesNoFlow }
{}
