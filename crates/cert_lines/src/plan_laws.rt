//! Laws of the sums of a plan. Each function is empty, and its contract is the law.

ghost use Rattle.cert_lines.specs.PlanTheorems.{PlanBegins, PlanHasHub, PlanHasRoute, PlanCosts};

/// New sums are those of no hub and no route.
pub fn plan_begins()
    ensures { PlanBegins }
{}

/// Adding a hub to the sums of some hubs gives the sums of these hubs followed by the new one.
pub fn plan_has_hub()
    ensures { PlanHasHub }
{}

/// Adding the route of the next commodity to the sums of some routes gives the sums of these routes followed by the new
/// one.
pub fn plan_has_route()
    ensures { PlanHasRoute }
{}

/// Once each commodity has a route, the cost is that of the plan.
pub fn plan_costs()
    ensures { PlanCosts }
{}
