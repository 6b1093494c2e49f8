//! The conditions from the size of the instance to the last route of the plan.

ghost use Rattle.std.specs.Prelude.{◌≡◌, ◌^◌, ◌-◌, ◌<◌, ◌↔◌, Bool, IsTrue, None, Contains};
ghost use Rattle.cert_lines.specs.PlanTallies.{with_hub};
ghost use Rattle.cert_conditions.specs.Steps.{
  Tried,
  ended,
  Ends,
  size_tests,
  bound_tests,
  hub_tests,
  route_tests,
  hubbed,
  routed,
  HubTaken,
  MayHub,
  MayRoute,
};

use crate::checks::Checks;
use crate::kinds::Kind;
use cert_lines::is_candidate;

impl<'a> Checks<'a> {
    pub(crate) fn take_size(&mut self, n: u32, q: u32)
        requires { self.old.line < 2 ^ 64 - 1 }
        ensures { Ends (size_tests self.old n q) self.old self.new }
    {
        let found = self.failed_size(n, q);
        self.end_line(found);
    }

    fn failed_size(&self, n: u32, q: u32) -> Option<Kind>
        ensures { Tried (size_tests self.now n q) result self.now.line }
    {
        if n == self.instance.size() && q as usize == self.instance.candidates().len() {
            return None;
        }
        Some(Kind::Size)
    }

    pub(crate) fn take_cost(&mut self, cost: u128)
        requires { self.old.line < 2 ^ 64 - 1 }
        ensures { self.new ≡ ended (record self.old { cost = cost }) None }
    {
        self.cost = cost;
        self.end_line(None);
    }

    pub(crate) fn take_bound(&mut self, bound: u128)
        requires { self.old.line < 2 ^ 64 - 1 }
        ensures { Ends (bound_tests (record self.old { bound = bound })) (record self.old { bound = bound }) self.new }
    {
        self.bound = bound;
        let found = self.failed_bound();
        self.end_line(found);
    }

    fn failed_bound(&self) -> Option<Kind>
        ensures { Tried (bound_tests self.now) result self.now.line }
    {
        if self.bound > self.cost {
            return Some(Kind::BoundOverCost);
        }
        None
    }

    pub(crate) fn take_hub(&mut self, k: u32, last: bool)
        requires room { self.old.line < 2 ^ 64 - 1 }
        requires hub { MayHub self.old k }
        ensures { HubTaken self.old k last self.new }
    {
        self.add_hub(k);
        if !last {
            return;
        }
        let found = self.failed_hubs();
        self.end_line(found);
    }

    fn add_hub(&mut self, k: u32)
        requires { MayHub self.old k }
        ensures known { IsTrue self.new.are_candidates
            ↔ (IsTrue self.old.are_candidates × Contains self.old.instance.now.candidates k) }
        ensures is { self.new ≡ hubbed self.old k self.new.are_candidates }
    {
        self.plan.add_hub(self.instance, k);
        self.are_candidates = self.are_candidates && is_candidate(self.instance, k);
    }

    fn failed_hubs(&self) -> Option<Kind>
        ensures { Tried (hub_tests self.now) result self.now.line }
    {
        if !self.are_candidates {
            return Some(Kind::Hubs);
        }
        if !self.plan.has_wanted(self.instance) {
            return Some(Kind::Number);
        }
        None
    }

    pub(crate) fn take_route(&mut self, commodity: (u32, u32), route: (u32, u32))
        requires room { self.old.line < 2 ^ 64 - 1 }
        requires route { MayRoute self.old commodity route }
        ensures { Ends (route_tests (routed self.old commodity route) commodity route)
            (routed self.old commodity route) self.new }
    {
        self.plan.add_route(self.instance, commodity, route);
        let found = self.failed_route(commodity, route);
        self.end_line(found);
    }

    // Of a route that is added already; with the last one, the plan's cost is tried.
    fn failed_route(&self, commodity: (u32, u32), route: (u32, u32)) -> Option<Kind>
        requires from { commodity.0 < self.now.instance.now.size }
        requires to { commodity.1 < self.now.instance.now.size }
        requires first { route.0 < self.now.instance.now.size }
        requires last { route.1 < self.now.instance.now.size }
        ensures { Tried (route_tests self.now commodity route) result self.now.line }
    {
        let (i, j) = commodity;
        let (k, m) = route;
        if !self.plan.has_hub(k) || !self.plan.has_hub(m) {
            return Some(Kind::Route);
        }
        if !self.instance.allowed(i, j, k, m) {
            return Some(Kind::Length);
        }
        if self.plan.is_whole() && self.plan.cost() != self.cost {
            return Some(Kind::Cost);
        }
        None
    }
}
