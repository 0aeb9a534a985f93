//! A route that is noted for contracts alone.
ghost use Rattle.std.specs.Prelude.{◌≡◌};
ghost use Rattle.std.specs.Borrow.{ftrue};
ghost use Rattle.eon_model.specs.Codes.{route_code};
ghost use Rattle.eon_model.specs.Route.{Route as model};
ghost use Rattle.failure_drill.specs.Hits.{no_route};

use net_graph::Route;
use std::marker::Model;

/// A route. It takes no memory: only clauses see it.
#[derive(Drop)]
pub struct NotedRoute {
    pub ghost route: { model } by { route_code },
}

impl Model for NotedRoute {
    ghost also_owns = { λ _. ftrue };
}

impl NotedRoute {
    /// This route.
    pub fn of(route: &Route) -> NotedRoute
        ensures { result.route ≡ route.now }
    {
        let mut noted = NotedRoute::new();
        noted.note(route);
        noted
    }

    // The route of no fibre.
    fn new() -> NotedRoute
        ensures { result.route ≡ no_route }
    {
        NotedRoute {}
    }

    // This route from now on.
    fn note(&mut self, _route: &Route)
        ensures { self.new.route ≡ _route.now }
    {}
}
