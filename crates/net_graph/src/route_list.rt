//! Routes in order.

ghost use Rattle.std.specs.Prelude.{◌≡◌, ◌<◌, length, Some, slice_get, slice_index_or};

use crate::route::Route;
use std::marker::Model;

/// A list of routes, in order.
#[derive(Drop)]
pub struct RouteList {
    routes: Vec<Route>,
}

impl Model for RouteList {
    ghost use Rattle.std.specs.Prelude.{List};
    ghost use Rattle.std.specs.Coded.{coded_list};
    ghost use Rattle.eon_model.specs.Route as model;
    ghost use Rattle.eon_model.specs.Codes.{route_code};

    ghost Value = { List model.Route };

    ghost coded = { coded_list route_code };

    ghost view = { λ r. r.routes.items };
}

impl RouteList {
    /// These routes, in their order.
    pub fn of(routes: Vec<Route>) -> RouteList
        ensures { result ≡ routes.items }
    {
        RouteList { routes }
    }

    /// How many there are.
    pub fn len(&self) -> usize
        ensures { result ≡ length self.now }
    {
        self.routes.len()
    }

    /// The route at this place, which is below `len`.
    pub fn at(&self, i: usize) -> &Route
        requires { i < length self.now }
        ensures route { slice_get self.now i ≡ Some result.now }
        ensures read { result.now ≡ slice_index_or self.now i result.now }
    {
        &self.routes[i]
    }

    /// Takes the route at this place, which is below `len`, and lets the others go.
    pub fn take(mut self, i: usize) -> Route
        requires { i < length self }
        ensures { slice_get self i ≡ Some result }
    {
        self.routes.swap_remove(i)
    }
}
