//! A route: the fibres that lead from one node to another, with their length and their risk.

ghost use Rattle.std.specs.Prelude.{◌≡◌, ℕ, ◌+◌, ◌<◌, ◌≤◌, List, length, Option, Some, None, IsTrue, IsOk, IfOk, All};
ghost use Rattle.eon_model.specs.Network.{fibre_at};
ghost use Rattle.eon_model.specs.Route as model;
ghost use Rattle.net_graph.specs.Graph.{is_graph};
ghost use Rattle.net_graph.specs.Walks.{route_from};

use crate::graph::Net;
use crate::sets::RiskSet;
use crate::walk::is_walk;
use smallvec::SmallVec;
use std::alloc::{AllocError, Global};
use std::marker::Model;

/// How many fibres stay in the route itself; more take memory.
const IN_PLACE: usize = 8;

/// The fibres of a route in order, by number, with their length in km and the groups that hold one of
/// them. A contract sees it as these three.
#[derive(Debug, Drop)]
pub struct Route {
    fibres: SmallVec<u8, IN_PLACE>,
    km: u32,
    risk: RiskSet,
}

impl Model for Route {
    ghost use Rattle.eon_model.specs.Route as model;
    ghost use Rattle.eon_model.specs.Codes.{route_code};

    ghost Value = { model.Route };

    ghost coded = { route_code };

    ghost view = { λ r. record { fibres = r.fibres.items; km = r.km; risk = r.risk } };
}

// The length of this fibre.
fn span(net: &Net, fibre: u8) -> u32
    requires { fibre < length net.now.fibres }
    ensures km { result ≡ (fibre_at net.now.fibres fibre).km }
    ensures most { result ≤ 100000 }
{
    let _ = net.fibres();
    net.fibre(fibre).km
}

// The length of these fibres.
fn length_of(net: &Net, fibres: &[u8]) -> u32
    requires few { length fibres.now ≤ 64 }
    requires known { All (λ i. i < length net.now.fibres) fibres.now }
    ensures { result ≡ model.km_of net.now fibres.now }
{
    let mut km = 0;
    for fibre in fibres {
        km += span(net, *fibre);
    }
    km
}

// The groups that hold one of these fibres.
fn risk_along(net: &Net, fibres: &[u8]) -> RiskSet
    requires { All (λ i. i < length net.now.fibres) fibres.now }
    ensures { result ≡ model.risk_of net.now fibres.now }
{
    let mut risk = RiskSet::empty();
    for fibre in fibres {
        risk.join(&net.risk(*fibre));
    }
    risk
}

impl Route {
    /// The route of these fibres from node s to node t, with the length and the risk that the network
    /// gives; None exactly where they are no route between these nodes. A list of at most eight fibres
    /// never wants memory.
    pub fn make(
        alloc: Global,
        net: &Net,
        s: u8,
        t: u8,
        fibres: &[u8],
    ) -> Result<Option<Route>, AllocError>
        ensures route { IfOk result (λ route. route ≡ route_from net.now s t fibres.now) }
        ensures in_place { length fibres.now ≤ 8 → IsOk result }
    {
        if !is_walk(net, s, t, fibres) {
            return Ok(None);
        }
        let kept = SmallVec::from_slice(alloc, fibres)?;
        Ok(Some(Route {
            fibres: kept,
            km: length_of(net, fibres),
            risk: risk_along(net, fibres),
        }))
    }

    /// The numbers of its fibres, in order.
    pub fn fibres(&self) -> &[u8]
        ensures { result.now ≡ self.now.fibres }
    {
        self.fibres.as_slice()
    }

    /// Its length in km.
    pub fn km(&self) -> u32
        ensures { result ≡ self.now.km }
    {
        self.km
    }

    /// The groups that hold one of its fibres.
    pub fn risk(&self) -> RiskSet
        ensures { result ≡ self.now.risk }
    {
        self.risk.copy()
    }

    /// The same route once more. A route of at most eight fibres never wants memory.
    pub fn copy(&self, alloc: Global) -> Result<Route, AllocError>
        ensures same { IfOk result (λ route. route ≡ self.now) }
        ensures in_place { length self.now.fibres ≤ 8 → IsOk result }
    {
        let fibres = SmallVec::from_slice(alloc, self.fibres.as_slice())?;
        Ok(Route {
            fibres,
            km: self.km,
            risk: self.risk.copy(),
        })
    }
}
