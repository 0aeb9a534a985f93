//! Deviations: the least route of those that leave the found ones at the end of a front.

ghost use Rattle.std.specs.Prelude.{◌≡◌, ℕ, ◌+◌, ◌<◌, ◌≤◌, ◌||◌, List, [], ◌∷◌, ◌++◌, length, take, map, IsTrue, IfSome, IfOk, OnOk};
ghost use Rattle.std.specs.Option.{option_map, option_map_or, option_to_list};
ghost use Rattle.std.specs.List.{list_all, AllByRecursion};
ghost use Rattle.eon_model.specs.Network.{Network};
ghost use Rattle.eon_model.specs.Route as model;
ghost use Rattle.eon_model.specs.Routes.{is_open_route};
ghost use Rattle.eon_model.specs.Sets.{has_member};
ghost use Rattle.eon_model.specs.Deviations.{begins_with, is_front, is_front_of, goes_on, deviation, deviations_at, fronts_of};
ghost use Rattle.route_list.specs.Fronts.{seen, at_front, StandsAt, AreNumbers, leads_by};

use crate::least::least_walk;
use eon_base::steps::Steps;
use net_graph::{FibreSet, Net, NodeSet, Route};
use std::alloc::{AllocError, Global};
use std::sync::ledger::Ledger;

/// What a search asks of routes: where they begin and end, and how long they are at most.
#[derive(Clone, Copy)]
pub(crate) struct Ask {
    pub(crate) s: u8,
    pub(crate) t: u8,
    pub(crate) max_km: u32,
}

/// A route that leaves the found ones, and with how many fibres in common.
#[derive(Drop)]
pub(crate) struct Deviation {
    pub(crate) shared: usize,
    pub(crate) route: Route,
}

/// The end of a front: the node where it ends, the nodes before it, and how many km are left.
#[derive(Drop)]
pub(crate) struct Front {
    pub(crate) node: u8,
    pub(crate) passed: NodeSet,
    pub(crate) left: u32,
}

impl Front {
    /// The end of the front of no fibre.
    pub(crate) fn start(s: u8, max_km: u32) -> Front
        ensures { (net : Network) → StandsAt net s max_km [] result }
    {
        Front {
            node: s,
            passed: NodeSet::empty(),
            left: max_km,
        }
    }

    /// The end of the front with this fibre more.
    pub(crate) fn past(self, net: &Net, fibre: u8) -> Front
        requires node { self.node < 64 }
        requires known { fibre < length net.now.fibres }
        ensures { (s : ℕ) (max_km : ℕ) (front : List ℕ) → StandsAt net.now s max_km front self → StandsAt net.now s max_km (front ++ fibre ∷ []) result }
    {
        let node = net.far_end(fibre, self.node).unwrap_or(self.node);
        let left = self.left.saturating_sub(net.fibre(fibre).km);
        Front {
            node,
            passed: self.passed.with(self.node),
            left,
        }
    }
}

/// Whether these fibres begin with the front, and go on.
pub(crate) fn goes_past(front: &[u8], fibres: &[u8]) -> bool
    ensures { result ≡ is_front front.now fibres.now }
{
    front.len() < fibres.len() && fibres.starts_with(front)
}

// The fibre by which these go on from the front, where they begin with it.
fn next_of(front: &[u8], fibres: &[u8]) -> Option<u8>
    ensures begins { (i : ℕ) → begins_with (front.now ++ i ∷ []) fibres.now ≡ leads_by i result }
    ensures small { AllByRecursion (λ i. i < 128) fibres.now → IfSome result (λ i. i < 128) }
{
    if !goes_past(front, fibres) {
        return None;
    }
    Some(fibres[front.len()])
}

// The set with this fibre, if there is one.
fn with_next(used: FibreSet, fibre: Option<u8>) -> FibreSet
    requires { IfSome fibre (λ i. i < 128) }
    ensures { (i : ℕ) → has_member result i ≡ (has_member used i || leads_by i fibre) }
{
    match fibre {
        Some(fibre) => used.with(fibre),
        None => used,
    }
}

// The banned fibres, and those by which one of the found routes goes on from the front.
fn with_used(banned: &FibreSet, found: &[Route], front: &[u8]) -> FibreSet
    requires { AreNumbers found.now }
    ensures { (i : ℕ) → has_member result i ≡ (has_member banned.now i || goes_on found.now front.now i) }
{
    let mut used = banned.copy();
    for route in found {
        used = with_next(used, next_of(front, route.fibres()));
    }
    used
}

// These fibres, and then those.
fn joined(alloc: Global, front: &[u8], rest: &[u8]) -> Result<Vec<u8>, AllocError>
    ensures { IfOk result (λ v. v.items ≡ front.now ++ rest.now) }
{
    let mut fibres = Vec::new(alloc);
    fibres.extend_from_slice(front)?;
    fibres.extend_from_slice(rest)?;
    Ok(fibres)
}

/// The least route that leaves the found ones at the end of the front, if there is one: one run from the node there.
fn deviate<L: Ledger>(
    alloc: Global,
    net: &Net,
    ask: Ask,
    banned: &FibreSet,
    found: &[Route],
    shared: &[u8],
    front: &Front,
    steps: &mut Steps<L>,
) -> Result<Option<Deviation>, AllocError>
    requires source { ask.s < length net.now.nodes }
    requires target { ask.t < length net.now.nodes }
    requires open_routes { IsTrue (list_all (is_open_route net.now ask.s ask.t (has_member banned.now) ask.max_km) found.now) }
    requires shares { IsTrue (is_front_of found.now shared.now) }
    requires stands { StandsAt net.now ask.s ask.max_km shared.now front.now }
    ensures deviation { IfOk result (λ d. option_map seen d ≡ option_map (at_front shared.now) (deviation net.now ask.s ask.t (has_member banned.now) ask.max_km found.now shared.now)) }
    ensures counted { steps.new ≡ steps.old + 1 }
{
    let _ = net.nodes();
    let used = with_used(banned, found, shared);
    let rest = least_walk(
        alloc,
        net,
        front.node,
        ask.t,
        &used,
        &front.passed,
        front.left,
        steps,
    )?;
    let Some(rest) = rest else {
        return Ok(None);
    };
    let fibres = joined(alloc, shared, rest.fibres())?;
    let Some(route) = Route::make(alloc, net, ask.s, ask.t, &fibres)? else {
        unreachable!()
    };
    Ok(Some(Deviation {
        shared: shared.len(),
        route,
    }))
}

// Puts the deviation behind the others, if there is one.
fn put(pool: &mut Vec<Deviation>, deviation: Option<Deviation>) -> Result<(), AllocError>
    ensures { OnOk result (map seen pool.new.items ≡ map seen pool.old.items ++ option_to_list (option_map seen deviation)) }
{
    if let Some(deviation) = deviation {
        pool.push(deviation)?;
    }
    Ok(())
}

/// The deviation at the start, put into an empty pool: one run.
pub(crate) fn begin<L: Ledger>(
    alloc: Global,
    net: &Net,
    ask: Ask,
    banned: &FibreSet,
    steps: &mut Steps<L>,
) -> Result<Vec<Deviation>, AllocError>
    requires source { ask.s < length net.now.nodes }
    requires target { ask.t < length net.now.nodes }
    ensures pool { IfOk result (λ pool. map seen pool.items ≡ deviations_at net.now ask.s ask.t (has_member banned.now) ask.max_km [] ([] ∷ [])) }
    ensures counted { steps.new ≡ steps.old + 1 }
{
    let mut pool = Vec::new(alloc);
    let front = Front::start(ask.s, ask.max_km);
    let deviation = deviate(alloc, net, ask, banned, &[], &[], &front, steps)?;
    put(&mut pool, deviation)?;
    Ok(pool)
}

/// Puts the deviations at all fronts of these fibres of a found route behind the others: one run for each fibre.
pub(crate) fn renew<L: Ledger>(
    alloc: Global,
    net: &Net,
    ask: Ask,
    banned: &FibreSet,
    found: &[Route],
    fibres: &[u8],
    pool: &mut Vec<Deviation>,
    steps: &mut Steps<L>,
) -> Result<(), AllocError>
    requires source { ask.s < length net.now.nodes }
    requires target { ask.t < length net.now.nodes }
    requires open_routes { IsTrue (list_all (is_open_route net.now ask.s ask.t (has_member banned.now) ask.max_km) found.now) }
    requires shares { (front : List ℕ) → IsTrue (is_front front fibres.now) → IsTrue (is_front_of found.now front) }
    requires known { AllByRecursion (λ i. i < length net.now.fibres) fibres.now }
    ensures pool { OnOk result (map seen pool.new.items ≡ map seen pool.old.items ++ deviations_at net.now ask.s ask.t (has_member banned.now) ask.max_km found.now (fronts_of fibres.now)) }
    ensures counted { OnOk result (steps.new ≡ steps.old + length fibres.now) }
    ensures least { steps.old ≤ steps.new }
    ensures most { steps.new ≤ steps.old + length fibres.now }
{
    let _ = net.nodes();
    let mut front = Front::start(ask.s, ask.max_km);
    for (i, fibre) in fibres.iter().enumerate() {
        let deviation = deviate(alloc, net, ask, banned, found, &fibres[..i], &front, steps)?;
        put(pool, deviation)?;
        front = front.past(net, *fibre);
    }
    Ok(())
}
