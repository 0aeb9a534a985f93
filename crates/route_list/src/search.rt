//! The first routes, one after another: each is the earliest of the deviations from those before it.

ghost use Rattle.std.specs.Prelude.{◌≡◌, ℕ, ◌+◌, ◌*◌, ◌<◌, ◌≤◌, length, map, filter, false, not, slice_index_or, take, IfOk};
ghost use Rattle.std.specs.Ordering.{is_lt};
ghost use Rattle.eon_model.specs.Routes.{first_routes};
ghost use Rattle.eon_model.specs.Sets.{has_member};
ghost use Rattle.eon_model.specs.Deviations.{is_front};
ghost use Rattle.route_list.specs.declared.deviation.Deviation.{Deviation as Entry};
ghost use Rattle.route_list.specs.Fronts.{seen};
ghost use Rattle.route_list.specs.Pools.{numbers_cmp, IsTaken, runs_for};

use crate::deviation::{Ask, Deviation, begin, goes_past, renew};
use eon_base::steps::Steps;
use net_graph::{FibreSet, Net, Route, RouteList};
use std::alloc::{AllocError, Global};
use std::sync::ledger::Ledger;

// Whether the first of the two comes before the other: it is shorter, or as long and its list of numbers is less.
fn comes_before(a: &Route, b: &Route) -> bool
    ensures { result ≡ is_lt (numbers_cmp a.now b.now) }
{
    let by_length = a.km().cmp(&b.km());
    by_length.then(a.fibres().cmp(b.fibres())).is_lt()
}

// The place of the earliest of these.
fn earliest(pool: &[Deviation]) -> usize
    requires { 0 < length pool.now }
    ensures inside { result < length pool.now }
    ensures first { (j : ℕ) (d : Entry) → j < length pool.now → is_lt (numbers_cmp (slice_index_or pool.now j d).route (slice_index_or pool.now result d).route) ≡ false }
{
    let mut best = 0;
    for i in 1..pool.len() {
        if comes_before(&pool[i].route, &pool[best].route) {
            best = i;
        }
    }
    best
}

// Takes the earliest route out of the pool.
fn take_earliest(pool: &mut Vec<Deviation>) -> Option<Route>
    ensures { IsTaken (map seen pool.old.items) (map seen pool.new.items) result }
{
    if pool.is_empty() {
        return None;
    }
    let best = earliest(pool);
    let Deviation { shared: _, route } = pool.remove(best);
    Some(route)
}

// Whether these fibres begin with so many of the route's, and go on.
fn begin_with(fibres: &[u8], deviation: &Deviation) -> bool
    ensures { result ≡ is_front (seen deviation.now).front fibres.now }
{
    let own = deviation.route.fibres();
    goes_past(&own[..deviation.shared.min(own.len())], fibres)
}

// Lets those go whose front is one of these fibres.
fn forget(pool: &mut Vec<Deviation>, fibres: &[u8])
    ensures { map seen pool.new.items ≡ filter (λ d. not (is_front d.front fibres.now)) (map seen pool.old.items) }
{
    pool.retain(
        |deviation: &Deviation| -> bool
            ensures { result ≡ not (is_front (seen deviation.now).front fibres.entry.now) }
        { !begin_with(fibres, deviation) },
    );
}

/// The first `k` routes from `s` to `t` without a banned fibre and at most `max_km` long, in order: the shorter first,
/// and of one length the one whose list of names comes first. All of them where there are fewer. Each run of
/// `least_walk` is one step: the first one, and then one at each node of each route but the last of `k`, its end aside.
pub fn routes<L: Ledger>(
    alloc: Global,
    net: &Net,
    s: u8,
    t: u8,
    banned: &FibreSet,
    k: u8,
    max_km: u32,
    steps: &mut Steps<L>,
) -> Result<RouteList, AllocError>
    requires source { s < length net.now.nodes }
    requires target { t < length net.now.nodes }
    ensures routes { IfOk result (λ rs. rs ≡ first_routes net.now s t (has_member banned.now) k max_km) }
    ensures counted { steps.old ≤ steps.new }
    ensures least { IfOk result (λ rs. steps.old + length rs ≤ steps.new) }
    ensures runs { IfOk result (λ rs. steps.new ≡ steps.old + runs_for k rs) }
    ensures most { steps.new ≤ steps.old + 1 + k * length net.now.nodes }
{
    let _ = net.nodes();
    let mut found = Vec::new(alloc);
    if k == 0 {
        return Ok(RouteList::of(found));
    }
    let ask = Ask { s, t, max_km };
    let mut pool = begin(alloc, net, ask, banned, steps)?;
    while let Some(route) = take_earliest(&mut pool) {
        forget(&mut pool, route.fibres());
        found.push(route)?;
        if found.len() >= k as usize {
            return Ok(RouteList::of(found));
        }
        let last = found[found.len() - 1].fibres();
        renew(alloc, net, ask, banned, &found, last, &mut pool, steps)?;
    }
    Ok(RouteList::of(found))
}
