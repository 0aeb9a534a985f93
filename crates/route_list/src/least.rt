//! The least route that meets no closed node, by the distances from the target.

ghost use Rattle.std.specs.Prelude.{◌≡◌, ℕ, ◌+◌, ◌<◌, ◌≤◌, ◌^◌, length, slice_index, IfOk};
ghost use Rattle.eon_model.specs.Sets.{has_member};
ghost use Rattle.eon_model.specs.Routes.{least_route};
ghost use Rattle.route_list.specs.Distance.{Settled};
ghost use Rattle.route_list.specs.Ways.{keeps_to, IsFirstKeeping, IsLeastWay};

use crate::distance::{MOST_NODES, distances, is_free};
use eon_base::steps::Steps;
use net_graph::{FibreSet, Net, NodeSet, Route};
use std::alloc::{AllocError, Global};
use std::marker::Brand;
use std::sync::ledger::{Blank, Ledger};

// Whether a least way from the node to the target goes on by the fibre.
fn keeps(
    net: &Net,
    banned: &FibreSet,
    closed: &NodeSet,
    away: &[u64; MOST_NODES],
    node: u8,
    fibre: u8,
) -> bool
    requires node { node < 64 }
    requires known { fibre < length net.now.fibres }
    requires small { (n : ℕ) → slice_index away.now n ≤ 2 ^ 32 }
    ensures { result ≡ keeps_to net.now (has_member banned.now) (has_member closed.now) away.now node fibre }
{
    if !is_free(net, banned, closed, fibre) {
        return false;
    }
    let km = net.fibre(fibre).km as u64;
    match net.far_end(fibre, node) {
        Some(next) => away[next as usize] + km == away[node as usize],
        None => false,
    }
}

// The first fibre by which a least way from the node to the target goes on.
fn first_keeping(
    net: &Net,
    banned: &FibreSet,
    closed: &NodeSet,
    away: &[u64; MOST_NODES],
    node: u8,
) -> Option<u8>
    requires node { node < 64 }
    requires small { (n : ℕ) → slice_index away.now n ≤ 2 ^ 32 }
    ensures { IsFirstKeeping net.now (has_member banned.now) (has_member closed.now) away.now node result }
{
    for fibre in 0..net.fibres() {
        if keeps(net, banned, closed, away, node, fibre) {
            return Some(fibre);
        }
    }
    None
}

// The fibres of the least way from the node to the target.
fn least_way(
    alloc: Global,
    net: &Net,
    s: u8,
    t: u8,
    banned: &FibreSet,
    closed: &NodeSet,
    max_km: u32,
    away: &[u64; MOST_NODES],
) -> Result<Vec<u8>, AllocError>
    requires source { s < length net.now.nodes }
    requires settled { Settled net.now (has_member banned.now) (has_member closed.now) t max_km away.now }
    requires within { slice_index away.now s ≤ max_km }
    ensures { IfOk result (λ way. IsLeastWay net.now (has_member banned.now) (has_member closed.now) away.now t s way.items) }
{
    let _ = net.nodes();
    let mut fibres = Vec::new(alloc);
    let mut node = s;
    while node != t {
        let Some(fibre) = first_keeping(net, banned, closed, away, node) else {
            unreachable!()
        };
        let Some(next) = net.far_end(fibre, node) else {
            unreachable!()
        };
        fibres.push(fibre)?;
        node = next;
    }
    Ok(fibres)
}

/// `least_walk`, whose rounds over all fibres are counted: they are no more than there are nodes.
pub fn least_walk_in_rounds<L: Ledger, M: Ledger>(
    alloc: Global,
    net: &Net,
    s: u8,
    t: u8,
    banned: &FibreSet,
    closed: &NodeSet,
    max_km: u32,
    steps: &mut Steps<L>,
    rounds: &mut Steps<M>,
) -> Result<Option<Route>, AllocError>
    requires source { s < length net.now.nodes }
    requires target { t < length net.now.nodes }
    ensures route { IfOk result (λ route. route ≡ least_route net.now s t (has_member banned.now) (has_member closed.now) max_km) }
    ensures counted { steps.new ≡ steps.old + 1 }
    ensures rounds { rounds.new ≤ rounds.old + length net.now.nodes }
{
    steps.tick();
    let _ = net.nodes();
    if closed.has(s) || closed.has(t) {
        return Ok(None);
    }
    let away = distances(net, t, banned, closed, max_km, rounds);
    if away[s as usize] > max_km as u64 {
        return Ok(None);
    }
    let fibres = least_way(alloc, net, s, t, banned, closed, max_km, &away)?;
    Route::make(alloc, net, s, t, &fibres)
}

// The same, with the count of rounds in the ledger of the blank.
fn least_walk_blank<L: Ledger, M: Ledger>(
    blank: Blank,
    alloc: Global,
    net: &Net,
    s: u8,
    t: u8,
    banned: &FibreSet,
    closed: &NodeSet,
    max_km: u32,
    steps: &mut Steps<L>,
) -> Result<Option<Route>, AllocError>
    requires name { blank.name ≡ M.name }
    requires parts { blank.parts ≡ M.parts }
    requires some { 0 < M.parts }
    requires source { s < length net.now.nodes }
    requires target { t < length net.now.nodes }
    ensures route { IfOk result (λ route. route ≡ least_route net.now s t (has_member banned.now) (has_member closed.now) max_km) }
    ensures counted { steps.new ≡ steps.old + 1 }
{
    let mut rounds = Steps::<M>::over(blank);
    least_walk_in_rounds(alloc, net, s, t, banned, closed, max_km, steps, &mut rounds)
}

/// The first route from `s` to `t`, in the order of length and then of names, that uses no banned fibre, visits no
/// closed node and is at most `max_km` long; None exactly where there is none. It is one step, whatever comes of it.
pub fn least_walk<L: Ledger>(
    alloc: Global,
    net: &Net,
    s: u8,
    t: u8,
    banned: &FibreSet,
    closed: &NodeSet,
    max_km: u32,
    steps: &mut Steps<L>,
) -> Result<Option<Route>, AllocError>
    requires source { s < length net.now.nodes }
    requires target { t < length net.now.nodes }
    ensures route { IfOk result (λ route. route ≡ least_route net.now s t (has_member banned.now) (has_member closed.now) max_km) }
    ensures counted { steps.new ≡ steps.old + 1 }
{
    least_walk_blank::<L, Brand>(
        Blank::new(1),
        alloc,
        net,
        s,
        t,
        banned,
        closed,
        max_km,
        steps,
    )
}
