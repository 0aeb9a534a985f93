//! How far it is from each node to the target, over the fibres that are free.

ghost use Rattle.std.specs.Prelude.{◌≡◌, ℕ, ◌+◌, ◌<◌, ◌≤◌, ◌^◌, length, nat_lt, replicate, slice_index, slice_set};
ghost use Rattle.eon_model.specs.Sets.{has_member};
ghost use Rattle.route_list.specs.Distance.{is_free, shortened, Reached, Settled, Rounds, IsRelaxed, Lowers};

use eon_base::steps::Steps;
use net_graph::{FibreSet, Net, NodeSet};
use std::sync::ledger::Ledger;

/// The most nodes of a network.
pub(crate) const MOST_NODES: usize = 64;

/// Whether a walk may take the fibre: it is not banned, and none of its ends is closed.
pub(crate) fn is_free(net: &Net, banned: &FibreSet, closed: &NodeSet, fibre: u8) -> bool
    requires { fibre < length net.now.fibres }
    ensures { result ≡ is_free net.now (has_member banned.now) (has_member closed.now) fibre }
{
    let _ = net.fibres();
    let ends = net.fibre(fibre);
    !banned.has(fibre) && !closed.has(ends.a) && !closed.has(ends.b)
}

// Notes the way from the node over this many km to the next one, where it is shorter than what was known.
fn shorten(away: &mut [u64; MOST_NODES], node: u8, next: u8, km: u32) -> bool
    requires node { node < 64 }
    requires next { next < 64 }
    requires small { slice_index away.old next ≤ 2 ^ 32 }
    ensures away { away.new ≡ shortened away.old node next km }
    ensures shorter { result ≡ nat_lt (slice_index away.old next + km) (slice_index away.old node) }
{
    let km = away[next as usize] + km as u64;
    if km >= away[node as usize] {
        return false;
    }
    away[node as usize] = km;
    true
}

// Notes both ways over the fibre, and whether one was shorter than what was known.
fn relax(
    net: &Net,
    banned: &FibreSet,
    closed: &NodeSet,
    fibre: u8,
    max_km: u32,
    t: u8,
    away: &mut [u64; MOST_NODES],
) -> bool
    requires known { fibre < length net.now.fibres }
    requires reached { Reached net.now (has_member banned.now) (has_member closed.now) t max_km away.old }
    ensures round { Rounds net.now (has_member banned.now) (has_member closed.now) t max_km (IsRelaxed net.now (has_member banned.now) (has_member closed.now) fibre) away.old away.new result }
    ensures lower { Lowers net.now (has_member banned.now) (has_member closed.now) (λ i. i ≡ fibre) away.old away.new }
{
    let _ = net.fibres();
    if !is_free(net, banned, closed, fibre) {
        return false;
    }
    let ends = net.fibre(fibre);
    let there = shorten(away, ends.a, ends.b, ends.km);
    let back = shorten(away, ends.b, ends.a, ends.km);
    there || back
}

// The same over all fibres.
fn relax_all(
    net: &Net,
    banned: &FibreSet,
    closed: &NodeSet,
    max_km: u32,
    t: u8,
    away: &mut [u64; MOST_NODES],
) -> bool
    requires reached { Reached net.now (has_member banned.now) (has_member closed.now) t max_km away.old }
    ensures round { Rounds net.now (has_member banned.now) (has_member closed.now) t max_km (λ xs. (i : ℕ) → i < length net.now.fibres → IsRelaxed net.now (has_member banned.now) (has_member closed.now) i xs) away.old away.new result }
    ensures lower { Lowers net.now (has_member banned.now) (has_member closed.now) (λ i. i < length net.now.fibres) away.old away.new }
{
    let mut shorter = false;
    for fibre in 0..net.fibres() {
        shorter = relax(net, banned, closed, fibre, max_km, t, away) || shorter;
    }
    shorter
}

// Nothing but the target is within the limit.
fn at_first(t: u8, far: u64) -> [u64; MOST_NODES]
    requires { t < 64 }
    ensures { result ≡ slice_set (replicate 64 far) t 0 }
{
    let mut away = [far; MOST_NODES];
    away[t as usize] = 0;
    away
}

/// How many km it is at least from each node to the target over free fibres; more than the limit where it is not
/// within it. It goes over all fibres in rounds, until nothing gets shorter: at most as often as there are nodes.
pub(crate) fn distances<L: Ledger>(
    net: &Net,
    t: u8,
    banned: &FibreSet,
    closed: &NodeSet,
    max_km: u32,
    rounds: &mut Steps<L>,
) -> [u64; MOST_NODES]
    requires { t < length net.now.nodes }
    ensures settled { Settled net.now (has_member banned.now) (has_member closed.now) t max_km result }
    ensures rounds { rounds.new ≤ rounds.old + length net.now.nodes }
{
    let nodes = net.nodes();
    let mut away = at_first(t, max_km as u64 + 1);
    for _round in 0..nodes {
        rounds.tick();
        if !relax_all(net, banned, closed, max_km, t, &mut away) {
            return away;
        }
    }
    away
}
