//! Routes within reach, with the slot widths that a rate needs on them.

ghost use Rattle.std.specs.Prelude.{◌≡◌, ℕ, ◌+◌, ◌<◌, ◌≤◌, length, slice_get, Option, IfOk};
ghost use Rattle.std.specs.Option.{option_and_then};
ghost use Rattle.eon_model.specs.Candidates.{max_reach, sized};
ghost use Rattle.eon_model.specs.Routes.{first_routes};
ghost use Rattle.eon_model.specs.Sets.{has_member};
ghost use Rattle.pair_list.specs.Given.{backups_of};
ghost use Rattle.pair_list.specs.Runs.{runs_within, most_within};

use crate::sharers::sharers;
use eon_base::steps::Steps;
use leg_state::Spare;
use net_graph::{FibreSet, Route, RouteList};
use net_setup::NetSetup;
use reach_table::table::need;
use route_list::routes;
use std::alloc::{AllocError, Global};
use std::marker::Brand;
use std::sync::ledger::{Blank, Ledger};

/// `routes_within`, whose runs of `least_walk` are counted.
pub fn routes_within_counted<L: Ledger>(
    alloc: Global,
    setup: &NetSetup,
    s: u8,
    t: u8,
    banned: &FibreSet,
    steps: &mut Steps<L>,
) -> Result<RouteList, AllocError>
    requires source { s < length setup.now.network.nodes }
    requires target { t < length setup.now.network.nodes }
    ensures routes { IfOk result (λ rs. rs ≡ first_routes setup.now.network s t (has_member banned.now) setup.now.k (max_reach setup.now.formats)) }
    ensures runs { IfOk result (λ rs. steps.new ≡ steps.old + runs_within setup.now s t (has_member banned.now)) }
    ensures most { steps.new ≤ steps.old + most_within setup.now }
{
    let max_km = setup.table.max_reach();
    routes(alloc, &setup.net, s, t, banned, setup.k, max_km, steps)
}

// The same, with the count of steps in the ledger of the blank.
fn routes_within_blank<L: Ledger>(
    blank: Blank,
    alloc: Global,
    setup: &NetSetup,
    s: u8,
    t: u8,
    banned: &FibreSet,
) -> Result<RouteList, AllocError>
    requires name { blank.name ≡ L.name }
    requires parts { blank.parts ≡ L.parts }
    requires some { 0 < L.parts }
    requires source { s < length setup.now.network.nodes }
    requires target { t < length setup.now.network.nodes }
    ensures { IfOk result (λ rs. rs ≡ first_routes setup.now.network s t (has_member banned.now) setup.now.k (max_reach setup.now.formats)) }
{
    let mut steps = Steps::<L>::over(blank);
    routes_within_counted(alloc, setup, s, t, banned, &mut steps)
}

/// The first routes from node `s` to node `t` that are within the greatest reach of the table and use no banned fibre:
/// as many as the network lists, the shorter first, and of one length the one whose list of names comes first.
pub fn routes_within(
    alloc: Global,
    setup: &NetSetup,
    s: u8,
    t: u8,
    banned: &FibreSet,
) -> Result<RouteList, AllocError>
    requires source { s < length setup.now.network.nodes }
    requires target { t < length setup.now.network.nodes }
    ensures { IfOk result (λ rs. rs ≡ first_routes setup.now.network s t (has_member banned.now) setup.now.k (max_reach setup.now.formats)) }
{
    routes_within_blank::<Brand>(Blank::new(1), alloc, setup, s, t, banned)
}

/// The first routes from node `s` to node `t` that are within the greatest reach of the table and share no group with the
/// working route, in the order of `routes_within`.
pub fn backups_of(
    alloc: Global,
    setup: &NetSetup,
    s: u8,
    t: u8,
    work: &Route,
) -> Result<RouteList, AllocError>
    requires source { s < length setup.now.network.nodes }
    requires target { t < length setup.now.network.nodes }
    ensures { IfOk result (λ rs. rs ≡ backups_of setup.now s t work.now) }
{
    let banned = sharers(&setup.net, &work.risk());
    routes_within(alloc, setup, s, t, &banned)
}

/// The route at this place with the slot width that the rate needs; None where no format reaches so far.
pub(crate) fn sized_at(
    alloc: Global,
    setup: &NetSetup,
    rate: u32,
    routes: &RouteList,
    i: usize,
) -> Result<Option<Spare>, AllocError>
    requires place { i < length routes.now }
    requires rate { 1 ≤ rate }
    requires rate_limit { rate ≤ 60000 }
    ensures { IfOk result (λ o. o ≡ option_and_then (sized setup.now rate) (slice_get routes.now i)) }
{
    let route = routes.at(i);
    let Some(m) = need(&setup.table, rate, route.km()) else {
        return Ok(None);
    };
    let route = route.copy(alloc)?;
    Ok(Some(Spare { route, m }))
}
