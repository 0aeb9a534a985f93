//! The candidates of a demand, over routes that are kept.

ghost use Rattle.std.specs.Prelude.{◌≡◌, ℕ, ◌<◌, ◌≤◌, length, map, slice_get, Some, IfOk, IfSome, IsTrue};
ghost use Rattle.std.specs.List.{list_all};
ghost use Rattle.std.specs.Option.{option_map};
ghost use Rattle.eon_model.specs.Candidates.{candidates};
ghost use Rattle.eon_model.specs.NetworkText.{is_setup};
ghost use Rattle.pair_list.specs.Given.{works_of, backups_for};
ghost use Rattle.pair_list.specs.Sized.{is_sized_candidate};

use crate::table::KeptRoutes;
use net_graph::RouteList;
use net_setup::NetSetup;
use pair_list::{Class, PairList, pairs_over};
use std::alloc::{AllocError, Global};

// Whose backups are sought: those of a demand of this class between two nodes, whose working routes leave out a fibre,
// if there is one to avoid.
#[derive(Clone, Copy)]
struct Demand {
    s: u8,
    t: u8,
    class: Class,
    avoid: Option<u8>,
}

// The backups for the working route of this rank; none for a bare demand.
fn backups_at(
    alloc: Global,
    kept: &mut KeptRoutes,
    setup: &NetSetup,
    demand: Demand,
    works: &RouteList,
    rank: usize,
) -> Result<RouteList, AllocError>
    requires same { kept.old ≡ setup.now }
    requires source { demand.s < length setup.now.network.nodes }
    requires target { demand.t < length setup.now.network.nodes }
    requires works { works.now ≡ works_of setup.now demand.s demand.t demand.avoid }
    requires rank { rank < length works.now }
    ensures backups { IfOk result (λ rs. Some rs ≡ option_map (backups_for setup.now demand.s demand.t demand.class) (slice_get works.now rank)) }
    ensures same { kept.new ≡ kept.old }
{
    match demand.class {
        Class::Shared | Class::Dual => {
            kept.backups_kept(alloc, setup, demand.s, demand.t, demand.avoid, works, rank)
        }
        Class::Bare => Ok(RouteList::of(Vec::new(alloc))),
    }
}

// The backups for each working route.
fn backups_for_each(
    alloc: Global,
    kept: &mut KeptRoutes,
    setup: &NetSetup,
    demand: Demand,
    works: &RouteList,
) -> Result<Vec<RouteList>, AllocError>
    requires same { kept.old ≡ setup.now }
    requires source { demand.s < length setup.now.network.nodes }
    requires target { demand.t < length setup.now.network.nodes }
    requires works { works.now ≡ works_of setup.now demand.s demand.t demand.avoid }
    ensures backups { IfOk result (λ bs. bs.items ≡ map (backups_for setup.now demand.s demand.t demand.class) works.now) }
    ensures same { kept.new ≡ kept.old }
{
    let mut backups = Vec::new(alloc);
    for rank in 0..works.len() {
        let behind = backups_at(alloc, kept, setup, demand, works, rank)?;
        backups.push(behind)?;
    }
    Ok(backups)
}

/// The candidates of a demand, as `pairs` gives them. The routes of which they are made are taken from what is kept, or are
/// searched for and then kept; where there is no memory to keep them, they are not kept.
pub fn pairs_kept(
    alloc: Global,
    kept: &mut KeptRoutes,
    setup: &NetSetup,
    s: u8,
    t: u8,
    rate: u32,
    class: Class,
    avoid: Option<u8>,
) -> Result<PairList, AllocError>
    requires same { kept.old ≡ setup.now }
    requires setup { IsTrue (is_setup setup.now) }
    requires source { s < length setup.now.network.nodes }
    requires target { t < length setup.now.network.nodes }
    requires rate { 1 ≤ rate }
    requires rate_limit { rate ≤ 60000 }
    requires avoid { IfSome avoid (λ fibre. fibre < length setup.now.network.fibres) }
    ensures pairs { IfOk result (λ ps. ps ≡ candidates setup.now s t rate class avoid) }
    ensures sized { IfOk result (λ ps. IsTrue (list_all (is_sized_candidate setup.now s t rate) ps)) }
    ensures same { kept.new ≡ kept.old }
{
    let works = kept.routes_kept(alloc, setup, s, t, avoid)?;
    let demand = Demand { s, t, class, avoid };
    let backups = backups_for_each(alloc, kept, setup, demand, &works)?;
    pairs_over(alloc, setup, s, t, rate, class, &works, &backups)
}
