//! The table of what was searched for.

ghost use Rattle.std.specs.Prelude.{◌≡◌, ℕ, ◌<◌, ◌≤◌, length, slice_get, Some, IfOk, IfSome, IsTrue};
ghost use Rattle.std.specs.Option.{option_map};
ghost use Rattle.eon_model.specs.Candidates.{max_reach, is_avoided};
ghost use Rattle.eon_model.specs.NetworkText.{is_setup};
ghost use Rattle.eon_model.specs.Routes.{first_routes};
ghost use Rattle.eon_model.specs.Legal.{Setup};
ghost use Rattle.indexmap.specs.IndexMap.{index_map_len};
ghost use Rattle.pair_list.specs.Given.{works_of, backups_of};
ghost use Rattle.kept_routes.specs.Kept.{found_by, AreFound};

use crate::noted_setup::NotedSetup;
use indexmap::IndexMap;
use net_graph::RouteList;
use net_setup::NetSetup;
use pair_list::{avoided, backups_of, routes_within};
use std::alloc::{AllocError, Global};
use std::marker::Model;

/// The most searches whose routes are kept.
const MOST_KEPT: usize = 4096;

// What is searched for: the routes between two nodes that leave out a fibre, if there is one to avoid; or the backups
// behind one of these, by its rank.
#[derive(Clone, Copy, Debug, PartialEq, Eq, Hash)]
struct Search {
    s: u8,
    t: u8,
    avoid: Option<u8>,
    behind: Option<usize>,
}

/// What was searched for on one network, and the routes that were found. A contract sees the network: what is kept is
/// what a search on it gives. It keeps at most 4,096 lists; one more, and it begins anew.
#[derive(Drop)]
pub struct KeptRoutes {
    map: IndexMap<Search, RouteList>,
    setup: NotedSetup,
}

impl Model for KeptRoutes {
    ghost use Rattle.eon_model.specs.Legal.{Setup};
    ghost use Rattle.eon_model.specs.SetupCodes.{setup_code};
    ghost use Rattle.indexmap.specs.IndexMap.{index_map_len};
    ghost use Rattle.kept_routes.specs.Kept.{AreFound};
    ghost use Rattle.std.specs.Prelude.{◌≤◌};

    ghost Value = { Setup };

    ghost coded = { setup_code };

    ghost view = { λ k. k.setup.setup };

    ghost invariant = { λ k. (index_map_len k.map ≤ 4096) × AreFound k.setup.setup k.map.entries };
}

// A copy of the routes.
fn copy_of(alloc: Global, routes: &RouteList) -> Result<RouteList, AllocError>
    ensures { IfOk result (λ copy. copy ≡ routes.now) }
{
    let mut copies = Vec::new(alloc);
    for i in 0..routes.len() {
        copies.push(routes.at(i).copy(alloc)?)?;
    }
    Ok(RouteList::of(copies))
}

// The routes that are kept with the search, if there are any.
fn find<'a>(map: &'a IndexMap<Search, RouteList>, search: &Search) -> Option<&'a RouteList>
    ensures { (setup : Setup) → AreFound setup map.now.entries → IfSome result (λ rs. rs.now ≡ found_by setup search.now) }
{
    map.get(search)
}

// Lets all go where the table is full.
fn make_room(map: &mut IndexMap<Search, RouteList>)
    ensures room { index_map_len map.new < 4096 }
    ensures found { (setup : Setup) → AreFound setup map.old.entries → AreFound setup map.new.entries }
{
    if map.len() >= MOST_KEPT {
        map.clear();
    }
}

// Keeps the routes with the search, if there is memory for it.
fn put(map: &mut IndexMap<Search, RouteList>, search: Search, routes: RouteList)
    requires { index_map_len map.old < 4096 }
    ensures few { index_map_len map.new ≤ 4096 }
    ensures found { (setup : Setup) → routes ≡ found_by setup search → AreFound setup map.old.entries → AreFound setup map.new.entries }
{
    let _ = map.insert(search, routes);
}

impl KeptRoutes {
    /// A table for this network that keeps nothing yet.
    pub fn new(alloc: Global, setup: &NetSetup) -> KeptRoutes
        ensures { result ≡ setup.now }
    {
        KeptRoutes {
            map: IndexMap::new(alloc),
            setup: NotedSetup::of(setup),
        }
    }

    // Keeps what the search gave, if there is memory for it.
    fn keep(&mut self, alloc: Global, search: Search, routes: &RouteList)
        requires { routes.now ≡ found_by self.old search }
        ensures { self.new ≡ self.old }
    {
        let Ok(routes) = copy_of(alloc, routes) else {
            return;
        };
        make_room(&mut self.map);
        put(&mut self.map, search, routes);
    }

    /// The first routes from `s` to `t` within the greatest reach of the table that leave out the fibre to avoid, as
    /// `routes_within` gives them. They are taken from what is kept, or are searched for and then kept; where there is no
    /// memory to keep them, they are not kept.
    pub fn routes_kept(
        &mut self,
        alloc: Global,
        setup: &NetSetup,
        s: u8,
        t: u8,
        avoid: Option<u8>,
    ) -> Result<RouteList, AllocError>
        requires same { self.old ≡ setup.now }
        requires setup { IsTrue (is_setup setup.now) }
        requires source { s < length setup.now.network.nodes }
        requires target { t < length setup.now.network.nodes }
        requires avoid { IfSome avoid (λ fibre. fibre < length setup.now.network.fibres) }
        ensures routes { IfOk result (λ rs. rs ≡ first_routes setup.now.network s t (is_avoided avoid) setup.now.k (max_reach setup.now.formats)) }
        ensures same { self.new ≡ self.old }
    {
        let search = Search {
            s,
            t,
            avoid,
            behind: None,
        };
        if let Some(routes) = find(&self.map, &search) {
            return copy_of(alloc, routes);
        }
        let routes = routes_within(alloc, setup, s, t, &avoided(avoid))?;
        self.keep(alloc, search, &routes);
        Ok(routes)
    }

    /// The backups behind the working route of this rank, as `backups_of` gives them. The working routes are those of
    /// `routes_kept` for the same nodes and the same fibre to avoid. What is said of memory there holds here.
    pub fn backups_kept(
        &mut self,
        alloc: Global,
        setup: &NetSetup,
        s: u8,
        t: u8,
        avoid: Option<u8>,
        works: &RouteList,
        rank: usize,
    ) -> Result<RouteList, AllocError>
        requires same { self.old ≡ setup.now }
        requires source { s < length setup.now.network.nodes }
        requires target { t < length setup.now.network.nodes }
        requires works { works.now ≡ works_of setup.now s t avoid }
        requires rank { rank < length works.now }
        ensures backups { IfOk result (λ rs. Some rs ≡ option_map (backups_of setup.now s t) (slice_get works.now rank)) }
        ensures same { self.new ≡ self.old }
    {
        let search = Search {
            s,
            t,
            avoid,
            behind: Some(rank),
        };
        if let Some(routes) = find(&self.map, &search) {
            return copy_of(alloc, routes);
        }
        let routes = backups_of(alloc, setup, s, t, works.at(rank))?;
        self.keep(alloc, search, &routes);
        Ok(routes)
    }
}
