//! The candidates of a demand over routes that are given.

ghost use Rattle.std.specs.Prelude.{◌≡◌, ℕ, ◌≤◌, ◌++◌, map, Option, IfOk, OnOk, IfSome, IsTrue};
ghost use Rattle.std.specs.List.{filter_map};
ghost use Rattle.std.specs.Option.{option_to_list};
ghost use Rattle.eon_model.specs.Candidates.{sized, candidates_over};
ghost use Rattle.eon_model.specs.NetworkText.{is_setup};
ghost use Rattle.pair_list.specs.Given.{works_of, backups_for};

use crate::demand::{Demand, PairList, put_backups};
use crate::reach::sized_at;
use leg_state::{Class, Pair, Spare};
use net_graph::RouteList;
use net_setup::NetSetup;
use std::alloc::{AllocError, Global};

// Puts the candidates with this working route, and these backups of it, behind the pairs, if there is one.
fn put_given(
    alloc: Global,
    setup: &NetSetup,
    demand: Demand,
    work: Option<Spare>,
    backups: &RouteList,
    pairs: &mut Vec<Pair>,
) -> Result<(), AllocError>
    requires { IfSome work (λ w. backups.now ≡ backups_for setup.now demand.s demand.t demand.class w.route) }
    ensures { OnOk result (pairs.new.items ≡ pairs.old.items ++ candidates_over setup.now demand.s demand.t demand.rate demand.class (option_to_list work)) }
{
    let Some(work) = work else {
        return Ok(());
    };
    match demand.class {
        Class::Shared | Class::Dual => put_backups(alloc, setup, demand, &work, backups, pairs),
        Class::Bare => {
            pairs.push(Pair {
                work: work.route,
                work_m: work.m,
                back: None,
            })?;
            Ok(())
        }
    }
}

// Puts the candidates with each of these working routes behind the pairs.
fn put_each_given(
    alloc: Global,
    setup: &NetSetup,
    demand: Demand,
    works: &RouteList,
    backups: &[RouteList],
    pairs: &mut Vec<Pair>,
) -> Result<(), AllocError>
    requires { backups.now ≡ map (backups_for setup.now demand.s demand.t demand.class) works.now }
    ensures { OnOk result (pairs.new.items ≡ pairs.old.items ++ candidates_over setup.now demand.s demand.t demand.rate demand.class (filter_map (sized setup.now demand.rate) works.now)) }
{
    for i in 0..works.len() {
        let work = sized_at(alloc, setup, demand.rate, works, i)?;
        put_given(alloc, setup, demand, work, &backups[i], pairs)?;
    }
    Ok(())
}

/// The candidates of a demand of `rate` Gbit/s from `s` to `t` over working routes that were searched for, each with the
/// backups at its place: none for a bare demand, and else those of `backups_of`. Nothing is searched.
pub fn pairs_over(
    alloc: Global,
    setup: &NetSetup,
    s: u8,
    t: u8,
    rate: u32,
    class: Class,
    works: &RouteList,
    backups: &[RouteList],
) -> Result<PairList, AllocError>
    requires setup { IsTrue (is_setup setup.now) }
    requires rate { 1 ≤ rate }
    requires rate_limit { rate ≤ 60000 }
    requires works { (avoid : Option ℕ) × (works.now ≡ works_of setup.now s t avoid) }
    requires backups { backups.now ≡ map (backups_for setup.now s t class) works.now }
    ensures { IfOk result (λ ps. ps ≡ candidates_over setup.now s t rate class (filter_map (sized setup.now rate) works.now)) }
{
    let demand = Demand { s, t, rate, class };
    let mut pairs = Vec::new(alloc);
    put_each_given(alloc, setup, demand, works, backups, &mut pairs)?;
    Ok(PairList { pairs })
}
