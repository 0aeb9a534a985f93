//! The candidates of a demand, in order.

ghost use Rattle.std.specs.Prelude.{◌≡◌, ℕ, ◌+◌, ◌*◌, ◌<◌, ◌≤◌, List, [], ◌∷◌, ◌++◌, length, map, slice_get, Option, Some, IfOk, OnOk, IfSome, IsTrue};
ghost use Rattle.std.specs.List.{filter_map, list_all};
ghost use Rattle.std.specs.Option.{option_to_list};
ghost use Rattle.eon_model.specs.Candidates.{sized, with_backup, backed, candidates_over, candidates};
ghost use Rattle.eon_model.specs.NetworkText.{is_setup};
ghost use Rattle.pair_list.specs.Runs.{runs_behind, runs_over, runs_of_demand, most_within, most_behind, most_for_demand};
ghost use Rattle.pair_list.specs.Sized.{is_sized_candidate};

use crate::reach::{routes_within_counted, sized_at};
use crate::sharers::{avoided, sharers};
use eon_base::steps::Steps;
use leg_state::{Class, Pair, Spare};
use net_graph::RouteList;
use net_setup::NetSetup;
use std::alloc::{AllocError, Global};
use std::marker::{Brand, Model};
use std::sync::ledger::{Blank, Ledger};

/// The candidates of a demand, in the order in which they are tried. There are at most 256.
#[derive(Drop)]
pub struct PairList {
    pub(crate) pairs: Vec<Pair>,
}

impl Model for PairList {
    ghost use Rattle.std.specs.Prelude.{◌≤◌, List, length};
    ghost use Rattle.std.specs.Coded.{coded_list};
    ghost use Rattle.eon_model.specs.Candidates.{Candidate};
    ghost use Rattle.leg_state.specs.Parts.{candidate_code};

    ghost Value = { List Candidate };

    ghost coded = { coded_list candidate_code };

    ghost view = { λ p. p.pairs.items };

    ghost invariant = { λ p. length p.pairs.items ≤ 256 };
}

impl PairList {
    /// How many there are.
    pub fn len(&self) -> u16
        ensures count { result ≡ length self.now }
        ensures few { result ≤ 256 }
    {
        self.pairs.len() as u16
    }

    /// All of them, in order.
    pub fn as_slice(&self) -> &[Pair]
        ensures { result.now ≡ self.now }
    {
        &self.pairs
    }

    /// Takes the pair of this rank, which is below `len`, and lets the others go.
    pub fn take(mut self, i: u16) -> Pair
        requires { i < length self }
        ensures { slice_get self i ≡ Some result }
    {
        self.pairs.swap_remove(i as usize)
    }
}

// What is asked: the two nodes, the rate in Gbit/s, and whether there is a backup.
#[derive(Clone, Copy)]
pub(crate) struct Demand {
    pub(crate) s: u8,
    pub(crate) t: u8,
    pub(crate) rate: u32,
    pub(crate) class: Class,

    ghost some_rate: { 1 ≤ rate },
    ghost rate_limit: { rate ≤ 60000 },
}

// Puts the working route with this backup behind the pairs, if there is one.
fn put_backup(
    alloc: Global,
    work: &Spare,
    back: Option<Spare>,
    pairs: &mut Vec<Pair>,
) -> Result<(), AllocError>
    ensures { OnOk result (pairs.new.items ≡ pairs.old.items ++ map (with_backup work.now) (option_to_list back)) }
{
    let Some(back) = back else {
        return Ok(());
    };
    let route = work.route.copy(alloc)?;
    pairs.push(Pair {
        work: route,
        work_m: work.m,
        back: Some(back),
    })?;
    Ok(())
}

// Puts the working route with each of these backups that the rate reaches over behind the pairs.
pub(crate) fn put_backups(
    alloc: Global,
    setup: &NetSetup,
    demand: Demand,
    work: &Spare,
    backups: &RouteList,
    pairs: &mut Vec<Pair>,
) -> Result<(), AllocError>
    ensures { OnOk result (pairs.new.items ≡ pairs.old.items ++ map (with_backup work.now) (filter_map (sized setup.now demand.rate) backups.now)) }
{
    for i in 0..backups.len() {
        let back = sized_at(alloc, setup, demand.rate, backups, i)?;
        put_backup(alloc, work, back, pairs)?;
    }
    Ok(())
}

// Puts the working route with each backup that shares no group with it behind the pairs.
fn put_protected<L: Ledger>(
    alloc: Global,
    setup: &NetSetup,
    demand: Demand,
    work: &Spare,
    pairs: &mut Vec<Pair>,
    steps: &mut Steps<L>,
) -> Result<(), AllocError>
    requires source { demand.s < length setup.now.network.nodes }
    requires target { demand.t < length setup.now.network.nodes }
    ensures pairs { OnOk result (pairs.new.items ≡ pairs.old.items ++ backed setup.now demand.s demand.t demand.rate work.now) }
    ensures runs { OnOk result (steps.new ≡ steps.old + runs_behind setup.now demand.s demand.t work.now) }
    ensures most { steps.new ≤ steps.old + most_within setup.now }
{
    let banned = sharers(&setup.net, &work.route.risk());
    let backups = routes_within_counted(alloc, setup, demand.s, demand.t, &banned, steps)?;
    put_backups(alloc, setup, demand, work, &backups, pairs)
}

// Puts the candidates with this working route behind the pairs, if there is one.
fn put_work<L: Ledger>(
    alloc: Global,
    setup: &NetSetup,
    demand: Demand,
    work: Option<Spare>,
    pairs: &mut Vec<Pair>,
    steps: &mut Steps<L>,
) -> Result<(), AllocError>
    requires source { demand.s < length setup.now.network.nodes }
    requires target { demand.t < length setup.now.network.nodes }
    ensures pairs { OnOk result (pairs.new.items ≡ pairs.old.items ++ candidates_over setup.now demand.s demand.t demand.rate demand.class (option_to_list work)) }
    ensures runs { OnOk result (steps.new ≡ steps.old + runs_over setup.now demand.s demand.t demand.class (option_to_list work)) }
    ensures most { steps.new ≤ steps.old + most_behind setup.now demand.class }
{
    let Some(work) = work else {
        return Ok(());
    };
    match demand.class {
        Class::Shared | Class::Dual => put_protected(alloc, setup, demand, &work, pairs, steps),
        Class::Bare => {
            pairs.push(Pair {
                work: work.route,
                work_m: work.m,
                back: None,
            })?;
            Ok(())
        }
    }
}

// Puts the candidates with each of these working routes behind the pairs.
fn put_works<L: Ledger>(
    alloc: Global,
    setup: &NetSetup,
    demand: Demand,
    works: &RouteList,
    pairs: &mut Vec<Pair>,
    steps: &mut Steps<L>,
) -> Result<(), AllocError>
    requires source { demand.s < length setup.now.network.nodes }
    requires target { demand.t < length setup.now.network.nodes }
    ensures pairs { OnOk result (pairs.new.items ≡ pairs.old.items ++ candidates_over setup.now demand.s demand.t demand.rate demand.class (filter_map (sized setup.now demand.rate) works.now)) }
    ensures runs { OnOk result (steps.new ≡ steps.old + runs_over setup.now demand.s demand.t demand.class (filter_map (sized setup.now demand.rate) works.now)) }
    ensures most { steps.new ≤ steps.old + length works.now * most_behind setup.now demand.class }
{
    for i in 0..works.len() {
        let work = sized_at(alloc, setup, demand.rate, works, i)?;
        put_work(alloc, setup, demand, work, pairs, steps)?;
    }
    Ok(())
}

/// `pairs`, whose runs of `least_walk` are counted: those for the working routes, and for each working route of a
/// protected demand those for its backups.
pub fn pairs_counted<L: Ledger>(
    alloc: Global,
    setup: &NetSetup,
    s: u8,
    t: u8,
    rate: u32,
    class: Class,
    avoid: Option<u8>,
    steps: &mut Steps<L>,
) -> Result<PairList, AllocError>
    requires setup { IsTrue (is_setup setup.now) }
    requires source { s < length setup.now.network.nodes }
    requires target { t < length setup.now.network.nodes }
    requires rate { 1 ≤ rate }
    requires rate_limit { rate ≤ 60000 }
    requires avoid { IfSome avoid (λ fibre. fibre < length setup.now.network.fibres) }
    ensures pairs { IfOk result (λ ps. ps ≡ candidates setup.now s t rate class avoid) }
    ensures sized { IfOk result (λ ps. IsTrue (list_all (is_sized_candidate setup.now s t rate) ps)) }
    ensures runs { IfOk result (λ ps. steps.new ≡ steps.old + runs_of_demand setup.now s t rate class avoid) }
    ensures most { steps.new ≤ steps.old + most_for_demand setup.now class }
{
    let demand = Demand { s, t, rate, class };
    let banned = avoided(avoid);
    let works = routes_within_counted(alloc, setup, s, t, &banned, steps)?;
    let mut pairs = Vec::new(alloc);
    put_works(alloc, setup, demand, &works, &mut pairs, steps)?;
    Ok(PairList { pairs })
}

// The same, with the count of steps in the ledger of the blank.
fn pairs_blank<L: Ledger>(
    blank: Blank,
    alloc: Global,
    setup: &NetSetup,
    s: u8,
    t: u8,
    rate: u32,
    class: Class,
    avoid: Option<u8>,
) -> Result<PairList, AllocError>
    requires name { blank.name ≡ L.name }
    requires parts { blank.parts ≡ L.parts }
    requires some { 0 < L.parts }
    requires setup { IsTrue (is_setup setup.now) }
    requires source { s < length setup.now.network.nodes }
    requires target { t < length setup.now.network.nodes }
    requires rate { 1 ≤ rate }
    requires rate_limit { rate ≤ 60000 }
    requires avoid { IfSome avoid (λ fibre. fibre < length setup.now.network.fibres) }
    ensures pairs { IfOk result (λ ps. ps ≡ candidates setup.now s t rate class avoid) }
    ensures sized { IfOk result (λ ps. IsTrue (list_all (is_sized_candidate setup.now s t rate) ps)) }
{
    let mut steps = Steps::<L>::over(blank);
    pairs_counted(alloc, setup, s, t, rate, class, avoid, &mut steps)
}

/// The candidates of a demand of `rate` Gbit/s from `s` to `t`, in order: by the rank of the working route, and then of
/// the backup. The working routes leave out the fibre to avoid; a backup shares no group with its working route. Each
/// route leads from `s` to `t`, and has the width that the rate needs on it.
pub fn pairs(
    alloc: Global,
    setup: &NetSetup,
    s: u8,
    t: u8,
    rate: u32,
    class: Class,
    avoid: Option<u8>,
) -> Result<PairList, AllocError>
    requires setup { IsTrue (is_setup setup.now) }
    requires source { s < length setup.now.network.nodes }
    requires target { t < length setup.now.network.nodes }
    requires rate { 1 ≤ rate }
    requires rate_limit { rate ≤ 60000 }
    requires avoid { IfSome avoid (λ fibre. fibre < length setup.now.network.fibres) }
    ensures pairs { IfOk result (λ ps. ps ≡ candidates setup.now s t rate class avoid) }
    ensures sized { IfOk result (λ ps. IsTrue (list_all (is_sized_candidate setup.now s t rate) ps)) }
{
    pairs_blank::<Brand>(Blank::new(1), alloc, setup, s, t, rate, class, avoid)
}
