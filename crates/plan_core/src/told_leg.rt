//! The legs that events tell, by the numbers of their fibres, on the network.
ghost use Rattle.std.specs.Prelude.{◌≡◌, IsTrue, IfOk};
ghost use Rattle.std.specs.Bool.{then_some};
ghost use Rattle.eon_model.specs.CommandText.{is_rate};
ghost use Rattle.eon_model.specs.EventText.{has_backup_for};
ghost use Rattle.eon_model.specs.Events as events;
ghost use Rattle.eon_model.specs.Route.{share_group};
ghost use Rattle.net_graph.specs.Walks.{route_from};
ghost use Rattle.journal_record.specs.Told as told;
ghost use Rattle.plan_core.specs.Following.{slot_suits, path_suits, leg_suits, backup_suits};

use eon_model::Class;
use flex_grid::slot::Slot;
use journal_record::{LegText, PathText};
use leg_state::{FibreNumbers, Leg, Path};
use net_graph::{Net, Route};
use net_setup::NetSetup;
use reach_table::table::need;
use std::alloc::{AllocError, Global};

/// What a leg carries: a rate in Gbit/s between two nodes by number.
#[derive(Clone, Copy, Debug, PartialEq, Eq)]
pub struct Traffic {
    pub src: u8,
    pub dst: u8,
    pub rate: u32,
}

// The numbers as a list.
fn numbers_of(alloc: Global, fibres: &FibreNumbers) -> Result<Vec<u8>, AllocError>
    ensures { IfOk result (λ numbers. numbers.items ≡ fibres.now) }
{
    let mut numbers = Vec::new(alloc);
    for i in 0..fibres.len() {
        numbers.push(fibres.at(i))?;
    }
    Ok(numbers)
}

// The route of the fibres; None where they do not lead from end to end.
fn told_route(
    alloc: Global,
    net: &Net,
    traffic: Traffic,
    fibres: &FibreNumbers,
) -> Result<Option<Route>, AllocError>
    ensures { IfOk result (λ route. route ≡ route_from net.now traffic.src traffic.dst fibres.now) }
{
    let numbers = numbers_of(alloc, fibres)?;
    Route::make(alloc, net, traffic.src, traffic.dst, &numbers)
}

// Whether the slot has the width that the rate needs over so many km, and lies in the band.
fn slot_suits(setup: &NetSetup, rate: u32, km: u32, slot: &Slot) -> bool
    requires { IsTrue (is_rate rate) }
    ensures { result ≡ slot_suits setup.now rate km slot.now }
{
    match need(&setup.table, rate, km) {
        Some(m) => m == slot.m() && setup.band.within(&slot.units()),
        None => false,
    }
}

// The path, where it may carry the traffic.
fn told_path(
    alloc: Global,
    setup: &NetSetup,
    traffic: Traffic,
    text: &PathText,
) -> Result<Option<Path>, AllocError>
    requires { IsTrue (is_rate traffic.rate) }
    ensures { IfOk result (λ path. path ≡ then_some (path_suits setup.now traffic.src traffic.dst traffic.rate (events.path_told setup.now.network (told.path_told text.now))) (events.path_told setup.now.network (told.path_told text.now))) }
{
    let Some(route) = told_route(alloc, &setup.net, traffic, &text.fibres)? else {
        return Ok(None);
    };
    if !slot_suits(setup, traffic.rate, route.km(), &text.slot) {
        return Ok(None);
    }
    Ok(Some(Path {
        route,
        slot: text.slot,
    }))
}

// Whether one failure takes both paths down.
fn share_group(work: &Path, back: &Path) -> bool
    ensures { result ≡ share_group work.now.route back.now.route }
{
    work.route.risk().meets(&back.route.risk())
}

// The backup path, where it may carry the traffic beside this working path.
fn told_backup(
    alloc: Global,
    setup: &NetSetup,
    traffic: Traffic,
    work: &Path,
    text: &PathText,
) -> Result<Option<Path>, AllocError>
    requires { IsTrue (is_rate traffic.rate) }
    ensures { IfOk result (λ path. path ≡ then_some (backup_suits setup.now traffic.src traffic.dst traffic.rate work.now.route (events.path_told setup.now.network (told.path_told text.now))) (events.path_told setup.now.network (told.path_told text.now))) }
{
    let Some(back) = told_path(alloc, setup, traffic, text)? else {
        return Ok(None);
    };
    if share_group(work, &back) {
        return Ok(None);
    }
    Ok(Some(back))
}

/// The leg that is told, where it may carry the traffic in a service of this class; None where it may not. It
/// stands still.
pub fn told_leg(
    alloc: Global,
    setup: &NetSetup,
    traffic: Traffic,
    class: Class,
    text: &LegText,
) -> Result<Option<Leg>, AllocError>
    requires rate { IsTrue (is_rate traffic.rate) }
    requires backup { IsTrue (has_backup_for class (told.leg_told text.now).back) }
    ensures { IfOk result (λ leg. leg ≡ then_some (leg_suits setup.now traffic.src traffic.dst traffic.rate class (events.leg_told setup.now.network (told.leg_told text.now))) (events.leg_told setup.now.network (told.leg_told text.now))) }
{
    let Some(work) = told_path(alloc, setup, traffic, &text.work)? else {
        return Ok(None);
    };
    let Some(text) = &text.back else {
        return Ok(Some(Leg {
            work,
            to: None,
            back: None,
        }));
    };
    match told_backup(alloc, setup, traffic, &work, text)? {
        Some(back) => Ok(Some(Leg {
            work,
            to: None,
            back: Some(back),
        })),
        None => Ok(None),
    }
}
