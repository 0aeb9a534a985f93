//! A service of a list's line by the numbers of its nodes and fibres, as a change tells it.
ghost use Rattle.std.specs.Prelude.{◌≡◌, ◌&&◌, nat_le, nat_lt, IsTrue, IfOk, option_map};
ghost use Rattle.std.specs.List.{list_all};
ghost use Rattle.eon_model.specs.EventText.{has_backup_for};
ghost use Rattle.eon_model.specs.NetworkText.{is_setup};
ghost use Rattle.eon_model.specs.PlanReadings.{path_entered, leg_entered, service_entered};
ghost use Rattle.eon_model.specs.PlanTexts.{is_service_line};
ghost use Rattle.eon_model.specs.Step as step;
ghost use Rattle.journal_record.specs.Told as told;
ghost use Rattle.plan_texts.specs.ServiceTold as texts;
ghost use Rattle.plan_check.specs.Numbered.{has_few_fibres, path_on, path_if_told, leg_if_told, service_if_told};

use command_text::FibreNames;
use eon_base::name::Name;
use eon_model::Class;
use flex_grid::slot::Slot;
use journal_record::{EnterText, LegText, PathText};
use leg_state::FibreNumbers;
use net_graph::Net;
use net_setup::NetSetup;
use plan_texts::{LegLine, PathLine, ServiceLine};
use std::alloc::{AllocError, Global};

/// The most fibres of a path that a change tells.
const MOST_FIBRES: usize = 63;

/// The numbers of fibres lie below this one.
const FIBRE_NUMBERS: u8 = 128;

// The number of the node of this name, and 0 where there is none.
fn node_numbered(net: &Net, name: &Name) -> u8
    ensures { result ≡ step.node_numbered net.now name.now }
{
    net.node_of(name).unwrap_or(0)
}

// The numbers of the fibres of these names.
fn fibre_numbers(alloc: Global, net: &Net, names: &FibreNames) -> Result<Vec<u8>, AllocError>
    ensures { IfOk result (λ numbers. numbers.items ≡ step.fibres_numbered net.now names.now) }
{
    names
        .iter()
        .filter_map(|name| net.fibre_of(&name))
        .collect(alloc)
}

// Whether a path may have so many fibres.
fn is_few(count: usize) -> bool
    ensures { result ≡ (nat_le 1 count && nat_le count 63) }
{
    1 <= count && count <= MOST_FIBRES
}

// Whether all are numbers of fibres.
fn are_numbers(fibres: &[u8]) -> bool
    ensures { result ≡ list_all (λ i. nat_lt i 128) fibres.now }
{
    fibres.iter().all(|fibre| *fibre < FIBRE_NUMBERS)
}

// Whether these are one to 63 fibres, each below 128.
fn has_few_fibres(fibres: &[u8]) -> bool
    ensures { result ≡ has_few_fibres fibres.now }
{
    is_few(fibres.len()) && are_numbers(fibres)
}

// The path of these fibres, where a change can tell it.
fn path_on(fibres: &[u8], n: i16, m: u16) -> Option<PathText>
    ensures { option_map told.path_told result ≡ path_if_told (path_on fibres.now n m) }
{
    if !has_few_fibres(fibres) {
        return None;
    }
    match Slot::make(n, m) {
        Some(slot) => Some(PathText {
            fibres: FibreNumbers::make(fibres),
            slot,
        }),
        None => None,
    }
}

// Where the path has its centre.
fn centre_of(path: &PathLine) -> i16
    ensures { result ≡ path.now.n }
{
    path.n
}

// The path by the numbers of its fibres, where a change can tell it.
fn path_text(alloc: Global, net: &Net, path: &PathLine) -> Result<Option<PathText>, AllocError>
    ensures { IfOk result (λ p. option_map told.path_told p ≡ path_if_told (path_entered net.now (texts.path_told path.now))) }
{
    let fibres = fibre_numbers(alloc, net, &path.fibres)?;
    Ok(path_on(&fibres, centre_of(path), path.m))
}

// The leg so.
fn leg_text(alloc: Global, net: &Net, leg: &LegLine) -> Result<Option<LegText>, AllocError>
    ensures { IfOk result (λ l. option_map told.leg_told l ≡ leg_if_told (leg_entered net.now (texts.leg_told leg.now))) }
{
    let Some(work) = path_text(alloc, net, &leg.work)? else {
        return Ok(None);
    };
    let Some(path) = &leg.back else {
        return Ok(Some(LegText { work, back: None }));
    };
    match path_text(alloc, net, path)? {
        Some(back) => Ok(Some(LegText {
            work,
            back: Some(back),
        })),
        None => Ok(None),
    }
}

// Whether services of the class have a backup just where this one does.
fn has_backup_for(class: Class, leg: &LegText) -> bool
    ensures { result ≡ has_backup_for class (told.leg_told leg.now).back }
{
    match &leg.back {
        Some(_) => class.protected(),
        None => !class.protected(),
    }
}

// The service on this leg, by the numbers of its nodes.
fn service_on(net: &Net, service: &ServiceLine, leg: LegText) -> EnterText
    ensures { result ≡ record { name = service.now.demand.name; src = step.node_numbered net.now service.now.demand.src; dst = step.node_numbered net.now service.now.demand.dst; rate = service.now.demand.rate; class = service.now.demand.class; leg = leg } }
{
    EnterText {
        name: service.demand.name,
        src: node_numbered(net, &service.demand.src),
        dst: node_numbered(net, &service.demand.dst),
        rate: u32::from(service.demand.rate),
        class: service.demand.class,
        leg,
    }
}

/// The service by numbers, exactly where a change can tell it.
pub(crate) fn service_text(
    alloc: Global,
    setup: &NetSetup,
    service: &ServiceLine,
) -> Result<Option<EnterText>, AllocError>
    requires setup { IsTrue (is_setup setup.now) }
    requires in_range { IsTrue (is_service_line (texts.service_told service.now)) }
    ensures { IfOk result (λ s. option_map told.enter_told s ≡ service_if_told (service_entered setup.now.network (texts.service_told service.now))) }
{
    let Some(leg) = leg_text(alloc, &setup.net, &service.leg)? else {
        return Ok(None);
    };
    if !has_backup_for(service.demand.class, &leg) {
        return Ok(None);
    }
    Ok(Some(service_on(&setup.net, service, leg)))
}
