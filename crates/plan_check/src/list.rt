//! The text of a list.
ghost use Rattle.std.specs.Prelude.{◌≡◌, ◌||◌, [], None, Some, drop, is_some, option_map, IsTrue, IfOk, IfErr, IfSome, OnOk};
ghost use Rattle.eon_model.specs.NetworkText.{is_setup};
ghost use Rattle.eon_model.specs.Places.{AtRest};
ghost use Rattle.eon_model.specs.PlanReadings.{ListOf, count_told, list_reading, with_service_line};
ghost use Rattle.eon_model.specs.PlanTexts as model;
ghost use Rattle.net_file.specs.Readings.{first_read};
ghost use Rattle.plan_texts.specs.ServiceTold as texts;
ghost use Rattle.plan_check.specs.Lists.{IsFaultOf};

use crate::entering::enter;
use net_file::Lines;
use net_setup::NetSetup;
use plan_core::Core;
use plan_texts::{ServiceLine, read_count, read_service};
use std::alloc::{AllocError, Global};

/// Why a line of a list is wrong, in the order in which the causes are tried.
#[derive(Clone, Copy, Debug, PartialEq, Eq)]
pub enum ListWhy {
    /// It is no line that can stand here.
    Form,
    /// The service drifts, or makes a new leg.
    Busy,
    /// The network has not all its names, or the service may not enter after those before it.
    NotLegal,
}

/// Why a text was not read as a list.
#[derive(Clone, Copy, Debug, PartialEq, Eq)]
pub enum ListRefusal {
    /// The first line that is wrong, counted from 1, and why.
    Wrong { line: u32, why: ListWhy },
    /// There was no memory for the services.
    Memory,
}

impl From<AllocError> for ListRefusal {
    ghost use Rattle.plan_check.specs.declared.list.ListRefusal.TheVariants.{Memory};

    ghost from_gives = { λ _ e. e ≡ Memory };

    fn from(_error: AllocError) -> ListRefusal {
        ListRefusal::Memory
    }
}

// The count of the first line.
fn first_count(lines: &mut Lines<'_>) -> Option<u16>
    ensures value { result ≡ first_read count_told lines.old.0 }
    ensures after { lines.new ≡ (drop 1 lines.old.0, lines.old.1) }
{
    let line = lines.next_line()?;
    read_count(line)
}

// The service of the next line.
fn next_service<'a>(lines: &mut Lines<'a>) -> Option<ServiceLine<'a>>
    ensures value { option_map texts.service_told result ≡ first_read model.service_told lines.old.0 }
    ensures after { lines.new ≡ (drop 1 lines.old.0, lines.old.1) }
{
    let line = lines.next_line()?;
    read_service(line)
}

// Whether the service drifts, or makes a new leg.
fn is_busy(service: &ServiceLine) -> bool
    ensures { result ≡ (is_some (texts.service_told service.now).to || is_some (texts.service_told service.now).next) }
{
    service.to.is_some() || service.next.is_some()
}

// The refusal of a line.
fn wrong(line: u32, why: ListWhy) -> ListRefusal
    ensures { result ≡ ListRefusal.Wrong line why }
{
    ListRefusal::Wrong { line, why }
}

// Lets the service of the next line, which has this number, enter.
fn take_next(
    alloc: Global,
    core: &mut Core,
    lines: &mut Lines<'_>,
    line: u32,
) -> Result<(), ListRefusal>
    ensures setup { core.new.setup ≡ core.old.setup }
    ensures after { lines.new ≡ (drop 1 lines.old.0, lines.old.1) }
    ensures taken { OnOk result (with_service_line core.old.setup line core.old.state (first_read model.service_told lines.old.0) ListOf ≡ ListOf core.new.state) }
    ensures waiting { OnOk result (core.new.waiting ≡ None) }
    ensures refused { IfErr result (λ e. IsFaultOf (with_service_line core.old.setup line core.old.state (first_read model.service_told lines.old.0) ListOf) e) }
{
    let Some(service) = next_service(lines) else {
        return Err(wrong(line, ListWhy::Form));
    };
    if is_busy(&service) {
        return Err(wrong(line, ListWhy::Busy));
    }
    enter(alloc, core, &service, line)
}

// Lets all services of the text enter, in the order of their lines.
fn take_all(alloc: Global, core: &mut Core, bytes: &[u8]) -> Result<(), ListRefusal>
    requires state { core.old.state ≡ [] }
    requires waiting { core.old.waiting ≡ None }
    ensures setup { core.new.setup ≡ core.old.setup }
    ensures list { OnOk result (list_reading core.old.setup bytes.now ≡ ListOf core.new.state) }
    ensures waiting { OnOk result (core.new.waiting ≡ None) }
    ensures refused { IfErr result (λ e. IsFaultOf (list_reading core.old.setup bytes.now) e) }
{
    let mut lines = Lines::new(bytes);
    let Some(count) = first_count(&mut lines) else {
        return Err(wrong(1, ListWhy::Form));
    };
    for i in 0..count {
        take_next(alloc, core, &mut lines, i as u32 + 2)?;
    }
    if lines.is_done() {
        Ok(())
    } else {
        Err(wrong(count as u32 + 2, ListWhy::Form))
    }
}

/// The machine with the services of the text, which are legal on the network and at rest; no change waits. Where the bytes
/// are no text of such a list, the first line that is wrong is told, and why; where they end too early, or in a line without
/// byte 10, that is the next line or this one. Want of memory is the one other refusal.
pub fn read_list(alloc: Global, setup: NetSetup, bytes: &[u8]) -> Result<Core, ListRefusal>
    requires { IsTrue (is_setup setup) }
    ensures setup { IfOk result (λ core. core.setup ≡ setup) }
    ensures list { IfOk result (λ core. list_reading setup bytes.now ≡ ListOf core.state) }
    ensures rest { IfOk result (λ core. AtRest core.state) }
    ensures waiting { IfOk result (λ core. core.waiting ≡ None) }
    ensures refused { IfErr result (λ e. IsFaultOf (list_reading setup bytes.now) e) }
{
    let mut core = Core::open(alloc, setup)?;
    take_all(alloc, &mut core, bytes)?;
    Ok(core)
}
