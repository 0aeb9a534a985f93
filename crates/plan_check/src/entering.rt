//! The service of a list's line, which enters at the end of the list of services.
ghost use Rattle.std.specs.Prelude.{◌≡◌, None, Some, IsTrue, IfErr, OnOk};
ghost use Rattle.std.specs.List.{list_all};
ghost use Rattle.eon_model.specs.EventText.{is_enter_text};
ghost use Rattle.eon_model.specs.Events as events;
ghost use Rattle.eon_model.specs.PlanReadings.{ListOf, entered, knows_leg, knows_names, with_entered};
ghost use Rattle.eon_model.specs.PlanTexts.{is_service_line};
ghost use Rattle.eon_model.specs.Replay as replay;
ghost use Rattle.eon_model.specs.Step.{is_fibre};
ghost use Rattle.journal_record.specs.Told as told;
ghost use Rattle.plan_texts.specs.ServiceTold as texts;
ghost use Rattle.plan_check.specs.Lists.{IsFaultOf};

use crate::list::{ListRefusal, ListWhy};
use crate::numbered::service_text;
use command_text::FibreNames;
use journal_record::{EnterText, Event};
use net_graph::Net;
use plan_core::{CannotFollow, Core};
use plan_texts::{LegLine, ServiceLine};
use std::alloc::Global;

// Whether the network has all these fibres.
fn knows_fibres(net: &Net, names: &FibreNames) -> bool
    ensures { result ≡ list_all (is_fibre net.now) names.now }
{
    names.iter().all(|name| net.fibre_of(&name).is_some())
}

// Whether the network has all fibres of the leg.
fn knows_leg(net: &Net, leg: &LegLine) -> bool
    ensures { result ≡ knows_leg net.now (texts.leg_told leg.now) }
{
    if !knows_fibres(net, &leg.work.fibres) {
        return false;
    }
    match &leg.back {
        Some(path) => knows_fibres(net, &path.fibres),
        None => true,
    }
}

// Whether the network has all names of the service but its own.
fn knows_names(net: &Net, service: &ServiceLine) -> bool
    ensures { result ≡ knows_names net.now (texts.service_told service.now) }
{
    let has_ends = net.node_of(&service.demand.src).is_some()
        && net.node_of(&service.demand.dst).is_some();
    has_ends && knows_leg(net, &service.leg)
}

// The refusal of a line whose service may not enter.
fn not_legal(line: u32) -> ListRefusal
    ensures { result ≡ ListRefusal.Wrong line ListWhy.NotLegal }
{
    ListRefusal::Wrong {
        line,
        why: ListWhy::NotLegal,
    }
}

// Lets the service of this line enter, where it may.
fn follow(core: &mut Core, service: EnterText, line: u32) -> Result<(), ListRefusal>
    requires { IsTrue (is_enter_text (told.enter_told service)) }
    ensures setup { core.new.setup ≡ core.old.setup }
    ensures entered { OnOk result (replay.follow core.old.setup (events.Event.Enter (told.enter_told service)) core.old.state ≡ Some core.new.state) }
    ensures waiting { OnOk result (core.new.waiting ≡ None) }
    ensures refused { IfErr result (λ e. IsFaultOf (with_entered line (replay.follow core.old.setup (events.Event.Enter (told.enter_told service)) core.old.state) ListOf) e) }
{
    let event = Event::Enter { service };
    match core.follow(&event) {
        Ok(()) => Ok(()),
        Err(CannotFollow::NotNow) => Err(not_legal(line)),
        Err(CannotFollow::Memory) => Err(ListRefusal::Memory),
    }
}

/// Lets the service of the line of this number enter, exactly where its names are known and it may.
pub(crate) fn enter(
    alloc: Global,
    core: &mut Core,
    service: &ServiceLine,
    line: u32,
) -> Result<(), ListRefusal>
    requires { IsTrue (is_service_line (texts.service_told service.now)) }
    ensures setup { core.new.setup ≡ core.old.setup }
    ensures entered { OnOk result (entered core.old.setup core.old.state (texts.service_told service.now) ≡ Some core.new.state) }
    ensures waiting { OnOk result (core.new.waiting ≡ None) }
    ensures refused { IfErr result (λ e. IsFaultOf (with_entered line (entered core.old.setup core.old.state (texts.service_told service.now)) ListOf) e) }
{
    if !knows_names(&core.setup().net, service) {
        return Err(not_legal(line));
    }
    match service_text(alloc, core.setup(), service)? {
        Some(text) => follow(core, text, line),
        None => Err(not_legal(line)),
    }
}
