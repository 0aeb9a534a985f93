//! What `place` comes to.
ghost use Rattle.std.specs.Prelude.{◌≡◌, ℕ, ◌+◌, ◌<◌, None, IsTrue, IfSome, IfOk, length};
ghost use Rattle.std.specs.Option.{option_map};
ghost use Rattle.eon_model.specs.Sets.{has_member};
ghost use Rattle.eon_model.specs.Legal.{Legal};
ghost use Rattle.eon_model.specs.NetworkText.{is_setup};
ghost use Rattle.eon_model.specs.CommandText.{is_rate, is_command};
ghost use Rattle.eon_model.specs.Commands.{Command as asked};
ghost use Rattle.eon_model.specs.Step as step;
ghost use Rattle.command_text.specs.Told.{told_backs};
ghost use Rattle.eon_model.specs.Replies.{Reply as said};
ghost use Rattle.plan_core.specs.Told.{outcome_told};
ghost use Rattle.plan_core.specs.Waiting.{IsPrepared};
ghost use Rattle.plan_core.specs.Placing as placing;

use crate::asked_leg::asked_leg;
use crate::asked_paths::asked_paths;
use crate::demand::{AskedPaths, Demand, node_numbered};
use crate::proposal::{Proposal, enter, say};
use crate::refusal::refusal;
use command_text::{BackWords, FibreNames};
use leg_state::{Leg, Service, Services, first_clash};
use net_graph::Net;
use net_setup::NetSetup;
use reply_text::Reply;
use std::alloc::{AllocError, Global};

/// The service that is asked for, on a leg.
pub fn new_service(net: &Net, demand: &Demand, leg: Leg) -> Service
    ensures { result ≡ step.new_service net.now demand.now leg }
{
    Service {
        name: demand.name,
        src: node_numbered(net, &demand.src),
        dst: node_numbered(net, &demand.dst),
        rate: demand.rate,
        class: demand.class,
        leg,
        next: None,
    }
}

// The service that is asked for where its paths are routes, or the reply that refuses it.
fn placed_service(
    setup: &NetSetup,
    services: &Services,
    demand: &Demand,
    paths: AskedPaths,
) -> Result<Service, Reply>
    requires in_range { IsTrue (is_setup setup.now) }
    requires rate { IsTrue (is_rate demand.now.rate) }
    requires known { (i : ℕ) → IsTrue (has_member paths.work.route.risk i) → i < length setup.now.network.fibres + length setup.now.network.groups }
    ensures is { placing.entering (said.Placed demand.now.name) result ≡ placing.placed_on setup.now services.now.list demand.now paths }
    ensures service { IfOk result (λ s. s ≡ placing.service_asked setup.now demand.now paths) }
{
    let leg = asked_leg(setup, demand, paths)?;
    match first_clash(services, demand.class, &leg, Some(&demand.name)) {
        Some(name) => Err(Reply::Clash { name }),
        None => Ok(new_service(&setup.net, demand, leg)),
    }
}

/// What `place` comes to.
pub fn place(
    alloc: Global,
    setup: &NetSetup,
    services: &Services,
    demand: &Demand,
    work: &FibreNames,
    n: i16,
    back: &Option<BackWords>,
) -> Result<Proposal, AllocError>
    requires in_range { IsTrue (is_setup setup.now) }
    requires rate { IsTrue (is_rate demand.now.rate) }
    requires legal { Legal setup.now services.now.list }
    requires right { IsTrue (is_command (asked.Place demand.now (record { fibres = work.now; n = n }) (told_backs back.now))) }
    ensures is { IfOk result (λ p. outcome_told p.decision ≡ step.place setup.now services.now.list demand.now (record { fibres = work.now; n = n }) (told_backs back.now)) }
    ensures prepared { IfOk result (λ p. IsPrepared setup.now.network p.decision p.prepared) }
{
    if let Some(reply) = refusal(setup, services, demand, work, back) {
        return Ok(say(reply));
    }
    let paths = match asked_paths(alloc, &setup.net, demand, work, n, back)? {
        Ok(paths) => paths,
        Err(reply) => return Ok(say(reply)),
    };
    match placed_service(setup, services, demand, paths) {
        Ok(service) => Ok(enter(service, Reply::Placed { name: demand.name })),
        Err(reply) => Ok(say(reply)),
    }
}
