//! What `admit` comes to.
ghost use Rattle.std.specs.Prelude.{◌≡◌, None, IsTrue, IfOk};
ghost use Rattle.eon_model.specs.Legal.{Legal};
ghost use Rattle.eon_model.specs.NetworkText.{is_setup};
ghost use Rattle.eon_model.specs.CommandText.{is_rate, is_command};
ghost use Rattle.eon_model.specs.Commands.{Command as asked};
ghost use Rattle.eon_model.specs.Step as step;
ghost use Rattle.admission.specs.FirstClear.{first_clear};
ghost use Rattle.eon_model.specs.Replies.{Reply as said};
ghost use Rattle.plan_core.specs.Told.{outcome_told};
ghost use Rattle.plan_core.specs.Waiting.{IsPrepared};
ghost use Rattle.plan_core.specs.Placing.{entering};
ghost use Rattle.plan_core.specs.Admitting as admitting;

use crate::demand::{Demand, node_numbered};
use crate::place::new_service;
use crate::proposal::{Proposal, enter, say};
use crate::refusal::refused_service;
use admission::{Admit, first, leg_at};
use kept_routes::{KeptRoutes, PairList, pairs_kept};
use leg_state::{Service, Services};
use net_setup::NetSetup;
use reply_text::Reply;
use std::alloc::{AllocError, Global};

// The service on the first placement that fits, or the reply that refuses it.
fn admitted_service(
    setup: &NetSetup,
    services: &Services,
    demand: &Demand,
    pairs: PairList,
) -> Result<Service, Reply>
    ensures is { entering (said.Admitted demand.now.name) result ≡ admitting.tried setup.now demand.now pairs (first_clear services.now.list setup.now.band demand.now.class pairs None) }
    ensures service { IfOk result (admitting.IsOnFirst setup.now demand.now (first_clear services.now.list setup.now.band demand.now.class pairs None)) }
{
    let _ = pairs.len();
    match first(services, setup.band, demand.class, pairs.as_slice(), None) {
        Admit::NoRoute => Err(Reply::NoRoute),
        Admit::Blocked { pairs } => Err(Reply::Blocked { pairs }),
        Admit::Placed(found) => {
            let leg = leg_at(pairs.take(found.pair), found);
            Ok(new_service(&setup.net, demand, leg))
        }
    }
}

/// What `admit` comes to.
pub fn admit(
    alloc: Global,
    kept: &mut KeptRoutes,
    setup: &NetSetup,
    services: &Services,
    demand: &Demand,
) -> Result<Proposal, AllocError>
    requires same { kept.old ≡ setup.now }
    requires in_range { IsTrue (is_setup setup.now) }
    requires rate { IsTrue (is_rate demand.now.rate) }
    requires legal { Legal setup.now services.now.list }
    requires right { IsTrue (is_command (asked.Admit demand.now)) }
    ensures is { IfOk result (λ p. outcome_told p.decision ≡ step.admit setup.now services.now.list demand.now) }
    ensures prepared { IfOk result (λ p. IsPrepared setup.now.network p.decision p.prepared) }
    ensures same { kept.new ≡ kept.old }
{
    admission::laws::first_is_of_a_new_service();
    if let Some(reply) = refused_service(setup, services, demand) {
        return Ok(say(reply));
    }
    let src = node_numbered(&setup.net, &demand.src);
    let dst = node_numbered(&setup.net, &demand.dst);
    let pairs = pairs_kept(
        alloc,
        kept,
        setup,
        src,
        dst,
        demand.rate,
        demand.class,
        None,
    )?;
    match admitted_service(setup, services, demand, pairs) {
        Ok(service) => Ok(enter(service, Reply::Admitted { name: demand.name })),
        Err(reply) => Ok(say(reply)),
    }
}
