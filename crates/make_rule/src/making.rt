//! What a make comes to.

ghost use Rattle.std.specs.Prelude.{◌≡◌, ℕ, ◌<◌, List, length, not, find, None, Some, IsTrue, IfOk, IfErr, IfSome};
ghost use Rattle.std.specs.Option.{option_and_then, option_to_list};
ghost use Rattle.eon_model.specs.CommandText.{is_rate};
ghost use Rattle.eon_model.specs.Events as events;
ghost use Rattle.eon_model.specs.Legal.{Legal};
ghost use Rattle.eon_model.specs.Network as model;
ghost use Rattle.eon_model.specs.NetworkText.{is_setup};
ghost use Rattle.eon_model.specs.PlanTextLaws.{is_listed};
ghost use Rattle.eon_model.specs.Candidates.{candidates};
ghost use Rattle.eon_model.specs.Services.{service_of};
ghost use Rattle.eon_model.specs.Step as step;
ghost use Rattle.admission.specs.FirstClear.{first_clear};
ghost use Rattle.make_rule.specs.Told.{make_told, made_on, IfStarted, IsOnFirst};

use crate::answers::Make;
use admission::{Admit, first, leg_at};
use eon_base::name::Name;
use kept_routes::{KeptRoutes, PairList, pairs_kept};
use leg_state::{Service, Services};
use net_graph::Net;
use net_setup::NetSetup;
use std::alloc::{AllocError, Global};

// The number of the fibre to avoid, if one is named; or the name, which no fibre has.
fn avoided(net: &Net, avoid: &Option<Name>) -> Result<Option<u8>, Name>
    ensures number { IfOk result (λ o. o ≡ option_and_then (model.fibre_of net.now) avoid.now) }
    ensures known { IfOk result (λ o. find (λ name. not (step.is_fibre net.now name)) (option_to_list avoid.now) ≡ None) }
    ensures in_range { IfOk result (λ o. IfSome o (λ fibre. fibre < length net.now.fibres)) }
    ensures unknown { IfErr result (λ name. find (λ name. not (step.is_fibre net.now name)) (option_to_list avoid.now) ≡ Some name) }
{
    let Some(name) = avoid else {
        return Ok(None);
    };
    match net.fibre_of(name) {
        Some(fibre) => Ok(Some(fibre)),
        None => Err(*name),
    }
}

// The second leg of the service on the first of these candidates that fits.
fn placed(setup: &NetSetup, services: &Services, service: &Service, pairs: PairList) -> Make
    ensures is { (name : List ℕ) → make_told name result ≡ made_on name service.now.class pairs (first_clear services.now.list setup.now.band service.now.class pairs (Some service.now.leg)) }
    ensures leg { IfStarted result (IsOnFirst (first_clear services.now.list setup.now.band service.now.class pairs (Some service.now.leg))) }
{
    let _ = pairs.len();
    let class = service.class;
    match first(
        services,
        setup.band,
        class,
        pairs.as_slice(),
        Some(&service.leg),
    ) {
        Admit::NoRoute => Make::NoRoute,
        Admit::Blocked { pairs } => Make::Blocked { pairs },
        Admit::Placed(found) => Make::Started {
            class,
            leg: leg_at(pairs.take(found.pair), found),
        },
    }
}

// The candidates of a second leg of the service.
fn candidates_of(
    alloc: Global,
    kept: &mut KeptRoutes,
    setup: &NetSetup,
    service: &Service,
    avoid: Option<u8>,
) -> Result<PairList, AllocError>
    requires same { kept.old ≡ setup.now }
    requires in_range { IsTrue (is_setup setup.now) }
    requires listed { IsTrue (is_listed setup.now service.now) }
    requires avoid { IfSome avoid (λ fibre. fibre < length setup.now.network.fibres) }
    ensures candidates { IfOk result (λ ps. ps ≡ candidates setup.now service.now.src service.now.dst service.now.rate service.now.class avoid) }
    ensures same { kept.new ≡ kept.old }
{
    pairs_kept(
        alloc,
        kept,
        setup,
        service.src,
        service.dst,
        service.rate,
        service.class,
        avoid,
    )
}

/// What becomes of a make for the service of this name, whose new working route leaves out the fibre to avoid, if one
/// is named: the first case of `Make` that holds. The second leg is the first on which the service may stand beside its
/// own leg and all others. Its backup may share units with that of the own leg unless the class is dual. The routes are
/// taken from the table, or are searched for and then kept there.
pub fn make(
    alloc: Global,
    kept: &mut KeptRoutes,
    setup: &NetSetup,
    services: &Services,
    name: &Name,
    avoid: &Option<Name>,
) -> Result<Make, AllocError>
    requires same { kept.old ≡ setup.now }
    requires in_range { IsTrue (is_setup setup.now) }
    requires listed { IfSome (service_of services.now.list name.now) (λ s. IsTrue (is_listed setup.now s)) }
    requires legal { Legal setup.now services.now.list }
    ensures is { IfOk result (λ m. make_told name.now m ≡ step.make setup.now services.now.list name.now avoid.now) }
    ensures leg { IfOk result (λ m. IfStarted m (λ leg. events.leg_told setup.now.network (events.leg_text_of leg) ≡ leg)) }
    ensures same { kept.new ≡ kept.old }
{
    admission::laws::first_is_of_a_second_leg();
    let Some(service) = services.find(name) else {
        return Ok(Make::Unknown { name: *name });
    };
    let fibre = match avoided(&setup.net, avoid) {
        Ok(fibre) => fibre,
        Err(name) => return Ok(Make::Unknown { name }),
    };
    if service.is_moving() {
        return Ok(Make::Busy);
    }
    let pairs = candidates_of(alloc, kept, setup, service, fibre)?;
    Ok(placed(setup, services, service, pairs))
}
