//! What an event that brings a service or a second leg needs, where it can follow the state.
ghost use Rattle.std.specs.Prelude.{◌≡◌, ◌&&◌, None, is_some, nat_lt, not, length, IsTrue, IfOk};
ghost use Rattle.std.specs.Bool.{then_some};
ghost use Rattle.eon_model.specs.Legal as legal;
ghost use Rattle.eon_model.specs.Legal.{Legal};
ghost use Rattle.eon_model.specs.NetworkText.{is_setup};
ghost use Rattle.eon_model.specs.EventText.{is_event, is_state};
ghost use Rattle.eon_model.specs.Events.{Event as change};
ghost use Rattle.eon_model.specs.Replay.{can_follow};
ghost use Rattle.eon_model.specs.Services.{collides, holding_of, owned, working_holding};
ghost use Rattle.eon_model.specs.Step.{first_clash};
ghost use Rattle.journal_record.specs.Told as told;
ghost use Rattle.plan_core.specs.Waiting.{needed};
ghost use Rattle.plan_core.specs.Following.{may_join, may_begin, is_clear_second};

use crate::proposal::Prepared;
use crate::refusal::is_taken;
use crate::told_leg::{Traffic, told_leg};
use eon_base::name::Name;
use eon_model::Class;
use journal_record::{EnterText, LegText};
use leg_state::holding::{channel_span, path_span, share_fibre};
use leg_state::{Leg, Path, Service, Services, first_clash};
use net_setup::NetSetup;
use std::alloc::{AllocError, Global};

// Whether the node of this number is one of the network's.
fn is_node(setup: &NetSetup, node: u8) -> bool
    ensures { result ≡ nat_lt node (length setup.now.network.nodes) }
{
    node < setup.net.nodes()
}

// Whether there are fewer services than the network allows.
fn has_place(setup: &NetSetup, services: &Services) -> bool
    ensures { result ≡ nat_lt (length services.now.list) setup.now.services }
{
    services.len() < usize::from(setup.services)
}

// Whether a service of this name and with these ends may be new in the list.
fn may_join(setup: &NetSetup, services: &Services, name: &Name, src: u8, dst: u8) -> bool
    ensures { result ≡ may_join setup.now services.now.list name.now src dst }
{
    let is_new = !is_taken(services, name) && has_place(setup, services);
    is_new && is_node(setup, src) && is_node(setup, dst)
}

// The service on this leg.
fn service_on(text: &EnterText, leg: Leg) -> Service
    ensures { result ≡ record { name = text.now.name; src = text.now.src; dst = text.now.dst; rate = text.now.rate; class = text.now.class; leg = leg; next = None } }
{
    Service {
        name: text.name,
        src: text.src,
        dst: text.dst,
        rate: text.rate,
        class: text.class,
        leg,
        next: None,
    }
}

// What the service carries.
fn traffic_told(text: &EnterText) -> Traffic
    ensures { result ≡ record { src = text.now.src; dst = text.now.dst; rate = text.now.rate } }
{
    Traffic {
        src: text.src,
        dst: text.dst,
        rate: text.rate,
    }
}

// Whether some service is in the way of a leg of the service of this name and class.
fn is_blocked(services: &Services, name: &Name, class: Class, leg: &Leg) -> bool
    ensures { result ≡ is_some (first_clash services.now.list (owned name.now class leg.now)) }
{
    first_clash(services, class, leg, Some(name)).is_some()
}

/// The service that enters, exactly where it can.
pub fn entering(
    alloc: Global,
    setup: &NetSetup,
    services: &Services,
    text: &EnterText,
) -> Result<Option<Prepared>, AllocError>
    requires legal { Legal setup.now services.now.list }
    requires in_range { IsTrue (is_event (change.Enter (told.enter_told text.now))) }
    ensures { IfOk result (λ q. q ≡ then_some (can_follow setup.now services.now.list (change.Enter (told.enter_told text.now))) (needed setup.now.network (change.Enter (told.enter_told text.now)))) }
{
    if !may_join(setup, services, &text.name, text.src, text.dst) {
        return Ok(None);
    }
    let Some(leg) = told_leg(alloc, setup, traffic_told(text), text.class, &text.leg)? else {
        return Ok(None);
    };
    if is_blocked(services, &text.name, text.class, &leg) {
        return Ok(None);
    }
    Ok(Some(Prepared::Service(service_on(text, leg))))
}

// Whether the channels of two legs overlap on a common fibre.
fn channels_meet(p: &Leg, q: &Leg) -> bool
    ensures { result ≡ collides (working_holding p.now) (working_holding q.now) }
{
    share_fibre(&p.work.route, &q.work.route) && channel_span(p).overlaps(&channel_span(q))
}

// Whether the channel of a leg overlaps the path on a common fibre.
fn channel_meets(p: &Leg, path: &Path) -> bool
    ensures { result ≡ collides (working_holding p.now) (holding_of path.now) }
{
    share_fibre(&p.work.route, &path.route) && channel_span(p).overlaps(&path_span(path))
}

// Whether the channel of p overlaps neither the channel nor the backup of q.
fn work_is_clear(p: &Leg, q: &Leg) -> bool
    ensures { result ≡ legal.work_is_clear p.now q.now }
{
    if channels_meet(p, q) {
        return false;
    }
    match &q.back {
        Some(back) => !channel_meets(p, back),
        None => true,
    }
}

// Whether the paths overlap on a common fibre.
fn paths_meet(p: &Path, q: &Path) -> bool
    ensures { result ≡ collides (holding_of p.now) (holding_of q.now) }
{
    share_fibre(&p.route, &q.route) && path_span(p).overlaps(&path_span(q))
}

// Whether the backups of p and q overlap.
fn backups_meet(p: &Leg, q: &Leg) -> bool
    ensures { result ≡ legal.backups_collide p.now q.now }
{
    let Some(first) = &p.back else {
        return false;
    };
    match &q.back {
        Some(second) => paths_meet(first, second),
        None => false,
    }
}

// Whether a second leg of a service of this class is clear of its first one.
fn is_clear_second(class: Class, own: &Leg, leg: &Leg) -> bool
    ensures { result ≡ is_clear_second class own.now leg.now }
{
    if !work_is_clear(own, leg) || !work_is_clear(leg, own) {
        return false;
    }
    !class.dual() || !backups_meet(own, leg)
}

// Whether the service is at rest and of this class.
fn may_begin(service: &Service, class: Class) -> bool
    ensures { result ≡ may_begin class service.now }
{
    !service.is_moving() && class.flag() == service.class.flag()
}

// What the service carries.
fn traffic_of(service: &Service) -> Traffic
    ensures { result ≡ record { src = service.now.src; dst = service.now.dst; rate = service.now.rate } }
{
    Traffic {
        src: service.src,
        dst: service.dst,
        rate: service.rate,
    }
}

// Whether the second leg is clear of all legs.
fn may_stand(services: &Services, name: &Name, service: &Service, leg: &Leg) -> bool
    ensures { result ≡ (is_clear_second service.now.class service.now.leg leg.now && not (is_some (first_clash services.now.list (owned name.now service.now.class leg.now)))) }
{
    is_clear_second(service.class, &service.leg, leg)
        && !is_blocked(services, name, service.class, leg)
}

/// The second leg, exactly where it can stand beside the old one of the service of this name and class.
pub fn making(
    alloc: Global,
    setup: &NetSetup,
    services: &Services,
    name: &Name,
    class: Class,
    text: &LegText,
) -> Result<Option<Prepared>, AllocError>
    requires named { IsTrue (is_state services.now.list) }
    requires legal { Legal setup.now services.now.list }
    requires in_range { IsTrue (is_event (change.Make name.now class (told.leg_told text.now))) }
    ensures { IfOk result (λ q. q ≡ then_some (can_follow setup.now services.now.list (change.Make name.now class (told.leg_told text.now))) (needed setup.now.network (change.Make name.now class (told.leg_told text.now)))) }
{
    let Some(service) = services.find(name) else {
        return Ok(None);
    };
    if !may_begin(service, class) {
        return Ok(None);
    }
    let Some(leg) = told_leg(alloc, setup, traffic_of(service), class, text)? else {
        return Ok(None);
    };
    if !may_stand(services, name, service, &leg) {
        return Ok(None);
    }
    Ok(Some(Prepared::Leg(leg)))
}
