//! Which service a leg disturbs.
//!
//! A working path holds the units where it stands, or all that it drifts over; a backup holds those where
//! it stands. The legs of two services are clear where no working path of one overlaps a path of the
//! other on a common fibre, and where their backups overlap only if neither is always lit and no one failure
//! takes both of their working routes down.

ghost use Rattle.std.specs.Prelude.{◌≡◌};
ghost use Rattle.std.specs.Option.{option_copied};
ghost use Rattle.eon_model.specs.Services.{collides, owned};
ghost use Rattle.eon_model.specs.Legal as legal;
ghost use Rattle.eon_model.specs.Step.{clashes_with};
ghost use Rattle.leg_state.specs.Clashes.{may_share_apart, is_clear_apart, clashes_apart, clashes_of, first_clash_of};

use crate::holding::{Span, share_fibre};
use crate::leg::Leg;
use crate::service::Service;
use crate::services::Services;
use crate::view::LegView;
use eon_base::name::Name;
use eon_model::Class;
use net_graph::Route;

// Whether these units of two routes overlap on a common fibre.
fn collide(p: &Route, p_units: &Span, q: &Route, q_units: &Span) -> bool
    ensures { result ≡ collides (record { route = p.now; units = p_units.now }) (record { route = q.now; units = q_units.now }) }
{
    p_units.overlaps(q_units) && share_fibre(p, q)
}

// Whether the channel of p overlaps neither the channel nor the backup of q.
fn work_is_clear(p: &LegView, q: &LegView) -> bool
    ensures { result ≡ legal.work_is_clear p.now q.now }
{
    let units = p.channel_span();
    let route = p.work.route;
    if collide(route, &units, q.work.route, &q.channel_span()) {
        return false;
    }
    match &q.back {
        Some(back) => !collide(route, &units, back.route, &back.span()),
        None => true,
    }
}

// Whether the backups of p and q overlap.
fn backups_collide(p: &LegView, q: &LegView) -> bool
    ensures { result ≡ legal.backups_collide p.now q.now }
{
    let Some(first) = &p.back else {
        return false;
    };
    let Some(second) = &q.back else {
        return false;
    };
    collide(first.route, &first.span(), second.route, &second.span())
}

// Whether the backups of the legs of two services may hold the same units.
fn may_share(class: Class, p: &LegView, other: Class, q: &LegView) -> bool
    ensures { result ≡ may_share_apart class p.now other q.now }
{
    let shares_risk = p.work.route.risk().meets(&q.work.route.risk());
    !class.dual() && !other.dual() && !shares_risk
}

// Whether the legs of two services are clear.
fn are_clear(class: Class, p: &LegView, other: Class, q: &LegView) -> bool
    ensures { result ≡ is_clear_apart class p.now other q.now }
{
    if !work_is_clear(p, q) || !work_is_clear(q, p) {
        return false;
    }
    !backups_collide(p, q) || may_share(class, p, other, q)
}

// Whether some leg of the service is not clear with this leg of another one.
fn disturbs(class: Class, leg: &LegView, service: &Service) -> bool
    ensures { result ≡ clashes_apart class leg.now service.now }
{
    if !are_clear(class, leg, service.class, &service.leg.view()) {
        return true;
    }
    match &service.next {
        Some(next) => !are_clear(class, leg, service.class, &next.view()),
        None => false,
    }
}

// Whether the service is not the owner of the leg, and clashes with it.
fn disturbs_other(class: Class, leg: &LegView, owner: &Name, service: &Service) -> bool
    ensures { result ≡ clashes_with (owned owner.now class leg.now) service.now }
{
    if service.is_named(owner) {
        return false;
    }
    disturbs(class, leg, service)
}

// Whether the service clashes with the leg, of this owner or of no one.
fn clashes(class: Class, leg: &LegView, owner: Option<&Name>, service: &Service) -> bool
    ensures { result ≡ clashes_of class leg.now (option_copied owner.entry) service.now }
{
    match owner {
        Some(name) => disturbs_other(class, leg, name, service),
        None => disturbs(class, leg, service),
    }
}

/// The name of the first service in order of admission, other than the owner of the leg, one of whose
/// legs is not clear with this leg of a service of this class; None exactly where all are. Without an owner
/// the leg is of no service of the list. It takes no memory.
pub fn first_clash_with(
    services: &Services,
    class: Class,
    leg: &LegView,
    owner: Option<&Name>,
) -> Option<Name>
    ensures { result ≡ first_clash_of services.now.list class leg.now (option_copied owner.entry) }
{
    for i in 0..services.len() {
        let service = services.at(i);
        if clashes(class, leg, owner, service) {
            return Some(service.name);
        }
    }
    None
}

/// `first_clash_with` for a leg as it stands or drifts.
pub fn first_clash(
    services: &Services,
    class: Class,
    leg: &Leg,
    owner: Option<&Name>,
) -> Option<Name>
    ensures { result ≡ first_clash_of services.now.list class leg.now (option_copied owner.entry) }
{
    first_clash_with(services, class, &leg.view(), owner)
}
