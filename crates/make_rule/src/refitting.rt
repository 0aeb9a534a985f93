//! What a refit comes to. The centres of the band are tried upwards, each by one pass over the services.

ghost use Rattle.std.specs.Prelude.{◌≡◌, ◌<◌, ◌≤◌, ◌+ℤ◌, pos, find, Some, is_some, IsTrue};
ghost use Rattle.eon_model.specs.Grid.{moved_to, span_of, unit_count};
ghost use Rattle.eon_model.specs.FirstFit.{centres_in};
ghost use Rattle.eon_model.specs.Legal.{Setup, Legal, is_dual};
ghost use Rattle.eon_model.specs.Services.{owned};
ghost use Rattle.eon_model.specs.Step as step;
ghost use Rattle.make_rule.specs.Told.{refit_told};
ghost use Rattle.make_rule.specs.Refits.{may_back};

use crate::answers::Refit;
use eon_base::name::Name;
use flex_grid::band::Band;
use leg_state::{LegView, PathView, Service, Services, Slot, first_clash_with};

// Whether the backup of the service is always lit.
fn is_dual(service: &Service) -> bool
    ensures { result ≡ is_dual service.now.class }
{
    service.class.dual()
}

// The backup of the service, as it stands.
fn backup_of(service: &Service) -> Option<PathView<'_>>
    ensures { result ≡ service.now.leg.back }
{
    service.leg.back_view()
}

// The leg of the service with this backup in another slot.
fn with_backup_in<'a>(service: &'a Service, back: &PathView<'a>, slot: Slot) -> LegView<'a>
    ensures { result ≡ record service.now.leg { back = Some (record { route = back.now.route; slot = slot }) } }
{
    let mut leg = service.leg.view();
    leg.back = Some(PathView {
        route: back.route,
        slot,
    });
    leg
}

// Whether the leg of the service, with this backup in the slot, clashes with another service.
fn clashes_in(
    services: &Services,
    name: &Name,
    service: &Service,
    back: &PathView,
    slot: Slot,
) -> bool
    ensures { result ≡ is_some (step.first_clash services.now.list (owned name.now service.now.class (record service.now.leg { back = Some (record { route = back.now.route; slot = slot }) }))) }
{
    let leg = with_backup_in(service, back, slot);
    first_clash_with(services, service.class, &leg, Some(name)).is_some()
}

/// Whether this backup of the service may stand at the centre, in units of 6.25 GHz: its slot lies in the band, and
/// the leg clashes with no other service.
pub fn stands_at(
    services: &Services,
    band: &Band,
    name: &Name,
    service: &Service,
    back: &PathView,
    n: i16,
) -> bool
    ensures { result ≡ may_back services.now.list band.now name.now service.now.class service.now.leg back.now n }
{
    let Some(slot) = back.slot.moved(n) else {
        return false;
    };
    band.within(&slot.units()) && !clashes_in(services, name, service, back, slot)
}

// How many units lie from the lowest to the highest of the band, gaps among them.
fn units(band: &Band) -> u16
    ensures count { result ≡ unit_count (span_of band.now) }
    ensures few { result ≤ 1024 }
{
    (i32::from(band.hi()) - i32::from(band.lo()) + 1) as u16
}

// The unit at this place, counted from the lowest of the band.
fn unit_at(band: &Band, place: u16) -> i16
    requires { place < unit_count (span_of band.now) }
    ensures { result ≡ (span_of band.now).lo +ℤ pos place }
{
    (i32::from(band.lo()) + i32::from(place)) as i16
}

// The least centre at which this backup of the service may stand.
fn least_centre(
    services: &Services,
    band: &Band,
    name: &Name,
    service: &Service,
    back: &PathView,
) -> Option<i16>
    ensures { result ≡ find (may_back services.now.list band.now name.now service.now.class service.now.leg back.now) (centres_in band.now) }
{
    for place in 0..units(band) {
        let n = unit_at(band, place);
        if stands_at(services, band, name, service, back, n) {
            return Some(n);
        }
    }
    None
}

/// What becomes of a refit of the shared backup of the service of this name, on its own route: the first case of
/// `Refit` that holds, where the services are legal on a network with this band. It takes no memory.
pub fn refit(services: &Services, band: &Band, name: &Name) -> Refit
    ensures { (setup : Setup) → setup.band ≡ band.now → Legal setup services.now.list → refit_told name.now result ≡ step.refit setup services.now.list name.now }
{
    let Some(service) = services.find(name) else {
        return Refit::Unknown;
    };
    if service.is_moving() {
        return Refit::Busy;
    }
    let Some(back) = backup_of(service) else {
        return Refit::Bare;
    };
    if is_dual(service) {
        return Refit::Dual;
    }
    // Read for what a band keeps.
    let _ = band.parts();
    let from = back.slot.n();
    let to = least_centre(services, band, name, service, &back).unwrap_or(from);
    Refit::Done { from, to }
}
