//! What a push comes to.

ghost use Rattle.std.specs.Prelude.{◌≡◌, Some};
ghost use Rattle.std.specs.Ordering.{int_eq};
ghost use Rattle.eon_model.specs.Grid.{lies_in_band};
ghost use Rattle.eon_model.specs.Services.{drift_units, owned};
ghost use Rattle.eon_model.specs.Changes.{drifting_to};
ghost use Rattle.eon_model.specs.Legal.{Setup};
ghost use Rattle.eon_model.specs.Step as step;
ghost use Rattle.push_rule.specs.Told.{push_told};

use crate::answers::Push;
use eon_base::name::Name;
use flex_grid::band::Band;
use flex_grid::slot::Slot;
use leg_state::{Leg, LegView, Service, Services, first_clash_with};

// The leg as it would drift to the centre.
fn drifting(leg: &Leg, to: i16) -> LegView<'_>
    ensures { result ≡ drifting_to to leg.now }
{
    LegView {
        work: leg.work.view(),
        to: Some(to),
        back: leg.back_view(),
    }
}

// The slot where the channel of the service stands.
fn slot_of(service: &Service) -> Slot
    ensures { result ≡ service.now.leg.work.slot }
{
    service.leg.work.slot
}

// Whether the slot has its centre here.
fn is_at(slot: &Slot, n: i16) -> bool
    ensures { result ≡ int_eq n slot.now.n }
{
    n == slot.n()
}

// Whether the units from those of the slot to those of the same slot at another centre lie in one part of the band.
fn drifts_within(band: &Band, slot: &Slot, to: i16) -> bool
    ensures { result ≡ lies_in_band band.now (drift_units slot.now (Some to)) }
{
    // Read for what a band keeps.
    let _ = band.parts();
    let here = slot.units();
    match slot.moved(to) {
        Some(target) => band.within(&here.hull(&target.units())),
        None => false,
    }
}

// The first other service with a leg that is not clear with that of this one as it would drift to the centre.
fn in_the_way(services: &Services, name: &Name, service: &Service, to: i16) -> Option<Name>
    ensures { result ≡ step.first_clash services.now.list (owned name.now service.now.class (drifting_to to service.now.leg)) }
{
    let leg = drifting(&service.leg, to);
    first_clash_with(services, service.class, &leg, Some(name))
}

/// What becomes of a push of the channel of the service of this name to the centre `n`, in units of 6.25 GHz: the first
/// case of `Push` that holds. The services are looked at where they are.
pub fn push(services: &Services, band: &Band, name: &Name, n: i16) -> Push
    ensures { (setup : Setup) → setup.band ≡ band.now → push_told name.now result ≡ step.push setup services.now.list name.now n }
{
    let Some(service) = services.find(name) else {
        return Push::Unknown;
    };
    if service.is_moving() {
        return Push::Busy;
    }
    let slot = slot_of(service);
    if is_at(&slot, n) {
        return Push::Same;
    }
    if !drifts_within(band, &slot, n) {
        return Push::Band;
    }
    match in_the_way(services, name, service, n) {
        Some(other) => Push::Clash { name: other },
        None => Push::Done {
            from: slot.n(),
            to: n,
        },
    }
}
