//! The services that one group more makes dark.
ghost use Rattle.std.specs.Prelude.{◌≡◌, ◌<◌, ◌++◌, ◌∷◌, IfOk, OnOk, find, length, map};
ghost use Rattle.std.specs.Option.{option_to_list};
ghost use Rattle.std.specs.List.{flat_map};
ghost use Rattle.live_failure.specs.Parts.{has_switched, is_lost, lost_where};
ghost use Rattle.live_failure.specs.Rivals.{AreRivals, passes_at, rival_at, crossed_at, threat_by, weak_by};
ghost use Rattle.live_failure.specs.Replied.{weak_told};

use crate::dark::{Standing, has_switched, is_dark, is_rival, standing_of};
use crate::reply::Weak;
use leg_state::{Service, Services};
use std::alloc::{AllocError, Global};

// Notes the place, where a rival of the service stands there.
fn note_rival(
    places: &mut Vec<usize>,
    services: &Services,
    own: &Service,
    place: usize,
) -> Result<(), AllocError>
    requires { place < length services.now.list }
    ensures { OnOk result (places.new.items ≡ places.old.items ++ rival_at services.now.list own.now place) }
{
    if is_rival(own, services.at(place)) {
        places.push(place)?;
    }
    Ok(())
}

// The places of the rivals of a service.
fn rivals_of(alloc: Global, services: &Services, own: &Service) -> Result<Vec<usize>, AllocError>
    ensures { IfOk result (λ places. AreRivals services.now.list (length services.now.list) own.now places.items) }
{
    let mut places = Vec::new(alloc);
    for place in 0..services.len() {
        note_rival(&mut places, services, own, place)?;
    }
    Ok(places)
}

// Whether the backup of the service at this place has taken over.
fn has_switched_at(services: &Services, place: usize, failed: &[u8]) -> bool
    ensures { result ≡ passes_at services.now.list (has_switched failed.now) place }
{
    place < services.len() && has_switched(failed, services.at(place))
}

// Whether that of a service at one of these places has.
fn is_crossed_at(services: &Services, places: &[usize], failed: &[u8]) -> bool
    ensures { result ≡ crossed_at services.now.list places.now failed.now }
{
    places
        .iter()
        .any(|place| has_switched_at(services, *place, failed))
}

// Whether the service, the rivals of which stand at these places, is dark.
fn is_dark_beside(services: &Services, places: &[usize], failed: &[u8], own: &Service) -> bool
    ensures { result ≡ lost_where (crossed_at services.now.list places.now failed.now) failed.now own.now }
{
    match standing_of(failed, own) {
        Standing::Carried => false,
        Standing::Dark => true,
        Standing::OnBackup => is_crossed_at(services, places, failed),
    }
}

// The same with this group failed besides.
fn is_dark_with(
    services: &Services,
    places: &[usize],
    group: u8,
    failed: Option<u8>,
    own: &Service,
) -> bool
    ensures { result ≡ lost_where (crossed_at services.now.list places.now (group ∷ option_to_list failed)) (group ∷ option_to_list failed) own.now }
{
    match failed {
        Some(before) => is_dark_beside(services, places, &[group, before], own),
        None => is_dark_beside(services, places, &[group], own),
    }
}

// The first of these groups with which the service is dark.
fn first_threat(
    services: &Services,
    places: &[usize],
    order: &[u8],
    failed: Option<u8>,
    own: &Service,
) -> Option<u8>
    ensures { result ≡ find (λ g. lost_where (crossed_at services.now.list places.now (g ∷ option_to_list failed)) (g ∷ option_to_list failed) own.now) order.now }
{
    order.iter().copied().find(|group| is_dark_with(services, places, *group, failed, own))
}

// Whether the service is dark with this group failed, or with none.
fn is_dark_now(services: &Services, failed: Option<u8>, own: &Service) -> bool
    ensures { result ≡ is_lost services.now.list (option_to_list failed) own.now }
{
    match failed {
        Some(group) => is_dark(services, &[group], own),
        None => is_dark(services, &[], own),
    }
}

// The first of these groups that makes the service dark; None where it is dark already.
fn threat_to(
    alloc: Global,
    services: &Services,
    order: &[u8],
    failed: Option<u8>,
    own: &Service,
) -> Result<Option<u8>, AllocError>
    ensures { IfOk result (λ threat. threat ≡ threat_by order.now services.now.list (option_to_list failed) own.now) }
{
    if is_dark_now(services, failed, own) {
        return Ok(None);
    }
    let places = rivals_of(alloc, services, own)?;
    Ok(first_threat(services, &places, order, failed, own))
}

// Lists the service with this group, if there is one.
fn list_weak(weak: &mut Vec<Weak>, own: &Service, threat: Option<u8>) -> Result<(), AllocError>
    ensures { OnOk result (map weak_told weak.new.items ≡ map weak_told weak.old.items ++ map (λ g. record { name = own.now.name; group = g }) (option_to_list threat)) }
{
    if let Some(group) = threat {
        weak.push(Weak {
            name: own.name,
            group,
        })?;
    }
    Ok(())
}

/// The services that one of these groups more makes dark, in list order, each with the first such group. Want of memory
/// is the only failure.
pub(crate) fn exposed(
    alloc: Global,
    services: &Services,
    order: &[u8],
    failed: Option<u8>,
) -> Result<Vec<Weak>, AllocError>
    ensures { IfOk result (λ weak. map weak_told weak.items ≡ flat_map (weak_by order.now services.now.list (option_to_list failed)) services.now.list) }
{
    let mut weak = Vec::new(alloc);
    for place in 0..services.len() {
        let own = services.at(place);
        let threat = threat_to(alloc, services, order, failed, own)?;
        list_weak(&mut weak, own, threat)?;
    }
    Ok(weak)
}
