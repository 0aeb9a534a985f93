//! The legs that a group hits.
ghost use Rattle.std.specs.Prelude.{◌≡◌, ◌<◌, ◌++◌, IsTrue, IfOk, IfSome, OnOk};
ghost use Rattle.std.specs.List.{flat_map};
ghost use Rattle.eon_model.specs.Legal.{Setup, Legal};
ghost use Rattle.eon_model.specs.Listings.{hit_by, hits_of};
ghost use Rattle.eon_model.specs.NetworkText.{is_setup};
ghost use Rattle.failure_drill.specs.Hits.{IsNumbered, IsNumberedService, hits_by, TellsFailures};

use crate::drill_list::DrillList;
use crate::hit::{Hit, HitPath};
use leg_state::{Leg, Service, Services};
use std::alloc::{AllocError, Global};

// Puts the leg at the end of the list, where the group hits its working route.
fn list_leg(
    hits: &mut Vec<Hit>,
    group: u16,
    service: &Service,
    number: u8,
    leg: &Leg,
) -> Result<(), AllocError>
    requires group { group < 256 }
    requires numbered { IfSome leg.now.back IsNumbered }
    ensures { OnOk result (hits.new.items ≡ hits.old.items ++ hit_by group service.now number leg.now) }
{
    if !leg.work.route.risk().has(group) {
        return Ok(());
    }
    let back = match &leg.back {
        Some(path) => Some(HitPath::of(path)),
        None => None,
    };
    hits.push(Hit {
        name: service.name,
        leg: number,
        back,
    })?;
    Ok(())
}

// Puts the legs of the service that the group hits at the end of the list, the old one first.
fn list_service(hits: &mut Vec<Hit>, group: u16, service: &Service) -> Result<(), AllocError>
    requires group { group < 256 }
    requires numbered { IsNumberedService service.now }
    ensures { OnOk result (hits.new.items ≡ hits.old.items ++ hits_by group service.now) }
{
    list_leg(hits, group, service, 1, &service.leg)?;
    match &service.next {
        Some(next) => list_leg(hits, group, service, 2, next),
        None => Ok(()),
    }
}

// The legs that the group hits, in order.
fn all_hits(alloc: Global, services: &Services, group: u16) -> Result<Vec<Hit>, AllocError>
    requires group { group < 256 }
    requires legal { (setup : Setup) × IsTrue (is_setup setup) × Legal setup services.now.list }
    ensures { IfOk result (λ hits. hits.items ≡ hits_of group services.now.list) }
{
    let mut hits = Vec::new(alloc);
    for i in 0..services.len() {
        list_service(&mut hits, group, services.at(i))?;
    }
    Ok(hits)
}

/// What the failure of a group, a fibre or a named one by its risk number, takes down: in list order and the old leg
/// first, each leg whose working route it hits, with the backup that takes over. What the list tells of the light after
/// the failure holds at every moment, whatever is dark, drifts, or is carried by either leg. Want of memory is the only
/// failure.
pub fn drill(alloc: Global, services: &Services, group: u16) -> Result<DrillList, AllocError>
    requires group { group < 256 }
    requires legal { (setup : Setup) × IsTrue (is_setup setup) × Legal setup services.now.list }
    ensures hits { IfOk result (λ hits. hits ≡ hits_of group services.now.list) }
    ensures told { IfOk result (TellsFailures group services.now.list) }
{
    eon_model::laws::drills_tell_failures();
    let hits = all_hits(alloc, services, group)?;
    Ok(DrillList::of(hits))
}
