//! The units that the services take from a new path, each leg once for all centres.

ghost use Rattle.std.specs.Prelude.{◌≡◌, ◌&&◌, not};
ghost use Rattle.std.specs.Option.{option_copied};
ghost use Rattle.eon_model.specs.Grid.{lies_in_band};
ghost use Rattle.eon_model.specs.Services.{collides, working_holding};
ghost use Rattle.admission.specs.FirstClear as clear;
ghost use Rattle.admission.specs.Clear.{meets_backup_of, back_clears, work_is_clear_of, work_is_clear_of_service, back_is_clear_of_service, work_is_free, back_is_free};
ghost use Rattle.admission.specs.Free.{Takes, IsFreeWhere};

use crate::row::Row;
use flex_grid::band::Band;
use leg_state::holding::{channel_span, path_span, share_fibre};
use leg_state::{Class, Leg, Route, Service, Services};

// Takes what the channel of the leg holds on the route.
fn take_channel(row: &mut Row, route: &Route, leg: &Leg)
    ensures { Takes row.old row.new (λ s. not (collides (record { route = route.now; units = s }) (working_holding leg.now))) }
{
    let work = &leg.work;
    if share_fibre(route, &work.route) {
        row.take(&channel_span(leg));
    }
}

// Takes what the backup of the leg holds on the route, if it has one.
fn take_backup(row: &mut Row, route: &Route, leg: &Leg)
    ensures { Takes row.old row.new (λ s. not (meets_backup_of (record { route = route.now; units = s }) leg.now)) }
{
    if let Some(back) = &leg.back {
        if share_fibre(route, &back.route) {
            row.take(&path_span(back));
        }
    }
}

// Takes what the leg holds on a working route: its channel and its backup.
fn take_for_work(row: &mut Row, route: &Route, leg: &Leg)
    ensures { Takes row.old row.new (λ s. work_is_clear_of (record { route = route.now; units = s }) leg.now) }
{
    take_channel(row, route, leg);
    take_backup(row, route, leg);
}

// Takes what the leg holds on a backup route: its channel, and its backup too unless backups may share units.
fn take_for_back(row: &mut Row, route: &Route, shares: bool, leg: &Leg)
    ensures { Takes row.old row.new (λ s. back_clears (record { route = route.now; units = s }) shares leg.now) }
{
    take_channel(row, route, leg);
    if !shares {
        take_backup(row, route, leg);
    }
}

// Takes what all legs of the service hold on a working route.
fn take_service_for_work(row: &mut Row, route: &Route, service: &Service)
    ensures { Takes row.old row.new (λ s. work_is_clear_of_service (record { route = route.now; units = s }) service.now) }
{
    take_for_work(row, route, &service.leg);
    if let Some(next) = &service.next {
        take_for_work(row, route, next);
    }
}

// Whether the backups of two legs, of one service or not, with these classes and working routes, may hold the same
// units: neither is lit, and both legs are one service's or no failure takes both working routes down.
fn may_share(own: bool, class: Class, work: &Route, other: Class, leg: &Leg) -> bool
    ensures { result ≡ clear.may_share own class work.now other leg.now.work.route }
{
    if class.dual() || other.dual() {
        return false;
    }
    let path = &leg.work;
    own || !work.risk().meets(&path.route.risk())
}

// Takes what all legs of the service hold on a backup route of this class beside this working route.
fn take_service_for_back(
    row: &mut Row,
    own: bool,
    class: Class,
    work: &Route,
    route: &Route,
    service: &Service,
)
    ensures { Takes row.old row.new (λ s. back_is_clear_of_service own class work.now (record { route = route.now; units = s }) service.now) }
{
    let other = service.class;
    let shares = may_share(own, class, work, other, &service.leg);
    take_for_back(row, route, shares, &service.leg);
    if let Some(next) = &service.next {
        let shares = may_share(own, class, work, other, next);
        take_for_back(row, route, shares, next);
    }
}

// Whether the service has the leg beside which the new one comes.
fn is_beside(own: Option<&Leg>, service: &Service) -> bool
    ensures { result ≡ clear.is_beside (option_copied own.entry) service.now }
{
    match own {
        Some(own) => channels_meet(own, &service.leg),
        None => false,
    }
}

// Whether the channels of the two legs overlap.
fn channels_meet(p: &Leg, q: &Leg) -> bool
    ensures { result ≡ collides (working_holding p.now) (working_holding q.now) }
{
    let path = &p.work;
    let other = &q.work;
    channel_span(p).overlaps(&channel_span(q)) && share_fibre(&path.route, &other.route)
}

// The units of the band that are free for a working path on the route, by one pass over the services.
pub(crate) fn work_row(services: &Services, band: &Band, route: &Route) -> Row
    ensures { IsFreeWhere result band.now (λ s. lies_in_band band.now s && work_is_free services.now.list (record { route = route.now; units = s })) }
{
    let mut row = Row::new(band);
    for i in 0..services.len() {
        take_service_for_work(&mut row, route, services.at(i));
    }
    row
}

// The units of the band that are free for a backup path of this class on the route beside this working route, by one
// pass over the services.
pub(crate) fn back_row(
    services: &Services,
    band: &Band,
    class: Class,
    own: Option<&Leg>,
    work: &Route,
    route: &Route,
) -> Row
    ensures { IsFreeWhere result band.now (λ s. lies_in_band band.now s && back_is_free services.now.list (option_copied own.entry) class work.now (record { route = route.now; units = s })) }
{
    let mut row = Row::new(band);
    for i in 0..services.len() {
        let service = services.at(i);
        let own = is_beside(own, service);
        take_service_for_back(&mut row, own, class, work, route, service);
    }
    row
}
