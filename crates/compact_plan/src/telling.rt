//! What is told of the channels whose lowest place is not their own.

ghost use Rattle.std.specs.Prelude.{◌≡◌, ◌<◌, ◌++◌, ℤ, pos, ◌-ℤ◌, length, map, All, IfOk, OnOk};
ghost use Rattle.std.specs.List.{list_any};
ghost use Rattle.std.specs.Ordering.{int_eq};
ghost use Rattle.eon_model.specs.Plan.{touches_from_below};
ghost use Rattle.eon_model.specs.Services.{holding_of, backup_holdings};
ghost use Rattle.compact_plan.specs.Sweeps.{centre_at};
ghost use Rattle.compact_plan.specs.Told.{rest_told, move_told, place_at, channels, first_on, first_over, backup_or_floor, rest_at, IsTold, all_moves};

use crate::answers::{Move, Rest};
use crate::block::{height, path_height};
use crate::sweep::end;
use eon_base::name::Name;
use flex_grid::band::Band;
use flex_grid::units::Units;
use leg_state::holding::share_fibre;
use leg_state::{Path, Service, Services};
use std::alloc::{AllocError, Global};

// The centre of the path where it begins at this height.
fn centre(path: &Path, low: u16) -> i16
    requires { low < 8192 }
    ensures { result ≡ centre_at low path.now }
{
    let m = path.slot.m();
    (i32::from(low) + i32::from(m) - 4096) as i16
}

// Whether these units begin at the height.
fn begins_at(units: &Units, low: u16) -> bool
    ensures { result ≡ int_eq (pos low -ℤ pos 4096) units.now.lo }
{
    // Read for what units keep.
    let _ = units.lo();
    low == height(units)
}

// Whether a part of the band begins at the height.
fn is_floor(band: &Band, low: u16) -> bool
    ensures { result ≡ list_any (λ part. int_eq (pos low -ℤ pos 4096) part.lo) band.now }
{
    for i in 0..band.parts() {
        if begins_at(&band.part(i), low) {
            return true;
        }
    }
    false
}

// Whether the path, where it begins at the first height, ends right below the other one, where that begins at the second,
// on a common fibre.
fn is_right_below(path: &Path, low: u16, above: &Path, begin: u16) -> bool
    requires { low < 8192 }
    ensures { result ≡ touches_from_below (place_at low path.now) (place_at begin above.now) }
{
    end(path, low) == begin && share_fibre(&path.route, &above.route)
}

// The same for a path where it stands.
fn stands_right_below(path: &Path, above: &Path, begin: u16) -> bool
    ensures { result ≡ touches_from_below (holding_of path.now) (place_at begin above.now) }
{
    // Read for what a slot keeps.
    let _ = path.slot.m();
    is_right_below(path, path_height(path), above, begin)
}

// Whether the channel of the service, where it begins at the first height, ends right below.
fn channel_right_below(service: &Service, low: u16, above: &Path, begin: u16) -> bool
    requires { low < 8192 }
    ensures { result ≡ touches_from_below (place_at low service.now.leg.work) (place_at begin above.now) }
{
    is_right_below(&service.leg.work, low, above, begin)
}

// Whether the backup of the service stands right below.
fn backup_right_below(service: &Service, above: &Path, begin: u16) -> bool
    ensures { result ≡ list_any (λ b. touches_from_below b (place_at begin above.now)) (backup_holdings service.now.leg) }
{
    match &service.leg.back {
        Some(back) => stands_right_below(back, above, begin),
        None => false,
    }
}

// The first service whose channel, at its lowest place, ends right below the path where it begins at this height.
fn first_channel(services: &Services, lows: &[u16], above: &Path, begin: u16) -> Option<Name>
    requires long { length lows.now ≡ length services.now.list }
    requires small { All (λ h. h < 8192) lows.now }
    ensures { result ≡ first_on (channels services.now.list lows.now) (place_at begin above.now) }
{
    for i in 0..services.len() {
        let service = services.at(i);
        if channel_right_below(service, lows[i], above, begin) {
            return Some(service.name);
        }
    }
    None
}

// The first service whose backup does.
fn first_backup(services: &Services, lows: &[u16], above: &Path, begin: u16) -> Option<Name>
    requires long { length lows.now ≡ length services.now.list }
    ensures { result ≡ first_over (channels services.now.list lows.now) (place_at begin above.now) }
{
    for i in 0..services.len() {
        let service = services.at(i);
        if backup_right_below(service, above, begin) {
            return Some(service.name);
        }
    }
    None
}

// What the path rests on beside the floor and the channels, where it begins at this height; the floor for nothing.
fn rest_on_backup(services: &Services, lows: &[u16], path: &Path, low: u16) -> Rest
    requires long { length lows.now ≡ length services.now.list }
    ensures { rest_told result ≡ backup_or_floor (channels services.now.list lows.now) (place_at low path.now) }
{
    match first_backup(services, lows, path, low) {
        Some(name) => Rest::Over(name),
        None => Rest::Floor,
    }
}

// What the path rests on where it begins at this height; the floor for nothing.
fn rest(services: &Services, band: &Band, lows: &[u16], path: &Path, low: u16) -> Rest
    requires long { length lows.now ≡ length services.now.list }
    requires small { All (λ h. h < 8192) lows.now }
    ensures { rest_told result ≡ rest_at band.now (channels services.now.list lows.now) (place_at low path.now) }
{
    if is_floor(band, low) {
        return Rest::Floor;
    }
    match first_channel(services, lows, path, low) {
        Some(name) => Rest::On(name),
        None => rest_on_backup(services, lows, path, low),
    }
}

// Whether the path begins at this height where it stands.
fn is_at(path: &Path, low: u16) -> bool
    requires { low < 8192 }
    ensures { result ≡ int_eq (centre_at low path.now) path.now.slot.n }
{
    centre(path, low) == path.slot.n()
}

// Whether the channel of the service does.
fn stays(service: &Service, low: u16) -> bool
    requires { low < 8192 }
    ensures { result ≡ int_eq (centre_at low service.now.leg.work) service.now.leg.work.slot.n }
{
    is_at(&service.leg.work, low)
}

// The name of the service.
fn name_of(service: &Service) -> Name
    ensures { result ≡ service.now.name }
{
    service.name
}

// The centre where its channel stands.
fn present_centre(service: &Service) -> i16
    ensures { result ≡ service.now.leg.work.slot.n }
{
    let path = &service.leg.work;
    path.slot.n()
}

// The centre of its channel where it begins at this height.
fn service_centre(service: &Service, low: u16) -> i16
    requires { low < 8192 }
    ensures { result ≡ centre_at low service.now.leg.work }
{
    centre(&service.leg.work, low)
}

// What its channel rests on where it begins at this height; the floor for nothing.
fn service_rest(services: &Services, band: &Band, lows: &[u16], service: &Service, low: u16) -> Rest
    requires long { length lows.now ≡ length services.now.list }
    requires small { All (λ h. h < 8192) lows.now }
    ensures { rest_told result ≡ rest_at band.now (channels services.now.list lows.now) (place_at low service.now.leg.work) }
{
    rest(services, band, lows, &service.leg.work, low)
}

// Puts the move of the service at this place, if it moves, at the end of the list.
fn tell_channel(
    moves: &mut Vec<Move>,
    services: &Services,
    band: &Band,
    lows: &[u16],
    i: usize,
) -> Result<(), AllocError>
    requires number { i < length services.now.list }
    requires long { length lows.now ≡ length services.now.list }
    requires small { All (λ h. h < 8192) lows.now }
    ensures { OnOk result (IsTold moves.old.items moves.new.items band.now (channels services.now.list lows.now) i) }
{
    let service = services.at(i);
    let low = lows[i];
    if stays(service, low) {
        return Ok(());
    }
    moves.push(Move {
        batch: 1,
        name: name_of(service),
        from: present_centre(service),
        to: service_centre(service, low),
        rest: service_rest(services, band, lows, service, low),
        after: None,
    })?;
    Ok(())
}

// The moves of all services, in list order.
pub(crate) fn tell(
    alloc: Global,
    services: &Services,
    band: &Band,
    lows: &[u16],
) -> Result<Vec<Move>, AllocError>
    requires long { length lows.now ≡ length services.now.list }
    requires small { All (λ h. h < 8192) lows.now }
    ensures { IfOk result (λ r. map move_told r.items ≡ all_moves band.now (channels services.now.list lows.now)) }
{
    let mut moves = Vec::new(alloc);
    for i in 0..services.len() {
        tell_channel(&mut moves, services, band, lows, i)?;
    }
    Ok(moves)
}
