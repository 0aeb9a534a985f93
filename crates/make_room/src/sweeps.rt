//! Sweeps over all channels, from the floor of the grid up or from its ceiling down.

ghost use Rattle.std.specs.Prelude.{◌≡◌, ◌<◌, length, IfOk};
ghost use Rattle.make_room.specs.Sweeps.{IsEach, Begins, BeginsLeast, SettlesLeast};

use crate::heights::{Side, begin, least_begin};
use crate::settle::settled;
use flex_grid::band::Band;
use leg_state::{Service, Services};
use std::alloc::{AllocError, Global};

// Where the channel of the service begins.
pub(crate) fn channel_begin(from: Side, service: &Service) -> u16
    ensures { Begins from service.now result }
{
    let path = &service.leg.work;
    begin(from, &path.slot.units())
}

// Where each channel begins, in list order.
pub(crate) fn begins(alloc: Global, from: Side, services: &Services) -> Result<Vec<u16>, AllocError>
    ensures { IfOk result (λ r. IsEach (λ j. Begins from) services.now.list (length services.now.list) r.items) }
{
    let mut begins = Vec::new(alloc);
    for i in 0..services.len() {
        begins.push(channel_begin(from, services.at(i)))?;
    }
    Ok(begins)
}

// The least height at which the channel of the service may begin.
fn channel_least(from: Side, services: &Services, band: &Band, service: &Service) -> u16
    ensures { BeginsLeast from band.now services.now.list service.now result }
{
    least_begin(from, services, band, &service.leg.work)
}

// The least height at which each channel may begin, in list order.
fn least_begins(
    alloc: Global,
    from: Side,
    services: &Services,
    band: &Band,
) -> Result<Vec<u16>, AllocError>
    ensures { IfOk result (λ r. IsEach (λ j. BeginsLeast from band.now services.now.list) services.now.list (length services.now.list) r.items) }
{
    let mut begins = Vec::new(alloc);
    for i in 0..services.len() {
        begins.push(channel_least(from, services, band, services.at(i)))?;
    }
    Ok(begins)
}

// How low each channel can drift, or how high, in list order.
pub(crate) fn extremes(
    alloc: Global,
    from: Side,
    services: &Services,
    band: &Band,
) -> Result<Vec<u16>, AllocError>
    ensures { IfOk result (λ r. SettlesLeast from band.now services.now.list r.items) }
{
    let starts = begins(alloc, from, services)?;
    let limits = least_begins(alloc, from, services, band)?;
    let heights = settled(alloc, services, &starts, &limits, &starts)?;
    Ok(heights)
}
