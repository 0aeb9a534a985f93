//! What keeps a block from becoming free.

ghost use Rattle.std.specs.Prelude.{◌≡◌, ◌≤◌};
ghost use Rattle.eon_model.specs.Room as model;
ghost use Rattle.eon_model.specs.Room.{leeways_of};
ghost use Rattle.eon_model.specs.Services.{collides, holding_of};
ghost use Rattle.make_room.specs.Rooms.{AreHeights, first_moving, stuck_so};
ghost use Rattle.make_room.specs.Sweeps.{centres_from};

use crate::heights::Side;
use crate::sides::ends_before;
use eon_base::name::Name;
use leg_state::holding::{path_span, share_fibre};
use leg_state::{Path, Service, Services};

// The name of the first service that moves.
pub(crate) fn first_moving(services: &Services) -> Option<Name>
    ensures { result ≡ first_moving services.now.list }
{
    for i in 0..services.len() {
        let service = services.at(i);
        if service.is_moving() {
            return Some(service.name);
        }
    }
    None
}

// Whether the path overlaps the block on a common fibre.
fn overlaps(path: &Path, block: &Path) -> bool
    ensures { result ≡ collides (holding_of path.now) (holding_of block.now) }
{
    path_span(path).overlaps(&path_span(block)) && share_fibre(&path.route, &block.route)
}

// Whether the backup of the service lies over the block.
fn is_over(service: &Service, block: &Path) -> bool
    ensures { result ≡ model.is_over block.now service.now }
{
    match &service.leg.back {
        Some(back) => overlaps(back, block),
        None => false,
    }
}

// The name of the first service with a backup over the block.
pub(crate) fn first_over(services: &Services, block: &Path) -> Option<Name>
    ensures { result ≡ model.first_over block.now services.now.list }
{
    for i in 0..services.len() {
        let service = services.at(i);
        if is_over(service, block) {
            return Some(service.name);
        }
    }
    None
}

// Whether a path with these lowest and highest places has a fibre of the block, and can be neither below nor above it.
fn is_stuck(block: &Path, path: &Path, low: u16, high: u16) -> bool
    requires low { low ≤ 8192 }
    requires high { high ≤ 8192 }
    ensures { result ≡ stuck_so block.now path.now low high }
{
    share_fibre(&path.route, &block.route)
        && !ends_before(Side::Floor, low, path, block)
        && !ends_before(Side::Ceiling, high, path, block)
}

// The same for the channel of a service.
fn channel_is_stuck(block: &Path, service: &Service, low: u16, high: u16) -> bool
    requires low { low ≤ 8192 }
    requires high { high ≤ 8192 }
    ensures { result ≡ stuck_so block.now service.now.leg.work low high }
{
    is_stuck(block, &service.leg.work, low, high)
}

// The name of the first service whose channel, with these lowest and highest places, can be neither below nor above the block.
pub(crate) fn first_stuck(
    services: &Services,
    block: &Path,
    lows: &[u16],
    highs: &[u16],
) -> Option<Name>
    requires lows { AreHeights services.now.list lows.now }
    requires highs { AreHeights services.now.list highs.now }
    ensures { result ≡ model.first_stuck block.now (leeways_of services.now.list (centres_from Side.Floor services.now.list lows.now)
        (centres_from Side.Ceiling services.now.list highs.now)) }
{
    // Read for what a slot keeps.
    let _ = block.slot.m();
    for i in 0..services.len() {
        let service = services.at(i);
        if channel_is_stuck(block, service, lows[i], highs[i]) {
            return Some(service.name);
        }
    }
    None
}
