//! Where the channels can go to make room for a block.

ghost use Rattle.std.specs.Prelude.{◌≡◌, ◌≤◌, ◌+◌, ◌-◌, length, All, IfOk};
ghost use Rattle.eon_model.specs.Grid.{units_of};
ghost use Rattle.make_room.specs.Sweeps.{IsEach, BeginsClear, BeginsWithin, SettlesClear, clear_begin, bound_of};
ghost use Rattle.make_room.specs.Sides.{beyond_so, goes_so};
ghost use Rattle.make_room.specs.Targets.{bounds_from, TellsTargets};
ghost use Rattle.make_room.specs.Rooms.{AreAllHeights};

use crate::heights::{GRID, Side, end};
use crate::settle::settled;
use crate::sides::goes_beyond;
use crate::sweeps::{begins, channel_begin, extremes};
use flex_grid::band::Band;
use leg_state::{Path, Service, Services};
use std::alloc::{AllocError, Global};

/// Where each channel can go, in list order: how many units of the grid come before it there. They are counted from the lowest
/// unit up for `lows` and `ups`, and from the highest down for `highs` and `downs`.
#[derive(Drop)]
pub struct Targets {
    /// At its lowest place.
    pub lows: Vec<u16>,
    /// At its highest place.
    pub highs: Vec<u16>,
    /// At its target where room is made downwards.
    pub downs: Vec<u16>,
    /// At its target where room is made upwards.
    pub ups: Vec<u16>,
}

// The least height at which the channel of the service may begin: its own, and behind the block where it goes beyond it.
fn channel_clear(from: Side, block: &Path, service: &Service, low: u16, high: u16) -> u16
    requires low { low ≤ 8192 }
    requires high { high ≤ 8192 }
    ensures { result ≡ clear_begin from (units_of block.now.slot) (beyond_so from block.now service.now.leg.work low high) service.now }
{
    let own = channel_begin(from, service);
    if goes_beyond(from, block, service, low, high) {
        return own.max(end(from, &block.slot.units()));
    }
    own
}

// Those of all channels, in list order.
fn clear_begins(
    alloc: Global,
    from: Side,
    services: &Services,
    block: &Path,
    lows: &[u16],
    highs: &[u16],
) -> Result<Vec<u16>, AllocError>
    requires lows { length lows.now ≡ length services.now.list }
    requires highs { length highs.now ≡ length services.now.list }
    requires few { All (λ h. h ≤ 8192) lows.now }
    requires small { All (λ h. h ≤ 8192) highs.now }
    ensures { IfOk result (λ r. IsEach (BeginsClear from (units_of block.now.slot) (goes_so from block.now lows.now highs.now)) services.now.list (length services.now.list) r.items) }
{
    let mut begins = Vec::new(alloc);
    for i in 0..services.len() {
        begins.push(channel_clear(from, block, services.at(i), lows[i], highs[i]))?;
    }
    Ok(begins)
}

// Where a path begins, from the other side, that begins at this height.
fn turned(path: &Path, at: u16) -> u16
    requires { at ≤ 8192 }
    ensures value { result ≡ 8192 - (at + (path.now.slot.m + path.now.slot.m)) }
    ensures small { result ≤ 8192 }
{
    let m = path.slot.m();
    GRID.saturating_sub(at + (m + m))
}

// The same for the channel of a service.
fn bound(service: &Service, at: u16) -> u16
    requires { at ≤ 8192 }
    ensures value { result ≡ bound_of service.now at }
    ensures small { result ≤ 8192 }
{
    turned(&service.leg.work, at)
}

// How far each channel may go, in list order, that begins at these heights from the other side.
fn bounds(alloc: Global, services: &Services, heights: &[u16]) -> Result<Vec<u16>, AllocError>
    requires heights { length heights.now ≡ length services.now.list }
    requires few { All (λ h. h ≤ 8192) heights.now }
    ensures { IfOk result (λ r. IsEach (BeginsWithin heights.now) services.now.list (length services.now.list) r.items) }
{
    let mut begins = Vec::new(alloc);
    for i in 0..services.len() {
        begins.push(bound(services.at(i), heights[i]))?;
    }
    Ok(begins)
}

// How far each channel may go in a sweep from this side: to its place at the other end.
fn bounds_beyond(
    alloc: Global,
    from: Side,
    services: &Services,
    lows: &[u16],
    highs: &[u16],
) -> Result<Vec<u16>, AllocError>
    requires lows { length lows.now ≡ length services.now.list }
    requires highs { length highs.now ≡ length services.now.list }
    requires few { All (λ h. h ≤ 8192) lows.now }
    requires small { All (λ h. h ≤ 8192) highs.now }
    ensures { IfOk result (λ r. IsEach (BeginsWithin (bounds_from from lows.now highs.now)) services.now.list (length services.now.list) r.items) }
{
    match from {
        Side::Ceiling => bounds(alloc, services, lows),
        Side::Floor => bounds(alloc, services, highs),
    }
}

// Where each channel settles that goes no further than the block asks, in list order.
fn clear(
    alloc: Global,
    from: Side,
    services: &Services,
    block: &Path,
    lows: &[u16],
    highs: &[u16],
) -> Result<Vec<u16>, AllocError>
    requires lows { length lows.now ≡ length services.now.list }
    requires highs { length highs.now ≡ length services.now.list }
    requires few { All (λ h. h ≤ 8192) lows.now }
    requires small { All (λ h. h ≤ 8192) highs.now }
    ensures { IfOk result (λ r. SettlesClear from services.now.list (units_of block.now.slot) (goes_so from block.now lows.now highs.now) (bounds_from from lows.now highs.now) r.items) }
{
    let starts = begins(alloc, from, services)?;
    let limits = clear_begins(alloc, from, services, block, lows, highs)?;
    let caps = bounds_beyond(alloc, from, services, lows, highs)?;
    let heights = settled(alloc, services, &starts, &limits, &caps)?;
    Ok(heights)
}

/// How low and how high each channel can drift, and to where it goes so that the block becomes free: the greatest centres with
/// which room is made downwards, and the least ones with which it is made upwards, none moving over another. It is so in each
/// legal state at rest, whatever the network. Want of memory is the only failure.
pub fn room_targets(
    alloc: Global,
    services: &Services,
    band: &Band,
    block: &Path,
) -> Result<Targets, AllocError>
    ensures targets { IfOk result (TellsTargets band.now services.now.list block.now) }
    ensures heights { IfOk result (AreAllHeights services.now.list) }
{
    // Read for what a slot keeps.
    let _ = block.slot.m();
    let lows = extremes(alloc, Side::Floor, services, band)?;
    let highs = extremes(alloc, Side::Ceiling, services, band)?;
    let downs = clear(alloc, Side::Ceiling, services, block, &lows, &highs)?;
    let ups = clear(alloc, Side::Floor, services, block, &lows, &highs)?;
    Ok(Targets {
        lows,
        highs,
        downs,
        ups,
    })
}
