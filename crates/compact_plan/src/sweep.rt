//! One sweep upwards: each channel settles on the highest of the floor of its part of the band and of what lies below it.

ghost use Rattle.std.specs.Prelude.{◌≡◌, ℕ, ◌+◌, ◌<◌, ◌≤◌, length, All, IfOk};
ghost use Rattle.std.specs.List.Sorted.{IsNonDecreasingBy};
ghost use Rattle.compact_plan.specs.Blocks as blocks;
ghost use Rattle.compact_plan.specs.Blocks.{AreBlocks};
ghost use Rattle.compact_plan.specs.Tops.{floor_height, settled_height, end_height, IsTopOver, Raises};
ghost use Rattle.compact_plan.specs.Sweeps.{TakesBlock, LeavesLowest};

use crate::block::{Block, height, path_height};
use crate::row::{FIBRES, raise, top_over};
use flex_grid::band::Band;
use leg_state::{Path, Services};
use std::alloc::{AllocError, Global};

// How many units of the grid lie below the part of the band where the path stands; below the path where it stands in none.
fn floor(band: &Band, path: &Path) -> u16
    ensures value { result ≡ floor_height band.now path.now }
    ensures small { result < 8192 }
{
    let units = path.slot.units();
    match band.part_of(&units) {
        Some(part) => height(&part),
        None => height(&units),
    }
}

// How many units of the grid lie below the channel where it settles: on the highest of the floor of its part and of the
// tops of its fibres, and not above where it stands.
fn settle(tops: &[u16], band: &Band, path: &Path) -> u16
    requires { length tops.now ≡ 256 }
    ensures low { result ≤ blocks.path_height path.now }
    ensures small { result < 8192 }
    ensures settled { (top : ℕ) × IsTopOver tops.now path.now.route.fibres (floor_height band.now path.now) top × (result ≡ settled_height top path.now) }
{
    top_over(tops, path.route.fibres(), floor(band, path)).min(path_height(path))
}

// How many units of the grid lie below the first one above the path, which begins at this height.
pub(crate) fn end(path: &Path, low: u16) -> u16
    requires { low < 8192 }
    ensures { result ≡ end_height low path.now }
{
    let m = path.slot.m();
    low + (m + m)
}

// Takes up what the block has on its fibres: a backup stands, and a channel settles.
fn take_block(tops: &mut [u16], lows: &mut [u16], services: &Services, band: &Band, block: &Block)
    requires tops { length tops.old ≡ 256 }
    requires number { block.now.number < length services.now.list }
    requires lows { length lows.old ≡ length services.now.list }
    ensures { TakesBlock services.now.list band.now block.now tops.old tops.new lows.old lows.new }
{
    let leg = &services.at(block.number).leg;
    if block.is_backup {
        if let Some(back) = &leg.back {
            raise(tops, back.route.fibres(), end(back, path_height(back)));
        }
        return;
    }
    let path = &leg.work;
    let low = settle(tops, band, path);
    lows[block.number] = low;
    raise(tops, path.route.fibres(), end(path, low));
}

// Takes up all blocks, and tells how many units of the grid lie below the lowest place of each channel, in list order.
fn take_all(lows: &mut [u16], services: &Services, band: &Band, blocks: &[Block])
    requires blocks { AreBlocks services.now.list blocks.now }
    requires order { IsNonDecreasingBy (λ b. b.height) blocks.now }
    requires long { length lows.old ≡ length services.now.list }
    requires small { All (λ h. h < 8192) lows.old }
    ensures long { length lows.new ≡ length services.now.list }
    ensures small { All (λ h. h < 8192) lows.new }
    ensures lowest { LeavesLowest band.now services.now.list lows.new }
{
    let mut tops = [0; FIBRES];
    for block in blocks {
        take_block(&mut tops, lows, services, band, block);
    }
}

// How many units of the grid lie below the lowest place of each channel, in list order.
pub(crate) fn sweep(
    alloc: Global,
    services: &Services,
    band: &Band,
    blocks: &[Block],
) -> Result<Vec<u16>, AllocError>
    requires blocks { AreBlocks services.now.list blocks.now }
    requires order { IsNonDecreasingBy (λ b. b.height) blocks.now }
    ensures long { IfOk result (λ r. length r.items ≡ length services.now.list) }
    ensures small { IfOk result (λ r. All (λ h. h < 8192) r.items) }
    ensures lowest { IfOk result (λ r. LeavesLowest band.now services.now.list r.items) }
{
    let mut lows = vec![in alloc; 0; services.len()]?;
    take_all(&mut lows, services, band, blocks);
    Ok(lows)
}
