//! What a sweep upwards comes upon: channels and backups by their lowest unit.

ghost use Rattle.std.specs.Prelude.{◌≡◌, ◌++◌, ◌<◌, IfOk, OnOk};
ghost use Rattle.std.specs.List.Sorted.{IsNonDecreasingBy};
ghost use Rattle.compact_plan.specs.Blocks as blocks;
ghost use Rattle.compact_plan.specs.Blocks.{height_of, blocks_of, AreBlocks};

use flex_grid::units::Units;
use leg_state::{Path, Service, Services};
use std::alloc::{AllocError, Global};

// A channel, or a backup, of a service.
#[derive(Clone, Copy)]
pub(crate) struct Block {
    // How many units of the grid lie below it.
    pub(crate) height: u16,
    // The place of its service in the list.
    pub(crate) number: usize,
    pub(crate) is_backup: bool,
}

// How many units of the grid lie below these.
pub(crate) fn height(units: &Units) -> u16
    ensures value { result ≡ height_of units.now.lo }
    ensures small { result < 8192 }
{
    (i32::from(units.lo()) + 4096) as u16
}

/// How many units of the grid lie below the path.
pub fn path_height(path: &Path) -> u16
    ensures value { result ≡ blocks.path_height path.now }
    ensures small { result < 8192 }
{
    height(&path.slot.units())
}

// Puts the channel of the service, and its backup, at the end of the list.
fn list_service(blocks: &mut Vec<Block>, number: usize, service: &Service) -> Result<(), AllocError>
    ensures { OnOk result (blocks.new.items ≡ blocks.old.items ++ blocks_of number service.now) }
{
    blocks.push(Block {
        height: path_height(&service.leg.work),
        number,
        is_backup: false,
    })?;
    if let Some(back) = &service.leg.back {
        blocks.push(Block {
            height: path_height(back),
            number,
            is_backup: true,
        })?;
    }
    Ok(())
}

// The channels and backups of all services, in list order.
fn all_blocks(alloc: Global, services: &Services) -> Result<Vec<Block>, AllocError>
    ensures { IfOk result (λ r. AreBlocks services.now.list r.items) }
{
    let mut blocks = Vec::new(alloc);
    for i in 0..services.len() {
        list_service(&mut blocks, i, services.at(i))?;
    }
    Ok(blocks)
}

// The channels and backups of all services, from the lowest up.
pub(crate) fn blocks_in_order(alloc: Global, services: &Services) -> Result<Vec<Block>, AllocError>
    ensures blocks { IfOk result (λ r. AreBlocks services.now.list r.items) }
    ensures order { IfOk result (λ r. IsNonDecreasingBy (λ b. b.height) r.items) }
{
    let mut blocks = all_blocks(alloc, services)?;
    blocks.sort_by_key(|block| block.height)?;
    Ok(blocks)
}
