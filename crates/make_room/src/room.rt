//! What becomes of the wish for a block.

ghost use Rattle.std.specs.Prelude.{◌≡◌, ◌<◌, length, Some, slice_get, IfOk};
ghost use Rattle.make_room.specs.Rooms.{IsRoom, IsRoomBeside};

use crate::shifts::{Shift, all_shifts};
use crate::standing::{first_moving, first_over, first_stuck};
use crate::targets::room_targets;
use eon_base::name::Name;
use flex_grid::band::Band;
use leg_state::{Path, Services};
use std::alloc::{AllocError, Global};

/// Moves, in the order in which they are made.
#[derive(Drop)]
pub struct Shifts {
    pub list: Vec<Shift>,
}

impl Shifts {
    /// How many there are.
    pub fn len(&self) -> usize
        ensures { result ≡ length self.now.list.items }
    {
        self.list.len()
    }

    /// The move at this place, which is below `len`.
    pub fn at(&self, i: usize) -> &Shift
        requires { i < length self.now.list.items }
        ensures { slice_get self.now.list.items i ≡ Some result.now }
    {
        &self.list[i]
    }
}

/// What becomes of the wish for a block.
#[derive(Drop)]
pub enum Room {
    /// This service moves, the first that does.
    Busy { name: Name },
    /// The backup of this service lies over the block, the first that does.
    Over { name: Name },
    /// The channel of this service has a fibre of the block and can be neither below nor above it, the first of this kind.
    At { name: Name },
    /// The moves by which the block becomes free: downwards by ascending centre, and then upwards by descending centre, those
    /// from one centre in list order.
    Moves(Shifts),
}

// The channel that can be neither below nor above the block, or the moves.
fn room_beside(
    alloc: Global,
    services: &Services,
    band: &Band,
    block: &Path,
) -> Result<Room, AllocError>
    ensures { IfOk result (IsRoomBeside band.now services.now.list block.now) }
{
    let targets = room_targets(alloc, services, band, block)?;
    if let Some(name) = first_stuck(services, block, &targets.lows, &targets.highs) {
        return Ok(Room::At { name });
    }
    let list = all_shifts(alloc, services, &targets.downs, &targets.ups)?;
    Ok(Room::Moves(Shifts { list }))
}

/// Which channels must drift so that the block, a route with a slot, becomes free, none moving over another. `Busy` exactly where
/// a service moves. Else `Over` exactly where a backup lies over the block. Else `At` exactly where a channel of its fibres can
/// reach neither side of it, however the channels drift. Else each move goes to the channel's target: the centre nearest to its own
/// with which all channels of one side are clear of the block. It is so on whatever network the services are legal on. Want of
/// memory is the only failure.
pub fn room_for(
    alloc: Global,
    services: &Services,
    band: &Band,
    block: &Path,
) -> Result<Room, AllocError>
    ensures { IfOk result (IsRoom band.now services.now.list block.now) }
{
    if let Some(name) = first_moving(services) {
        return Ok(Room::Busy { name });
    }
    if let Some(name) = first_over(services, block) {
        return Ok(Room::Over { name });
    }
    room_beside(alloc, services, band, block)
}
