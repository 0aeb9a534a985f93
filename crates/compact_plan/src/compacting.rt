//! What `compact` comes to.

ghost use Rattle.std.specs.Prelude.{◌≡◌, map, IfOk};
ghost use Rattle.compact_plan.specs.Told.{move_told, first_moving, AreMoves, IsCompact};

use crate::answers::{Compact, Moves, Targets};
use crate::block::blocks_in_order;
use crate::sweep::sweep;
use crate::telling::tell;
use eon_base::name::Name;
use flex_grid::band::Band;
use leg_state::Services;
use std::alloc::{AllocError, Global};

// The name of the first service that moves.
fn first_busy(services: &Services) -> Option<Name>
    ensures { result ≡ first_moving services.now.list }
{
    for i in 0..services.len() {
        let service = services.at(i);
        if service.is_moving() {
            return Some(service.name);
        }
    }
    None
}

// The moves of all channels to their lowest places.
fn lowest(alloc: Global, services: &Services, band: &Band) -> Result<Targets, AllocError>
    ensures { IfOk result (λ t. AreMoves band.now services.now.list (map move_told t.moves.list.items)) }
{
    let blocks = blocks_in_order(alloc, services)?;
    let lows = sweep(alloc, services, band, &blocks)?;
    let list = tell(alloc, services, band, &lows)?;
    Ok(Targets {
        moves: Moves { list },
    })
}

/// How low every channel can drift. `Busy` exactly where a service moves, with the first in list order; else the moves of
/// the channels whose lowest place is not their own, in list order: the least centre over all states that any unit drifts
/// of any channels reach, every state on the way legal. Each says what the channel rests on there: the floor of its part of
/// the band, else the first channel at its own lowest place, else the first backup that ends right below it on a common
/// fibre. All are told in batch 1 and after none, since the batches are not made yet. Want of memory is the only failure.
pub fn compact(alloc: Global, services: &Services, band: &Band) -> Result<Compact, AllocError>
    ensures { IfOk result (IsCompact band.now services.now.list) }
{
    match first_busy(services) {
        Some(name) => Ok(Compact::Busy { name }),
        None => Ok(Compact::Lowest(lowest(alloc, services, band)?)),
    }
}
