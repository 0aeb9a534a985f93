//! Moves that have their batch.

ghost use Rattle.std.specs.Prelude.{◌≡◌};
ghost use Rattle.std.specs.List.{fold};
ghost use Rattle.plan_batches.specs.Awaited as awaited;

use crate::mover::Mover;
use eon_base::name::Name;

// A move that has its batch.
#[derive(Clone, Copy)]
pub(crate) struct Turn {
    // The place of the move in the list.
    pub(crate) place: usize,
    // The name of its service.
    pub(crate) name: Name,
    pub(crate) batch: usize,
    // How many units of the grid lie below the first one above its channel, where that stands.
    pub(crate) end: u16,
}

// Whether the channel stands below the mover, which drifts into its place: on a common fibre the mover waits for it.
fn is_met(mover: &Mover, turn: &Turn) -> bool
    ensures { result ≡ awaited.is_met mover.now turn.now }
{
    turn.end <= mover.low && mover.reach < turn.end
}

// Whether it has a later batch than the other, or the same one and stands before it in the list.
fn is_sooner(turn: &Turn, other: &Turn) -> bool
    ensures { result ≡ awaited.is_sooner turn.now other.now }
{
    turn.batch > other.batch || turn.batch == other.batch && turn.place < other.place
}

// The one of the two that has the later batch, or else stands first in the list.
fn sooner(turn: &Turn, other: Option<Turn>) -> Turn
    ensures { result ≡ awaited.sooner turn.now other }
{
    match other {
        Some(first) => {
            if is_sooner(turn, &first) {
                *turn
            } else {
                first
            }
        }
        None => *turn,
    }
}

// What the mover waits for, where it waited for the first one before.
fn awaited(mover: &Mover, first: Option<Turn>, turn: &Turn) -> Option<Turn>
    ensures { result ≡ awaited.awaited mover.now first turn.now }
{
    if is_met(mover, turn) {
        Some(sooner(turn, first))
    } else {
        first
    }
}

// What the mover waits for, of these and the first one.
pub(crate) fn awaited_of(mover: &Mover, first: Option<Turn>, turns: &[Turn]) -> Option<Turn>
    ensures { result ≡ fold (awaited.awaited mover.now) first turns.now }
{
    let mut found = first;
    for turn in turns {
        found = awaited(mover, found, turn);
    }
    found
}
