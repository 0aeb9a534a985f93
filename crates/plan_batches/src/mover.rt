//! Channels that move.

ghost use Rattle.std.specs.Prelude.{◌≡◌, ◌≤ℤ◌, pos, ◌+ℤ◌};
ghost use Rattle.std.specs.Int.{int_max};
ghost use Rattle.eon_model.specs.Grid.{units_of, moved_to, hull};
ghost use Rattle.plan_batches.specs.Movers.{IsMover};

use compact_plan::{Move, path_height};
use leg_state::holding::{Span, path_span};
use leg_state::{Path, Service};

// A channel that moves, by how many units of the grid lie below it.
#[derive(Clone, Copy)]
pub(crate) struct Mover {
    // The place of its move in the list.
    pub(crate) place: usize,
    // How many lie below it where it stands.
    pub(crate) low: u16,
    // How many lie below the first unit above it there.
    pub(crate) end: u16,
    // How many lie below all units that it drifts over.
    pub(crate) reach: u16,
}

// How many units of the grid lie below this one, which is not above the grid.
fn height(unit: i32) -> u16
    requires { unit ≤ℤ pos 4095 }
    ensures { pos result ≡ int_max (pos 0) (unit +ℤ pos 4096) }
{
    unit.saturating_add(4096).max(0) as u16
}

// How many lie below all units that the path drifts over, up or down to this centre.
fn reach(path: &Path, to: i16) -> u16
    ensures { pos result ≡ int_max (pos 0) ((hull (units_of path.now.slot) (units_of (moved_to path.now.slot to))).lo +ℤ pos 4096) }
{
    // Read for what a slot keeps.
    let _ = path.slot.m();
    height(path_span(path).hull(&Span::around(to, &path.slot)).lo())
}

// The channel of the service, whose move stands at this place.
pub(crate) fn mover_of(place: usize, service: &Service, target: &Move) -> Mover
    ensures at { result.place ≡ place }
    ensures mover { IsMover service.now target.now.to result }
{
    let path = &service.leg.work;
    let m = path.slot.m();
    let low = path_height(path);
    Mover {
        place,
        low,
        end: low + (m + m),
        reach: reach(path, target.to),
    }
}
