//! The leg of a placement.

ghost use Rattle.std.specs.Prelude.{◌≡◌, IsTrue};
ghost use Rattle.std.specs.Option.{option_map, option_and_then};
ghost use Rattle.eon_model.specs.Grid.{is_slot};
ghost use Rattle.eon_model.specs.FirstFit.{path_at, leg_placed};
ghost use Rattle.admission.specs.Told.{placement_at, can_be_made, back_can_be_made};

use crate::placing::Found;
use leg_state::{Leg, Pair, Path, Slot, Spare};

// The slot, which is one of the grid.
fn slot_at(n: i16, m: u16) -> Slot
    requires { IsTrue (is_slot (record { n = n; m = m })) }
    ensures { result ≡ record { n = n; m = m } }
{
    match Slot::make(n, m) {
        Some(slot) => slot,
        None => unreachable!(),
    }
}

// The backup path of a placement.
fn back_at(spare: Option<Spare>, n: Option<i16>) -> Option<Path>
    requires { IsTrue (back_can_be_made spare n) }
    ensures { result ≡ option_and_then (λ b. option_map (path_at b) n) spare }
{
    let spare = spare?;
    let n = n?;
    Some(Path {
        slot: slot_at(n, spare.m),
        route: spare.route,
    })
}

/// The leg of a placement on this pair: its paths at the centres that were found. It stands still.
pub fn leg_at(pair: Pair, found: Found) -> Leg
    requires { IsTrue (can_be_made pair found) }
    ensures { result ≡ leg_placed (placement_at pair found) }
{
    Leg {
        work: Path {
            slot: slot_at(found.work_n, pair.work_m),
            route: pair.work,
        },
        to: None,
        back: back_at(pair.back, found.back_n),
    }
}
