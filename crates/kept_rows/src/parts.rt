//! The parts of a leg that rows keep.

ghost use Rattle.std.specs.Prelude.{◌≡◌, ◌≤ℤ◌, pos, negsuc, IsTrue};
ghost use Rattle.std.specs.Option.{option_copied};
ghost use Rattle.eon_model.specs.Grid.{is_units};
ghost use Rattle.eon_model.specs.Services.{drift_units};
ghost use Rattle.kept_rows.specs.Standing.{lit_backup, shared_backup};

use flex_grid::units::Units;
use leg_state::holding::{Span, channel_span};
use leg_state::{Class, Leg, Path};

// The number of a unit that lies on the grid.
fn short(unit: i32) -> i16
    requires low { negsuc 4095 ≤ℤ unit }
    requires high { unit ≤ℤ pos 4095 }
    ensures { result ≡ unit }
{
    unit as i16
}

// The units of the span, which lies on the grid.
pub(crate) fn units_in(span: &Span) -> Units
    requires { IsTrue (is_units span.now) }
    ensures { result ≡ span.now }
{
    match Units::make(short(span.lo()), short(span.hi())) {
        Some(units) => units,
        None => unreachable!(),
    }
}

// The units of the leg's channel, which lie on the grid.
pub(crate) fn channel_units(leg: &Leg) -> Units
    requires { IsTrue (is_units (drift_units leg.now.work.slot leg.now.to)) }
    ensures { result ≡ drift_units leg.now.work.slot leg.now.to }
{
    units_in(&channel_span(leg))
}

// The backup of the leg, if it is always lit.
pub(crate) fn lit_backup<'a>(class: Class, leg: &'a Leg) -> Option<&'a Path>
    ensures { option_copied result ≡ lit_backup class leg.now }
{
    if class.dual() {
        leg.back.as_ref()
    } else {
        None
    }
}

// The backup of the leg, if others may share its units.
pub(crate) fn shared_backup<'a>(class: Class, leg: &'a Leg) -> Option<&'a Path>
    ensures { option_copied result ≡ shared_backup class leg.now }
{
    if class.shared() {
        leg.back.as_ref()
    } else {
        None
    }
}
