//! The units of a band whose places in a row are marked.

ghost use Rattle.std.specs.Prelude.{◌≡◌, ◌<◌, ℤ, pos, ◌+ℤ◌, Bool, IsTrue};
ghost use Rattle.std.specs.List.{list_any};
ghost use Rattle.eon_model.specs.Grid.{lies_in, span_of};
ghost use Rattle.eon_model.specs.Rows.{units_in, greatest_below};
ghost use Rattle.layer_view.specs.Layers.{Marks, EndsBelow};

use flex_grid::band::Band;
use flex_grid::units::Units;
use spectrum_map::Row;
use spectrum_map::row::places_of;

// Whether some of the units is marked.
pub(crate) fn is_some_marked(row: &Row, band: &Band, units: &Units) -> bool
    requires { IsTrue (lies_in (span_of band.now) units.now) }
    ensures { (test : ℤ → Bool) → Marks band.now row.now.words test → result ≡ list_any test (units_in units.now) }
{
    let places = places_of(band, units);
    row.highest(places.first, places.end).is_some()
}

// How many units from the band's lowest on lie below this one, up to its highest.
fn units_below(band: &Band, unit: i16) -> usize
    ensures { EndsBelow band.now unit result }
{
    let lo = i32::from(band.lo());
    let above = i32::from(unit).min(i32::from(band.hi()) + 1);
    if above < lo {
        return 0;
    }
    (above - lo) as usize
}

// The unit of the band with this place.
fn unit_at(band: &Band, place: usize) -> i16
    requires { place < 1024 }
    ensures { result ≡ ((span_of band.now).lo +ℤ pos place) }
{
    (i32::from(band.lo()) + place as i32) as i16
}

// The greatest unit of the band below `unit` that is marked. None exactly where there is none.
pub(crate) fn greatest_marked(row: &Row, band: &Band, unit: i16) -> Option<i16>
    ensures { (test : ℤ → Bool) → Marks band.now row.now.words test → result ≡ greatest_below band.now test unit }
{
    let place = row.highest(0, units_below(band, unit))?;
    Some(unit_at(band, place))
}
