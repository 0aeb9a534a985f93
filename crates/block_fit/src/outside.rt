//! Where a band has no units.

ghost use Rattle.std.specs.Prelude.{◌≡◌, ℕ, pos, ◌+ℤ◌, ◌&&◌, not, nat_lt, IsTrue};
ghost use Rattle.std.specs.List.{list_any};
ghost use Rattle.eon_model.specs.Grid.{has_unit, lies_in, span_of};
ghost use Rattle.spectrum_map.specs.Bits.{bit_of};
ghost use Rattle.block_fit.specs.Blocks.{is_in_parts};

use flex_grid::band::Band;
use flex_grid::units::Units;
use spectrum_map::Row;
use spectrum_map::row::places_of;

// Takes the marks off the units of a part.
fn clear_part(row: &mut Row, band: &Band, part: &Units)
    requires { IsTrue (lies_in (span_of band.now) part.now) }
    ensures { (i : ℕ) → bit_of row.new.words i ≡ (bit_of row.old.words i && not (has_unit part.now ((span_of band.now).lo +ℤ pos i))) }
{
    let places = places_of(band, part);
    row.clear(places.first, places.end);
}

// Takes the marks off the units of all parts.
fn clear_parts(row: &mut Row, band: &Band)
    ensures { (i : ℕ) → bit_of row.new.words i ≡ (bit_of row.old.words i && not (is_in_parts band.now ((span_of band.now).lo +ℤ pos i))) }
{
    for i in 0..band.parts() {
        clear_part(row, band, &band.part(i));
    }
}

/// The row in which each place is marked but those of the units that lie in parts of the band.
pub fn outside(band: &Band) -> Row
    ensures { (i : ℕ) → bit_of result.words i ≡ (nat_lt i 1024 && not (is_in_parts band.now ((span_of band.now).lo +ℤ pos i))) }
{
    let mut row = Row::full();
    clear_parts(&mut row, band);
    row
}
