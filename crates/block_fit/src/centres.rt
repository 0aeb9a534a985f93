//! The lowest slot that is free.

ghost use Rattle.std.specs.Prelude.{◌≡◌, ℕ, ◌<◌, ◌≤◌, pos, ◌+ℤ◌, nat_le, int_le, ◌||◌};
ghost use Rattle.std.specs.List.{AllByRecursion, list_any};
ghost use Rattle.eon_model.specs.Grid.{span_of};
ghost use Rattle.eon_model.specs.FirstInRows.{least_free};
ghost use Rattle.spectrum_map.specs.Bits.{bit_of};
ghost use Rattle.spectrum_map.specs.Kept.{is_unit_that, place_of};
ghost use Rattle.block_fit.specs.Blocks.{least_clear};

use crate::outside::outside;
use crate::runs::lowest_run;
use flex_grid::band::Band;
use spectrum_map::{Occupied, Row};

/// The greatest width of a slot, times 12.5 GHz.
const MAX_WIDTH: u16 = 512;

// The lowest place at which a slot of this width begins whose centre is `from` or above.
fn first_place(band: &Band, m: u16, from: i16) -> usize
    ensures few { result ≤ 1024 }
    ensures place { (p : ℕ) → p < 1024 → nat_le result p ≡ int_le from (((span_of band.now).lo +ℤ pos p) +ℤ pos m) }
{
    let units = i32::from(from) - i32::from(m) - i32::from(band.lo());
    units.clamp(0, 1024) as usize
}

// The centre of the slot of this width that begins at the place.
fn centre_at(band: &Band, place: usize, m: u16) -> i16
    requires place { place < 1024 }
    requires width { m ≤ 512 }
    ensures { result ≡ (((span_of band.now).lo +ℤ pos place) +ℤ pos m) }
{
    (i32::from(band.lo()) + place as i32 + i32::from(m)) as i16
}

/// The least centre, at least `from`, whose slot of width m, times 12.5 GHz, lies in one part of the band with no unit
/// marked in the row. None exactly where there is none.
pub fn lowest_unmarked(row: &Row, m: u16, band: &Band, from: i16) -> Option<i16>
    ensures { result ≡ least_clear (λ u. bit_of row.now.words (place_of band.now u)) m band.now from }
{
    // Read for what a band keeps.
    let _ = band.parts();
    if m == 0 || m > MAX_WIDTH {
        return None;
    }
    let mut marked = outside(band);
    marked.join(&row.words);
    marked.mark(0, first_place(band, m, from));
    let place = lowest_run(&marked, 2 * usize::from(m))?;
    Some(centre_at(band, place, m))
}

// Marks in the row the units that are lit or held on some of the fibres.
fn join_all<V: Occupied>(view: &V, fibres: &[u8], row: &mut Row)
    requires { AllByRecursion (λ fibre. fibre < V.fibres view.now) fibres.now }
    ensures { (i : ℕ) → bit_of row.new.words i ≡ (bit_of row.old.words i || is_unit_that (V.band view.now) (λ u. list_any (λ fibre. (V.rows view.now).lit fibre u || (V.rows view.now).held fibre u) fibres.now) i) }
{
    for fibre in fibres {
        view.join_taken(*fibre, row);
    }
}

// The row of the units that are lit or held on some of the fibres.
fn taken<V: Occupied>(view: &V, fibres: &[u8]) -> Row
    requires { AllByRecursion (λ fibre. fibre < V.fibres view.now) fibres.now }
    ensures { (i : ℕ) → bit_of result.words i ≡ is_unit_that (V.band view.now) (λ u. list_any (λ fibre. (V.rows view.now).lit fibre u || (V.rows view.now).held fibre u) fibres.now) i }
{
    let mut row = Row::empty();
    join_all(view, fibres, &mut row);
    row
}

/// The least centre, at least `from`, whose slot of width m, times 12.5 GHz, lies in one part of the band with no unit
/// lit or held on the fibres. None exactly where there is none.
pub fn lowest<V: Occupied>(view: &V, fibres: &[u8], m: u16, band: Band, from: i16) -> Option<i16>
    requires band { band ≡ V.band view.now }
    requires fibres { AllByRecursion (λ fibre. fibre < V.fibres view.now) fibres.now }
    ensures { result ≡ least_free (V.rows view.now) fibres.now m band from }
{
    // Read for what a band keeps.
    let _ = band.parts();
    lowest_unmarked(&taken(view, fibres), m, &band, from)
}
