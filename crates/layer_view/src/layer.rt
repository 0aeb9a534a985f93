//! A view that can be changed.

ghost use Rattle.std.specs.Prelude.{◌≡◌, ℕ, ℤ, Bool, ◌<◌, ◌&&◌, ◌||◌, not, length, IsTrue};
ghost use Rattle.std.specs.List.{list_any};
ghost use Rattle.eon_model.specs.Grid.{has_unit, lies_in, span_of};
ghost use Rattle.eon_model.specs.Rows.{with_lit, without_lit};
ghost use Rattle.spectrum_map.specs.Kept.{taken};
ghost use Rattle.layer_view.specs.Kept.{IsWithin};
ghost use Rattle.layer_view.specs.Layers.{Marks, lit_over, rows_over, fibres_over, with_row, IsThere, KeepsShape};

use crate::marks::{greatest_marked, is_some_marked};
use crate::rows::LayerRows;
use flex_grid::units::Units;
use spectrum_map::row::places_of;
use spectrum_map::{Occupied, Row};

/// How many fibres a number of one byte tells apart.
const FIBRES: usize = 256;

/// What stands on the fibres of a network, and what would stand there if some units were lit or dark. Only what is lit can be
/// changed; what shared backups hold is as in the base.
#[derive(Drop)]
pub struct Layer<'a, V: Occupied> {
    base: &'a V,
    rows: &'a mut LayerRows,
    // Whether the row of each fibre was taken over from the base.
    own: [bool; FIBRES],
}

impl<'a, V: Occupied> Layer<'a, V> {
    /// A layer over this base, in which nothing is changed yet. What the rows hold of earlier layers is not seen.
    pub fn over(base: &'a V, rows: &'a mut LayerRows) -> Layer<'a, V>
        requires band { rows.old.band ≡ V.band base.now }
        requires fibres { length rows.old.rows ≡ V.fibres base.now }
        ensures same_reference { result.rows.ghost_name ≡ rows.entry.ghost_name }
        ensures base { result.base.now ≡ base.now }
        ensures kept { result.rows.now ≡ rows.old }
        ensures fibres { fibres_over (V.band base.now) (V.fibres base.now) result.rows.now ≡ V.fibres base.now }
        ensures equal { rows_over (V.rows base.now) result.rows.now result.own ≡ V.rows base.now }
    {
        Layer {
            base,
            rows,
            own: [false; FIBRES],
        }
    }

    // The row of the units that are lit on the fibre.
    fn lit_row(&self, fibre: u8) -> Row
        requires { fibre < fibres_over (V.band self.now.base.now) (V.fibres self.now.base.now) self.now.rows.now }
        ensures { Marks self.now.rows.now.band result.words (lit_over (V.rows self.now.base.now).lit self.now.rows.now self.now.own fibre) }
    {
        if self.own[usize::from(fibre)] {
            return self.rows.row(fibre);
        }
        let mut row = Row::empty();
        self.base.join_lit(fibre, &mut row);
        row
    }

    // Takes the fibre's row over from the base, with these units lit.
    fn take_over(&mut self, fibre: u8, row: Row)
        requires there { fibre < length self.old.rows.now.rows }
        requires within { IsWithin self.old.rows.now.band row.words }
        ensures same_reference { self.new.rows.ghost_name ≡ self.old.rows.ghost_name }
        ensures base { self.new.base ≡ self.old.base }
        ensures shape { KeepsShape self.old.rows.now self.new.rows.now }
        ensures lit { (test : ℤ → Bool) → Marks self.old.rows.now.band row.words test → lit_over (V.rows self.old.base.now).lit self.new.rows.now self.new.own ≡ with_row (lit_over (V.rows self.old.base.now).lit self.old.rows.now self.old.own) self.old.rows.now.band fibre test }
    {
        self.rows.set_row(fibre, row);
        self.own[usize::from(fibre)] = true;
    }

    // Lights the units on the fibre.
    fn light(&mut self, fibre: u8, units: &Units)
        requires fibre { fibre < fibres_over (V.band self.old.base.now) (V.fibres self.old.base.now) self.old.rows.now }
        requires units { IsTrue (lies_in (span_of self.old.rows.now.band) units.now) }
        ensures same_reference { self.new.rows.ghost_name ≡ self.old.rows.ghost_name }
        ensures base { self.new.base ≡ self.old.base }
        ensures shape { KeepsShape self.old.rows.now self.new.rows.now }
        ensures lit { lit_over (V.rows self.old.base.now).lit self.new.rows.now self.new.own ≡ with_row (lit_over (V.rows self.old.base.now).lit self.old.rows.now self.old.own) self.old.rows.now.band fibre (λ u. lit_over (V.rows self.old.base.now).lit self.old.rows.now self.old.own fibre u || has_unit units.now u) }
    {
        let places = places_of(&self.rows.band(), units);
        let mut row = self.lit_row(fibre);
        row.mark(places.first, places.end);
        self.take_over(fibre, row);
    }

    // Makes the units dark on the fibre.
    fn darken(&mut self, fibre: u8, units: &Units)
        requires fibre { fibre < fibres_over (V.band self.old.base.now) (V.fibres self.old.base.now) self.old.rows.now }
        requires units { IsTrue (lies_in (span_of self.old.rows.now.band) units.now) }
        ensures same_reference { self.new.rows.ghost_name ≡ self.old.rows.ghost_name }
        ensures base { self.new.base ≡ self.old.base }
        ensures shape { KeepsShape self.old.rows.now self.new.rows.now }
        ensures lit { lit_over (V.rows self.old.base.now).lit self.new.rows.now self.new.own ≡ with_row (lit_over (V.rows self.old.base.now).lit self.old.rows.now self.old.own) self.old.rows.now.band fibre (λ u. lit_over (V.rows self.old.base.now).lit self.old.rows.now self.old.own fibre u && not (has_unit units.now u)) }
    {
        let places = places_of(&self.rows.band(), units);
        let mut row = self.lit_row(fibre);
        row.clear(places.first, places.end);
        self.take_over(fibre, row);
    }

    /// Lights the units on these fibres in the view. The base stays as it is.
    pub fn set_lit(&mut self, fibres: &[u8], units: Units)
        requires { IsThere (fibres_over (V.band self.old.base.now) (V.fibres self.old.base.now) self.old.rows.now) self.old.rows.now.band (taken fibres.now units) }
        ensures same_reference { self.new.rows.ghost_name ≡ self.old.rows.ghost_name }
        ensures base { self.new.base ≡ self.old.base }
        ensures shape { KeepsShape self.old.rows.now self.new.rows.now }
        ensures rows { rows_over (V.rows self.old.base.now) self.new.rows.now self.new.own ≡ with_lit (taken fibres.now units) (rows_over (V.rows self.old.base.now) self.old.rows.now self.old.own) }
    {
        for fibre in fibres {
            self.light(*fibre, &units);
        }
    }

    /// Makes the units dark on these fibres in the view. The base stays as it is.
    pub fn clear_lit(&mut self, fibres: &[u8], units: Units)
        requires { IsThere (fibres_over (V.band self.old.base.now) (V.fibres self.old.base.now) self.old.rows.now) self.old.rows.now.band (taken fibres.now units) }
        ensures same_reference { self.new.rows.ghost_name ≡ self.old.rows.ghost_name }
        ensures base { self.new.base ≡ self.old.base }
        ensures shape { KeepsShape self.old.rows.now self.new.rows.now }
        ensures rows { rows_over (V.rows self.old.base.now) self.new.rows.now self.new.own ≡ without_lit (taken fibres.now units) (rows_over (V.rows self.old.base.now) self.old.rows.now self.old.own) }
    {
        for fibre in fibres {
            self.darken(*fibre, &units);
        }
    }
}

impl<'a, V: Occupied> Occupied for Layer<'a, V> {
    ghost band = { λ l. l.rows.now.band };

    ghost fibres = { λ l. fibres_over (V.band l.base.now) (V.fibres l.base.now) l.rows.now };

    ghost rows = { λ l. rows_over (V.rows l.base.now) l.rows.now l.own };

    fn lit(&self, fibre: u8, units: Units) -> bool {
        is_some_marked(&self.lit_row(fibre), &self.rows.band(), &units)
    }

    fn held(&self, fibre: u8, units: Units) -> bool {
        self.base.held(fibre, units)
    }

    fn top_below(&self, fibre: u8, unit: i16) -> Option<i16> {
        let mut row = self.lit_row(fibre);
        self.base.join_held(fibre, &mut row);
        greatest_marked(&row, &self.rows.band(), unit)
    }

    fn join_lit(&self, fibre: u8, row: &mut Row) {
        row.join(&self.lit_row(fibre).words);
    }

    fn join_held(&self, fibre: u8, row: &mut Row) {
        self.base.join_held(fibre, row);
    }

    fn join_taken(&self, fibre: u8, row: &mut Row) {
        self.join_lit(fibre, row);
        self.join_held(fibre, row);
    }
}
