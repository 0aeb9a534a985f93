//! Views of the spectrum.

ghost use Rattle.std.specs.Prelude.{◌≡◌, ℕ, ◌<◌, ◌||◌, IsTrue};
ghost use Rattle.std.specs.List.{list_any};
ghost use Rattle.eon_model.specs.Grid.{Band as BandParts, lies_in, span_of};
ghost use Rattle.eon_model.specs.Rows.{Rows, units_in, top_below};
ghost use Rattle.spectrum_map.specs.Bits.{bit_of};
ghost use Rattle.spectrum_map.specs.Kept.{is_unit_that};

use crate::row::Row;
use flex_grid::units::Units;

/// What stands on the fibres of a network, unit by unit of its band. A contract sees the rows: whether each unit of each
/// fibre is lit, and whether a shared backup holds it. No call takes memory.
pub trait Occupied {
    ghost band: { Self → BandParts };

    ghost fibres: { Self → ℕ };

    ghost rows: { Self → Rows };

    /// Whether some of the units is lit on the fibre: it lies in a working channel, or in the backup of a dual service.
    fn lit(&self, fibre: u8, units: Units) -> bool
        requires fibre { fibre < fibres self.now }
        requires units { IsTrue (lies_in (span_of (band self.now)) units) }
        ensures { result ≡ list_any ((rows self.now).lit fibre) (units_in units) };

    /// Whether a shared backup holds some of the units on the fibre.
    fn held(&self, fibre: u8, units: Units) -> bool
        requires fibre { fibre < fibres self.now }
        requires units { IsTrue (lies_in (span_of (band self.now)) units) }
        ensures { result ≡ list_any ((rows self.now).held fibre) (units_in units) };

    /// The greatest unit of the band below `unit` that is lit or held on the fibre. None exactly where there is none.
    fn top_below(&self, fibre: u8, unit: i16) -> Option<i16>
        requires { fibre < fibres self.now }
        ensures { result ≡ top_below (band self.now) (rows self.now) fibre unit };

    /// Marks in the row each unit that is lit on the fibre, and leaves the other places as they are.
    fn join_lit(&self, fibre: u8, row: &mut Row)
        requires { fibre < fibres self.now }
        ensures { (i : ℕ) → bit_of row.new.words i ≡ (bit_of row.old.words i || is_unit_that (band self.now) ((rows self.now).lit fibre) i) };

    /// Marks in the row each unit that a shared backup holds on the fibre, likewise.
    fn join_held(&self, fibre: u8, row: &mut Row)
        requires { fibre < fibres self.now }
        ensures { (i : ℕ) → bit_of row.new.words i ≡ (bit_of row.old.words i || is_unit_that (band self.now) ((rows self.now).held fibre) i) };

    /// Marks in the row each unit that is lit or held on the fibre, likewise.
    fn join_taken(&self, fibre: u8, row: &mut Row)
        requires { fibre < fibres self.now }
        ensures { (i : ℕ) → bit_of row.new.words i ≡ (bit_of row.old.words i || is_unit_that (band self.now) (λ u. (rows self.now).lit fibre u || (rows self.now).held fibre u) i) };
}
