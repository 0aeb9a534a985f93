//! Rows that a layer writes into.

ghost use Rattle.std.specs.Prelude.{◌≡◌, ◌<◌, set, length, IsTrue, IfOk};
ghost use Rattle.eon_model.specs.Grid.{is_band};
ghost use Rattle.layer_view.specs.Kept.{words_at, IsWithin};

use flex_grid::band::Band;
use spectrum_map::Row;
use std::alloc::{AllocError, Global};
use std::marker::Model;

/// A row for each fibre of a network, which one layer after the other borrows. What a layer leaves in them is not seen by
/// the next one.
#[derive(Drop)]
pub struct LayerRows {
    band: Band,
    rows: Vec<Row>,
}

impl Model for LayerRows {
    ghost use Rattle.layer_view.specs.Kept.{KeptRows, AreWithin};

    ghost Value = { KeptRows };

    ghost view = { λ r. record { band = r.band; rows = r.rows.items } };

    ghost invariant = { λ r. AreWithin r.band r.rows.items };
}

impl LayerRows {
    /// Rows of a band on so many fibres.
    pub fn new(alloc: Global, band: Band, fibres: u8) -> Result<LayerRows, AllocError>
        ensures band { IfOk result (λ r. r.band ≡ band) }
        ensures fibres { IfOk result (λ r. length r.rows ≡ fibres) }
    {
        let _ = band.parts();
        let rows = vec![in alloc; Row::empty(); usize::from(fibres)]?;
        Ok(LayerRows { band, rows })
    }

    /// The band.
    pub fn band(&self) -> Band
        ensures { result ≡ self.now.band }
    {
        self.band
    }

    // The row of the fibre.
    pub(crate) fn row(&self, fibre: u8) -> Row
        requires { fibre < length self.now.rows }
        ensures value { result.words ≡ words_at self.now.rows fibre }
        ensures within { IsWithin self.now.band result.words }
        ensures valid { IsTrue (is_band self.now.band) }
    {
        self.rows[usize::from(fibre)]
    }

    // Puts a row in place of the fibre's.
    pub(crate) fn set_row(&mut self, fibre: u8, row: Row)
        requires there { fibre < length self.old.rows }
        requires within { IsWithin self.old.band row.words }
        ensures band { self.new.band ≡ self.old.band }
        ensures rows { self.new.rows ≡ set self.old.rows fibre row }
        ensures valid { IsTrue (is_band self.old.band) }
    {
        self.rows[usize::from(fibre)] = row;
    }
}
