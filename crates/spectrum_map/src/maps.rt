//! The spectrum of a network in words.

ghost use Rattle.std.specs.Prelude.{◌≡◌, ℕ, ◌+◌, ◌*◌, ◌<◌, ◌≤◌, ℤ, pos, ◌+ℤ◌, ◌≤ℤ◌, nat_abs, nat_le, nat_lt, ◌&&◌, not, ◌==◌, IsTrue, IfOk, length, slice_index_or};
ghost use Rattle.std.specs.List.{list_any};
ghost use Rattle.eon_model.specs.Grid.{lies_in, span_of, unit_count};
ghost use Rattle.eon_model.specs.Rows.{units_in, at_each, is_dark, with_lit, without_lit, with_held, without_held};
ghost use Rattle.spectrum_map.specs.Bits.{word_bit};
ghost use Rattle.spectrum_map.specs.Kept.{bit_at_unit, IsKeptThere, IsEmpty, Becomes, lit_in, holders_in, rows_in, taken, words_for};

use crate::bits::{ROW, clear_in_rows, highest_bit, highest_of_either, set_in_rows};
use crate::counts::{hold_in_rows, let_go_in_rows};
use crate::occupied::Occupied;
use crate::row::{ROW_WORDS, Row, place, places_of};
use flex_grid::band::Band;
use flex_grid::units::Units;
use std::alloc::{AllocError, Global};
use std::marker::Model;

/// Which units of a band are lit on each fibre, one bit for each unit, and how many shared backups hold each unit. A unit
/// that one or more hold is held.
#[derive(Drop)]
pub struct Maps {
    band: Band,
    fibres: u8,
    lit: Vec<u64>,
    held: Vec<u64>,
    holders: Vec<u16>,
}

impl Model for Maps {
    ghost use Rattle.spectrum_map.specs.Kept.{Kept, AreRows};

    ghost Value = { Kept };

    ghost view = { λ m. record { band = m.band; fibres = m.fibres; words = m.lit.items; counts = m.holders.items } };

    ghost invariant = { λ m. AreRows m.band m.fibres m.lit.items m.held.items m.holders.items };
}

// Whether the bit of some of the units is 1 in the row of the fibre.
fn is_some_one(band: &Band, words: &[u64], fibre: u8, units: &Units) -> bool
    requires few { length words.now ≤ 65536 }
    requires row { 16 * fibre + 16 ≤ length words.now }
    requires units { IsTrue (lies_in (span_of band.now) units.now) }
    ensures { (fibres : ℕ) → fibre < fibres → result ≡ list_any (bit_at_unit band.now fibres words.now fibre) (units_in units.now) }
{
    let places = places_of(band, units);
    let start = ROW * usize::from(fibre);
    highest_bit(words, start + places.first, start + places.end).is_some()
}

impl Maps {
    /// The maps of a band on so many fibres, with nothing lit or held.
    pub fn new(alloc: Global, band: Band, fibres: u8) -> Result<Maps, AllocError>
        ensures { IfOk result (IsEmpty band fibres) }
    {
        let _ = band.parts();
        let words = ROW_WORDS * usize::from(fibres);
        Ok(Maps {
            band,
            fibres,
            lit: vec![in alloc; 0u64; words]?,
            held: vec![in alloc; 0u64; words]?,
            holders: vec![in alloc; 0u16; ROW * usize::from(fibres)]?,
        })
    }

    /// Lights the units on these fibres, where they are dark.
    pub fn add_lit(&mut self, fibres: &[u8], units: Units)
        requires there { IsKeptThere self.old (taken fibres.now units) }
        requires dark { IsTrue (is_dark (rows_in self.old) (taken fibres.now units)) }
        ensures { Becomes self.old self.new (with_lit (taken fibres.now units) (rows_in self.old)).lit (holders_in self.old) }
    {
        let places = places_of(&self.band, &units);
        set_in_rows(&mut self.lit, fibres, places.first, places.end);
    }

    /// Makes the units on these fibres dark, where they are lit.
    pub fn take_lit(&mut self, fibres: &[u8], units: Units)
        requires there { IsKeptThere self.old (taken fibres.now units) }
        requires lit { IsTrue (at_each (lit_in self.old) (taken fibres.now units)) }
        ensures { Becomes self.old self.new (without_lit (taken fibres.now units) (rows_in self.old)).lit (holders_in self.old) }
    {
        let places = places_of(&self.band, &units);
        clear_in_rows(&mut self.lit, fibres, places.first, places.end);
    }

    /// Counts one shared backup more that holds the units on these fibres, where each has fewer than 8,192.
    pub fn add_held(&mut self, fibres: &[u8], units: Units)
        requires there { IsKeptThere self.old (taken fibres.now units) }
        requires room { IsTrue (at_each (λ fibre u. nat_lt (holders_in self.old fibre u) 8192) (taken fibres.now units)) }
        ensures { Becomes self.old self.new (lit_in self.old) (with_held (taken fibres.now units) (holders_in self.old)) }
    {
        let places = places_of(&self.band, &units);
        hold_in_rows(
            &mut self.holders,
            &mut self.held,
            fibres,
            places.first,
            places.end,
        );
    }

    /// Counts one shared backup fewer that holds the units on these fibres, where each has one or more.
    pub fn take_held(&mut self, fibres: &[u8], units: Units)
        requires there { IsKeptThere self.old (taken fibres.now units) }
        requires some { IsTrue (at_each (λ fibre u. nat_le 1 (holders_in self.old fibre u)) (taken fibres.now units)) }
        ensures { Becomes self.old self.new (lit_in self.old) (without_held (taken fibres.now units) (holders_in self.old)) }
    {
        let places = places_of(&self.band, &units);
        let_go_in_rows(
            &mut self.holders,
            &mut self.held,
            fibres,
            places.first,
            places.end,
        );
    }

    // How many units there are from the band's lowest to its highest.
    fn units(&self) -> usize
        ensures value { result ≡ unit_count (span_of self.now.band) }
        ensures few { result ≤ ROW }
    {
        place(&self.band, i32::from(self.band.hi()) + 1)
    }

    // How many words the units of the band fill.
    fn words(&self) -> usize
        ensures value { result ≡ words_for self.now.band }
        ensures few { result ≤ ROW_WORDS }
    {
        place(&self.band, i32::from(self.band.hi()) + 1).div_ceil(64)
    }

    /// The words of a fibre's lit units: bit i of word j, both from 0 and bit 0 the lowest, is 1 exactly where the unit
    /// `lo + 64 × j + i` is lit, `lo` being the band's lowest. There are as many words as the units up to the band's
    /// highest fill, and the bits past it are 0.
    pub fn lit_words(&self, fibre: u8) -> &[u64]
        requires { fibre < self.now.fibres }
        ensures count { length result.now ≡ words_for self.now.band }
        ensures few { length result.now ≤ 16 }
        ensures bits { (j i : ℕ) → i < 64 → word_bit result.now j i ≡ (nat_lt (64 * j + i) (unit_count (span_of self.now.band)) && lit_in self.now fibre ((span_of self.now.band).lo +ℤ pos (64 * j + i))) }
    {
        let start = ROW_WORDS * usize::from(fibre);
        &self.lit[start..start + self.words()]
    }

    /// The words of a fibre's held units, likewise.
    pub fn held_words(&self, fibre: u8) -> &[u64]
        requires { fibre < self.now.fibres }
        ensures count { length result.now ≡ words_for self.now.band }
        ensures few { length result.now ≤ 16 }
        ensures bits { (j i : ℕ) → i < 64 → word_bit result.now j i ≡ (nat_lt (64 * j + i) (unit_count (span_of self.now.band)) && not (holders_in self.now fibre ((span_of self.now.band).lo +ℤ pos (64 * j + i)) == 0)) }
    {
        let start = ROW_WORDS * usize::from(fibre);
        &self.held[start..start + self.words()]
    }

    /// How many shared backups hold each unit of a fibre, from the band's lowest unit to its highest.
    pub fn held_counts(&self, fibre: u8) -> &[u16]
        requires { fibre < self.now.fibres }
        ensures count { length result.now ≡ unit_count (span_of self.now.band) }
        ensures counts { (i : ℕ) → i < unit_count (span_of self.now.band) → slice_index_or result.now i 0 ≡ holders_in self.now fibre ((span_of self.now.band).lo +ℤ pos i) }
    {
        let start = ROW * usize::from(fibre);
        &self.holders[start..start + self.units()]
    }
}

impl Occupied for Maps {
    ghost band = { λ m. m.band };

    ghost fibres = { λ m. m.fibres };

    ghost rows = { λ m. rows_in m };

    fn lit(&self, fibre: u8, units: Units) -> bool {
        is_some_one(&self.band, &self.lit, fibre, &units)
    }

    fn held(&self, fibre: u8, units: Units) -> bool {
        is_some_one(&self.band, &self.held, fibre, &units)
    }

    fn top_below(&self, fibre: u8, unit: i16) -> Option<i16> {
        let lo = i32::from(self.band.lo());
        let above = i32::from(unit).min(i32::from(self.band.hi()) + 1);
        if above < lo {
            return None;
        }
        let start = ROW * usize::from(fibre);
        let end = start + place(&self.band, above);
        let top = highest_of_either(&self.lit, &self.held, start, end)?;
        Some((lo + (top - start) as i32) as i16)
    }

    fn join_lit(&self, fibre: u8, row: &mut Row) {
        row.join(self.lit_words(fibre));
    }

    fn join_held(&self, fibre: u8, row: &mut Row) {
        row.join(self.held_words(fibre));
    }

    fn join_taken(&self, fibre: u8, row: &mut Row) {
        self.join_lit(fibre, row);
        self.join_held(fibre, row);
    }
}
