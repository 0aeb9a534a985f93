//! Maps that a file of rows fills. Each call tests what the maps ask for, so that any row may be tried.

ghost use Rattle.std.specs.Prelude.{◌≡◌, ◌<◌, pos, ◌+ℤ◌, true, IsTrue, IfSome, length, [], ◌∷◌};
ghost use Rattle.std.specs.List.{AllByRecursion};
ghost use Rattle.eon_model.specs.Grid.{lies_in, span_of, unit_count};
ghost use Rattle.spectrum_map.specs.Kept.{rows_in};
ghost use Rattle.eon_model.specs.FirstInRows.{least_free};
ghost use Rattle.layer_view.specs.Layers.{rows_over, KeepsShape};
ghost use Rattle.spectrum_rows.specs.Sheets.{IsSheet, AreRowsOf, IsUnitOf, PassTo};
ghost use Rattle.spectrum_rows.specs.Wishes.{as_wished};

use block_fit::lowest;
use flex_grid::band::Band;
use flex_grid::units::Units;
use layer_view::{Layer, LayerRows};
use spectrum_map::{Maps, Occupied};
use std::alloc::{AllocError, Global};

/// What becomes of units on a fibre.
#[derive(Clone, Copy, Debug, PartialEq, Eq)]
pub enum Change {
    /// They are lit.
    Light,
    /// They go dark.
    Darken,
    /// One backup more holds them.
    Hold,
    /// One backup fewer holds them.
    LetGo,
}

/// The most backups that are held on a sheet.
const MOST_HOLDS: u16 = 8000;

/// Units of a fibre that are looked at as if they were lit, and then others as if they were dark.
#[derive(Clone, Copy, Debug)]
pub struct Wish {
    /// The fibre.
    pub fibre: u8,
    /// What would be lit.
    pub lit: Units,
    /// What would then be dark.
    pub dark: Units,
}

/// Maps, with what they are of, with how many backups were held on them, and with rows for layers over them.
#[derive(Drop)]
pub struct Sheet {
    band: Band,
    fibres: u8,
    maps: Maps,
    holds: u16,
    rows: LayerRows,
    ghost kept: { IsSheet maps band fibres holds },
    ghost suited: { AreRowsOf rows band fibres },
}

// How many units these are.
fn count_of(units: &Units) -> u16
    ensures { result ≡ unit_count units.now }
{
    (i32::from(units.hi()) - i32::from(units.lo()) + 1) as u16
}

// One of the units alone, counted from 0 at the lowest.
fn unit_of(units: &Units, i: u16) -> Option<Units>
    requires { i < unit_count units.now }
    ensures { IfSome result (IsUnitOf units.now i) }
{
    let unit = (i32::from(units.lo()) + i32::from(i)) as i16;
    Units::make(unit, unit)
}

// A layer over the maps, with what is wished for.
fn layer_of<'a>(maps: &'a Maps, rows: &'a mut LayerRows, wish: &Wish) -> Layer<'a, Maps>
    requires band { rows.old.band ≡ maps.now.band }
    requires fibres { length rows.old.rows ≡ maps.now.fibres }
    requires fibre { wish.now.fibre < maps.now.fibres }
    requires lit { IsTrue (lies_in (span_of maps.now.band) wish.now.lit) }
    requires dark { IsTrue (lies_in (span_of maps.now.band) wish.now.dark) }
    ensures same_reference { result.rows.ghost_name ≡ rows.entry.ghost_name }
    ensures shape { KeepsShape rows.old result.rows.now }
    ensures base { result.base.now ≡ maps.now }
    ensures rows { rows_over (rows_in maps.now) result.rows.now result.own ≡ as_wished wish.now (rows_in maps.now) }
{
    let mut layer = Layer::over(maps, rows);
    layer.set_lit(&[wish.fibre], wish.lit);
    layer.clear_lit(&[wish.fibre], wish.dark);
    layer
}

// The least free centre from `from` on for a slot of width m on the fibre, where all is as wished.
fn lowest_as_wished(
    maps: &Maps,
    rows: &mut LayerRows,
    wish: &Wish,
    m: u16,
    band: Band,
    from: i16,
) -> Option<i16>
    requires view { band ≡ maps.now.band }
    requires band { rows.old.band ≡ maps.now.band }
    requires fibres { length rows.old.rows ≡ maps.now.fibres }
    requires fibre { wish.now.fibre < maps.now.fibres }
    requires lit { IsTrue (lies_in (span_of maps.now.band) wish.now.lit) }
    requires dark { IsTrue (lies_in (span_of maps.now.band) wish.now.dark) }
    ensures shape { KeepsShape rows.old rows.new }
    ensures answer { result ≡ least_free (as_wished wish.now (rows_in maps.now)) (wish.now.fibre ∷ []) m band from }
{
    let layer = layer_of(maps, rows, wish);
    lowest(&layer, &[wish.fibre], m, band, from)
}

impl Sheet {
    /// A sheet with nothing lit or held.
    pub(crate) fn new(alloc: Global, band: Band, fibres: u8) -> Result<Sheet, AllocError> {
        Ok(Sheet {
            band,
            fibres,
            maps: Maps::new(alloc, band, fibres)?,
            holds: 0,
            rows: LayerRows::new(alloc, band, fibres)?,
        })
    }

    // Whether the fibre is there, and the units are those of the band's span.
    fn has(&self, fibre: u8, units: &Units) -> bool
        ensures fibre { result ≡ true → fibre < self.now.fibres }
        ensures units { result ≡ true → IsTrue (lies_in (span_of self.now.band) units.now) }
    {
        fibre < self.fibres && self.band.lo() <= units.lo() && units.hi() <= self.band.hi()
    }

    // Whether the unit of this number is lit.
    fn is_lit_at(&self, fibre: u8, units: &Units, i: u16) -> bool
        requires fibre { fibre < self.now.fibres }
        requires units { IsTrue (lies_in (span_of self.now.band) units.now) }
        requires unit { i < unit_count units.now }
        ensures { result ≡ true → (rows_in self.now.maps).lit fibre (units.now.lo +ℤ pos i) ≡ true }
    {
        match unit_of(units, i) {
            Some(unit) => self.maps.lit(fibre, unit),
            None => false,
        }
    }

    // Whether some backup holds the unit of this number.
    fn is_held_at(&self, fibre: u8, units: &Units, i: u16) -> bool
        requires fibre { fibre < self.now.fibres }
        requires units { IsTrue (lies_in (span_of self.now.band) units.now) }
        requires unit { i < unit_count units.now }
        ensures { result ≡ true → (rows_in self.now.maps).held fibre (units.now.lo +ℤ pos i) ≡ true }
    {
        match unit_of(units, i) {
            Some(unit) => self.maps.held(fibre, unit),
            None => false,
        }
    }

    // Whether each of the units is lit.
    fn each_is_lit(&self, fibre: u8, units: &Units) -> bool
        requires fibre { fibre < self.now.fibres }
        requires units { IsTrue (lies_in (span_of self.now.band) units.now) }
        ensures { result ≡ true → PassTo ((rows_in self.now.maps).lit fibre) units.now (unit_count units.now) }
    {
        for i in 0..count_of(units) {
            if !self.is_lit_at(fibre, units, i) {
                return false;
            }
        }
        true
    }

    // Whether some backup holds each of the units.
    fn each_is_held(&self, fibre: u8, units: &Units) -> bool
        requires fibre { fibre < self.now.fibres }
        requires units { IsTrue (lies_in (span_of self.now.band) units.now) }
        ensures { result ≡ true → PassTo ((rows_in self.now.maps).held fibre) units.now (unit_count units.now) }
    {
        for i in 0..count_of(units) {
            if !self.is_held_at(fibre, units, i) {
                return false;
            }
        }
        true
    }

    // Lights the units, where all of them are dark.
    fn light(&mut self, fibre: u8, units: Units) -> bool
        requires fibre { fibre < self.old.fibres }
        requires units { IsTrue (lies_in (span_of self.old.band) units) }
    {
        if self.maps.lit(fibre, units) {
            return false;
        }
        self.maps.add_lit(&[fibre], units);
        true
    }

    // Makes the units dark, where all of them are lit.
    fn darken(&mut self, fibre: u8, units: Units) -> bool
        requires fibre { fibre < self.old.fibres }
        requires units { IsTrue (lies_in (span_of self.old.band) units) }
    {
        if !self.each_is_lit(fibre, &units) {
            return false;
        }
        self.maps.take_lit(&[fibre], units);
        true
    }

    // Holds the units once more, where not too many backups were held.
    fn hold(&mut self, fibre: u8, units: Units) -> bool
        requires fibre { fibre < self.old.fibres }
        requires units { IsTrue (lies_in (span_of self.old.band) units) }
    {
        if self.holds >= MOST_HOLDS {
            return false;
        }
        self.maps.add_held(&[fibre], units);
        self.holds += 1;
        true
    }

    // Lets the units go once, where some backup holds each of them.
    fn let_go(&mut self, fibre: u8, units: Units) -> bool
        requires fibre { fibre < self.old.fibres }
        requires units { IsTrue (lies_in (span_of self.old.band) units) }
    {
        if !self.each_is_held(fibre, &units) {
            return false;
        }
        self.maps.take_held(&[fibre], units);
        true
    }

    /// Makes the change, where it may be made. Whether it was made.
    pub(crate) fn change(&mut self, change: Change, fibre: u8, units: Units) -> bool {
        if !self.has(fibre, &units) {
            return false;
        }
        match change {
            Change::Light => self.light(fibre, units),
            Change::Darken => self.darken(fibre, units),
            Change::Hold => self.hold(fibre, units),
            Change::LetGo => self.let_go(fibre, units),
        }
    }

    // Whether all of these fibres are there.
    fn has_all(&self, fibres: &[u8]) -> bool
        ensures { result ≡ true → AllByRecursion (λ fibre. fibre < self.now.fibres) fibres.now }
    {
        fibres.iter().all(|fibre| *fibre < self.fibres)
    }

    /// The least free centre from `from` on, where all fibres are there.
    pub(crate) fn lowest(&self, fibres: &[u8], m: u16, from: i16) -> Option<i16> {
        if !self.has_all(fibres) {
            return None;
        }
        lowest(&self.maps, fibres, m, self.band, from)
    }

    /// The least free centre from `from` on, on the fibre, where all is as wished, and the fibre and the units are there.
    pub(crate) fn lowest_if(&mut self, wish: &Wish, m: u16, from: i16) -> Option<i16> {
        if !self.has(wish.fibre, &wish.lit) || !self.has(wish.fibre, &wish.dark) {
            return None;
        }
        lowest_as_wished(&self.maps, &mut self.rows, wish, m, self.band, from)
    }

    /// The greatest unit below this one that is lit or held on the fibre, where it is there.
    pub(crate) fn top_below(&self, fibre: u8, unit: i16) -> Option<i16> {
        if fibre >= self.fibres {
            return None;
        }
        self.maps.top_below(fibre, unit)
    }
}
