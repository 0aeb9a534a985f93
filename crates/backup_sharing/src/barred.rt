//! Rows of the units that a backup may not hold, since others hold them that a group calls for together with it.

ghost use Rattle.std.specs.Prelude.{◌≡◌, ℕ, ◌+◌, ◌<◌, ◌≤◌, ◌≤ℤ◌, ◌==◌, ◌&&◌, ◌||◌, not, IsTrue, IfSome, Some, length, slice_index_or};
ghost use Rattle.std.specs.List.{AllByRecursion, list_all, list_any};
ghost use Rattle.eon_model.specs.Grid.{lies_in, span_of};
ghost use Rattle.eon_model.specs.Rows.{units_in};
ghost use Rattle.eon_model.specs.Sets.{has_member};
ghost use Rattle.spectrum_map.specs.Bits.{bit_of, is_between};
ghost use Rattle.spectrum_map.specs.Kept.{is_unit_that, holders_in};
ghost use Rattle.backup_sharing.specs.Shared.{map_at, own_on, but_own, bars, IsOwnThere};

use crate::own::{Own, units_on};
use flex_grid::band::Band;
use flex_grid::units::Units;
use net_graph::RiskSet;
use spectrum_map::row::places_of;
use spectrum_map::{Maps, Row};

// Takes the mark off a place that counts one.
fn clear_one(row: &mut Row, counts: &[u16], i: usize)
    requires counts { i < length counts.now }
    requires places { i < 1024 }
    ensures { (k : ℕ) → bit_of row.new.words k ≡ (bit_of row.old.words k && not (is_between i (i + 1) k && slice_index_or counts.now k 0 == 1)) }
{
    if counts[i] == 1 {
        row.clear(i, i + 1);
    }
}

// Takes the marks off the places of a range that count one.
fn clear_ones(row: &mut Row, counts: &[u16], first: usize, end: usize)
    requires counts { end ≤ length counts.now }
    requires places { end ≤ 1024 }
    requires order { first ≤ end }
    ensures { (k : ℕ) → bit_of row.new.words k ≡ (bit_of row.old.words k && not (is_between first end k && slice_index_or counts.now k 0 == 1)) }
{
    for i in first..end {
        clear_one(row, counts, i);
    }
}

// The units of a fibre that backups besides the own one hold, which stands there.
fn held_besides(map: &Maps, band: &Band, fibre: u8, own: &Units) -> Row
    requires band { map.now.band ≡ band.now }
    requires fibre { fibre < map.now.fibres }
    requires own { IsTrue (lies_in (span_of band.now) own.now) }
    ensures { (i : ℕ) → bit_of result.words i ≡ is_unit_that band.now (λ u. not (but_own (Some own.now) u (holders_in map.now fibre u) == 0)) i }
{
    let own = places_of(band, own);
    let mut row = Row::empty();
    row.join(map.held_words(fibre));
    clear_ones(&mut row, map.held_counts(fibre), own.first, own.end);
    row
}

// Marks the units of a fibre that backups in the map of a group hold, the own one left out.
fn join_map(row: &mut Row, map: &Maps, band: &Band, group: u16, fibre: u8, own: &Option<Own<'_>>)
    requires band { map.now.band ≡ band.now }
    requires group { group < 256 }
    requires fibre { fibre < map.now.fibres }
    requires own { IsOwnThere band.now own.now }
    ensures { (i : ℕ) → bit_of row.new.words i ≡ (bit_of row.old.words i || is_unit_that band.now (λ u. not (but_own (own_on own.now group fibre) u (holders_in map.now fibre u) == 0)) i) }
{
    match units_on(own, group, fibre) {
        Some(own) => row.join(&held_besides(map, band, fibre, &own).words),
        None => row.join(map.held_words(fibre)),
    }
}

// The same, if the group is hit.
fn join_where(
    row: &mut Row,
    is_hit: bool,
    map: &Maps,
    band: &Band,
    group: u16,
    fibre: u8,
    own: &Option<Own<'_>>,
)
    requires band { map.now.band ≡ band.now }
    requires group { group < 256 }
    requires fibre { fibre < map.now.fibres }
    requires own { IsOwnThere band.now own.now }
    ensures { (i : ℕ) → bit_of row.new.words i ≡ (bit_of row.old.words i || (is_hit && is_unit_that band.now (λ u. not (but_own (own_on own.now group fibre) u (holders_in map.now fibre u) == 0)) i)) }
{
    if is_hit {
        join_map(row, map, band, group, fibre, own);
    }
}

// The same for each group of the risk.
fn join_groups(
    row: &mut Row,
    maps: &[Maps],
    band: &Band,
    risk: &RiskSet,
    fibre: u8,
    own: &Option<Own<'_>>,
)
    requires few { length maps.now ≤ 256 }
    requires band { (g : ℕ) → g < length maps.now → (map_at maps.now g).band ≡ band.now }
    requires groups { (g : ℕ) → IsTrue (has_member risk.now g) → g < length maps.now }
    requires fibre { (g : ℕ) → g < length maps.now → fibre < (map_at maps.now g).fibres }
    requires own { IsOwnThere band.now own.now }
    ensures { (i : ℕ) → bit_of row.new.words i ≡ (bit_of row.old.words i || is_unit_that band.now (bars maps.now risk.now own.now fibre) i) }
{
    for group in 0..maps.len() {
        let number = group as u16;
        join_where(
            row,
            risk.has(number),
            &maps[group],
            band,
            number,
            fibre,
            own,
        );
    }
}

// The same for each of the fibres.
fn join_fibres(
    row: &mut Row,
    maps: &[Maps],
    band: &Band,
    risk: &RiskSet,
    fibres: &[u8],
    own: &Option<Own<'_>>,
)
    requires few { length maps.now ≤ 256 }
    requires band { (g : ℕ) → g < length maps.now → (map_at maps.now g).band ≡ band.now }
    requires groups { (g : ℕ) → IsTrue (has_member risk.now g) → g < length maps.now }
    requires fibres { (g : ℕ) → g < length maps.now → AllByRecursion (λ fibre. fibre < (map_at maps.now g).fibres) fibres.now }
    requires own { IsOwnThere band.now own.now }
    ensures { (i : ℕ) → bit_of row.new.words i ≡ (bit_of row.old.words i || is_unit_that band.now (λ u. list_any (λ fibre. bars maps.now risk.now own.now fibre u) fibres.now) i) }
{
    for fibre in fibres {
        join_groups(row, maps, band, risk, *fibre, own);
    }
}

// The units on some of the fibres that backups hold whose working route meets the risk, the own one left out.
pub(crate) fn barred_units(
    maps: &[Maps],
    band: &Band,
    risk: &RiskSet,
    fibres: &[u8],
    own: &Option<Own<'_>>,
) -> Row
    requires few { length maps.now ≤ 256 }
    requires band { (g : ℕ) → g < length maps.now → (map_at maps.now g).band ≡ band.now }
    requires groups { (g : ℕ) → IsTrue (has_member risk.now g) → g < length maps.now }
    requires fibres { (g : ℕ) → g < length maps.now → AllByRecursion (λ fibre. fibre < (map_at maps.now g).fibres) fibres.now }
    requires own { IsOwnThere band.now own.now }
    ensures { (i : ℕ) → bit_of result.words i ≡ is_unit_that band.now (λ u. list_any (λ fibre. bars maps.now risk.now own.now fibre u) fibres.now) i }
{
    let mut row = Row::empty();
    join_fibres(&mut row, maps, band, risk, fibres, own);
    row
}

// Whether none of the units is one of those.
pub(crate) fn is_free(
    maps: &[Maps],
    band: &Band,
    risk: &RiskSet,
    fibres: &[u8],
    units: &Units,
    own: &Option<Own<'_>>,
) -> bool
    requires few { length maps.now ≤ 256 }
    requires band { (g : ℕ) → g < length maps.now → (map_at maps.now g).band ≡ band.now }
    requires groups { (g : ℕ) → IsTrue (has_member risk.now g) → g < length maps.now }
    requires fibres { (g : ℕ) → g < length maps.now → AllByRecursion (λ fibre. fibre < (map_at maps.now g).fibres) fibres.now }
    requires units { IsTrue (lies_in (span_of band.now) units.now) }
    requires own { IsOwnThere band.now own.now }
    ensures free { result ≡ list_all (λ u. not (list_any (λ fibre. bars maps.now risk.now own.now fibre u) fibres.now)) (units_in units.now) }
    ensures some { units.now.lo ≤ℤ units.now.hi }
{
    let places = places_of(band, units);
    barred_units(maps, band, risk, fibres, own).is_clear(places.first, places.end)
}
