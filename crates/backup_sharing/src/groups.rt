//! A map for each group.

ghost use Rattle.std.specs.Prelude.{◌≡◌, ℕ, ◌<◌, ◌≤◌, nat_le, nat_lt, true, IsTrue, IfOk, length};
ghost use Rattle.std.specs.List.{AllByRecursion};
ghost use Rattle.eon_model.specs.Rows.{at_each, with_held, without_held};
ghost use Rattle.eon_model.specs.Sets.{has_member};
ghost use Rattle.spectrum_map.specs.Kept.{IsKeptThere, IsEmpty, holders_in, taken};
ghost use Rattle.backup_sharing.specs.Shared.{Goes, GoTo, map_at};

use flex_grid::band::Band;
use flex_grid::units::Units;
use net_graph::RiskSet;
use spectrum_map::Maps;
use std::alloc::{AllocError, Global};

// So many maps of the band, with nothing in them.
pub(crate) fn empty_maps(
    alloc: Global,
    band: &Band,
    fibres: u8,
    groups: u16,
) -> Result<Vec<Maps>, AllocError>
    ensures count { IfOk result (λ ms. length ms.items ≡ groups) }
    ensures empty { IfOk result (λ ms. AllByRecursion (IsEmpty band.now fibres) ms.items) }
{
    let mut maps = Vec::with_capacity(alloc, usize::from(groups))?;
    for _group in 0..groups {
        let map = Maps::new(alloc, *band, fibres)?;
        maps.push(map)?;
    }
    Ok(maps)
}

// Counts one backup more in the map of a group, if the group is hit.
fn add_where(map: &mut Maps, is_hit: bool, fibres: &[u8], units: Units)
    requires there { IsKeptThere map.old (taken fibres.now units) }
    requires room { is_hit ≡ true → IsTrue (at_each (λ fibre u. nat_lt (holders_in map.old fibre u) 8192) (taken fibres.now units)) }
    ensures { Goes is_hit (with_held (taken fibres.now units)) map.old map.new }
{
    if is_hit {
        map.add_held(fibres, units);
    }
}

// Counts one backup fewer in the map of a group, if the group is hit.
fn take_where(map: &mut Maps, is_hit: bool, fibres: &[u8], units: Units)
    requires there { IsKeptThere map.old (taken fibres.now units) }
    requires some { is_hit ≡ true → IsTrue (at_each (λ fibre u. nat_le 1 (holders_in map.old fibre u)) (taken fibres.now units)) }
    ensures { Goes is_hit (without_held (taken fibres.now units)) map.old map.new }
{
    if is_hit {
        map.take_held(fibres, units);
    }
}

// Counts one backup more in the map of each group of the risk.
pub(crate) fn add_to_groups(maps: &mut [Maps], risk: &RiskSet, fibres: &[u8], units: Units)
    requires few { length maps.old ≤ 256 }
    requires there { (g : ℕ) → g < length maps.old → IsKeptThere (map_at maps.old g) (taken fibres.now units) }
    requires room { (g : ℕ) → g < length maps.old → has_member risk.now g ≡ true → IsTrue (at_each (λ fibre u. nat_lt (holders_in (map_at maps.old g) fibre u) 8192) (taken fibres.now units)) }
    ensures len { length maps.new ≡ length maps.old }
    ensures maps { GoTo (length maps.old) risk.now (with_held (taken fibres.now units)) maps.old maps.new }
{
    for group in 0..maps.len() {
        add_where(&mut maps[group], risk.has(group as u16), fibres, units);
    }
}

// Counts one backup fewer in the map of each group of the risk.
pub(crate) fn take_from_groups(maps: &mut [Maps], risk: &RiskSet, fibres: &[u8], units: Units)
    requires few { length maps.old ≤ 256 }
    requires there { (g : ℕ) → g < length maps.old → IsKeptThere (map_at maps.old g) (taken fibres.now units) }
    requires some { (g : ℕ) → g < length maps.old → has_member risk.now g ≡ true → IsTrue (at_each (λ fibre u. nat_le 1 (holders_in (map_at maps.old g) fibre u)) (taken fibres.now units)) }
    ensures len { length maps.new ≡ length maps.old }
    ensures maps { GoTo (length maps.old) risk.now (without_held (taken fibres.now units)) maps.old maps.new }
{
    for group in 0..maps.len() {
        take_where(&mut maps[group], risk.has(group as u16), fibres, units);
    }
}
