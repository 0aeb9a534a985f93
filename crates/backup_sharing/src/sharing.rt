//! The shared backups of a network.

ghost use Rattle.std.specs.Prelude.{◌≡◌, ℕ, ◌+◌, ◌<◌, ◌||◌, [], ◌∷◌, List, pos, ◌+ℤ◌, IsTrue, IfOk, IfSome, length, slice_index_or};
ghost use Rattle.std.specs.List.{AllByRecursion, list_all, list_any};
ghost use Rattle.eon_model.specs.FirstInRows.{least_shared};
ghost use Rattle.eon_model.specs.Grid.{span_of, unit_count};
ghost use Rattle.eon_model.specs.Lists.{IsAmong};
ghost use Rattle.spectrum_map.specs.Kept.{is_unit_that, taken};
ghost use Rattle.eon_model.specs.Rows.{Reserved, counts_among, is_unshared, may_stand_beside, with_reserved, without_reserved};
ghost use Rattle.eon_model.specs.Sets.{has_member};
ghost use Rattle.eon_model.specs.Turnover.{Turns};
ghost use Rattle.spectrum_map.specs.Bits.{bit_of};
ghost use Rattle.backup_sharing.specs.Shared.{IsThere, Becomes, AreOthers, IsNew, reserved, without_one, counts_beside};

use crate::added::Added;
use crate::barred::{barred_units, is_free};
use crate::groups::{add_to_groups, empty_maps, take_from_groups};
use crate::own::Own;
use block_fit::lowest_unmarked;
use flex_grid::band::Band;
use flex_grid::units::Units;
use net_graph::{Net, RiskSet};
use spectrum_map::{Maps, Occupied, Row};
use std::alloc::{AllocError, Global};
use std::marker::Model;

/// The shared backups of a network: for each fibre, group and unit of the band, how many hold the unit there and back a
/// working route that the group hits. A contract sees the list of the backups that were added and not taken since.
#[derive(Drop)]
pub struct Sharing {
    band: Band,
    fibres: u8,
    maps: Vec<Maps>,
    added: Added,
}

impl Model for Sharing {
    ghost use Rattle.std.specs.Prelude.{length};
    ghost use Rattle.backup_sharing.specs.Shared.{Sharers, sharers_code, AreCounted};

    ghost Value = { Sharers };

    ghost coded = { sharers_code };

    ghost view = { λ s. record { band = s.band; fibres = s.fibres; groups = length s.maps.items; reserves = s.added.reserves } };

    ghost invariant = { λ s. AreCounted s.band s.fibres s.maps.items s.added.reserves };
}

// Marks the units that are lit on some of the fibres.
fn join_lit<V: Occupied>(row: &mut Row, view: &V, fibres: &[u8])
    requires { AllByRecursion (λ fibre. fibre < V.fibres view.now) fibres.now }
    ensures { (i : ℕ) → bit_of row.new.words i ≡ (bit_of row.old.words i || is_unit_that (V.band view.now) (λ u. list_any (λ fibre. (V.rows view.now).lit fibre u) fibres.now) i) }
{
    for fibre in fibres {
        view.join_lit(*fibre, row);
    }
}

impl Sharing {
    /// No backup yet, on the fibres of the network and for its groups, those of one fibre and the named ones.
    pub fn new(alloc: Global, net: &Net, band: Band) -> Result<Sharing, AllocError>
        ensures { IfOk result (IsNew band (length net.now.fibres) (length net.now.fibres + length net.now.groups)) }
    {
        let fibres = net.fibres();
        let groups = u16::from(fibres) + u16::from(net.groups());
        let maps = empty_maps(alloc, &band, fibres, groups)?;
        Ok(Sharing {
            band,
            fibres,
            maps,
            added: Added::none(),
        })
    }

    /// Adds a backup on these fibres and units, where fewer than 8,192 stand. The risk is that of the working route
    /// that it backs.
    pub fn add(&mut self, risk: &RiskSet, fibres: &[u8], units: Units)
        requires there { IsThere self.old (reserved risk.now fibres.now units) }
        requires room { length self.old.reserves < 8192 }
        ensures list { Becomes self.old self.new (reserved risk.now fibres.now units ∷ self.old.reserves) }
        ensures counts { counts_among self.new.reserves ≡ with_reserved (reserved risk.now fibres.now units) (counts_among self.old.reserves) }
    {
        // Read for what units keep.
        let _ = units.lo();
        add_to_groups(&mut self.maps, risk, fibres, units);
        self.added.add(risk, fibres, &units);
    }

    /// Takes a backup that was added with these.
    pub fn take(&mut self, risk: &RiskSet, fibres: &[u8], units: Units)
        requires there { IsThere self.old (reserved risk.now fibres.now units) }
        requires added { IsAmong (reserved risk.now fibres.now units) self.old.reserves }
        ensures list { Becomes self.old self.new (without_one (reserved risk.now fibres.now units) self.old.reserves) }
        ensures counts { counts_among self.new.reserves ≡ without_reserved (reserved risk.now fibres.now units) (counts_among self.old.reserves) }
        ensures turns { Turns self.old.reserves self.new.reserves (reserved risk.now fibres.now units ∷ []) [] }
    {
        // Read for what units keep.
        let _ = units.lo();
        take_from_groups(&mut self.maps, risk, fibres, units);
        self.added.take(risk, fibres, &units);
    }

    /// Whether a backup may stand on these fibres and units, for a working route of this risk: no backup but the own
    /// one holds a unit there for a working route whose risk meets this one.
    pub fn fits(&self, risk: &RiskSet, fibres: &[u8], units: Units, own: Option<Own<'_>>) -> bool
        requires there { IsThere self.now (reserved risk.now fibres.now units) }
        requires own { IfSome own (IsThere self.now) }
        ensures counts { result ≡ is_unshared (counts_beside own.entry (counts_among self.now.reserves)) risk.now (taken fibres.now units) }
        ensures legs { (others : List Reserved) → AreOthers own.entry self.now.reserves others → result ≡ list_all (may_stand_beside risk.now (taken fibres.now units)) others }
    {
        is_free(&self.maps, &self.band, risk, fibres, &units, &own)
    }

    /// The least centre whose slot of width m, times 12.5 GHz, lies in one part of the band, with no unit lit on the
    /// fibres, and where a backup may stand for a working route of this risk, beside the own one. None exactly where there
    /// is none.
    pub fn lowest<V: Occupied>(
        &self,
        view: &V,
        risk: &RiskSet,
        fibres: &[u8],
        m: u16,
        band: Band,
        own: Option<Own<'_>>,
    ) -> Option<i16>
        requires band { band ≡ self.now.band }
        requires view_band { V.band view.now ≡ self.now.band }
        requires view_fibres { V.fibres view.now ≡ self.now.fibres }
        requires groups { (g : ℕ) → IsTrue (has_member risk.now g) → g < self.now.groups }
        requires fibres { AllByRecursion (λ fibre. fibre < self.now.fibres) fibres.now }
        requires own { IfSome own (IsThere self.now) }
        ensures { result ≡ least_shared (V.rows view.now) (counts_beside own.entry (counts_among self.now.reserves)) risk.now fibres.now m band }
    {
        let mut row = barred_units(&self.maps, &band, risk, fibres, &own);
        join_lit(&mut row, view, fibres);
        lowest_unmarked(&row, m, &band, band.lo())
    }

    /// How many backups hold each unit of the fibre for the failure of the group, from the band's lowest unit to its
    /// highest.
    pub fn counts(&self, fibre: u8, risk: u16) -> &[u16]
        requires fibre { fibre < self.now.fibres }
        requires risk { risk < self.now.groups }
        ensures count { length result.now ≡ unit_count (span_of self.now.band) }
        ensures counts { (i : ℕ) → i < unit_count (span_of self.now.band) → slice_index_or result.now i 0 ≡ counts_among self.now.reserves fibre risk ((span_of self.now.band).lo +ℤ pos i) }
    {
        self.maps[usize::from(risk)].held_counts(fibre)
    }
}
