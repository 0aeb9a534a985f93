//! The least centres at which a path stands.

ghost use Rattle.std.specs.Prelude.{◌≡◌, ℕ, ◌<◌, find, Some, IsTrue, IfSome};
ghost use Rattle.std.specs.List.{AllByRecursion};
ghost use Rattle.std.specs.Option.{option_copied};
ghost use Rattle.eon_model.specs.FirstFit.{centres_in};
ghost use Rattle.eon_model.specs.FirstInRows.{least_channel, least_shared, backup_stands};
ghost use Rattle.eon_model.specs.Rows.{counts_among};
ghost use Rattle.eon_model.specs.Sets.{has_member};
ghost use Rattle.backup_sharing.specs.Shared.{IsThere, counts_beside};
ghost use Rattle.row_admission.specs.RowFirst.{backup_of, IsRouteThere};

use backup_sharing::{Own, RiskSet, Sharing};
use block_fit::lowest;
use flex_grid::band::Band;
use leg_state::{Class, Leg, Route};
use spectrum_map::Occupied;

// The least centre at which no unit of the slot is lit or held on the route.
pub(crate) fn least_work<V: Occupied>(view: &V, band: Band, route: &Route, m: u16) -> Option<i16>
    requires band { band ≡ V.band view.now }
    requires fibres { AllByRecursion (λ fibre. fibre < V.fibres view.now) route.now.fibres }
    ensures { result ≡ least_channel band (V.rows view.now) (record { route = route.now; m = m }) }
{
    lowest(view, route.fibres(), m, band, band.lo())
}

// The least centre of a shared backup of a working route of this risk, beside the backup of the own leg.
fn least_beside<V: Occupied>(
    view: &V,
    sharing: &Sharing,
    band: Band,
    own: &Leg,
    risk: &RiskSet,
    fibres: &[u8],
    m: u16,
) -> Option<i16>
    requires band { band ≡ sharing.now.band }
    requires view_band { V.band view.now ≡ sharing.now.band }
    requires view_fibres { V.fibres view.now ≡ sharing.now.fibres }
    requires groups { (g : ℕ) → IsTrue (has_member risk.now g) → g < sharing.now.groups }
    requires fibres { AllByRecursion (λ fibre. fibre < sharing.now.fibres) fibres.now }
    requires own { IfSome (backup_of (Some own.now)) (IsThere sharing.now) }
    ensures { result ≡ least_shared (V.rows view.now) (counts_beside (backup_of (Some own.now)) (counts_among sharing.now.reserves)) risk.now fibres.now m band }
{
    let Some(back) = &own.back else {
        return sharing.lowest(view, risk, fibres, m, band, None);
    };
    let work = &own.work;
    let own_risk = work.route.risk();
    let own = Own {
        risk: &own_risk,
        fibres: back.route.fibres(),
        units: back.slot.units(),
    };
    sharing.lowest(view, risk, fibres, m, band, Some(own))
}

/// The least centre at which a backup of this class may hold a slot of width m, times 12.5 GHz, on the route, for this
/// working route: the slot lies in one part of the band, no unit of it is lit, and no backup holds one; where the class
/// shares, others may, but for those whose working route meets the risk of this one. Units that the backup of the own leg
/// holds are left out of what is shared. None exactly where there is none. Takes no memory.
pub fn least_back<V: Occupied>(
    view: &V,
    sharing: &Sharing,
    band: Band,
    class: Class,
    own: Option<&Leg>,
    work: &Route,
    route: &Route,
    m: u16,
) -> Option<i16>
    requires band { band ≡ sharing.now.band }
    requires view_band { V.band view.now ≡ sharing.now.band }
    requires view_fibres { V.fibres view.now ≡ sharing.now.fibres }
    requires work { IsRouteThere sharing.now work.now }
    requires route { IsRouteThere sharing.now route.now }
    requires own { IfSome (backup_of (option_copied own)) (IsThere sharing.now) }
    ensures { result ≡ find (backup_stands band (V.rows view.now) (counts_beside (backup_of (option_copied own.entry)) (counts_among sharing.now.reserves)) class work.now.risk route.now.fibres m) (centres_in band) }
{
    if class.dual() {
        return least_work(view, band, route, m);
    }
    let risk = work.risk();
    match own {
        Some(leg) => least_beside(view, sharing, band, leg, &risk, route.fibres(), m),
        None => sharing.lowest(view, &risk, route.fibres(), m, band, None),
    }
}
