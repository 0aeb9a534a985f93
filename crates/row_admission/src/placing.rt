//! The first placement of a demand.

ghost use Rattle.std.specs.Prelude.{◌≡◌, ◌≤◌, length, IfSome};
ghost use Rattle.std.specs.List.{AllByRecursion};
ghost use Rattle.std.specs.Option.{option_copied, option_map};
ghost use Rattle.eon_model.specs.FirstInRows.{first_in_rows, placement_in_rows};
ghost use Rattle.eon_model.specs.Rows.{counts_among};
ghost use Rattle.admission.specs.Told.{found_at, IfPlaced, IsPlaceOn};
ghost use Rattle.backup_sharing.specs.Shared.{IsThere, counts_beside};
ghost use Rattle.row_admission.specs.RowFirst.{answer_in_rows, backup_of, IsFirstForNewService, IsFirstForSecondLeg, IsPairThere};

use crate::lowest::{least_back, least_work};
use admission::{Admit, Found};
use backup_sharing::Sharing;
use flex_grid::band::Band;
use leg_state::{Class, Leg, Pair};
use spectrum_map::Occupied;

// The least placement on the pair of this number: the least centre of the working path, and that of the backup path.
fn on_pair<V: Occupied>(
    view: &V,
    sharing: &Sharing,
    band: Band,
    class: Class,
    own: Option<&Leg>,
    number: u16,
    pair: &Pair,
) -> Option<Found>
    requires band { band ≡ sharing.now.band }
    requires view_band { V.band view.now ≡ sharing.now.band }
    requires view_fibres { V.fibres view.now ≡ sharing.now.fibres }
    requires pair { IsPairThere sharing.now pair.now }
    requires own { IfSome (backup_of (option_copied own)) (IsThere sharing.now) }
    ensures { result ≡ option_map found_at (placement_in_rows band (V.rows view.now) (counts_beside (backup_of (option_copied own.entry)) (counts_among sharing.now.reserves)) class number pair.now) }
{
    let work_n = least_work(view, band, &pair.work, pair.work_m)?;
    let Some(spare) = &pair.back else {
        return Some(Found {
            pair: number,
            work_n,
            back_n: None,
        });
    };
    let back_n = least_back(
        view,
        sharing,
        band,
        class,
        own,
        &pair.work,
        &spare.route,
        spare.m,
    )?;
    Some(Found {
        pair: number,
        work_n,
        back_n: Some(back_n),
    })
}

// The first placement on these pairs.
fn first_of<V: Occupied>(
    view: &V,
    sharing: &Sharing,
    band: Band,
    class: Class,
    pairs: &[Pair],
    own: Option<&Leg>,
) -> Admit
    requires few { length pairs.now ≤ 65535 }
    requires band { band ≡ sharing.now.band }
    requires view_band { V.band view.now ≡ sharing.now.band }
    requires view_fibres { V.fibres view.now ≡ sharing.now.fibres }
    requires pairs { AllByRecursion (IsPairThere sharing.now) pairs.now }
    requires own { IfSome (backup_of (option_copied own)) (IsThere sharing.now) }
    ensures { result ≡ answer_in_rows (V.rows view.now) (counts_among sharing.now.reserves) band class (option_copied own.entry) pairs.now }
{
    if pairs.is_empty() {
        return Admit::NoRoute;
    }
    for (number, pair) in pairs.iter().enumerate() {
        if let Some(found) = on_pair(view, sharing, band, class, own, number as u16, pair) {
            return Admit::Placed(found);
        }
    }
    Admit::Blocked {
        pairs: pairs.len() as u16,
    }
}

/// The first placement of a demand of this class on these pairs, in their order, then by the least centre of the
/// working path, then by that of the backup path, as `admission::first` finds it beside a list of services: here the rows
/// of the view and the counts of the shared backups stand for the list. A new service comes beside no leg. Beside the leg
/// of a service at rest, it is that service's second leg: a shared backup may then hold what the backup of that leg holds.
/// `NoRoute` exactly where there is no pair, and `Blocked` with their number where none fits. Takes no memory.
pub fn first<V: Occupied>(
    view: &V,
    sharing: &Sharing,
    band: Band,
    class: Class,
    pairs: &[Pair],
    own: Option<&Leg>,
) -> Admit
    requires few { length pairs.now ≤ 65535 }
    requires band { band ≡ sharing.now.band }
    requires view_band { V.band view.now ≡ sharing.now.band }
    requires view_fibres { V.fibres view.now ≡ sharing.now.fibres }
    requires pairs { AllByRecursion (IsPairThere sharing.now) pairs.now }
    requires own { IfSome (backup_of (option_copied own)) (IsThere sharing.now) }
    ensures answer { result ≡ answer_in_rows (V.rows view.now) (counts_among sharing.now.reserves) band class (option_copied own.entry) pairs.now }
    ensures new_service { IsFirstForNewService (V.rows view.now) (counts_among sharing.now.reserves) band class (option_copied own.entry) pairs.now result }
    ensures second_leg { IsFirstForSecondLeg (V.rows view.now) (counts_among sharing.now.reserves) band class (option_copied own.entry) pairs.now result }
    ensures place { IfPlaced result (IsPlaceOn (first_in_rows band (V.rows view.now) (counts_beside (backup_of (option_copied own.entry)) (counts_among sharing.now.reserves)) class 0 pairs.now) pairs.now) }
{
    // Read for what a band keeps.
    let _ = band.parts();
    first_of(view, sharing, band, class, pairs, own)
}
