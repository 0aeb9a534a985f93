//! The least centre of a shared backup.

ghost use Rattle.std.specs.Prelude.{◌≡◌, Some, IsTrue};
ghost use Rattle.eon_model.specs.Legal.{is_shared};
ghost use Rattle.eon_model.specs.NetworkText.{is_setup};
ghost use Rattle.kept_admission.specs.KeptFirst.{IsServed, IsLeastBackup};

use kept_rows::KeptRows;
use leg_state::{Path, Service};
use net_setup::NetSetup;
use row_admission::least_back;

/// The least centre, in units of 6.25 GHz, at which the shared backup of the service may stand on its own route, with the
/// service at rest in a legal list for which the rows stand: the least of all with which the list stays legal. Takes no
/// memory.
pub fn least_backup(setup: &NetSetup, rows: &KeptRows, service: &Service, back: &Path) -> i16
    requires in_range { IsTrue (is_setup setup.now) }
    requires served { IsServed setup.now service.now rows.now }
    requires shared { IsTrue (is_shared service.now.class) }
    requires back { service.now.leg.back ≡ Some back.now }
    ensures { IsLeastBackup setup.now service.now rows.now back.now result }
{
    let leg = &service.leg;
    let work = &leg.work;
    least_back(
        &rows.maps,
        &rows.sharing,
        setup.band,
        service.class,
        Some(&service.leg),
        &work.route,
        &back.route,
        back.slot.m(),
    )
    .unwrap_or(back.slot.n())
}
