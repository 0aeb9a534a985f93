//! The least centres at which a path stands clear. For each path one pass over the services tells which units of
//! the band are free for it, and the centres are then walked upwards over that row.

ghost use Rattle.std.specs.Prelude.{◌≡◌};
ghost use Rattle.std.specs.Option.{option_copied};
ghost use Rattle.admission.specs.Clear.{work_found, spare_found};

use crate::taken::{back_row, work_row};
use flex_grid::band::Band;
use leg_state::{Class, Leg, Route, Services, Spare};

// The least centre at which the working path lies in the band, clear of all services.
pub(crate) fn least_work(services: &Services, band: &Band, route: &Route, m: u16) -> Option<i16>
    ensures { result ≡ work_found services.now.list band.now (record { route = route.now; m = m }) }
{
    // Read for what a band keeps.
    let _ = band.parts();
    work_row(services, band, route).least_centre(m)
}

// The least centre at which the backup, of this class, lies in the band beside its working route, clear of all
// services.
pub(crate) fn least_back(
    services: &Services,
    band: &Band,
    class: Class,
    own: Option<&Leg>,
    work: &Route,
    spare: &Spare,
) -> Option<i16>
    ensures { result ≡ spare_found services.now.list band.now class (option_copied own.entry) work.now spare.now }
{
    // Read for what a band keeps.
    let _ = band.parts();
    back_row(services, band, class, own, work, &spare.route).least_centre(spare.m)
}
