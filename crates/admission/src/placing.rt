//! The first placement of a demand.

ghost use Rattle.std.specs.Prelude.{◌≡◌, ◌≤◌, length, find, IsTrue};
ghost use Rattle.std.specs.Option.{option_copied, option_map};
ghost use Rattle.eon_model.specs.FirstFit.{placements_of};
ghost use Rattle.admission.specs.FirstClear.{first_clear, placement_stands};
ghost use Rattle.admission.specs.Told.{found_at, answer_for, IfPlaced, IsPlaceOn};

use crate::search::{least_back, least_work};
use flex_grid::band::Band;
use leg_state::{Class, Leg, Pair, Services};

/// The least placement of a demand: the number of the pair that it takes, from 0, and the centres of the
/// working path and of the backup path, in units of 6.25 GHz.
#[derive(Clone, Copy, Debug, PartialEq, Eq)]
pub struct Found {
    pub pair: u16,
    pub work_n: i16,
    pub back_n: Option<i16>,
}

/// What becomes of a demand.
#[derive(Clone, Copy, Debug, PartialEq, Eq)]
pub enum Admit {
    /// There is no pair of routes.
    NoRoute,
    /// There are so many pairs, and none fits.
    Blocked { pairs: u16 },
    /// The first placement that fits.
    Placed(Found),
}

// The least placement on the pair of this number: the least centre of the working path, and with it the least
// one of the backup path.
fn on_pair(
    services: &Services,
    band: &Band,
    class: Class,
    own: Option<&Leg>,
    number: u16,
    pair: &Pair,
) -> Option<Found>
    ensures { result ≡ option_map found_at (find (placement_stands services.now.list band.now class (option_copied own.entry)) (placements_of band.now number pair.now)) }
{
    let work_n = least_work(services, band, &pair.work, pair.work_m)?;
    let Some(spare) = &pair.back else {
        return Some(Found {
            pair: number,
            work_n,
            back_n: None,
        });
    };
    let back_n = least_back(services, band, class, own, &pair.work, spare)?;
    Some(Found {
        pair: number,
        work_n,
        back_n: Some(back_n),
    })
}

/// The first placement of a demand of this class on these pairs, in their order, then by the least centre of the
/// working path, then by that of the backup path, whose slots each lie in one part of the band and whose leg is clear
/// of all legs of the services. A new service comes beside no leg. Beside the leg of a service at rest, it is that
/// service's second leg: a shared backup may then overlap the backup of that leg, and a dual one overlaps nothing.
/// `NoRoute` exactly where there is no pair, and `Blocked` with their number where none fits. Takes no memory.
pub fn first(
    services: &Services,
    band: Band,
    class: Class,
    pairs: &[Pair],
    own: Option<&Leg>,
) -> Admit
    requires few { length pairs.now ≤ 65535 }
    ensures answer { result ≡ answer_for (length pairs.now) (first_clear services.now.list band class pairs.now (option_copied own.entry)) }
    ensures place { IfPlaced result (λ f. IsPlaceOn (first_clear services.now.list band class pairs.now (option_copied own.entry)) pairs.now f) }
{
    if pairs.is_empty() {
        return Admit::NoRoute;
    }
    for (number, pair) in pairs.iter().enumerate() {
        if let Some(found) = on_pair(services, &band, class, own, number as u16, pair) {
            return Admit::Placed(found);
        }
    }
    Admit::Blocked {
        pairs: pairs.len() as u16,
    }
}
