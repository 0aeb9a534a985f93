//! The first placement of a demand.

ghost use Rattle.std.specs.Prelude.{IsTrue};
ghost use Rattle.eon_model.specs.NetworkText.{is_setup};
ghost use Rattle.kept_admission.specs.KeptFirst.{AreRows, AreCandidates, IsServed, IsFirstForNew, IsFirstForSecond};

use kept_rows::KeptRows;
use leg_state::{Class, Pair, Service};
use net_setup::NetSetup;
use row_admission::{Admit, first};

/// The first placement of a new service of this class on these pairs, which are the candidates of a demand: for each legal
/// list of services for which the rows stand, and which the service may join, it is the first with which the list stays
/// legal. `NoRoute` exactly where there is no pair, and `Blocked` with their number where none fits. Takes no memory.
pub fn first_for_new_service(
    setup: &NetSetup,
    rows: &KeptRows,
    class: Class,
    pairs: &[Pair],
) -> Admit
    requires in_range { IsTrue (is_setup setup.now) }
    requires rows { AreRows setup.now rows.now }
    requires pairs { AreCandidates setup.now pairs.now }
    ensures { IsFirstForNew setup.now class rows.now pairs.now result }
{
    first(&rows.maps, &rows.sharing, setup.band, class, pairs, None)
}

/// The first placement of a second leg of the service, which is at rest in a legal list for which the rows stand, on these
/// pairs, which are candidates: it is the first with which the list stays legal. A shared backup may hold what that of the
/// own leg holds; a dual one holds nothing that is lit or held. `NoRoute` and `Blocked` are as for a new service.
pub fn first_for_second_leg(
    setup: &NetSetup,
    rows: &KeptRows,
    service: &Service,
    pairs: &[Pair],
) -> Admit
    requires in_range { IsTrue (is_setup setup.now) }
    requires served { IsServed setup.now service.now rows.now }
    requires pairs { AreCandidates setup.now pairs.now }
    ensures { IsFirstForSecond setup.now service.now rows.now pairs.now result }
{
    let class = service.class;
    first(
        &rows.maps,
        &rows.sharing,
        setup.band,
        class,
        pairs,
        Some(&service.leg),
    )
}
