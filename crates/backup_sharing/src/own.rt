//! The backup that is left out.
ghost use Rattle.std.specs.Prelude.{◌≡◌, ◌<◌, Some};
ghost use Rattle.backup_sharing.specs.Shared.{own_on};

use flex_grid::units::Units;
use net_graph::RiskSet;
use std::marker::Model;

/// A backup that was added, which stands in nobody's way where its own leg asks for another place.
#[derive(Drop)]
pub struct Own<'a> {
    /// The groups of the working route that it backs.
    pub risk: &'a RiskSet,
    /// Its fibres.
    pub fibres: &'a [u8],
    /// The units that it holds there.
    pub units: Units,
}

impl<'a> Model for Own<'a> {
    ghost use Rattle.eon_model.specs.Rows.{Reserved};
    ghost use Rattle.backup_sharing.specs.Shared.{reserved_code};

    ghost Value = { Reserved };

    ghost coded = { reserved_code };

    ghost view = { λ o. record { risk = o.risk.now; taken = record { fibres = o.fibres.now; units = o.units } } };
}

impl<'a> Own<'a> {
    // Its units, if it stands on the fibre for the failure of the group.
    fn on(&self, group: u16, fibre: u8) -> Option<Units>
        requires { group < 256 }
        ensures { result ≡ own_on (Some self.now) group fibre }
    {
        if self.risk.has(group) && self.fibres.contains(&fibre) {
            Some(self.units)
        } else {
            None
        }
    }
}

// The units of the own backup, if there is one, and it stands on the fibre for the failure of the group.
pub(crate) fn units_on(own: &Option<Own<'_>>, group: u16, fibre: u8) -> Option<Units>
    requires { group < 256 }
    ensures { result ≡ own_on own.now group fibre }
{
    match own {
        Some(own) => own.on(group, fibre),
        None => None,
    }
}
