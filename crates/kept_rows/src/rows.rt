//! Rows that stand for a list of services.

ghost use Rattle.std.specs.Prelude.{◌≡◌, [], IfOk};
ghost use Rattle.eon_model.specs.Turnover.{leg_comes, leg_goes};
ghost use Rattle.kept_rows.specs.Standing.{StandsFor, MayTurn, HasTurned, of_class, backup_takes, channel_takes};

use crate::dark::darken;
use crate::light::light;
use crate::parts::{channel_units, units_in};
use backup_sharing::Sharing;
use leg_state::holding::Span;
use leg_state::{Class, Leg};
use net_setup::NetSetup;
use spectrum_map::Maps;
use std::alloc::{AllocError, Global};

/// The lit and the held units of a list of services, and its shared backups by groups. All memory is taken by `new`.
#[derive(Drop)]
pub struct KeptRows {
    /// Which units are lit on each fibre, and how many shared backups hold each.
    pub maps: Maps,
    /// How many shared backups of each group hold each unit of each fibre.
    pub sharing: Sharing,
}

impl KeptRows {
    /// The rows of a network without a service.
    pub fn new(alloc: Global, setup: &NetSetup) -> Result<KeptRows, AllocError>
        ensures { IfOk result (StandsFor setup.now []) }
    {
        let net = &setup.net;
        let maps = Maps::new(alloc, setup.band, net.fibres())?;
        let sharing = Sharing::new(alloc, net, setup.band)?;
        Ok(KeptRows { maps, sharing })
    }

    /// A leg of a service of this class comes.
    pub fn enter(&mut self, class: Class, leg: &Leg)
        requires { MayTurn self.old (leg_comes (of_class class leg.now)) }
        ensures { HasTurned self.old self.new (leg_comes (of_class class leg.now)) }
    {
        light(&mut self.maps, class, leg);
        self.hold(class, leg);
    }

    /// A leg of a service of this class goes.
    pub fn leave(&mut self, class: Class, leg: &Leg)
        requires { MayTurn self.old (leg_goes (of_class class leg.now)) }
        ensures { HasTurned self.old self.new (leg_goes (of_class class leg.now)) }
    {
        darken(&mut self.maps, class, leg);
        self.free(class, leg);
    }

    /// The channel of a leg takes these units in place of those that it has.
    pub fn move_channel(&mut self, leg: &Leg, units: &Span)
        requires { MayTurn self.old (channel_takes leg.now units.now) }
        ensures { HasTurned self.old self.new (channel_takes leg.now units.now) }
    {
        let work = &leg.work;
        self.maps.take_lit(work.route.fibres(), channel_units(leg));
        self.maps.add_lit(work.route.fibres(), units_in(units));
    }

    /// The shared backup of a leg takes these units in place of those that it has. A leg without one changes nothing.
    pub fn move_back(&mut self, leg: &Leg, units: &Span)
        requires { MayTurn self.old (backup_takes leg.now units.now) }
        ensures { HasTurned self.old self.new (backup_takes leg.now units.now) }
    {
        if let Some(back) = &leg.back {
            self.free_units(leg, back, back.slot.units());
            self.hold_units(leg, back, units_in(units));
        }
    }
}
