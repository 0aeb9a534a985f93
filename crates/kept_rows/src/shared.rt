//! Units that shared backups hold.

ghost use Rattle.std.specs.Prelude.{[], ◌∷◌};
ghost use Rattle.kept_rows.specs.Standing.{CanBeHeld, CanGoFree, IsHeldBy, IsFreeBy, reserve_at, reserves_on, shared_backup as backup_of};

use crate::parts::shared_backup;
use crate::rows::KeptRows;
use flex_grid::units::Units;
use leg_state::{Class, Leg, Path};

impl KeptRows {
    // Adds a backup on these units of this path, for the leg's working route.
    pub(crate) fn hold_units(&mut self, leg: &Leg, back: &Path, units: Units)
        requires { CanBeHeld self.old (reserve_at leg.now back.now units ∷ []) }
        ensures { IsHeldBy self.old self.new (reserve_at leg.now back.now units ∷ []) }
    {
        let work = &leg.work;
        let fibres = back.route.fibres();
        self.maps.add_held(fibres, units);
        self.sharing.add(&work.route.risk(), fibres, units);
    }

    // Takes a backup that was added with these.
    pub(crate) fn free_units(&mut self, leg: &Leg, back: &Path, units: Units)
        requires { CanGoFree self.old (reserve_at leg.now back.now units ∷ []) }
        ensures { IsFreeBy self.old self.new (reserve_at leg.now back.now units ∷ []) }
    {
        let work = &leg.work;
        let fibres = back.route.fibres();
        self.maps.take_held(fibres, units);
        self.sharing.take(&work.route.risk(), fibres, units);
    }

    // Adds the shared backup of a leg of this class, if it has one.
    pub(crate) fn hold(&mut self, class: Class, leg: &Leg)
        requires { CanBeHeld self.old (reserves_on leg.now (backup_of class leg.now)) }
        ensures { IsHeldBy self.old self.new (reserves_on leg.now (backup_of class leg.now)) }
    {
        if let Some(back) = shared_backup(class, leg) {
            self.hold_units(leg, back, back.slot.units());
        }
    }

    // Takes the shared backup of a leg of this class, if it has one.
    pub(crate) fn free(&mut self, class: Class, leg: &Leg)
        requires { CanGoFree self.old (reserves_on leg.now (backup_of class leg.now)) }
        ensures { IsFreeBy self.old self.new (reserves_on leg.now (backup_of class leg.now)) }
    {
        if let Some(back) = shared_backup(class, leg) {
            self.free_units(leg, back, back.slot.units());
        }
    }
}
