//! Ranges of units.
ghost use Rattle.std.specs.Prelude.{◌≡◌, IsTrue, IfSome};
ghost use Rattle.eon_model.specs.Grid.{units_of, overlaps, hull, lies_in, is_units, is_slot};
ghost use Rattle.flex_grid.specs.Makes.{units_from};
ghost use Rattle.flex_grid.specs.Padded.{blank};

use std::marker::Model;

/// The lowest and the highest unit of the grid.
pub(crate) const LOWEST: i16 = -4096;

pub(crate) const HIGHEST: i16 = 4095;

/// The units from `lo` up to and including `hi`: one or more, all from -4096 to 4095. Unit u reaches
/// from 193.1 THz + 6.25 u GHz to 193.1 THz + 6.25 (u + 1) GHz.
#[derive(Clone, Copy, Debug, PartialEq, Eq, Hash)]
pub struct Units {
    lo: i16,
    hi: i16,
}

impl Model for Units {
    ghost use Rattle.std.specs.Prelude.{IsTrue};
    ghost use Rattle.eon_model.specs.Grid.{Units as UnitRange, is_units};

    ghost Value = { UnitRange };

    ghost view = { λ u. record { lo = u.lo; hi = u.hi } };

    ghost invariant = { λ u. IsTrue (is_units (record { lo = u.lo; hi = u.hi })) };

    ghost inverse = { λ v. record { lo = v.lo; hi = v.hi } };
}

impl Units {
    /// The units from `lo` to `hi`. None exactly where `lo` is above `hi`, or one of them lies
    /// outside -4096 to 4095.
    pub fn make(lo: i16, hi: i16) -> Option<Units>
        ensures value { result ≡ units_from lo hi }
        ensures valid { IfSome result (λ u. IsTrue (is_units u)) }
    {
        if LOWEST <= lo && lo <= hi && hi <= HIGHEST {
            Some(Units { lo, hi })
        } else {
            None
        }
    }

    // Unit 0 alone.
    pub(crate) fn blank() -> Units
        ensures { result ≡ blank }
    {
        Units { lo: 0, hi: 0 }
    }

    // The units of a slot.
    pub(crate) fn of_slot(n: i16, m: u16) -> Units
        requires { IsTrue (is_slot (record { n = n; m = m })) }
        ensures { result ≡ units_of (record { n = n; m = m }) }
    {
        let half = m as i16;
        Units {
            lo: n - half,
            hi: n + half - 1,
        }
    }

    /// The lowest unit.
    pub fn lo(&self) -> i16
        ensures value { result ≡ self.now.lo }
        ensures valid { IsTrue (is_units self.now) }
    {
        self.lo
    }

    /// The highest unit.
    pub fn hi(&self) -> i16
        ensures value { result ≡ self.now.hi }
        ensures valid { IsTrue (is_units self.now) }
    {
        self.hi
    }

    // Whether all units of the other lie in it.
    pub(crate) fn holds(&self, other: &Units) -> bool
        ensures { result ≡ lies_in self.now other.now }
    {
        self.lo <= other.lo && other.hi <= self.hi
    }

    /// Whether some unit is in both.
    pub fn overlaps(&self, other: &Units) -> bool
        ensures { result ≡ overlaps self.now other.now }
    {
        self.lo <= other.hi && other.lo <= self.hi
    }

    /// All units from the lowest to the highest of the two.
    pub fn hull(&self, other: &Units) -> Units
        ensures { result ≡ hull self.now other.now }
    {
        Units {
            lo: self.lo.min(other.lo),
            hi: self.hi.max(other.hi),
        }
    }
}
