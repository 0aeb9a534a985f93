//! Slots.
ghost use Rattle.std.specs.Prelude.{◌≡◌, pos, IsTrue, IfSome};
ghost use Rattle.eon_model.specs.Grid.{units_of, moved_to, is_slot};
ghost use Rattle.eon_model.specs.Listings.{centre_mhz};
ghost use Rattle.flex_grid.specs.Makes.{slot_of};

use crate::units::Units;
use std::marker::Model;

/// The greatest width of a slot, times 12.5 GHz.
const MAX_WIDTH: u16 = 512;

/// The slot (n, m) of ITU-T G.694.1: its centre lies n × 6.25 GHz from 193.1 THz, and it is m × 12.5 GHz
/// wide. The width is 1 to 512, and all of its units lie from -4096 to 4095.
#[derive(Clone, Copy, Debug, PartialEq, Eq, Hash)]
pub struct Slot {
    n: i16,
    m: u16,
}

impl Model for Slot {
    ghost use Rattle.std.specs.Prelude.{IsTrue};
    ghost use Rattle.eon_model.specs.Grid.{Slot as GridSlot, is_slot};

    ghost Value = { GridSlot };

    ghost view = { λ s. record { n = s.n; m = s.m } };

    ghost invariant = { λ s. IsTrue (is_slot (record { n = s.n; m = s.m })) };

    ghost inverse = { λ v. record { n = v.n; m = v.m } };
}

impl Slot {
    /// The slot with centre `n`, in units of 6.25 GHz, and width `m`, times 12.5 GHz. None exactly
    /// where `m` is 0 or above 512, or one of its units lies outside -4096 to 4095.
    pub fn make(n: i16, m: u16) -> Option<Slot>
        ensures value { result ≡ slot_of n m }
        ensures valid { IfSome result (λ s. IsTrue (is_slot s)) }
    {
        if m == 0 || m > MAX_WIDTH {
            return None;
        }
        let half = i32::from(m);
        let centre = i32::from(n);
        if centre - half < -4096 || centre + half > 4096 {
            return None;
        }
        Some(Slot { n, m })
    }

    /// Its centre, in units of 6.25 GHz from 193.1 THz.
    pub fn n(&self) -> i16
        ensures value { result ≡ self.now.n }
        ensures valid { IsTrue (is_slot self.now) }
    {
        self.n
    }

    /// Its width, times 12.5 GHz.
    pub fn m(&self) -> u16
        ensures value { result ≡ self.now.m }
        ensures valid { IsTrue (is_slot self.now) }
    {
        self.m
    }

    /// Its units: `n - m` up to and including `n + m - 1`.
    pub fn units(&self) -> Units
        ensures value { result ≡ units_of self.now }
        ensures valid { IsTrue (is_slot self.now) }
    {
        Units::of_slot(self.n, self.m)
    }

    /// The slot of the same width with its centre at `n`, as `make` gives it.
    pub fn moved(&self, n: i16) -> Option<Slot>
        ensures value { result ≡ slot_of n self.now.m }
        ensures moved { IfSome result (λ s. s ≡ moved_to self.now n) }
    {
        Slot::make(n, self.m)
    }

    /// The frequency of its centre, in MHz.
    pub fn centre_mhz(&self) -> u32
        ensures { pos result ≡ centre_mhz self.now.n }
    {
        (193_100_000 + 6_250 * i32::from(self.n)) as u32
    }
}
