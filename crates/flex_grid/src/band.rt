//! The band of a network.
ghost use Rattle.std.specs.Prelude.{◌≡◌, ◌<◌, ℕ, pos, ◌-ℤ◌, ◌+ℤ◌, int_le, find, length, IsTrue, IfSome, slice_index_or};
ghost use Rattle.eon_model.specs.Grid.{lies_in, lies_in_band, span_of, is_band};
ghost use Rattle.flex_grid.specs.Makes.{band_from, band_with, leaves_room_for};
ghost use Rattle.flex_grid.specs.Padded.{blank};

use crate::units::Units;
use std::marker::Model;

/// The greatest number of parts of a band.
const MOST_PARTS: usize = 8;

/// The greatest number of units from the lowest to the highest of a band.
const MOST_UNITS: i32 = 1024;

/// The band in which a network places its slots: one to eight parts in ascending order, with at least one
/// unit between two of them. There are at most 1,024 units from its lowest to its highest, all of them from
/// -4096 to 4095. A slot lies in one part.
#[derive(Clone, Copy, Debug)]
pub struct Band {
    parts: [Units; MOST_PARTS],
    count: u8,
}

impl Model for Band {
    ghost use Rattle.std.specs.Prelude.{◌-◌, ◌++◌, length, take, replicate};
    ghost use Rattle.eon_model.specs.Grid as grid;
    ghost use Rattle.flex_grid.specs.Padded.{IsPadded, blank, padded_back};

    ghost Value = { grid.Band };

    ghost view = { λ b. take b.count b.parts };

    ghost invariant = { λ b. IsPadded b.parts b.count };

    ghost inverse = { λ l. record { parts = l ++ replicate (8 - length l) blank; count = length l } };

    ghost inverse_ok = { λ b h. λ i. record { parts = (padded_back b.parts b.count h).0 i; count = (padded_back b.parts b.count h).1 i } };
}

// Whether there are at most 1,024 units from one to another.
fn is_in_reach(lo: i16, hi: i16) -> bool
    ensures { result ≡ int_le (hi -ℤ lo) (pos 1023) }
{
    i32::from(hi) - i32::from(lo) < MOST_UNITS
}

// Whether there is a unit between two parts, of which one ends and the other begins here.
fn leaves_a_gap(hi: i16, lo: i16) -> bool
    ensures { result ≡ int_le (hi +ℤ pos 2) lo }
{
    i32::from(hi) + 2 <= i32::from(lo)
}

impl Band {
    /// The band of one part, from unit `lo` to unit `hi`. None exactly where these make no `Units`, or
    /// more than 1,024.
    pub fn make(lo: i16, hi: i16) -> Option<Band>
        ensures value { result ≡ band_from lo hi }
        ensures valid { IfSome result (λ b. IsTrue (is_band b)) }
    {
        let Some(part) = Units::make(lo, hi) else {
            return None;
        };
        if !is_in_reach(lo, hi) {
            return None;
        }
        let mut parts = [Units::blank(); MOST_PARTS];
        parts[0] = part;
        Some(Band { parts, count: 1 })
    }

    /// The band with one more part, from unit `lo` to unit `hi`, above its others. None exactly where it
    /// has eight parts, these make no `Units`, no unit lies between this part and the one below it, or
    /// there would be more than 1,024 units from the lowest to the highest.
    pub fn with(self, lo: i16, hi: i16) -> Option<Band>
        ensures value { result ≡ band_with self lo hi }
        ensures valid { IfSome result (λ b. IsTrue (is_band b)) }
    {
        let Some(part) = Units::make(lo, hi) else {
            return None;
        };
        let at = usize::from(self.count);
        if at == MOST_PARTS {
            return None;
        }
        if !self.leaves_room_for(&part) {
            return None;
        }
        let mut parts = self.parts;
        parts[at] = part;
        Some(Band {
            parts,
            count: self.count + 1,
        })
    }

    // Whether the part begins above a unit that lies above the others, and few enough units lie from
    // their lowest to its highest.
    fn leaves_room_for(&self, part: &Units) -> bool
        ensures value { result ≡ leaves_room_for self.now part.now }
        ensures valid { IsTrue (is_band self.now) }
    {
        leaves_a_gap(self.hi(), part.lo()) && is_in_reach(self.lo(), part.hi())
    }

    // Its parts in order.
    fn all(&self) -> &[Units]
        ensures value { result.now ≡ self.now }
        ensures valid { IsTrue (is_band self.now) }
    {
        &self.parts[..usize::from(self.count)]
    }

    /// How many parts it has, 1 to 8.
    pub fn parts(&self) -> u8
        ensures value { result ≡ length self.now }
        ensures valid { IsTrue (is_band self.now) }
    {
        self.count
    }

    /// Its part number `i`, counted from 0 at the lowest.
    pub fn part(&self, i: u8) -> Units
        requires { i < length self.now }
        ensures value { result ≡ slice_index_or self.now i blank }
        ensures valid { IsTrue (is_band self.now) }
    {
        self.all()[usize::from(i)]
    }

    /// The part in which all of the units lie.
    pub fn part_of(&self, u: &Units) -> Option<Units>
        ensures { result ≡ find (λ p. lies_in p u.now) self.now }
    {
        self.all().iter().copied().find(|part| part.holds(u))
    }

    /// Whether all of the units lie in one part.
    pub fn within(&self, u: &Units) -> bool
        ensures { result ≡ lies_in_band self.now u.now }
    {
        self.all().iter().any(|part| part.holds(u))
    }

    /// The lowest unit.
    pub fn lo(&self) -> i16
        ensures value { result ≡ (span_of self.now).lo }
        ensures valid { IsTrue (is_band self.now) }
    {
        self.all()[0].lo()
    }

    /// The highest unit.
    pub fn hi(&self) -> i16
        ensures value { result ≡ (span_of self.now).hi }
        ensures valid { IsTrue (is_band self.now) }
    {
        let parts = self.all();
        parts[parts.len() - 1].hi()
    }
}
