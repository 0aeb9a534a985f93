//! Fibre numbers in a fixed buffer.

ghost use Rattle.std.specs.Prelude.{◌≡◌, ◌<◌, ◌≤◌, length, slice_index};
ghost use Rattle.leg_state.specs.Parts.{AreFibreNumbers};

use std::marker::Model;

/// The greatest number of fibres of a route.
const MOST_FIBRES: usize = 63;

/// The numbers of a route's fibres in order: at most 63, each below 128, kept without memory.
#[derive(Drop)]
pub struct FibreNumbers {
    numbers: [u8; MOST_FIBRES],
    count: u8,
}

impl Model for FibreNumbers {
    ghost use Rattle.std.specs.Prelude.{ℕ, ◌≤◌, List, take};
    ghost use Rattle.leg_state.specs.Parts.{AreFibreNumbers};

    ghost Value = { List ℕ };

    ghost view = { λ f. take f.count f.numbers };

    ghost invariant = { λ f. AreFibreNumbers (take f.count f.numbers) × (f.count ≤ 63) };
}

impl FibreNumbers {
    /// These numbers in this order. There are at most 63 of them, each below 128.
    pub fn make(fibres: &[u8]) -> FibreNumbers
        requires { AreFibreNumbers fibres.now }
        ensures { result ≡ fibres.now }
    {
        let mut numbers = [0; MOST_FIBRES];
        numbers[..fibres.len()].copy_from_slice(fibres);
        FibreNumbers {
            numbers,
            count: fibres.len() as u8,
        }
    }

    /// How many there are.
    pub fn len(&self) -> usize
        ensures count { result ≡ length self.now }
        ensures valid { AreFibreNumbers self.now }
    {
        usize::from(self.count)
    }

    /// The number at this place, which is below `len`.
    pub fn at(&self, i: usize) -> u8
        requires { i < length self.now }
        ensures number { result ≡ slice_index self.now i }
        ensures valid { result < 128 }
    {
        self.numbers[i]
    }
}
