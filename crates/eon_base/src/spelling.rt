//! The spelling of a number.
ghost use Rattle.std.specs.Prelude.{◌≡◌, ◌^◌, ◌<◌, ◌≤◌, ◌∷◌, ◌<ℤ◌, pos, neg_ℤ, length};
ghost use Rattle.std.specs.Fmt.{decimal, signed_decimal};

use itoa::write_digits;
use std::marker::Model;

/// The greatest number of bytes of a spelling.
const MAX_LEN: usize = 20;

/// The spelling of a number: digits, perhaps after `-`. A contract sees it as its bytes.
#[derive(Clone, Copy, Debug)]
pub struct Digits {
    bytes: [u8; MAX_LEN],
    start: u8,
}

impl Model for Digits {
    ghost use Rattle.std.specs.Prelude.{ℕ, ◌-◌, List, ◌++◌, length, drop, replicate};

    ghost Value = { List ℕ };

    ghost use Rattle.eon_base.specs.Aligned.{IsAligned, aligned_back};

    ghost view = { λ d. drop d.start d.bytes };

    ghost invariant = { λ d. IsAligned d.bytes d.start };

    ghost inverse = { λ l. record { bytes = replicate (20 - length l) 0 ++ l; start = 20 - length l } };

    ghost inverse_ok = { λ d h. λ i. record { bytes = (aligned_back d.bytes d.start h).0 i; start = (aligned_back d.bytes d.start h).1 i } };
}

impl Digits {
    pub(crate) fn of_number(v: u64) -> Digits
        ensures { result ≡ decimal v }
    {
        let mut bytes = [0; MAX_LEN];
        let start = write_digits(v, &mut bytes, MAX_LEN);
        Digits {
            bytes,
            start: start as u8,
        }
    }

    pub(crate) fn of_integer(v: i64) -> Digits
        requires { neg_ℤ (pos (2 ^ 63)) <ℤ v }
        ensures { result ≡ signed_decimal v }
    {
        if v < 0 {
            Digits::with_minus(v.unsigned_abs())
        } else {
            Digits::of_number(v.unsigned_abs())
        }
    }

    // `-`, and the number.
    fn with_minus(size: u64) -> Digits
        requires { size < 2 ^ 63 }
        ensures { result ≡ 45 ∷ decimal size }
    {
        let mut bytes = [0; MAX_LEN];
        let start = write_digits(size, &mut bytes, MAX_LEN) - 1;
        bytes[start] = b'-';
        Digits {
            bytes,
            start: start as u8,
        }
    }

    /// The bytes of the spelling.
    pub fn bytes(&self) -> &[u8]
        ensures value { result.now ≡ self.now }
        ensures short { length self.now ≤ 20 }
    {
        &self.bytes[usize::from(self.start)..]
    }
}
