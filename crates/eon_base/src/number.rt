//! Whole numbers, read from bytes and spelled.
ghost use Rattle.std.specs.Prelude.{◌≡◌, ◌^◌, ◌<ℤ◌, pos, neg_ℤ, nat_lt, ◌==◌, true, not, IsTrue, IfOk, OnOk};
ghost use Rattle.std.specs.Result.{result_ok};
ghost use Rattle.std.specs.List.{list_all};
ghost use Rattle.std.specs.Fmt.{decimal, signed_decimal};
ghost use Rattle.eon_model.specs.Numerals.{is_digit, is_number, number_value, is_signed, signed_value};
ghost use Rattle.eon_base.specs.Numbers.{bounded, read_number, read_integer, number_of, integer_of};

use crate::spelling::Digits;

/// Why bytes are no number of 64 bits.
#[derive(Clone, Copy, Debug, PartialEq, Eq)]
pub enum NumFault {
    /// They are not spelled as a number is.
    Form,
    /// They are spelled well, and the number is out of range.
    Big,
}

/// One above the greatest number.
const BEYOND: u128 = 1 << 64;

// The number that the bytes spell as digits, with zeros in front or without.
fn read_digits(bytes: &[u8]) -> Result<u64, NumFault>
    ensures { result ≡ bounded (list_all is_digit bytes.now) (nat_lt (number_value bytes.now) (2 ^ 64)) (number_value bytes.now) }
{
    let mut value: u128 = 0;
    for byte in bytes {
        if !byte.is_ascii_digit() {
            return Err(NumFault::Form);
        }
        if value < BEYOND {
            value = value * 10 + u128::from(*byte - b'0');
        }
    }
    if value < BEYOND {
        Ok(value as u64)
    } else {
        Err(NumFault::Big)
    }
}

/// The number that the bytes are: `0`, or digits of which the first is not `0`. Else `Form`; and `Big`
/// where the number is above 2^64 - 1.
pub fn read_u64(bytes: &[u8]) -> Result<u64, NumFault>
    ensures read { result ≡ read_number bytes.now }
    ensures formed { OnOk result (IsTrue (is_number bytes.now)) }
    ensures ok { IfOk result (λ v. v ≡ number_value bytes.now) }
    ensures value { result_ok result ≡ number_of bytes.now }
{
    if bytes.is_empty() {
        return Err(NumFault::Form);
    }
    if bytes[0] == b'0' && bytes.len() > 1 {
        return Err(NumFault::Form);
    }
    read_digits(bytes)
}

// The number itself, up to 2^63 - 1.
fn positive(size: u64) -> Result<i64, NumFault>
    ensures { result ≡ bounded true (nat_lt size (2 ^ 63)) (pos size) }
{
    if size < 1 << 63 {
        Ok(size as i64)
    } else {
        Err(NumFault::Big)
    }
}

// The number below zero that lies as far from it, down to -(2^63 - 1). There is no `-0`.
fn negative(size: u64) -> Result<i64, NumFault>
    ensures { result ≡ bounded (not (size == 0)) (nat_lt size (2 ^ 63)) (neg_ℤ (pos size)) }
{
    if size == 0 {
        Err(NumFault::Form)
    } else if size < 1 << 63 {
        Ok(-(size as i64))
    } else {
        Err(NumFault::Big)
    }
}

/// The signed number that the bytes are: a number as in `read_u64`, or `-` and such a number above 0.
/// Else `Form`; and `Big` where the number is below -(2^63 - 1) or above 2^63 - 1.
pub fn read_i64(bytes: &[u8]) -> Result<i64, NumFault>
    ensures read { result ≡ read_integer bytes.now }
    ensures formed { OnOk result (IsTrue (is_signed bytes.now)) }
    ensures ok { IfOk result (λ v. v ≡ signed_value bytes.now) }
    ensures value { result_ok result ≡ integer_of bytes.now }
{
    if bytes.is_empty() {
        return Err(NumFault::Form);
    }
    if bytes[0] == b'-' {
        let size = read_u64(&bytes[1..])?;
        return negative(size);
    }
    let size = read_u64(bytes)?;
    positive(size)
}

/// The one spelling of a number.
pub fn digits(v: u64) -> Digits
    ensures { result ≡ decimal v }
{
    Digits::of_number(v)
}

/// The one spelling of a signed number above -2^63.
pub fn signed(v: i64) -> Digits
    requires { neg_ℤ (pos (2 ^ 63)) <ℤ v }
    ensures { result ≡ signed_decimal v }
{
    Digits::of_integer(v)
}
