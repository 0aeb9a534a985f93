//! The parts of a line, each read at the front of some bytes: its value and the bytes after it.
ghost use Rattle.std.specs.Prelude.{◌≡◌, ◌+◌, ◌≤◌, length, IfOk, IfSome};
ghost use Rattle.eon_model.specs.Names.{is_name_byte};
ghost use Rattle.command_text.specs.Reading.{after, munch, settle};
ghost use Rattle.command_text.specs.Parts.{name_scan, one_more, name_at, positive_at, positive_scan, centre_at, class_at};
ghost use Rattle.command_text.specs.Given.{Gives};

use eon_base::name::Name;
use eon_model::Class;

/// No text of the part goes on, and so many bytes are left from there on.
#[derive(Clone, Copy, Debug, PartialEq, Eq)]
pub struct Stuck {
    pub left: usize,
}

/// The greatest number of bytes of a name.
pub const NAME_LEN: usize = 32;

/// The bytes after this word.
pub fn after<'a>(word: &[u8], bytes: &'a [u8]) -> Result<&'a [u8], Stuck>
    ensures { Gives (λ x. x.now) result (after word.now bytes.now) }
{
    let mut rest = bytes;
    for expected in word {
        match rest.split_first() {
            Some((byte, others)) if byte == expected => rest = others,
            _ => return Err(Stuck { left: rest.len() }),
        }
    }
    Ok(rest)
}

/// Whether a name may have this byte.
pub fn is_name_byte(byte: u8) -> bool
    ensures { result ≡ is_name_byte byte }
{
    matches!(byte, b'a'..=b'z' | b'A'..=b'Z' | b'0'..=b'9' | b'_' | b'-' | b'.')
}

// The length of a name that goes on with this byte.
fn longer_name(len: usize, byte: u8) -> Option<usize>
    ensures value { result ≡ one_more name_scan len byte }
    ensures len { IfSome result (λ longer. longer ≡ len + 1) }
{
    if len < NAME_LEN && is_name_byte(byte) {
        Some(len + 1)
    } else {
        None
    }
}

// How far a name goes, and the bytes after it.
fn name_end(bytes: &[u8]) -> (usize, &[u8])
    ensures end { munch name_scan 0 bytes.now ≡ settle name_scan result.0 result.1.now }
    ensures len { result.0 ≤ length bytes.now }
{
    let mut len = 0;
    let mut rest = bytes;
    while let Some((byte, others)) = rest.split_first() {
        match longer_name(len, *byte) {
            Some(longer) => len = longer,
            None => return (len, rest),
        }
        rest = others;
    }
    (len, rest)
}

/// The name at the front.
pub fn name_at(bytes: &[u8]) -> Result<(Name, &[u8]), Stuck>
    ensures { Gives (λ x. (x.0, x.1.now)) result (name_at bytes.now) }
{
    let (len, rest) = name_end(bytes);
    match Name::read(&bytes[..len]) {
        Ok(name) => Ok((name, rest)),
        Err(_) => Err(Stuck { left: rest.len() }),
    }
}

// The number with one more digit, where it is from 1 to `most`.
fn longer_number(most: u32, number: u32, byte: u8) -> Option<u32>
    requires { number ≤ 100000 }
    ensures value { result ≡ one_more (positive_scan most) number byte }
    ensures few { IfSome result (λ longer. longer ≤ most) }
{
    if !byte.is_ascii_digit() {
        return None;
    }
    let longer = 10 * number + u32::from(byte - b'0');
    if 1 <= longer && longer <= most {
        Some(longer)
    } else {
        None
    }
}

// The number that the digits at the front make, and the bytes after them.
fn digits_at(most: u32, bytes: &[u8]) -> (u32, &[u8])
    requires { most ≤ 100000 }
    ensures end { munch (positive_scan most) 0 bytes.now ≡ settle (positive_scan most) result.0 result.1.now }
    ensures few { result.0 ≤ most }
{
    let mut number = 0;
    let mut rest = bytes;
    while let Some((byte, others)) = rest.split_first() {
        match longer_number(most, number, *byte) {
            Some(longer) => number = longer,
            None => return (number, rest),
        }
        rest = others;
    }
    (number, rest)
}

/// The number from 1 to `most` at the front.
#[tactic(auto, unfolding(crate::specs::Parts::positive_at))]
pub fn positive_at(most: u32, bytes: &[u8]) -> Result<(u32, &[u8]), Stuck>
    requires { most ≤ 100000 }
    ensures value { Gives (λ x. (x.0, x.1.now)) result (positive_at most bytes.now) }
    ensures few { IfOk result (λ x. x.0 ≤ most) }
{
    let (number, rest) = digits_at(most, bytes);
    if number == 0 {
        return Err(Stuck { left: rest.len() });
    }
    Ok((number, rest))
}

/// The centre from -4096 to 4095 at the front.
#[tactic(auto, unfolding(crate::specs::Parts::centre_at))]
pub fn centre_at(bytes: &[u8]) -> Result<(i16, &[u8]), Stuck>
    ensures { Gives (λ x. (x.0, x.1.now)) result (centre_at bytes.now) }
{
    let Some((first, others)) = bytes.split_first() else {
        return Err(Stuck { left: 0 });
    };
    if *first == b'-' {
        let (size, rest) = positive_at(4096, others)?;
        Ok((-(size as i16), rest))
    } else if *first == b'0' {
        Ok((0, others))
    } else {
        let (size, rest) = positive_at(4095, bytes)?;
        Ok((size as i16, rest))
    }
}

/// The class at the front.
#[tactic(auto, unfolding(crate::specs::Parts::class_at))]
pub fn class_at(bytes: &[u8]) -> Result<(Class, &[u8]), Stuck>
    ensures { Gives (λ x. (x.0, x.1.now)) result (class_at bytes.now) }
{
    let Some((first, _)) = bytes.split_first() else {
        return Err(Stuck { left: 0 });
    };
    if *first == b's' {
        Ok((Class::Shared, after(b"shared", bytes)?))
    } else if *first == b'd' {
        Ok((Class::Dual, after(b"dual", bytes)?))
    } else {
        Ok((Class::Bare, after(b"bare", bytes)?))
    }
}
