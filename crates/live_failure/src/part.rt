//! The parts of a line, each read at the front of some bytes: its value and the bytes after it.
ghost use Rattle.std.specs.Prelude.{◌≡◌, ◌+◌, ◌≤◌, ◌==◌, length, IfSome};
ghost use Rattle.eon_model.specs.Names.{is_name_byte};
ghost use Rattle.command_text.specs.Reading.{after, munch, settle};
ghost use Rattle.command_text.specs.Parts.{name_scan, one_more, name_at};
ghost use Rattle.command_text.specs.Lines.{field_at};
ghost use Rattle.live_failure.specs.Given.{Gives, Leaves};

use eon_base::name::Name;

/// No text of the part goes on, and so many bytes are left from there on.
#[derive(Clone, Copy, Debug, PartialEq, Eq)]
pub struct Stuck {
    pub left: usize,
}

/// The greatest number of bytes of a name.
const NAME_LEN: usize = 32;

/// The bytes after this word.
pub fn after<'a>(word: &[u8], bytes: &'a [u8]) -> Result<&'a [u8], Stuck>
    ensures { Gives (λ x. x.now) result (after word.now bytes.now) }
{
    let mut rest = bytes;
    for expected in word {
        match rest.split_first() {
            Some((byte, others)) if byte == expected => rest = others,
            _ => return Err(Stuck { left: rest.len() }),
        }
    }
    Ok(rest)
}

// Whether a name may have this byte.
fn is_name_byte(byte: u8) -> bool
    ensures { result ≡ is_name_byte byte }
{
    matches!(byte, b'a'..=b'z' | b'A'..=b'Z' | b'0'..=b'9' | b'_' | b'-' | b'.')
}

// The length of a name that goes on with this byte.
fn longer_name(len: usize, byte: u8) -> Option<usize>
    ensures value { result ≡ one_more name_scan len byte }
    ensures len { IfSome result (λ longer. longer ≡ len + 1) }
{
    if len < NAME_LEN && is_name_byte(byte) {
        Some(len + 1)
    } else {
        None
    }
}

// How far a name goes, and the bytes after it.
fn name_end(bytes: &[u8]) -> (usize, &[u8])
    ensures end { munch name_scan 0 bytes.now ≡ settle name_scan result.0 result.1.now }
    ensures len { result.0 ≤ length bytes.now }
{
    let mut len = 0;
    let mut rest = bytes;
    while let Some((byte, others)) = rest.split_first() {
        match longer_name(len, *byte) {
            Some(longer) => len = longer,
            None => return (len, rest),
        }
        rest = others;
    }
    (len, rest)
}

// The name at the front.
fn name_at(bytes: &[u8]) -> Result<(Name, &[u8]), Stuck>
    ensures { Gives (λ x. (x.0, x.1.now)) result (name_at bytes.now) }
{
    let (len, rest) = name_end(bytes);
    match Name::read(&bytes[..len]) {
        Ok(name) => Ok((name, rest)),
        Err(_) => Err(Stuck { left: rest.len() }),
    }
}

/// The bytes of a line that are still to be read. After an `Err` nothing is known of them.
#[derive(Drop)]
pub struct Fields<'a> {
    pub rest: &'a [u8],
}

impl<'a> Fields<'a> {
    /// Whether no byte is left.
    pub fn is_done(&self) -> bool
        ensures { result ≡ (length self.now.rest.now == 0) }
    {
        self.rest.is_empty()
    }

    /// The name behind a space.
    pub fn name(&mut self) -> Result<Name, Stuck>
        ensures { Leaves (λ x. x) result self.new.rest.now (field_at name_at self.old.rest.now) }
    {
        match name_at(after(b" ", self.rest)?) {
            Ok((name, rest)) => {
                self.rest = rest;
                Ok(name)
            }
            Err(stuck) => Err(stuck),
        }
    }
}
