//! Lists of fibre names as they stand in a line.
ghost use Rattle.std.specs.Prelude.{◌≡◌, ◌<◌, ◌≤◌, ◌==◌, ◌∷◌, [], length, slice_get, count_by};
ghost use Rattle.std.specs.Option.{option_map, option_map_or, unwrap_or};
ghost use Rattle.eon_model.specs.Network.{name_at};
ghost use Rattle.eon_model.specs.Spelling.{fibre_list};
ghost use Rattle.command_text.specs.Reading.{munch, settle};
ghost use Rattle.command_text.specs.Parts.{one_more, fibre_scan, comma_pieces, fibres_at, fibre_names_of};
ghost use Rattle.command_text.specs.Given.{Gives};
ghost use Rattle.command_text.specs.Walks.{names_left};

use crate::part::{NAME_LEN, Stuck, is_name_byte};
use eon_base::name::Name;
use std::marker::Model;

/// One or more names with one comma between two of them, in the bytes of a line. A contract sees the list
/// of the names.
#[derive(Debug, Drop)]
pub struct FibreNames<'a> {
    bytes: &'a [u8],
}

impl<'a> Model for FibreNames<'a> {
    ghost use Rattle.std.specs.Prelude.{ℕ, List, IsTrue};
    ghost use Rattle.std.specs.List.{list_all};
    ghost use Rattle.eon_model.specs.Names.{is_name};
    ghost use Rattle.command_text.specs.Parts.{comma_pieces};

    ghost Value = { List (List ℕ) };

    ghost view = { λ f. comma_pieces f.bytes.now };

    ghost invariant = { λ f. IsTrue (list_all is_name (comma_pieces f.bytes.now)) };
}

impl<'a> FibreNames<'a> {
    /// The names, where the bytes are a list of fibres, and else `None`.
    pub fn read(bytes: &'a [u8]) -> Option<FibreNames<'a>>
        ensures { result ≡ fibre_names_of bytes.now }
    {
        match fibres_at(bytes) {
            Ok((names, rest)) => rest.is_empty().then_some(names),
            Err(_) => None,
        }
    }

    /// The bytes of the list.
    pub(crate) fn bytes(&self) -> &'a [u8]
        ensures { result.now ≡ fibre_list self.now }
    {
        self.bytes
    }

    /// The names, one after another.
    pub fn iter(&self) -> FibreWalk<'a>
        ensures { names_left result ≡ self.now }
    {
        FibreWalk {
            rest: Some(FibreNames { bytes: self.bytes }),
        }
    }

    // The first name, and the list of the others; None where there is no other.
    fn split_first(&self) -> (Name, Option<FibreNames<'a>>)
        ensures { self.now ≡ result.0 ∷ unwrap_or result.1 [] }
    {
        let (piece, others) = split_piece(self.bytes);
        let Ok(name) = Name::read(piece) else {
            unreachable!()
        };
        match others {
            Some(bytes) => (name, Some(FibreNames { bytes })),
            None => (name, None),
        }
    }

    /// How many names there are.
    pub fn len(&self) -> usize
        ensures { result ≡ length self.now }
    {
        commas(self.bytes) + 1
    }

    /// The name at this place, counted from 0.
    pub fn at(&self, i: usize) -> Name
        requires { i < length self.now }
        ensures { result ≡ name_at self.now i }
    {
        let Some(piece) = piece_at(self.bytes, i) else {
            unreachable!()
        };
        match Name::read(piece) {
            Ok(name) => name,
            Err(_) => unreachable!(),
        }
    }
}

/// A walk over the names of a list, in order.
#[derive(Drop)]
pub struct FibreWalk<'a> {
    rest: Option<FibreNames<'a>>,
}

impl<'a> Iterator for FibreWalk<'a> {
    ghost use Rattle.std.specs.Iterator.{YieldsFirst, item_count};
    ghost use Rattle.command_text.specs.Walks.{names_left};

    type Item = Name;

    ghost next_gives = { YieldsFirst names_left };

    ghost remaining = { item_count names_left };

    fn next(&mut self) -> Option<Name> {
        let names = self.rest.take()?;
        let (name, rest) = names.split_first();
        self.rest = rest;
        Some(name)
    }
}

// The bytes before the first comma, and those behind it; None where there is no comma.
fn split_piece(bytes: &[u8]) -> (&[u8], Option<&[u8]>)
    ensures { comma_pieces bytes.now ≡ result.0.now ∷ option_map_or (λ rest. comma_pieces rest.now) result.1 [] }
{
    for (at, byte) in bytes.iter().enumerate() {
        if *byte == b',' {
            return (&bytes[..at], Some(&bytes[at + 1..]));
        }
    }
    (bytes, None)
}

fn commas(bytes: &[u8]) -> usize
    ensures { result ≡ count_by (λ b. b == 44) bytes.now }
{
    bytes.iter().filter(|byte| **byte == b',').count()
}

// The bytes between two commas, or before the first or after the last.
fn piece_at(bytes: &[u8], i: usize) -> Option<&[u8]>
    ensures { option_map (λ x. x.now) result ≡ slice_get (comma_pieces bytes.now) i }
{
    bytes.split(|byte| *byte == b',').nth(i)
}

// The bytes of the last name, where a list of fibres goes on with this byte.
fn longer_list(name_len: usize, byte: u8) -> Option<usize>
    ensures { result ≡ one_more fibre_scan name_len byte }
{
    if name_len < NAME_LEN && is_name_byte(byte) {
        Some(name_len + 1)
    } else if 0 < name_len && byte == b',' {
        Some(0)
    } else {
        None
    }
}

// The bytes of the last name of the list at the front, and the bytes after the list.
fn list_end(bytes: &[u8]) -> (usize, &[u8])
    ensures end { munch fibre_scan 0 bytes.now ≡ settle fibre_scan result.0 result.1.now }
    ensures len { length result.1.now ≤ length bytes.now }
{
    let mut name_len = 0;
    let mut rest = bytes;
    while let Some((byte, others)) = rest.split_first() {
        match longer_list(name_len, *byte) {
            Some(longer) => name_len = longer,
            None => return (name_len, rest),
        }
        rest = others;
    }
    (name_len, rest)
}

/// The list of fibres at the front.
pub fn fibres_at(bytes: &[u8]) -> Result<(FibreNames<'_>, &[u8]), Stuck>
    ensures { Gives (λ x. (x.0, x.1.now)) result (fibres_at bytes.now) }
{
    let (name_len, rest) = list_end(bytes);
    if name_len == 0 {
        return Err(Stuck { left: rest.len() });
    }
    let len = bytes.len() - rest.len();
    Ok((
        FibreNames {
            bytes: &bytes[..len],
        },
        rest,
    ))
}
