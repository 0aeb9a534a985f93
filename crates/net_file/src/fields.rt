ghost use Rattle.std.specs.Prelude.{◌≡◌, drop, slice_get, option_copied};
ghost use Rattle.eon_model.specs.Spelling.{fields_of};
ghost use Rattle.eon_base.specs.Names.{name_of};
ghost use Rattle.net_file.specs.Readings.{first_read, is_nil};

use crate::cut::cut;
use eon_base::name::Name;
use std::marker::Model;

/// The fields of a line that are left, from left to right.
/// Fields stand between single spaces: a line has one field more than it has spaces.
#[derive(Drop)]
pub struct Fields<'a> {
    rest: Option<&'a [u8]>,
}

impl<'a> Model for Fields<'a> {
    ghost use Rattle.std.specs.Prelude.{List, ℕ, []};
    ghost use Rattle.std.specs.Option.{option_map_or};
    ghost use Rattle.eon_model.specs.Spelling.{fields_of};

    ghost Value = { List (List ℕ) };

    ghost view = { λ fields. option_map_or (λ r. fields_of r.now) fields.rest [] };
}

impl<'a> Fields<'a> {
    /// All fields of the line.
    pub fn new(line: &'a [u8]) -> Fields<'a>
        ensures { result ≡ fields_of line.now }
    {
        Fields { rest: Some(line) }
    }

    /// A second cursor at the same place.
    pub fn ahead(&self) -> Fields<'a>
        ensures { result ≡ self.now }
    {
        Fields { rest: self.rest }
    }

    /// The next field, or `None` behind the last one.
    pub fn next_field(&mut self) -> Option<&'a [u8]>
        ensures value { option_copied result ≡ slice_get self.old 0 }
        ensures after { self.new ≡ drop 1 self.old }
    {
        let rest = self.rest?;
        match cut(rest, b' ') {
            Some((field, behind)) => {
                self.rest = Some(behind);
                Some(field)
            }
            None => {
                self.rest = None;
                Some(rest)
            }
        }
    }

    /// The next field, where it is a name. The cursor is behind it either way.
    pub fn name(&mut self) -> Option<Name>
        ensures value { result ≡ first_read name_of self.old }
        ensures after { self.new ≡ drop 1 self.old }
    {
        let field = self.next_field()?;
        Name::read(field).ok()
    }

    /// Whether no field is left.
    pub fn is_done(&self) -> bool
        ensures { result ≡ is_nil self.now }
    {
        self.rest.is_none()
    }
}
