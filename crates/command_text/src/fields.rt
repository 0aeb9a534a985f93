//! The fields of a line, one after the other.
ghost use Rattle.std.specs.Prelude.{◌≡◌, ◌==◌, length, Ok, Err};
ghost use Rattle.command_text.specs.Reading.{after};
ghost use Rattle.command_text.specs.Parts.{name_at, positive_at, centre_at, class_at, fibres_at};
ghost use Rattle.command_text.specs.Lines.{field_at};
ghost use Rattle.command_text.specs.Given.{Leaves, Skips};

use crate::fibre_names::{FibreNames, fibres_at};
use crate::part::{Stuck, after, centre_at, class_at, name_at, positive_at};
use eon_base::name::Name;
use eon_model::Class;

/// The greatest rate in Gbit/s.
const MOST_RATE: u32 = 60000;

/// The bytes of a line that are still to be read. Each call reads a field with the space before it.
/// After an `Err` nothing is known of them.
#[derive(Drop)]
pub struct Fields<'a> {
    pub rest: &'a [u8],
}

impl<'a> Fields<'a> {
    /// Whether no byte is left.
    pub fn is_done(&self) -> bool
        ensures { result ≡ (length self.now.rest.now == 0) }
    {
        self.rest.is_empty()
    }

    /// Goes over this word.
    pub fn skip(&mut self, word: &[u8]) -> Result<(), Stuck>
        ensures { Skips result self.new.rest.now (after word.now self.old.rest.now) }
    {
        self.rest = after(word, self.rest)?;
        Ok(())
    }

    /// A name.
    pub fn name(&mut self) -> Result<Name, Stuck>
        ensures { Leaves (λ x. x) result self.new.rest.now (field_at name_at self.old.rest.now) }
    {
        match name_at(after(b" ", self.rest)?) {
            Ok((name, rest)) => {
                self.rest = rest;
                Ok(name)
            }
            Err(stuck) => Err(stuck),
        }
    }

    /// A rate in Gbit/s.
    pub fn rate(&mut self) -> Result<u32, Stuck>
        ensures { Leaves (λ x. x) result self.new.rest.now (field_at (positive_at 60000) self.old.rest.now) }
    {
        let (rate, rest) = positive_at(MOST_RATE, after(b" ", self.rest)?)?;
        self.rest = rest;
        Ok(rate)
    }

    /// A centre in units of 6.25 GHz.
    pub fn centre(&mut self) -> Result<i16, Stuck>
        ensures { Leaves (λ x. x) result self.new.rest.now (field_at centre_at self.old.rest.now) }
    {
        let (n, rest) = centre_at(after(b" ", self.rest)?)?;
        self.rest = rest;
        Ok(n)
    }

    /// A class.
    pub fn class(&mut self) -> Result<Class, Stuck>
        ensures { Leaves (λ x. x) result self.new.rest.now (field_at class_at self.old.rest.now) }
    {
        let (class, rest) = class_at(after(b" ", self.rest)?)?;
        self.rest = rest;
        Ok(class)
    }

    /// A list of fibres.
    pub fn fibres(&mut self) -> Result<FibreNames<'a>, Stuck>
        ensures { Leaves (λ x. x) result self.new.rest.now (field_at fibres_at self.old.rest.now) }
    {
        let (fibres, rest) = fibres_at(after(b" ", self.rest)?)?;
        self.rest = rest;
        Ok(fibres)
    }
}
