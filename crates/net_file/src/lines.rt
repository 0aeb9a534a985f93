ghost use Rattle.std.specs.Prelude.{◌≡◌, drop, slice_get, option_copied};
ghost use Rattle.eon_model.specs.NetworkFault.{whole_lines};
ghost use Rattle.net_file.specs.Readings.{has_nothing};

use crate::cut::cut;
use std::marker::Model;

/// The lines of a text that are left, from the first to the last.
/// A line ends with byte 10, and is given without it.
#[derive(Drop)]
pub struct Lines<'a> {
    rest: &'a [u8],
}

impl<'a> Model for Lines<'a> {
    ghost use Rattle.std.specs.Prelude.{List, ℕ};
    ghost use Rattle.eon_model.specs.NetworkFault.{whole_lines};

    ghost Value = { List (List ℕ) × List ℕ };

    ghost view = { λ lines. whole_lines lines.rest.now };
}

impl<'a> Lines<'a> {
    /// All lines of the text.
    pub fn new(text: &'a [u8]) -> Lines<'a>
        ensures { result ≡ whole_lines text.now }
    {
        Lines { rest: text }
    }

    /// The next line without its byte 10, or `None` where no byte 10 is left.
    pub fn next_line(&mut self) -> Option<&'a [u8]>
        ensures value { option_copied result ≡ slice_get self.old.0 0 }
        ensures after { self.new ≡ (drop 1 self.old.0, self.old.1) }
    {
        let (line, behind) = cut(self.rest, b'\n')?;
        self.rest = behind;
        Some(line)
    }

    /// Whether no byte is left, behind the last line's byte 10.
    pub fn is_done(&self) -> bool
        ensures { result ≡ has_nothing self.now }
    {
        self.rest.is_empty()
    }
}
