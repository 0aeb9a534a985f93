//! The files of the machine, read by name.
ghost use Rattle.std.specs.Prelude.{◌≡◌, [], ◌∷◌, ◌++◌, None, false};
ghost use Rattle.std.specs.Io.{ReadsAtMost};
ghost use Rattle.std.specs.Io.KnownBytes.{ReadConsumes};
ghost use Rattle.eon_outside.specs.Faults.{Counts};
ghost use Rattle.eon_outside.specs.Reading.{left_in};

use crate::opened_names::OpenedNames;
use crate::reading::{Failed, Shelf};
use std::fs;
use std::io::Read;
use std::rt::Files;

/// The files of the machine. It tells no content. Each error of the system is a fault, and an interrupted call too.
#[derive(Drop)]
pub struct FileShelf<'a, R: Files> {
    rt: &'a R,
    file: Option<R::File>,
    faults: u64,
    opened: OpenedNames,
}

impl<'a, R: Files> FileShelf<'a, R> {
    /// The files of this runtime, of which none is open.
    pub fn new(rt: &'a R) -> FileShelf<'a, R>
        ensures opened { result.opened.names ≡ [] }
        ensures faults { result.faults ≡ 0 }
    {
        FileShelf {
            rt,
            file: None,
            faults: 0,
            opened: OpenedNames::new(),
        }
    }

    /// How many calls failed. The count stays at 2^64 - 1.
    pub fn faults(&self) -> u64
        ensures { result ≡ self.now.faults }
    {
        self.faults
    }
}

impl<'a, R: Files> Shelf for FileShelf<'a, R> {
    ghost files = { λ _. None };

    ghost left = { λ _. None };

    ghost opened = { λ s. s.opened.names };

    ghost faults = { λ s. s.faults };

    ghost calm = { λ _. false };

    fn open(&mut self, name: &str) -> Result<(), Failed>
        ensures opened { self.new.opened.names ≡ self.old.opened.names ++ name.now ∷ [] }
        ensures counts { Counts self.old.faults self.new.faults result }
    {
        self.opened.note(name.as_bytes());
        self.file = None;
        match fs::open(self.rt, name) {
            Ok(file) => {
                self.file = Some(file);
                Ok(())
            }
            Err(_) => {
                self.faults = self.faults.saturating_add(1);
                Err(Failed)
            }
        }
    }

    fn read(&mut self, buf: &mut [u8]) -> Result<usize, Failed>
        ensures bound { ReadsAtMost result buf.new }
        ensures reads { ReadConsumes (left_in R.File.remaining self.old.file) (left_in R.File.remaining self.new.file) result buf.new }
        ensures opened { self.new.opened.names ≡ self.old.opened.names }
        ensures counts { Counts self.old.faults self.new.faults result }
    {
        let Some(file) = &mut self.file else {
            return Ok(0);
        };
        match file.read(buf) {
            Ok(count) => Ok(count),
            Err(_) => {
                self.faults = self.faults.saturating_add(1);
                Err(Failed)
            }
        }
    }
}
