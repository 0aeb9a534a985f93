//! A file of the machine.
ghost use Rattle.std.specs.Prelude.{◌≡◌, ◌≤◌, [], ⊤, ℕ, None, Some, length, IfOk};
ghost use Rattle.eon_outside.specs.Faults.{Counts, counted};
ghost use Rattle.eon_disk.specs.Asked.{asked_of};

use crate::disk::{Deck, Disk, DiskFailed};
use eon_outside::opened_names::OpenedNames;
use std::fs::{OpenFile, OpenOptions};
use std::io::{Read, Seek, SeekFrom, Write};
use std::rt::Files;

/// One file of the machine. It tells no content. Each error of the system is a fault, an interrupted call too, and so is
/// a call where no file is attached.
#[derive(Drop)]
pub struct FileDeck<'a, R: Files> {
    rt: &'a R,
    file: Option<R::File>,
    faults: u64,
    names: OpenedNames,
    create: Option<bool>,
}

impl<'a, R: Files> FileDeck<'a, R> {
    /// No file yet of this runtime.
    pub fn new(rt: &'a R) -> FileDeck<'a, R>
        ensures asked { asked_of result.create result.names.names ≡ None }
        ensures faults { result.faults ≡ 0 }
    {
        FileDeck {
            rt,
            file: None,
            faults: 0,
            names: OpenedNames::new(),
            create: None,
        }
    }

    /// How many calls failed. The count stays at 2^64 - 1.
    pub fn faults(&self) -> u64
        ensures { result ≡ self.now.faults }
    {
        self.faults
    }
}

// Opens a file for reading and writing.
fn open_file<R: Files>(rt: &R, name: &str, create: bool) -> Result<R::File, DiskFailed> {
    let opened = OpenOptions::new()
        .read(true)
        .write(true)
        .create(create)
        .open(rt, name);
    match opened {
        Ok(file) => Ok(file),
        Err(_) => Err(DiskFailed),
    }
}

// How many bytes the file has.
fn length_of<F: OpenFile>(file: &F) -> Result<u64, DiskFailed> {
    match file.metadata() {
        Ok(metadata) => Ok(metadata.len()),
        Err(_) => Err(DiskFailed),
    }
}

// Reads from an offset on until the buffer is full or the file ends.
fn read_from<F: Read + Seek>(file: &mut F, at: u64, buf: &mut [u8]) -> Result<usize, DiskFailed>
    ensures { IfOk result (λ count. count ≤ length buf.old) }
{
    let Ok(_) = file.seek(SeekFrom::Start(at)) else {
        return Err(DiskFailed);
    };
    let mut count = 0;
    while count < buf.len() {
        match file.read(&mut buf[count..]) {
            Ok(0) => return Ok(count),
            Ok(more) => count += more,
            Err(_) => return Err(DiskFailed),
        }
    }
    Ok(count)
}

// Writes a piece at an offset.
fn write_to<F: Write + Seek>(file: &mut F, at: u64, piece: &[u8]) -> Result<(), DiskFailed> {
    let Ok(_) = file.seek(SeekFrom::Start(at)) else {
        return Err(DiskFailed);
    };
    let mut count = 0;
    while count < piece.len() {
        match file.write(&piece[count..]) {
            Ok(0) | Err(_) => return Err(DiskFailed),
            Ok(more) => count += more,
        }
    }
    Ok(())
}

// The count of faults after this answer.
fn count_fault<T: Drop>(faults: &mut u64, answer: Result<T, DiskFailed>) -> Result<T, DiskFailed>
    ensures answer { result ≡ answer }
    ensures counts { Counts faults.old faults.new result }
{
    if answer.is_err() {
        *faults = faults.saturating_add(1);
    }
    answer
}

impl<'a, R: Files> Disk for FileDeck<'a, R> {
    ghost now = { λ _. None };

    ghost images = { λ _ _. ⊤ };

    ghost clock = { λ _. 0 };

    ghost images_since = { λ _ _ _. ⊤ };

    ghost faults = { λ d. d.faults };

    ghost asked = { λ d. asked_of d.create d.names.names };

    fn len(&mut self) -> Result<u64, DiskFailed>
        ensures counts { Counts self.old.faults self.new.faults result }
        ensures asked { asked_of self.new.create self.new.names.names ≡ asked_of self.old.create self.old.names.names }
    {
        let answer = match &self.file {
            Some(file) => length_of(file),
            None => Err(DiskFailed),
        };
        count_fault(&mut self.faults, answer)
    }

    fn read_at(&mut self, at: u64, buf: &mut [u8]) -> Result<usize, DiskFailed>
        ensures bound { IfOk result (λ count. count ≤ length buf.old) }
        ensures counts { Counts self.old.faults self.new.faults result }
        ensures asked { asked_of self.new.create self.new.names.names ≡ asked_of self.old.create self.old.names.names }
    {
        let answer = match &mut self.file {
            Some(file) => read_from(file, at, buf),
            None => Err(DiskFailed),
        };
        count_fault(&mut self.faults, answer)
    }

    fn write_at(&mut self, at: u64, piece: &[u8]) -> Result<(), DiskFailed>
        ensures counts { Counts self.old.faults self.new.faults result }
        ensures asked { asked_of self.new.create self.new.names.names ≡ asked_of self.old.create self.old.names.names }
    {
        let answer = match &mut self.file {
            Some(file) => write_to(file, at, piece),
            None => Err(DiskFailed),
        };
        count_fault(&mut self.faults, answer)
    }

    fn cut(&mut self, len: u64) -> Result<(), DiskFailed>
        ensures counts { Counts self.old.faults self.new.faults result }
        ensures asked { asked_of self.new.create self.new.names.names ≡ asked_of self.old.create self.old.names.names }
    {
        let answer = match &self.file {
            Some(file) => file.set_len(len).map_err(|_| DiskFailed),
            None => Err(DiskFailed),
        };
        count_fault(&mut self.faults, answer)
    }

    fn sync(&mut self) -> Result<(), DiskFailed>
        ensures counts { Counts self.old.faults self.new.faults result }
        ensures asked { asked_of self.new.create self.new.names.names ≡ asked_of self.old.create self.old.names.names }
    {
        let answer = match &self.file {
            Some(file) => file.sync_all().map_err(|_| DiskFailed),
            None => Err(DiskFailed),
        };
        count_fault(&mut self.faults, answer)
    }

    ghost reads = { λ _. tt };

    ghost counts_now = { λ _ _ _ _ _. tt };

    ghost only_now = { λ _ _ _. tt };
}

impl<'a, R: Files> Deck for FileDeck<'a, R> {
    fn attach(&mut self, name: &str, create: bool) -> Result<(), DiskFailed>
        ensures counts { Counts self.old.faults self.new.faults result }
        ensures asked { asked_of self.new.create self.new.names.names ≡ Some (record { name = name.now; create = create }) }
    {
        self.names.note(name.as_bytes());
        self.create = Some(create);
        self.file = None;
        match open_file(self.rt, name, create) {
            Ok(file) => {
                self.file = Some(file);
                Ok(())
            }
            Err(_) => {
                self.faults = self.faults.saturating_add(1);
                Err(DiskFailed)
            }
        }
    }
}
