//! Files, read whole.
ghost use Rattle.std.specs.Prelude.{◌≡◌, ◌≢◌, ◌⊎◌, IfOk};
ghost use Rattle.eon_outside.specs.Faults.{counted};
ghost use Rattle.eon_outside.specs.WholeFile.{IsFile, IsLonger};

use eon_disk::{Deck, Disk, DiskFailed, FileDeck};
use eon_outside::{ReadEnd, ReadFault, Shelf, read_up_to};
use std::alloc::{AllocError, Global};

/// The most bytes of a file.
const LONGEST: usize = 1_048_576;

/// Why a file is not there to be compared.
#[derive(Clone, Copy, Debug, PartialEq, Eq)]
pub enum FileFault {
    /// It could not be opened or read, or is too long.
    Unread,
    /// It is no text of the form that is wanted.
    Text,
    /// There was no memory for it.
    Memory,
}

impl From<AllocError> for FileFault {
    fn from(_error: AllocError) -> FileFault {
        FileFault::Memory
    }
}

/// All bytes of the file of this name.
pub(crate) fn file_of<H: Shelf>(
    alloc: Global,
    shelf: &mut H,
    name: &str,
) -> Result<Vec<u8>, FileFault>
    ensures whole { IfOk result (λ bytes. IsFile (H.files shelf.old) name.now bytes.items) }
    ensures unread { result ≡ Err FileFault.Unread → (H.faults shelf.new ≡ counted (H.faults shelf.old)) ⊎ IsLonger (H.files shelf.old) name.now 1048576 }
    ensures text { result ≢ Err FileFault.Text }
    ensures files { H.files shelf.new ≡ H.files shelf.old }
{
    let mut bytes = Vec::new(alloc);
    match read_up_to(shelf, name, &mut bytes, LONGEST) {
        Ok(ReadEnd::Whole) => Ok(bytes),
        Ok(ReadEnd::Long) => Err(FileFault::Unread),
        Err(ReadFault::Failed) => Err(FileFault::Unread),
        Err(ReadFault::Memory) => Err(FileFault::Memory),
    }
}

/// Takes all bytes away from a disk, whose file is made where it is not there.
fn empty_disk<D: Deck>(disk: &mut D, name: &str) -> Result<(), DiskFailed> {
    disk.attach(name, true)?;
    disk.cut(0)?;
    disk.sync()
}

/// Makes the file of this name where it is not there, and takes all its bytes away.
pub(crate) fn empty_file(rt: &HostRuntime, name: &str) -> Result<(), FileFault> {
    match empty_disk(&mut FileDeck::new(rt), name) {
        Ok(()) => Ok(()),
        Err(DiskFailed) => Err(FileFault::Unread),
    }
}
