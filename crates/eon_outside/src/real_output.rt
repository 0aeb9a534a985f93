//! Standard output.
ghost use Rattle.std.specs.Prelude.{◌≡◌, None, []};
ghost use Rattle.eon_outside.specs.Faults.{Counts};
ghost use Rattle.eon_outside.specs.Writing.{TakesSome};

use crate::reading::Failed;
use crate::writing::Sink;
use std::io::Print;

/// Standard output. It tells nothing of what it was given. Each error of the system is a fault, an interrupted call
/// too, and so is a write that takes nothing.
#[derive(Drop)]
pub struct StdoutSink<'a, R: Print> {
    rt: &'a R,
    faults: u64,
}

impl<'a, R: Print> StdoutSink<'a, R> {
    /// The standard output of this runtime.
    pub fn new(rt: &'a R) -> StdoutSink<'a, R>
        ensures { result.faults ≡ 0 }
    {
        StdoutSink { rt, faults: 0 }
    }

    /// How many calls failed. The count stays at 2^64 - 1.
    pub fn faults(&self) -> u64
        ensures { result ≡ self.now.faults }
    {
        self.faults
    }
}

impl<'a, R: Print> Sink for StdoutSink<'a, R> {
    ghost given = { λ _. None };

    ghost standing = { λ s. record { faults = s.faults; room = None; through = [] } };

    fn write(&mut self, piece: &[u8]) -> Result<usize, Failed>
        ensures bound { TakesSome result piece.now }
        ensures counts { Counts self.old.faults self.new.faults result }
    {
        match self.rt.write_some(piece) {
            Ok(0) | Err(_) => {
                self.faults = self.faults.saturating_add(1);
                Err(Failed)
            }
            Ok(count) => Ok(count),
        }
    }

    ghost sure = { λ _. tt };
}
