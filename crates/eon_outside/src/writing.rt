//! Bytes that are given out in pieces.
ghost use Rattle.std.specs.Prelude.{◌≡◌, ℕ, List, Option, OnOk, OnErr};
ghost use Rattle.std.specs.Io.KnownBytes.{Appends, WriteAppends};
ghost use Rattle.eon_outside.specs.Faults.{Standing, Stands, IsSure};
ghost use Rattle.eon_outside.specs.Writing.{TakesSome, AppendsPart, AppendsFront};

use crate::reading::Failed;

/// Where bytes are given to.
///
/// Contracts see two things of it. `given` are all bytes that it took, `None` where the object does not tell.
/// `standing` has its count of faults: each call that fails raises it by one, up to 2^64 - 1. What else the standing
/// has stays as it is: for how many bytes in all the object is sure to have room, and the references that it has.
pub trait Sink {
    ghost given: { Self → Option (List ℕ) };

    ghost standing: { Self → Standing };

    /// Takes the front of `piece` and says how many bytes, at least one where `piece` is not empty. A failure has
    /// taken nothing.
    fn write(&mut self, piece: &[u8]) -> Result<usize, Failed>
        ensures bound { TakesSome result piece.now }
        ensures bytes { WriteAppends (given self.old) (given self.new) result piece.now }
        ensures stands { Stands (standing self.old) (standing self.new) result };

    /// A sink that is sure of some room has no fault before so many bytes were given.
    ghost sure: { (sink : Self) → IsSure (standing sink) (given sink) };
}

/// Gives the whole piece. After a failure only a part of its front was given, perhaps nothing. For an empty piece the
/// sink is not called.
pub fn write_all<K: Sink>(out: &mut K, piece: &[u8]) -> Result<(), Failed>
    ensures bytes { OnOk result (Appends (K.given out.old) (K.given out.new) piece.now) }
    ensures part { OnErr result (AppendsPart (K.given out.old) (K.given out.new) piece.now) }
    ensures stands { Stands (K.standing out.old) (K.standing out.new) result }
{
    match write_front(out, piece) {
        Ok(()) => Ok(()),
        Err(_) => Err(Failed),
    }
}

/// The same, but after a failure it says how many bytes were given.
pub(crate) fn write_front<K: Sink>(out: &mut K, piece: &[u8]) -> Result<(), usize>
    ensures front { AppendsFront (K.given out.old) (K.given out.new) piece.now result }
    ensures stands { Stands (K.standing out.old) (K.standing out.new) result }
{
    let mut done = 0;
    while done < piece.len() {
        match out.write(&piece[done..]) {
            Ok(count) => done += count,
            Err(Failed) => return Err(done),
        }
    }
    Ok(())
}
