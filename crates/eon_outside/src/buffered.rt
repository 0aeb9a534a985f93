//! A sink that holds bytes back.
ghost use Rattle.std.specs.Prelude.{◌≡◌, ◌<◌, ◌≤◌, ◌++◌, ℕ, List, [], Option, None, true, false, length, drop, vec_len};
ghost use Rattle.std.specs.Io.KnownBytes.{WriteAppends};
ghost use Rattle.eon_outside.specs.Faults.{Stands};
ghost use Rattle.eon_outside.specs.Writing.{TakesSome};
ghost use Rattle.eon_outside.specs.Held.{standing_over, given_since, Flushes};
ghost use Rattle.eon_outside.specs.Sure.{sure_over};

use crate::reading::Failed;
use crate::writing::{Sink, write_front};
use std::marker::{Brand, PhantomData};

/// What a sink had been given when bytes began to be held back for it. Only contracts see it: whoever calls a function
/// with this bound passes `Brand`, and says the bytes in its proof.
pub trait Start {
    ghost bytes: { Option (List ℕ) };
}

impl Start for Brand {
    ghost bytes = { None };
}

/// A sink above another one, which holds bytes back, so that the one below is given them in large pieces. What it was
/// given is what the one below took, and what is held; it tells so where the one below tells what it was given, beginning
/// with what it had at the start.
#[derive(Drop)]
pub struct Buffered<'a, K: Sink, S: Start> {
    out: &'a mut K,
    held: &'a mut Vec<u8>,
    start: PhantomData<S>,
}

impl<'a, K: Sink, S: Start> Buffered<'a, K, S> {
    /// Holds these bytes back for this sink, and as many as they have room for.
    pub fn new(out: &'a mut K, held: &'a mut Vec<u8>) -> Buffered<'a, K, S>
        ensures sink { result.out.ghost_name ≡ out.entry.ghost_name }
        ensures place { result.held.ghost_name ≡ held.entry.ghost_name }
        ensures same { result.out.now ≡ out.old }
        ensures held { result.held.now.items ≡ held.old.items }
    {
        Buffered {
            out,
            held,
            start: PhantomData,
        }
    }

    /// Gives all that is held to the sink below. What it did not take stays held after a failure.
    pub fn flush(&mut self) -> Result<(), Failed>
        ensures bytes { Flushes (K.given self.old.out.now) (K.given self.new.out.now) self.old.held.now.items self.new.held.now.items result }
        ensures stands { Stands (standing_over self.old.out.ghost_name self.old.held.ghost_name (K.standing self.old.out.now)) (standing_over self.new.out.ghost_name self.new.held.ghost_name (K.standing self.new.out.now)) result }
    {
        match write_front(self.out, self.held.as_slice()) {
            Ok(()) => {
                self.held.clear();
                Ok(())
            }
            Err(given) => {
                remove_front(self.held, given);
                Err(Failed)
            }
        }
    }

    // Takes a piece where nothing is held.
    fn write_first(&mut self, piece: &[u8]) -> Result<usize, Failed>
        requires { self.old.held.now.items ≡ [] }
        ensures bound { TakesSome result piece.now }
        ensures bytes { WriteAppends (given_since S.bytes (K.given self.old.out.now) self.old.held.now.items) (given_since S.bytes (K.given self.new.out.now) self.new.held.now.items) result piece.now }
        ensures stands { Stands (standing_over self.old.out.ghost_name self.old.held.ghost_name (K.standing self.old.out.now)) (standing_over self.new.out.ghost_name self.new.held.ghost_name (K.standing self.new.out.now)) result }
    {
        if hold(self.held, piece) {
            return Ok(piece.len());
        }
        self.out.write(piece)
    }
}

impl<'a, K: Sink, S: Start> Sink for Buffered<'a, K, S> {
    ghost given = { λ b. given_since S.bytes (K.given b.out.now) b.held.now.items };

    ghost standing = { λ b. standing_over b.out.ghost_name b.held.ghost_name (K.standing b.out.now) };

    fn write(&mut self, piece: &[u8]) -> Result<usize, Failed> {
        if hold(self.held, piece) {
            return Ok(piece.len());
        }
        match self.flush() {
            Ok(()) => self.write_first(piece),
            Err(Failed) => Err(Failed),
        }
    }

    ghost sure = { λ b. sure_over b.out.ghost_name b.held.ghost_name (K.standing b.out.now) S.bytes (K.given b.out.now) b.held.now.items (K.sure b.out.now) };
}

// Appends the piece where there is room, and says whether there was. There is for a piece that is empty.
fn hold(held: &mut Vec<u8>, piece: &[u8]) -> bool
    ensures held { result ≡ true → held.new.items ≡ held.old.items ++ piece.now }
    ensures full { result ≡ false → (held.new.items ≡ held.old.items) × (0 < length piece.now) }
{
    if piece.is_empty() {
        return true;
    }
    if piece.len() > held.capacity().saturating_sub(held.len()) {
        return false;
    }
    match held.extend_from_slice(piece) {
        Ok(()) => true,
        Err(_) => unreachable!(),
    }
}

// Drops the first n bytes.
fn remove_front(held: &mut Vec<u8>, n: usize)
    requires { n ≤ vec_len held.old }
    ensures { held.new.items ≡ drop n held.old.items }
{
    let len = held.len();
    held.as_mut_slice().copy_within(n..len, 0);
    held.truncate(len - n);
}
