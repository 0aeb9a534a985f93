//! A fixed buffer for the bytes of one event.
ghost use Rattle.std.specs.Prelude.{◌≡◌, ◌+◌, ◌≤◌, ◌++◌, [], length};

use arrayvec::ArrayVec;
use std::marker::Model;

/// The most bytes of an event.
const MOST_BYTES: usize = 177;

/// The bytes of one event, at most 177, kept without memory.
#[derive(Drop)]
pub struct EventBuf {
    bytes: ArrayVec<u8, MOST_BYTES>,
}

impl Model for EventBuf {
    ghost use Rattle.std.specs.Prelude.{ℕ, List};

    ghost Value = { List ℕ };

    ghost view = { λ b. b.bytes.items };
}

impl EventBuf {
    /// A buffer with no bytes.
    pub fn new() -> EventBuf
        ensures { result ≡ [] }
    {
        EventBuf {
            bytes: ArrayVec::new(),
        }
    }

    /// Its bytes: those of the event that was written last.
    pub fn bytes(&self) -> &[u8]
        ensures value { result.now ≡ self.now }
        ensures short { length self.now ≤ 177 }
    {
        self.bytes.as_slice()
    }

    /// Drops its bytes.
    pub(crate) fn clear(&mut self)
        ensures { self.new ≡ [] }
    {
        self.bytes.clear();
    }

    /// Appends these bytes.
    pub(crate) fn put(&mut self, piece: &[u8])
        requires { length self.old + length piece.now ≤ 177 }
        ensures { self.new ≡ self.old ++ piece.now }
    {
        match self.bytes.try_extend_from_slice(piece) {
            Ok(()) => {}
            Err(_) => unreachable!(),
        }
    }
}
