//! A fixed buffer for one line.
ghost use Rattle.std.specs.Prelude.{◌≡◌, ◌+◌, ◌≤◌, [], ◌++◌, length};

use arrayvec::ArrayVec;
use std::marker::Model;

/// The most bytes of a line.
const MOST_BYTES: usize = 4096;

/// The bytes of one line, at most 4,096, kept without memory.
#[derive(Drop)]
pub struct LineBuf {
    bytes: ArrayVec<u8, MOST_BYTES>,
}

impl Model for LineBuf {
    ghost use Rattle.std.specs.Prelude.{ℕ, List};

    ghost Value = { List ℕ };

    ghost view = { λ b. b.bytes.items };
}

impl LineBuf {
    /// A buffer with no bytes.
    pub fn new() -> LineBuf
        ensures { result ≡ [] }
    {
        LineBuf {
            bytes: ArrayVec::new(),
        }
    }

    /// Its bytes: those of the line that was written last.
    pub fn bytes(&self) -> &[u8]
        ensures value { result.now ≡ self.now }
        ensures short { length self.now ≤ 4096 }
    {
        self.bytes.as_slice()
    }

    /// Drops its bytes.
    pub(crate) fn clear(&mut self)
        ensures { self.new ≡ [] }
    {
        self.bytes.clear();
    }

    /// Appends these bytes.
    pub(crate) fn put(&mut self, piece: &[u8])
        requires { length self.old + length piece.now ≤ 4096 }
        ensures { self.new ≡ self.old ++ piece.now }
    {
        match self.bytes.try_extend_from_slice(piece) {
            Ok(()) => {}
            Err(_) => unreachable!(),
        }
    }
}
