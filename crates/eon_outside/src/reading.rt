//! Files that are opened by name and read in pieces.
ghost use Rattle.std.specs.Prelude.{◌≡◌, ℕ, Bool, List, [], ◌∷◌, ◌++◌, Option, OnErr, IfSome};
ghost use Rattle.std.specs.Io.{ReadsAtMost};
ghost use Rattle.std.specs.Io.KnownBytes.{ReadConsumes};
ghost use Rattle.eon_outside.specs.Faults.{Counts};
ghost use Rattle.eon_outside.specs.Reading.{NamedFiles, Opens, OpensCalmly, StaysCalm};

/// A call outside failed. The count of faults of the object that was called tells so.
#[derive(Clone, Copy, Debug, PartialEq, Eq)]
pub struct Failed;

/// Files, of which one at a time is open.
///
/// Contracts see five things of it. `files` are the files by name and `left` the bytes still to come of the open file,
/// each `None` where the object does not tell. `opened` are the names that `open` was called with, first to last,
/// whatever came of it. `faults` counts the calls that failed: each raises it by one, up to 2^64 - 1. An object is
/// `calm` if it is sure that none of its calls fails, but for opening a name that is not there.
pub trait Shelf {
    ghost files: { Self → Option NamedFiles };

    ghost left: { Self → Option (List ℕ) };

    ghost opened: { Self → List (List ℕ) };

    ghost faults: { Self → ℕ };

    ghost calm: { Self → Bool };

    /// Opens the file of this name at its first byte. What was open before is no longer. After a failure nothing is
    /// open and no byte is left.
    fn open(&mut self, name: &str) -> Result<(), Failed>
        ensures bytes { Opens (files self.old) name.now (left self.new) result }
        ensures none_open { OnErr result (IfSome (left self.new) (λ bytes. bytes ≡ [])) }
        ensures files { files self.new ≡ files self.old }
        ensures opened { opened self.new ≡ opened self.old ++ name.now ∷ [] }
        ensures counts { Counts (faults self.old) (faults self.new) result }
        ensures calm { OpensCalmly (calm self.old) (calm self.new) (files self.old) name.now result };

    /// Moves the next bytes of the open file to the front of `buf`, and says how many. 0 for a `buf` that is not
    /// empty is the end of the file. After a failure the same bytes are left.
    fn read(&mut self, buf: &mut [u8]) -> Result<usize, Failed>
        ensures bound { ReadsAtMost result buf.new }
        ensures bytes { ReadConsumes (left self.old) (left self.new) result buf.new }
        ensures files { files self.new ≡ files self.old }
        ensures opened { opened self.new ≡ opened self.old }
        ensures counts { Counts (faults self.old) (faults self.new) result }
        ensures calm { StaysCalm (calm self.old) (calm self.new) result };
}
