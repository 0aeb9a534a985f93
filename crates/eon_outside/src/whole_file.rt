//! Files that are read to their end, within a limit.
ghost use Rattle.std.specs.Prelude.{◌≡◌, ◌≢◌, ◌<◌, ◌≤◌, [], ◌∷◌, ◌++◌, length, vec_len, IfSome, IsTrue};
ghost use Rattle.std.specs.Io.KnownBytes.{Consumes, IsAtEnd};
ghost use Rattle.eon_outside.specs.Reading.{IsThere};
ghost use Rattle.eon_outside.specs.WholeFile.{IsFile, IsLonger, CountsFailed, NotFailed};

use crate::reading::Shelf;

/// How far a file was read.
#[derive(Clone, Copy, Debug, PartialEq, Eq)]
pub enum ReadEnd {
    /// To its end.
    Whole,
    /// Past the limit: the file has more bytes than that.
    Long,
}

/// Why a file was not read.
#[derive(Clone, Copy, Debug, PartialEq, Eq)]
pub enum ReadFault {
    /// The shelf failed.
    Failed,
    /// There was no memory for the bytes.
    Memory,
}

/// Bytes read at a time.
const PIECE: usize = 4096;

/// Reads the file of this name to its end, if it has at most `limit` bytes. They are then all of `room`; with any
/// other answer `room` is empty. What stood in `room` is dropped.
pub fn read_up_to<H: Shelf>(
    shelf: &mut H,
    name: &str,
    room: &mut Vec<u8>,
    limit: usize,
) -> Result<ReadEnd, ReadFault>
    ensures whole { result ≡ Ok ReadEnd.Whole → IsFile (H.files shelf.old) name.now room.new.items }
    ensures within { vec_len room.new ≤ limit }
    ensures long { result ≡ Ok ReadEnd.Long → IsLonger (H.files shelf.old) name.now limit }
    ensures empty { result ≢ Ok ReadEnd.Whole → room.new.items ≡ [] }
    ensures at_end { result ≡ Ok ReadEnd.Whole → IsAtEnd (H.left shelf.new) }
    ensures counts { CountsFailed (H.faults shelf.old) (H.faults shelf.new) result }
    ensures memory { result ≡ Err ReadFault.Memory → IsThere (H.files shelf.old) name.now }
    ensures calm { IsTrue (H.calm shelf.old) → IsTrue (H.calm shelf.new) × (IsThere (H.files shelf.old) name.now → NotFailed result) }
    ensures files { H.files shelf.new ≡ H.files shelf.old }
    ensures opened { H.opened shelf.new ≡ H.opened shelf.old ++ name.now ∷ [] }
{
    room.clear();
    match shelf.open(name) {
        Err(_) => Err(ReadFault::Failed),
        Ok(()) => match read_rest(shelf, room, limit) {
            Ok(ReadEnd::Whole) => Ok(ReadEnd::Whole),
            other => {
                room.clear();
                other
            }
        },
    }
}

/// Appends what is left of the open file to an empty `room`, if that is at most `limit` bytes.
fn read_rest<H: Shelf>(
    shelf: &mut H,
    room: &mut Vec<u8>,
    limit: usize,
) -> Result<ReadEnd, ReadFault>
    requires { room.old.items ≡ [] }
    ensures whole { result ≡ Ok ReadEnd.Whole → IfSome (H.left shelf.old) (λ bytes. bytes ≡ room.new.items) }
    ensures within { vec_len room.new ≤ limit }
    ensures long { result ≡ Ok ReadEnd.Long → IfSome (H.left shelf.old) (λ bytes. limit < length bytes) }
    ensures at_end { result ≡ Ok ReadEnd.Whole → IsAtEnd (H.left shelf.new) }
    ensures counts { CountsFailed (H.faults shelf.old) (H.faults shelf.new) result }
    ensures calm { IsTrue (H.calm shelf.old) → IsTrue (H.calm shelf.new) × NotFailed result }
    ensures files { H.files shelf.new ≡ H.files shelf.old }
    ensures opened { H.opened shelf.new ≡ H.opened shelf.old }
{
    let mut piece = [0; PIECE];
    loop {
        let Ok(count) = shelf.read(&mut piece) else {
            return Err(ReadFault::Failed);
        };
        if count == 0 {
            return Ok(ReadEnd::Whole);
        }
        if count > limit - room.len() {
            return Ok(ReadEnd::Long);
        }
        if room.extend_from_slice(&piece[..count]).is_err() {
            return Err(ReadFault::Memory);
        }
    }
}
