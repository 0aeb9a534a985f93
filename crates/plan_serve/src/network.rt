//! The network that a call goes over, read from its file.
ghost use Rattle.std.specs.Prelude.{◌≡◌, ◌≢◌, ◌++◌, ◌∷◌, [], IsTrue};
ghost use Rattle.eon_outside.specs.Reading.{IsThere};
ghost use Rattle.plan_serve.specs.Files.{ReadsText, ReadsNetwork, ReadsBound};

use crate::status::Status;
use eon_outside::{ReadEnd, ReadFault, Shelf, read_up_to};
use file_digest::digest_of;
use net_file::{NetFault, NetRefusal, read_net};
use net_setup::NetSetup;
use std::alloc::Global;

/// The most bytes of a network text.
const LONGEST_NETWORK: usize = 1_048_576;

/// A network, and the digest of its file, to which its journal is bound.
#[derive(Drop)]
pub(crate) struct BoundNetwork {
    pub(crate) setup: NetSetup,
    pub(crate) digest: [u8; 32],
}

// Reads the network, and leaves the bytes of its file in `text`.
fn read_text<H: Shelf>(
    alloc: Global,
    name: &str,
    shelf: &mut H,
    text: &mut Vec<u8>,
) -> Result<NetSetup, Status>
    ensures network { ReadsText (H.files shelf.old) name.now (H.faults shelf.old) (H.faults shelf.new) text.new.items result }
    ensures files { H.files shelf.new ≡ H.files shelf.old }
    ensures opened { H.opened shelf.new ≡ H.opened shelf.old ++ name.now ∷ [] }
    ensures calm { IsTrue (H.calm shelf.old) → IsTrue (H.calm shelf.new) × (IsThere (H.files shelf.old) name.now → result ≢ Err Status.ReadFault) }
{
    match read_up_to(shelf, name, text, LONGEST_NETWORK) {
        Ok(ReadEnd::Whole) => match read_net(alloc, text.as_slice()) {
            Ok(setup) => Ok(setup),
            Err(NetRefusal::Fault(NetFault { line, why })) => Err(Status::NetRefused { line, why }),
            Err(NetRefusal::Memory) => Err(Status::Memory),
        },
        Ok(ReadEnd::Long) => Err(Status::NetLong),
        Err(ReadFault::Failed) => Err(Status::ReadFault),
        Err(ReadFault::Memory) => Err(Status::Memory),
    }
}

/// Reads the network. Where it is not accepted, the call ends with the status.
pub(crate) fn read_network<H: Shelf>(
    alloc: Global,
    name: &str,
    shelf: &mut H,
) -> Result<NetSetup, Status>
    ensures network { ReadsNetwork (H.files shelf.old) name.now (H.faults shelf.old) (H.faults shelf.new) result }
    ensures files { H.files shelf.new ≡ H.files shelf.old }
    ensures opened { H.opened shelf.new ≡ H.opened shelf.old ++ name.now ∷ [] }
    ensures calm { IsTrue (H.calm shelf.old) → IsTrue (H.calm shelf.new) × (IsThere (H.files shelf.old) name.now → result ≢ Err Status.ReadFault) }
{
    let mut text = Vec::new(alloc);
    read_text(alloc, name, shelf, &mut text)
}

/// Reads the network with its digest. Where it is not accepted, the call ends with the status.
pub(crate) fn read_bound_network<H: Shelf>(
    alloc: Global,
    name: &str,
    shelf: &mut H,
) -> Result<BoundNetwork, Status>
    ensures network { ReadsBound (H.files shelf.old) name.now (H.faults shelf.old) (H.faults shelf.new) result }
    ensures files { H.files shelf.new ≡ H.files shelf.old }
    ensures opened { H.opened shelf.new ≡ H.opened shelf.old ++ name.now ∷ [] }
    ensures calm { IsTrue (H.calm shelf.old) → IsTrue (H.calm shelf.new) × (IsThere (H.files shelf.old) name.now → result ≢ Err Status.ReadFault) }
{
    let mut text = Vec::new(alloc);
    match read_text(alloc, name, shelf, &mut text) {
        Ok(setup) => {
            let digest = digest_of(text.as_slice());
            Ok(BoundNetwork { setup, digest })
        }
        Err(status) => Err(status),
    }
}
