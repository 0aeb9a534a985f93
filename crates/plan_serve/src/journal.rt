//! The modes over a journal: `init` makes it, and `replay` tells what it leads to.
ghost use Rattle.std.specs.Prelude.{◌≡◌, ◌≢◌, ◌++◌, [], ℕ, true, false, length, IsTrue, Some, IfSome, IfOk};
ghost use Rattle.eon_model.specs.Disk.{LeavesOnly};
ghost use Rattle.eon_model.specs.Legal.{Legal};
ghost use Rattle.eon_model.specs.NetworkText.{is_setup};
ghost use Rattle.eon_model.specs.Replies.{Reply as Replied};
ghost use Rattle.eon_model.specs.ReplyText.{reply_text};
ghost use Rattle.eon_outside.specs.Reading.{IsThere};
ghost use Rattle.journal_replay.specs.Replayed.{IsReplayed, replay_failed};
ghost use Rattle.plan_journal.specs.Faults.{counted_if, init_failed};
ghost use Rattle.plan_journal.specs.Made.{IsMade, OnNotEmpty};
ghost use Rattle.plan_journal.specs.Moments.{IsTornFrom, OnlyReads};
ghost use Rattle.plan_serve.specs.Outside.{outside, output, disk_seen};
ghost use Rattle.plan_serve.specs.JournalEnds.{Tells, MakeEnds, InitEnds, TellEnds, TellsCount, ReplayEnds, MayBeMade, count_line};
ghost use Rattle.plan_serve.specs.Top.{IsEarly};

use crate::network::{BoundNetwork, read_bound_network};
use crate::status::{Status, refuse};
use eon_base::number::digits;
use eon_disk::{Deck, DiskFailed};
use eon_outside::{Failed, Shelf, Sink, write_all};
use journal_replay::{ReplayFault, replay};
use plan_core::Core;
use plan_journal::{InitFault, init};
use reply_text::{Reply, print_reply};
use std::alloc::{AllocError, Global};

/// What is written of a journal that was made.
const MADE: &str = "ok init\n";

/// Gives the one text of a mode, with which the call ends.
pub(crate) fn give<K: Sink>(out: &mut K, text: &[u8]) -> Status
    ensures told { Tells text.now (output (K.given out.old) (K.standing out.old)) (output (K.given out.new) (K.standing out.new)) result }
    ensures room { (K.standing out.new).room ≡ (K.standing out.old).room }
{
    match write_all(out, text) {
        Ok(()) => Status::Done,
        Err(Failed) => Status::WriteFault,
    }
}

/// Makes a journal for the network, on a disk without bytes.
pub(crate) fn make_journal<H: Shelf, K: Sink, D: Deck>(
    alloc: Global,
    net: &str,
    journal: &str,
    shelf: &mut H,
    out: &mut K,
    disk: &mut D,
) -> Status
    ensures ends { InitEnds net.now journal.now
        (outside (H.files shelf.old) (H.opened shelf.old) (H.left shelf.old) (H.faults shelf.old) (K.given out.old) (K.standing out.old))
        (outside (H.files shelf.new) (H.opened shelf.new) (H.left shelf.new) (H.faults shelf.new) (K.given out.new) (K.standing out.new))
        (disk_seen (D.now disk.old) (D.images disk.old) (D.asked disk.old) (D.faults disk.old))
        (disk_seen (D.now disk.new) (D.images disk.new) (D.asked disk.new) (D.faults disk.new)) result }
    ensures files { H.files shelf.new ≡ H.files shelf.old }
    ensures calm { IsTrue (H.calm shelf.old) → IsThere (H.files shelf.old) net.now → result ≢ Status.ReadFault }
    ensures room { (K.standing out.new).room ≡ (K.standing out.old).room }
    ensures untouched { IsEarly result → disk.new ≡ disk.old }
    ensures moments { LeavesOnly D.clock D.images_since disk.old disk.new (MayBeMade result (D.images disk.old)) }
{
    match read_bound_network(alloc, net, shelf) {
        Ok(network) => make_bound(&network.digest, journal, out, disk),
        Err(status) => refuse(out, status),
    }
}

// Makes a journal that is bound to the network of this digest.
fn make_bound<K: Sink, D: Deck>(
    digest: &[u8; 32],
    journal: &str,
    out: &mut K,
    disk: &mut D,
) -> Status
    ensures ends { MakeEnds digest.now journal.now (output (K.given out.old) (K.standing out.old)) (output (K.given out.new) (K.standing out.new))
        (disk_seen (D.now disk.old) (D.images disk.old) (D.asked disk.old) (D.faults disk.old))
        (disk_seen (D.now disk.new) (D.images disk.new) (D.asked disk.new) (D.faults disk.new)) result }
    ensures room { (K.standing out.new).room ≡ (K.standing out.old).room }
    ensures moments { LeavesOnly D.clock D.images_since disk.old disk.new (MayBeMade result (D.images disk.old)) }
{
    match make(disk, journal, digest) {
        Ok(()) => give(out, MADE.as_bytes()),
        Err(InitFault::NotEmpty { len }) => refuse(out, Status::NotEmpty { len }),
        Err(InitFault::Disk) => Status::DiskFault,
    }
}

// Attaches the journal, and makes it.
fn make<D: Deck>(disk: &mut D, journal: &str, digest: &[u8; 32]) -> Result<(), InitFault>
    ensures made { IfSome (D.now disk.old) (λ bytes. IsMade digest.now bytes (D.now disk.new) (D.images disk.new) result) }
    ensures moments { LeavesOnly D.clock D.images_since disk.old disk.new (IsTornFrom (D.images disk.old) 0 41) }
    ensures untouched { OnNotEmpty result (LeavesOnly D.clock D.images_since disk.old disk.new (D.images disk.old)) }
    ensures counts { D.faults disk.new ≡ counted_if (init_failed result) (D.faults disk.old) }
    ensures asked { D.asked disk.new ≡ Some (record { name = journal.now; create = true }) }
{
    match disk.attach(journal, true) {
        Ok(()) => init(disk, digest),
        Err(DiskFailed) => Err(InitFault::Disk),
    }
}

/// Tells how many events stand in the journal of the network, and the list that they lead to.
pub(crate) fn tell_journal<H: Shelf, K: Sink, D: Deck>(
    alloc: Global,
    net: &str,
    journal: &str,
    shelf: &mut H,
    out: &mut K,
    disk: &mut D,
) -> Status
    ensures ends { ReplayEnds net.now journal.now
        (outside (H.files shelf.old) (H.opened shelf.old) (H.left shelf.old) (H.faults shelf.old) (K.given out.old) (K.standing out.old))
        (outside (H.files shelf.new) (H.opened shelf.new) (H.left shelf.new) (H.faults shelf.new) (K.given out.new) (K.standing out.new))
        (disk_seen (D.now disk.old) (D.images disk.old) (D.asked disk.old) (D.faults disk.old))
        (disk_seen (D.now disk.new) (D.images disk.new) (D.asked disk.new) (D.faults disk.new)) result }
    ensures files { H.files shelf.new ≡ H.files shelf.old }
    ensures calm { IsTrue (H.calm shelf.old) → IsThere (H.files shelf.old) net.now → result ≢ Status.ReadFault }
    ensures room { (K.standing out.new).room ≡ (K.standing out.old).room }
    ensures untouched { IsEarly result → disk.new ≡ disk.old }
    ensures moments { LeavesOnly D.clock D.images_since disk.old disk.new (D.images disk.old) }
{
    match read_bound_network(alloc, net, shelf) {
        Ok(network) => tell_bound(alloc, network, journal, out, disk),
        Err(status) => refuse(out, status),
    }
}

// Tells it over this network.
fn tell_bound<K: Sink, D: Deck>(
    alloc: Global,
    network: BoundNetwork,
    journal: &str,
    out: &mut K,
    disk: &mut D,
) -> Status
    requires { IsTrue (is_setup network.setup) }
    ensures ends { TellEnds network.setup network.digest journal.now (output (K.given out.old) (K.standing out.old)) (output (K.given out.new) (K.standing out.new))
        (disk_seen (D.now disk.old) (D.images disk.old) (D.asked disk.old) (D.faults disk.old))
        (disk_seen (D.now disk.new) (D.images disk.new) (D.asked disk.new) (D.faults disk.new)) result }
    ensures room { (K.standing out.new).room ≡ (K.standing out.old).room }
    ensures now { D.now disk.new ≡ D.now disk.old }
    ensures moments { LeavesOnly D.clock D.images_since disk.old disk.new (D.images disk.old) }
{
    let BoundNetwork { setup, digest } = network;
    match Core::open(alloc, setup) {
        Ok(mut core) => tell_over(alloc, &mut core, &digest, journal, out, disk),
        Err(AllocError) => Status::Memory,
    }
}

// Tells it over a machine without a service.
fn tell_over<K: Sink, D: Deck>(
    alloc: Global,
    core: &mut Core,
    digest: &[u8; 32],
    journal: &str,
    out: &mut K,
    disk: &mut D,
) -> Status
    requires no_service { core.old.state ≡ [] }
    ensures ends { TellEnds core.old.setup digest.now journal.now (output (K.given out.old) (K.standing out.old)) (output (K.given out.new) (K.standing out.new))
        (disk_seen (D.now disk.old) (D.images disk.old) (D.asked disk.old) (D.faults disk.old))
        (disk_seen (D.now disk.new) (D.images disk.new) (D.asked disk.new) (D.faults disk.new)) result }
    ensures room { (K.standing out.new).room ≡ (K.standing out.old).room }
    ensures now { D.now disk.new ≡ D.now disk.old }
    ensures moments { LeavesOnly D.clock D.images_since disk.old disk.new (D.images disk.old) }
{
    match follow(core, disk, journal, digest) {
        Ok(count) => tell(alloc, core, count, out),
        Err(ReplayFault::Refused { at, why }) => refuse(out, Status::JournalRefused { at, why }),
        Err(ReplayFault::Other { kept, own }) => refuse(out, Status::JournalOther { kept, own }),
        Err(ReplayFault::Disk) => Status::DiskFault,
        Err(ReplayFault::Memory) => Status::Memory,
    }
}

/// Attaches the journal, and follows the events that stand in it.
pub(crate) fn follow<D: Deck>(
    core: &mut Core,
    disk: &mut D,
    journal: &str,
    digest: &[u8; 32],
) -> Result<u64, ReplayFault>
    requires no_service { core.old.state ≡ [] }
    ensures setup { core.new.setup ≡ core.old.setup }
    ensures told { IfSome (D.now disk.old) (λ bytes. (place : ℕ) × IsReplayed core.old.setup bytes digest.now core.new.state place result) }
    ensures reads { OnlyReads D.now D.images D.clock D.images_since disk.old disk.new }
    ensures counts { D.faults disk.new ≡ counted_if (replay_failed result) (D.faults disk.old) }
    ensures asked { D.asked disk.new ≡ Some (record { name = journal.now; create = false }) }
{
    match disk.attach(journal, false) {
        Ok(()) => replay(core, disk, digest),
        Err(DiskFailed) => Err(ReplayFault::Disk),
    }
}

// Tells how many events there are, and the list that they lead to.
fn tell<K: Sink>(alloc: Global, core: &Core, count: u64, out: &mut K) -> Status
    ensures told { TellsCount core.now.setup core.now.state count (output (K.given out.old) (K.standing out.old)) (output (K.given out.new) (K.standing out.new)) result }
    ensures legal { Legal core.now.setup core.now.state }
    ensures room { (K.standing out.new).room ≡ (K.standing out.old).room }
{
    match text_of(alloc, core, count) {
        Ok(text) => give(out, text.as_slice()),
        Err(AllocError) => Status::Memory,
    }
}

// The number of events, and the list.
fn text_of(alloc: Global, core: &Core, count: u64) -> Result<Vec<u8>, AllocError>
    ensures text { IfOk result (λ text. text.items ≡ count_line count ++ reply_text core.now.setup core.now.state Replied.List) }
    ensures legal { Legal core.now.setup core.now.state }
{
    let services = core.services();
    let mut text = Vec::new(alloc);
    text.extend_from_slice(b"replay ")?;
    text.extend_from_slice(digits(count).bytes())?;
    text.extend_from_slice(b"\n")?;
    print_reply(&Reply::List, core.setup(), services, &mut text)?;
    Ok(text)
}
