//! The top call.
ghost use Rattle.std.specs.Prelude.{◌≡◌, ◌≢◌, ◌⊎◌, ◌<◌, ◌≤◌, [], None, IfOk, IsTrue, length, string_bytes, map};
ghost use Rattle.eon_model.specs.Disk.{LeavesOnly};
ghost use Rattle.eon_model.specs.Legal.{Legal};
ghost use Rattle.eon_model.specs.NetworkText.{is_setup};
ghost use Rattle.eon_model.specs.Modes.{task_of};
ghost use Rattle.eon_model.specs.Run.{situation};
ghost use Rattle.eon_outside.specs.Faults.{counted};
ghost use Rattle.eon_outside.specs.Reading.{IsThere};
ghost use Rattle.plan_serve.specs.Files.{IsLeft};
ghost use Rattle.plan_serve.specs.Lines.{most_read};
ghost use Rattle.plan_serve.specs.Outside.{outside, disk_seen};
ghost use Rattle.plan_serve.specs.Ends.{DryEnds, StreamEnds, AnswersStream, CountsReads, StandsAt};
ghost use Rattle.plan_serve.specs.Top.{Ends, AskedAt, NeedsNoDisk, MayBeLeft, NoDiskFault, IsToldFor, MayEnd, IsRoomy};

use crate::ask::live;
use crate::drive::drive;
use crate::journal::{make_journal, tell_journal};
use crate::migrate::migrate;
use crate::network::read_network;
use crate::session::Session;
use crate::status::{Status, refuse};
use crate::stream::{HELD_BACK, PIECE};
use eon_disk::Deck;
use eon_outside::{Buffered, Failed, Shelf, Sink, Start};
use net_setup::NetSetup;
use plan_core::Core;
use plan_words::words::{Words, WordsFault, words_of};
use std::alloc::{AllocError, Global};
use std::marker::Brand;

/// Does what the words ask for. `dry NET COMMANDS` answers each line of a command stream over a network, up to `quit`.
/// `init NET JOURNAL` makes a journal for the network, and `replay NET JOURNAL` tells how many events stand in it, and the
/// list that they lead to. `migrate NET NEXT JOURNAL` binds the journal of a network to a wider one, and `drive NET SEED COUNT`
/// answers commands that are made from a seed, and sums up the replies. `live NET JOURNAL COMMANDS` answers the lines of a command
/// stream over the list that a journal leads to, while groups fail. The files are opened by the shelf, the journal is attached to the disk, and what is said is
/// given to `out`.
pub fn plan_main<H: Shelf, K: Sink, D: Deck>(
    alloc: Global,
    words: &[String],
    shelf: &mut H,
    out: &mut K,
    disk: &mut D,
) -> Status
    // What the words ask for.
    ensures words { AskedAt (task_of (map string_bytes words.now)) result }
    // What was opened, read, given and kept at each status, and how many calls failed.
    ensures ends { Ends (task_of (map string_bytes words.now))
        (outside (H.files shelf.old) (H.opened shelf.old) (H.left shelf.old) (H.faults shelf.old) (K.given out.old) (K.standing out.old))
        (outside (H.files shelf.new) (H.opened shelf.new) (H.left shelf.new) (H.faults shelf.new) (K.given out.new) (K.standing out.new))
        (disk_seen (D.now disk.old) (D.images disk.old) (D.asked disk.old) (D.faults disk.old))
        (disk_seen (D.now disk.new) (D.images disk.new) (D.asked disk.new) (D.faults disk.new)) result }
    ensures files { H.files shelf.new ≡ H.files shelf.old }
    // Where no call of the disk is made, it is as before.
    ensures untouched { NeedsNoDisk (task_of (map string_bytes words.now)) result → disk.new ≡ disk.old }
    // What a crash may leave at any moment of the call.
    ensures moments { IsToldFor (task_of (map string_bytes words.now)) (D.now disk.old) → LeavesOnly D.clock D.images_since disk.old disk.new (MayBeLeft (task_of (map string_bytes words.now)) result (H.files shelf.old) (D.now disk.old) (D.images disk.old)) }
    // Where nothing is in the way, all is done, unless there is no memory.
    ensures completeness { MayEnd (task_of (map string_bytes words.now)) (H.files shelf.old) (D.now disk.old) → H.faults shelf.new ≢ counted (H.faults shelf.old) → (K.standing out.new).faults ≢ counted (K.standing out.old).faults → NoDiskFault (task_of (map string_bytes words.now)) (D.faults disk.old) (D.faults disk.new) → (result ≡ Status.Done) ⊎ (result ≡ Status.Memory) }
    // So it is for a shelf and a sink of which no call fails, where none of the disk fails.
    ensures calm { MayEnd (task_of (map string_bytes words.now)) (H.files shelf.old) (D.now disk.old) → IsTrue (H.calm shelf.old) → IsRoomy (task_of (map string_bytes words.now)) (H.files shelf.old) (D.now disk.old) (K.given out.old) (K.standing out.old) → NoDiskFault (task_of (map string_bytes words.now)) (D.faults disk.old) (D.faults disk.new) → (result ≡ Status.Done) ⊎ (result ≡ Status.Memory) }
{
    match words_of(alloc, words) {
        Ok(Words::Dry { net, commands }) => dry(alloc, net, commands, shelf, out),
        Ok(Words::Init { net, journal }) => make_journal(alloc, net, journal, shelf, out, disk),
        Ok(Words::Replay { net, journal }) => tell_journal(alloc, net, journal, shelf, out, disk),
        Ok(Words::Migrate { net, next, journal }) => {
            migrate(alloc, net, next, journal, shelf, out, disk)
        }
        Ok(Words::Drive { net, seed, count }) => drive(alloc, net, seed, count, shelf, out),
        Ok(
            Words::Live {
                net,
                journal,
                commands,
            },
        ) => live(alloc, net, journal, commands, shelf, out, disk),
        Ok(_) => refuse(out, Status::Later),
        Err(WordsFault::Refused) => refuse(out, Status::Words),
        Err(WordsFault::Memory) => Status::Memory,
    }
}

/// Answers each line of a command stream over a network.
fn dry<H: Shelf, K: Sink>(
    alloc: Global,
    net: &str,
    commands: &str,
    shelf: &mut H,
    out: &mut K,
) -> Status
    ensures ends { DryEnds net.now commands.now
        (outside (H.files shelf.old) (H.opened shelf.old) (H.left shelf.old) (H.faults shelf.old) (K.given out.old) (K.standing out.old))
        (outside (H.files shelf.new) (H.opened shelf.new) (H.left shelf.new) (H.faults shelf.new) (K.given out.new) (K.standing out.new)) result }
    ensures files { H.files shelf.new ≡ H.files shelf.old }
    ensures calm { IsTrue (H.calm shelf.old) → IsThere (H.files shelf.old) net.now → IsThere (H.files shelf.old) commands.now → result ≢ Status.ReadFault }
    ensures room { (K.standing out.new).room ≡ (K.standing out.old).room }
{
    match read_network(alloc, net, shelf) {
        Ok(setup) => answer_over(alloc, setup, commands, shelf, out),
        Err(status) => refuse(out, status),
    }
}

/// Answers each line of a command stream over this network.
fn answer_over<H: Shelf, K: Sink>(
    alloc: Global,
    setup: NetSetup,
    commands: &str,
    shelf: &mut H,
    out: &mut K,
) -> Status
    requires { IsTrue (is_setup setup) }
    ensures ends { StreamEnds setup commands.now
        (outside (H.files shelf.old) (H.opened shelf.old) (H.left shelf.old) (H.faults shelf.old) (K.given out.old) (K.standing out.old))
        (outside (H.files shelf.new) (H.opened shelf.new) (H.left shelf.new) (H.faults shelf.new) (K.given out.new) (K.standing out.new)) result }
    ensures files { H.files shelf.new ≡ H.files shelf.old }
    ensures calm { IsTrue (H.calm shelf.old) → IsThere (H.files shelf.old) commands.now → result ≢ Status.ReadFault }
    ensures room { (K.standing out.new).room ≡ (K.standing out.old).room }
{
    match open_session(alloc, setup) {
        Ok(mut session) => answer_file(alloc, &mut session, commands, shelf, out),
        Err(AllocError) => Status::Memory,
    }
}

/// A session over this network, with no service yet.
fn open_session(alloc: Global, setup: NetSetup) -> Result<Session, AllocError>
    requires { IsTrue (is_setup setup) }
    ensures setup { IfOk result (λ s. s.core.setup ≡ setup) }
    ensures state { IfOk result (λ s. s.core.state ≡ []) }
    ensures begun { IfOk result (λ s. s.begun.items ≡ []) }
{
    let core = Core::open(alloc, setup)?;
    Session::open(alloc, core)
}

/// Answers each line of the file of this name.
fn answer_file<H: Shelf, K: Sink>(
    alloc: Global,
    session: &mut Session,
    commands: &str,
    shelf: &mut H,
    out: &mut K,
) -> Status
    requires none_begun { session.old.begun.items ≡ [] }
    requires at_start { session.old.core.state ≡ [] }
    requires in_range { IsTrue (is_setup session.old.core.setup) }
    ensures ends { StreamEnds session.old.core.setup commands.now
        (outside (H.files shelf.old) (H.opened shelf.old) (H.left shelf.old) (H.faults shelf.old) (K.given out.old) (K.standing out.old))
        (outside (H.files shelf.new) (H.opened shelf.new) (H.left shelf.new) (H.faults shelf.new) (K.given out.new) (K.standing out.new)) result }
    ensures files { H.files shelf.new ≡ H.files shelf.old }
    ensures calm { IsTrue (H.calm shelf.old) → IsThere (H.files shelf.old) commands.now → result ≢ Status.ReadFault }
    ensures room { (K.standing out.new).room ≡ (K.standing out.old).room }
{
    let Ok(mut buffer) = vec![in alloc; 0u8; PIECE] else {
        return Status::Memory;
    };
    let Ok(mut held) = Vec::with_capacity(alloc, HELD_BACK) else {
        return Status::Memory;
    };
    match shelf.open(commands) {
        Ok(()) => answer_open::<H, K, Brand>(session, shelf, buffer.as_mut_slice(), &mut held, out),
        Err(Failed) => Status::ReadFault,
    }
}

/// Answers each line of the open file. Replies are held back while there is room for them.
fn answer_open<H: Shelf, K: Sink, S: Start>(
    session: &mut Session,
    shelf: &mut H,
    buffer: &mut [u8],
    held: &mut Vec<u8>,
    out: &mut K,
) -> Status
    requires some_room { 0 < length buffer.old }
    requires few { length buffer.old ≤ most_read }
    requires none_begun { session.old.begun.items ≡ [] }
    requires none_held { held.old.items ≡ [] }
    requires from { S.bytes ≡ K.given out.old }
    requires in_range { IsTrue (is_setup session.old.core.setup) }
    requires legal { Legal session.old.core.setup session.old.core.state }
    ensures answered { AnswersStream (IsLeft (H.left shelf.old)) session.old.core.setup (situation session.old.core.state None) (H.left shelf.new) (K.given out.old) (K.given out.new) result }
    ensures files { H.files shelf.new ≡ H.files shelf.old }
    ensures opened { H.opened shelf.new ≡ H.opened shelf.old }
    ensures reads { CountsReads result (H.faults shelf.old) (H.faults shelf.new) }
    ensures stands { StandsAt result (K.standing out.old) (K.standing out.new) }
    ensures calm { IsTrue (H.calm shelf.old) → result ≢ Status.ReadFault }
{
    let mut replies: Buffered<'_, K, S> = Buffered::new(out, held);
    session.answer_stream(shelf, buffer, &mut replies)
}
