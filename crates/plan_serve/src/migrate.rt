//! The mode `migrate`: the journal of a network is bound to a wider one.
ghost use Rattle.std.specs.Prelude.{◌≡◌, ◌≢◌, ◌⊎◌, ◌≤◌, ◌++◌, ◌∷◌, [], ℕ, List, take, Some, None, Err, true, false, IsTrue, IfSome, IfOk, IfErr, OnOk, option_map};
ghost use Rattle.eon_model.specs.Disk.{LeavesOnly};
ghost use Rattle.eon_model.specs.Events as changes;
ghost use Rattle.eon_model.specs.EventText.{is_digest, room_for};
ghost use Rattle.eon_model.specs.Journal.{record_body, left_at};
ghost use Rattle.eon_model.specs.JournalMoments.{IsAppending};
ghost use Rattle.eon_model.specs.JournalFault.{IsKept};
ghost use Rattle.eon_model.specs.Legal.{Setup};
ghost use Rattle.eon_model.specs.NetworkText.{is_setup};
ghost use Rattle.eon_model.specs.Wider.{Widens};
ghost use Rattle.eon_outside.specs.Reading.{IsThere};
ghost use Rattle.plan_journal.specs.Faults.{counted_if};
ghost use Rattle.plan_journal.specs.Moments.{IsDurable, IsReady, OnlyReads};
ghost use Rattle.plan_journal.specs.Appended.{with_record};
ghost use Rattle.plan_serve.specs.Binding.{head_status, replay_status, IsAttached, TellsRoom, OnFull, MakesReady, OpensReady, IsBeingClosed, Binds, IsLeftBinding, MayStop, disk_failed};
ghost use Rattle.plan_serve.specs.MigrateEnds.{BindEnds, IsLeftSafely, next_status, ReadsWider, NextEnds, StopsEarly, MayBeBoundFrom, MigrateEnds, MayBeBound};
ghost use Rattle.plan_serve.specs.Outside.{outside, output, disk_seen};

use crate::journal::give;
use crate::network::{BoundNetwork, read_bound_network};
use crate::status::{Status, refuse};
use eon_disk::{Deck, Disk, DiskFailed};
use eon_outside::{Shelf, Sink};
use journal_record::Event;
use journal_replay::{JournalWhy, ReplayFault, follow_all};
use net_setup::NetSetup;
use net_widening::narrower_in;
use plan_core::Core;
use plan_journal::{AppendFault, Head, Journal, OpenFault, Opening, Place, examine};
use std::alloc::{AllocError, Global};

/// What is written of a journal that was bound.
const BOUND: &str = "ok migrate\n";

// ---- the disk

// The status of a journal whose head was not accepted.
fn head_refused(fault: OpenFault) -> Status
    ensures { result ≡ head_status fault }
{
    match fault {
        OpenFault::BadHead { at } => Status::JournalRefused {
            at,
            why: JournalWhy::Head,
        },
        OpenFault::Other { kept, own } => Status::JournalOther { kept, own },
        OpenFault::Disk => Status::DiskFault,
    }
}

/// The status of a journal that does not replay.
pub(crate) fn not_replayed(fault: ReplayFault) -> Status
    ensures { result ≡ replay_status fault }
{
    match fault {
        ReplayFault::Refused { at, why } => Status::JournalRefused { at, why },
        ReplayFault::Other { kept, own } => Status::JournalOther { kept, own },
        ReplayFault::Disk => Status::DiskFault,
        ReplayFault::Memory => Status::Memory,
    }
}

// Attaches the journal of this name, and examines its head.
fn attach<D: Deck>(disk: &mut D, journal: &str, limit: u32, own: &[u8; 32]) -> Result<Head, Status>
    requires { 4096 ≤ limit }
    ensures told { IfSome (D.now disk.old) (λ bytes. IsAttached bytes limit own.now result) }
    ensures limit { IfOk result (λ head. head.limit ≡ limit) }
    ensures reads { OnlyReads D.now D.images D.clock D.images_since disk.old disk.new }
    ensures durable { OnOk result (IsDurable (D.now disk.new) (D.images disk.new)) }
    ensures counts { D.faults disk.new ≡ counted_if (disk_failed result) (D.faults disk.old) }
    ensures asked { D.asked disk.new ≡ Some (record { name = journal.now; create = false }) }
    ensures fault { IfErr result MayStop }
{
    match disk.attach(journal, false) {
        Ok(()) => {}
        Err(DiskFailed) => return Err(Status::DiskFault),
    }
    match examine(disk, limit, own) {
        Ok(head) => Ok(head),
        Err(fault) => Err(head_refused(fault)),
    }
}

// Follows every event of a journal whose head was examined, and makes it ready for more.
fn make_ready<D: Disk>(opening: &mut Opening<'_, D>, core: &mut Core) -> Result<(), Status>
    requires limit { opening.old.place.limit ≡ core.old.setup.journal }
    requires at { opening.old.place.at ≡ 40 }
    requires number { opening.old.place.number ≡ 1 }
    requires no_service { core.old.state ≡ [] }
    requires durable { IsDurable (D.now opening.old.disk.now) (D.images opening.old.disk.now) }
    ensures same_reference { opening.new.disk.ghost_name ≡ opening.old.disk.ghost_name }
    ensures setup { core.new.setup ≡ core.old.setup }
    ensures told { IfSome (D.now opening.old.disk.now) (λ bytes. (own : List ℕ) → IsKept bytes core.old.setup.journal own → MakesReady core.old.setup bytes own opening.new.place.at opening.new.place.number (D.now opening.new.disk.now) result) }
    ensures limit { opening.new.place.limit ≡ opening.old.place.limit }
    ensures ready { OnOk result (opening.new.ready ≡ true) }
    ensures is_ready { OnOk result (IsReady (D.now opening.new.disk.now) (D.images opening.new.disk.now) opening.new.place.at) }
    ensures moments { IfSome (D.now opening.old.disk.now) (λ bytes. (own : List ℕ) → IsKept bytes core.old.setup.journal own → LeavesOnly D.clock D.images_since opening.old.disk.now opening.new.disk.now (λ c. D.images opening.old.disk.now c ⊎ IsBeingClosed core.old.setup bytes own c)) }
    ensures counts { D.faults opening.new.disk.now ≡ counted_if (disk_failed result) (D.faults opening.old.disk.now) }
    ensures asked { D.asked opening.new.disk.now ≡ D.asked opening.old.disk.now }
    ensures fault { IfErr result MayStop }
{
    match follow_all(opening, core) {
        Ok(_) => {}
        Err(fault) => return Err(not_replayed(fault)),
    }
    match opening.prepare() {
        Ok(()) => Ok(()),
        Err(DiskFailed) => Err(Status::DiskFault),
    }
}

// Appends the binding to the network of this digest.
fn append_binding<D: Disk>(journal: &mut Journal<'_, D>, digest: &[u8; 32]) -> Result<(), Status>
    requires not_spent { journal.old.spent ≡ false }
    requires ready { IsReady (D.now journal.old.disk.now) (D.images journal.old.disk.now) journal.old.place.at }
    ensures same_reference { journal.new.disk.ghost_name ≡ journal.old.disk.ghost_name }
    ensures full { TellsRoom (room_for (changes.Event.Bind digest.now)) (left_at journal.old.place.limit journal.old.place.at) result }
    ensures untouched { OnFull result (journal.new.disk.now ≡ journal.old.disk.now) }
    ensures bytes { OnOk result (D.now journal.new.disk.now ≡ option_map (with_record journal.old.place.at (record_body journal.old.place.number (changes.Event.Bind digest.now) ++ 0 ∷ [])) (D.now journal.old.disk.now)) }
    ensures durable { OnOk result (IsDurable (D.now journal.new.disk.now) (D.images journal.new.disk.now)) }
    ensures moments { IfSome (D.now journal.old.disk.now) (λ bytes. LeavesOnly D.clock D.images_since journal.old.disk.now journal.new.disk.now (IsAppending (take journal.old.place.at bytes) (record_body journal.old.place.number (changes.Event.Bind digest.now)))) }
    ensures counts { D.faults journal.new.disk.now ≡ counted_if (disk_failed result) (D.faults journal.old.disk.now) }
    ensures asked { D.asked journal.new.disk.now ≡ D.asked journal.old.disk.now }
    ensures fault { IfErr result MayStop }
{
    match journal.append(&Event::Bind { digest: *digest }) {
        Ok(()) => Ok(()),
        Err(AppendFault::Full { need, left }) => Err(Status::JournalFull { need, left }),
        Err(AppendFault::Disk) => Err(Status::DiskFault),
    }
}

// Appends it to a journal that is ready at this place.
fn append_at<D: Disk>(disk: &mut D, place: Place, digest: &[u8; 32]) -> Result<(), Status>
    requires ready { IsReady (D.now disk.old) (D.images disk.old) place.at }
    ensures digest { IsTrue (is_digest digest.now) }
    ensures full { TellsRoom (room_for (changes.Event.Bind digest.now)) (left_at place.limit place.at) result }
    ensures untouched { OnFull result (disk.new ≡ disk.old) }
    ensures bytes { OnOk result (D.now disk.new ≡ option_map (with_record place.at (record_body place.number (changes.Event.Bind digest.now) ++ 0 ∷ [])) (D.now disk.old)) }
    ensures durable { OnOk result (IsDurable (D.now disk.new) (D.images disk.new)) }
    ensures moments { IfSome (D.now disk.old) (λ bytes. LeavesOnly D.clock D.images_since disk.old disk.new (IsAppending (take place.at bytes) (record_body place.number (changes.Event.Bind digest.now)))) }
    ensures counts { D.faults disk.new ≡ counted_if (disk_failed result) (D.faults disk.old) }
    ensures asked { D.asked disk.new ≡ D.asked disk.old }
    ensures fault { IfErr result MayStop }
{
    let mut journal = Journal {
        disk,
        place,
        spent: false,
    };
    append_binding(&mut journal, digest)
}

// The most bytes that the journal may have.
fn limit_of(core: &Core) -> u32
    ensures is { result ≡ core.now.setup.journal }
    ensures least { 4096 ≤ result }
{
    core.setup().journal
}

// Attaches the journal of this name, follows every event over a machine without a service, and makes the journal ready for
// more: it is at this place then.
fn open_ready<D: Deck>(
    core: &mut Core,
    own: &[u8; 32],
    journal: &str,
    disk: &mut D,
) -> Result<Place, Status>
    requires no_service { core.old.state ≡ [] }
    ensures setup { core.new.setup ≡ core.old.setup }
    ensures told { IfSome (D.now disk.old) (λ bytes. OpensReady core.old.setup bytes own.now (D.now disk.new) result) }
    ensures limit { IfOk result (λ place. place.limit ≡ core.old.setup.journal) }
    ensures is_ready { IfOk result (λ place. IsReady (D.now disk.new) (D.images disk.new) place.at) }
    ensures moments { IfSome (D.now disk.old) (λ bytes. LeavesOnly D.clock D.images_since disk.old disk.new (λ c. D.images disk.old c ⊎ IsBeingClosed core.old.setup bytes own.now c)) }
    ensures counts { D.faults disk.new ≡ counted_if (disk_failed result) (D.faults disk.old) }
    ensures asked { D.asked disk.new ≡ Some (record { name = journal.now; create = false }) }
    ensures fault { IfErr result MayStop }
{
    let head = match attach(disk, journal, limit_of(core), own) {
        Ok(head) => head,
        Err(status) => return Err(status),
    };
    let mut opening = Opening::over(disk, head);
    match make_ready(&mut opening, core) {
        Ok(()) => Ok(opening.place),
        Err(status) => Err(status),
    }
}

// Binds the journal of this name to the network of the next digest. It is bound to that of `core`, whose digest is `own`.
fn bind<D: Deck>(
    core: &mut Core,
    own: &[u8; 32],
    next: &[u8; 32],
    journal: &str,
    disk: &mut D,
) -> Result<(), Status>
    requires no_service { core.old.state ≡ [] }
    ensures told { IfSome (D.now disk.old) (λ bytes. Binds core.old.setup bytes own.now next.now (D.now disk.new) (D.images disk.new) result) }
    ensures moments { IfSome (D.now disk.old) (λ bytes. LeavesOnly D.clock D.images_since disk.old disk.new (IsLeftBinding core.old.setup bytes own.now next.now (D.images disk.old))) }
    ensures counts { D.faults disk.new ≡ counted_if (disk_failed result) (D.faults disk.old) }
    ensures asked { D.asked disk.new ≡ Some (record { name = journal.now; create = false }) }
    ensures fault { IfErr result MayStop }
{
    let place = match open_ready(core, own, journal, disk) {
        Ok(place) => place,
        Err(status) => return Err(status),
    };
    append_at(disk, place, next)
}

// Binds it, and says so.
fn migrate_over<K: Sink, D: Deck>(
    core: &mut Core,
    own: &[u8; 32],
    next: &[u8; 32],
    journal: &str,
    out: &mut K,
    disk: &mut D,
) -> Status
    requires no_service { core.old.state ≡ [] }
    ensures ends { (wider : Setup) → Widens core.old.setup wider → BindEnds core.old.setup wider own.now next.now journal.now (output (K.given out.old) (K.standing out.old)) (output (K.given out.new) (K.standing out.new))
        (disk_seen (D.now disk.old) (D.images disk.old) (D.asked disk.old) (D.faults disk.old))
        (disk_seen (D.now disk.new) (D.images disk.new) (D.asked disk.new) (D.faults disk.new)) result }
    ensures room { (K.standing out.new).room ≡ (K.standing out.old).room }
    ensures moments { (wider : Setup) → Widens core.old.setup wider → IfSome (D.now disk.old) (λ bytes. LeavesOnly D.clock D.images_since disk.old disk.new (IsLeftSafely core.old.setup wider own.now next.now bytes (D.images disk.old))) }
{
    match bind(core, own, next, journal, disk) {
        Ok(()) => give(out, BOUND.as_bytes()),
        Err(status) => refuse(out, status),
    }
}

// Binds the journal of this network.
fn migrate_bound<K: Sink, D: Deck>(
    alloc: Global,
    network: BoundNetwork,
    next: &[u8; 32],
    journal: &str,
    out: &mut K,
    disk: &mut D,
) -> Status
    requires { IsTrue (is_setup network.setup) }
    ensures ends { (wider : Setup) → Widens network.setup wider → BindEnds network.setup wider network.digest next.now journal.now (output (K.given out.old) (K.standing out.old)) (output (K.given out.new) (K.standing out.new))
        (disk_seen (D.now disk.old) (D.images disk.old) (D.asked disk.old) (D.faults disk.old))
        (disk_seen (D.now disk.new) (D.images disk.new) (D.asked disk.new) (D.faults disk.new)) result }
    ensures room { (K.standing out.new).room ≡ (K.standing out.old).room }
    ensures moments { (wider : Setup) → Widens network.setup wider → IfSome (D.now disk.old) (λ bytes. LeavesOnly D.clock D.images_since disk.old disk.new (IsLeftSafely network.setup wider network.digest next.now bytes (D.images disk.old))) }
{
    let BoundNetwork { setup, digest } = network;
    match Core::open(alloc, setup) {
        Ok(mut core) => migrate_over(&mut core, &digest, next, journal, out, disk),
        Err(AllocError) => Status::Memory,
    }
}

// ---- the networks

// The status of the next network that is not read.
fn next_refused(status: Status) -> Status
    ensures { result ≡ next_status status }
{
    match status {
        Status::NetRefused { line, why } => Status::NextRefused { line, why },
        Status::NetLong => Status::NextLong,
        other => other,
    }
}

// Reads the next network, which is to widen this one, and answers the digest of its file.
fn read_wider<H: Shelf>(
    alloc: Global,
    setup: &NetSetup,
    next: &str,
    shelf: &mut H,
) -> Result<[u8; 32], Status>
    ensures network { ReadsWider (H.files shelf.old) setup.now next.now (H.faults shelf.old) (H.faults shelf.new) result }
    ensures files { H.files shelf.new ≡ H.files shelf.old }
    ensures opened { H.opened shelf.new ≡ H.opened shelf.old ++ next.now ∷ [] }
    ensures calm { IsTrue (H.calm shelf.old) → IsThere (H.files shelf.old) next.now → result ≢ Err Status.ReadFault }
{
    match read_bound_network(alloc, next, shelf) {
        Ok(wider) => match narrower_in(setup, &wider.setup) {
            None => Ok(wider.digest),
            Some(what) => Err(Status::NotWider { what }),
        },
        Err(status) => Err(next_refused(status)),
    }
}

// Binds the journal of this network to the next one.
fn migrate_from<H: Shelf, K: Sink, D: Deck>(
    alloc: Global,
    network: BoundNetwork,
    next: &str,
    journal: &str,
    shelf: &mut H,
    out: &mut K,
    disk: &mut D,
) -> Status
    requires { IsTrue (is_setup network.setup) }
    ensures ends { NextEnds network.setup network.digest next.now journal.now
        (outside (H.files shelf.old) (H.opened shelf.old) None (H.faults shelf.old) (K.given out.old) (K.standing out.old))
        (outside (H.files shelf.new) (H.opened shelf.new) None (H.faults shelf.new) (K.given out.new) (K.standing out.new))
        (disk_seen (D.now disk.old) (D.images disk.old) (D.asked disk.old) (D.faults disk.old))
        (disk_seen (D.now disk.new) (D.images disk.new) (D.asked disk.new) (D.faults disk.new)) result }
    ensures files { H.files shelf.new ≡ H.files shelf.old }
    ensures calm { IsTrue (H.calm shelf.old) → IsThere (H.files shelf.old) next.now → result ≢ Status.ReadFault }
    ensures room { (K.standing out.new).room ≡ (K.standing out.old).room }
    ensures untouched { StopsEarly result → disk.new ≡ disk.old }
    ensures moments { IfSome (D.now disk.old) (λ bytes. LeavesOnly D.clock D.images_since disk.old disk.new (MayBeBoundFrom network.setup network.digest (H.files shelf.old) next.now bytes (D.images disk.old))) }
{
    match read_wider(alloc, &network.setup, next, shelf) {
        Ok(digest) => migrate_bound(alloc, network, &digest, journal, out, disk),
        Err(status) => refuse(out, status),
    }
}

/// Binds the journal of a network to the next network, which widens it: every event is followed, and the binding is
/// appended behind them.
pub(crate) fn migrate<H: Shelf, K: Sink, D: Deck>(
    alloc: Global,
    net: &str,
    next: &str,
    journal: &str,
    shelf: &mut H,
    out: &mut K,
    disk: &mut D,
) -> Status
    ensures ends { MigrateEnds net.now next.now journal.now
        (outside (H.files shelf.old) (H.opened shelf.old) (H.left shelf.old) (H.faults shelf.old) (K.given out.old) (K.standing out.old))
        (outside (H.files shelf.new) (H.opened shelf.new) (H.left shelf.new) (H.faults shelf.new) (K.given out.new) (K.standing out.new))
        (disk_seen (D.now disk.old) (D.images disk.old) (D.asked disk.old) (D.faults disk.old))
        (disk_seen (D.now disk.new) (D.images disk.new) (D.asked disk.new) (D.faults disk.new)) result }
    ensures files { H.files shelf.new ≡ H.files shelf.old }
    ensures calm { IsTrue (H.calm shelf.old) → IsThere (H.files shelf.old) net.now → IsThere (H.files shelf.old) next.now → result ≢ Status.ReadFault }
    ensures room { (K.standing out.new).room ≡ (K.standing out.old).room }
    ensures untouched { StopsEarly result → disk.new ≡ disk.old }
    ensures moments { IfSome (D.now disk.old) (λ bytes. LeavesOnly D.clock D.images_since disk.old disk.new (MayBeBound (H.files shelf.old) net.now next.now bytes (D.images disk.old))) }
{
    match read_bound_network(alloc, net, shelf) {
        Ok(network) => migrate_from(alloc, network, next, journal, shelf, out, disk),
        Err(status) => refuse(out, status),
    }
}
