//! The modes that answer the lines of a stream over the state that a journal leads to: `live`. The disk is only read.
ghost use Rattle.std.specs.Prelude.{◌≡◌, ◌≢◌, ◌++◌, ◌∷◌, [], None, Err, IsTrue};
ghost use Rattle.eon_model.specs.Disk.{LeavesOnly};
ghost use Rattle.eon_model.specs.Legal.{Legal};
ghost use Rattle.eon_model.specs.NetworkText.{is_setup};
ghost use Rattle.eon_outside.specs.Reading.{IsThere};
ghost use Rattle.plan_serve.specs.AskEnds.{FollowsTo, ReachesState, OpensState, IsRefused, AsksStream, AskEnds, NoneInDoubt, RefusesNetwork, live_on};
ghost use Rattle.plan_serve.specs.Outside.{outside, disk_seen};

use crate::journal::follow;
use crate::migrate::not_replayed;
use crate::network::{BoundNetwork, read_bound_network};
use crate::status::{Status, refuse};
use crate::stream::answer_commands;
use eon_disk::Deck;
use eon_outside::{Shelf, Sink};
use live_failure::Live;
use plan_core::Core;
use std::alloc::{AllocError, Global};

// ---- the state that a journal leads to

// Attaches the journal of this name, and follows every event that stands in it over a machine without a service.
fn follow_over<D: Deck>(
    core: &mut Core,
    digest: &[u8; 32],
    journal: &str,
    disk: &mut D,
) -> Result<(), Status>
    requires no_service { core.old.state ≡ [] }
    ensures reached { FollowsTo core.old.setup digest.now journal.now
        (disk_seen (D.now disk.old) (D.images disk.old) (D.asked disk.old) (D.faults disk.old))
        (disk_seen (D.now disk.new) (D.images disk.new) (D.asked disk.new) (D.faults disk.new)) core.new result }
    ensures now { D.now disk.new ≡ D.now disk.old }
    ensures moments { LeavesOnly D.clock D.images_since disk.old disk.new (D.images disk.old) }
{
    match follow(core, disk, journal, digest) {
        Ok(_) => Ok(()),
        Err(fault) => Err(not_replayed(fault)),
    }
}

// A machine over this network that stands where the journal of this name leads.
fn reach<D: Deck>(
    alloc: Global,
    network: BoundNetwork,
    journal: &str,
    disk: &mut D,
) -> Result<Core, Status>
    requires { IsTrue (is_setup network.setup) }
    ensures reached { ReachesState network.setup network.digest journal.now
        (disk_seen (D.now disk.old) (D.images disk.old) (D.asked disk.old) (D.faults disk.old))
        (disk_seen (D.now disk.new) (D.images disk.new) (D.asked disk.new) (D.faults disk.new)) result }
    ensures now { D.now disk.new ≡ D.now disk.old }
    ensures moments { LeavesOnly D.clock D.images_since disk.old disk.new (D.images disk.old) }
{
    let BoundNetwork { setup, digest } = network;
    let Ok(mut core) = Core::open(alloc, setup) else {
        return Err(Status::Memory);
    };
    match follow_over(&mut core, &digest, journal, disk) {
        Ok(()) => Ok(core),
        Err(status) => Err(status),
    }
}

// Reads the network, and follows its journal.
fn open_state<H: Shelf, D: Deck>(
    alloc: Global,
    net: &str,
    journal: &str,
    shelf: &mut H,
    disk: &mut D,
) -> Result<Core, Status>
    ensures opened { OpensState net.now journal.now (H.files shelf.old) (H.faults shelf.old) (H.faults shelf.new)
        (disk_seen (D.now disk.old) (D.images disk.old) (D.asked disk.old) (D.faults disk.old))
        (disk_seen (D.now disk.new) (D.images disk.new) (D.asked disk.new) (D.faults disk.new)) result }
    ensures files { H.files shelf.new ≡ H.files shelf.old }
    ensures names { H.opened shelf.new ≡ H.opened shelf.old ++ net.now ∷ [] }
    ensures calm { IsTrue (H.calm shelf.old) → IsThere (H.files shelf.old) net.now → IsTrue (H.calm shelf.new) × (result ≢ Err Status.ReadFault) }
    ensures untouched { IsRefused result → disk.new ≡ disk.old }
    ensures now { D.now disk.new ≡ D.now disk.old }
    ensures moments { LeavesOnly D.clock D.images_since disk.old disk.new (D.images disk.old) }
{
    match read_bound_network(alloc, net, shelf) {
        Ok(network) => reach(alloc, network, journal, disk),
        Err(status) => Err(status),
    }
}

// ---- `live`

/// Answers the lines of the live mode over the state that the journal leads to.
pub(crate) fn live<H: Shelf, K: Sink, D: Deck>(
    alloc: Global,
    net: &str,
    journal: &str,
    commands: &str,
    shelf: &mut H,
    out: &mut K,
    disk: &mut D,
) -> Status
    ensures ends { AskEnds live_on None net.now journal.now commands.now
        (outside (H.files shelf.old) (H.opened shelf.old) (H.left shelf.old) (H.faults shelf.old) (K.given out.old) (K.standing out.old))
        (outside (H.files shelf.new) (H.opened shelf.new) (H.left shelf.new) (H.faults shelf.new) (K.given out.new) (K.standing out.new))
        (disk_seen (D.now disk.old) (D.images disk.old) (D.asked disk.old) (D.faults disk.old))
        (disk_seen (D.now disk.new) (D.images disk.new) (D.asked disk.new) (D.faults disk.new)) result }
    ensures files { H.files shelf.new ≡ H.files shelf.old }
    ensures calm { IsTrue (H.calm shelf.old) → IsThere (H.files shelf.old) net.now → IsThere (H.files shelf.old) commands.now → result ≢ Status.ReadFault }
    ensures room { (K.standing out.new).room ≡ (K.standing out.old).room }
    ensures untouched { RefusesNetwork result → disk.new ≡ disk.old }
    ensures moments { LeavesOnly D.clock D.images_since disk.old disk.new (D.images disk.old) }
{
    match open_state(alloc, net, journal, shelf, disk) {
        Ok(core) => live_over(alloc, &core, commands, shelf, out),
        Err(status) => refuse(out, status),
    }
}

// Answers them over the services of this machine.
fn live_over<H: Shelf, K: Sink>(
    alloc: Global,
    core: &Core,
    commands: &str,
    shelf: &mut H,
    out: &mut K,
) -> Status
    ensures ends { AsksStream (live_on core.now.setup core.now.state) NoneInDoubt None commands.now
        (outside (H.files shelf.old) (H.opened shelf.old) (H.left shelf.old) (H.faults shelf.old) (K.given out.old) (K.standing out.old))
        (outside (H.files shelf.new) (H.opened shelf.new) (H.left shelf.new) (H.faults shelf.new) (K.given out.new) (K.standing out.new)) result }
    ensures files { H.files shelf.new ≡ H.files shelf.old }
    ensures calm { IsTrue (H.calm shelf.old) → IsThere (H.files shelf.old) commands.now → result ≢ Status.ReadFault }
    ensures room { (K.standing out.new).room ≡ (K.standing out.old).room }
    ensures legal { Legal core.now.setup core.now.state }
{
    let mut live = Live::over(alloc, core.setup(), core.services());
    answer_commands(alloc, &mut live, commands, shelf, out)
}
