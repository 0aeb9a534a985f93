//! The mode `drive`: commands that are made from a seed are answered as those of a stream are, and the replies are summed
//! up.
ghost use Rattle.std.specs.Prelude.{◌≡◌, ◌≢◌, [], ℕ, IsTrue};
ghost use Rattle.eon_model.specs.Legal.{Legal};
ghost use Rattle.eon_model.specs.NetworkText.{is_setup};
ghost use Rattle.eon_outside.specs.Reading.{IsThere};
ghost use Rattle.plan_serve.specs.Outside.{outside, output};
ghost use Rattle.plan_serve.specs.Driving.{IsDriven, DriveOver, DriveEnds};

use crate::answering::reply_to;
use crate::journal::give;
use crate::network::read_network;
use crate::status::{Status, refuse};
use eon_outside::{Shelf, Sink};
use load_gen::{LineBuf, before_next, drive_line, next_word};
use load_summary::{Tally, summary};
use net_setup::NetSetup;
use plan_core::Core;
use plan_report::totals::stats;
use std::alloc::{AllocError, Global};

/// Answers so many commands, made from this seed. Nothing is written.
fn answer_load(core: &mut Core, seed: u64, count: u32) -> Tally
    requires at_start { core.old.state ≡ [] }
    ensures setup { core.new.setup ≡ core.old.setup }
    ensures driven { IsDriven core.old.setup seed count core.new.state result }
{
    let mut tally = Tally::none();
    let mut line = LineBuf::new();
    let mut before = 0;
    let mut word = next_word(seed);
    for i in 0..count {
        drive_line(core.setup(), before, word, i + 1, &mut line);
        let reply = reply_to(core, line.bytes());
        tally = tally.with_reply(&reply);
        before = before_next(before, word);
        word = next_word(word);
    }
    tally
}

// Tells what the replies come to, and the totals of the list.
fn tell_summary<K: Sink>(alloc: Global, core: &Core, tally: &Tally, out: &mut K) -> Status
    requires { IsTrue (is_setup core.now.setup) }
    ensures told { (seed count : ℕ) → IsDriven core.now.setup seed count core.now.state tally.now → DriveOver core.now.setup seed count (output (K.given out.old) (K.standing out.old)) (output (K.given out.new) (K.standing out.new)) result }
    ensures room { (K.standing out.new).room ≡ (K.standing out.old).room }
{
    match summary(alloc, tally, &stats(core.setup(), core.services())) {
        Ok(text) => give(out, text.as_slice()),
        Err(AllocError) => Status::Memory,
    }
}

// Drives a load over this network.
fn drive_over<K: Sink>(alloc: Global, setup: NetSetup, seed: u64, count: u32, out: &mut K) -> Status
    requires { IsTrue (is_setup setup) }
    ensures told { DriveOver setup seed count (output (K.given out.old) (K.standing out.old)) (output (K.given out.new) (K.standing out.new)) result }
    ensures room { (K.standing out.new).room ≡ (K.standing out.old).room }
{
    match Core::open(alloc, setup) {
        Ok(mut core) => {
            let tally = answer_load(&mut core, seed, count);
            tell_summary(alloc, &core, &tally, out)
        }
        Err(AllocError) => Status::Memory,
    }
}

/// Answers so many commands over a network, made from this seed, and tells what the replies come to.
pub(crate) fn drive<H: Shelf, K: Sink>(
    alloc: Global,
    net: &str,
    seed: u64,
    count: u32,
    shelf: &mut H,
    out: &mut K,
) -> Status
    ensures ends { DriveEnds net.now seed count
        (outside (H.files shelf.old) (H.opened shelf.old) (H.left shelf.old) (H.faults shelf.old) (K.given out.old) (K.standing out.old))
        (outside (H.files shelf.new) (H.opened shelf.new) (H.left shelf.new) (H.faults shelf.new) (K.given out.new) (K.standing out.new)) result }
    ensures files { H.files shelf.new ≡ H.files shelf.old }
    ensures calm { IsTrue (H.calm shelf.old) → IsThere (H.files shelf.old) net.now → result ≢ Status.ReadFault }
    ensures room { (K.standing out.new).room ≡ (K.standing out.old).room }
{
    match read_network(alloc, net, shelf) {
        Ok(setup) => drive_over(alloc, setup, seed, count, out),
        Err(status) => refuse(out, status),
    }
}
