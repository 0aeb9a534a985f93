//! A disk held in memory, which fails at chosen calls and can crash.
ghost use Rattle.std.specs.Prelude.{◌≡◌, ◌+◌, ◌-◌, ◌/◌, ◌≤◌, ◌^◌, nat_le, nat_lt, ◌&&◌, ◌||◌, not, false, ℕ, Bool, List, [], length, min, drop, take, Option, None, Some, IfOk, IfSome, OnOk, OnErr, is_err, is_some, option_map, if◌then◌else◌};
ghost use Rattle.eon_model.specs.Disk.{put, Reads, Torn, Cut, Follows, Unchanged, Only, Elapses};
ghost use Rattle.eon_model.specs.DiskImages.{IsImage};
ghost use Rattle.eon_outside.specs.Faults.{Counts};
ghost use Rattle.eon_outside.specs.Memory.{plan_of};
ghost use Rattle.eon_disk.specs.Asked.{Asked, asked_of};
ghost use Rattle.eon_disk.specs.HeldBytes.{now_alone, MayLeave, MayHaveLeft, begun, with_piece, cut_to, synced, HasByteIn};
ghost use Rattle.eon_disk.specs.HeldDisk.{HeldDisk, fails, takes_place, room_for_write, after_no_change, after_write_call, after_step_call, after_attach};
ghost use Rattle.std.specs.Option.{option_map_or};
ghost use Rattle.std.proofs.Common.{inl, refl};

use crate::disk::{Deck, Disk, DiskFailed};
use crate::medium::Medium;
use eon_outside::call_plan::CallPlan;
use eon_outside::opened_names::OpenedNames;
use std::alloc::{AllocError, Global};
use std::marker::Model;

/// What each write, cut and sync takes of the room.
const ROOM_FOR_STEP: usize = 64;

/// What a crash leaves in the places that were written since the last sync.
#[derive(Clone, Copy, Debug, PartialEq, Eq)]
pub enum Fill {
    /// The bytes as read.
    Kept,
    /// This byte in each of them.
    Byte(u8),
}

/// A disk held in memory. It tells its bytes, and attaches them under any name.
#[derive(Drop)]
pub struct MemDisk {
    medium: Medium,
    room: usize,
    plan: CallPlan,
    stop: Option<u64>,
    names: OpenedNames,
    create: Option<bool>,
}

impl Model for MemDisk {
    ghost Value = { HeldDisk };

    ghost view = { λ d. record {
      held = d.medium.held;
      room = d.room;
      plan = d.plan;
      stop = d.stop;
      asked = asked_of d.create d.names.names;
    } };

    ghost invariant = { λ d. IsImage d.medium.held.pending d.medium.held.bytes
        × (d.room ≤ d.medium.bytes_more) × (d.room / 64 ≤ d.medium.ranges_more) };
}

impl MemDisk {
    /// These bytes, of which nothing is pending. All memory is taken here. Each write, cut and sync takes 64 of the room,
    /// and a write the length of its piece besides. A call that needs more room than is left fails, and so do the calls
    /// whose numbers, counted from 1, are in `fails`; they change nothing. From call `stop` on every call fails, but a
    /// write at `stop` takes place before it fails, where it has its room and is not one that is to fail. No other call
    /// fails.
    pub fn new(
        alloc: Global,
        bytes: Vec<u8>,
        room: usize,
        fails: Vec<u64>,
        stop: Option<u64>,
    ) -> Result<MemDisk, AllocError>
        ensures held { IfOk result (λ d. d.held ≡ begun bytes.items) }
        ensures room { IfOk result (λ d. d.room ≡ room) }
        ensures plan { IfOk result (λ d. d.plan ≡ plan_of fails.items) }
        ensures stop { IfOk result (λ d. d.stop ≡ stop) }
        ensures asked { IfOk result (λ d. d.asked ≡ None) }
    {
        let medium = Medium::new(alloc, bytes, room)?;
        // its clause: the bytes as read are an image
        let _image = medium.bytes();
        Ok(MemDisk {
            medium,
            room,
            plan: CallPlan::new(fails),
            stop,
            names: OpenedNames::new(),
            create: None,
        })
    }

    /// What a crash at this moment leaves: the bytes as read, or these with the byte in each place that was written since the
    /// last sync.
    pub fn crash(self, fill: Fill) -> Vec<u8>
        ensures image { IsImage self.held.pending result.items }
        ensures kept { fill ≡ Fill.Kept → result.items ≡ self.held.bytes }
        ensures filled { (byte : ℕ) → fill ≡ Fill.Byte byte
            → HasByteIn byte self.held.pending.written self.held.bytes result.items }
    {
        match fill {
            Fill::Kept => self.medium.into_bytes(),
            Fill::Byte(byte) => self.medium.into_filled(byte),
        }
    }

    /// How many calls were made.
    pub fn calls(&self) -> u64
        ensures { result ≡ self.now.plan.calls }
    {
        self.plan.calls()
    }

    /// How many calls failed.
    pub fn faults(&self) -> u64
        ensures { result ≡ self.now.plan.faults }
    {
        self.plan.faults()
    }

    // Counts a call that needs this much room, and its fault where it fails.
    fn start_call(&mut self, needs: usize) -> Start
        ensures takes_place { result.takes_place ≡ takes_place self.old needs }
        ensures fails { result.fails ≡ fails self.old needs }
        ensures is { self.new ≡ after_no_change result.fails self.old }
        ensures image { IsImage self.new.held.pending self.new.held.bytes }
    {
        let due = self.plan.next_fails();
        let call = self.plan.calls();
        let start = Start {
            takes_place: may_take_place(due, is_past(self.stop, call), needs, self.room),
            fails: must_fail(due, is_stopped(self.stop, call), needs, self.room),
        };
        if start.fails {
            self.plan.count_fault();
        }
        start
    }

    // Writes a piece, for which there is room.
    fn put(&mut self, at: u64, piece: &[u8])
        requires within { at ≤ length self.old.held.bytes }
        requires room { room_for_write piece.now ≤ self.old.room }
        ensures { self.new ≡ record self.old { held = with_piece at piece.now self.old.held; room = self.old.room - room_for_write piece.now } }
    {
        self.medium.put(at as usize, piece);
        // its clause: the bytes as read are an image
        let _image = self.medium.bytes();
        self.room -= ROOM_FOR_STEP + piece.len();
    }
}

/// What becomes of a call that begins.
#[derive(Clone, Copy)]
struct Start {
    /// A write takes place, though it may fail.
    takes_place: bool,
    fails: bool,
}

fn may_take_place(due: bool, past: bool, needs: usize, room: usize) -> bool
    ensures { result ≡ (not due && not past && nat_le needs room) }
{
    !due && !past && needs <= room
}

fn must_fail(due: bool, stopped: bool, needs: usize, room: usize) -> bool
    ensures { result ≡ (due || stopped || nat_lt room needs) }
{
    due || stopped || room < needs
}

// Whether the call comes at the stop or later.
fn is_stopped(stop: Option<u64>, call: u64) -> bool
    ensures { result ≡ option_map_or (λ stop. nat_le stop call) stop false }
{
    match stop {
        None => false,
        Some(stop) => stop <= call,
    }
}

// Whether the call comes later than the stop.
fn is_past(stop: Option<u64>, call: u64) -> bool
    ensures { result ≡ option_map_or (λ stop. nat_lt stop call) stop false }
{
    match stop {
        None => false,
        Some(stop) => stop < call,
    }
}

// Copies the bytes from an offset on to the front of `buf`, as far as there are some and there is room.
fn copy_from(bytes: &[u8], at: u64, buf: &mut [u8]) -> usize
    ensures count { result ≡ min (length buf.old) (length bytes.now - at) }
    ensures bytes { take result buf.new ≡ take result (drop at bytes.now) }
{
    let start = bytes.len().min(at as usize);
    let rest = &bytes[start..];
    let count = buf.len().min(rest.len());
    buf[..count].copy_from_slice(&rest[..count]);
    count
}

impl Disk for MemDisk {
    ghost now = { λ d. Some d.held.bytes };

    ghost images = { λ d. MayLeave d.held };

    ghost clock = { λ d. length d.held.past };

    ghost images_since = { λ d. MayHaveLeft d.held };

    ghost faults = { λ d. d.plan.faults };

    ghost asked = { λ d. d.asked };

    fn len(&mut self) -> Result<u64, DiskFailed>
        ensures bytes { IfOk result (λ n. n ≡ length self.old.held.bytes) }
        ensures when { is_err result ≡ fails self.old 0 }
        ensures is { self.new ≡ after_no_change (is_err result) self.old }
    {
        if self.start_call(0).fails {
            return Err(DiskFailed);
        }
        Ok(self.medium.bytes().len() as u64)
    }

    fn read_at(&mut self, at: u64, buf: &mut [u8]) -> Result<usize, DiskFailed>
        ensures bytes { Reads (Some self.old.held.bytes) at (length buf.old) buf.new result }
        ensures when { is_err result ≡ fails self.old 0 }
        ensures is { self.new ≡ after_no_change (is_err result) self.old }
    {
        if self.start_call(0).fails {
            return Err(DiskFailed);
        }
        Ok(copy_from(self.medium.bytes(), at, buf))
    }

    fn write_at(&mut self, at: u64, piece: &[u8]) -> Result<(), DiskFailed>
        requires within { at ≤ length self.old.held.bytes }
        requires fits { at + length piece.now ≤ 2 ^ 62 }
        ensures when { is_err result ≡ fails self.old (room_for_write piece.now) }
        ensures is { self.new ≡ after_write_call (is_err result) at piece.now self.old }
        ensures image { IsImage self.old.held.pending self.old.held.bytes }
    {
        let start = self.start_call(ROOM_FOR_STEP + piece.len());
        if start.takes_place {
            self.put(at, piece);
        }
        if start.fails {
            return Err(DiskFailed);
        }
        Ok(())
    }

    fn cut(&mut self, len: u64) -> Result<(), DiskFailed>
        requires within { len ≤ length self.old.held.bytes }
        ensures when { is_err result ≡ fails self.old 64 }
        ensures is { self.new ≡ after_step_call (is_err result) (cut_to len self.old.held) self.old }
        ensures image { IsImage self.old.held.pending self.old.held.bytes }
    {
        if self.start_call(ROOM_FOR_STEP).fails {
            return Err(DiskFailed);
        }
        self.medium.cut(len as usize);
        // its clause: the bytes as read are an image
        let _image = self.medium.bytes();
        self.room -= ROOM_FOR_STEP;
        Ok(())
    }

    fn sync(&mut self) -> Result<(), DiskFailed>
        ensures when { is_err result ≡ fails self.old 64 }
        ensures is { self.new ≡ after_step_call (is_err result) (synced self.old.held) self.old }
        ensures image { IsImage self.old.held.pending self.old.held.bytes }
    {
        if self.start_call(ROOM_FOR_STEP).fails {
            return Err(DiskFailed);
        }
        self.medium.sync();
        // its clause: the bytes as read are an image
        let _image = self.medium.bytes();
        self.room -= ROOM_FOR_STEP;
        Ok(())
    }

    ghost reads = { λ d. inl refl };

    ghost counts_now = { λ d t c l h. inl h };

    ghost only_now = { λ d c h. now_alone d.held c h };
}

impl Deck for MemDisk {
    fn attach(&mut self, name: &str, create: bool) -> Result<(), DiskFailed>
        ensures when { is_err result ≡ fails self.old 0 }
        ensures is { self.new ≡ after_attach (is_err result) (record { name = name.now; create = create }) self.old }
    {
        self.names.note(name.as_bytes());
        self.create = Some(create);
        if self.start_call(0).fails {
            return Err(DiskFailed);
        }
        Ok(())
    }
}
