//! Output held in memory, taken in pieces, with faults at chosen calls.
ghost use Rattle.std.specs.Prelude.{◌≡◌, ◌-◌, ◌<◌, ◌≤◌, ◌||◌, ℕ, [], length, min, Some, IfOk, is_err, vec_len, vec_capacity};
ghost use Rattle.std.specs.Io.KnownBytes.{WriteAppends};
ghost use Rattle.eon_outside.specs.Faults.{Stands};
ghost use Rattle.eon_outside.specs.Writing.{TakesSome};
ghost use Rattle.eon_outside.specs.Memory.{HeldOutput, IsFilledFirst, standing_of, is_due, is_full_for, after_call, plan_of};
ghost use Rattle.eon_outside.specs.Sure.{sure_of};

use crate::call_plan::CallPlan;
use crate::reading::Failed;
use crate::writing::Sink;
use std::alloc::{AllocError, Global};
use std::marker::Model;

/// Output held in memory. It tells what it was given.
#[derive(Drop)]
pub struct MemSink {
    bytes: Vec<u8>,
    room: usize,
    most: usize,
    plan: CallPlan,
}

impl Model for MemSink {
    ghost Value = { HeldOutput };

    ghost view = { λ s. record { given = s.bytes.items; room = s.room; most = s.most; plan = s.plan } };

    ghost invariant = { λ s. (0 < s.most) × (vec_len s.bytes ≤ s.room) × (s.room ≤ vec_capacity s.bytes)
        × IsFilledFirst (record { given = s.bytes.items; room = s.room; most = s.most; plan = s.plan }) };
}

impl MemSink {
    /// Output of which nothing was given yet, with room for `room` bytes, for which memory is taken here. A write takes
    /// at most `most` bytes. The calls whose numbers, counted from 1, are in `fails` fail, and so does a write that
    /// finds no room for a piece that is not empty; no other call does.
    pub fn new(
        alloc: Global,
        room: usize,
        most: usize,
        fails: Vec<u64>,
    ) -> Result<MemSink, AllocError>
        requires { 0 < most }
        ensures given { IfOk result (λ s. s.given ≡ []) }
        ensures room { IfOk result (λ s. s.room ≡ room) }
        ensures most { IfOk result (λ s. s.most ≡ most) }
        ensures plan { IfOk result (λ s. s.plan ≡ plan_of fails.items) }
    {
        Ok(MemSink {
            bytes: Vec::with_capacity(alloc, room)?,
            room,
            most,
            plan: CallPlan::new(fails),
        })
    }

    /// All bytes that were given.
    pub fn given(&self) -> &[u8]
        ensures { result.now ≡ self.now.given }
    {
        self.bytes.as_slice()
    }

    /// How many calls were made.
    pub fn calls(&self) -> u64
        ensures { result ≡ self.now.plan.calls }
    {
        self.plan.calls()
    }

    /// How many calls failed.
    pub fn faults(&self) -> u64
        ensures { result ≡ self.now.plan.faults }
    {
        self.plan.faults()
    }
}

impl Sink for MemSink {
    ghost given = { λ s. Some s.given };

    ghost standing = { standing_of };

    fn write(&mut self, piece: &[u8]) -> Result<usize, Failed>
        ensures bound { TakesSome result piece.now }
        ensures bytes { WriteAppends (Some self.old.given) (Some self.new.given) result piece.now }
        ensures stands { Stands (standing_of self.old) (standing_of self.new) result }
        ensures when { is_err result ≡ (is_due self.old.plan || is_full_for self.old piece.now) }
        ensures count { IfOk result (λ n. n ≡ min self.old.most (min (length piece.now) (self.old.room - length self.old.given))) }
        ensures plan { self.new.plan ≡ after_call self.old.plan (is_err result) }
        ensures room { self.new.room ≡ self.old.room }
        ensures most { self.new.most ≡ self.old.most }
    {
        let left = self.room - self.bytes.len();
        let due = self.plan.next_fails();
        if due || !piece.is_empty() && left == 0 {
            self.plan.count_fault();
            return Err(Failed);
        }
        let count = self.most.min(piece.len().min(left));
        match self.bytes.extend_from_slice(&piece[..count]) {
            Ok(()) => Ok(count),
            Err(_) => unreachable!(),
        }
    }

    ghost sure = { sure_of };
}
