//! A run over a stream of command lines, which comes in pieces.
ghost use Rattle.std.specs.Prelude.{◌≡◌, ◌≢◌, ℕ, ◌+◌, ◌∷◌, ◌++◌, ◌<◌, ◌≤◌, List, [], Option, None, IfOk, IfSome, IsNone, IsTrue, OnOk, length, take, drop, vec_len, vec_capacity};
ghost use Rattle.eon_outside.specs.Faults.{Stands};
ghost use Rattle.eon_outside.specs.Held.{standing_over, given_since};
ghost use Rattle.plan_serve.specs.Lines.{has_no_end, most_kept, most_read};

use crate::answering::{Flow, answer};
use crate::status::Status;
use eon_outside::{Buffered, Failed, Shelf, Sink, Start};
use memchr::memchr;
use plan_core::Core;
use std::alloc::{AllocError, Global};

/// How many bytes are kept of a line that has begun: one more than a command line has, so that what is longer is known
/// to be too long.
const MOST_KEPT: usize = 4097;

/// The most bytes of a command stream.
const LONGEST_STREAM: usize = 268_435_456;

/// Where the first line ends, if one does.
fn end_of_line(bytes: &[u8]) -> Option<usize>
    ensures some { IfSome result (λ at. (at < length bytes.now) × IsTrue (has_no_end (take at bytes.now)) × (drop at bytes.now ≡ 10 ∷ drop (at + 1) bytes.now)) }
    ensures none { IsNone result → IsTrue (has_no_end bytes.now) }
{
    memchr(b'\n', bytes)
}

/// The machine, and the first bytes of the line that has begun.
#[derive(Drop)]
pub(crate) struct Session {
    core: Core,
    begun: Vec<u8>,
    ghost room: { most_kept ≤ vec_capacity begun },
    ghost within: { vec_len begun ≤ most_kept },
}

impl Session {
    ghost use Rattle.eon_model.specs.Run.{Situation, situation};
    ghost use Rattle.eon_model.specs.Legal.{Legal};
    ghost use Rattle.eon_model.specs.NetworkText.{is_setup};
    ghost use Rattle.plan_serve.specs.Answering.{AnswersLine};
    ghost use Rattle.plan_serve.specs.Files.{IsLeft};
    ghost use Rattle.plan_serve.specs.Session.{Goes, Feeds, FinishesAt};
    ghost use Rattle.plan_serve.specs.Ends.{AnswersStream, CountsReads, StandsAt};

    /// The machine at the begin of a stream.
    pub(crate) fn open(alloc: Global, core: Core) -> Result<Session, AllocError>
        ensures setup { IfOk result (λ s. s.core.setup ≡ core.setup) }
        ensures state { IfOk result (λ s. s.core.state ≡ core.state) }
        ensures begun { IfOk result (λ s. s.begun.items ≡ []) }
    {
        let begun = Vec::with_capacity(alloc, MOST_KEPT)?;
        Ok(Session { core, begun })
    }

    /// Keeps what there is room for of a part of a line.
    fn keep(&mut self, part: &[u8])
        ensures begun { self.new.begun.items ≡ take most_kept (self.old.begun.items ++ part.now) }
        ensures core { self.new.core ≡ self.old.core }
    {
        let free = MOST_KEPT - self.begun.len();
        let kept = free.min(part.len());
        match self.begun.extend_from_slice(&part[..kept]) {
            Ok(()) => {}
            Err(_) => unreachable!(),
        }
    }

    /// Answers the line that has begun, of which this is the last part.
    fn end_line<K: Sink>(&mut self, part: &[u8], out: &mut K) -> Result<Flow, Failed>
        ensures setup { self.new.core.setup ≡ self.old.core.setup }
        ensures begun { self.new.begun.items ≡ [] }
        ensures told { (fragment : List ℕ) → self.old.begun.items ≡ take most_kept fragment → AnswersLine self.old.core.setup (situation self.old.core.state None) (situation self.new.core.state None) (fragment ++ part.now) (K.given out.old) (K.given out.new) result }
        ensures stands { Stands (K.standing out.old) (K.standing out.new) result }
    {
        if self.begun.is_empty() {
            return answer(&mut self.core, part, out);
        }
        self.keep(part);
        let answered = answer(&mut self.core, self.begun.as_slice(), out);
        self.begun.clear();
        answered
    }

    /// Answers the lines that end in this piece, up to `quit`, and keeps the begin of the line behind them.
    fn answer_lines<K: Sink>(&mut self, piece: &[u8], out: &mut K) -> Result<Flow, Failed>
        ensures setup { self.new.core.setup ≡ self.old.core.setup }
        ensures fed { (start : Situation) (before : Option (List ℕ)) (bytes : List ℕ) → Goes self.old.core.setup start before (situation self.old.core.state None) self.old.begun.items bytes (K.given out.old)
            → Feeds self.old.core.setup start before (situation self.new.core.state None) self.new.begun.items (bytes ++ piece.now) [] (K.given out.new) result }
        ensures stands { Stands (K.standing out.old) (K.standing out.new) result }
    {
        let mut rest = piece;
        while let Some(at) = end_of_line(rest) {
            match self.end_line(&rest[..at], out) {
                Ok(Flow::On) => rest = &rest[at + 1..],
                Ok(Flow::Ended) => return Ok(Flow::Ended),
                Err(Failed) => return Err(Failed),
            }
        }
        self.keep(rest);
        Ok(Flow::On)
    }

    /// The same, and then gives all replies to the sink below.
    fn feed<K: Sink, S: Start>(
        &mut self,
        piece: &[u8],
        out: &mut Buffered<'_, K, S>,
    ) -> Result<Flow, Failed>
        ensures setup { self.new.core.setup ≡ self.old.core.setup }
        ensures none_held { OnOk result (out.new.held.now.items ≡ []) }
        ensures fed { (start : Situation) (before : Option (List ℕ)) (bytes : List ℕ) → Goes self.old.core.setup start before (situation self.old.core.state None) self.old.begun.items bytes (given_since S.bytes (K.given out.old.out.now) out.old.held.now.items)
            → Feeds self.old.core.setup start before (situation self.new.core.state None) self.new.begun.items (bytes ++ piece.now) out.new.held.now.items (given_since S.bytes (K.given out.new.out.now) out.new.held.now.items) result }
        ensures stands { Stands (standing_over out.old.out.ghost_name out.old.held.ghost_name (K.standing out.old.out.now)) (standing_over out.new.out.ghost_name out.new.held.ghost_name (K.standing out.new.out.now)) result }
    {
        match self.answer_lines(piece, out) {
            Ok(flow) => match out.flush() {
                Ok(()) => Ok(flow),
                Err(Failed) => Err(Failed),
            },
            Err(Failed) => Err(Failed),
        }
    }

    /// Answers what stands behind the last end, where there is something, as if it ended there.
    fn finish<K: Sink, S: Start>(&mut self, out: &mut Buffered<'_, K, S>) -> Status
        requires none_held { out.old.held.now.items ≡ [] }
        ensures setup { self.new.core.setup ≡ self.old.core.setup }
        ensures ended { (start : Situation) (before : Option (List ℕ)) (bytes : List ℕ) → Goes self.old.core.setup start before (situation self.old.core.state None) self.old.begun.items bytes (given_since S.bytes (K.given out.old.out.now) out.old.held.now.items)
            → FinishesAt self.old.core.setup start before (situation self.new.core.state None) self.old.begun.items bytes out.new.held.now.items (given_since S.bytes (K.given out.new.out.now) out.new.held.now.items) result }
        ensures stands { StandsAt result (standing_over out.old.out.ghost_name out.old.held.ghost_name (K.standing out.old.out.now)) (standing_over out.new.out.ghost_name out.new.held.ghost_name (K.standing out.new.out.now)) }
        ensures none_held { result ≡ Status.Done → out.new.held.now.items ≡ [] }
        ensures no_read { result ≢ Status.ReadFault }
    {
        if self.begun.is_empty() {
            return Status::Done;
        }
        match self.feed(b"\n", out) {
            Ok(_) => Status::Done,
            Err(Failed) => Status::WriteFault,
        }
    }

    /// Answers each line that is left of the open file, up to `quit`. The buffer holds what is read at a time.
    pub(crate) fn answer_stream<H: Shelf, K: Sink, S: Start>(
        &mut self,
        shelf: &mut H,
        buffer: &mut [u8],
        out: &mut Buffered<'_, K, S>,
    ) -> Status
        requires some_room { 0 < length buffer.old }
        requires few { length buffer.old ≤ most_read }
        requires none_begun { self.old.begun.items ≡ [] }
        requires none_held { out.old.held.now.items ≡ [] }
        requires from { S.bytes ≡ K.given out.old.out.now }
        requires in_range { IsTrue (is_setup self.old.core.setup) }
        requires legal { Legal self.old.core.setup self.old.core.state }
        ensures sink { out.new.out.ghost_name ≡ out.old.out.ghost_name }
        ensures answered { AnswersStream (IsLeft (H.left shelf.old)) self.old.core.setup (situation self.old.core.state None) (H.left shelf.new) (K.given out.old.out.now) (K.given out.new.out.now) result }
        ensures files { H.files shelf.new ≡ H.files shelf.old }
        ensures opened { H.opened shelf.new ≡ H.opened shelf.old }
        ensures reads { CountsReads result (H.faults shelf.old) (H.faults shelf.new) }
        ensures stands { StandsAt result (K.standing out.old.out.now) (K.standing out.new.out.now) }
        ensures calm { IsTrue (H.calm shelf.old) → result ≢ Status.ReadFault }
    {
        let mut taken: usize = 0;
        loop {
            let count = match shelf.read(buffer) {
                Ok(count) => count,
                Err(Failed) => return Status::ReadFault,
            };
            if count == 0 {
                return self.finish(out);
            }
            let allowed = LONGEST_STREAM - taken;
            match self.feed(&buffer[..count.min(allowed)], out) {
                Ok(Flow::On) => {
                    if allowed < count {
                        return Status::InputLong;
                    }
                    taken += count;
                }
                Ok(Flow::Ended) => return Status::Done,
                Err(Failed) => return Status::WriteFault,
            }
        }
    }
}
