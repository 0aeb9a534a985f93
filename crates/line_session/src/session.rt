//! A run over a stream of lines, which comes in pieces.
ghost use Rattle.std.specs.Prelude.{◌≡◌, ◌≢◌, ℕ, ◌+◌, ◌∷◌, ◌++◌, ◌<◌, ◌≤◌, List, [], Option, IfOk, IfSome, IsNone, IsTrue, OnOk, length, take, drop, vec_len, vec_capacity};
ghost use Rattle.std.specs.Io.KnownBytes.{append_known};
ghost use Rattle.eon_outside.specs.Faults.{Stands};
ghost use Rattle.eon_outside.specs.Held.{Flushes, given_since};
ghost use Rattle.line_session.specs.Lines.{IsLeft, has_no_end, most_kept, most_read};
ghost use Rattle.line_session.specs.Session.{outcome_of as ending};

use crate::answerer::{Answerer, Flow, Stopped};
use eon_outside::{Buffered, Failed, Shelf, Sink, Start};
use memchr::memchr;
use std::alloc::{AllocError, Global};
use std::marker::Brand;

/// How many bytes are kept of a line that has begun: one more than a line has, so that what is longer is known to be too long.
const MOST_KEPT: usize = 4097;

/// The most bytes of a stream.
const LONGEST_STREAM: usize = 268_435_456;

/// How a run over a stream ended.
#[derive(Clone, Copy, Debug, PartialEq, Eq)]
pub enum Outcome {
    /// The stream was read to its end, or a `quit` line was answered.
    Done,
    /// The stream could not be read.
    ReadFault,
    /// The output could not be written.
    WriteFault,
    /// A call of the disk failed.
    DiskFault,
    /// The stream has more than 268,435,456 bytes, and no `quit` line ends before.
    InputLong,
}

/// How a run ends behind a line that was not answered whole.
fn outcome_of(stopped: Stopped) -> Outcome
    ensures { result ≡ ending stopped }
{
    match stopped {
        Stopped::Output => Outcome::WriteFault,
        Stopped::Disk => Outcome::DiskFault,
    }
}

/// Where the first line ends, if one does.
fn end_of_line(bytes: &[u8]) -> Option<usize>
    ensures some { IfSome result (λ at. (at < length bytes.now) × IsTrue (has_no_end (take at bytes.now)) × (drop at bytes.now ≡ 10 ∷ drop (at + 1) bytes.now)) }
    ensures none { IsNone result → IsTrue (has_no_end bytes.now) }
{
    memchr(b'\n', bytes)
}

/// Gives all that is held back to the sink below.
fn flush<K: Sink, S: Start>(replies: &mut Buffered<'_, K, S>) -> Result<(), Failed>
    ensures sink { replies.new.out.ghost_name ≡ replies.old.out.ghost_name }
    ensures place { replies.new.held.ghost_name ≡ replies.old.held.ghost_name }
    ensures bytes { Flushes (K.given replies.old.out.now) (K.given replies.new.out.now) replies.old.held.now.items replies.new.held.now.items result }
    ensures stands { Stands (K.standing replies.old.out.now) (K.standing replies.new.out.now) result }
{
    replies.flush()
}

/// Gives all that is held back for this sink to it. What it did not take stays held after a failure.
pub fn give_held<K: Sink>(out: &mut K, held: &mut Vec<u8>) -> Result<(), Failed>
    ensures bytes { Flushes (K.given out.old) (K.given out.new) held.old.items held.new.items result }
    ensures stands { Stands (K.standing out.old) (K.standing out.new) result }
{
    let mut replies: Buffered<'_, K, Brand> = Buffered::new(out, held);
    flush(&mut replies)
}

/// The first bytes of the line that has begun.
#[derive(Drop)]
pub struct LineSession {
    begun: Vec<u8>,
    ghost room: { most_kept ≤ vec_capacity begun },
    ghost within: { vec_len begun ≤ most_kept },
}

impl LineSession {
    ghost use Rattle.line_session.specs.Answering.{AnswersLine, StandsBehind};
    ghost use Rattle.line_session.specs.Ends.{AnswersStream, CountsReads, StandsAt};
    ghost use Rattle.line_session.specs.Session.{Goes, Feeds, FinishesAt};

    /// Nothing has begun yet.
    pub fn open(alloc: Global) -> Result<LineSession, AllocError>
        ensures begun { IfOk result (λ s. s.begun.items ≡ []) }
    {
        let begun = Vec::with_capacity(alloc, MOST_KEPT)?;
        Ok(LineSession { begun })
    }

    /// Keeps what there is room for of a part of a line.
    fn keep(&mut self, part: &[u8])
        ensures begun { self.new.begun.items ≡ take most_kept (self.old.begun.items ++ part.now) }
    {
        let free = MOST_KEPT - self.begun.len();
        let kept = free.min(part.len());
        match self.begun.extend_from_slice(&part[..kept]) {
            Ok(()) => {}
            Err(_) => unreachable!(),
        }
    }

    /// Answers the line that has begun, of which this is the last part.
    fn end_line<M: Answerer, K: Sink>(
        &mut self,
        answerer: &mut M,
        part: &[u8],
        out: &mut K,
        held: &mut Vec<u8>,
    ) -> Result<Flow, Stopped>
        requires ready { M.ready answerer.old }
        ensures ready { OnOk result (M.ready answerer.new) }
        ensures setting { M.setting answerer.new ≡ M.setting answerer.old }
        ensures begun { self.new.begun.items ≡ [] }
        ensures told { (fragment : List ℕ) → self.old.begun.items ≡ take most_kept fragment
            → AnswersLine (M.by (M.setting answerer.old)) (M.went answerer.old answerer.new) (M.place answerer.old) (M.place answerer.new)
            (fragment ++ part.now) (given_since (K.given out.old) (K.given out.old) held.old.items)
            (given_since (K.given out.old) (K.given out.new) held.new.items) (K.given out.new) result }
        ensures stands { StandsBehind result (K.standing out.old) (K.standing out.new) }
    {
        if self.begun.is_empty() {
            return answerer.answer(part, out, held);
        }
        self.keep(part);
        let answered = answerer.answer(self.begun.as_slice(), out, held);
        self.begun.clear();
        answered
    }

    /// Answers the lines that end in this piece, up to `quit`, and keeps the begin of the line behind them.
    fn answer_lines<M: Answerer, K: Sink>(
        &mut self,
        answerer: &mut M,
        piece: &[u8],
        out: &mut K,
        held: &mut Vec<u8>,
    ) -> Result<Flow, Stopped>
        requires ready { M.ready answerer.old }
        ensures ready { OnOk result (M.ready answerer.new) }
        ensures setting { M.setting answerer.new ≡ M.setting answerer.old }
        ensures fed { (first : M) (before : Option (List ℕ)) (bytes : List ℕ) → M.setting answerer.old ≡ M.setting first
            → Goes (M.by (M.setting first)) (M.went first answerer.old) (M.place first) before (M.place answerer.old) self.old.begun.items bytes
            (append_known (K.given out.old) held.old.items) (K.given out.old)
            → Feeds (M.by (M.setting first)) (M.went first answerer.new) (M.place first) before (M.place answerer.new) self.new.begun.items
            (bytes ++ piece.now) [] (append_known (K.given out.new) held.new.items) (K.given out.new) result }
        ensures stands { StandsBehind result (K.standing out.old) (K.standing out.new) }
    {
        let mut rest = piece;
        while let Some(at) = end_of_line(rest) {
            match self.end_line(answerer, &rest[..at], out, held) {
                Ok(Flow::On) => rest = &rest[at + 1..],
                Ok(Flow::Ended) => return Ok(Flow::Ended),
                Err(stopped) => return Err(stopped),
            }
        }
        self.keep(rest);
        Ok(Flow::On)
    }

    /// The same, and then gives all replies to the sink below.
    fn feed<M: Answerer, K: Sink>(
        &mut self,
        answerer: &mut M,
        piece: &[u8],
        out: &mut K,
        held: &mut Vec<u8>,
    ) -> Result<Flow, Stopped>
        requires ready { M.ready answerer.old }
        ensures ready { OnOk result (M.ready answerer.new) }
        ensures setting { M.setting answerer.new ≡ M.setting answerer.old }
        ensures none_held { OnOk result (held.new.items ≡ []) }
        ensures fed { (first : M) (before : Option (List ℕ)) (bytes : List ℕ) → M.setting answerer.old ≡ M.setting first
            → Goes (M.by (M.setting first)) (M.went first answerer.old) (M.place first) before (M.place answerer.old) self.old.begun.items bytes
            (append_known (K.given out.old) held.old.items) (K.given out.old)
            → Feeds (M.by (M.setting first)) (M.went first answerer.new) (M.place first) before (M.place answerer.new) self.new.begun.items
            (bytes ++ piece.now) held.new.items (append_known (K.given out.new) held.new.items) (K.given out.new) result }
        ensures stands { StandsBehind result (K.standing out.old) (K.standing out.new) }
    {
        match self.answer_lines(answerer, piece, out, held) {
            Ok(flow) => match give_held(out, held) {
                Ok(()) => Ok(flow),
                Err(Failed) => Err(Stopped::Output),
            },
            Err(stopped) => Err(stopped),
        }
    }

    /// Answers what stands behind the last end, where there is something, as if it ended there.
    fn finish<M: Answerer, K: Sink>(
        &mut self,
        answerer: &mut M,
        out: &mut K,
        held: &mut Vec<u8>,
    ) -> Outcome
        requires ready { M.ready answerer.old }
        requires none_held { held.old.items ≡ [] }
        ensures setting { M.setting answerer.new ≡ M.setting answerer.old }
        ensures ended { (first : M) (before : Option (List ℕ)) (bytes : List ℕ) → M.setting answerer.old ≡ M.setting first
            → Goes (M.by (M.setting first)) (M.went first answerer.old) (M.place first) before (M.place answerer.old) self.old.begun.items bytes
            (append_known (K.given out.old) held.old.items) (K.given out.old)
            → FinishesAt (M.by (M.setting first)) (M.went first answerer.new) (M.place first) before (M.place answerer.new)
            self.old.begun.items bytes held.new.items (append_known (K.given out.new) held.new.items) (K.given out.new) result }
        ensures stands { StandsAt result (K.standing out.old) (K.standing out.new) }
        ensures none_held { result ≡ Outcome.Done → held.new.items ≡ [] }
        ensures no_read { result ≢ Outcome.ReadFault }
    {
        if self.begun.is_empty() {
            return Outcome::Done;
        }
        match self.feed(answerer, b"\n", out, held) {
            Ok(_) => Outcome::Done,
            Err(stopped) => outcome_of(stopped),
        }
    }

    /// Answers each line that is left of the open file, up to `quit`. The buffer holds what is read at a time. Replies are held
    /// back in `held` while there is room for them, and given at the end of each piece.
    pub fn answer_stream<H: Shelf, K: Sink, M: Answerer>(
        &mut self,
        answerer: &mut M,
        shelf: &mut H,
        buffer: &mut [u8],
        out: &mut K,
        held: &mut Vec<u8>,
    ) -> Outcome
        requires some_room { 0 < length buffer.old }
        requires few { length buffer.old ≤ most_read }
        requires none_begun { self.old.begun.items ≡ [] }
        requires none_held { held.old.items ≡ [] }
        requires ready { M.ready answerer.old }
        ensures setting { M.setting answerer.new ≡ M.setting answerer.old }
        ensures answered { AnswersStream (M.by (M.setting answerer.old)) (M.went answerer.old answerer.new) (IsLeft (H.left shelf.old)) (M.place answerer.old)
            (H.left shelf.new) (K.given out.old) (K.given out.new) result }
        ensures files { H.files shelf.new ≡ H.files shelf.old }
        ensures opened { H.opened shelf.new ≡ H.opened shelf.old }
        ensures reads { CountsReads result (H.faults shelf.old) (H.faults shelf.new) }
        ensures stands { StandsAt result (K.standing out.old) (K.standing out.new) }
        ensures calm { IsTrue (H.calm shelf.old) → result ≢ Outcome.ReadFault }
    {
        let mut taken: usize = 0;
        loop {
            let count = match shelf.read(buffer) {
                Ok(count) => count,
                Err(Failed) => return Outcome::ReadFault,
            };
            if count == 0 {
                return self.finish(answerer, out, held);
            }
            let allowed = LONGEST_STREAM - taken;
            match self.feed(answerer, &buffer[..count.min(allowed)], out, held) {
                Ok(Flow::On) => {
                    if allowed < count {
                        return Outcome::InputLong;
                    }
                    taken += count;
                }
                Ok(Flow::Ended) => return Outcome::Done,
                Err(stopped) => return outcome_of(stopped),
            }
        }
    }
}
