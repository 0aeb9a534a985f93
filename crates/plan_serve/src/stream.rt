//! A stream of lines that a machine answers.
ghost use Rattle.std.specs.Prelude.{◌≡◌, ◌≢◌, [], IfOk, IsTrue};
ghost use Rattle.eon_outside.specs.Reading.{IsThere};
ghost use Rattle.plan_serve.specs.AskEnds.{AsksStream, status_behind};
ghost use Rattle.plan_serve.specs.Outside.{outside};

use crate::status::Status;
use eon_outside::{Failed, Shelf, Sink};
use line_session::{Answerer, LineSession, Outcome};
use std::alloc::{AllocError, Global};

/// How many bytes of the command stream are read at a time.
pub(crate) const PIECE: usize = 65_536;

/// How many bytes of replies are held back.
pub(crate) const HELD_BACK: usize = 65_536;

// The status with which a call ends whose stream ended so.
fn status_behind(outcome: Outcome) -> Status
    ensures { result ≡ status_behind outcome }
{
    match outcome {
        Outcome::Done => Status::Done,
        Outcome::ReadFault => Status::ReadFault,
        Outcome::WriteFault => Status::WriteFault,
        Outcome::DiskFault => Status::DiskFault,
        Outcome::InputLong => Status::InputLong,
    }
}

// A run of which no line has begun.
fn new_session(alloc: Global) -> Result<LineSession, AllocError>
    ensures begun { IfOk result (λ s. s.begun.items ≡ []) }
{
    LineSession::open(alloc)
}

/// Answers each line of the stream of this name, up to `quit`. What memory it takes is taken before the stream is opened.
pub(crate) fn answer_commands<H: Shelf, K: Sink, M: Answerer>(
    alloc: Global,
    answerer: &mut M,
    commands: &str,
    shelf: &mut H,
    out: &mut K,
) -> Status
    requires ready { M.ready answerer.old }
    ensures ends { AsksStream (M.by (M.setting answerer.old)) (M.went answerer.old answerer.new) (M.place answerer.old) commands.now
        (outside (H.files shelf.old) (H.opened shelf.old) (H.left shelf.old) (H.faults shelf.old) (K.given out.old) (K.standing out.old))
        (outside (H.files shelf.new) (H.opened shelf.new) (H.left shelf.new) (H.faults shelf.new) (K.given out.new) (K.standing out.new)) result }
    ensures files { H.files shelf.new ≡ H.files shelf.old }
    ensures calm { IsTrue (H.calm shelf.old) → IsThere (H.files shelf.old) commands.now → result ≢ Status.ReadFault }
    ensures room { (K.standing out.new).room ≡ (K.standing out.old).room }
{
    let Ok(mut session) = new_session(alloc) else {
        return Status::Memory;
    };
    let Ok(mut buffer) = vec![in alloc; 0u8; PIECE] else {
        return Status::Memory;
    };
    let Ok(mut held) = Vec::with_capacity(alloc, HELD_BACK) else {
        return Status::Memory;
    };
    match shelf.open(commands) {
        Ok(()) => {
            let buffer = buffer.as_mut_slice();
            status_behind(session.answer_stream(answerer, shelf, buffer, out, &mut held))
        }
        Err(Failed) => Status::ReadFault,
    }
}
