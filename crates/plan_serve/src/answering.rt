//! What is said to one line.
ghost use Rattle.std.specs.Prelude.{◌≡◌, None, IsTrue};
ghost use Rattle.eon_model.specs.CommandText.{is_command};
ghost use Rattle.eon_model.specs.Run.{situation};
ghost use Rattle.eon_outside.specs.Faults.{Stands};
ghost use Rattle.command_text.specs.Told.{told};
ghost use Rattle.plan_serve.specs.Answering.{Decides, DecidesCommand, GoesOn, AnswersLine};

use command_text::{Command, read_command};
use eon_outside::{Failed, Sink};
use plan_core::{Core, Decision};
use reply_text::{Reply, write_reply};

/// The most bytes of a command line.
const LONGEST_LINE: usize = 4096;

/// Whether the run goes on behind a line.
#[derive(Clone, Copy, Debug, PartialEq, Eq)]
pub(crate) enum Flow {
    /// It goes on.
    On,
    /// The line was `quit`.
    Ended,
}

/// The reply to a command. Its change is made.
fn reply_to_command(core: &mut Core, command: &Command) -> Reply
    requires in_range { IsTrue (is_command (told command.now)) }
    ensures setup { core.new.setup ≡ core.old.setup }
    ensures decides { DecidesCommand core.old.setup (situation core.old.state None) (situation core.new.state None) (told command.now) result }
{
    match core.step(command) {
        Ok(Decision::Say(reply)) => reply,
        Ok(Decision::Change { event, reply }) => {
            core.apply(event);
            reply
        }
        Err(_) => Reply::Memory,
    }
}

/// The reply to a line. Its change is made.
pub(crate) fn reply_to(core: &mut Core, line: &[u8]) -> Reply
    ensures setup { core.new.setup ≡ core.old.setup }
    ensures decides { Decides core.old.setup (situation core.old.state None) (situation core.new.state None) line.now result }
{
    if line.len() > LONGEST_LINE {
        return Reply::Line {
            at: LONGEST_LINE as u16,
        };
    }
    match read_command(line) {
        Ok(command) => reply_to_command(core, &command),
        Err(fault) => Reply::Line { at: fault.at },
    }
}

/// Whether the run goes on behind the line.
fn flow_behind(line: &[u8]) -> Flow
    ensures { GoesOn result line.now }
{
    if line == b"quit".as_slice() {
        Flow::Ended
    } else {
        Flow::On
    }
}

/// Answers one line, without its byte 10: makes the change that it asks for, and gives the reply. After a failure a
/// part of the reply was given, and not all; the change stands.
pub(crate) fn answer<K: Sink>(core: &mut Core, line: &[u8], out: &mut K) -> Result<Flow, Failed>
    ensures setup { core.new.setup ≡ core.old.setup }
    ensures told { AnswersLine core.old.setup (situation core.old.state None) (situation core.new.state None) line.now (K.given out.old) (K.given out.new) result }
    ensures stands { Stands (K.standing out.old) (K.standing out.new) result }
{
    let reply = reply_to(core, line);
    match write_reply(&reply, core.setup(), core.services(), out) {
        Ok(()) => Ok(flow_behind(line)),
        Err(Failed) => Err(Failed),
    }
}
