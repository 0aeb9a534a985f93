//! What is answered to one line.
ghost use Rattle.std.specs.Prelude.{◌≡◌, IsTrue, OnOk, OnErr};
ghost use Rattle.std.specs.Io.KnownBytes.{Appends};
ghost use Rattle.eon_model.specs.LiveReplies.{live_reply_text};
ghost use Rattle.eon_outside.specs.Faults.{Stands};
ghost use Rattle.eon_outside.specs.Writing.{AppendsPart};
ghost use Rattle.line_session.specs.Answering.{GoesOn};
ghost use Rattle.live_failure.specs.Told.{command_told};
ghost use Rattle.live_failure.specs.Replied.{reply_told};
ghost use Rattle.live_failure.specs.Answering.{Decides, DecidesCommand, GivesAnswer};

use crate::command::LiveCommand;
use crate::live_state::Live;
use crate::reading::read_live;
use crate::reply::LiveReply;
use crate::writing::write_live;
use eon_outside::{Failed, Sink};
use line_session::Flow;

/// The most bytes of a line.
const LONGEST_LINE: usize = 4096;

// The reply to a command.
fn reply_to_command(live: &mut Live, command: &LiveCommand) -> LiveReply
    ensures { DecidesCommand live.old live.new (command_told command.now) result }
{
    match command {
        LiveCommand::Fail { group } => live.fail(group),
        LiveCommand::Repair => live.repair(),
        LiveCommand::Lights => live.lights(),
        LiveCommand::Exposed => match live.exposed() {
            Ok(reply) => reply,
            Err(_) => LiveReply::Memory,
        },
        LiveCommand::Audit { name } => live.audit(name),
        LiveCommand::Quit => LiveReply::Bye,
    }
}

// The reply to a line.
fn reply_to(live: &mut Live, line: &[u8]) -> LiveReply
    ensures { Decides live.old live.new line.now result }
{
    if line.len() > LONGEST_LINE {
        return LiveReply::Line {
            at: LONGEST_LINE as u16,
        };
    }
    match read_live(line) {
        Ok(command) => reply_to_command(live, &command),
        Err(fault) => LiveReply::Line { at: fault.at },
    }
}

// Whether the run goes on behind the line.
fn flow_behind(line: &[u8]) -> Flow
    ensures { GoesOn result line.now }
{
    if line == b"quit".as_slice() {
        Flow::Ended
    } else {
        Flow::On
    }
}

/// Answers one line, without its byte 10: lets the group fail or work again that it asks for, and gives the reply. Only
/// `exposed` may want memory; its answer is then `memory`. After a failure of the sink a part of the reply was given, and
/// not all, and the group that has failed is that of the answer.
pub(crate) fn answer_live<K: Sink>(
    live: &mut Live,
    line: &[u8],
    out: &mut K,
) -> Result<Flow, Failed>
    ensures told { GivesAnswer live.old live.new line.now (K.given out.old) (K.given out.new) result }
    ensures stands { Stands (K.standing out.old) (K.standing out.new) result }
{
    let reply = reply_to(live, line);
    match write_live(&reply, live, out) {
        Ok(()) => Ok(flow_behind(line)),
        Err(Failed) => Err(Failed),
    }
}
