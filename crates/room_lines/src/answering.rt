//! What is answered to one line.
ghost use Rattle.std.specs.Prelude.{◌≡◌, IsTrue};
ghost use Rattle.eon_model.specs.RoomCommands.{is_room_command};
ghost use Rattle.eon_outside.specs.Faults.{Stands};
ghost use Rattle.line_session.specs.Answering.{GoesOn};
ghost use Rattle.room_lines.specs.Setting.{Decides, DecidesCommand, GivesAnswer};
ghost use Rattle.room_lines.specs.Told.{command_told};

use crate::command::RoomCommand;
use crate::reading::read_room;
use crate::reply::RoomReply;
use crate::rooms::Rooms;
use crate::writing::write_room;
use eon_outside::{Failed, Sink};
use line_session::Flow;

/// The most bytes of a line.
const LONGEST_LINE: usize = 4096;

// The reply to a command.
fn reply_to_command(rooms: &Rooms, command: &RoomCommand) -> RoomReply
    requires { IsTrue (is_room_command (command_told command.now)) }
    ensures { DecidesCommand rooms.now (command_told command.now) result }
{
    match command {
        RoomCommand::Room(question) => match rooms.room(question) {
            Ok(reply) => reply,
            Err(_) => RoomReply::Memory,
        },
        RoomCommand::Quit => RoomReply::Bye,
    }
}

// The reply to a line.
fn reply_to(rooms: &Rooms, line: &[u8]) -> RoomReply
    ensures { Decides rooms.now line.now result }
{
    if line.len() > LONGEST_LINE {
        return RoomReply::Line {
            at: LONGEST_LINE as u16,
        };
    }
    match read_room(line) {
        Ok(command) => reply_to_command(rooms, &command),
        Err(fault) => RoomReply::Line { at: fault.at },
    }
}

// Whether the run goes on behind the line.
fn flow_behind(line: &[u8]) -> Flow
    ensures { GoesOn result line.now }
{
    if line == b"quit".as_slice() {
        Flow::Ended
    } else {
        Flow::On
    }
}

// Answers one line, without its byte 10. After a failure of the sink a part of the reply was given, and not all.
pub(crate) fn answer_room<K: Sink>(rooms: &Rooms, line: &[u8], out: &mut K) -> Result<Flow, Failed>
    ensures told { GivesAnswer rooms.now line.now (K.given out.old) (K.given out.new) result }
    ensures stands { Stands (K.standing out.old) (K.standing out.new) result }
{
    let reply = reply_to(rooms, line);
    match write_room(&reply, out) {
        Ok(()) => Ok(flow_behind(line)),
        Err(Failed) => Err(Failed),
    }
}
