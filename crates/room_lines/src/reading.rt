//! Reading a line.
ghost use Rattle.std.specs.Prelude.{◌≡◌, ◌≤◌, ◌-◌, length, IfOk, IfErr};
ghost use Rattle.eon_model.specs.RoomCommands.{IsRoomLineOf, IsRoomLine, IsRoomFaultPlace};
ghost use Rattle.command_text.specs.Given.{Gives, Leaves};
ghost use Rattle.room_lines.specs.Lines.{question_at, rest_at, command_at};
ghost use Rattle.room_lines.specs.Told.{question_told, command_told};

use crate::command::{Question, RoomCommand, RoomFault};
use crate::verb::{Verb, verb_at};
use command_text::{Fields, Stuck};

// What follows the word of a question.
#[tactic(auto, unfolding(crate::specs::Lines::question_at, command_text::specs::Lines::path_at))]
fn question_at<'a>(fields: &mut Fields<'a>) -> Result<Question<'a>, Stuck>
    ensures { Leaves question_told result fields.new.rest.now (question_at fields.old.rest.now) }
{
    let src = fields.name()?;
    let dst = fields.name()?;
    let rate = fields.rate()?;
    let fibres = fields.fibres()?;
    let n = fields.centre()?;
    Ok(Question {
        src,
        dst,
        rate,
        fibres,
        n,
    })
}

// What follows the verb.
#[tactic(auto, unfolding(crate::specs::Lines::rest_at))]
fn rest_at<'a>(verb: Verb, fields: &mut Fields<'a>) -> Result<RoomCommand<'a>, Stuck>
    ensures { Leaves command_told result fields.new.rest.now (rest_at verb fields.old.rest.now) }
{
    match verb {
        Verb::Room => question_at(fields).map(|question| RoomCommand::Room(question)),
        Verb::Quit => Ok(RoomCommand::Quit),
    }
}

// The command of the line; else how many bytes are left from the place on where no line goes on.
fn command_at(line: &[u8]) -> Result<RoomCommand<'_>, Stuck>
    ensures { Gives command_told result (command_at line.now) }
{
    let (verb, rest) = verb_at(line)?;
    let mut fields = Fields { rest };
    let command = rest_at(verb, &mut fields)?;
    if !fields.is_done() {
        return Err(Stuck {
            left: fields.rest.len(),
        });
    }
    Ok(command)
}

/// The command whose line this is, without the byte that ends it. Where there is none, the number of
/// bytes of the longest front with which some line of the grammar begins. A line has at most 4,096 bytes.
pub fn read_room(line: &[u8]) -> Result<RoomCommand<'_>, RoomFault>
    requires { length line.now ≤ 4096 }
    ensures ok { IfOk result (λ c. IsRoomLineOf line.now (command_told c)) }
    ensures err { IfErr result (λ f. (¬ IsRoomLine line.now) × IsRoomFaultPlace line.now f.at) }
{
    match command_at(line) {
        Ok(command) => Ok(command),
        Err(stuck) => Err(RoomFault {
            at: (line.len() - stuck.left) as u16,
        }),
    }
}
