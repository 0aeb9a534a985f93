//! Reading a line.
ghost use Rattle.std.specs.Prelude.{◌≡◌, ◌≤◌, ◌-◌, length, IfOk, IfErr};
ghost use Rattle.eon_model.specs.LiveCommands.{IsLiveLineOf, IsLiveLine, IsLiveFaultPlace};
ghost use Rattle.live_failure.specs.Lines.{rest_at, command_at};
ghost use Rattle.live_failure.specs.Given.{Gives, Leaves};
ghost use Rattle.live_failure.specs.Told.{command_told};

use crate::command::{LiveCommand, LiveFault};
use crate::part::{Fields, Stuck};
use crate::verb::{Verb, verb_at};

// What follows the verb.
#[tactic(auto, unfolding(crate::specs::Lines::rest_at))]
fn rest_at(verb: Verb, fields: &mut Fields) -> Result<LiveCommand, Stuck>
    ensures { Leaves command_told result fields.new.rest.now (rest_at verb fields.old.rest.now) }
{
    match verb {
        Verb::Fail => fields.name().map(|group| LiveCommand::Fail { group }),
        Verb::Repair => Ok(LiveCommand::Repair),
        Verb::Lights => Ok(LiveCommand::Lights),
        Verb::Exposed => Ok(LiveCommand::Exposed),
        Verb::Audit => fields.name().map(|name| LiveCommand::Audit { name }),
        Verb::Quit => Ok(LiveCommand::Quit),
    }
}

// The command of the line; else how many bytes are left from the place on where no line goes on.
fn command_at(line: &[u8]) -> Result<LiveCommand, Stuck>
    ensures { Gives command_told result (command_at line.now) }
{
    let (verb, rest) = verb_at(line)?;
    let mut fields = Fields { rest };
    let command = rest_at(verb, &mut fields)?;
    if !fields.is_done() {
        return Err(Stuck {
            left: fields.rest.len(),
        });
    }
    Ok(command)
}

/// The command whose line this is, without the byte that ends it. Where there is none, the number of
/// bytes of the longest front with which some line of the grammar begins. A line has at most 4,096 bytes.
pub fn read_live(line: &[u8]) -> Result<LiveCommand, LiveFault>
    requires { length line.now ≤ 4096 }
    ensures ok { IfOk result (λ c. IsLiveLineOf line.now (command_told c)) }
    ensures err { IfErr result (λ f. (¬ IsLiveLine line.now) × IsLiveFaultPlace line.now f.at) }
{
    match command_at(line) {
        Ok(command) => Ok(command),
        Err(stuck) => Err(LiveFault {
            at: (line.len() - stuck.left) as u16,
        }),
    }
}
