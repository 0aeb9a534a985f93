//! What is decided on a line.
ghost use Rattle.std.specs.Prelude.{◌≡◌, ◌≤◌, ℕ, List, length, Some, IfSome, IsTrue};
ghost use Rattle.eon_model.specs.CommandText.{is_command, IsLineOf};
ghost use Rattle.eon_model.specs.EventText.{is_event};
ghost use Rattle.command_text.specs.Told.{told};
ghost use Rattle.journal_record.specs.Told.{event_told};
ghost use Rattle.plan_core.specs.Told.{event_of};
ghost use Rattle.line_session.specs.Answering.{GoesOn};
ghost use Rattle.planner_lines.specs.Deciding.{Decided};

use command_text::{Command, read_command};
use line_session::Flow;
use plan_core::{Core, Decision};
use reply_text::Reply;

/// The most bytes of a command line.
const LONGEST_LINE: usize = 4096;

// What the command comes to, on each line that is one of it. A change waits.
fn decide_command(core: &mut Core, command: &Command) -> Decision
    requires in_range { IsTrue (is_command (told command.now)) }
    ensures setup { core.new.setup ≡ core.old.setup }
    ensures state { core.new.state ≡ core.old.state }
    ensures decided { (line : List ℕ) → length line ≤ 4096 → IsLineOf line (told command.now) → Decided core.old.setup core.old.state line result }
    ensures waits { IfSome (event_of result) (λ e. core.new.waiting ≡ Some e) }
    ensures event { IfSome (event_of result) (λ e. IsTrue (is_event (event_told e))) }
{
    match core.step(command) {
        Ok(decision) => decision,
        Err(_) => Decision::Say(Reply::Memory),
    }
}

/// What the line comes to. A change waits, and is neither kept nor made.
pub(crate) fn decide(core: &mut Core, line: &[u8]) -> Decision
    ensures setup { core.new.setup ≡ core.old.setup }
    ensures state { core.new.state ≡ core.old.state }
    ensures decided { Decided core.old.setup core.old.state line.now result }
    ensures waits { IfSome (event_of result) (λ e. core.new.waiting ≡ Some e) }
    ensures event { IfSome (event_of result) (λ e. IsTrue (is_event (event_told e))) }
{
    if line.len() > LONGEST_LINE {
        return Decision::Say(Reply::Line {
            at: LONGEST_LINE as u16,
        });
    }
    match read_command(line) {
        Ok(command) => decide_command(core, &command),
        Err(fault) => Decision::Say(Reply::Line { at: fault.at }),
    }
}

/// Whether the run goes on behind the line.
pub(crate) fn flow_behind(line: &[u8]) -> Flow
    ensures { GoesOn result line.now }
{
    if line == b"quit".as_slice() {
        Flow::Ended
    } else {
        Flow::On
    }
}
