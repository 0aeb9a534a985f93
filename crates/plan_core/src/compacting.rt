//! What `compact` says.
ghost use Rattle.std.specs.Prelude.{◌≡◌, false, IsTrue, IsOk, IfOk};
ghost use Rattle.eon_model.specs.Legal.{Legal};
ghost use Rattle.eon_model.specs.NetworkText.{is_setup};
ghost use Rattle.eon_model.specs.EventText.{is_state};
ghost use Rattle.eon_model.specs.CommandText.{is_command};
ghost use Rattle.eon_model.specs.Step as step;
ghost use Rattle.eon_model.specs.Answers.{Gives, said, takes_memory};
ghost use Rattle.command_text.specs.Told.{told};
ghost use Rattle.reply_text.specs.Replied.{reply_told};
ghost use Rattle.plan_core.specs.Compact.{is_compact};
ghost use Rattle.plan_core.specs.Proposed.{IsProposed};

use crate::dispatch::proposal_for;
use crate::proposal::{Prepared, Proposal, say};
use command_text::Command;
use compact_plan::{Compact, compact};
use kept_routes::KeptRoutes;
use leg_state::Services;
use net_setup::NetSetup;
use plan_batches::batches;
use reply_text::Reply;
use std::alloc::{AllocError, Global};

// What `compact` says: the first service that moves, or else the plan.
fn plan(alloc: Global, setup: &NetSetup, services: &Services) -> Result<Reply, AllocError>
    requires in_range { IsTrue (is_setup setup.now) }
    requires legal { Legal setup.now services.now.list }
    ensures { IfOk result (λ r. Gives setup.now services.now.list (step.compact services.now.list) (said (reply_told r))) }
{
    match compact(alloc, services, &setup.band)? {
        Compact::Busy { name } => Ok(Reply::Busy { name }),
        Compact::Lowest(targets) => {
            let plan = batches(alloc, services, targets)?;
            Ok(Reply::Plan { plan })
        }
    }
}

// Whether the command asks for the plan.
fn is_compact(command: &Command) -> bool
    ensures { result ≡ is_compact (told command.now) }
{
    matches!(command, Command::Compact)
}

/// What a command comes to.
pub fn propose(
    alloc: Global,
    kept: &mut KeptRoutes,
    setup: &NetSetup,
    services: &Services,
    command: &Command,
) -> Result<Proposal, AllocError>
    requires same { kept.old ≡ setup.now }
    requires setup { IsTrue (is_setup setup.now) }
    requires named { IsTrue (is_state services.now.list) }
    requires legal { Legal setup.now services.now.list }
    requires in_range { IsTrue (is_command (told command.now)) }
    ensures proposed { IfOk result (IsProposed setup.now services.now.list (told command.now)) }
    ensures no_memory { takes_memory (told command.now) ≡ false → IfOk result (λ p. p.prepared ≡ Prepared.Nothing) }
    ensures answered { takes_memory (told command.now) ≡ false → IsOk result }
    ensures same { kept.new ≡ kept.old }
{
    if is_compact(command) {
        let reply = plan(alloc, setup, services)?;
        return Ok(say(reply));
    }
    proposal_for(alloc, kept, setup, services, command)
}
