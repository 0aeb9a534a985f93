//! What each command comes to.
ghost use Rattle.std.specs.Prelude.{◌≡◌, false, IsTrue, IsOk, IfOk};
ghost use Rattle.eon_model.specs.Network.{Network};
ghost use Rattle.eon_model.specs.Legal.{Legal};
ghost use Rattle.eon_model.specs.NetworkText.{is_setup};
ghost use Rattle.eon_model.specs.EventText.{is_state};
ghost use Rattle.eon_model.specs.CommandText.{is_command};
ghost use Rattle.eon_model.specs.Step as step;
ghost use Rattle.eon_model.specs.Replies.{Reply as said};
ghost use Rattle.eon_model.specs.Answers.{takes_memory};
ghost use Rattle.command_text.specs.Told.{told};
ghost use Rattle.reply_text.specs.Replied.{reply_told};
ghost use Rattle.plan_core.specs.Compact.{is_compact};
ghost use Rattle.plan_core.specs.Told.{outcome_told};
ghost use Rattle.plan_core.specs.Waiting.{IsPrepared};

use crate::admit::admit;
use crate::demand::Demand;
use crate::listings::{drill, map, report, stats};
use crate::moves::{back, finish, push, refit, second_leg};
use crate::place::place;
use crate::proposal::{Prepared, Proposal, change, say};
use crate::routes::routes_between;
use command_text::Command;
use eon_base::name::Name;
use eon_model::Class;
use journal_record::Event;
use kept_routes::KeptRoutes;
use leg_state::Services;
use net_setup::NetSetup;
use reply_text::Reply;
use std::alloc::{AllocError, Global};

// What `release` comes to.
fn release(services: &Services, name: &Name) -> Proposal
    ensures is { outcome_told result.decision ≡ step.release services.now.list name.now }
    ensures nothing { result.prepared ≡ Prepared.Nothing }
    ensures prepared { (net : Network) → IsPrepared net result.decision result.prepared }
{
    match services.find(name) {
        Some(_) => change(
            Event::Leave { name: *name },
            Reply::Released { name: *name },
        ),
        None => say(Reply::Unknown { name: *name }),
    }
}

// What `show` says.
fn show(services: &Services, name: &Name) -> Reply
    ensures { step.Say (reply_told result) ≡ step.with_service services.now.list name.now (λ s. step.Say (said.Show name.now)) }
{
    match services.find(name) {
        Some(_) => Reply::Show { name: *name },
        None => Reply::Unknown { name: *name },
    }
}

// The service that these words ask for.
fn demand_of(name: &Name, src: &Name, dst: &Name, rate: u32, class: Class) -> Demand
    ensures { result ≡ record { name = name.now; src = src.now; dst = dst.now; rate = rate; class = class } }
{
    Demand {
        name: *name,
        src: *src,
        dst: *dst,
        rate,
        class,
    }
}

/// What a command comes to, but `compact`.
pub fn proposal_for(
    alloc: Global,
    kept: &mut KeptRoutes,
    setup: &NetSetup,
    services: &Services,
    command: &Command,
) -> Result<Proposal, AllocError>
    requires same { kept.old ≡ setup.now }
    requires setup { IsTrue (is_setup setup.now) }
    requires named { IsTrue (is_state services.now.list) }
    requires legal { Legal setup.now services.now.list }
    requires in_range { IsTrue (is_command (told command.now)) }
    requires other { is_compact (told command.now) ≡ false }
    ensures is { IfOk result (λ p. outcome_told p.decision ≡ step.outcome_of setup.now services.now.list (told command.now)) }
    ensures prepared { IfOk result (λ p. IsPrepared setup.now.network p.decision p.prepared) }
    ensures no_memory { takes_memory (told command.now) ≡ false → IfOk result (λ p. p.prepared ≡ Prepared.Nothing) }
    ensures answered { takes_memory (told command.now) ≡ false → IsOk result }
    ensures same { kept.new ≡ kept.old }
{
    match command {
        Command::Place {
            name,
            src,
            dst,
            rate,
            class,
            work,
            work_n,
            back,
        } => {
            let demand = demand_of(name, src, dst, *rate, *class);
            place(alloc, setup, services, &demand, work, *work_n, back)
        }
        Command::Admit {
            name,
            src,
            dst,
            rate,
            class,
        } => {
            let demand = demand_of(name, src, dst, *rate, *class);
            admit(alloc, kept, setup, services, &demand)
        }
        Command::Release { name } => Ok(release(services, name)),
        Command::Push { name, n } => Ok(push(setup, services, name, *n)),
        Command::Make { name, avoid } => second_leg(alloc, kept, setup, services, name, avoid),
        Command::Finish { name } => Ok(finish(services, name)),
        Command::Back { name } => Ok(back(services, name)),
        Command::Refit { name } => Ok(refit(setup, services, name)),
        Command::Show { name } => Ok(say(show(services, name))),
        Command::List => Ok(say(Reply::List)),
        Command::Map { fibre } => Ok(say(map(alloc, setup, services, fibre)?)),
        Command::Stats => Ok(say(stats(setup, services))),
        Command::Report => Ok(say(report(alloc, setup, services)?)),
        Command::Drill { group } => Ok(say(drill(alloc, setup, services, group)?)),
        Command::Routes { src, dst } => Ok(say(routes_between(alloc, kept, setup, src, dst)?)),
        Command::Quit => Ok(say(Reply::Bye)),
        Command::Compact => unreachable!(),
    }
}
