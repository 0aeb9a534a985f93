//! What the commands that move a service come to.
ghost use Rattle.std.specs.Prelude.{◌≡◌, IsTrue, IfOk};
ghost use Rattle.std.specs.Ordering.{int_eq};
ghost use Rattle.eon_model.specs.Network.{Network};
ghost use Rattle.eon_model.specs.Legal.{Legal};
ghost use Rattle.eon_model.specs.NetworkText.{is_setup};
ghost use Rattle.eon_model.specs.EventText.{is_state};
ghost use Rattle.eon_model.specs.CommandText.{is_command};
ghost use Rattle.eon_model.specs.Commands.{Command as asked};
ghost use Rattle.eon_model.specs.Events as events;
ghost use Rattle.eon_model.specs.Step as step;
ghost use Rattle.push_rule.specs.Told.{push_told, finish_told, back_told};
ghost use Rattle.make_rule.specs.Told.{make_told, refit_told, IfStarted};
ghost use Rattle.plan_core.specs.Told.{outcome_told};
ghost use Rattle.plan_core.specs.Waiting.{IsPrepared, IfChange};

use crate::proposal::{Prepared, Proposal, change, make, say};
use eon_base::name::Name;
use eon_model::Part;
use journal_record::Event;
use kept_routes::KeptRoutes;
use leg_state::Services;
use make_rule::{Make, Refit};
use net_setup::NetSetup;
use push_rule::{End, Push};
use reply_text::Reply;
use std::alloc::{AllocError, Global};

// What was decided of a push.
fn pushed(name: &Name, decided: Push) -> Proposal
    ensures is { outcome_told result.decision ≡ push_told name.now decided }
    ensures nothing { result.prepared ≡ Prepared.Nothing }
    ensures prepared { (net : Network) → IsPrepared net result.decision result.prepared }
{
    let name = *name;
    match decided {
        Push::Unknown => say(Reply::Unknown { name }),
        Push::Busy => say(Reply::Busy { name }),
        Push::Same => say(Reply::Same { name }),
        Push::Band => say(Reply::Band { part: Part::Work }),
        Push::Clash { name } => say(Reply::Clash { name }),
        Push::Done { from, to } => {
            change(Event::Push { name, to }, Reply::Pushed { name, from, to })
        }
    }
}

/// What `push` comes to.
pub fn push(setup: &NetSetup, services: &Services, name: &Name, n: i16) -> Proposal
    ensures is { outcome_told result.decision ≡ step.push setup.now services.now.list name.now n }
    ensures nothing { result.prepared ≡ Prepared.Nothing }
    ensures prepared { (net : Network) → IsPrepared net result.decision result.prepared }
{
    pushed(name, push_rule::push(services, &setup.band, name, n))
}

/// What `finish` comes to.
pub fn finish(services: &Services, name: &Name) -> Proposal
    ensures is { outcome_told result.decision ≡ step.finish services.now.list name.now }
    ensures nothing { result.prepared ≡ Prepared.Nothing }
    ensures prepared { (net : Network) → IsPrepared net result.decision result.prepared }
{
    let decided = push_rule::finish(services, name);
    let name = *name;
    match decided {
        End::Unknown => say(Reply::Unknown { name }),
        End::Idle => say(Reply::Idle { name }),
        End::Done => change(Event::Finish { name }, Reply::Finished { name }),
    }
}

/// What `back` comes to.
pub fn back(services: &Services, name: &Name) -> Proposal
    ensures is { outcome_told result.decision ≡ step.back services.now.list name.now }
    ensures nothing { result.prepared ≡ Prepared.Nothing }
    ensures prepared { (net : Network) → IsPrepared net result.decision result.prepared }
{
    let decided = push_rule::back(services, name);
    let name = *name;
    match decided {
        End::Unknown => say(Reply::Unknown { name }),
        End::Idle => say(Reply::Idle { name }),
        End::Done => change(Event::Back { name }, Reply::Backed { name }),
    }
}

// Whether the two centres are one.
fn is_same(from: i16, to: i16) -> bool
    ensures { result ≡ int_eq from to }
{
    from == to
}

// What a refit from a centre to another comes to: to the same one there is no change.
fn refitted(name: Name, from: i16, to: i16) -> Proposal
    ensures is { outcome_told result.decision ≡ step.refit_from name from to }
    ensures nothing { result.prepared ≡ Prepared.Nothing }
    ensures prepared { (net : Network) → IsPrepared net result.decision result.prepared }
{
    let reply = Reply::Refitted { name, from, to };
    if is_same(from, to) {
        return say(reply);
    }
    change(Event::Refit { name, n: to }, reply)
}

// What was decided of a refit.
fn refit_decided(name: &Name, decided: Refit) -> Proposal
    ensures is { outcome_told result.decision ≡ refit_told name.now decided }
    ensures nothing { result.prepared ≡ Prepared.Nothing }
    ensures prepared { (net : Network) → IsPrepared net result.decision result.prepared }
{
    let name = *name;
    match decided {
        Refit::Unknown => say(Reply::Unknown { name }),
        Refit::Busy => say(Reply::Busy { name }),
        Refit::Bare => say(Reply::Bare { name }),
        Refit::Dual => say(Reply::Dual { name }),
        Refit::Done { from, to } => refitted(name, from, to),
    }
}

/// What `refit` comes to.
pub fn refit(setup: &NetSetup, services: &Services, name: &Name) -> Proposal
    requires { Legal setup.now services.now.list }
    ensures is { outcome_told result.decision ≡ step.refit setup.now services.now.list name.now }
    ensures nothing { result.prepared ≡ Prepared.Nothing }
    ensures prepared { (net : Network) → IsPrepared net result.decision result.prepared }
{
    refit_decided(name, make_rule::refit(services, &setup.band, name))
}

// What was decided of a make.
fn made(name: &Name, decided: Make) -> Proposal
    requires { IfChange (make_told name.now decided) }
    ensures is { outcome_told result.decision ≡ make_told name.now decided }
    ensures prepared { (net : Network) → IfStarted decided (λ leg. events.leg_told net (events.leg_text_of leg) ≡ leg) → IsPrepared net result.decision result.prepared }
{
    let name = *name;
    match decided {
        Make::Unknown { name } => say(Reply::Unknown { name }),
        Make::Busy => say(Reply::Busy { name }),
        Make::NoRoute => say(Reply::NoRoute),
        Make::Blocked { pairs } => say(Reply::Blocked { pairs }),
        Make::Started { class, leg } => make(name, class, leg, Reply::Made { name }),
    }
}

/// What `make` comes to.
pub fn second_leg(
    alloc: Global,
    kept: &mut KeptRoutes,
    setup: &NetSetup,
    services: &Services,
    name: &Name,
    avoid: &Option<Name>,
) -> Result<Proposal, AllocError>
    requires same { kept.old ≡ setup.now }
    requires in_range { IsTrue (is_setup setup.now) }
    requires named { IsTrue (is_state services.now.list) }
    requires legal { Legal setup.now services.now.list }
    requires right { IsTrue (is_command (asked.Make name.now avoid.now)) }
    ensures is { IfOk result (λ p. outcome_told p.decision ≡ step.make setup.now services.now.list name.now avoid.now) }
    ensures prepared { IfOk result (λ p. IsPrepared setup.now.network p.decision p.prepared) }
    ensures same { kept.new ≡ kept.old }
{
    let decided = make_rule::make(alloc, kept, setup, services, name, avoid)?;
    Ok(made(name, decided))
}
