//! Whether an event that is told can follow the state, and what it needs then.
ghost use Rattle.std.specs.Prelude.{◌≡◌, false, IsTrue, IsOk, IfOk};
ghost use Rattle.std.specs.Bool.{then_some};
ghost use Rattle.eon_model.specs.Legal.{Legal};
ghost use Rattle.eon_model.specs.NetworkText.{is_setup};
ghost use Rattle.eon_model.specs.EventText.{is_event, is_state};
ghost use Rattle.eon_model.specs.Replay.{can_follow, service_allows};
ghost use Rattle.eon_model.specs.Services.{is_moving};
ghost use Rattle.journal_record.specs.Told.{event_told};
ghost use Rattle.plan_core.specs.Waiting.{needed};
ghost use Rattle.plan_core.specs.Following.{brings_leg};

use crate::follow_leg::{entering, making};
use crate::follow_move::{may_push, may_refit};
use crate::proposal::Prepared;
use crate::refusal::is_taken;
use eon_base::name::Name;
use journal_record::Event;
use leg_state::Services;
use net_setup::NetSetup;
use std::alloc::{AllocError, Global};

/// Why an event was not followed.
#[derive(Clone, Copy, Debug, PartialEq, Eq)]
pub enum CannotFollow {
    /// It cannot follow the state.
    NotNow,
    /// Memory was wanted.
    Memory,
}

impl From<AllocError> for CannotFollow {
    ghost use Rattle.plan_core.specs.declared.follow.CannotFollow.TheVariants.{Memory};

    ghost from_gives = { λ _ e. e ≡ Memory };

    fn from(_error: AllocError) -> CannotFollow {
        CannotFollow::Memory
    }
}

// What a change that needs nothing needs, where it can be made.
fn nothing_if(can: bool) -> Option<Prepared>
    ensures { result ≡ then_some can Prepared.Nothing }
{
    can.then_some(Prepared::Nothing)
}

// Whether a service has the name, and moves.
fn moves(services: &Services, name: &Name) -> bool
    ensures { result ≡ service_allows services.now.list name.now is_moving }
{
    match services.find(name) {
        Some(service) => service.is_moving(),
        None => false,
    }
}

/// What the event needs, exactly where it can follow the state; None where it cannot.
pub fn needed_by(
    alloc: Global,
    setup: &NetSetup,
    services: &Services,
    event: &Event,
) -> Result<Option<Prepared>, AllocError>
    requires setup { IsTrue (is_setup setup.now) }
    requires named { IsTrue (is_state services.now.list) }
    requires legal { Legal setup.now services.now.list }
    requires in_range { IsTrue (is_event (event_told event.now)) }
    ensures is { IfOk result (λ q. q ≡ then_some (can_follow setup.now services.now.list (event_told event.now)) (needed setup.now.network (event_told event.now))) }
    ensures answered { brings_leg (event_told event.now) ≡ false → IsOk result }
{
    match event {
        Event::Enter { service } => entering(alloc, setup, services, service),
        Event::Leave { name } => Ok(nothing_if(is_taken(services, name))),
        Event::Push { name, to } => Ok(nothing_if(may_push(setup, services, name, *to))),
        Event::Finish { name } => Ok(nothing_if(moves(services, name))),
        Event::Back { name } => Ok(nothing_if(moves(services, name))),
        Event::Make { name, class, leg } => making(alloc, setup, services, name, *class, leg),
        Event::Refit { name, n } => Ok(nothing_if(may_refit(setup, services, name, *n))),
        Event::Bind { .. } => Ok(nothing_if(true)),
    }
}
