//! Whether an event that moves a channel or a backup can follow the state.
ghost use Rattle.std.specs.Prelude.{◌≡◌, ◌&&◌, not, IsTrue};
ghost use Rattle.std.specs.Ordering.{int_eq};
ghost use Rattle.eon_model.specs.Legal.{Legal, is_shared};
ghost use Rattle.eon_model.specs.Services.{is_moving};
ghost use Rattle.eon_model.specs.NetworkText.{is_setup};
ghost use Rattle.eon_model.specs.Events.{Event as change};
ghost use Rattle.eon_model.specs.Replay.{can_follow};
ghost use Rattle.push_rule.specs.Told.{push_told};
ghost use Rattle.plan_core.specs.Following.{is_change, back_may_move};

use eon_base::name::Name;
use leg_state::{PathView, Service, Services};
use make_rule::refitting::stands_at;
use net_setup::NetSetup;
use push_rule::Push;

// Whether the push is made.
fn is_done(name: &Name, push: Push) -> bool
    ensures { result ≡ is_change (push_told name.now push) }
{
    matches!(push, Push::Done { .. })
}

/// Whether the channel of the service of this name may begin to move to the centre.
pub fn may_push(setup: &NetSetup, services: &Services, name: &Name, to: i16) -> bool
    requires { Legal setup.now services.now.list }
    ensures { result ≡ can_follow setup.now services.now.list (change.Push name.now to) }
{
    is_done(name, push_rule::push(services, &setup.band, name, to))
}

// Whether the backup stands at this centre.
fn is_at(back: &PathView, n: i16) -> bool
    ensures { result ≡ int_eq n back.now.slot.n }
{
    n == back.slot.n()
}

// The backup of the service, as it stands.
fn backup_of(service: &Service) -> Option<PathView<'_>>
    ensures { result ≡ service.now.leg.back }
{
    service.leg.back_view()
}

// Whether the backup of the service may go to the centre, which is another one.
fn backup_may_move(
    setup: &NetSetup,
    services: &Services,
    name: &Name,
    service: &Service,
    n: i16,
) -> bool
    ensures { result ≡ back_may_move services.now.list setup.now.band name.now n service.now }
{
    match backup_of(service) {
        Some(back) => {
            !is_at(&back, n) && stands_at(services, &setup.band, name, service, &back, n)
        }
        None => false,
    }
}

// Whether the service is at rest, and its backup is shared.
fn is_refittable(service: &Service) -> bool
    ensures { result ≡ (not (is_moving service.now) && is_shared service.now.class) }
{
    !service.is_moving() && service.class.shared()
}

/// Whether the dark backup of the service of this name may go to the centre.
pub fn may_refit(setup: &NetSetup, services: &Services, name: &Name, n: i16) -> bool
    requires in_range { IsTrue (is_setup setup.now) }
    requires legal { Legal setup.now services.now.list }
    ensures { result ≡ can_follow setup.now services.now.list (change.Refit name.now n) }
{
    let Some(service) = services.find(name) else {
        return false;
    };
    if !is_refittable(service) {
        return false;
    }
    backup_may_move(setup, services, name, service, n)
}
