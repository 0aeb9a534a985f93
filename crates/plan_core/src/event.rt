//! Services and legs as events tell them.
ghost use Rattle.std.specs.Prelude.{◌≡◌};
ghost use Rattle.eon_model.specs.Events as events;
ghost use Rattle.journal_record.specs.Told.{path_told, leg_told, enter_told};
ghost use Rattle.plan_core.specs.Waiting.{IsNumbered, IsNumberedLeg};

use journal_record::{EnterText, LegText, PathText};
use leg_state::{FibreNumbers, Leg, Path, Service};

// The path by the numbers of its fibres.
fn path_text(path: &Path) -> PathText
    requires { IsNumbered path.now }
    ensures { path_told result ≡ events.path_text_of path.now }
{
    PathText {
        fibres: FibreNumbers::make(path.route.fibres()),
        slot: path.slot,
    }
}

/// The leg, which stands still, by the numbers of its fibres.
pub fn leg_text(leg: &Leg) -> LegText
    requires { IsNumberedLeg leg.now }
    ensures { leg_told result ≡ events.leg_text_of leg.now }
{
    let back = match &leg.back {
        Some(path) => Some(path_text(path)),
        None => None,
    };
    LegText {
        work: path_text(&leg.work),
        back,
    }
}

/// The service, whose leg stands still, by the numbers of its fibres.
pub fn enter_text(service: &Service) -> EnterText
    requires { IsNumberedLeg service.now.leg }
    ensures { enter_told result ≡ events.enter_text_of service.now }
{
    EnterText {
        name: service.name,
        src: service.src,
        dst: service.dst,
        rate: service.rate,
        class: service.class,
        leg: leg_text(&service.leg),
    }
}
