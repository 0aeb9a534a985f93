//! What the end of a move comes to.

ghost use Rattle.std.specs.Prelude.{◌≡◌};
ghost use Rattle.eon_model.specs.Step as step;
ghost use Rattle.push_rule.specs.Told.{finish_told, back_told};

use crate::answers::End;
use eon_base::name::Name;
use leg_state::Services;

// Whether the service of this name moves, where there is one.
fn end(services: &Services, name: &Name) -> End
    ensures finish { finish_told name.now result ≡ step.finish services.now.list name.now }
    ensures back { back_told name.now result ≡ step.back services.now.list name.now }
{
    let Some(service) = services.find(name) else {
        return End::Unknown;
    };
    if service.is_moving() {
        End::Done
    } else {
        End::Idle
    }
}

/// What becomes of `finish`: a service that drifts stands at the centre that it drifts to, and of one that is making
/// the new leg alone is left.
pub fn finish(services: &Services, name: &Name) -> End
    ensures { finish_told name.now result ≡ step.finish services.now.list name.now }
{
    end(services, name)
}

/// What becomes of `back`: the target of a service that drifts, or the new leg of one that is making, is given up.
pub fn back(services: &Services, name: &Name) -> End
    ensures { back_told name.now result ≡ step.back services.now.list name.now }
{
    end(services, name)
}
