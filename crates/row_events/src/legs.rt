//! Legs that come and go.

ghost use Rattle.std.specs.Prelude.{◌≡◌, Some};
ghost use Rattle.eon_model.specs.Events.{Event as events};
ghost use Rattle.row_events.specs.RowEvents.{MayEnter, HasEntered, MayMake, IsMaking, MayChange, HasChanged};

use kept_rows::KeptRows;
use leg_state::{Leg, Service};

/// A service enters: its leg comes.
pub fn enter(rows: &mut KeptRows, service: &Service)
    requires { MayEnter service.now rows.old }
    ensures { HasEntered service.now rows.old rows.new }
{
    rows.enter(service.class, &service.leg);
}

// Both legs of a service that is making go, the new one first.
fn leave_both(rows: &mut KeptRows, service: &Service, new: &Leg)
    requires new { service.now.next ≡ Some new.now }
    requires leaves { MayChange events.Leave service.now rows.old }
    ensures { HasChanged events.Leave service.now rows.old rows.new }
{
    rows.leave(service.class, new);
    rows.leave(service.class, &service.leg);
}

/// The service leaves: its legs go.
pub fn leave(rows: &mut KeptRows, service: &Service)
    requires { MayChange events.Leave service.now rows.old }
    ensures { HasChanged events.Leave service.now rows.old rows.new }
{
    match &service.next {
        Some(new) => leave_both(rows, service, new),
        None => rows.leave(service.class, &service.leg),
    }
}

/// A second leg of the service comes beside the first.
pub fn make(rows: &mut KeptRows, service: &Service, leg: &Leg)
    requires { MayMake leg.now service.now rows.old }
    ensures { IsMaking leg.now service.now rows.old rows.new }
{
    rows.enter(service.class, leg);
}
