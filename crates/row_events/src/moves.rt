//! Legs that move.

ghost use Rattle.std.specs.Prelude.{◌≡◌, Some};
ghost use Rattle.std.specs.Option.{unwrap_or};
ghost use Rattle.eon_model.specs.Events.{Event as events};
ghost use Rattle.eon_model.specs.Grid.{units_of, moved_to};
ghost use Rattle.eon_model.specs.Services.{drift_units};
ghost use Rattle.row_events.specs.RowEvents.{MayChange, HasChanged};

use kept_rows::KeptRows;
use leg_state::holding::{Span, path_span};
use leg_state::{Leg, Path, Service};

// All units that the channel of the path drifts over on its way to the centre.
fn way_to(path: &Path, to: i16) -> Span
    ensures { result ≡ drift_units path.now.slot (Some to) }
{
    path_span(path).hull(&Span::around(to, &path.slot))
}

// The units of the channel where its drift ends; those where it stands, if it does not drift.
fn target_span(leg: &Leg) -> Span
    ensures { result ≡ units_of (moved_to leg.now.work.slot (unwrap_or leg.now.to leg.now.work.slot.n)) }
{
    let work = &leg.work;
    match leg.to {
        Some(to) => Span::around(to, &work.slot),
        None => path_span(work),
    }
}

/// The channel of the service begins to drift to the centre, in units of 6.25 GHz: it takes all units on its way.
pub fn push(rows: &mut KeptRows, service: &Service, to: i16)
    requires { MayChange (λ name. events.Push name to) service.now rows.old }
    ensures { HasChanged (λ name. events.Push name to) service.now rows.old rows.new }
{
    let leg = &service.leg;
    rows.move_channel(leg, &way_to(&leg.work, to));
}

/// The move of the service ends: its old leg goes, or its channel is left with the slot at its target.
pub fn finish(rows: &mut KeptRows, service: &Service)
    requires { MayChange events.Finish service.now rows.old }
    ensures { HasChanged events.Finish service.now rows.old rows.new }
{
    let leg = &service.leg;
    match &service.next {
        Some(_) => rows.leave(service.class, leg),
        None => rows.move_channel(leg, &target_span(leg)),
    }
}

/// The move of the service is given up: its new leg goes, or its channel is left with the slot where it began.
pub fn back(rows: &mut KeptRows, service: &Service)
    requires { MayChange events.Back service.now rows.old }
    ensures { HasChanged events.Back service.now rows.old rows.new }
{
    let leg = &service.leg;
    match &service.next {
        Some(new) => rows.leave(service.class, new),
        None => rows.move_channel(leg, &path_span(&leg.work)),
    }
}

/// The shared backup of the service goes to the centre, in units of 6.25 GHz.
pub fn refit(rows: &mut KeptRows, service: &Service, n: i16)
    requires { MayChange (λ name. events.Refit name n) service.now rows.old }
    ensures { HasChanged (λ name. events.Refit name n) service.now rows.old rows.new }
{
    let leg = &service.leg;
    if let Some(path) = &leg.back {
        rows.move_back(leg, &Span::around(n, &path.slot));
    }
}
