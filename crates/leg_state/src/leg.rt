//! Paths and legs.

ghost use Rattle.std.specs.Prelude.{◌≡◌, Some, None, IsTrue};
ghost use Rattle.eon_model.specs.Changes.{path_moved, drifting_to, leg_at_target, backup_at};
ghost use Rattle.leg_state.specs.Asks.{can_stand, target_can_stand, backup_can_stand};

use crate::view::{LegView, PathView};
use flex_grid::slot::Slot;
use net_graph::Route;
use std::marker::Model;

/// A route with one slot, the same on each of its fibres. Where it stands it holds the units of the slot
/// on all of them.
#[derive(Drop)]
pub struct Path {
    /// The fibres that it takes, with their length and their risk.
    pub route: Route,
    /// Its centre and its width.
    pub slot: Slot,
}

impl Model for Path {
    ghost use Rattle.eon_model.specs.Services as model;
    ghost use Rattle.eon_model.specs.Codes.{path_code};

    ghost Value = { model.Path };

    ghost coded = { path_code };

    ghost view = { λ p. record { route = p.route; slot = p.slot } };
}

impl Path {
    /// The path as it stands.
    pub fn view(&self) -> PathView<'_>
        ensures { result ≡ self.now }
    {
        PathView {
            route: &self.route,
            slot: self.slot,
        }
    }

    // The slot of the same width at this centre.
    pub(crate) fn move_to(&mut self, n: i16)
        requires { IsTrue (can_stand self.old n) }
        ensures { self.new ≡ path_moved self.old n }
    {
        if let Some(slot) = self.slot.moved(n) {
            self.slot = slot;
        }
    }
}

/// What carries a service: a working path, the centre that its channel drifts to, while it drifts, and a
/// backup path for a protected service.
#[derive(Drop)]
pub struct Leg {
    /// The path of the channel, with the slot in which it stands or from which it drifts.
    pub work: Path,
    /// The centre that the channel drifts to, in units of 6.25 GHz from 193.1 THz. While it drifts it holds
    /// all units from the lowest to the highest of its two slots.
    pub to: Option<i16>,
    /// The path that a protected service takes where its working path fails.
    pub back: Option<Path>,
}

impl Model for Leg {
    ghost use Rattle.eon_model.specs.Services as model;
    ghost use Rattle.eon_model.specs.Codes.{leg_code};

    ghost Value = { model.Leg };

    ghost coded = { leg_code };

    ghost view = { λ l. record { work = l.work; to = l.to; back = l.back } };
}

impl Leg {
    /// The leg as it stands or drifts.
    pub fn view(&self) -> LegView<'_>
        ensures { result ≡ self.now }
    {
        LegView {
            work: self.work.view(),
            to: self.to,
            back: self.back_view(),
        }
    }

    /// Its backup, if there is one, as it stands.
    pub fn back_view(&self) -> Option<PathView<'_>>
        ensures { result ≡ self.now.back }
    {
        match &self.back {
            Some(back) => Some(back.view()),
            None => None,
        }
    }

    // The channel drifts to the centre.
    pub(crate) fn drift_to(&mut self, to: i16)
        ensures { self.new ≡ drifting_to to self.old }
    {
        self.to = Some(to);
    }

    // The channel stands where it drifts to.
    pub(crate) fn end_drift(&mut self)
        requires { IsTrue (target_can_stand self.old) }
        ensures { self.new ≡ leg_at_target self.old }
    {
        if let Some(to) = self.to.take() {
            self.work.move_to(to);
        }
    }

    // The channel drifts no more, and stands where it stood.
    pub(crate) fn stop_drift(&mut self)
        ensures { self.new ≡ record self.old { to = None } }
    {
        self.to = None;
    }

    // The backup, if there is one, stands at the centre.
    pub(crate) fn move_back(&mut self, n: i16)
        requires { IsTrue (backup_can_stand self.old n) }
        ensures { self.new ≡ backup_at n self.old }
    {
        if let Some(back) = &mut self.back {
            back.move_to(n);
        }
    }
}
