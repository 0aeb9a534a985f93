//! Paths and legs as they are looked at, whether they stand there or are only asked about. Nothing is copied
//! but the slots.

ghost use Rattle.std.specs.Prelude.{◌≡◌, ◌≤ℤ◌};
ghost use Rattle.eon_model.specs.Grid.{units_of};
ghost use Rattle.eon_model.specs.Services.{drift_units};

use crate::holding::Span;
use flex_grid::slot::Slot;
use net_graph::Route;
use std::marker::Model;

/// A route with a slot, which may be another one than the path on it has.
#[derive(Drop)]
pub struct PathView<'a> {
    /// The fibres, with their length and their risk.
    pub route: &'a Route,
    /// The centre and the width.
    pub slot: Slot,
}

impl<'a> Model for PathView<'a> {
    ghost use Rattle.eon_model.specs.Services as model;
    ghost use Rattle.eon_model.specs.Codes.{path_code};

    ghost Value = { model.Path };

    ghost coded = { path_code };

    ghost view = { λ p. record { route = p.route.now; slot = p.slot } };
}

impl<'a> PathView<'a> {
    /// The units that the path holds where it stands.
    pub fn span(&self) -> Span
        ensures units { result ≡ units_of self.now.slot }
        ensures some { result.lo ≤ℤ result.hi }
    {
        Span::around(self.slot.n(), &self.slot)
    }
}

/// A leg: its working path, the centre that its channel drifts to, in units of 6.25 GHz, and its backup path.
#[derive(Drop)]
pub struct LegView<'a> {
    /// The path of its channel.
    pub work: PathView<'a>,
    /// The centre that the channel drifts to.
    pub to: Option<i16>,
    /// The path that a protected service takes where the working path fails.
    pub back: Option<PathView<'a>>,
}

impl<'a> Model for LegView<'a> {
    ghost use Rattle.eon_model.specs.Services as model;
    ghost use Rattle.eon_model.specs.Codes.{leg_code};

    ghost Value = { model.Leg };

    ghost coded = { leg_code };

    ghost view = { λ l. record { work = l.work; to = l.to; back = l.back } };
}

impl<'a> LegView<'a> {
    /// The units that the channel holds: those where it stands, or all that it drifts over.
    pub fn channel_span(&self) -> Span
        ensures units { result ≡ drift_units self.now.work.slot self.now.to }
        ensures some { result.lo ≤ℤ result.hi }
    {
        let here = self.work.span();
        match self.to {
            Some(to) => here.hull(&Span::around(to, &self.work.slot)),
            None => here,
        }
    }
}
