//! What a leg holds: the units of its paths, and the fibres of its routes.

ghost use Rattle.std.specs.Prelude.{◌≡◌, ◌≤ℤ◌};
ghost use Rattle.eon_model.specs.Grid.{units_of, overlaps, moved_to, hull};
ghost use Rattle.eon_model.specs.Lists.{has_number};
ghost use Rattle.eon_model.specs.Route as routes;
ghost use Rattle.eon_model.specs.Services.{drift_units};

use crate::leg::{Leg, Path};
use flex_grid::slot::Slot;
use net_graph::Route;
use std::marker::Model;

/// The units of 6.25 GHz from one to another, both of them too, wherever they lie.
#[derive(Drop)]
pub struct Span {
    lo: i32,
    hi: i32,
}

impl Model for Span {
    ghost use Rattle.eon_model.specs.Grid.{Units};

    ghost Value = { Units };

    ghost view = { λ s. record { lo = s.lo; hi = s.hi } };
}

impl Span {
    /// The units of the slot of this width at a centre, which may lie beside the grid.
    pub fn around(n: i16, slot: &Slot) -> Span
        ensures units { result ≡ units_of (moved_to slot.now n) }
        ensures some { result.lo ≤ℤ result.hi }
    {
        let centre = i32::from(n);
        let half = i32::from(slot.m());
        Span {
            lo: centre - half,
            hi: centre + half - 1,
        }
    }

    /// The lowest unit.
    pub fn lo(&self) -> i32
        ensures { result ≡ self.now.lo }
    {
        self.lo
    }

    /// The highest unit.
    pub fn hi(&self) -> i32
        ensures { result ≡ self.now.hi }
    {
        self.hi
    }

    /// Whether some unit is in both.
    pub fn overlaps(&self, other: &Span) -> bool
        ensures { result ≡ overlaps self.now other.now }
    {
        self.lo <= other.hi && other.lo <= self.hi
    }

    /// All units from the lowest to the highest of the two.
    pub fn hull(&self, other: &Span) -> Span
        ensures { result ≡ hull self.now other.now }
    {
        Span {
            lo: self.lo.min(other.lo),
            hi: self.hi.max(other.hi),
        }
    }
}

/// The units that the path holds where it stands.
pub fn path_span(path: &Path) -> Span
    ensures units { result ≡ units_of path.now.slot }
    ensures some { result.lo ≤ℤ result.hi }
{
    Span::around(path.slot.n(), &path.slot)
}

/// The units that the channel of the leg holds: those where it stands, or all that it drifts over.
pub fn channel_span(leg: &Leg) -> Span
    ensures units { result ≡ drift_units leg.now.work.slot leg.now.to }
    ensures some { result.lo ≤ℤ result.hi }
{
    let work = &leg.work;
    let here = path_span(work);
    match leg.to {
        Some(to) => here.hull(&Span::around(to, &work.slot)),
        None => here,
    }
}

/// Whether the fibre of this number is one of the route's.
pub fn has_fibre(route: &Route, fibre: u8) -> bool
    ensures { result ≡ has_number route.now.fibres fibre }
{
    route.fibres().contains(&fibre)
}

/// Whether one fibre is in both routes.
pub fn share_fibre(p: &Route, q: &Route) -> bool
    ensures { result ≡ routes.share_fibre p.now q.now }
{
    p.fibres().iter().any(|fibre| has_fibre(q, *fibre))
}
