//! One live service and its moves.

ghost use Rattle.std.specs.Prelude.{◌≡◌, IsTrue};
ghost use Rattle.eon_model.specs.Names.{same_name};
ghost use Rattle.eon_model.specs.Services.{is_moving};
ghost use Rattle.eon_model.specs.Changes.{drifting_to, with_leg, with_next, finished, undone, backup_at};
ghost use Rattle.leg_state.specs.Asks.{may_drift, may_finish, may_go_back, may_make, may_refit};

use crate::leg::Leg;
use eon_base::name::Name;
use eon_model::Class;
use std::marker::Model;

/// A live service between two nodes. It is at rest, or it drifts (`leg` has a target), or it is making
/// (`next` stands beside `leg`).
#[derive(Drop)]
pub struct Service {
    /// The name under which it was admitted.
    pub name: Name,
    /// The number of the node where it begins.
    pub src: u8,
    /// The number of the node where it ends.
    pub dst: u8,
    /// Its rate in Gbit/s.
    pub rate: u32,
    /// Whether it has a backup, and whether the backup is dark until it is needed or always lit.
    pub class: Class,
    /// What carries it; the old leg while it is making.
    pub leg: Leg,
    /// The new leg, while it is making.
    pub next: Option<Leg>,
}

impl Model for Service {
    ghost use Rattle.eon_model.specs.Services as model;
    ghost use Rattle.eon_model.specs.Codes.{service_code};

    ghost Value = { model.Service };

    ghost coded = { service_code };

    ghost view = { λ s. record {
      name = s.name;
      src = s.src;
      dst = s.dst;
      rate = s.rate;
      class = s.class;
      leg = s.leg;
      next = s.next;
    } };
}

// Lets a leg go.
fn let_go(_leg: Leg) {}

impl Service {
    /// Whether it has this name.
    pub fn is_named(&self, name: &Name) -> bool
        ensures { result ≡ same_name self.now.name name.now }
    {
        self.name == *name
    }

    /// Whether its channel drifts, or it has a new leg beside the old one.
    pub fn is_moving(&self) -> bool
        ensures { result ≡ is_moving self.now }
    {
        self.leg.to.is_some() || self.next.is_some()
    }

    // Its channel drifts to the centre.
    pub(crate) fn set_to(&mut self, to: i16)
        ensures { self.new ≡ with_leg (drifting_to to) self.old }
    {
        self.leg.drift_to(to);
    }

    // Its move ends: the new leg alone is left, or else the channel stands where it drifts to.
    pub(crate) fn end_move(&mut self)
        requires { IsTrue (may_finish self.old) }
        ensures { self.new ≡ finished self.old }
    {
        match self.next.take() {
            Some(leg) => let_go(std::mem::replace(&mut self.leg, leg)),
            None => self.leg.end_drift(),
        }
    }

    // Its move is given up: the new leg goes, or else the target.
    pub(crate) fn undo_move(&mut self)
        ensures { self.new ≡ undone self.old }
    {
        match self.next.take() {
            Some(leg) => let_go(leg),
            None => self.leg.stop_drift(),
        }
    }

    // The new leg stands beside the old one.
    pub(crate) fn add_leg(&mut self, leg: Leg)
        ensures { self.new ≡ with_next leg self.old }
    {
        if let Some(old) = self.next.replace(leg) {
            let_go(old);
        }
    }

    // Its backup stands at the centre.
    pub(crate) fn set_back(&mut self, n: i16)
        requires { IsTrue (may_refit n self.old) }
        ensures { self.new ≡ with_leg (backup_at n) self.old }
    {
        self.leg.move_back(n);
    }
}
