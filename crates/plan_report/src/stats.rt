//! The totals of a state.
use std::marker::Model;

/// The totals of a state. `lit` counts the pairs of a fibre and a unit of 6.25 GHz in the light of a working path or a
/// dual backup, and `held` those in at least one shared backup.
#[derive(Clone, Copy, Debug, PartialEq, Eq)]
pub struct Stats {
    /// All live services.
    pub services: u32,
    /// Those with a backup.
    pub protected: u32,
    /// Those whose channel drifts.
    pub drifting: u32,
    /// Those with a new leg beside the old one.
    pub making: u32,
    pub lit: u32,
    pub held: u32,
}

impl Model for Stats {
    ghost use Rattle.eon_model.specs.Replies.{Totals};

    ghost Value = { Totals };

    ghost view = { λ t. record {
      services = t.services;
      protected = t.protected;
      drifting = t.drifting;
      making = t.making;
      lit = t.lit;
      held = t.held;
    } };

    ghost inverse = { λ v. record {
      services = v.services;
      protected = v.protected;
      drifting = v.drifting;
      making = v.making;
      lit = v.lit;
      held = v.held;
    } };
}
