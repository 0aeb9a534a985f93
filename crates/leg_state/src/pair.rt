//! Candidate routes of a service.

use net_graph::Route;
use std::marker::Model;

/// A backup route with the slot width that the rate needs on it.
#[derive(Drop)]
pub struct Spare {
    /// The fibres of the backup.
    pub route: Route,
    /// The width of its slot, times 12.5 GHz.
    pub m: u16,
}

impl Model for Spare {
    ghost use Rattle.eon_model.specs.Candidates.{SizedRoute};
    ghost use Rattle.leg_state.specs.Parts.{sized_code};

    ghost Value = { SizedRoute };

    ghost coded = { sized_code };

    ghost view = { λ r. record { route = r.route; m = r.m } };
}

/// A candidate: a working route with the slot width that the rate needs on it, and a backup route for a
/// protected service. It says nothing of where the slots stand.
#[derive(Drop)]
pub struct Pair {
    /// The fibres of the working path.
    pub work: Route,
    /// The width of its slot, times 12.5 GHz.
    pub work_m: u16,
    /// The backup, for a protected service.
    pub back: Option<Spare>,
}

impl Model for Pair {
    ghost use Rattle.eon_model.specs.Candidates.{Candidate};
    ghost use Rattle.leg_state.specs.Parts.{candidate_code};

    ghost Value = { Candidate };

    ghost coded = { candidate_code };

    ghost view = { λ p. record { work = record { route = p.work; m = p.work_m }; back = p.back } };
}
