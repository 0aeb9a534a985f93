//! The backups that were added and not taken since, kept for contracts alone.
ghost use Rattle.std.specs.Prelude.{◌≡◌, List, [], ◌∷◌};
ghost use Rattle.std.specs.Borrow.{ftrue};
ghost use Rattle.std.specs.Coded.{coded_list};
ghost use Rattle.eon_model.specs.Rows.{Reserved};
ghost use Rattle.backup_sharing.specs.Shared.{reserved, reserved_code, without_one};

use flex_grid::units::Units;
use net_graph::RiskSet;
use std::marker::Model;

/// The backups, the last one first. It takes no memory: only clauses see them.
#[derive(Drop)]
pub struct Added {
    pub ghost reserves: { List Reserved } by { coded_list reserved_code },
}

impl Model for Added {
    ghost also_owns = { λ _. ftrue };
}

impl Added {
    /// No backup yet.
    pub fn none() -> Added
        ensures { result.reserves ≡ [] }
    {
        Added {}
    }

    /// One backup more.
    pub fn add(&mut self, _risk: &RiskSet, _fibres: &[u8], _units: &Units)
        ensures { self.new.reserves ≡ reserved _risk.now _fibres.now _units.now ∷ self.old.reserves }
    {}

    /// One backup fewer.
    pub fn take(&mut self, _risk: &RiskSet, _fibres: &[u8], _units: &Units)
        ensures { self.new.reserves ≡ without_one (reserved _risk.now _fibres.now _units.now) self.old.reserves }
    {}
}
