//! A leg that a failure takes down.
ghost use Rattle.std.specs.Prelude.{◌≡◌, IfSome};
ghost use Rattle.failure_drill.specs.Hits.{IsNumbered};

use crate::noted_route::NotedRoute;
use eon_base::name::Name;
use flex_grid::slot::Slot;
use leg_state::{FibreNumbers, Path};
use std::marker::Model;

/// The path that takes over: its fibres by number, and its slot. A contract sees the whole path.
#[derive(Drop)]
pub struct HitPath {
    /// The numbers of its fibres, in order.
    pub fibres: FibreNumbers,
    /// Its centre and its width.
    pub slot: Slot,
    noted: NotedRoute,
}

impl Model for HitPath {
    ghost use Rattle.eon_model.specs.Services as model;
    ghost use Rattle.eon_model.specs.Codes.{path_code};
    ghost use Rattle.failure_drill.specs.Hits.{path_seen};

    ghost Value = { model.Path };

    ghost coded = { path_code };

    ghost view = { λ p. path_seen p.fibres p.slot p.noted.route };
}

impl HitPath {
    // The path by the numbers of its fibres, of which there are at most 63, each below 128.
    pub(crate) fn of(path: &Path) -> HitPath
        requires { IsNumbered path.now }
        ensures { result ≡ path.now }
    {
        HitPath {
            fibres: FibreNumbers::make(path.route.fibres()),
            slot: path.slot,
            noted: NotedRoute::of(&path.route),
        }
    }
}

/// A leg whose working route a group hits.
#[derive(Drop)]
pub struct Hit {
    /// The name of its service.
    pub name: Name,
    /// 1 for the old leg, and 2 for the new one while the service is making.
    pub leg: u8,
    /// Its backup, if it has one.
    pub back: Option<HitPath>,
}

impl Model for Hit {
    ghost use Rattle.eon_model.specs.Replies as model;
    ghost use Rattle.failure_drill.specs.Hits.{hit_code};

    ghost Value = { model.Hit };

    ghost coded = { hit_code };

    ghost view = { λ h. record { name = h.name; leg = h.leg; back = h.back } };
}
