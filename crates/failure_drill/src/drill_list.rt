//! The legs that a failure takes down, in order.
ghost use Rattle.std.specs.Prelude.{◌≡◌, ◌<◌, length, Some, slice_get, slice_index_or};

use crate::hit::Hit;
use std::marker::Model;

/// A list of hit legs, in order.
#[derive(Drop)]
pub struct DrillList {
    hits: Vec<Hit>,
}

impl Model for DrillList {
    ghost use Rattle.std.specs.Prelude.{List};
    ghost use Rattle.std.specs.Coded.{coded_list};
    ghost use Rattle.eon_model.specs.Replies as model;
    ghost use Rattle.failure_drill.specs.Hits.{hit_code};

    ghost Value = { List model.Hit };

    ghost coded = { coded_list hit_code };

    ghost view = { λ d. d.hits.items };
}

impl DrillList {
    // These hits, in their order.
    pub(crate) fn of(hits: Vec<Hit>) -> DrillList
        ensures { result ≡ hits.items }
    {
        DrillList { hits }
    }

    /// How many there are.
    pub fn len(&self) -> usize
        ensures { result ≡ length self.now }
    {
        self.hits.len()
    }

    /// The hit at this place, which is below `len`.
    pub fn at(&self, i: usize) -> &Hit
        requires { i < length self.now }
        ensures hit { slice_get self.now i ≡ Some result.now }
        ensures read { result.now ≡ slice_index_or self.now i result.now }
    {
        &self.hits[i]
    }
}
