//! What a network text says.

use flex_grid::band::Band;
use net_graph::Net;
use reach_table::table::Table;
use std::marker::Model;

/// A network with what is planned on it. A contract sees it as a setup, which is in range where each of its
/// numbers, names and lists is as a network text may have it.
#[derive(Drop)]
pub struct NetSetup {
    /// Its nodes, fibres and named groups.
    pub net: Net,
    /// The units of 6.25 GHz that may be lit, in one to eight parts, the same on each fibre.
    pub band: Band,
    /// The formats by reach, and the guard beside each slot.
    pub table: Table,
    /// How many routes are tried between two nodes, 1 to 16.
    pub k: u8,
    /// How many services may be live, 1 to 4,096.
    pub services: u16,
    /// How many bytes the journal may have, 4,096 to 67,108,864.
    pub journal: u32,
}

impl Model for NetSetup {
    ghost use Rattle.eon_model.specs.Legal.{Setup};
    ghost use Rattle.eon_model.specs.SetupCodes.{setup_code};

    ghost Value = { Setup };

    ghost coded = { setup_code };

    ghost view = { λ s. record {
      band = s.band;
      guard = s.table.guard;
      k = s.k;
      services = s.services;
      journal = s.journal;
      formats = s.table.rows;
      network = s.net;
    } };
}
