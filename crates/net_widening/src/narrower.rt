//! What a network is narrower in than another.
ghost use Rattle.std.specs.Prelude.{◌≡◌, ◌↔◌, find, not, None};
ghost use Rattle.std.specs.Option.{option_map};
ghost use Rattle.eon_model.specs.Wider.{is_as_wide, first_narrower, Widens};
ghost use Rattle.net_widening.specs.Told.{wide_told};

use crate::band::lies_in;
use crate::formats::same_formats;
use crate::network::{same_fibres, same_groups, same_nodes};
use net_setup::NetSetup;

/// What a network may be narrower in than another.
#[derive(Clone, Copy, Debug, PartialEq, Eq)]
pub enum Narrower {
    /// Its guard is not the same.
    Guard,
    /// It may have fewer services.
    Services,
    /// Its journal may have fewer bytes.
    Journal,
    /// Its formats are not the same.
    Format,
    /// Its nodes are not the same.
    Node,
    /// Its fibres are not the same.
    Fibre,
    /// Its named groups are not the same.
    Group,
    /// A part of the other's band lies in no part of its band.
    Band,
}

/// In the order in which they are looked at.
const ORDER: [Narrower; 8] = [
    Narrower::Guard,
    Narrower::Services,
    Narrower::Journal,
    Narrower::Format,
    Narrower::Node,
    Narrower::Fibre,
    Narrower::Group,
    Narrower::Band,
];

// Whether the next network is as wide as the first in this.
fn is_as_wide(net: &NetSetup, next: &NetSetup, what: Narrower) -> bool
    ensures { result ≡ is_as_wide net.now next.now (wide_told what) }
{
    match what {
        Narrower::Guard => net.table.guard() == next.table.guard(),
        Narrower::Services => net.services <= next.services,
        Narrower::Journal => net.journal <= next.journal,
        Narrower::Format => same_formats(&net.table, &next.table),
        Narrower::Node => same_nodes(&net.net, &next.net),
        Narrower::Fibre => same_fibres(&net.net, &next.net),
        Narrower::Group => same_groups(&net.net, &next.net),
        Narrower::Band => lies_in(&net.band, &next.band),
    }
}

// The first of these in which the next network is not as wide.
fn first_among(order: &[Narrower], net: &NetSetup, next: &NetSetup) -> Option<Narrower>
    ensures { result ≡ find (λ what. not (is_as_wide net.now next.now (wide_told what))) order.now }
{
    order
        .iter()
        .copied()
        .find(|what| !is_as_wide(net, next, *what))
}

/// The first thing that the next network is narrower in; `None` exactly where it widens the first. It widens it where
/// guard, formats, nodes, fibres and named groups are equal lists, it may have as many services and as many bytes in its
/// journal, and each part of the first band lies in a part of its band. How many routes are tried does not matter.
pub fn narrower_in(net: &NetSetup, next: &NetSetup) -> Option<Narrower>
    ensures what { option_map wide_told result ≡ first_narrower net.now next.now }
    ensures widens { (result ≡ None) ↔ Widens net.now next.now }
{
    first_among(&ORDER, net, next)
}
