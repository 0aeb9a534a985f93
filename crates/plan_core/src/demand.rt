//! What is asked for: a service, and the paths that shall carry it.
ghost use Rattle.std.specs.Prelude.{◌≡◌};
ghost use Rattle.eon_model.specs.Step as step;

use eon_base::name::Name;
use eon_model::{Class, Part};
use net_graph::{Net, Route};
use std::marker::Model;

/// A service as it is asked for, between two nodes by name, at a rate in Gbit/s.
#[derive(Drop)]
pub struct Demand {
    pub name: Name,
    pub src: Name,
    pub dst: Name,
    pub rate: u32,
    pub class: Class,
}

impl Model for Demand {
    ghost use Rattle.eon_model.specs.Commands as asked;

    ghost Value = { asked.Demand };

    ghost view = { λ d. record { name = d.name; src = d.src; dst = d.dst; rate = d.rate; class = d.class } };
}

/// A path that is asked for: the working or the backup one, its route, and its centre in units of 6.25 GHz.
#[derive(Drop)]
pub struct AskedPath {
    pub part: Part,
    pub route: Route,
    pub n: i16,
}

impl Model for AskedPath {
    ghost use Rattle.eon_model.specs.Step as step;
    ghost use Rattle.plan_core.specs.AskedCodes.{asked_code};

    ghost Value = { step.AskedPath };

    ghost coded = { asked_code };

    ghost view = { λ p. record { part = p.part; route = p.route; n = p.n } };
}

/// The working path, and the backup path of a protected service.
#[derive(Drop)]
pub struct AskedPaths {
    pub work: AskedPath,
    pub back: Option<AskedPath>,
}

/// A path that is asked for, and how many times 12.5 GHz wide the slot is that the rate needs on it.
#[derive(Drop)]
pub struct SizedPath {
    pub path: AskedPath,
    pub m: u16,
}

/// The same of the working path, and of the backup path where there is one.
#[derive(Drop)]
pub struct SizedPaths {
    pub work: SizedPath,
    pub back: Option<SizedPath>,
}

/// The number of the node of this name, and 0 where there is none.
pub fn node_numbered(net: &Net, name: &Name) -> u8
    ensures { result ≡ step.node_numbered net.now name.now }
{
    net.node_of(name).unwrap_or(0)
}
