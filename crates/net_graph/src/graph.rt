//! A network: nodes, fibres between them, and the named groups of fibres that can fail together.
//! Each has a number, which counts them from 0 in the order of their names.

ghost use Rattle.std.specs.Prelude.{◌≡◌, ℕ, ◌+◌, ◌<◌, length, IsTrue, IfSome};
ghost use Rattle.eon_model.specs.Sets.{set_of};
ghost use Rattle.eon_model.specs.Network as model;
ghost use Rattle.net_graph.specs.Graph.{is_graph};
ghost use Rattle.net_graph.specs.Walks.{node_after};
ghost use Rattle.net_graph.specs.Rows.{fibre_seen};

pub use crate::builder::NetBuilder;
use crate::named::{Named, number_of};
use crate::sets::RiskSet;
use eon_base::name::Name;
use std::marker::Model;

/// A fibre pair between two nodes, used both ways.
#[derive(Clone, Copy, Debug)]
pub struct Fibre {
    pub name: Name,
    /// The number of the node at one end.
    pub a: u8,
    /// The number of the node at the other end.
    pub b: u8,
    /// Its length in km.
    pub km: u32,
}

// A fibre, the numbers of all groups that hold it, and how many of them are named groups.
#[derive(Debug, Drop)]
pub(crate) struct FibreRow {
    pub(crate) fibre: Fibre,
    pub(crate) risk: RiskSet,
    pub(crate) groups: u8,
}

impl Named for FibreRow {
    ghost named = { λ r. r.fibre.name };

    fn name(&self) -> &Name {
        &self.fibre.name
    }
}

// A named group and the numbers of its fibres.
#[derive(Debug, Drop)]
pub(crate) struct GroupRow {
    pub(crate) name: Name,
    pub(crate) fibres: Vec<u8>,
}

impl Named for GroupRow {
    ghost named = { λ g. g.name };

    fn name(&self) -> &Name {
        &self.name
    }
}

/// Why a node, a fibre or a group is refused.
#[derive(Clone, Copy, Debug, PartialEq, Eq)]
pub enum GraphFault {
    /// There was no memory for it.
    Memory,
    /// There are as many of its kind as a network may have.
    Many,
    /// Its name is not above the last one of its kind, or a group's fibres do not ascend.
    Order,
    /// A node or a fibre that it names is not there.
    Unknown,
    /// Both ends of the fibre are one node.
    SelfEnd,
    /// A fibre has the group's name.
    Twice,
    /// One of the fibres would be in a ninth named group.
    Groups,
}

/// A network that a builder has made. A contract sees it as the lists that it was built of.
#[derive(Debug, Drop)]
pub struct Net {
    pub(crate) nodes: Vec<Name>,
    pub(crate) rows: Vec<FibreRow>,
    pub(crate) groups: Vec<GroupRow>,
}

impl Model for Net {
    ghost use Rattle.eon_model.specs.Network as model;
    ghost use Rattle.net_graph.specs.Rows.{network_of, IsKept};

    ghost Value = { model.Network };

    ghost view = { λ n. network_of n.nodes.items n.rows.items n.groups.items };

    ghost invariant = { λ n. IsKept n.nodes.items n.rows.items n.groups.items };
}

impl Net {
    /// How many nodes there are, at most 64.
    pub fn nodes(&self) -> u8
        ensures count { result ≡ length self.now.nodes }
        ensures graph { IsTrue (is_graph self.now) }
    {
        self.nodes.len() as u8
    }

    /// How many fibres there are, at most 128.
    pub fn fibres(&self) -> u8
        ensures count { result ≡ length self.now.fibres }
        ensures graph { IsTrue (is_graph self.now) }
    {
        self.rows.len() as u8
    }

    /// How many named groups there are, at most 128.
    pub fn groups(&self) -> u8
        ensures count { result ≡ length self.now.groups }
        ensures graph { IsTrue (is_graph self.now) }
    {
        self.groups.len() as u8
    }

    /// The name of the node of this number.
    pub fn node_name(&self, node: u8) -> Name
        requires { node < length self.now.nodes }
        ensures { result ≡ model.name_at self.now.nodes node }
    {
        self.nodes[node as usize]
    }

    /// The fibre of this number.
    pub fn fibre(&self, fibre: u8) -> Fibre
        requires { fibre < length self.now.fibres }
        ensures { fibre_seen result ≡ model.fibre_at self.now.fibres fibre }
    {
        self.rows[fibre as usize].fibre
    }

    /// The node at the far end of the fibre of this number, seen from this node; None where the node is
    /// neither of its ends, or no fibre has the number.
    pub fn far_end(&self, fibre: u8, node: u8) -> Option<u8>
        ensures value { result ≡ node_after self.now.fibres node fibre }
        ensures small { IfSome result (λ n. n < 64) }
    {
        if fibre >= self.fibres() {
            return None;
        }
        let fibre = self.fibre(fibre);
        if fibre.a == node {
            Some(fibre.b)
        } else if fibre.b == node {
            Some(fibre.a)
        } else {
            None
        }
    }

    /// The number of the node of this name; None where no node has it.
    pub fn node_of(&self, name: &Name) -> Option<u8>
        ensures { result ≡ model.node_of self.now name.now }
    {
        number_of(&self.nodes, name)
    }

    /// The number of the fibre of this name; None where no fibre has it.
    pub fn fibre_of(&self, name: &Name) -> Option<u8>
        ensures { result ≡ model.fibre_of self.now name.now }
    {
        number_of(&self.rows, name)
    }

    /// The number of the group of this name: a fibre's own number, or the number of fibres plus that of
    /// the named group; None where neither has it.
    pub fn risk_of(&self, name: &Name) -> Option<u16>
        ensures { result ≡ model.risk_number_of self.now name.now }
    {
        match number_of(&self.rows, name) {
            Some(fibre) => Some(fibre as u16),
            None => match number_of(&self.groups, name) {
                Some(group) => Some(self.rows.len() as u16 + group as u16),
                None => None,
            },
        }
    }

    /// The name of the group of this number.
    pub fn risk_name(&self, risk: u16) -> Name
        requires { risk < length self.now.fibres + length self.now.groups }
        ensures { result ≡ model.risk_name self.now risk }
    {
        let risk = risk as usize;
        if risk < self.rows.len() {
            self.rows[risk].fibre.name
        } else {
            self.groups[risk - self.rows.len()].name
        }
    }

    /// The groups that hold the fibre, its own among them.
    pub fn risk(&self, fibre: u8) -> RiskSet
        requires { fibre < length self.now.fibres }
        ensures { result ≡ set_of (model.risks_of_fibre self.now fibre) }
    {
        self.rows[fibre as usize].risk.copy()
    }
}
