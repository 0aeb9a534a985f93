//! Walks: fibres that lead on from one another, and the nodes that they visit.

ghost use Rattle.std.specs.Prelude.{◌≡◌, ◌<◌, IsTrue};
ghost use Rattle.eon_model.specs.Route as model;
ghost use Rattle.net_graph.specs.Graph.{is_graph};
ghost use Rattle.net_graph.specs.Stands.{start, moved, stand_after};

use crate::graph::Net;
use crate::sets::NodeSet;

/// Where a walk stands.
#[derive(Drop)]
pub struct Stand {
    /// The number of the node where it stands.
    pub node: u8,
    /// The nodes that it has visited, this one among them.
    pub visited: NodeSet,
}

impl Stand {
    /// At this node, before the first fibre.
    pub fn at(node: u8) -> Stand
        requires { node < 64 }
        ensures { result ≡ start node }
    {
        Stand {
            node,
            visited: NodeSet::empty().with(node),
        }
    }

    /// One fibre further; None where the fibre does not lead on, or leads to a node that was visited
    /// before.
    pub fn step(&self, net: &Net, fibre: u8) -> Option<Stand>
        ensures { result ≡ moved net.now.fibres self.now fibre }
    {
        let node = net.far_end(fibre, self.node)?;
        if self.visited.has(node) {
            return None;
        }
        Some(Stand {
            node,
            visited: self.visited.copy().with(node),
        })
    }
}

/// Where a walk of these fibres from this node stands; None where they do not lead on, or visit a node
/// twice.
pub fn stand_at(net: &Net, node: u8, fibres: &[u8]) -> Option<Stand>
    requires { node < 64 }
    ensures { result ≡ stand_after net.now.fibres (start node) fibres.now }
{
    let mut stand = Stand::at(node);
    for fibre in fibres {
        match stand.step(net, *fibre) {
            Some(next) => stand = next,
            None => return None,
        }
    }
    Some(stand)
}

/// Whether these fibres lead from s to t and visit no node twice. No fibre leads nowhere.
pub(crate) fn is_walk(net: &Net, s: u8, t: u8, fibres: &[u8]) -> bool
    ensures graph { IsTrue (is_graph net.now) }
    ensures walk { result ≡ model.walks net.now.fibres s t fibres.now }
{
    if s >= net.nodes() {
        return false;
    }
    if fibres.is_empty() {
        return false;
    }
    match stand_at(net, s, fibres) {
        Some(stand) => stand.node == t,
        None => false,
    }
}
