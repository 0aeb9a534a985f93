//! Whether two networks have the same nodes, fibres and named groups.
ghost use Rattle.std.specs.Prelude.{◌≡◌, ◌+◌, ◌<◌, length, IsTrue};
ghost use Rattle.eon_model.specs.Lists.{has_number};
ghost use Rattle.eon_model.specs.Names.{same_name};
ghost use Rattle.eon_model.specs.Wider.{all_same, same_fibre, same_group};
ghost use Rattle.net_file.specs.PrintWords.{group_at};
ghost use Rattle.net_graph.specs.Graph.{is_graph};
ghost use Rattle.net_graph.specs.Rows.{fibre_seen};
ghost use Rattle.net_widening.specs.Told.{same_members};

use crate::names::same_name;
use eon_base::name::Name;
use net_graph::{Fibre, Net};

/// Whether both have the same nodes.
pub(crate) fn same_nodes(net: &Net, other: &Net) -> bool
    ensures { result ≡ all_same same_name net.now.nodes other.now.nodes }
{
    if net.nodes() != other.nodes() {
        return false;
    }
    for i in 0..net.nodes() {
        if !same_name(&net.node_name(i), &other.node_name(i)) {
            return false;
        }
    }
    true
}

fn same_fibre(fibre: &Fibre, other: &Fibre) -> bool
    ensures { result ≡ same_fibre (fibre_seen fibre.now) (fibre_seen other.now) }
{
    same_name(&fibre.name, &other.name)
        && fibre.a == other.a
        && fibre.b == other.b
        && fibre.km == other.km
}

/// Whether both have the same fibres, between nodes of the same numbers.
pub(crate) fn same_fibres(net: &Net, other: &Net) -> bool
    ensures { result ≡ all_same same_fibre net.now.fibres other.now.fibres }
{
    if net.fibres() != other.fibres() {
        return false;
    }
    for i in 0..net.fibres() {
        if !same_fibre(&net.fibre(i), &other.fibre(i)) {
            return false;
        }
    }
    true
}

// The number of the named group among all groups.
fn risk_of(net: &Net, group: u8) -> u16
    ensures value { result ≡ length net.now.fibres + group }
    ensures graph { IsTrue (is_graph net.now) }
{
    u16::from(net.fibres()) + u16::from(group)
}

// The name of the named group of this number.
fn group_name(net: &Net, group: u8) -> Name
    requires { group < length net.now.groups }
    ensures { result ≡ (group_at net.now.groups group).name }
{
    net.risk_name(risk_of(net, group))
}

// Whether the named group of this number holds the fibre of this number, if there is one.
fn holds(net: &Net, group: u8, fibre: u8) -> bool
    requires { group < length net.now.groups }
    ensures { result ≡ has_number (group_at net.now.groups group).fibres fibre }
{
    fibre < net.fibres() && net.risk(fibre).has(risk_of(net, group))
}

// Whether the named groups of this number hold fibres of the same numbers.
fn same_members(net: &Net, other: &Net, group: u8) -> bool
    requires group { group < length net.now.groups }
    requires other { group < length other.now.groups }
    ensures { result ≡ same_members (group_at net.now.groups group) (group_at other.now.groups group) }
{
    for fibre in 0..net.fibres().max(other.fibres()) {
        if holds(net, group, fibre) != holds(other, group, fibre) {
            return false;
        }
    }
    true
}

// Whether the named groups of this number are the same.
fn same_group(net: &Net, other: &Net, group: u8) -> bool
    requires group { group < length net.now.groups }
    requires other { group < length other.now.groups }
    ensures { result ≡ same_group (group_at net.now.groups group) (group_at other.now.groups group) }
{
    same_name(&group_name(net, group), &group_name(other, group)) && same_members(net, other, group)
}

/// Whether both have the same named groups, of fibres of the same numbers.
pub(crate) fn same_groups(net: &Net, other: &Net) -> bool
    ensures { result ≡ all_same same_group net.now.groups other.now.groups }
{
    if net.groups() != other.groups() {
        return false;
    }
    for i in 0..net.groups() {
        if !same_group(net, other, i) {
            return false;
        }
    }
    true
}
