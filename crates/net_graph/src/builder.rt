//! The builder of a network, and what it refuses.

ghost use Rattle.std.specs.Prelude.{◌≡◌, ℕ, ◌+◌, ◌<◌, ◌≤◌, ◌⊎◌, List, [], ◌∷◌, ◌++◌, length, map, IsTrue, true, false, Option, Some, None, is_none, is_ok, if◌then◌else◌, IfOk, IfErr, OnOk, OnErr, All};
ghost use Rattle.std.specs.List.{list_any, filter_map};
ghost use Rattle.eon_model.specs.Names.{is_name, ascend as names_rise};
ghost use Rattle.eon_model.specs.Lists.{numbers_ascend};
ghost use Rattle.eon_model.specs.Network as model;
ghost use Rattle.net_graph.specs.Graph.{no_graph, node_fault, with_node, fibre_fault, fibre_between, with_fibre, group_fault, group_named, with_group};
ghost use Rattle.net_graph.specs.Rows.{fibre_seen, row_names, row_with, rows_with, few_groups, some_full_row, network_of, group_seen, CountsGroups};

use crate::graph::{Fibre, FibreRow, GraphFault, GroupRow, Net};
use crate::named::{is_above_last, names_ascend, number_of};
use crate::sets::RiskSet;
use eon_base::name::Name;
use std::alloc::{AllocError, Global};
use std::marker::Model;

/// The most nodes of a network.
const MOST_NODES: usize = 64;
/// The most fibres of a network.
const MOST_FIBRES: usize = 128;
/// The most named groups of a network.
const MOST_GROUPS: usize = 128;
/// The most named groups that hold one fibre.
const MOST_GROUPS_OF_FIBRE: u8 = 8;

// Puts one more group into the row.
fn join_group(row: &mut FibreRow, risk: u16)
    requires few { row.old.groups < 8 }
    requires risk { risk < 256 }
    ensures { row.new ≡ row_with risk row.old }
{
    row.groups += 1;
    row.risk.add(risk);
}

// Puts a group into the rows of its fibres.
fn mark(rows: &mut [FibreRow], fibres: &[u8], risk: u16)
    requires known { All (λ i. i < length rows.old) fibres.now }
    requires ascend { IsTrue (numbers_ascend fibres.now) }
    requires few { few_groups fibres.now rows.old }
    requires risk { risk < 256 }
    ensures { rows.new ≡ rows_with risk fibres.now 0 rows.old }
{
    for fibre in fibres {
        join_group(&mut rows[*fibre as usize], risk);
    }
}

// The numbers of the fibres of these names.
fn fibre_numbers(alloc: Global, rows: &[FibreRow], names: &[Name]) -> Result<Vec<u8>, GraphFault>
    requires few { length rows.now ≤ 128 }
    requires rise { IsTrue (names_rise (row_names rows.now)) }
    ensures found { IfOk result (λ numbers. (numbers.items ≡ filter_map (model.number_of (row_names rows.now)) names.now) × (list_any (λ f. is_none (model.number_of (row_names rows.now) f)) names.now ≡ false)) }
    ensures refused { IfErr result (λ e. (e ≡ GraphFault.Memory) ⊎ ((e ≡ GraphFault.Unknown) × (list_any (λ f. is_none (model.number_of (row_names rows.now) f)) names.now ≡ true))) }
{
    let mut numbers = Vec::new(alloc);
    for name in names {
        match number_of(rows, name) {
            None => return Err(GraphFault::Unknown),
            Some(number) => match numbers.push(number) {
                Ok(()) => {}
                Err(_) => return Err(GraphFault::Memory),
            },
        }
    }
    Ok(numbers)
}

// Whether one of the fibres is in eight named groups.
fn some_full(rows: &[FibreRow], fibres: &[u8]) -> bool
    requires { All (λ i. i < length rows.now) fibres.now }
    ensures { result ≡ some_full_row rows.now fibres.now }
{
    for fibre in fibres {
        if rows[*fibre as usize].groups >= MOST_GROUPS_OF_FIBRE {
            return true;
        }
    }
    false
}

// The fibre between the nodes of these names, or why it is refused.
fn new_fibre(
    nodes: &[Name],
    rows: &[FibreRow],
    name: Name,
    a: Name,
    b: Name,
    km: u32,
) -> Result<Fibre, GraphFault>
    requires few_nodes { length nodes.now ≤ 64 }
    requires nodes_rise { IsTrue (names_rise nodes.now) }
    ensures made { IfOk result (λ f. fibre_seen f ≡ fibre_between (network_of nodes.now rows.now []) name a b km) }
    ensures named { OnOk result (IsTrue (is_name name)) }
    ensures accepted { OnOk result (fibre_fault (network_of nodes.now rows.now []) name a b ≡ None) }
    ensures refused { IfErr result (λ e. fibre_fault (network_of nodes.now rows.now []) name a b ≡ Some e) }
{
    if rows.len() >= MOST_FIBRES {
        return Err(GraphFault::Many);
    }
    if !is_above_last(rows, &name) {
        return Err(GraphFault::Order);
    }
    let Some(first) = number_of(nodes, &a) else {
        return Err(GraphFault::Unknown);
    };
    let Some(second) = number_of(nodes, &b) else {
        return Err(GraphFault::Unknown);
    };
    if first == second {
        return Err(GraphFault::SelfEnd);
    }
    Ok(Fibre {
        name,
        a: first,
        b: second,
        km,
    })
}

// The group of the fibres of these names, or why it is refused.
fn new_group(
    alloc: Global,
    rows: &[FibreRow],
    groups: &[GroupRow],
    name: Name,
    fibres: &[Name],
) -> Result<GroupRow, GraphFault>
    requires few_fibres { length rows.now ≤ 128 }
    requires fibres_rise { IsTrue (names_rise (row_names rows.now)) }
    requires counted { CountsGroups rows.now (map group_seen groups.now) }
    ensures made { IfOk result (λ g. group_seen g ≡ group_named (network_of [] rows.now groups.now) name fibres.now) }
    ensures named { OnOk result (IsTrue (is_name name)) }
    ensures accepted { OnOk result (group_fault (network_of [] rows.now groups.now) name fibres.now ≡ None) }
    ensures refused { IfErr result (λ e. (e ≡ GraphFault.Memory) ⊎ (group_fault (network_of [] rows.now groups.now) name fibres.now ≡ Some e)) }
{
    if groups.len() >= MOST_GROUPS {
        return Err(GraphFault::Many);
    }
    if !is_above_last(groups, &name) {
        return Err(GraphFault::Order);
    }
    if !names_ascend(fibres) {
        return Err(GraphFault::Order);
    }
    if number_of(rows, &name).is_some() {
        return Err(GraphFault::Twice);
    }
    let fibres = fibre_numbers(alloc, rows, fibres)?;
    if some_full(rows, &fibres) {
        return Err(GraphFault::Groups);
    }
    Ok(GroupRow { name, fibres })
}

// Puts the group behind the others, and into the rows of its fibres.
fn put_group(
    rows: &mut Vec<FibreRow>,
    groups: &mut Vec<GroupRow>,
    group: GroupRow,
) -> Result<(), AllocError>
    requires few_fibres { length rows.old.items ≤ 128 }
    requires few_groups { length groups.old.items < 128 }
    requires known { All (λ i. i < length rows.old.items) group.fibres.items }
    requires ascend { IsTrue (numbers_ascend group.fibres.items) }
    requires room { few_groups group.fibres.items rows.old.items }
    ensures groups { groups.new.items ≡ (if is_ok result then groups.old.items ++ group ∷ [] else groups.old.items) }
    ensures rows { rows.new.items ≡ (if is_ok result then rows_with (length rows.old.items + length groups.old.items) group.fibres.items 0 rows.old.items else rows.old.items) }
{
    let number = groups.len();
    let risk = (rows.len() + number) as u16;
    match groups.push(group) {
        Ok(()) => {}
        Err(_) => return Err(AllocError),
    }
    mark(rows, &groups[number].fibres, risk);
    Ok(())
}

/// Takes a network node by node, then fibre by fibre, then group by group, each kind in the order of
/// names. A contract sees it as the network that it has so far.
#[derive(Debug, Drop)]
pub struct NetBuilder {
    nodes: Vec<Name>,
    rows: Vec<FibreRow>,
    groups: Vec<GroupRow>,
    alloc: Global,
}

impl Model for NetBuilder {
    ghost use Rattle.eon_model.specs.Network as model;
    ghost use Rattle.net_graph.specs.Rows.{network_of, IsKept};

    ghost Value = { model.Network };

    ghost view = { λ b. network_of b.nodes.items b.rows.items b.groups.items };

    ghost invariant = { λ b. IsKept b.nodes.items b.rows.items b.groups.items };
}

impl NetBuilder {
    /// The builder of a network with nothing in it.
    pub fn new(alloc: Global) -> NetBuilder
        ensures { result ≡ no_graph }
    {
        NetBuilder {
            nodes: Vec::new(alloc),
            rows: Vec::new(alloc),
            groups: Vec::new(alloc),
            alloc,
        }
    }

    /// Adds a node and gives its number. Refuses it, and is then as before: `Many` with 64 nodes, and
    /// `Order` where the name is not above the last node's.
    pub fn add_node(&mut self, name: Name) -> Result<u8, GraphFault>
        ensures number { IfOk result (λ i. i ≡ length self.old.nodes) }
        ensures accepted { OnOk result (node_fault self.old name ≡ None) }
        ensures added { OnOk result (self.new ≡ with_node self.old name) }
        ensures refused { IfErr result (λ e. (e ≡ GraphFault.Memory) ⊎ (node_fault self.old name ≡ Some e)) }
        ensures kept { OnErr result (self.new ≡ self.old) }
    {
        let number = self.nodes.len();
        if number >= MOST_NODES {
            return Err(GraphFault::Many);
        }
        if !is_above_last(&self.nodes, &name) {
            return Err(GraphFault::Order);
        }
        match self.nodes.push(name) {
            Ok(()) => Ok(number as u8),
            Err(_) => Err(GraphFault::Memory),
        }
    }

    /// Adds a fibre of this length in km between the nodes named a and b, and gives its number. Refuses
    /// it, and is then as before: `Many` with 128 fibres; `Order` where the name is not above the last
    /// fibre's; `Unknown` where an end is no node; `SelfEnd` where both ends are one node.
    pub fn add_fibre(&mut self, name: Name, a: Name, b: Name, km: u32) -> Result<u8, GraphFault>
        requires least_km { 1 ≤ km }
        requires most_km { km ≤ 100000 }
        requires no_group { self.old.groups ≡ [] }
        ensures number { IfOk result (λ i. i ≡ length self.old.fibres) }
        ensures accepted { OnOk result (fibre_fault self.old name a b ≡ None) }
        ensures added { OnOk result (self.new ≡ with_fibre self.old (fibre_between self.old name a b km)) }
        ensures refused { IfErr result (λ e. (e ≡ GraphFault.Memory) ⊎ (fibre_fault self.old name a b ≡ Some e)) }
        ensures kept { OnErr result (self.new ≡ self.old) }
    {
        let number = self.rows.len();
        let fibre = new_fibre(&self.nodes, &self.rows, name, a, b, km)?;
        let row = FibreRow {
            fibre,
            risk: RiskSet::empty().with(number as u16),
            groups: 0,
        };
        match self.rows.push(row) {
            Ok(()) => Ok(number as u8),
            Err(_) => Err(GraphFault::Memory),
        }
    }

    /// Adds a group of the fibres of these names and gives its number. Refuses it, and is then as before:
    /// `Many` with 128 groups; `Order` where the name is not above the last group's, or the fibres' names
    /// do not ascend; `Twice` where a fibre has the name; `Unknown` where one is no fibre; `Groups` where
    /// a fibre would be in a ninth named group.
    pub fn add_group(&mut self, name: Name, fibres: &[Name]) -> Result<u8, GraphFault>
        requires { 0 < length fibres.now }
        ensures number { IfOk result (λ i. i ≡ length self.old.groups) }
        ensures accepted { OnOk result (group_fault self.old name fibres.now ≡ None) }
        ensures added { OnOk result (self.new ≡ with_group self.old (group_named self.old name fibres.now)) }
        ensures refused { IfErr result (λ e. (e ≡ GraphFault.Memory) ⊎ (group_fault self.old name fibres.now ≡ Some e)) }
        ensures kept { OnErr result (self.new ≡ self.old) }
    {
        let number = self.groups.len();
        let group = new_group(self.alloc, &self.rows, &self.groups, name, fibres)?;
        match put_group(&mut self.rows, &mut self.groups, group) {
            Ok(()) => Ok(number as u8),
            Err(_) => Err(GraphFault::Memory),
        }
    }

    /// The network.
    pub fn build(self) -> Net
        ensures { result ≡ self }
    {
        let NetBuilder {
            nodes,
            rows,
            groups,
            alloc: _,
        } = self;
        Net {
            nodes,
            rows,
            groups,
        }
    }
}
