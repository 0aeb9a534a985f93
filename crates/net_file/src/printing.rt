//! Printing a network, with what is planned on it, as its text.
ghost use Rattle.std.specs.Prelude.{◌≡◌, ◌<◌, ◌++◌, false, length, IsTrue, OnOk, OnErr};
ghost use Rattle.std.specs.List.{flat_map};
ghost use Rattle.eon_model.specs.Network.{fibre_at, names_of_fibres};
ghost use Rattle.eon_model.specs.Lists.{has_number};
ghost use Rattle.eon_model.specs.NetworkText.{number_line, band_line, version_of, format_line, node_line, fibre_line, group_line, network_lines, network_text};
ghost use Rattle.net_graph.specs.Graph.{is_graph};
ghost use Rattle.line_writer.specs.Sent.{Takes};
ghost use Rattle.line_writer.specs.Words.{behind};
ghost use Rattle.net_file.specs.PrintWords.{group_at, member_text, front_text};

use eon_base::name::Name;
use eon_base::number::{digits, signed};
use flex_grid::band::Band;
use flex_grid::units::Units;
use line_writer::{MemoryText, TextSink, end_line, put_line, put_name};
use net_graph::Net;
use net_setup::NetSetup;
use reach_table::format::Format;
use reach_table::table::Table;
use std::alloc::AllocError;

fn put_count<W: TextSink>(word: &[u8], number: u64, out: &mut W)
    ensures { Takes (W.sent out.old) (W.sent out.new) (number_line word.now number) }
{
    let number = digits(number);
    put_line(word, &[number.bytes()], out);
}

// ---- the reach table

fn put_format<W: TextSink>(format: &Format, out: &mut W)
    ensures { Takes (W.sent out.old) (W.sent out.new) (format_line format.now) }
{
    let reach = digits(u64::from(format.reach));
    let per = digits(u64::from(format.per));
    put_line(
        b"format",
        &[format.name.bytes(), reach.bytes(), per.bytes()],
        out,
    );
}

fn put_formats<W: TextSink>(table: &Table, out: &mut W)
    ensures { Takes (W.sent out.old) (W.sent out.new) (flat_map format_line table.now.rows) }
{
    for i in 0..table.len() as u8 {
        put_format(&table.row(i), out);
    }
}

// ---- the network

fn put_node<W: TextSink>(name: &Name, out: &mut W)
    ensures { Takes (W.sent out.old) (W.sent out.new) (node_line name.now) }
{
    put_line(b"node", &[name.bytes()], out);
}

fn put_nodes<W: TextSink>(net: &Net, out: &mut W)
    ensures { Takes (W.sent out.old) (W.sent out.new) (flat_map node_line net.now.nodes) }
{
    for i in 0..net.nodes() {
        put_node(&net.node_name(i), out);
    }
}

fn put_fibre<W: TextSink>(net: &Net, fibre: u8, out: &mut W)
    requires graph { IsTrue (is_graph net.now) }
    requires fibre { fibre < length net.now.fibres }
    ensures { Takes (W.sent out.old) (W.sent out.new) (fibre_line net.now.nodes (fibre_at net.now.fibres fibre)) }
{
    let fibre = net.fibre(fibre);
    let (a, b) = (net.node_name(fibre.a), net.node_name(fibre.b));
    let km = digits(u64::from(fibre.km));
    put_line(
        b"fibre",
        &[fibre.name.bytes(), a.bytes(), b.bytes(), km.bytes()],
        out,
    );
}

fn put_fibres<W: TextSink>(net: &Net, out: &mut W)
    ensures { Takes (W.sent out.old) (W.sent out.new) (flat_map (fibre_line net.now.nodes) net.now.fibres) }
{
    for i in 0..net.fibres() {
        put_fibre(net, i, out);
    }
}

// Whether the named group of this number holds the fibre.
fn holds(net: &Net, group: u8, fibre: u8) -> bool
    requires group { group < length net.now.groups }
    requires fibre { fibre < length net.now.fibres }
    ensures { result ≡ has_number (group_at net.now.groups group).fibres fibre }
{
    let risk = u16::from(net.fibres()) + u16::from(group);
    net.risk(fibre).has(risk)
}

fn put_member<W: TextSink>(net: &Net, group: u8, fibre: u8, out: &mut W)
    requires group { group < length net.now.groups }
    requires fibre { fibre < length net.now.fibres }
    ensures { Takes (W.sent out.old) (W.sent out.new) (member_text net.now group fibre) }
{
    if holds(net, group, fibre) {
        put_name(&net.fibre(fibre).name, out);
    }
}

fn put_members<W: TextSink>(net: &Net, group: u8, out: &mut W)
    requires { group < length net.now.groups }
    ensures { Takes (W.sent out.old) (W.sent out.new)
        (behind (names_of_fibres net.now.fibres (group_at net.now.groups group).fibres)) }
{
    for fibre in 0..net.fibres() {
        put_member(net, group, fibre, out);
    }
}

fn group_name(net: &Net, group: u8) -> Name
    requires { group < length net.now.groups }
    ensures { result ≡ (group_at net.now.groups group).name }
{
    net.risk_name(u16::from(net.fibres()) + u16::from(group))
}

fn put_group<W: TextSink>(net: &Net, group: u8, out: &mut W)
    requires { group < length net.now.groups }
    ensures { Takes (W.sent out.old) (W.sent out.new) (group_line net.now.fibres (group_at net.now.groups group)) }
{
    out.put(b"group");
    put_name(&group_name(net, group), out);
    put_members(net, group, out);
    end_line(out);
}

fn put_groups<W: TextSink>(net: &Net, out: &mut W)
    ensures { Takes (W.sent out.old) (W.sent out.new) (flat_map (group_line net.now.fibres) net.now.groups) }
{
    for i in 0..net.groups() {
        put_group(net, i, out);
    }
}

fn put_network<W: TextSink>(net: &Net, out: &mut W)
    ensures { Takes (W.sent out.old) (W.sent out.new) (network_lines net.now) }
{
    put_nodes(net, out);
    put_fibres(net, out);
    put_groups(net, out);
}

// ---- the text

// The version of the text: 2 where the band has more than one part.
fn version(band: &Band) -> u64
    ensures { result ≡ version_of band.now }
{
    if band.parts() <= 1 { 1 } else { 2 }
}

fn put_part<W: TextSink>(part: &Units, out: &mut W)
    ensures { Takes (W.sent out.old) (W.sent out.new) (band_line part.now) }
{
    let lo = signed(i64::from(part.lo()));
    let hi = signed(i64::from(part.hi()));
    put_line(b"band", &[lo.bytes(), hi.bytes()], out);
}

fn put_parts<W: TextSink>(band: &Band, out: &mut W)
    ensures { Takes (W.sent out.old) (W.sent out.new) (flat_map band_line band.now) }
{
    for i in 0..band.parts() {
        put_part(&band.part(i), out);
    }
}

// The lines before the formats.
fn put_front<W: TextSink>(setup: &NetSetup, out: &mut W)
    ensures { Takes (W.sent out.old) (W.sent out.new) (front_text setup.now) }
{
    put_count(b"net", version(&setup.band), out);
    put_parts(&setup.band, out);
    put_count(b"guard", u64::from(setup.table.guard()), out);
    put_count(b"k", u64::from(setup.k), out);
    put_count(b"services", u64::from(setup.services), out);
    put_count(b"journal", u64::from(setup.journal), out);
}

fn put_setup<W: TextSink>(setup: &NetSetup, out: &mut W)
    ensures { Takes (W.sent out.old) (W.sent out.new) (network_text setup.now) }
{
    put_front(setup, out);
    put_formats(&setup.table, out);
    put_network(&setup.net, out);
    put_line(b"end", &[], out);
}

// Prints the text, and ends it.
fn keep_setup(setup: &NetSetup, text: &mut MemoryText) -> Result<(), AllocError>
    requires going { text.old.stopped ≡ false }
    requires begins { text.old.begins ≡ length text.old.bytes.now.items }
    ensures place { text.new.bytes.ghost_name ≡ text.old.bytes.ghost_name }
    ensures ok { OnOk result (text.new.bytes.now.items ≡ text.old.bytes.now.items ++ network_text setup.now) }
    ensures err { OnErr result (text.new.bytes.now.items ≡ text.old.bytes.now.items) }
{
    put_setup(setup, text);
    text.finish()
}

/// Adds the text of the network, with what is planned on it, at the end of the bytes: for a setup in range
/// its one network text. Where memory runs out, the bytes are as before.
pub fn print_net(setup: &NetSetup, out: &mut Vec<u8>) -> Result<(), AllocError>
    ensures ok { OnOk result (out.new.items ≡ out.old.items ++ network_text setup.now) }
    ensures err { OnErr result (out.new.items ≡ out.old.items) }
{
    keep_setup(setup, &mut MemoryText::new(out))
}
