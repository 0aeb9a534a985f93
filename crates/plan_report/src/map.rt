//! The map of a fibre.
ghost use Rattle.std.specs.Prelude.{◌≡◌, ◌<◌, ◌≤◌, [], ◌∷◌, ◌++◌, codes, false, length, IsTrue, OnOk, IfOk};
ghost use Rattle.std.specs.Fmt.{decimal};
ghost use Rattle.std.specs.List.{flat_map};
ghost use Rattle.eon_model.specs.Legal.{Legal};
ghost use Rattle.eon_model.specs.Listings as listings;
ghost use Rattle.eon_model.specs.NetworkText.{is_setup};
ghost use Rattle.eon_model.specs.Spelling.{line};
ghost use Rattle.line_writer.specs.Sent.{Takes};
ghost use Rattle.plan_report.specs.Mapped.{line_seen, lines_seen};

use crate::lines::{MapLine, Shown, add_services, runs_of};
use crate::rows::{Kind, MOST_UNITS, band_units, count_row};
use crate::text::Text;
use eon_base::name::Name;
use eon_base::number::{digits, signed};
use leg_state::services::Services;
use line_writer::{MemoryText, TextSink, put_line};
use net_setup::NetSetup;
use std::alloc::{AllocError, Global};

// The runs of units that shared backups hold on the fibre.
fn held_lines(
    alloc: Global,
    setup: &NetSetup,
    services: &Services,
    fibre: u8,
) -> Result<Vec<MapLine>, AllocError>
    requires { length services.now.list ≤ 65535 }
    ensures { IfOk result (λ v. lines_seen v.items ≡ listings.held_lines setup.now fibre services.now.list) }
{
    let mut row = [0; MOST_UNITS];
    let counts = &mut row[..band_units(&setup.band)];
    let lowest = setup.band.lo();
    count_row(counts, lowest, fibre, Kind::Held, services);
    runs_of(alloc, counts, lowest)
}

// The lines of the fibre's map, from the lowest unit up.
fn map_lines(
    alloc: Global,
    setup: &NetSetup,
    services: &Services,
    fibre: u8,
) -> Result<Vec<MapLine>, AllocError>
    requires { length services.now.list ≤ 65535 }
    ensures { IfOk result (λ v. lines_seen v.items ≡ listings.map_lines setup.now fibre services.now.list) }
{
    let mut lines = held_lines(alloc, setup, services, fibre)?;
    add_services(&mut lines, fibre, services)?;
    Ok(lines)
}

fn put_map_line<W: TextSink>(line: &MapLine, out: &mut W)
    ensures { Takes (W.sent out.old) (W.sent out.new) (listings.map_line (line_seen line.now)) }
{
    let lo = signed(i64::from(line.lo));
    let hi = signed(i64::from(line.hi));
    match &line.shown {
        Shown::Lit(name) => put_line(b"lit", &[lo.bytes(), hi.bytes(), name.bytes()], out),
        Shown::Held(count) => {
            let count = digits(u64::from(*count));
            put_line(b"held", &[lo.bytes(), hi.bytes(), count.bytes()], out);
        }
    }
}

fn put_map_lines<W: TextSink>(lines: &[MapLine], out: &mut W)
    ensures { Takes (W.sent out.old) (W.sent out.new) (flat_map listings.map_line (lines_seen lines.now)) }
{
    for line in lines {
        put_map_line(line, out);
    }
}

// The first line, with the fibre's name and the number of lines below.
fn put_first_line<W: TextSink>(name: &Name, count: usize, out: &mut W)
    ensures { Takes (W.sent out.old) (W.sent out.new) (line (codes "map" ∷ name.now ∷ decimal count ∷ [])) }
{
    let count = digits(count as u64);
    put_line(b"map", &[name.bytes(), count.bytes()], out);
}

// The first line, and the lines below.
fn keep_map(name: &Name, lines: &[MapLine], text: &mut MemoryText) -> Result<(), AllocError>
    requires going { text.old.stopped ≡ false }
    requires begins { text.old.begins ≡ length text.old.bytes.now.items }
    ensures place { text.new.bytes.ghost_name ≡ text.old.bytes.ghost_name }
    ensures ok { OnOk result (text.new.bytes.now.items ≡ text.old.bytes.now.items
        ++ (line (codes "map" ∷ name.now ∷ decimal (length lines.now) ∷ []) ++ flat_map listings.map_line (lines_seen lines.now))) }
{
    put_first_line(name, lines.len(), text);
    put_map_lines(lines, text);
    text.finish()
}

/// The map of a fibre in a legal state: a first line with its name and the number of lines below, and then
/// one line for each working path and each dual backup on it, and for each longest run of units of 6.25 GHz that
/// the same number of shared backups hold, from the lowest unit up. Want of memory is the only failure.
pub fn map_text(
    alloc: Global,
    setup: &NetSetup,
    services: &Services,
    fibre: u8,
) -> Result<Text, AllocError>
    requires setup { IsTrue (is_setup setup.now) }
    requires legal { Legal setup.now services.now.list }
    requires fibre { fibre < length setup.now.network.fibres }
    ensures { IfOk result (λ t. t ≡ listings.map_text setup.now services.now.list fibre) }
{
    let lines = map_lines(alloc, setup, services, fibre)?;
    let name = setup.net.fibre(fibre).name;
    let mut out = Vec::new(alloc);
    keep_map(&name, &lines, &mut MemoryText::new(&mut out))?;
    Ok(Text::of(out))
}
