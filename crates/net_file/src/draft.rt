//! What the lines so far have told.
ghost use Rattle.std.specs.Prelude.{◌≡◌, ℕ, ◌≤◌, ◌&&◌, List, [], length, IsTrue, is_some, drop, slice_get, option_map, option_and_then, OnOk, IfOk, IfErr, Some, Ok, Err, if◌then◌else◌};
ghost use Rattle.net_file.specs.Steps.{IsFaultOf, fault_of, graph_why, format_step, node_step, fibre_step, group_step, line_step, setup_step, setup_told, has_end, has_its_parts, may_come};
ghost use Rattle.net_file.specs.LineWords.{number_in};
ghost use Rattle.eon_model.specs.NetworkFault as model;
ghost use Rattle.eon_model.specs.NetworkFault.{word_spelled};
ghost use Rattle.eon_model.specs.Spelling.{fields_of};
ghost use Rattle.eon_model.specs.Numerals.{is_within};
ghost use Rattle.net_file.specs.Readings.{is_nil};
ghost use Rattle.net_file.specs.Drafts.{draft_seen, draft_setup, blank, Sound};
ghost use Rattle.net_file.specs.Told.{word_told};

use crate::fault::{LineFault, Why};
use crate::fields::Fields;
use crate::line_words::{fibre_words, format_words, names_left, node_words, number_in};
use crate::parts::{band_told, parts_told};
use crate::word::{Word, word_spelled};
use eon_base::name::Name;
use flex_grid::band::Band;
use net_graph::graph::{GraphFault, NetBuilder};
use net_setup::NetSetup;
use reach_table::format::Format;
use reach_table::table::{Table, TableFault};
use std::alloc::Global;

/// The greatest version of a text: 1 where the band has one part, 2 where it has more.
const MOST_VERSION: u64 = 2;

/// The greatest reach of a format, and the greatest length of a fibre, in kilometres.
const MOST_KM: u64 = 100_000;

/// The greatest number of Gbit/s per slot of 12.5 GHz.
const MOST_PER: u64 = 10_000;

/// The greatest guard beside a slot.
const MOST_GUARD: u64 = 64;

/// The greatest number of routes that are tried.
const MOST_ROUTES: u64 = 16;

/// The greatest number of live services.
const MOST_SERVICES: u64 = 4096;

/// The least and the greatest number of bytes of a journal.
const LEAST_JOURNAL: u64 = 4096;

const MOST_JOURNAL: u64 = 67_108_864;

// What the lines so far have told. What they have not told yet is in range.
#[derive(Drop)]
pub(crate) struct Draft {
    last: Option<Word>,
    version: u8,
    band: Option<Band>,
    k: u8,
    services: u16,
    journal: u32,
    table: Table,
    builder: NetBuilder,
    members: Vec<Name>,
    alloc: Global,
}

// Whether a reach and a number per slot are in range.
fn has_format_ranges(reach: u64, per: u64) -> bool
    ensures value { result ≡ (is_within 1 100000 reach && is_within 1 10000 per) }
    ensures range { IsTrue result → ((1 ≤ reach) × (reach ≤ 100000) × (1 ≤ per) × (per ≤ 10000)) }
{
    1 <= reach && reach <= MOST_KM && 1 <= per && per <= MOST_PER
}

// Adds a line of the reach table.
#[tactic(auto, unfolding(crate::specs::Steps::format_step))]
fn add_format(table: &mut Table, fields: &mut Fields<'_>) -> Result<(), LineFault>
    requires { length table.old.rows ≤ 64 }
    ensures ok { OnOk result (format_step table.old.rows fields.old ≡ Ok table.new.rows) }
    ensures guard { OnOk result (table.new.guard ≡ table.old.guard) }
    ensures err { IfErr result (λ e. IsFaultOf e (format_step table.old.rows fields.old)) }
{
    let Some(words) = format_words(fields) else {
        return Err(LineFault::Cause(Why::Form));
    };
    if !has_format_ranges(words.reach, words.per) {
        return Err(LineFault::Cause(Why::Range));
    }
    let format = Format {
        name: words.name,
        reach: words.reach as u32,
        per: words.per as u16,
    };
    match table.add(format) {
        Ok(()) => Ok(()),
        Err(TableFault::Many) => Err(LineFault::Cause(Why::Many)),
        Err(TableFault::Twice) => Err(LineFault::Cause(Why::Twice)),
        Err(TableFault::Memory) => Err(LineFault::Memory),
    }
}

// The cause that a fault of the network is.
fn graph_fault(fault: GraphFault) -> LineFault
    ensures { result ≡ fault_of (graph_why fault) }
{
    match fault {
        GraphFault::Memory => LineFault::Memory,
        GraphFault::Many => LineFault::Cause(Why::Many),
        GraphFault::Order => LineFault::Cause(Why::Order),
        GraphFault::Unknown => LineFault::Cause(Why::Unknown),
        GraphFault::SelfEnd => LineFault::Cause(Why::SelfEnd),
        GraphFault::Twice => LineFault::Cause(Why::Twice),
        GraphFault::Groups => LineFault::Cause(Why::Groups),
    }
}

// Adds a node.
#[tactic(auto, unfolding(crate::specs::Steps::node_step))]
fn add_node(builder: &mut NetBuilder, fields: &mut Fields<'_>) -> Result<(), LineFault>
    ensures ok { OnOk result (node_step builder.old fields.old ≡ Ok builder.new) }
    ensures err { IfErr result (λ e. IsFaultOf e (node_step builder.old fields.old)) }
{
    let Some(name) = node_words(fields) else {
        return Err(LineFault::Cause(Why::Form));
    };
    match builder.add_node(name) {
        Ok(_) => Ok(()),
        Err(fault) => Err(graph_fault(fault)),
    }
}

// Adds a fibre.
#[tactic(auto, unfolding(crate::specs::Steps::fibre_step))]
fn add_fibre(builder: &mut NetBuilder, fields: &mut Fields<'_>) -> Result<(), LineFault>
    requires { builder.old.groups ≡ [] }
    ensures ok { OnOk result (fibre_step builder.old fields.old ≡ Ok builder.new) }
    ensures err { IfErr result (λ e. IsFaultOf e (fibre_step builder.old fields.old)) }
{
    let Some(words) = fibre_words(fields) else {
        return Err(LineFault::Cause(Why::Form));
    };
    if words.km < 1 || words.km > MOST_KM {
        return Err(LineFault::Cause(Why::Range));
    }
    match builder.add_fibre(words.name, words.a, words.b, words.km as u32) {
        Ok(_) => Ok(()),
        Err(fault) => Err(graph_fault(fault)),
    }
}

// Adds a group.
#[tactic(auto, unfolding(crate::specs::Steps::group_step))]
fn add_group(
    builder: &mut NetBuilder,
    members: &mut Vec<Name>,
    fields: &mut Fields<'_>,
) -> Result<(), LineFault>
    ensures ok { OnOk result (group_step builder.old fields.old ≡ Ok builder.new) }
    ensures err { IfErr result (λ e. IsFaultOf e (group_step builder.old fields.old)) }
{
    let Some(name) = fields.name() else {
        return Err(LineFault::Cause(Why::Form));
    };
    match names_left(fields, members) {
        Ok(true) => {}
        Ok(false) => return Err(LineFault::Cause(Why::Form)),
        Err(_) => return Err(LineFault::Memory),
    }
    if members.is_empty() {
        return Err(LineFault::Cause(Why::Form));
    }
    match builder.add_group(name, members) {
        Ok(_) => Ok(()),
        Err(fault) => Err(graph_fault(fault)),
    }
}

fn no_more(fields: &Fields<'_>) -> Result<(), LineFault>
    ensures { result ≡ (if is_nil fields.now then Ok tt else Err (LineFault.Cause Why.Form)) }
{
    if fields.is_done() {
        Ok(())
    } else {
        Err(LineFault::Cause(Why::Form))
    }
}

// The line's word, which is its first field.
fn first_word(fields: &mut Fields<'_>) -> Option<Word>
    ensures value { option_map word_told result ≡ option_and_then word_spelled (slice_get fields.old 0) }
    ensures after { fields.new ≡ drop 1 fields.old }
{
    let field = fields.next_field()?;
    word_spelled(field)
}

// A number of this range and no more.
#[tactic(auto, unfolding(crate::specs::LineWords::number_in))]
fn number_told(fields: &mut Fields<'_>, least: u64, most: u64) -> Result<u64, LineFault>
    ensures ok { IfOk result (λ n. number_in least most fields.old ≡ Ok n) }
    ensures range { IfOk result (λ n. n ≤ most) }
    ensures err { IfErr result (λ e. IsFaultOf e (number_in least most fields.old)) }
{
    match number_in(fields, least, most) {
        Ok(number) => Ok(number),
        Err(why) => Err(LineFault::Cause(why)),
    }
}

impl Draft {
    // Nothing is told.
    pub(crate) fn new(alloc: Global) -> Draft
        ensures { draft_seen result ≡ blank }
    {
        Draft {
            last: None,
            version: 1,
            band: None,
            k: 1,
            services: 1,
            journal: LEAST_JOURNAL as u32,
            table: Table::new(alloc, 0),
            builder: NetBuilder::new(alloc),
            members: Vec::new(alloc),
            alloc,
        }
    }

    #[tactic(auto, unfolding(crate::specs::Steps::setup_step))]
    fn take_version(&mut self, fields: &mut Fields<'_>) -> Result<(), LineFault>
        ensures ok { OnOk result (setup_step model.Net (draft_setup self.old) fields.old ≡ Ok (draft_setup self.new)) }
        ensures err { IfErr result (λ e. IsFaultOf e (setup_step model.Net (draft_setup self.old) fields.old)) }
    {
        self.version = number_told(fields, 1, MOST_VERSION)? as u8;
        Ok(())
    }

    #[tactic(auto, unfolding(crate::specs::Steps::setup_step))]
    fn take_band(&mut self, fields: &mut Fields<'_>) -> Result<(), LineFault>
        ensures ok { OnOk result (setup_step model.Band (draft_setup self.old) fields.old ≡ Ok (draft_setup self.new)) }
        ensures err { IfErr result (λ e. IsFaultOf e (setup_step model.Band (draft_setup self.old) fields.old)) }
    {
        match band_told(self.version, &self.band, fields) {
            Ok(band) => {
                self.band = Some(band);
                Ok(())
            }
            Err(why) => Err(LineFault::Cause(why)),
        }
    }

    #[tactic(auto, unfolding(crate::specs::Steps::setup_step))]
    fn take_guard(&mut self, fields: &mut Fields<'_>) -> Result<(), LineFault>
        ensures ok { OnOk result (setup_step model.Guard (draft_setup self.old) fields.old ≡ Ok (draft_setup self.new)) }
        ensures err { IfErr result (λ e. IsFaultOf e (setup_step model.Guard (draft_setup self.old) fields.old)) }
    {
        let guard = number_told(fields, 0, MOST_GUARD)?;
        self.table = Table::new(self.alloc, guard as u16);
        Ok(())
    }

    #[tactic(auto, unfolding(crate::specs::Steps::setup_step))]
    fn take_k(&mut self, fields: &mut Fields<'_>) -> Result<(), LineFault>
        ensures ok { OnOk result (setup_step model.K (draft_setup self.old) fields.old ≡ Ok (draft_setup self.new)) }
        ensures err { IfErr result (λ e. IsFaultOf e (setup_step model.K (draft_setup self.old) fields.old)) }
    {
        self.k = number_told(fields, 1, MOST_ROUTES)? as u8;
        Ok(())
    }

    #[tactic(auto, unfolding(crate::specs::Steps::setup_step))]
    fn take_services(&mut self, fields: &mut Fields<'_>) -> Result<(), LineFault>
        ensures ok { OnOk result (setup_step model.Services (draft_setup self.old) fields.old ≡ Ok (draft_setup self.new)) }
        ensures err { IfErr result (λ e. IsFaultOf e (setup_step model.Services (draft_setup self.old) fields.old)) }
    {
        self.services = number_told(fields, 1, MOST_SERVICES)? as u16;
        Ok(())
    }

    #[tactic(auto, unfolding(crate::specs::Steps::setup_step))]
    fn take_journal(&mut self, fields: &mut Fields<'_>) -> Result<(), LineFault>
        ensures ok { OnOk result (setup_step model.Journal (draft_setup self.old) fields.old ≡ Ok (draft_setup self.new)) }
        ensures err { IfErr result (λ e. IsFaultOf e (setup_step model.Journal (draft_setup self.old) fields.old)) }
    {
        self.journal = number_told(fields, LEAST_JOURNAL, MOST_JOURNAL)? as u32;
        Ok(())
    }

    // Takes what stands behind the word.
    #[tactic(auto, unfolding(crate::specs::Steps::setup_step))]
    fn take_words(&mut self, word: Word, fields: &mut Fields<'_>) -> Result<(), LineFault>
        requires formats { length self.old.table.rows ≤ 64 }
        requires groups { (word ≡ Word.Fibre) → (self.old.builder.groups ≡ []) }
        ensures ok { OnOk result (setup_step (word_told word) (draft_setup self.old) fields.old ≡ Ok (draft_setup self.new)) }
        ensures err { IfErr result (λ e. IsFaultOf e (setup_step (word_told word) (draft_setup self.old) fields.old)) }
    {
        match word {
            Word::Net => self.take_version(fields),
            Word::Band => self.take_band(fields),
            Word::Guard => self.take_guard(fields),
            Word::K => self.take_k(fields),
            Word::Services => self.take_services(fields),
            Word::Journal => self.take_journal(fields),
            Word::Format => add_format(&mut self.table, fields),
            Word::Node => add_node(&mut self.builder, fields),
            Word::Fibre => add_fibre(&mut self.builder, fields),
            Word::Group => add_group(&mut self.builder, &mut self.members, fields),
            Word::End => no_more(fields),
        }
    }

    // Whether the parts of the band that are told so far let the word stand next: in version 2 a second
    // part has to follow the first, and in version 1 none may.
    fn has_its_parts(&self, word: Word) -> bool
        ensures { result ≡ has_its_parts (draft_setup self.now) (word_told word) }
    {
        match word {
            Word::Band => self.band.is_none() || self.version == 2,
            Word::Guard => self.version != 2 || parts_told(&self.band) >= 2,
            _ => true,
        }
    }

    // Whether a line with the word may come next.
    fn may_come(&self, word: Word) -> bool
        ensures { result ≡ may_come (draft_seen self.now) (word_told word) }
    {
        word.may_stand_after(self.last) && self.has_its_parts(word)
    }

    // Whether the line `end` has come.
    pub(crate) fn has_ended(&self) -> bool
        ensures { result ≡ has_end (option_map word_told self.now.last) }
    {
        matches!(self.last, Some(Word::End))
    }

    // Takes the next line. Where it is refused, what was told is lost.
    #[tactic(auto, unfolding(crate::specs::Steps::line_step))]
    pub(crate) fn take_line(&mut self, line: &[u8]) -> Result<(), LineFault>
        requires { Sound (draft_seen self.old) }
        ensures ok { OnOk result (line_step (draft_seen self.old) (fields_of line.now) ≡ Ok (draft_seen self.new)) }
        ensures err { IfErr result (λ e. IsFaultOf e (line_step (draft_seen self.old) (fields_of line.now))) }
    {
        if self.has_ended() {
            return Err(LineFault::Cause(Why::Rest));
        }
        let mut fields = Fields::new(line);
        let Some(word) = first_word(&mut fields) else {
            return Err(LineFault::Cause(Why::Word));
        };
        if !self.may_come(word) {
            return Err(LineFault::Cause(Why::Word));
        }
        self.take_words(word, &mut fields)?;
        self.last = Some(word);
        Ok(())
    }

    // The network that was told.
    pub(crate) fn finish(self) -> NetSetup
        requires { IsTrue (is_some self.band) }
        ensures { result ≡ setup_told (draft_setup self) }
    {
        let Some(band) = self.band else {
            unreachable!()
        };
        NetSetup {
            net: self.builder.build(),
            band,
            table: self.table,
            k: self.k,
            services: self.services,
            journal: self.journal,
        }
    }
}
