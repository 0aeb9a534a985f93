//! The reach table.
ghost use Rattle.std.specs.Prelude.{◌≡◌, ◌+◌, ◌<◌, ◌≤◌, ◌==◌, ◌&&◌, nat_le, nat_lt, ◌↔◌, List, [], ◌∷◌, ◌++◌, length, Some, IsTrue, IfSome, OnOk, OnErr, slice_get};
ghost use Rattle.std.specs.Option.{option_and_then};
ghost use Rattle.std.specs.List.{list_all, list_any};
ghost use Rattle.eon_model.specs.Names.{same_name, has_name, is_name};
ghost use Rattle.eon_model.specs.Formats.{format_for, need};
ghost use Rattle.eon_model.specs.Candidates.{max_reach};
ghost use Rattle.eon_model.specs.NetworkText.{is_format};
ghost use Rattle.reach_table.specs.Tables.{format_names, is_format_table};

use crate::format::Format;
use eon_base::name::Name;
use std::alloc::Global;
use std::marker::Model;

/// The greatest number of rows.
const MOST_ROWS: usize = 64;

/// The formats of a network in the order of its text, and the guard: how many times 12.5 GHz each slot is
/// wider than its rate needs. There are at most 64 formats, and no two have one name.
#[derive(Drop)]
pub struct Table {
    rows: Vec<Format>,
    guard: u16,
}

impl Model for Table {
    ghost use Rattle.std.specs.Prelude.{IsTrue};
    ghost use Rattle.reach_table.specs.Tables.{FormatTable, is_format_table};

    ghost Value = { FormatTable };

    ghost view = { λ t. record { rows = t.rows.items; guard = t.guard } };

    ghost invariant = { λ t. IsTrue (is_format_table (record { rows = t.rows.items; guard = t.guard })) };
}

/// Why a format was not added.
#[derive(Clone, Copy, Debug, PartialEq, Eq)]
pub enum TableFault {
    /// The table has 64 rows.
    Many,
    /// A row has this name.
    Twice,
    /// There is no memory for it.
    Memory,
}

// Whether the row has this name.
fn is_named(row: &Format, name: &[u8]) -> bool
    ensures { result ≡ same_name name.now row.now.name }
{
    name == row.name.bytes()
}

// Whether some row has this name.
fn is_held(rows: &[Format], name: &[u8]) -> bool
    ensures { result ≡ list_any (λ row. same_name name.now row.name) rows.now }
{
    rows.iter().any(|row| is_named(row, name))
}

// Whether the row reaches so far and puts more into a slot.
fn is_better(row: &Format, km: u32, most: u16) -> bool
    ensures { result ≡ (nat_le km row.now.reach && nat_lt most row.now.per) }
{
    km <= row.reach && most < row.per
}

fn greatest_reach(rows: &[Format]) -> u32
    ensures { result ≡ max_reach rows.now }
{
    let mut reach = 0;
    for row in rows {
        reach = reach.max(row.reach);
    }
    reach
}

// The place of the first of the rows that reach so far and put most into a slot.
fn best_row(rows: &[Format], km: u32) -> Option<u8>
    requires few { length rows.now ≤ 64 }
    requires formats { IsTrue (list_all is_format rows.now) }
    ensures in_range { IfSome result (λ i. i < length rows.now) }
    ensures row { option_and_then (λ i. slice_get rows.now i) result ≡ format_for rows.now km }
{
    let mut best = None;
    let mut most = 0;
    for (i, row) in rows.iter().enumerate() {
        if is_better(row, km, most) {
            best = Some(i as u8);
            most = row.per;
        }
    }
    best
}

impl Table {
    /// A table with no row.
    pub fn new(alloc: Global, guard: u16) -> Table
        requires { guard ≤ 64 }
        ensures rows { result.rows ≡ [] }
        ensures guard { result.guard ≡ guard }
    {
        Table {
            rows: Vec::new(alloc),
            guard,
        }
    }

    /// Adds a row at the end. `Many` where there are 64 rows, else `Twice` where one has the name;
    /// after a fault the table is as before.
    pub fn add(&mut self, f: Format) -> Result<(), TableFault>
        requires reach { 1 ≤ f.reach }
        requires reach_limit { f.reach ≤ 100000 }
        requires per { 1 ≤ f.per }
        requires per_limit { f.per ≤ 10000 }
        ensures ok { OnOk result (self.new.rows ≡ self.old.rows ++ f ∷ []) }
        ensures err { OnErr result (self.new.rows ≡ self.old.rows) }
        ensures guard { self.new.guard ≡ self.old.guard }
        ensures many { (result ≡ Err TableFault.Many) ↔ (length self.old.rows ≡ 64) }
        ensures twice { (result ≡ Err TableFault.Twice) ↔ ((length self.old.rows < 64) × IsTrue (has_name (format_names self.old.rows) f.name)) }
    {
        if self.is_full() {
            return Err(TableFault::Many);
        }
        if self.has_format(&f.name) {
            return Err(TableFault::Twice);
        }
        match self.rows.push(f) {
            Ok(()) => Ok(()),
            Err(_) => Err(TableFault::Memory),
        }
    }

    /// How many rows it has.
    pub fn len(&self) -> usize
        ensures value { result ≡ length self.now.rows }
        ensures valid { IsTrue (is_format_table self.now) }
    {
        self.rows.len()
    }

    /// Whether it has no row.
    pub fn is_empty(&self) -> bool
        ensures { result ≡ (length self.now.rows == 0) }
    {
        self.rows.is_empty()
    }

    /// Whether it has as many rows as a table can have.
    pub fn is_full(&self) -> bool
        ensures { IsTrue result ↔ (length self.now.rows ≡ 64) }
    {
        self.rows.len() >= MOST_ROWS
    }

    /// Whether a row has this name.
    pub fn has_format(&self, name: &Name) -> bool
        ensures value { result ≡ has_name (format_names self.now.rows) name.now }
        ensures name { IsTrue (is_name name.now) }
    {
        is_held(&self.rows, name.bytes())
    }

    /// How many times 12.5 GHz each slot is wider than its rate needs.
    pub fn guard(&self) -> u16
        ensures value { result ≡ self.now.guard }
        ensures valid { IsTrue (is_format_table self.now) }
    {
        self.guard
    }

    /// The row at a place.
    pub fn row(&self, i: u8) -> Format
        requires { i < length self.now.rows }
        ensures { slice_get self.now.rows i ≡ Some result }
    {
        self.rows[usize::from(i)]
    }

    /// The greatest reach of a row in km, and 0 where there is no row.
    pub fn max_reach(&self) -> u32
        ensures { result ≡ max_reach self.now.rows }
    {
        greatest_reach(&self.rows)
    }

    /// The place of the format for a length in km: the first of the rows that reach so far and put most
    /// into a slot. None exactly where no row reaches so far.
    pub fn pick(&self, km: u32) -> Option<u8>
        ensures in_range { IfSome result (λ i. i < length self.now.rows) }
        ensures row { option_and_then (λ i. slice_get self.now.rows i) result ≡ format_for self.now.rows km }
    {
        best_row(&self.rows, km)
    }
}

/// How many times 12.5 GHz wide the slot is that carries a rate in Gbit/s over a length in km, with the
/// guard. None exactly where no row reaches so far.
pub fn need(table: &Table, rate: u32, km: u32) -> Option<u16>
    requires rate { 1 ≤ rate }
    requires rate_limit { rate ≤ 60000 }
    ensures { result ≡ need table.now.rows table.now.guard rate km }
{
    let guard = table.guard();
    let row = table.row(table.pick(km)?);
    Some(rate.div_ceil(u32::from(row.per)) as u16 + guard)
}
