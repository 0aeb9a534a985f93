//! Files held in memory, read in pieces, with faults at chosen calls.
ghost use Rattle.std.specs.Prelude.{◌≡◌, ℕ, ◌+◌, ◌<◌, ◌≤◌, not, ◌&&◌, [], ◌∷◌, ◌++◌, length, min, map, take, drop, List, Option, IfOk, IfSome, Some, None, is_ok, is_err, is_some, option_map, string_bytes};
ghost use Rattle.std.specs.FinMap.{get, find, from_entries};
ghost use Rattle.std.specs.Ordering.{nat_cmp};
ghost use Rattle.std.specs.Cmp.Lexicographic.{slice_cmp};
ghost use Rattle.std.specs.Io.{ReadsAtMost};
ghost use Rattle.std.specs.Io.KnownBytes.{ReadConsumes};
ghost use Rattle.eon_outside.specs.Faults.{Counts};
ghost use Rattle.eon_outside.specs.Reading.{Opens, OpensCalmly, StaysCalm};
ghost use Rattle.eon_outside.specs.Memory.{HeldFiles, is_due, is_calm, after_call, plan_of, bytes_at, files_code};

use crate::call_plan::CallPlan;
use crate::opened_names::OpenedNames;
use crate::reading::{Failed, Shelf};
use std::marker::Model;

/// Files held in memory. It tells everything: its files, what is left of the open one, and the names it was asked for.
/// Of entries with one name the first counts.
#[derive(Drop)]
pub struct MemShelf {
    files: Vec<(String, Vec<u8>)>,
    current: Option<OpenFile>,
    most: usize,
    plan: CallPlan,
    opened: OpenedNames,
}

/// A file by its place among the entries, and how many of its bytes were read.
#[derive(Clone, Copy)]
struct OpenFile {
    entry: usize,
    at: usize,
}

impl Model for MemShelf {
    ghost Value = { HeldFiles };

    ghost coded = { files_code };

    ghost view = { λ s.
        let entries = map (λ file. (string_bytes file.0, file.1.items)) s.files.items in
        record {
          files = from_entries entries;
          left = elim s.current [ None ↦ [] | Some file ↦ drop file.at (bytes_at entries file.entry) ];
          opened = s.opened.names;
          most = s.most;
          plan = s.plan;
        } };

    ghost invariant = { λ s.
        let entries = map (λ file. (string_bytes file.0, file.1.items)) s.files.items in
        (0 < s.most)
        × IfSome s.current (λ file. (file.entry < length s.files.items) × (file.at ≤ length (bytes_at entries file.entry))) };
}

impl MemShelf {
    /// These files, of which none is open. A read gives at most `most` bytes. The calls whose numbers, counted from 1,
    /// are in `fails` fail, and so does opening a name that is not there; no other call does.
    pub fn new(files: Vec<(String, Vec<u8>)>, most: usize, fails: Vec<u64>) -> MemShelf
        requires { 0 < most }
        ensures files { result.files ≡ from_entries (map (λ file. (string_bytes file.0, file.1.items)) files.items) }
        ensures left { result.left ≡ [] }
        ensures opened { result.opened ≡ [] }
        ensures most { result.most ≡ most }
        ensures plan { result.plan ≡ plan_of fails.items }
    {
        MemShelf {
            files,
            current: None,
            most,
            plan: CallPlan::new(fails),
            opened: OpenedNames::new(),
        }
    }

    /// How many calls were made.
    pub fn calls(&self) -> u64
        ensures { result ≡ self.now.plan.calls }
    {
        self.plan.calls()
    }

    /// How many calls failed.
    pub fn faults(&self) -> u64
        ensures { result ≡ self.now.plan.faults }
    {
        self.plan.faults()
    }
}

impl Shelf for MemShelf {
    ghost files = { λ s. Some s.files };

    ghost left = { λ s. Some s.left };

    ghost opened = { λ s. s.opened };

    ghost faults = { λ s. s.plan.faults };

    ghost calm = { λ s. is_calm s.plan.fails };

    fn open(&mut self, name: &str) -> Result<(), Failed>
        ensures bytes { Opens (Some self.old.files) name.now (Some self.new.left) result }
        ensures files { self.new.files ≡ self.old.files }
        ensures opened { self.new.opened ≡ self.old.opened ++ name.now ∷ [] }
        ensures counts { Counts self.old.plan.faults self.new.plan.faults result }
        ensures calm { OpensCalmly (is_calm self.old.plan.fails) (is_calm self.new.plan.fails) (Some self.old.files) name.now result }
        ensures when { is_ok result ≡ (not (is_due self.old.plan) && is_some (get self.old.files name.now)) }
        ensures plan { self.new.plan ≡ after_call self.old.plan (is_err result) }
        ensures most { self.new.most ≡ self.old.most }
    {
        self.opened.note(name.as_bytes());
        self.current = None;
        if self.plan.next_fails() {
            self.plan.count_fault();
            return Err(Failed);
        }
        match find_file(&self.files, name) {
            None => {
                self.plan.count_fault();
                Err(Failed)
            }
            Some(entry) => {
                self.current = Some(OpenFile { entry, at: 0 });
                Ok(())
            }
        }
    }

    fn read(&mut self, buf: &mut [u8]) -> Result<usize, Failed>
        ensures bound { ReadsAtMost result buf.new }
        ensures bytes { ReadConsumes (Some self.old.left) (Some self.new.left) result buf.new }
        ensures files { self.new.files ≡ self.old.files }
        ensures opened { self.new.opened ≡ self.old.opened }
        ensures counts { Counts self.old.plan.faults self.new.plan.faults result }
        ensures calm { StaysCalm (is_calm self.old.plan.fails) (is_calm self.new.plan.fails) result }
        ensures when { is_ok result ≡ not (is_due self.old.plan) }
        ensures count { IfOk result (λ n. n ≡ min self.old.most (min (length buf.old) (length self.old.left))) }
        ensures plan { self.new.plan ≡ after_call self.old.plan (is_err result) }
        ensures most { self.new.most ≡ self.old.most }
    {
        if self.plan.next_fails() {
            self.plan.count_fault();
            return Err(Failed);
        }
        match self.current {
            None => Ok(0),
            Some(file) => {
                let bytes = self.files[file.entry].1.as_slice();
                let count = copy_front(&bytes[file.at..], buf, self.most);
                self.current = Some(OpenFile {
                    entry: file.entry,
                    at: file.at + count,
                });
                Ok(count)
            }
        }
    }
}

/// The place of the first file of this name.
fn find_file(files: &[(String, Vec<u8>)], name: &str) -> Option<usize>
    ensures within { IfSome result (λ i. i < length files.now) }
    ensures first { let entries = map (λ file. (string_bytes file.0, file.1.items)) files.now in
        find (slice_cmp nat_cmp) name.now entries ≡ option_map (bytes_at entries) result }
{
    for (i, file) in files.iter().enumerate() {
        if name == file.0.as_str() {
            return Some(i);
        }
    }
    None
}

/// Copies the front of `from` to the front of `buf`, as much as both have room for and at most `most` bytes.
fn copy_front(from: &[u8], buf: &mut [u8], most: usize) -> usize
    ensures count { result ≡ min most (min (length buf.old) (length from.now)) }
    ensures bytes { take result buf.new ≡ take result from.now }
{
    let count = most.min(buf.len().min(from.len()));
    buf[..count].copy_from_slice(&from[..count]);
    count
}
