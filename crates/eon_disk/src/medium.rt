//! Bytes that are written, cut and synced in memory.
ghost use Rattle.std.specs.Prelude.{◌≡◌, ◌+◌, ◌-◌, ◌/◌, ◌<◌, ◌≤◌, ◌^◌, ℕ, List, map, length, IfOk, vec_len, vec_capacity, if◌then◌else◌};
ghost use Rattle.eon_model.specs.Disk.{put};
ghost use Rattle.eon_model.specs.DiskImages.{IsImage};
ghost use Rattle.eon_disk.specs.HeldBytes.{Roomy, begun, with_piece, cut_to, synced, is_in, HasByteIn};

use crate::moments::Moments;
use std::alloc::{AllocError, Global};
use std::marker::Model;

/// Places that were written: so many from an offset on.
#[derive(Clone, Copy, Debug)]
struct Range {
    at: u64,
    count: u64,
}

/// Bytes, with the ranges of them that were written since the last sync.
#[derive(Drop)]
pub(crate) struct Medium {
    bytes: Vec<u8>,
    ranges: Vec<Range>,
    moments: Moments,
}

impl Model for Medium {
    ghost Value = { Roomy };

    ghost view = { λ m. record {
      held = record { bytes = m.bytes.items; pending = m.moments.track.pending; past = m.moments.track.past };
      bytes_more = vec_capacity m.bytes - vec_len m.bytes;
      ranges_more = vec_capacity m.ranges - vec_len m.ranges;
    } };

    ghost invariant = { λ m. IsImage m.moments.track.pending m.bytes.items
        × ((i : ℕ) → is_in m.moments.track.pending.written i ≡ is_in (map (λ r. (r.at, r.count)) m.ranges.items) i) };
}

impl Medium {
    /// These bytes, with memory for `room` more, and for a range for each 64 of it.
    pub(crate) fn new(alloc: Global, bytes: Vec<u8>, room: usize) -> Result<Medium, AllocError>
        ensures held { IfOk result (λ m. m.held ≡ begun bytes.items) }
        ensures bytes_more { IfOk result (λ m. room ≤ m.bytes_more) }
        ensures ranges_more { IfOk result (λ m. room / 64 ≤ m.ranges_more) }
    {
        let mut bytes = bytes;
        bytes.reserve(room)?;
        let ranges = Vec::with_capacity(alloc, room / 64)?;
        let moments = Moments::of(&bytes);
        Ok(Medium {
            bytes,
            ranges,
            moments,
        })
    }

    /// The bytes as read, which are an image.
    pub(crate) fn bytes(&self) -> &[u8]
        ensures bytes { result.now ≡ self.now.held.bytes }
        ensures image { IsImage self.now.held.pending self.now.held.bytes }
    {
        self.bytes.as_slice()
    }

    /// Writes a piece over what is there, and past the end.
    pub(crate) fn put(&mut self, at: usize, piece: &[u8])
        requires within { at ≤ length self.old.held.bytes }
        requires bytes_more { length piece.now ≤ self.old.bytes_more }
        requires ranges_more { 0 < self.old.ranges_more }
        ensures held { self.new.held ≡ with_piece at piece.now self.old.held }
        ensures bytes_more { self.old.bytes_more ≤ self.new.bytes_more + length piece.now }
        ensures ranges_more { self.old.ranges_more ≤ self.new.ranges_more + 1 }
    {
        put_piece(&mut self.bytes, at, piece);
        let range = Range {
            at: at as u64,
            count: piece.len() as u64,
        };
        match self.ranges.push(range) {
            Ok(()) => self.moments.wrote(range.at, range.count),
            Err(_) => unreachable!(),
        }
    }

    /// Cuts the bytes to a length.
    pub(crate) fn cut(&mut self, len: usize)
        requires within { len ≤ length self.old.held.bytes }
        ensures held { self.new.held ≡ cut_to len self.old.held }
        ensures bytes_more { self.old.bytes_more ≤ self.new.bytes_more }
        ensures ranges_more { self.old.ranges_more ≤ self.new.ranges_more }
    {
        self.bytes.truncate(len);
        self.moments.cut(len as u64);
    }

    /// From here on nothing is pending.
    pub(crate) fn sync(&mut self)
        ensures held { self.new.held ≡ synced self.old.held }
        ensures bytes_more { self.old.bytes_more ≤ self.new.bytes_more }
        ensures ranges_more { self.old.ranges_more ≤ self.new.ranges_more }
    {
        self.ranges.clear();
        self.moments.synced(&self.bytes);
    }

    /// The bytes as read.
    pub(crate) fn into_bytes(self) -> Vec<u8>
        ensures { result.items ≡ self.held.bytes }
    {
        self.bytes
    }

    /// The bytes as read, with this byte in each place that was written since the last sync.
    pub(crate) fn into_filled(self, byte: u8) -> Vec<u8>
        ensures { HasByteIn byte self.held.pending.written self.held.bytes result.items }
    {
        let mut bytes = self.bytes;
        fill_places(&mut bytes, &self.ranges, byte);
        bytes
    }
}

// Writes a piece over these bytes and past their end.
fn put_piece(bytes: &mut Vec<u8>, at: usize, piece: &[u8])
    requires within { at ≤ length bytes.old.items }
    requires spare { vec_len bytes.old + length piece.now ≤ vec_capacity bytes.old }
    ensures items { bytes.new.items ≡ put at piece.now bytes.old.items }
    ensures len { vec_len bytes.new ≤ vec_len bytes.old + length piece.now }
    ensures capacity { vec_capacity bytes.old ≤ vec_capacity bytes.new }
{
    let over = piece.len().min(bytes.len() - at);
    write_over(bytes, at, &piece[..over]);
    match bytes.extend_from_slice(&piece[over..]) {
        Ok(()) => {}
        Err(_) => unreachable!(),
    }
}

// Writes a piece over bytes that reach as far.
fn write_over(bytes: &mut [u8], at: usize, piece: &[u8])
    requires { at + length piece.now ≤ length bytes.old }
    ensures { bytes.new ≡ put at piece.now bytes.old }
{
    bytes[at..at + piece.len()].copy_from_slice(piece);
}

// Puts the byte into each place of a range.
fn fill_places(bytes: &mut [u8], ranges: &[Range], byte: u8)
    ensures { HasByteIn byte (map (λ r. (r.at, r.count)) ranges.now) bytes.old bytes.new }
{
    for i in 0..bytes.len() {
        bytes[i] = filled(has_place(ranges, i as u64), byte, bytes[i]);
    }
}

// What stands in a place afterwards.
fn filled(is_written: bool, byte: u8, was: u8) -> u8
    ensures { result ≡ (if is_written then byte else was) }
{
    if is_written { byte } else { was }
}

// Whether one of the ranges has the place.
fn has_place(ranges: &[Range], place: u64) -> bool
    ensures { result ≡ is_in (map (λ r. (r.at, r.count)) ranges.now) place }
{
    for range in ranges {
        if range.at <= place && place - range.at < range.count {
            return true;
        }
    }
    false
}
