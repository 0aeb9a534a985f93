//! One row of the units of a band, in words on the stack.

ghost use Rattle.std.specs.Prelude.{◌≡◌, ℕ, ◌≤◌, pos, ◌+ℤ◌, ◌≤ℤ◌, ◌&&◌, ◌||◌, not, nat_lt, false, IsTrue, length};
ghost use Rattle.eon_model.specs.Grid.{lies_in, span_of, is_band};
ghost use Rattle.spectrum_map.specs.Bits.{bit_of, is_between, TellsClear, IsHighestOf};
ghost use Rattle.spectrum_map.specs.Kept.{ArePlaces, place_of};

use crate::bits::{ROW, clear_bits, highest_bit, set_bits};
use flex_grid::band::Band;
use flex_grid::units::Units;

/// Words of a row.
pub const ROW_WORDS: usize = 16;

/// 1,024 places, each marked or not. Where a row stands for the units of a band, the band's lowest unit has place 0, and
/// each unit above it the next one.
#[derive(Clone, Copy, Debug)]
pub struct Row {
    /// Bit i of word j, both from 0 and bit 0 the lowest, is 1 exactly where place `64 × j + i` is marked.
    pub words: [u64; ROW_WORDS],
}

impl Row {
    /// The row with no place marked.
    pub fn empty() -> Row
        ensures { (i : ℕ) → bit_of result.words i ≡ false }
    {
        Row {
            words: [0; ROW_WORDS],
        }
    }

    /// The row with each place marked.
    pub fn full() -> Row
        ensures { (i : ℕ) → bit_of result.words i ≡ nat_lt i 1024 }
    {
        Row {
            words: [u64::MAX; ROW_WORDS],
        }
    }

    /// Marks the places from `first` up to and without `end`.
    pub fn mark(&mut self, first: usize, end: usize)
        requires { end ≤ 1024 }
        ensures { (i : ℕ) → bit_of self.new.words i ≡ (bit_of self.old.words i || is_between first end i) }
    {
        set_bits(&mut self.words, first, end);
    }

    /// Takes the marks off the places from `first` up to and without `end`.
    pub fn clear(&mut self, first: usize, end: usize)
        requires { end ≤ 1024 }
        ensures { (i : ℕ) → bit_of self.new.words i ≡ (bit_of self.old.words i && not (is_between first end i)) }
    {
        clear_bits(&mut self.words, first, end);
    }

    /// Whether none of the places from `first` up to and without `end` is marked.
    pub fn is_clear(&self, first: usize, end: usize) -> bool
        requires { end ≤ 1024 }
        ensures { TellsClear (bit_of self.now.words) first end result }
    {
        highest_bit(&self.words, first, end).is_none()
    }

    /// The greatest place from `first` up to and without `end` that is marked. None exactly where there is none.
    pub fn highest(&self, first: usize, end: usize) -> Option<usize>
        requires { end ≤ 1024 }
        ensures { IsHighestOf (bit_of self.now.words) first end result }
    {
        highest_bit(&self.words, first, end)
    }

    /// Marks each place that is 1 in these words.
    pub fn join(&mut self, words: &[u64])
        requires { length words.now ≤ 16 }
        ensures { (i : ℕ) → bit_of self.new.words i ≡ (bit_of self.old.words i || bit_of words.now i) }
    {
        join_words(&mut self.words, words);
    }
}

// Makes each bit 1 that is 1 in the others.
fn join_words(words: &mut [u64], others: &[u64])
    requires { length others.now ≤ length words.old }
    ensures len { length words.new ≡ length words.old }
    ensures bits { (i : ℕ) → bit_of words.new i ≡ (bit_of words.old i || bit_of others.now i) }
{
    for (word, other) in others.iter().enumerate() {
        words[word] |= *other;
    }
}

// The place in its row of a unit of the band's span, or of the one above it.
pub(crate) fn place(band: &Band, unit: i32) -> usize
    requires low { (span_of band.now).lo ≤ℤ unit }
    requires high { unit ≤ℤ ((span_of band.now).hi +ℤ pos 1) }
    ensures place { result ≡ place_of band.now unit }
    ensures few { result ≤ ROW }
    ensures valid { IsTrue (is_band band.now) }
{
    (unit - i32::from(band.lo())) as usize
}

/// Where units stand in a row.
#[derive(Clone, Copy, Debug)]
pub struct Places {
    /// The place of the lowest.
    pub first: usize,
    /// The place above that of the highest.
    pub end: usize,
}

/// The places of units of the band's span.
pub fn places_of(band: &Band, units: &Units) -> Places
    requires { IsTrue (lies_in (span_of band.now) units.now) }
    ensures { ArePlaces band.now units.now result.first result.end }
{
    Places {
        first: place(band, i32::from(units.lo())),
        end: place(band, i32::from(units.hi()) + 1),
    }
}
