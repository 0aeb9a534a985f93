//! Runs of unmarked places.

ghost use Rattle.std.specs.Prelude.{◌≡◌, ℕ, ◌+◌, ◌*◌, ◌<◌, ◌≤◌, ◌||◌, length};
ghost use Rattle.spectrum_map.specs.Bits.{is_one, bit_of};
ghost use Rattle.block_fit.specs.Runs.{bit_of_two, is_marked, is_marked_from, IsLowestUnmarked, IsLowestRun};

use spectrum_map::Row;

/// Bits in one word.
const WORD: usize = 64;

// The word of this number, and a word of ones past the last one.
fn word_or_ones(words: &[u64], word: usize) -> u64
    requires { length words.now ≤ 16 }
    ensures { (k : ℕ) → k < 64 → is_one result k ≡ is_marked words.now (64 * word + k) }
{
    if word >= words.len() {
        return u64::MAX;
    }
    words[word]
}

// The bits of two words from place `from` of the first on.
fn shifted(low: u64, high: u64, from: usize) -> u64
    requires { from < 64 }
    ensures { (k : ℕ) → k < 64 → is_one result k ≡ bit_of_two low high (from + k) }
{
    (low >> from) | (high << (WORD - 1 - from) << 1)
}

// The 64 places that lie so far above those of a word.
fn places_above(words: &[u64], word: usize, by: usize) -> u64
    requires few { length words.now ≤ 16 }
    requires there { word < 16 }
    requires near { by ≤ 1024 }
    ensures { (k : ℕ) → k < 64 → is_one result k ≡ is_marked words.now (64 * word + k + by) }
{
    let first = word + by / WORD;
    shifted(
        word_or_ones(words, first),
        word_or_ones(words, first + 1),
        by % WORD,
    )
}

// Marks each place that has a marked one so far above it.
fn widen(words: &mut [u64], by: usize)
    requires few { length words.old ≤ 16 }
    requires near { by ≤ 1024 }
    ensures len { length words.new ≡ length words.old }
    ensures bits { (i : ℕ) → i < 64 * length words.old → bit_of words.new i ≡ (bit_of words.old i || is_marked words.old (i + by)) }
{
    for word in 0..words.len() {
        words[word] |= places_above(words, word, by);
    }
}

// Marks each place from which so many are not all unmarked.
fn mark_starts(words: &mut [u64], len: usize)
    requires few { length words.old ≤ 16 }
    requires some { 1 ≤ len }
    requires near { len ≤ 1024 }
    ensures len { length words.new ≡ length words.old }
    ensures bits { (i : ℕ) → i < 64 * length words.old → bit_of words.new i ≡ is_marked_from words.old i len }
{
    let mut done = 1;
    while done < len {
        let by = done.min(len - done);
        widen(words, by);
        done += by;
    }
}

// The lowest place that is not marked.
fn lowest_unmarked_place(words: &[u64]) -> Option<usize>
    requires { length words.now ≤ 16 }
    ensures { IsLowestUnmarked words.now result }
{
    for (word, bits) in words.iter().enumerate() {
        if *bits != u64::MAX {
            return Some(WORD * word + bits.trailing_ones() as usize);
        }
    }
    None
}

/// The lowest place from which `len` places are not marked, all of them in the row. None exactly where there is none.
pub fn lowest_run(row: &Row, len: usize) -> Option<usize>
    requires some { 1 ≤ len }
    requires near { len ≤ 1024 }
    ensures run { IsLowestRun row.now.words len result }
    ensures words { length row.now.words ≡ 16 }
{
    let mut starts = *row;
    mark_starts(&mut starts.words, len);
    lowest_unmarked_place(&starts.words)
}
