//! Ranges of bits, set, cleared and searched by masks, word by word.

ghost use Rattle.std.specs.Prelude.{◌≡◌, ℕ, ◌+◌, ◌*◌, ◌<◌, ◌≤◌, ◌&&◌, ◌||◌, not, length, slice_index_or};
ghost use Rattle.std.specs.List.{AllByRecursion};
ghost use Rattle.spectrum_map.specs.Bits.{is_one, bit_of, is_between, is_on_rows, bit_of_either, IsHighestOf};

/// Bits in one word.
const WORD: usize = 64;

/// Bits in the row of one fibre.
pub(crate) const ROW: usize = 1024;

// The bits of this word from `first` up to and without `end`, which count the bits through all words.
fn mask(word: usize, first: usize, end: usize) -> u64
    requires { word < 65536 }
    ensures { (k : ℕ) → k < 64 → is_one result k ≡ is_between first end (64 * word + k) }
{
    let start = WORD * word;
    let from = first.saturating_sub(start);
    let to = end.saturating_sub(start).min(WORD);
    if from >= to {
        return 0;
    }
    (u64::MAX << from) & (u64::MAX >> (WORD - to))
}

// Makes the bits from `first` up to and without `end` 1.
pub(crate) fn set_bits(words: &mut [u64], first: usize, end: usize)
    requires few { length words.old ≤ 65536 }
    requires within { end ≤ 64 * length words.old }
    ensures len { length words.new ≡ length words.old }
    ensures bits { (i : ℕ) → bit_of words.new i ≡ (bit_of words.old i || is_between first end i) }
{
    for word in first / WORD..end.div_ceil(WORD) {
        words[word] |= mask(word, first, end);
    }
}

// Makes the bits from `first` up to and without `end` 0.
pub(crate) fn clear_bits(words: &mut [u64], first: usize, end: usize)
    requires few { length words.old ≤ 65536 }
    requires within { end ≤ 64 * length words.old }
    ensures len { length words.new ≡ length words.old }
    ensures bits { (i : ℕ) → bit_of words.new i ≡ (bit_of words.old i && not (is_between first end i)) }
{
    for word in first / WORD..end.div_ceil(WORD) {
        words[word] &= !mask(word, first, end);
    }
}

// The greatest bit from `first` up to and without `end` that is 1.
pub(crate) fn highest_bit(words: &[u64], first: usize, end: usize) -> Option<usize>
    requires few { length words.now ≤ 65536 }
    requires within { end ≤ 64 * length words.now }
    ensures { IsHighestOf (bit_of words.now) first end result }
{
    let least = first / WORD;
    let mut word = end.div_ceil(WORD);
    while word > least {
        word -= 1;
        let found = words[word] & mask(word, first, end);
        if found != 0 {
            return Some(WORD * word + found.ilog2() as usize);
        }
    }
    None
}

// The greatest bit from `first` up to and without `end` that is 1 in one of both.
pub(crate) fn highest_of_either(
    words: &[u64],
    more: &[u64],
    first: usize,
    end: usize,
) -> Option<usize>
    requires few { length words.now ≤ 65536 }
    requires same { length more.now ≡ length words.now }
    requires within { end ≤ 64 * length words.now }
    ensures { IsHighestOf (bit_of_either words.now more.now) first end result }
{
    match (
        highest_bit(words, first, end),
        highest_bit(more, first, end),
    ) {
        (Some(top), Some(other)) => Some(top.max(other)),
        (Some(top), None) => Some(top),
        (None, other) => other,
    }
}

// Makes the bits of a range 1 in each of these rows.
pub(crate) fn set_in_rows(words: &mut [u64], rows: &[u8], first: usize, end: usize)
    requires few { length words.old ≤ 65536 }
    requires order { first ≤ end }
    requires within { end ≤ ROW }
    requires rows { AllByRecursion (λ row. 16 * row + 16 ≤ length words.old) rows.now }
    ensures len { length words.new ≡ length words.old }
    ensures bits { (i : ℕ) → bit_of words.new i ≡ (bit_of words.old i || is_on_rows rows.now first end i) }
{
    for row in rows {
        let start = ROW * usize::from(*row);
        set_bits(words, start + first, start + end);
    }
}

// Makes the bits of a range 0 in each of these rows.
pub(crate) fn clear_in_rows(words: &mut [u64], rows: &[u8], first: usize, end: usize)
    requires few { length words.old ≤ 65536 }
    requires order { first ≤ end }
    requires within { end ≤ ROW }
    requires rows { AllByRecursion (λ row. 16 * row + 16 ≤ length words.old) rows.now }
    ensures len { length words.new ≡ length words.old }
    ensures bits { (i : ℕ) → bit_of words.new i ≡ (bit_of words.old i && not (is_on_rows rows.now first end i)) }
{
    for row in rows {
        let start = ROW * usize::from(*row);
        clear_bits(words, start + first, start + end);
    }
}
