//! Counts of the backups that hold a unit, and the bits of the units that are held.

ghost use Rattle.std.specs.Prelude.{◌≡◌, ℕ, ◌+◌, ◌-◌, ◌*◌, ◌<◌, ◌≤◌, true, IsTrue, length, slice_index_or, if◌then◌else◌};
ghost use Rattle.std.specs.List.{AllByRecursion};
ghost use Rattle.eon_model.specs.Lists.{numbers_differ};
ghost use Rattle.spectrum_map.specs.Bits.{is_between, is_on_rows, AreHeld};

use crate::bits::{ROW, clear_bits, set_bits};

// Counts one backup more from `first` up to and without `end`.
fn raise(counts: &mut [u16], first: usize, end: usize)
    requires order { first ≤ end }
    requires within { end ≤ length counts.old }
    requires room { (i : ℕ) → first ≤ i → i < end → slice_index_or counts.old i 0 < 65535 }
    ensures len { length counts.new ≡ length counts.old }
    ensures counts { (i : ℕ) → slice_index_or counts.new i 0 ≡ (if is_between first end i then slice_index_or counts.old i 0 + 1 else slice_index_or counts.old i 0) }
{
    for i in first..end {
        counts[i] += 1;
    }
}

// Counts one backup fewer at this place, whose unit is held by no other where none is left.
fn lower_at(counts: &mut [u16], held: &mut [u64], i: usize)
    requires within { i < length counts.old }
    requires few { length held.old ≤ 65536 }
    requires words { length counts.old ≡ 64 * length held.old }
    requires some { 1 ≤ slice_index_or counts.old i 0 }
    requires held { AreHeld held.old counts.old }
    ensures len { length counts.new ≡ length counts.old }
    ensures words { length held.new ≡ length held.old }
    ensures counts { (k : ℕ) → slice_index_or counts.new k 0 ≡ (if is_between i (i + 1) k then slice_index_or counts.old k 0 - 1 else slice_index_or counts.old k 0) }
    ensures held { AreHeld held.new counts.new }
{
    counts[i] -= 1;
    if counts[i] == 0 {
        clear_bits(held, i, i + 1);
    }
}

// Holds the units of a range in each of these rows once more.
pub(crate) fn hold_in_rows(
    counts: &mut [u16],
    held: &mut [u64],
    rows: &[u8],
    first: usize,
    end: usize,
)
    requires few { length held.old ≤ 65536 }
    requires words { length counts.old ≡ 64 * length held.old }
    requires order { first ≤ end }
    requires within { end ≤ ROW }
    requires rows { AllByRecursion (λ row. 16 * row + 16 ≤ length held.old) rows.now }
    requires once { IsTrue (numbers_differ rows.now) }
    requires room { (i : ℕ) → is_on_rows rows.now first end i ≡ true → slice_index_or counts.old i 0 < 65535 }
    requires held { AreHeld held.old counts.old }
    ensures len { length counts.new ≡ length counts.old }
    ensures words { length held.new ≡ length held.old }
    ensures counts { (i : ℕ) → slice_index_or counts.new i 0 ≡ (if is_on_rows rows.now first end i then slice_index_or counts.old i 0 + 1 else slice_index_or counts.old i 0) }
    ensures held { AreHeld held.new counts.new }
{
    for row in rows {
        let start = ROW * usize::from(*row);
        raise(counts, start + first, start + end);
        set_bits(held, start + first, start + end);
    }
}

// Lets the units of a range go once.
fn let_go(counts: &mut [u16], held: &mut [u64], first: usize, end: usize)
    requires few { length held.old ≤ 65536 }
    requires words { length counts.old ≡ 64 * length held.old }
    requires order { first ≤ end }
    requires within { end ≤ length counts.old }
    requires some { (i : ℕ) → first ≤ i → i < end → 1 ≤ slice_index_or counts.old i 0 }
    requires held { AreHeld held.old counts.old }
    ensures len { length counts.new ≡ length counts.old }
    ensures words { length held.new ≡ length held.old }
    ensures counts { (i : ℕ) → slice_index_or counts.new i 0 ≡ (if is_between first end i then slice_index_or counts.old i 0 - 1 else slice_index_or counts.old i 0) }
    ensures held { AreHeld held.new counts.new }
{
    for i in first..end {
        lower_at(counts, held, i);
    }
}

// Lets the units of a range go once in each of these rows.
pub(crate) fn let_go_in_rows(
    counts: &mut [u16],
    held: &mut [u64],
    rows: &[u8],
    first: usize,
    end: usize,
)
    requires few { length held.old ≤ 65536 }
    requires words { length counts.old ≡ 64 * length held.old }
    requires order { first ≤ end }
    requires within { end ≤ ROW }
    requires rows { AllByRecursion (λ row. 16 * row + 16 ≤ length held.old) rows.now }
    requires once { IsTrue (numbers_differ rows.now) }
    requires some { (i : ℕ) → is_on_rows rows.now first end i ≡ true → 1 ≤ slice_index_or counts.old i 0 }
    requires held { AreHeld held.old counts.old }
    ensures len { length counts.new ≡ length counts.old }
    ensures words { length held.new ≡ length held.old }
    ensures counts { (i : ℕ) → slice_index_or counts.new i 0 ≡ (if is_on_rows rows.now first end i then slice_index_or counts.old i 0 - 1 else slice_index_or counts.old i 0) }
    ensures held { AreHeld held.new counts.new }
{
    for row in rows {
        let start = ROW * usize::from(*row);
        let_go(counts, held, start + first, start + end);
    }
}
