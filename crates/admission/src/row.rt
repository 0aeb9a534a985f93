//! A row of the units of a band, each taken or free for one path.

ghost use Rattle.std.specs.Prelude.{◌≡◌, ℕ, ◌<◌, ◌≤◌, nat_abs, ◌-ℤ◌, ◌≤ℤ◌, nat_le, nat_lt, true, false, not, ◌&&◌, ◌||◌, length, slice_index_or, find, IsTrue};
ghost use Rattle.eon_model.specs.Grid.{units_of, unit_count, overlaps, span_of, is_band, lies_in_band};
ghost use Rattle.eon_model.specs.FirstFit.{centres_in};
ghost use Rattle.admission.specs.Free.{fits_free, IsFreeWhere, Takes, IsRunFound};

use flex_grid::band::Band;
use leg_state::holding::Span;

/// The greatest number of units from the lowest to the highest of a band.
const MOST_UNITS: usize = 1024;

// The units from the lowest to the highest of a band, each taken or not for one path. Units between two parts of the
// band are taken.
#[derive(Drop)]
pub(crate) struct Row {
    band: Band,
    taken: [bool; MOST_UNITS],
}

// Takes the places from the first one up to the end.
fn take_places(taken: &mut [bool], first: usize, end: usize)
    requires order { first ≤ end }
    requires within { end ≤ length taken.old }
    ensures { (i : ℕ) → i < length taken.old → slice_index_or taken.new i false ≡ (slice_index_or taken.old i false || (nat_le first i && nat_lt i end)) }
{
    taken[first..end].fill(true);
}

// The first place where a run of so many free places ends.
fn first_run(taken: &[bool], width: usize) -> Option<usize>
    requires { 1 ≤ width }
    ensures { IsRunFound taken.now width result }
{
    let mut run = 0;
    for (place, is_taken) in taken.iter().enumerate() {
        run = if *is_taken { 0 } else { run + 1 };
        if run == width {
            return Some(place);
        }
    }
    None
}

impl Row {
    // The units of the band, those of its parts free.
    pub(crate) fn new(band: &Band) -> Row
        ensures { IsFreeWhere result band.now (lies_in_band band.now) }
    {
        let mut row = Row {
            band: *band,
            taken: [false; MOST_UNITS],
        };
        for i in 1..band.parts() {
            let low = i32::from(band.part(i - 1).hi()) + 1;
            let high = i32::from(band.part(i).lo()) - 1;
            row.take_from(low, high);
        }
        row
    }

    // The place of a unit of the band's span.
    fn place(&self, unit: i32) -> usize
        requires low { (span_of self.now.band).lo ≤ℤ unit }
        requires high { unit ≤ℤ (span_of self.now.band).hi }
        ensures place { result ≡ nat_abs (unit -ℤ (span_of self.now.band).lo) }
        ensures few { result < MOST_UNITS }
    {
        (unit - i32::from(self.band.lo())) as usize
    }

    // How many units the band's span has.
    fn len(&self) -> usize
        ensures count { result ≡ unit_count (span_of self.now.band) }
        ensures few { result ≤ MOST_UNITS }
    {
        self.place(i32::from(self.band.hi())) + 1
    }

    // Takes all units from low to high, as far as they lie in the band's span.
    fn take_from(&mut self, low: i32, high: i32)
        requires { low ≤ℤ high }
        ensures { Takes self.old self.new (λ s. not (overlaps s (record { lo = low; hi = high }))) }
    {
        let from = low.max(i32::from(self.band.lo()));
        let to = high.min(i32::from(self.band.hi()));
        if from <= to {
            let first = self.place(from);
            let end = self.place(to) + 1;
            take_places(&mut self.taken, first, end);
        }
    }

    // Takes the units of the span, as far as they lie in that of the band.
    pub(crate) fn take(&mut self, span: &Span)
        requires { span.now.lo ≤ℤ span.now.hi }
        ensures { Takes self.old self.new (λ s. not (overlaps s span.now)) }
    {
        self.take_from(span.lo(), span.hi());
    }

    // The least centre at which a slot of this width lies in the band's span with no unit taken. The units are walked
    // upwards once: where a run of free ones is as long as the slot, the slot ends.
    pub(crate) fn least_centre(&self, m: u16) -> Option<i16>
        ensures { result ≡ find (λ n. fits_free self.now (record { n = n; m = m })) (centres_in self.now.band) }
    {
        if m == 0 {
            return None;
        }
        let lo = i32::from(self.band.lo());
        let last = first_run(&self.taken[..self.len()], 2 * usize::from(m))?;
        Some((lo + 1 + last as i32 - i32::from(m)) as i16)
    }
}
