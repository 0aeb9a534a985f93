//! The parts of the band, one line after another.
ghost use Rattle.std.specs.Prelude.{◌≡◌, pos, ◌+ℤ◌, ◌-ℤ◌, ◌≤ℤ◌, int_le, length};
ghost use Rattle.flex_grid.specs.Makes.{units_from};
ghost use Rattle.net_file.specs.Steps.{parts_of, is_in_reach, part_step, units_step, band_step};

use crate::fault::Why;
use crate::fields::Fields;
use crate::line_words::band_words;
use flex_grid::band::Band;
use flex_grid::units::Units;

/// The greatest number of parts of a band.
const MOST_PARTS: u8 = 8;

/// The greatest number of units from the lowest to the highest of a band.
const MOST_UNITS: i32 = 1024;

// The units between these, if both are of the grid and in order.
fn units_told(lo: i64, hi: i64) -> Option<Units>
    ensures { result ≡ units_from lo hi }
{
    let lo = i16::try_from(lo).ok()?;
    let hi = i16::try_from(hi).ok()?;
    Units::make(lo, hi)
}

// The units that the fields tell.
#[tactic(auto, unfolding(crate::specs::Steps::units_step))]
fn units_words(fields: &mut Fields<'_>) -> Result<Units, Why>
    ensures { result ≡ units_step fields.old }
{
    let Some((lo, hi)) = band_words(fields) else {
        return Err(Why::Form);
    };
    units_told(lo, hi).ok_or(Why::Range)
}

// Whether there are at most so many units from one to another.
fn are_few(lo: i16, hi: i16, most: i32) -> bool
    requires { pos 0 ≤ℤ most }
    ensures { result ≡ int_le (hi -ℤ lo) (most -ℤ pos 1) }
{
    i32::from(hi) - i32::from(lo) < most
}

// Whether a first part may stand there: where a second has to follow, it leaves room for one.
fn may_be_first(version: u8, part: &Units) -> bool
    ensures { result ≡ is_in_reach version None part.now }
{
    version != 2 || (are_few(part.lo(), part.hi(), MOST_UNITS - 2) && part.hi() <= 4093)
}

// How many parts the band has so far.
pub(crate) fn parts_told(band: &Option<Band>) -> u8
    ensures { result ≡ length (parts_of band.now) }
{
    match band {
        None => 0,
        Some(band) => band.parts(),
    }
}

// Whether a unit lies between two parts, of which one ends and the other begins here.
fn leaves_a_gap(hi: i16, lo: i16) -> bool
    ensures { result ≡ int_le (hi +ℤ pos 2) lo }
{
    i32::from(hi) + 2 <= i32::from(lo)
}

// The band of a first part.
fn first_part(version: u8, part: &Units) -> Result<Band, Why>
    ensures { result ≡ part_step version None part.now }
{
    if !may_be_first(version, part) {
        return Err(Why::Range);
    }
    Band::make(part.lo(), part.hi()).ok_or(Why::Range)
}

// The band with a part above the others.
fn next_part(version: u8, band: &Band, part: &Units) -> Result<Band, Why>
    ensures { result ≡ part_step version (Some band.now) part.now }
{
    if !are_few(band.lo(), part.hi(), MOST_UNITS) {
        return Err(Why::Range);
    }
    if band.parts() >= MOST_PARTS {
        return Err(Why::Many);
    }
    if !leaves_a_gap(band.hi(), part.lo()) {
        return Err(Why::Order);
    }
    band.with(part.lo(), part.hi()).ok_or(Why::Range)
}

// The band with the part that the fields tell.
#[tactic(auto, unfolding(crate::specs::Steps::band_step))]
pub(crate) fn band_told(
    version: u8,
    band: &Option<Band>,
    fields: &mut Fields<'_>,
) -> Result<Band, Why>
    ensures { result ≡ band_step version band.now fields.old }
{
    let part = units_words(fields)?;
    match band {
        None => first_part(version, &part),
        Some(band) => next_part(version, band, &part),
    }
}
