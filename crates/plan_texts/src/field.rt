//! Single fields of a line.
ghost use Rattle.std.specs.Prelude.{◌≡◌, ◌≤◌, drop, IfSome, IsTrue, bytes_eq};
ghost use Rattle.eon_model.specs.Numerals.{is_within};
ghost use Rattle.eon_model.specs.CommandText.{is_centre};
ghost use Rattle.net_file.specs.Readings.{first_read};
ghost use Rattle.plan_texts.specs.Fields.{number_within, centre_of, is_first};

use eon_base::number::{read_i64, read_u64};
use net_file::Fields;

/// The least and the greatest centre, in units of 6.25 GHz.
const LEAST_CENTRE: i64 = -4096;

const MOST_CENTRE: i64 = 4095;

// Whether the number lies between the two.
fn is_within(least: u16, most: u16, number: u64) -> bool
    ensures { result ≡ is_within least most number }
{
    u64::from(least) <= number && number <= u64::from(most)
}

// The number that the bytes spell, where it lies between the two.
fn number_within(field: &[u8], least: u16, most: u16) -> Option<u16>
    ensures { result ≡ number_within least most field.now }
{
    let Ok(number) = read_u64(field) else {
        return None;
    };
    if is_within(least, most, number) {
        Some(number as u16)
    } else {
        None
    }
}

// Whether the number is a centre.
fn is_centre(number: i64) -> bool
    ensures { result ≡ is_centre number }
{
    LEAST_CENTRE <= number && number <= MOST_CENTRE
}

// The centre that the bytes spell.
fn centre_of(field: &[u8]) -> Option<i16>
    ensures { result ≡ centre_of field.now }
{
    let Ok(number) = read_i64(field) else {
        return None;
    };
    if is_centre(number) {
        Some(number as i16)
    } else {
        None
    }
}

/// Whether the next field is this word. The cursor is behind it either way.
pub(crate) fn word_field(fields: &mut Fields<'_>, word: &[u8]) -> bool
    ensures value { result ≡ is_first word.now fields.old }
    ensures after { fields.new ≡ drop 1 fields.old }
{
    match fields.next_field() {
        Some(field) => field == word,
        None => false,
    }
}

/// The next field as a number between the two.
pub(crate) fn number_field(fields: &mut Fields<'_>, least: u16, most: u16) -> Option<u16>
    ensures value { result ≡ first_read (number_within least most) fields.old }
    ensures after { fields.new ≡ drop 1 fields.old }
{
    let field = fields.next_field()?;
    number_within(field, least, most)
}

/// The next field as a centre.
pub(crate) fn centre_field(fields: &mut Fields<'_>) -> Option<i16>
    ensures value { result ≡ first_read centre_of fields.old }
    ensures after { fields.new ≡ drop 1 fields.old }
{
    let field = fields.next_field()?;
    centre_of(field)
}
