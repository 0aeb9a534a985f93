//! The fields of a line behind its word, as the kind of line asks for them.
ghost use Rattle.std.specs.Prelude.{◌≡◌, drop, OnOk, IfOk, IsTrue};
ghost use Rattle.std.specs.List.{list_all};
ghost use Rattle.net_file.specs.Readings.{first_read, is_nil};
ghost use Rattle.eon_model.specs.Names.{is_name};
ghost use Rattle.net_file.specs.LineWords.{capped, capped_signed, one_number, number_in, band_words, format_words, node_words, fibre_words};

use crate::fault::Why;
use crate::fields::Fields;
use eon_base::name::Name;
use eon_base::number::{NumFault, read_i64, read_u64};
use std::alloc::AllocError;

// The number that the bytes spell, or 2^64 - 1 for a greater one.
fn capped(field: &[u8]) -> Option<u64>
    ensures { result ≡ capped field.now }
{
    match read_u64(field) {
        Ok(number) => Some(number),
        Err(NumFault::Big) => Some(u64::MAX),
        Err(NumFault::Form) => None,
    }
}

// The signed number that the bytes spell, or 2^63 - 1 for one that is farther from 0.
fn capped_signed(field: &[u8]) -> Option<i64>
    ensures { result ≡ capped_signed field.now }
{
    match read_i64(field) {
        Ok(number) => Some(number),
        Err(NumFault::Big) => Some(i64::MAX),
        Err(NumFault::Form) => None,
    }
}

// The next field as a number.
fn number_field(fields: &mut Fields<'_>) -> Option<u64>
    ensures value { result ≡ first_read capped fields.old }
    ensures after { fields.new ≡ drop 1 fields.old }
{
    let field = fields.next_field()?;
    capped(field)
}

// The next field as a signed number.
fn signed_field(fields: &mut Fields<'_>) -> Option<i64>
    ensures value { result ≡ first_read capped_signed fields.old }
    ensures after { fields.new ≡ drop 1 fields.old }
{
    let field = fields.next_field()?;
    capped_signed(field)
}

// A number and no more.
#[tactic(auto, unfolding(crate::specs::LineWords::one_number))]
fn one_number(fields: &mut Fields<'_>) -> Option<u64>
    ensures { result ≡ one_number fields.old }
{
    let number = number_field(fields)?;
    fields.is_done().then_some(number)
}

// A number of this range and no more.
#[tactic(auto, unfolding(crate::specs::LineWords::number_in))]
pub(crate) fn number_in(fields: &mut Fields<'_>, least: u64, most: u64) -> Result<u64, Why>
    ensures { result ≡ number_in least most fields.old }
{
    let Some(number) = one_number(fields) else {
        return Err(Why::Form);
    };
    if least <= number && number <= most {
        Ok(number)
    } else {
        Err(Why::Range)
    }
}

// The two ends of a band.
#[tactic(auto, unfolding(crate::specs::LineWords::band_words))]
pub(crate) fn band_words(fields: &mut Fields<'_>) -> Option<(i64, i64)>
    ensures { result ≡ band_words fields.old }
{
    let lo = signed_field(fields)?;
    let hi = signed_field(fields)?;
    fields.is_done().then_some((lo, hi))
}

// What a format is told by.
#[derive(Clone, Copy)]
pub(crate) struct FormatWords {
    pub(crate) name: Name,
    pub(crate) reach: u64,
    pub(crate) per: u64,
}

// A format's name, its reach and its number per slot.
#[tactic(auto, unfolding(crate::specs::LineWords::format_words))]
pub(crate) fn format_words(fields: &mut Fields<'_>) -> Option<FormatWords>
    ensures { result ≡ format_words fields.old }
{
    let name = fields.name()?;
    let reach = number_field(fields)?;
    let per = number_field(fields)?;
    fields.is_done().then_some(FormatWords { name, reach, per })
}

// A node's name.
#[tactic(auto, unfolding(crate::specs::LineWords::node_words))]
pub(crate) fn node_words(fields: &mut Fields<'_>) -> Option<Name>
    ensures { result ≡ node_words fields.old }
{
    let name = fields.name()?;
    fields.is_done().then_some(name)
}

// What a fibre is told by.
#[derive(Clone, Copy)]
pub(crate) struct FibreWords {
    pub(crate) name: Name,
    pub(crate) a: Name,
    pub(crate) b: Name,
    pub(crate) km: u64,
}

// A fibre's name, the names of its ends, and its length.
#[tactic(auto, unfolding(crate::specs::LineWords::fibre_words))]
pub(crate) fn fibre_words(fields: &mut Fields<'_>) -> Option<FibreWords>
    ensures { result ≡ fibre_words fields.old }
{
    let name = fields.name()?;
    let a = fields.name()?;
    let b = fields.name()?;
    let km = number_field(fields)?;
    fields.is_done().then_some(FibreWords { name, a, b, km })
}

// Reads all that is left as names in place of those that stand here; whether each field is a name.
pub(crate) fn names_left(fields: &mut Fields<'_>, names: &mut Vec<Name>) -> Result<bool, AllocError>
    ensures told { IfOk result (λ all. all ≡ list_all is_name fields.old) }
    ensures names { IfOk result (λ all. IsTrue all → names.new.items ≡ fields.old) }
{
    names.clear();
    while let Some(field) = fields.next_field() {
        match Name::read(field) {
            Ok(name) => names.push(name)?,
            Err(_) => return Ok(false),
        }
    }
    Ok(true)
}
