//! The first line of a list.
ghost use Rattle.std.specs.Prelude.{◌≡◌, ◌≤◌, IfSome};
ghost use Rattle.eon_model.specs.PlanReadings.{count_told};
ghost use Rattle.plan_texts.specs.Plans.{count_at};

use crate::field::{number_field, word_field};
use net_file::Fields;

/// The most services of a list.
const MOST_SERVICES: u16 = 4096;

// The number that the fields are.
#[tactic(auto, unfolding(crate::specs::Plans::count_at))]
fn count_fields(fields: &mut Fields<'_>) -> Option<u16>
    ensures { result ≡ count_at fields.old }
{
    if !word_field(fields, b"list") {
        return None;
    }
    let count = number_field(fields, 0, MOST_SERVICES)?;
    if fields.is_done() { Some(count) } else { None }
}

/// How many services the first line of a list tells; None exactly where it is the first line of none.
pub fn read_count(line: &[u8]) -> Option<u16>
    ensures { result ≡ count_told line.now }
{
    let mut fields = Fields::new(line);
    count_fields(&mut fields)
}
