//! Whether two reach tables have the same rows.
ghost use Rattle.std.specs.Prelude.{◌≡◌};
ghost use Rattle.eon_model.specs.Wider.{all_same, same_format};

use crate::names::same_name;
use reach_table::format::Format;
use reach_table::table::Table;

fn same_format(format: &Format, other: &Format) -> bool
    ensures { result ≡ same_format format.now other.now }
{
    same_name(&format.name, &other.name) && format.reach == other.reach && format.per == other.per
}

/// Whether both have the same formats, in the same order.
pub(crate) fn same_formats(table: &Table, other: &Table) -> bool
    ensures { result ≡ all_same same_format table.now.rows other.now.rows }
{
    if table.len() != other.len() {
        return false;
    }
    for i in 0..table.len() as u8 {
        if !same_format(&table.row(i), &other.row(i)) {
            return false;
        }
    }
    true
}
