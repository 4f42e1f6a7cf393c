#![tactic(auto)]
//! Ranges of the entries of tables.

ghost use Rattle.std.specs.Prelude.{ℤ};
ghost use Rattle.tables.specs.Entries.{entry_at};
ghost use Rattle.value_ranges.specs.Ranges.{InRange};

use crate::value_range::{ValueRange, join_value_ranges};
use tables::TableEntries;

// The range of one number.
fn find_value_range_of_number(number: i32) -> ValueRange
    ensures { InRange result number }
{
    ValueRange {
        lo: number,
        hi: number,
    }
}

// The range of the entries of a table.
pub(crate) fn find_value_range_of_table(table: &TableEntries) -> ValueRange
    ensures { (v : ℤ) → InRange result (entry_at table.now v) }
{
    let mut range = find_value_range_of_number(table.look_up_entry_at_clamped_index(0));
    let entries = table.values();
    for value in entries {
        let entry = find_value_range_of_number(*value);
        range = join_value_ranges(range, entry);
    }
    range
}
