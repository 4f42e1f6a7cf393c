//! Entries of tables along a row.

ghost use Rattle.std.specs.Prelude.{◌≡◌, length};
ghost use Rattle.domains.specs.Arithmetic.{clamped};
ghost use Rattle.domains.specs.Span.{Holds, len_of};
ghost use Rattle.row_kernels.specs.Lookup.{entry_of};
ghost use Rattle.row_kernels.specs.Operands.{operand_at, Serves};
ghost use Rattle.row_loops.specs.Rows.{EachPlace, at};
ghost use Rattle.tables.specs.Entries.{entry_at};

use crate::buffer_view::count_span_steps_to_number;
use crate::changes::Clamping;
use crate::operand::Operand;
use crate::operand_rows::map_operand_to_row;
use domains::Span;
use row_loops::NumberMap;
use tables::TableEntries;

// A table's entries, one for each index of a span, borrowed.
#[derive(Clone, Copy)]
struct BorrowedTable<'a> {
    span: Span,
    values: &'a [i32],
    ghost size: { length values.now ≡ len_of span },
}

// The number of the span that is nearest to v.
#[inline]
fn clamp_to_number_in_span(span: &Span, v: i32) -> i32
    ensures holds { Holds span.now result }
    ensures value { result ≡ clamped v span.now.lo span.now.hi }
{
    let cut = Clamping {
        low: span.lo(),
        high: span.hi(),
    };
    cut.apply_to_number(v)
}

// Takes the entry at a number.
#[derive(Clone, Copy)]
struct TableLookup<'a> {
    table: &'a BorrowedTable<'a>,
}

impl NumberMap for TableLookup<'_> {
    ghost value = { λ s a. entry_of s.table.now.span s.table.now.values.now a };

    #[inline]
    fn apply_to_number(&self, number: i32) -> i32 {
        self.table.values[count_span_steps_to_number(
            &self.table.span,
            clamp_to_number_in_span(&self.table.span, number),
        )]
    }
}

/// Writes the entries of a table at the numbers of an operand. A number below the first index takes the first entry, and one
/// above the last takes the last.
pub fn write_table_lookups_to_row(out: &mut [i32], of: Operand, table: &TableEntries)
    requires { Serves (length out.old) of }
    ensures { EachPlace (length out.old) (λ k. at out.new k
        ≡ entry_at table.now (operand_at of.entry out.old k)) }
{
    let lent = BorrowedTable {
        span: *table.span(),
        values: table.values(),
    };
    map_operand_to_row(out, of, TableLookup { table: &lent });
}
