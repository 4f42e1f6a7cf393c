//! Consequences of the form of a line. A law is a function that does nothing: its clauses are the law.

ghost use Rattle.std.specs.Prelude.{◌≡◌, ℕ, List};
ghost use Rattle.tables.specs.Lines.{IsTableLine};
ghost use Rattle.tables.specs.declared.table.Table.{Table as TableType};

/// A line describes at most one table.
pub fn line_describes_at_most_one_table()
    ensures { (line : List ℕ) (s t : TableType) → IsTableLine line s → IsTableLine line t → s ≡ t }
{}
