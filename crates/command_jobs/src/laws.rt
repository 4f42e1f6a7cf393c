//! Consequences of the definitions. A law is a function that does nothing: its clauses are the law.

ghost use Rattle.command_jobs.specs.TotalTables.{AreInputLinesOfTables, IsTotalLineOfTable};

/// The line of totals is that of a table, if its name is no reserved word and it has at most 4,096 bins. Each entry of the table
/// is a total, clamped to 32 bits. All lines of totals of an input's job are such lines, since its accumulators have names of a
/// text, and so few bins.
pub fn total_lines_are_table_lines()
    ensures line { IsTotalLineOfTable }
    ensures input { AreInputLinesOfTables }
{}
