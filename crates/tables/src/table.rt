//! Tables.

ghost use Rattle.std.specs.Prelude.{◌≡◌, IfErr, IfNone, IfOk, IfSome, length};
ghost use Rattle.tables.specs.Entries.{AreEntries, span_from};
ghost use Rattle.tables.specs.Lines.{IsTableLine};
ghost use Rattle.tables.specs.declared.fault.TableFault.TheVariants.{BadLine, Memory};

use crate::fault::TableFault;
use crate::line::parse_table_line;
use domains::Span;
use pipe_tokens::Name;
use sequences::SharedSequence;
use std::alloc::Global;

/// The most entries that a table has.
pub const MOST_ENTRIES: usize = 4_096;

/// The indices of a table lie from `-MOST_INDEX` to `MOST_INDEX`.
pub const MOST_INDEX: i32 = 16_384;

/// A table: its name, its first index, and an entry for each index from there on. Copies of the entries share them.
#[derive(Debug, Drop)]
pub struct Table {
    pub name: Name,
    pub lo: i32,
    pub values: SharedSequence<i32>,
}

impl Table {
    ghost use Rattle.tables.specs.declared.table.Table.{Table as TableType};

    /// The table that a line describes, without its line feed: `NAME LO..HI: V V V`, the form in which totals are printed.
    /// NAME is a name of the language that is not reserved. LO and HI lie within ±16,384, and LO is at most HI.
    /// There are as many numbers as from LO to HI, at most 4,096. A number is digits, with or without a `-` before them,
    /// within 64 bits; entries are clamped to 32 bits.
    ///
    /// A line is split no further than its words are read, and a line that is no table's takes no memory.
    pub fn read(alloc: Global, line: &[u8]) -> Result<Table, TableFault>
        ensures found { IfOk result (IsTableLine line.now) }
        ensures fault { IfErr result (λ fault. fault ≡ BadLine
            → (table : TableType) → ¬ IsTableLine line.now table) }
        ensures memory { IfErr result (λ fault. fault ≡ Memory
            → (table : TableType) × IsTableLine line.now table) }
    {
        parse_table_line(alloc, line)
    }

    /// The indices. None if there are no entries, more than 4,096, or an index farther than 16,384 from 0.
    pub fn span(&self) -> Option<Span>
        ensures some { IfSome result (λ span. span ≡ span_from self.now.lo (length self.now.values)) }
        ensures within { IfSome result (λ span. AreEntries span (length self.now.values)) }
        ensures none { IfNone result
            (¬ (AreEntries (span_from self.now.lo (length self.now.values)) (length self.now.values))) }
    {
        let count = self.values.as_slice().len();
        if count == 0 || count > MOST_ENTRIES {
            return None;
        }
        if self.lo < -MOST_INDEX || self.lo > MOST_INDEX + 1 - count as i32 {
            return None;
        }
        Span::new(self.lo, self.lo + count as i32 - 1)
    }
}
