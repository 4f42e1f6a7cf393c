//! Lines that describe tables.

ghost use Rattle.std.specs.Prelude.{◌≡◌, IfErr, IfNone, IfOk, IfSome};
ghost use Rattle.domains.specs.Span.{Ends};
ghost use Rattle.tables.specs.Entries.{AreIndices};
ghost use Rattle.tables.specs.Lines.{IsTableLine, IsTableName, SpellEnds, SpellSpan, TellsTable, parts};
ghost use Rattle.tables.specs.declared.fault.TableFault.TheVariants.{BadLine, Memory};
ghost use Rattle.tables.specs.declared.table.Table.{Table as TableType};

use crate::fault::TableFault;
use crate::integers::{parse_table_entries, parse_table_integer};
use crate::table::{MOST_ENTRIES, MOST_INDEX, Table};
use crate::words::split_table_line_at_first_byte;
use domains::Span;
use pipe_tokens::{Keyword, Name};
use sequences::SharedSequence;
use std::alloc::Global;

/// The table that a line describes.
pub fn parse_table_line(alloc: Global, line: &[u8]) -> Result<Table, TableFault>
    ensures found { IfOk result (IsTableLine line.now) }
    ensures fault { IfErr result (λ fault. fault ≡ BadLine
        → (table : TableType) → ¬ IsTableLine line.now table) }
    ensures memory { IfErr result (λ fault. fault ≡ Memory
        → (table : TableType) × IsTableLine line.now table) }
{
    let (name, behind) = split_table_line_at_first_byte(line, b' ');
    let Some(rest) = behind else {
        return Err(TableFault::BadLine);
    };
    let (ends, behind) = split_table_line_at_first_byte(rest, b' ');
    let Some(entries) = behind else {
        return Err(TableFault::BadLine);
    };
    parse_table_from_fields(alloc, name, ends, entries)
}

// The table of this name, these ends and these entries.
fn parse_table_from_fields(
    alloc: Global,
    name: &[u8],
    ends: &[u8],
    entries: &[u8],
) -> Result<Table, TableFault>
    ensures found { IfOk result (TellsTable name.now ends.now (parts 32 entries.now)) }
    ensures fault { IfErr result (λ fault. fault ≡ BadLine
        → (table : TableType) → ¬ TellsTable name.now ends.now (parts 32 entries.now) table) }
    ensures memory { IfErr result (λ fault. fault ≡ Memory
        → (table : TableType) × TellsTable name.now ends.now (parts 32 entries.now) table) }
{
    let Some(name) = parse_table_name(name) else {
        return Err(TableFault::BadLine);
    };
    let Some(span) = parse_table_span_with_colon(ends) else {
        return Err(TableFault::BadLine);
    };
    let count = span.len() as usize;
    if count > MOST_ENTRIES {
        return Err(TableFault::BadLine);
    }
    let values = parse_table_entries(alloc, entries, count)?;
    Ok(Table {
        name,
        lo: span.lo(),
        values: SharedSequence::new(values)?,
    })
}

// The name that a word is, unless it is reserved.
fn parse_table_name(word: &[u8]) -> Option<Name>
    ensures some { IfSome result (λ name. name ≡ word.now) }
    ensures named { IfSome result (λ _. IsTableName word.now) }
    ensures none { IfNone result (¬ (IsTableName word.now)) }
{
    match Keyword::from_bytes(word) {
        Some(_) => None,
        None => Name::from_bytes(word),
    }
}

// The indices that `LO..HI:` spells: nothing follows the one colon.
fn parse_table_span_with_colon(word: &[u8]) -> Option<Span>
    ensures some { IfSome result (SpellSpan (parts 58 word.now)) }
    ensures within { IfSome result AreIndices }
    ensures none { IfNone result ((span : Ends) → ¬ SpellSpan (parts 58 word.now) span) }
{
    let (ends, rest) = split_table_line_at_first_byte(word, b':');
    let Some(behind) = rest else {
        return None;
    };
    if !behind.is_empty() {
        return None;
    }
    parse_table_span_with_dots(ends)
}

// The indices that `LO..HI` spells: nothing is between the two dots.
fn parse_table_span_with_dots(ends: &[u8]) -> Option<Span>
    ensures some { IfSome result (SpellEnds (parts 46 ends.now)) }
    ensures within { IfSome result AreIndices }
    ensures none { IfNone result ((span : Ends) → ¬ SpellEnds (parts 46 ends.now) span) }
{
    let (first, behind) = split_table_line_at_first_byte(ends, b'.');
    let Some(rest) = behind else {
        return None;
    };
    let (between, behind) = split_table_line_at_first_byte(rest, b'.');
    let Some(last) = behind else {
        return None;
    };
    if !between.is_empty() {
        return None;
    }
    build_table_span_within_limits(parse_table_integer(first)?, parse_table_integer(last)?)
}

// The indices from the first to the last.
fn build_table_span_within_limits(lo: i64, hi: i64) -> Option<Span>
    ensures some { IfSome result (λ span. span ≡ record { lo = lo; hi = hi }) }
    ensures within { IfSome result AreIndices }
    ensures none { IfNone result (¬ (AreIndices (record { lo = lo; hi = hi }))) }
{
    let least = i64::from(-MOST_INDEX);
    let most = i64::from(MOST_INDEX);
    if least <= lo && lo <= hi && hi <= most {
        Span::new(lo as i32, hi as i32)
    } else {
        None
    }
}
