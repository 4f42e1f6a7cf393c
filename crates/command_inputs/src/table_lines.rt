//! The lines of tables at the head of the last section.

ghost use Rattle.std.specs.Prelude.{◌≡◌, ◌==◌, IfOk, IfErr, length, position};
ghost use Rattle.pipe_tree.specs.Tree.{declarations};
ghost use Rattle.pipe_checks.specs.Names.{tables_of};
ghost use Rattle.command_inputs.specs.inside.Steps.{AreTablesBefore, BeginsWithTable, IsLineRefusal, IsTablesRefusal};

use command_faults::StreamFault;
use pipe_tree::Item;
use std::alloc::{AllocError, Global};
use tables::{Table, TableFault};

/// The tables at the head of a section, a line for each that the items declare, and where what follows them starts.
pub fn parse_input_table_line_per_declaration(
    alloc: Global,
    items: &[Item],
    section: &[u8],
) -> Result<(Vec<Table>, usize), StreamFault>
    ensures ok { IfOk result (λ read. AreTablesBefore section.now
        (length (tables_of (declarations items.now))) read.0.items read.1) }
    ensures fault { IfErr result
        (IsTablesRefusal section.now (length (tables_of (declarations items.now)))) }
{
    parse_given_count_of_input_table_lines(
        alloc,
        count_declared_tables_of_input_program(items),
        section,
    )
}

/// How many tables the items declare.
fn count_declared_tables_of_input_program(items: &[Item]) -> usize
    ensures { result ≡ length (tables_of (declarations items.now)) }
{
    items
        .iter()
        .filter(|item| matches!(item, Item::Table(_)))
        .count()
}

fn parse_given_count_of_input_table_lines(
    alloc: Global,
    count: usize,
    section: &[u8],
) -> Result<(Vec<Table>, usize), StreamFault>
    ensures ok { IfOk result (λ read. AreTablesBefore section.now count read.0.items read.1) }
    ensures fault { IfErr result (IsTablesRefusal section.now count) }
{
    let mut tables = Vec::new(alloc);
    let mut start = 0;
    for number in 0..count {
        let (table, length) = parse_first_input_table_line(alloc, &section[start..], number + 1)?;
        tables.push(table).map_err(AllocError::from)?;
        start += length;
    }
    Ok((tables, start))
}

/// The table of the line that a section begins with, and where what follows the line starts. A fault reports the line by this
/// number.
fn parse_first_input_table_line(
    alloc: Global,
    section: &[u8],
    line: usize,
) -> Result<(Table, usize), StreamFault>
    ensures ok { IfOk result (λ read. BeginsWithTable section.now read.0 read.1) }
    ensures fault { IfErr result (IsLineRefusal section.now line) }
{
    let Some(end) = find_end_of_first_input_table_line(section) else {
        return Err(StreamFault::Tables(line));
    };
    match Table::read(alloc, &section[..end]) {
        Ok(table) => Ok((table, end + 1)),
        Err(TableFault::BadLine) => Err(StreamFault::Tables(line)),
        Err(TableFault::Memory) => Err(StreamFault::Memory),
    }
}

/// The offset of the line feed that ends the first line.
fn find_end_of_first_input_table_line(section: &[u8]) -> Option<usize>
    ensures { result ≡ position (λ byte. byte == 10) section.now }
{
    section.iter().position(|byte| *byte == b'\n')
}
