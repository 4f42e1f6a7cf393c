#![tactic(auto)]
//! Whether the supplied tables are those that a program declares.

ghost use Rattle.std.specs.Prelude.{◌≡◌, ◌↔◌, ◌+ℤ◌, ◌-ℤ◌, pos, IsTrue, IfSome, IfNone, All, FitsSigned, length};
ghost use Rattle.std.specs.Int.{w32};
ghost use Rattle.std.specs.List.{flat_map};
ghost use Rattle.std.specs.Option.{option_map};
ghost use Rattle.pipe_tree.specs.Tree.{declarations};
ghost use Rattle.binding.specs.Binding.{table_named, item_tables, IsTableFit, TablesFit, IsSmallTable, AreSmallTables};
ghost use Rattle.binding.specs.BindFaults.{IsFirstMisfit};

use job::Table;
use pipe_bounds::{Params, affine_value};
use pipe_checks::is_same_name;
use pipe_tokens::Name;
use pipe_tree::Item;

// The last index that a table has an entry for.
fn compute_greatest_index_of_supplied_table(table: &Table) -> i128
    ensures { result ≡ (table.now.lo +ℤ pos (length table.now.values)) -ℤ pos 1 }
{
    i128::from(table.lo) + table.values.as_slice().len() as i128 - 1
}

// Whether the supplied table has the name and the span of the declared one.
fn is_supplied_table_as_declared(
    params: &Params,
    declared: &pipe_tree::Table,
    given: &Table,
) -> bool
    ensures { IsTrue result ↔ IsTableFit params.now declared.now given.now }
{
    is_same_name(&given.name, &declared.name)
        && affine_value(params, &declared.span.first) == i128::from(given.lo)
        && affine_value(params, &declared.span.last)
            == compute_greatest_index_of_supplied_table(given)
}

/// The first of the tables that has this name.
pub(crate) fn find_supplied_table_by_name<'a>(tables: &'a [Table], name: &Name) -> Option<&'a Table>
    ensures { option_map (λ table. table.now) result ≡ table_named tables.now name.now }
{
    tables.iter().find(|table| is_same_name(&table.name, name))
}

/// The number of the first supplied table that does not match its declaration.
pub(crate) fn find_index_of_mismatched_supplied_table(
    params: &Params,
    items: &[Item],
    given: &[Table],
) -> Option<usize>
    ensures some { IfSome result (IsFirstMisfit params.now
        (flat_map item_tables (declarations items.now)) given.now) }
    ensures none { IfNone result
        (TablesFit params.now (flat_map item_tables (declarations items.now)) given.now) }
{
    let mut number = 0;
    for item in items {
        if let Item::Table(declared) = item {
            match given.get(number) {
                Some(table) if is_supplied_table_as_declared(params, declared, table) => number +=
                    1,
                _ => return Some(number),
            }
        }
    }
    (number < given.len()).then_some(number)
}

// Each entry fits 32 bits.
fn prove_supplied_table_entries_fit_i32(entries: &[i32])
    ensures { All (FitsSigned w32) entries.now }
{
    for entry in entries {
        let _entry = *entry;
    }
}

// A table has a name, and entries of 32 bits.
fn prove_supplied_table_fits_i32(table: &Table)
    ensures { IsSmallTable table.now }
{
    let _name = table.name.as_bytes();
    prove_supplied_table_entries_fit_i32(table.values.as_slice());
}

/// All tables have names, and entries of 32 bits.
pub(crate) fn prove_supplied_tables_fit_i32(tables: &[Table])
    ensures { AreSmallTables tables.now }
{
    for table in tables {
        prove_supplied_table_fits_i32(table);
    }
}
