#![tactic(auto)]
//! Names that denote two things.

ghost use Rattle.std.specs.Prelude.{◌≡◌, IfSome, IfNone};
ghost use Rattle.pipe_tree.specs.Tree.{declaration, declarations};
ghost use Rattle.pipe_checks.specs.Names.{symbols_declared_by_items};
ghost use Rattle.pipe_checks.specs.Checking.{IsFirstTwice, NoneTwice};
ghost use Rattle.pipe_checks.specs.inside.Tables.{is_first_redeclaring_item, IsTableOf};
ghost use Rattle.pipe_checks.specs.Twice.{item_variables, is_variable_with_declared_name, are_same_variables, has_variable_with_name_used_twice};

use crate::symbol::is_same_name;
use crate::table::{DeclaredNames, SymbolTable};
use crate::uses::ItemVariables;
use pipe_tokens::Name;
use pipe_tree::Item;

/// The variables of an item, if it has them.
pub(crate) fn item_variables(item: &Item) -> ItemVariables
    ensures { result ≡ item_variables (declaration item.now) }
{
    match item {
        Item::Func(func) => ItemVariables {
            row: Some(func.row.name),
            column: Some(func.column.name),
        },
        Item::Accum(accum) => ItemVariables {
            row: Some(accum.row.name),
            column: Some(accum.column.name),
        },
        Item::Param(_) | Item::Table(_) | Item::Image(_) | Item::Output(_) => ItemVariables {
            row: None,
            column: None,
        },
    }
}

fn is_first_redeclaring_item(first: Option<usize>, item: usize) -> bool
    ensures { result ≡ is_first_redeclaring_item first item }
{
    match first {
        Some(first) => first == item,
        None => false,
    }
}

// Whether a variable of an item is a declared name.
fn is_variable_with_declared_name(names: &SymbolTable, variable: &Option<Name>) -> bool
    ensures { result ≡ is_variable_with_declared_name names.now variable.now }
{
    match variable {
        Some(name) => names.find_symbol_number(name).is_some(),
        None => false,
    }
}

fn are_same_variables(row: &Option<Name>, column: &Option<Name>) -> bool
    ensures { result ≡ are_same_variables row.now column.now }
{
    match (row, column) {
        (Some(row), Some(column)) => is_same_name(row, column),
        _ => false,
    }
}

// Whether a variable equals the other variable of its item or a declared name.
fn has_variable_with_name_used_twice(names: &SymbolTable, locals: &ItemVariables) -> bool
    ensures { result ≡ has_variable_with_name_used_twice names.now locals.now }
{
    are_same_variables(&locals.row, &locals.column)
        || is_variable_with_declared_name(names, &locals.row)
        || is_variable_with_declared_name(names, &locals.column)
}

/// The first item with a name that denotes two things.
pub(crate) fn find_item_with_name_declared_twice(
    declared: &DeclaredNames,
    items: &[Item],
) -> Option<usize>
    requires { IsTableOf (symbols_declared_by_items (declarations items.now)) declared.now }
    ensures first { IfSome result
        (IsFirstTwice (symbols_declared_by_items (declarations items.now)) (declarations items.now)) }
    ensures none { IfNone result
        (NoneTwice (symbols_declared_by_items (declarations items.now)) (declarations items.now)) }
    ensures same { IfNone result (declared.now.table ≡ symbols_declared_by_items (declarations items.now)) }
{
    for (number, item) in items.iter().enumerate() {
        if is_first_redeclaring_item(declared.again, number)
            || has_variable_with_name_used_twice(&declared.table, &item_variables(item))
        {
            return Some(number);
        }
    }
    None
}
