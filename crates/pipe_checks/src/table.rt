#![tactic(auto)]
//! Tables of names, in the order in which the names were first seen.

ghost use Rattle.std.specs.Prelude.{◌≡◌, [], IfOk, OnOk, is_some};
ghost use Rattle.pipe_checks.specs.Names.{number_of, declared_at, symbols_declared_by_items};
ghost use Rattle.pipe_tree.specs.Tree.{declarations};
ghost use Rattle.pipe_checks.specs.inside.Tables.{put, earlier, IsTableOf};

use crate::symbol::{Symbol, symbols_declared_by_items};
use indexmap::IndexMap;
use pipe_tokens::Name;
use pipe_tree::Item;
use std::alloc::{AllocError, Global};
use std::marker::Model;

/// Names, and what each was declared as when it was first seen. Contracts see the list of the declarations.
#[derive(Drop)]
pub(crate) struct SymbolTable {
    symbols: IndexMap<Name, Symbol>,
}

impl Model for SymbolTable {
    ghost use Rattle.std.specs.Prelude.{◌≡◌, List, map};
    ghost use Rattle.indexmap.specs.IndexMap.{values};
    ghost use Rattle.pipe_checks.specs.declared.symbol.Symbol.{Symbol};
    ghost use Rattle.pipe_checks.specs.inside.Entries.{named};

    ghost Value = { List Symbol };

    ghost view = { λ t. values t.symbols };

    ghost invariant = { λ t. t.symbols.entries ≡ map named (values t.symbols) };
}

impl SymbolTable {
    /// No names.
    pub(crate) fn new(alloc: Global) -> Self
        ensures { result ≡ [] }
    {
        SymbolTable {
            symbols: IndexMap::new(alloc),
        }
    }

    /// Adds a declaration. If the name is there, it keeps its place and the new declaration replaces the old one. Returns whether
    /// it was there.
    pub(crate) fn declare(&mut self, symbol: Symbol) -> Result<bool, AllocError>
        ensures known { IfOk result (λ known. known ≡ is_some (number_of self.old symbol.name)) }
        ensures table { OnOk result (self.new ≡ put self.old symbol) }
    {
        let before = self.symbols.insert(symbol.name, symbol)?;
        Ok(before.is_some())
    }

    /// The number of a name in the table.
    pub(crate) fn find_symbol_number(&self, name: &Name) -> Option<usize>
        ensures { result ≡ number_of self.now name.now }
    {
        self.symbols.get_index_of(name)
    }

    /// The declaration of a name.
    pub(crate) fn find_symbol(&self, name: &Name) -> Option<Symbol>
        ensures { result ≡ declared_at self.now name.now }
    {
        match self.find_symbol_number(name) {
            Some(number) => self.symbols().get(number).copied(),
            None => None,
        }
    }

    /// The declarations.
    pub(crate) fn symbols(&self) -> &[Symbol]
        ensures { result.now ≡ self.now }
    {
        self.symbols.values().as_slice()
    }
}

/// The names of a program in a table, and the first item that declares a name again.
#[derive(Drop)]
pub(crate) struct DeclaredNames {
    pub table: SymbolTable,
    pub again: Option<usize>,
}

fn choose_first_redeclaring_item(again: Option<usize>, item: usize) -> usize
    ensures { result ≡ earlier again item }
{
    match again {
        Some(first) => first.min(item),
        None => item,
    }
}

fn build_symbol_table_and_redeclaring_item(
    alloc: Global,
    names: &[Symbol],
) -> Result<DeclaredNames, AllocError>
    ensures { IfOk result (IsTableOf names.now) }
{
    let mut table = SymbolTable::new(alloc);
    let mut again = None;
    for symbol in names {
        if table.declare(*symbol)? {
            again = Some(choose_first_redeclaring_item(again, symbol.item));
        }
    }
    Ok(DeclaredNames { table, again })
}

/// The names that the items declare, each found in the table or added at its end.
pub(crate) fn declare_symbols_of_all_items(
    alloc: Global,
    items: &[Item],
) -> Result<DeclaredNames, AllocError>
    ensures { IfOk result (IsTableOf (symbols_declared_by_items (declarations items.now))) }
{
    let names = symbols_declared_by_items(alloc, items)?;
    build_symbol_table_and_redeclaring_item(alloc, &names)
}
