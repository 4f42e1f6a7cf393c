#![tactic(auto)]
//! The names that the items of a program declare.

ghost use Rattle.std.specs.Prelude.{◌≡◌, ◌++◌, ◌∷◌, [], ◌==◌, OnOk, IfOk, filter};
ghost use Rattle.std.specs.Str.{bytes_eq};
ghost use Rattle.pipe_tree.specs.Tree.{declaration, declarations};
ghost use Rattle.pipe_checks.specs.Accesses.{is_plane};
ghost use Rattle.pipe_checks.specs.Names.{number_of, names_of, item_names, names_from, is_param, is_table, is_stage};
ghost use Rattle.pipe_checks.specs.Names.{tables_of, stages_of};

use pipe_tokens::Name;
use pipe_tree::{Item, Names};
use std::alloc::{AllocError, Global};

/// What a declared name denotes.
#[derive(Clone, Copy, Debug, PartialEq, Eq)]
pub enum SymbolKind {
    Param,
    Table,
    Plane,
    Func,
    Accum,
}

impl SymbolKind {
    /// Whether the name denotes a plane of the picture.
    pub fn is_plane(self) -> bool
        ensures { result ≡ is_plane self }
    {
        match self {
            SymbolKind::Plane => true,
            SymbolKind::Param | SymbolKind::Table | SymbolKind::Func | SymbolKind::Accum => false,
        }
    }

    fn is_param(self) -> bool
        ensures { result ≡ is_param self }
    {
        match self {
            SymbolKind::Param => true,
            SymbolKind::Table | SymbolKind::Plane | SymbolKind::Func | SymbolKind::Accum => false,
        }
    }

    fn is_table(self) -> bool
        ensures { result ≡ is_table self }
    {
        match self {
            SymbolKind::Table => true,
            SymbolKind::Param | SymbolKind::Plane | SymbolKind::Func | SymbolKind::Accum => false,
        }
    }

    fn is_stage(self) -> bool
        ensures { result ≡ is_stage self }
    {
        match self {
            SymbolKind::Plane | SymbolKind::Func | SymbolKind::Accum => true,
            SymbolKind::Param | SymbolKind::Table => false,
        }
    }
}

/// A name, what it denotes, and the number of the item that declares it.
#[derive(Clone, Copy, Debug)]
pub struct Symbol {
    pub name: Name,
    pub kind: SymbolKind,
    pub item: usize,
}

/// Whether two names have the same bytes.
pub fn is_same_name(left: &Name, right: &Name) -> bool
    ensures { result ≡ bytes_eq left.now right.now }
{
    left.as_bytes() == right.as_bytes()
}

fn push_declared_symbol(
    names: &mut Vec<Symbol>,
    name: &Name,
    kind: SymbolKind,
    item: usize,
) -> Result<(), AllocError>
    ensures { OnOk result (names.new.items
        ≡ names.old.items ++ record { name = name.now; kind = kind; item = item } ∷ []) }
{
    names.push(Symbol {
        name: *name,
        kind,
        item,
    })?;
    Ok(())
}

fn push_plane_symbols(
    names: &mut Vec<Symbol>,
    planes: &Names,
    item: usize,
) -> Result<(), AllocError>
    ensures { OnOk result (names.new.items ≡ names.old.items ++ names_of item planes.now) }
{
    match planes {
        Names::One(name) => push_declared_symbol(names, name, SymbolKind::Plane, item),
        Names::Three(red, green, blue) => {
            push_declared_symbol(names, red, SymbolKind::Plane, item)?;
            push_declared_symbol(names, green, SymbolKind::Plane, item)?;
            push_declared_symbol(names, blue, SymbolKind::Plane, item)
        }
    }
}

fn push_item_symbols(names: &mut Vec<Symbol>, item: &Item, number: usize) -> Result<(), AllocError>
    ensures { OnOk result
        (names.new.items ≡ names.old.items ++ item_names number (declaration item.now)) }
{
    match item {
        Item::Param(param) => push_declared_symbol(names, &param.name, SymbolKind::Param, number),
        Item::Table(table) => push_declared_symbol(names, &table.name, SymbolKind::Table, number),
        Item::Image(image) => push_plane_symbols(names, &image.names, number),
        Item::Func(func) => push_declared_symbol(names, &func.name, SymbolKind::Func, number),
        Item::Accum(accum) => push_declared_symbol(names, &accum.name, SymbolKind::Accum, number),
        Item::Output(_) => Ok(()),
    }
}

/// The declared names in the order of the text.
pub(crate) fn symbols_declared_by_items(
    alloc: Global,
    items: &[Item],
) -> Result<Vec<Symbol>, AllocError>
    ensures { IfOk result (λ v. v.items ≡ names_from 0 (declarations items.now)) }
{
    let mut names = Vec::new(alloc);
    for (number, item) in items.iter().enumerate() {
        push_item_symbols(&mut names, item, number)?;
    }
    Ok(names)
}

/// The parameters among the names.
pub(crate) fn filter_param_symbols(
    alloc: Global,
    names: &[Symbol],
) -> Result<Vec<Symbol>, AllocError>
    ensures { IfOk result (λ v. v.items ≡ filter (λ d. is_param d.kind) names.now) }
{
    names
        .iter()
        .filter(|name| name.kind.is_param())
        .copied()
        .collect(alloc)
}

/// The tables among the names.
pub(crate) fn filter_table_symbols(
    alloc: Global,
    names: &[Symbol],
) -> Result<Vec<Symbol>, AllocError>
    ensures { IfOk result (λ v. v.items ≡ filter (λ d. is_table d.kind) names.now) }
{
    names
        .iter()
        .filter(|name| name.kind.is_table())
        .copied()
        .collect(alloc)
}

/// The stages among the names.
pub(crate) fn filter_stage_symbols(
    alloc: Global,
    names: &[Symbol],
) -> Result<Vec<Symbol>, AllocError>
    ensures { IfOk result (λ v. v.items ≡ filter (λ d. is_stage d.kind) names.now) }
{
    names
        .iter()
        .filter(|name| name.kind.is_stage())
        .copied()
        .collect(alloc)
}

/// The number of the first of the names that equals this one.
pub fn find_symbol_number(names: &[Symbol], name: &Name) -> Option<usize>
    ensures { result ≡ number_of names.now name.now }
{
    names
        .iter()
        .position(|declared| is_same_name(&declared.name, name))
}

/// The stages that the items declare, in the order of the text. A stage's number is its place here, also in a fault of a program
/// that `check` rejects.
pub fn declared_stages(alloc: Global, items: &[Item]) -> Result<Vec<Symbol>, AllocError>
    ensures { IfOk result (λ v. v.items ≡ stages_of (declarations items.now)) }
{
    let names = symbols_declared_by_items(alloc, items)?;
    filter_stage_symbols(alloc, &names)
}

/// The tables that the items declare, in the order of the text. A table's number is its place here, also if `check` rejects the
/// program.
pub fn declared_tables(alloc: Global, items: &[Item]) -> Result<Vec<Symbol>, AllocError>
    ensures { IfOk result (λ v. v.items ≡ tables_of (declarations items.now)) }
{
    let names = symbols_declared_by_items(alloc, items)?;
    filter_table_symbols(alloc, &names)
}
