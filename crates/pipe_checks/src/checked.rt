#![tactic(auto)]
//! Programs whose names all denote what their places require.

ghost use Rattle.std.specs.Prelude.{◌≡◌, true, false, Some, None, Ok, Err, OnOk, IfOk, IfErr, slice_get};
ghost use Rattle.std.specs.List.{list_any};
ghost use Rattle.std.specs.Option.{option_copied};
ghost use Rattle.pipe_tree.specs.Tree.{declaration, declarations};
ghost use Rattle.pipe_tree.specs.Content.{content};
ghost use Rattle.pipe_checks.specs.Names.{symbols_declared_by_items};
ghost use Rattle.pipe_checks.specs.Graph.{IsRanking};
ghost use Rattle.pipe_checks.specs.Twice.{item_variables};
ghost use Rattle.pipe_checks.specs.Uses.{places_of, IsFirstUnserved};
ghost use Rattle.pipe_checks.specs.Checking.{IsNamed, IsFault, IsCheckedOf, tree_in, stages_in, params_in, tables_in, graph_in};
ghost use Rattle.pipe_checks.specs.Checking.{ranks_in, is_result, is_good, reads_at};
ghost use Rattle.pipe_checks.specs.inside.Tables.{IsTableOf};
ghost use Rattle.pipe_checks.specs.inside.Search.{IsCyclic, IsJudged, IsFound, fault_of};

use crate::cycles::find_shortest_cycle_from_least_stage;
use crate::fault::{CheckFault, Cycle, Violation};
use crate::graph::{StageLinks, build_read_graph};
use crate::ranks::compute_read_graph_ranks;
use crate::symbol::{Symbol, filter_param_symbols, filter_stage_symbols, filter_table_symbols};
use crate::table::{DeclaredNames, SymbolTable, declare_symbols_of_all_items};
use crate::twice::{find_item_with_name_declared_twice, item_variables};
use crate::uses::check_names_and_numbers_of_item;
use pipe_tree::{Item, Tree};
use std::alloc::Global;
use std::marker::Model;

/// A program whose names all denote what their places require, and whose stages do not read each other in a cycle. Only `check`
/// makes one.
#[derive(Debug, Drop)]
pub struct Checked {
    tree: Tree,
    stages: Vec<Symbol>,
    params: Vec<Symbol>,
    tables: Vec<Symbol>,
    graph: Vec<StageLinks>,
    ranks: Vec<usize>,
}

impl Model for Checked {
    ghost use Rattle.std.specs.Coded.{codes};
    ghost use Rattle.pipe_tree.specs.contracts.tree.Expr as expr;
    ghost use Rattle.pipe_checks.specs.CheckedProgram.{CheckedProgram, with_lists};

    ghost Value = { CheckedProgram };

    ghost coded = { Prim.hlevel (codes, expr.the_row.coded) };

    ghost use Rattle.pipe_checks.specs.Checking.{IsCheckedOf};

    ghost view = { λ c. with_lists c.tree c.stages.items c.params.items c.tables.items c.graph.items
        c.ranks.items };

    ghost invariant = { λ c. IsCheckedOf c.tree
        (with_lists c.tree c.stages.items c.params.items c.tables.items c.graph.items c.ranks.items) };
}

impl Checked {
    /// The program.
    pub fn tree(&self) -> &Tree
        ensures program { result.now ≡ tree_in self.now }
        ensures checked { IsCheckedOf (tree_in self.now) self.now }
    {
        &self.tree
    }

    /// The planes, functions and accumulators in the order of the text. A stage's number is its place here.
    pub fn stages(&self) -> &[Symbol]
        ensures { result.now ≡ stages_in self.now }
    {
        &self.stages
    }

    /// The parameters in the order of the text.
    pub fn params(&self) -> &[Symbol]
        ensures { result.now ≡ params_in self.now }
    {
        &self.params
    }

    /// The tables in the order of the text. A table's number is its place here.
    pub fn tables(&self) -> &[Symbol]
        ensures { result.now ≡ tables_in self.now }
    {
        &self.tables
    }

    /// The rank of a stage: 0 for a plane, else one more than the greatest rank that it reads, or 1.
    pub fn rank(&self, stage: usize) -> Option<usize>
        ensures { result ≡ slice_get (ranks_in self.now) stage }
    {
        self.ranks.as_slice().get(stage).copied()
    }

    /// The numbers of the stages that a stage reads, in the order of the text, each as often as it is read; none if there is no
    /// such stage.
    pub fn reads(&self, stage: usize) -> Option<&[usize]>
        ensures { option_copied result ≡ reads_at (slice_get (graph_in self.now) stage) }
    {
        match self.graph.as_slice().get(stage) {
            Some(links) => Some(links.reads()),
            None => None,
        }
    }
}

fn to_check_fault_of_item(violation: Violation, item: usize) -> CheckFault
    ensures { result ≡ fault_of violation item }
{
    match violation {
        Violation::Unknown => CheckFault::Unknown(item),
        Violation::Kind => CheckFault::Kind(item),
        Violation::BadKernel => CheckFault::BadKernel(item),
        Violation::BadLiteral => CheckFault::BadLiteral(item),
    }
}

#[tactic(auto, using(crate::proofs::Judging::result_served, crate::proofs::Judging::result_unserved))]
fn check_item(names: &SymbolTable, item: &Item) -> Result<(), Violation>
    ensures good { OnOk result (is_good names.now (declaration item.now) ≡ true) }
    ensures wrong { IfErr result (IsFirstUnserved names.now (item_variables (declaration item.now))
        (places_of (declaration item.now))) }
{
    check_names_and_numbers_of_item(names, &item_variables(item), item)
}

fn check_all_items(declared: &SymbolTable, items: &[Item]) -> Result<(), CheckFault>
    ensures { IsJudged declared.now (declarations items.now) result }
{
    for (number, item) in items.iter().enumerate() {
        if let Err(violation) = check_item(declared, item) {
            return Err(to_check_fault_of_item(violation, number));
        }
    }
    Ok(())
}

// Checks that each name denotes one thing, and then that each place has what it requires.
#[tactic(auto, using(crate::proofs::Faulting::judged_named, crate::proofs::Faulting::judged_fault))]
fn check_unique_names_then_all_items(
    declared: &DeclaredNames,
    items: &[Item],
) -> Result<(), CheckFault>
    requires { IsTableOf (symbols_declared_by_items (declarations items.now)) declared.now }
    ensures ok { OnOk result (IsNamed (declarations items.now)) }
    ensures same { OnOk result (declared.now.table ≡ symbols_declared_by_items (declarations items.now)) }
    ensures err { IfErr result (IsFault (declarations items.now)) }
{
    match find_item_with_name_declared_twice(declared, items) {
        Some(item) => Err(CheckFault::Twice(item)),
        None => check_all_items(&declared.table, items),
    }
}

fn is_declared_accum_or_output(item: &Item) -> bool
    ensures { result ≡ is_result (declaration item.now) }
{
    match item {
        Item::Accum(_) | Item::Output(_) => true,
        Item::Param(_) | Item::Table(_) | Item::Image(_) | Item::Func(_) => false,
    }
}

fn has_declared_accum_or_output(items: &[Item]) -> bool
    ensures { result ≡ list_any is_result (declarations items.now) }
{
    for item in items {
        if is_declared_accum_or_output(item) {
            return true;
        }
    }
    false
}

fn find_ranks_or_cycle(alloc: Global, graph: &[StageLinks]) -> Result<Vec<usize>, CheckFault>
    ensures ok { IfOk result (λ v. IsRanking graph.now v.items) }
    ensures err { IfErr result (IsCyclic graph.now) }
{
    match compute_read_graph_ranks(alloc, graph)? {
        Some(ranks) => Ok(ranks),
        None => Err(CheckFault::Cycle(Cycle {
            stages: find_shortest_cycle_from_least_stage(alloc, graph)?,
        })),
    }
}

// All results for a program, without its tree.
#[derive(Drop)]
struct CheckedLists {
    stages: Vec<Symbol>,
    params: Vec<Symbol>,
    tables: Vec<Symbol>,
    graph: Vec<StageLinks>,
    ranks: Vec<usize>,
}

fn check_program_items(alloc: Global, items: &[Item]) -> Result<CheckedLists, CheckFault>
    ensures ok { IfOk result (IsFound (declarations items.now)) }
    ensures err { IfErr result (IsFault (declarations items.now)) }
{
    let declared = declare_symbols_of_all_items(alloc, items)?;
    check_unique_names_then_all_items(&declared, items)?;
    if !has_declared_accum_or_output(items) {
        return Err(CheckFault::NoResult);
    }
    let names = declared.table.symbols();
    let stages = filter_stage_symbols(alloc, names)?;
    let graph = build_read_graph(alloc, items, &stages)?;
    let ranks = find_ranks_or_cycle(alloc, &graph)?;
    let params = filter_param_symbols(alloc, names)?;
    let tables = filter_table_symbols(alloc, names)?;
    Ok(CheckedLists {
        stages,
        params,
        tables,
        graph,
        ranks,
    })
}

/// The program, or its first fault. First comes the first item with a name that denotes two things. Then, item by item in the
/// order of the text, the first place that does not have what it requires. Then a missing result, and last a cycle of reads.
pub fn check(alloc: Global, tree: Tree) -> Result<Checked, (Tree, CheckFault)>
    ensures ok { IfOk result (IsCheckedOf tree) }
    ensures back { IfErr result (λ e. e.0 ≡ tree) }
    ensures fault { IfErr result (λ e. IsFault (content tree) e.1) }
{
    match check_program_items(alloc, tree.items()) {
        Ok(found) => Ok(Checked {
            tree,
            stages: found.stages,
            params: found.params,
            tables: found.tables,
            graph: found.graph,
            ranks: found.ranks,
        }),
        Err(fault) => Err((tree, fault)),
    }
}
