#![tactic(auto)]
//! The spans of all tables.

ghost use Rattle.std.specs.Prelude.{◌≡◌};
ghost use Rattle.pipe_tree.specs.Tree.{declarations};
ghost use Rattle.pipe_bounds.specs.Tables.{AreSpansOf};
ghost use Rattle.pipe_bounds.specs.inside.Taken.{AreDeclared, AreTables, IsAnswer, TellsTable, table_span_fault};

use crate::domain::{IntervalFault, compute_table_bounds};
use crate::fault::BoundFault;
use crate::params::Params;
use domains::Span;
use pipe_checks::Symbol;
use pipe_tree::Item;
use std::alloc::{AllocError, Global};

fn table_span_fault(fault: IntervalFault, table: usize) -> BoundFault
    ensures { result ≡ table_span_fault fault table }
{
    match fault {
        IntervalFault::Empty => BoundFault::EmptyTable(table),
        IntervalFault::TooWide => BoundFault::TableTooWide(table),
    }
}

/// The span of each table, or the first fault of one.
pub(crate) fn collect_table_bounds(
    alloc: Global,
    params: &Params,
    items: &[Item],
    tables: &[Symbol],
) -> Result<Vec<Span>, BoundFault>
    requires declared { AreDeclared (declarations items.now) tables.now }
    requires tables { AreTables (declarations items.now) tables.now }
    ensures { IsAnswer (λ v. AreSpansOf params.now (declarations items.now) tables.now v.items)
        (TellsTable params.now (declarations items.now) tables.now) result }
{
    let mut spans = Vec::new(alloc);
    for (table, declared) in tables.iter().enumerate() {
        match compute_table_bounds(params, &items[declared.item]) {
            Ok(span) => spans.push(span).map_err(AllocError::from)?,
            Err(fault) => return Err(table_span_fault(fault, table)),
        }
    }
    Ok(spans)
}
