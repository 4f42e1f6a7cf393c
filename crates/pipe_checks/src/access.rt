#![tactic(auto)]
//! What an expression accesses: its reads and stencils.

ghost use Rattle.std.specs.Prelude.{◌≡◌, ◌++◌, OnOk, IfOk};
ghost use Rattle.pipe_tree.specs.Tree.{view};
ghost use Rattle.pipe_checks.specs.Names.{number_of};
ghost use Rattle.pipe_checks.specs.Accesses.{read_at, stencil_at, width_of, accesses_of, stage_read};

use crate::symbol::{Symbol, find_symbol_number};
use pipe_tokens::Name;
use pipe_tree::{Expr, Index, Kernel, StencilRow};
use std::alloc::{AllocError, Global};

/// A read or a stencil in the text, with the number of the stage that is read. The other parts of a job's read, its indices over
/// integers or the kernel itself, are made once the names are resolved.
#[derive(Clone, Copy, Debug)]
pub enum Access {
    /// A read at an index of the row and an index of the column.
    Read(usize, Index, Index),
    /// A stencil whose kernel has this many rows and columns.
    Stencil(usize, usize, usize),
}

impl Access {
    /// The number of the stage that is read.
    pub fn stage(&self) -> usize
        ensures { result ≡ stage_read self.now }
    {
        match self {
            Access::Read(stage, _, _) | Access::Stencil(stage, _, _) => *stage,
        }
    }
}

fn push_read_access(
    found: &mut Vec<Access>,
    stages: &[Symbol],
    name: &Name,
    row: &Index,
    column: &Index,
) -> Result<(), AllocError>
    ensures { OnOk result (found.new.items
        ≡ found.old.items ++ read_at (number_of stages.now name.now) row.now column.now) }
{
    match find_symbol_number(stages, name) {
        Some(stage) => {
            found.push(Access::Read(stage, *row, *column))?;
            Ok(())
        }
        None => Ok(()),
    }
}

/// The length of the first row of a kernel.
pub(crate) fn measure_kernel_side_of_first_row(rows: &[StencilRow]) -> usize
    ensures { result ≡ width_of rows.now }
{
    match rows {
        [] => 0,
        [first, ..] => first.entries().len(),
    }
}

fn push_stencil_access(
    found: &mut Vec<Access>,
    stages: &[Symbol],
    name: &Name,
    kernel: &Kernel,
) -> Result<(), AllocError>
    ensures { OnOk result (found.new.items
        ≡ found.old.items ++ stencil_at (number_of stages.now name.now) kernel.now) }
{
    match find_symbol_number(stages, name) {
        Some(stage) => {
            found.push(Access::Stencil(
                stage,
                kernel.rows().len(),
                measure_kernel_side_of_first_row(kernel.rows()),
            ))?;
            Ok(())
        }
        None => Ok(()),
    }
}

/// Adds the accesses of an expression, in the order of the text, after those that were found.
pub fn push_expr_accesses(
    found: &mut Vec<Access>,
    stages: &[Symbol],
    expr: &Expr,
) -> Result<(), AllocError>
    ensures { OnOk result
        (found.new.items ≡ found.old.items ++ accesses_of stages.now (view expr.now)) }
{
    match expr {
        Expr::Number(_) | Expr::Name(_) => Ok(()),
        Expr::Read(name, row, column) => push_read_access(found, stages, name, row, column),
        Expr::Lookup(_, index) => push_expr_accesses(found, stages, index),
        Expr::Unary(_, operand) | Expr::Literal(_, operand, _) => {
            push_expr_accesses(found, stages, operand)
        }
        Expr::Binary(_, left, right) => {
            push_expr_accesses(found, stages, left)?;
            push_expr_accesses(found, stages, right)
        }
        Expr::Ternary(_, first, second, third) => {
            push_expr_accesses(found, stages, first)?;
            push_expr_accesses(found, stages, second)?;
            push_expr_accesses(found, stages, third)
        }
        Expr::Select(left, _, right, then, otherwise) => {
            push_expr_accesses(found, stages, left)?;
            push_expr_accesses(found, stages, right)?;
            push_expr_accesses(found, stages, then)?;
            push_expr_accesses(found, stages, otherwise)
        }
        Expr::Stencil(name, _, kernel) => push_stencil_access(found, stages, name, kernel),
    }
}

/// The reads and stencils of an expression in the order of the text. The stages are those of its program. A name of no stage is
/// skipped; a checked program has no such name. Fails where no memory is left.
pub fn collect_expr_accesses(
    alloc: Global,
    stages: &[Symbol],
    expr: &Expr,
) -> Result<Vec<Access>, AllocError>
    ensures { IfOk result (λ v. v.items ≡ accesses_of stages.now (view expr.now)) }
{
    let mut found = Vec::new(alloc);
    push_expr_accesses(&mut found, stages, expr)?;
    Ok(found)
}
