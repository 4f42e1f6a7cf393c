#![tactic(auto)]
//! Names to numbers: formulas and tests of a program at the values of its parameters.

ghost use Rattle.std.specs.Prelude.{◌≡◌, ◌<◌, ◌^◌, pos, IfOk, filter, map};
ghost use Rattle.pipe_tree.specs.Tree.{view};
ghost use Rattle.pipe_checks.specs.Accesses.{is_plane};
ghost use Rattle.binding.specs.Binding.{stage_number, rank_named, plane_number, entries_named, axis_of, name_formula};
ghost use Rattle.binding.specs.Binding.{formula_of, test_of};
ghost use Rattle.binding.specs.inside.Ranges.{HasEntries, IsRanged};
ghost use Rattle.job.specs.Views.{axis_view, formula_view, test_view};
ghost use Rattle.binding.specs.inside.Resolving.{program_in, variables_in};

use crate::handed::find_supplied_table_by_name;
use job::{Axis, Formula, Kernel, KernelFactors, PointTest, Table, TableEntries};
use pipe_bounds::{Params, StageBounds, affine_value, to_domain_index};
use pipe_checks::{Checked, Symbol, find_symbol_number, is_same_name};
use pipe_tokens::Name;
use pipe_tree::Expr;
use std::alloc::{AllocError, Global};

/// The names of the two variables of an item.
#[derive(Clone, Copy, Debug)]
pub(crate) struct VariableNames {
    pub row: Name,
    pub column: Name,
}

fn collect_declared_picture_planes(
    alloc: Global,
    stages: &[Symbol],
) -> Result<Vec<Symbol>, AllocError>
    ensures { IfOk result (λ v. v.items ≡ filter (λ d. is_plane d.kind) stages.now) }
{
    stages
        .iter()
        .filter(|declared| declared.kind.is_plane())
        .copied()
        .collect(alloc)
}

// A number of the text.
fn resolve_number_literal(number: u32) -> i32
    requires { number < 2 ^ 31 }
    ensures { result ≡ pos number }
{
    number as i32
}

fn resolve_variable_name_to_axis(own: &VariableNames, name: &Name) -> Axis
    ensures { axis_view result ≡ axis_of (variables_in own.now) name.now }
{
    if is_same_name(name, &own.row) {
        Axis::Row
    } else {
        Axis::Column
    }
}

fn resolve_row_of_job_kernel(
    alloc: Global,
    row: &pipe_tree::StencilRow,
) -> Result<KernelFactors, AllocError>
    ensures { IfOk result (λ f. f ≡ row.now) }
{
    Ok(KernelFactors::new(row.entries().to_vec(alloc)?))
}

// The factors of a kernel in the text.
fn resolve_job_kernel(alloc: Global, kernel: &pipe_tree::Kernel) -> Result<Kernel, AllocError>
    ensures { IfOk result (λ k. k ≡ kernel.now) }
{
    let mut rows = Vec::new(alloc);
    for row in kernel.rows() {
        rows.push(resolve_row_of_job_kernel(alloc, row)?)?;
    }
    Ok(Kernel::new(rows))
}

/// A program with the values of its parameters, what was found of each of its stages, and the supplied tables.
#[derive(Drop)]
pub(crate) struct JobResolver<'a> {
    pub alloc: Global,
    pub checked: &'a Checked,
    pub params: &'a Params,
    pub found: &'a [StageBounds],
    pub tables: &'a [Table],
}

impl JobResolver<'_> {
    /// The number of the stage of this name.
    pub fn resolve_name_to_stage_number(&self, name: &Name) -> usize
        ensures { result ≡ stage_number (program_in self.now) name.now }
    {
        find_symbol_number(self.checked.stages(), name).unwrap_or(0)
    }

    /// The rank of the stage of this name.
    pub fn resolve_name_to_stage_rank(&self, name: &Name) -> usize
        ensures { result ≡ rank_named (program_in self.now) name.now }
    {
        self.checked
            .rank(self.resolve_name_to_stage_number(name))
            .unwrap_or(0)
    }

    /// The index of the plane of this name among the planes.
    pub fn resolve_name_to_plane_number(&self, name: &Name) -> Result<usize, AllocError>
        ensures { IfOk result (λ n. n ≡ plane_number (program_in self.now) name.now) }
    {
        let planes = collect_declared_picture_planes(self.alloc, self.checked.stages())?;
        Ok(find_symbol_number(&planes, name).unwrap_or(0))
    }

    // The entries of the table of this name.
    fn resolve_name_to_table_entries(&self, name: &Name) -> Result<TableEntries, AllocError>
        requires { HasEntries self.now.tables.now name.now }
        ensures { IfOk result (λ e. e ≡ entries_named (program_in self.now) name.now) }
    {
        let table = find_supplied_table_by_name(self.tables, name).unwrap();
        Ok(TableEntries::from_table_if_within_limits(table)?.unwrap())
    }

    fn resolve_variable_or_parameter(&self, own: &VariableNames, name: &Name) -> Formula
        ensures { formula_view result
            ≡ name_formula (program_in self.now) (variables_in own.now) name.now }
    {
        if is_same_name(name, &own.row) {
            Formula::Coordinate(Axis::Row)
        } else if is_same_name(name, &own.column) {
            Formula::Coordinate(Axis::Column)
        } else {
            Formula::Number(self.params.value_or_zero(name))
        }
    }

    /// The formula of an expression.
    #[cycle(formula)]
    pub fn resolve_formula(&self, own: &VariableNames, expr: &Expr) -> Result<Formula, AllocError>
        requires { IsRanged self.now.tables.now (view expr.now) }
        ensures { IfOk result (λ f. formula_view f
            ≡ formula_of (program_in self.now) (variables_in own.now) (view expr.now)) }
    {
        match expr {
            Expr::Number(number) => Ok(Formula::Number(resolve_number_literal(*number))),
            Expr::Name(name) => Ok(self.resolve_variable_or_parameter(own, name)),
            Expr::Read(name, row, column) => Ok(Formula::Read(
                self.resolve_name_to_stage_number(name),
                to_domain_index(row),
                to_domain_index(column),
            )),
            Expr::Lookup(name, index) => Ok(Formula::Lookup(
                self.resolve_name_to_table_entries(name)?,
                self.resolve_boxed_formula(own, index)?,
            )),
            Expr::Unary(op, operand) => Ok(Formula::Unary(
                *op,
                self.resolve_boxed_formula(own, operand)?,
            )),
            Expr::Binary(op, left, right) => Ok(Formula::Binary(
                *op,
                self.resolve_boxed_formula(own, left)?,
                self.resolve_boxed_formula(own, right)?,
            )),
            Expr::Ternary(op, first, second, third) => Ok(Formula::Ternary(
                *op,
                self.resolve_boxed_formula(own, first)?,
                self.resolve_boxed_formula(own, second)?,
                self.resolve_boxed_formula(own, third)?,
            )),
            Expr::Literal(op, operand, number) => {
                Ok(Formula::Literal(*op, self.resolve_boxed_formula(own, operand)?, *number))
            }
            Expr::Select(left, relation, right, then, otherwise) => Ok(Formula::Select(
                self.resolve_boxed_formula(own, left)?,
                *relation,
                self.resolve_boxed_formula(own, right)?,
                self.resolve_boxed_formula(own, then)?,
                self.resolve_boxed_formula(own, otherwise)?,
            )),
            Expr::Stencil(name, divisor, kernel) => Ok(Formula::Stencil(
                self.resolve_name_to_stage_number(name),
                *divisor,
                resolve_job_kernel(self.alloc, kernel)?,
            )),
        }
    }

    #[cycle(formula)]
    fn resolve_boxed_formula(
        &self,
        own: &VariableNames,
        expr: &Expr,
    ) -> Result<Box<Formula>, AllocError>
        requires { IsRanged self.now.tables.now (view expr.now) }
        ensures { IfOk result (λ f. formula_view f.value
            ≡ formula_of (program_in self.now) (variables_in own.now) (view expr.now)) }
    {
        let formula = self.resolve_formula(own, expr)?;
        Ok(Box::new(self.alloc, formula)?)
    }

    fn resolve_test(&self, own: &VariableNames, test: &pipe_tree::Test) -> PointTest
        ensures { test_view result ≡ test_of (program_in self.now) (variables_in own.now) test.now }
    {
        match test {
            pipe_tree::Test::Compare(name, relation, bound) => PointTest::Compare(
                resolve_variable_name_to_axis(own, name),
                *relation,
                affine_value(self.params, bound),
            ),
            pipe_tree::Test::Remainder(name, modulus, rest) => {
                PointTest::Remainder(resolve_variable_name_to_axis(own, name), *modulus, *rest)
            }
        }
    }

    /// Tests, in the order of the text.
    pub fn resolve_tests(
        &self,
        own: &VariableNames,
        tests: &[pipe_tree::Test],
    ) -> Result<Vec<PointTest>, AllocError>
        ensures { IfOk result (λ v. map test_view v.items
            ≡ map (test_of (program_in self.now) (variables_in own.now)) tests.now) }
    {
        let mut resolved = Vec::new(self.alloc);
        for test in tests {
            resolved.push(self.resolve_test(own, test))?;
        }
        Ok(resolved)
    }
}
