#![tactic(auto, using(crate::proofs::Judging::judged_append, crate::proofs::Judging::judged_one))]
//! Whether each place of an item has what it requires, in the order of the text.

ghost use Rattle.std.specs.Prelude.{◌≡◌, ◌==◌, length};
ghost use Rattle.std.specs.List.{list_all};
ghost use Rattle.std.specs.Option.{option_map};
ghost use Rattle.pipe_tree.specs.Tree.{view, branch, branches, function_of, accumulator_of, declaration};
ghost use Rattle.pipe_checks.specs.Uses.{is_variable_named, allows, role_of, role_at, wrong_name, wrong_range, wrong_remainder, wrong_shift};
ghost use Rattle.pipe_checks.specs.Uses.{is_odd_kernel_side_within_limit, wrong_kernel, factor_places, affine_places, span_places, index_places};
ghost use Rattle.pipe_checks.specs.Uses.{least_literal, greatest_literal, read_places, stencil_places, expr_places, test_places};
ghost use Rattle.pipe_checks.specs.Uses.{tests_places, branch_places, branches_places, otherwise_places, function_places};
ghost use Rattle.pipe_checks.specs.Uses.{accumulator_places, output_places, places_of};
ghost use Rattle.pipe_checks.specs.inside.Judging.{verdict, judged};

use crate::access::measure_kernel_side_of_first_row;
use crate::fault::Violation;
use crate::symbol::{SymbolKind, is_same_name};
use crate::table::SymbolTable;
use operators::LiteralOp;
use pipe_tokens::Name;
use pipe_tree::{
    Accum, Affine, AffineSpan, Case, Expr, Func, Index, Item, Kernel, Names, Output, StencilRow,
    Test,
};

/// The greatest number of a text.
pub const MAX_NUMBER: u32 = 2_147_483_647;

/// The greatest factor and the greatest divisor of an index.
pub const MAX_SCALE: u32 = 16;

/// The greatest number that an index adds or subtracts.
pub const MAX_ADD: i32 = 4096;

/// The greatest number of bits that a value is shifted by.
pub const MAX_SHIFT: u32 = 31;

/// The greatest side of a kernel.
pub const MAX_SIDE: usize = 15;

/// The upper limit of an output's greatest sample.
pub const MAX_SAMPLE: u32 = 65535;

/// What a name denotes in an item: its role there.
#[derive(Clone, Copy, Debug, PartialEq, Eq)]
pub(crate) enum NameRole {
    Param,
    Table,
    Plane,
    Func,
    Accum,
    Row,
    Column,
}

/// What a place requires.
#[derive(Clone, Copy, Debug, PartialEq, Eq)]
pub(crate) enum ExpectedNameRole {
    /// A parameter.
    Param,
    /// A table.
    Table,
    /// What may be read: a plane or a function.
    Readable,
    /// A function.
    Func,
    /// A number: a variable or a parameter.
    Number,
    /// The variable of the rows.
    Row,
    /// The variable of the columns.
    Column,
    /// A variable.
    Variable,
}

impl ExpectedNameRole {
    fn is_met_by(self, role: NameRole) -> bool
        ensures { result ≡ allows self role }
    {
        match self {
            ExpectedNameRole::Param => matches!(role, NameRole::Param),
            ExpectedNameRole::Table => matches!(role, NameRole::Table),
            ExpectedNameRole::Readable => matches!(role, NameRole::Plane | NameRole::Func),
            ExpectedNameRole::Func => matches!(role, NameRole::Func),
            ExpectedNameRole::Number => matches!(
                role,
                NameRole::Row | NameRole::Column | NameRole::Param
            ),
            ExpectedNameRole::Row => matches!(role, NameRole::Row),
            ExpectedNameRole::Column => matches!(role, NameRole::Column),
            ExpectedNameRole::Variable => matches!(role, NameRole::Row | NameRole::Column),
        }
    }
}

/// The variables of an item, if it has them.
#[derive(Clone, Copy, Debug)]
pub(crate) struct ItemVariables {
    pub row: Option<Name>,
    pub column: Option<Name>,
}

fn is_variable_named(variable: &Option<Name>, name: &Name) -> bool
    ensures { result ≡ is_variable_named variable.now name.now }
{
    match variable {
        Some(variable) => is_same_name(variable, name),
        None => false,
    }
}

fn to_name_role(kind: SymbolKind) -> NameRole
    ensures { result ≡ role_of kind }
{
    match kind {
        SymbolKind::Param => NameRole::Param,
        SymbolKind::Table => NameRole::Table,
        SymbolKind::Plane => NameRole::Plane,
        SymbolKind::Func => NameRole::Func,
        SymbolKind::Accum => NameRole::Accum,
    }
}

fn check_literal_from_least_to_most(number: u32, least: u32, most: u32) -> Result<(), Violation>
    ensures { result ≡ verdict (wrong_range number least most) }
{
    if least <= number && number <= most {
        Ok(())
    } else {
        Err(Violation::BadLiteral)
    }
}

fn check_test_remainder_below_modulus(number: u32, bound: u32) -> Result<(), Violation>
    ensures { result ≡ verdict (wrong_remainder number bound) }
{
    if number < bound {
        Ok(())
    } else {
        Err(Violation::BadLiteral)
    }
}

fn check_index_addend(number: i32) -> Result<(), Violation>
    ensures { result ≡ verdict (wrong_shift number) }
{
    if -MAX_ADD <= number && number <= MAX_ADD {
        Ok(())
    } else {
        Err(Violation::BadLiteral)
    }
}

/// Whether a kernel may have a side of this length.
pub(crate) fn is_odd_kernel_side_within_limit(length: usize) -> bool
    ensures { result ≡ is_odd_kernel_side_within_limit length }
{
    length % 2 == 1 && length <= MAX_SIDE
}

fn is_kernel_side_of_each_row(rows: &[StencilRow], width: usize) -> bool
    ensures { result ≡ list_all (λ row. length row == width) rows.now }
{
    rows.iter().all(|row| row.entries().len() == width)
}

fn check_stencil_kernel_sides(kernel: &Kernel) -> Result<(), Violation>
    ensures { result ≡ verdict (wrong_kernel kernel.now) }
{
    let rows = kernel.rows();
    let width = measure_kernel_side_of_first_row(rows);
    if is_odd_kernel_side_within_limit(rows.len())
        && is_odd_kernel_side_within_limit(width)
        && is_kernel_side_of_each_row(rows, width)
    {
        Ok(())
    } else {
        Err(Violation::BadKernel)
    }
}

fn check_operator_literal(op: LiteralOp, number: u32) -> Result<(), Violation>
    ensures { result ≡ verdict (wrong_range number (least_literal op) (greatest_literal op)) }
{
    match op {
        LiteralOp::Div | LiteralOp::Rem => check_literal_from_least_to_most(number, 1, MAX_NUMBER),
        LiteralOp::Shl | LiteralOp::Shr => check_literal_from_least_to_most(number, 0, MAX_SHIFT),
    }
}

fn find_name_role(names: &SymbolTable, locals: &ItemVariables, name: &Name) -> Option<NameRole>
    ensures { result ≡ role_at names.now locals.now name.now }
{
    if is_variable_named(&locals.row, name) {
        return Some(NameRole::Row);
    }
    if is_variable_named(&locals.column, name) {
        return Some(NameRole::Column);
    }
    match names.find_symbol(name) {
        Some(declared) => Some(to_name_role(declared.kind)),
        None => None,
    }
}

fn check_name_role(
    names: &SymbolTable,
    locals: &ItemVariables,
    name: &Name,
    expected: ExpectedNameRole,
) -> Result<(), Violation>
    ensures { result ≡ verdict (wrong_name expected (role_at names.now locals.now name.now)) }
{
    match find_name_role(names, locals, name) {
        Some(role) => {
            if expected.is_met_by(role) {
                Ok(())
            } else {
                Err(Violation::Kind)
            }
        }
        None => Err(Violation::Unknown),
    }
}

fn check_affine_name(
    names: &SymbolTable,
    locals: &ItemVariables,
    name: &Option<Name>,
) -> Result<(), Violation>
    ensures { result ≡ judged names.now locals.now (factor_places name.now) }
{
    match name {
        Some(name) => check_name_role(names, locals, name, ExpectedNameRole::Param),
        None => Ok(()),
    }
}

fn check_affine_sum(
    names: &SymbolTable,
    locals: &ItemVariables,
    affine: &Affine,
) -> Result<(), Violation>
    ensures { result ≡ judged names.now locals.now (affine_places affine.now) }
{
    for term in affine.terms() {
        check_affine_name(names, locals, &term.name)?;
    }
    Ok(())
}

fn check_affine_span(
    names: &SymbolTable,
    locals: &ItemVariables,
    span: &AffineSpan,
) -> Result<(), Violation>
    ensures { result ≡ judged names.now locals.now (span_places span.now) }
{
    check_affine_sum(names, locals, &span.first)?;
    check_affine_sum(names, locals, &span.last)
}

#[tactic(auto, using(crate::proofs::Judging::judged_append, crate::proofs::Judging::judged_one), unfolding(crate::specs::Uses::index_places))]
fn check_read_index(
    names: &SymbolTable,
    locals: &ItemVariables,
    index: &Index,
    expected: ExpectedNameRole,
) -> Result<(), Violation>
    ensures { result ≡ judged names.now locals.now (index_places index.now expected) }
{
    check_literal_from_least_to_most(index.mul, 1, MAX_SCALE)?;
    check_name_role(names, locals, &index.name, expected)?;
    check_index_addend(index.add)?;
    check_literal_from_least_to_most(index.div, 1, MAX_SCALE)
}

fn check_read_expr(
    names: &SymbolTable,
    locals: &ItemVariables,
    name: &Name,
    row: &Index,
    column: &Index,
) -> Result<(), Violation>
    ensures { result ≡ judged names.now locals.now (read_places name.now row.now column.now) }
{
    check_name_role(names, locals, name, ExpectedNameRole::Readable)?;
    check_read_index(names, locals, row, ExpectedNameRole::Row)?;
    check_read_index(names, locals, column, ExpectedNameRole::Column)
}

fn check_stencil_expr(
    names: &SymbolTable,
    locals: &ItemVariables,
    name: &Name,
    divisor: u32,
    kernel: &Kernel,
) -> Result<(), Violation>
    ensures { result ≡ judged names.now locals.now (stencil_places name.now divisor kernel.now) }
{
    check_name_role(names, locals, name, ExpectedNameRole::Readable)?;
    check_literal_from_least_to_most(divisor, 1, MAX_NUMBER)?;
    check_stencil_kernel_sides(kernel)
}

fn check_expr(names: &SymbolTable, locals: &ItemVariables, expr: &Expr) -> Result<(), Violation>
    ensures { result ≡ judged names.now locals.now (expr_places (view expr.now)) }
{
    match expr {
        Expr::Number(number) => check_literal_from_least_to_most(*number, 0, MAX_NUMBER),
        Expr::Name(name) => check_name_role(names, locals, name, ExpectedNameRole::Number),
        Expr::Read(name, row, column) => check_read_expr(names, locals, name, row, column),
        Expr::Lookup(name, index) => {
            check_name_role(names, locals, name, ExpectedNameRole::Table)?;
            check_expr(names, locals, index)
        }
        Expr::Unary(_, operand) => check_expr(names, locals, operand),
        Expr::Binary(_, left, right) => {
            check_expr(names, locals, left)?;
            check_expr(names, locals, right)
        }
        Expr::Ternary(_, first, second, third) => {
            check_expr(names, locals, first)?;
            check_expr(names, locals, second)?;
            check_expr(names, locals, third)
        }
        Expr::Literal(op, operand, number) => {
            check_expr(names, locals, operand)?;
            check_operator_literal(*op, *number)
        }
        Expr::Select(left, _, right, then, otherwise) => {
            check_expr(names, locals, left)?;
            check_expr(names, locals, right)?;
            check_expr(names, locals, then)?;
            check_expr(names, locals, otherwise)
        }
        Expr::Stencil(name, divisor, kernel) => check_stencil_expr(
            names, locals, name, *divisor, kernel,
        ),
    }
}

#[tactic(auto, using(crate::proofs::Judging::judged_append, crate::proofs::Judging::judged_one), unfolding(crate::specs::Uses::test_places))]
fn check_condition_test(
    names: &SymbolTable,
    locals: &ItemVariables,
    test: &Test,
) -> Result<(), Violation>
    ensures { result ≡ judged names.now locals.now (test_places test.now) }
{
    match test {
        Test::Compare(name, _, bound) => {
            check_name_role(names, locals, name, ExpectedNameRole::Variable)?;
            check_affine_sum(names, locals, bound)
        }
        Test::Remainder(name, modulus, remainder) => {
            check_name_role(names, locals, name, ExpectedNameRole::Variable)?;
            check_literal_from_least_to_most(*modulus, 1, MAX_NUMBER)?;
            check_test_remainder_below_modulus(*remainder, *modulus)
        }
    }
}

fn check_condition_tests(
    names: &SymbolTable,
    locals: &ItemVariables,
    tests: &[Test],
) -> Result<(), Violation>
    ensures { result ≡ judged names.now locals.now (tests_places tests.now) }
{
    for test in tests {
        check_condition_test(names, locals, test)?;
    }
    Ok(())
}

fn check_case(names: &SymbolTable, locals: &ItemVariables, case: &Case) -> Result<(), Violation>
    ensures { result ≡ judged names.now locals.now (branch_places (branch case.now)) }
{
    check_condition_tests(names, locals, case.condition.tests())?;
    check_expr(names, locals, &case.value)
}

fn check_cases(names: &SymbolTable, locals: &ItemVariables, cases: &[Case]) -> Result<(), Violation>
    ensures { result ≡ judged names.now locals.now (branches_places (branches cases.now)) }
{
    for case in cases {
        check_case(names, locals, case)?;
    }
    Ok(())
}

fn check_otherwise_expr_if_any(
    names: &SymbolTable,
    locals: &ItemVariables,
    otherwise: &Option<Expr>,
) -> Result<(), Violation>
    ensures { result
        ≡ judged names.now locals.now (otherwise_places (option_map view otherwise.now)) }
{
    match otherwise {
        Some(value) => check_expr(names, locals, value),
        None => Ok(()),
    }
}

fn check_func_item(
    names: &SymbolTable,
    locals: &ItemVariables,
    func: &Func,
) -> Result<(), Violation>
    ensures { result ≡ judged names.now locals.now (function_places (function_of func.now)) }
{
    check_affine_span(names, locals, &func.row.span)?;
    check_affine_span(names, locals, &func.column.span)?;
    check_cases(names, locals, func.cases.case_list())?;
    check_otherwise_expr_if_any(names, locals, &func.otherwise)
}

fn check_accum_item(
    names: &SymbolTable,
    locals: &ItemVariables,
    accum: &Accum,
) -> Result<(), Violation>
    ensures { result ≡ judged names.now locals.now (accumulator_places (accumulator_of accum.now)) }
{
    check_affine_span(names, locals, &accum.bins)?;
    check_affine_span(names, locals, &accum.row.span)?;
    check_affine_span(names, locals, &accum.column.span)?;
    check_expr(names, locals, &accum.value)?;
    check_expr(names, locals, &accum.bin)
}

fn check_output_names_are_functions(
    names: &SymbolTable,
    locals: &ItemVariables,
    outputs: &Names,
) -> Result<(), Violation>
    ensures { result ≡ judged names.now locals.now (output_places outputs.now) }
{
    match outputs {
        Names::One(name) => check_name_role(names, locals, name, ExpectedNameRole::Func),
        Names::Three(red, green, blue) => {
            check_name_role(names, locals, red, ExpectedNameRole::Func)?;
            check_name_role(names, locals, green, ExpectedNameRole::Func)?;
            check_name_role(names, locals, blue, ExpectedNameRole::Func)
        }
    }
}

/// The first place of the item that does not have what it requires, as a fault.
pub(crate) fn check_names_and_numbers_of_item(
    names: &SymbolTable,
    locals: &ItemVariables,
    item: &Item,
) -> Result<(), Violation>
    ensures { result ≡ judged names.now locals.now (places_of (declaration item.now)) }
{
    match item {
        Item::Param(_) => Ok(()),
        Item::Table(table) => check_affine_span(names, locals, &table.span),
        Item::Image(image) => {
            check_affine_sum(names, locals, &image.rows)?;
            check_affine_sum(names, locals, &image.columns)
        }
        Item::Func(func) => check_func_item(names, locals, func),
        Item::Accum(accum) => check_accum_item(names, locals, accum),
        Item::Output(output) => {
            check_output_names_are_functions(names, locals, &output.names)?;
            check_literal_from_least_to_most(output.max, 1, MAX_SAMPLE)
        }
    }
}
