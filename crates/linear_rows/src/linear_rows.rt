#![tactic(auto)]
//! Linear rows: found once, and written along rows of points.

ghost use Rattle.std.specs.Prelude.{◌≡◌, ◌+ℤ◌, pos, [], Some, map, length, IfOk, IfSome};
ghost use Rattle.std.specs.Option.{option_map};
ghost use Rattle.job.specs.Reads.{EachRead};
ghost use Rattle.job.specs.Values.{formula_value};
ghost use Rattle.job.specs.Views.{case_view, formula_view};
ghost use Rattle.narrow_sums.specs.NarrowFormulas.{FitsWithin};
ghost use Rattle.row_loops.specs.Rows.{EachPlace, at};
ghost use Rattle.linear_rows.specs.RowFormulas.{linear_formula, IsRightLinear};

use crate::linear_means::{LinearMean, match_linear_mean, write_linear_mean};
use crate::linear_quotient::LinearQuotient;
use crate::linear_quotients::{find_linear_quotient, write_linear_quotient};
use job::{Formula, Function};
use narrow_sums::NarrowSource;
use row_kernels::RowSpan;
use std::alloc::{AllocError, Global};

/// A linear row.
#[derive(Drop)]
pub enum LinearRow<'a> {
    /// A sum of products of numbers and reads that is divided, and numbers that bound the quotient.
    Quotient(LinearQuotient<'a>),
    /// The mean of nine adjacent values.
    Mean(LinearMean<'a>),
}

// The linear row that a formula is.
fn find_linear_row_of_formula<'a>(
    alloc: Global,
    formula: &'a Formula,
) -> Result<Option<LinearRow<'a>>, AllocError>
    ensures some { IfOk result (λ found. IfSome found
        (λ it. formula_view formula.now ≡ linear_formula it)) }
    ensures right { IfOk result (λ found. IfSome found IsRightLinear) }
{
    if let Formula::Stencil(stage, divisor, kernel) = formula {
        return match match_linear_mean(*stage, *divisor, kernel) {
            Some(mean) => Ok(Some(LinearRow::Mean(mean))),
            None => Ok(None),
        };
    }
    match find_linear_quotient(alloc, formula)? {
        Some(quotient) => Ok(Some(LinearRow::Quotient(quotient))),
        None => Ok(None),
    }
}

/// The linear row that a function is, if it is one: everywhere a quotient of a sum of products of numbers and reads, which numbers may bound; or a
/// mean of nine adjacent values.
///
/// # Errors
///
/// Fails only where memory is refused.
pub fn find_linear_row<'a>(
    alloc: Global,
    function: &'a Function,
) -> Result<Option<LinearRow<'a>>, AllocError>
    ensures cases { IfOk result (λ found. IfSome found
        (λ it. map case_view function.now.cases.items ≡ [])) }
    ensures some { IfOk result (λ found. IfSome found
        (λ it. option_map formula_view function.now.otherwise ≡ Some (linear_formula it))) }
    ensures right { IfOk result (λ found. IfSome found IsRightLinear) }
{
    if !function.cases().is_empty() {
        return Ok(None);
    }
    match function.otherwise() {
        Some(formula) => find_linear_row_of_formula(alloc, formula),
        None => Ok(None),
    }
}

/// Writes the values of a linear row at a row of points, which fit in 16 bits.
pub fn write_linear_row<S: NarrowSource>(
    source: &S,
    row: &LinearRow<'_>,
    points: &RowSpan,
    out: &mut [i16],
)
    requires fits { length out.old ≡ points.now.len }
    requires right { IsRightLinear row.now }
    requires reads { EachPlace points.now.len (λ k. EachRead (S.has source.now)
        (linear_formula row.now) points.now.row (points.now.col +ℤ pos k)) }
    requires narrow { FitsWithin (S.samples source.now) (linear_formula row.now) points.now.row
        points.now.col points.now.len }
    ensures { EachPlace (length out.old) (λ k. at out.new k
        ≡ formula_value (S.samples source.now) (linear_formula row.now) points.now.row
        (points.now.col +ℤ pos k)) }
{
    match row {
        LinearRow::Quotient(quotient) => write_linear_quotient(source, quotient, points, out),
        LinearRow::Mean(mean) => write_linear_mean(source, mean, points, out),
    }
}
