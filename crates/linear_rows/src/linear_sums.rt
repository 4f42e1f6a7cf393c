#![tactic(auto)]
//! Sums of products of numbers and reads, gathered from formulas once, and added up along rows of points.

ghost use Rattle.std.specs.Prelude.{◌≡◌, ◌<◌, ◌≤◌, ◌+ℤ◌, ◌*ℤ◌, ◌≤ℤ◌, ℤ, pos, negsuc, [], ◌∷◌, ◌++◌, length, map, take, All, IfOk};
ghost use Rattle.domains.specs.Arithmetic.{wrapped};
ghost use Rattle.domains.specs.Index.{index_at};
ghost use Rattle.job.specs.Reads.{point, reads_in};
ghost use Rattle.job.specs.Values.{Valuation, formula_value};
ghost use Rattle.job.specs.Views.{formula_view};
ghost use Rattle.row_loops.specs.Rows.{EachPlace, at};
ghost use Rattle.linear_rows.specs.inside.LinearSums.{line_at, tap_value, taps_value, sum_value, IsTapRead, AreTapsRead, tap_read};
ghost use Rattle.linear_rows.specs.inside.LinearTaps.{IsShiftingTap};

use crate::linear_formulas::{find_linear_bound, multiply_linear_factor};
use crate::linear_lines::{LinearLine, LinearPair, add_linear_term};
use crate::linear_taps::{LinearSum, LinearTap};
use domains::Index;
use domains::arithmetic::{wrapping_add, wrapping_mul};
use job::Formula;
use narrow_sums::NarrowSource;
use operators::{BinaryOp, UnaryOp};
use row_kernels::RowSpan;
use row_loops::fill_row;
use std::alloc::Global;

/// The samples that a tap reads along the points, with its factor.
#[inline]
pub(crate) fn borrow_linear_line<'a, S: NarrowSource>(
    source: &'a S,
    tap: &LinearTap<'_>,
    points: &RowSpan,
) -> LinearLine<'a>
    requires shifting { IsShiftingTap tap.now }
    requires reads { EachPlace points.now.len (λ k. IsTapRead (S.has source.now) points.now.row
        (points.now.col +ℤ pos k) tap.now) }
    ensures count { length result.line.now ≡ points.now.len }
    ensures values { EachPlace points.now.len (λ k. line_at result k
        ≡ tap_value (S.samples source.now) tap.now points.now.row (points.now.col +ℤ pos k)) }
{
    let row = points.row_at_index(tap.row);
    let first = points.first_column_at_index(tap.col);
    LinearLine {
        factor: tap.factor,
        line: source.borrow_narrow_row(tap.stage, row, first, points.len),
    }
}

// Adds the first taps at a row of points in one pass: up to four. Returns how many.
fn add_first_linear_taps<S: NarrowSource>(
    source: &S,
    taps: &[LinearTap<'_>],
    points: &RowSpan,
    out: &mut [i32],
) -> usize
    requires some { 0 < length taps.now }
    requires fits { length out.old ≡ points.now.len }
    requires shifting { All IsShiftingTap taps.now }
    requires reads { EachPlace points.now.len (λ k. AreTapsRead (S.has source.now) points.now.row
        (points.now.col +ℤ pos k) taps.now) }
    ensures more { 0 < result }
    ensures within { result ≤ length taps.now }
    ensures sums { EachPlace (length out.old) (λ k. (s : ℤ) → at out.old k ≡ wrapped s
        → at out.new k ≡ wrapped (s +ℤ taps_value (S.samples source.now) (take result taps.now)
        points.now.row (points.now.col +ℤ pos k))) }
{
    match taps {
        [] => 0,
        [a] => {
            add_linear_term(out, borrow_linear_line(source, a, points));
            1
        }
        [a, b] => {
            let a = borrow_linear_line(source, a, points);
            let b = borrow_linear_line(source, b, points);
            add_linear_term(out, LinearPair(a, b));
            2
        }
        [a, b, c] => {
            let a = borrow_linear_line(source, a, points);
            let b = borrow_linear_line(source, b, points);
            let c = borrow_linear_line(source, c, points);
            add_linear_term(out, LinearPair(a, LinearPair(b, c)));
            3
        }
        [a, b, c, d, ..] => {
            let a = borrow_linear_line(source, a, points);
            let b = borrow_linear_line(source, b, points);
            let c = borrow_linear_line(source, c, points);
            let d = borrow_linear_line(source, d, points);
            add_linear_term(out, LinearPair(a, LinearPair(b, LinearPair(c, d))));
            4
        }
    }
}

// Adds taps at a row of points.
fn add_linear_taps<S: NarrowSource>(
    source: &S,
    taps: &[LinearTap<'_>],
    points: &RowSpan,
    out: &mut [i32],
)
    requires fits { length out.old ≡ points.now.len }
    requires shifting { All IsShiftingTap taps.now }
    requires reads { EachPlace points.now.len (λ k. AreTapsRead (S.has source.now) points.now.row
        (points.now.col +ℤ pos k) taps.now) }
    ensures { EachPlace (length out.old) (λ k. (s : ℤ) → at out.old k ≡ wrapped s
        → at out.new k ≡ wrapped (s +ℤ taps_value (S.samples source.now) taps.now
        points.now.row (points.now.col +ℤ pos k))) }
{
    if !taps.is_empty() {
        let count = add_first_linear_taps(source, taps, points, out);
        add_linear_taps(source, &taps[count..], points, out);
    }
}

/// Why a formula is not gathered.
#[derive(Clone, Copy)]
pub(crate) enum LinearSumFault {
    /// It is no sum of products of numbers and reads.
    NoSum,
    Memory,
}

impl<'a> LinearSum<'a> {
    // A sum of nothing.
    fn new(alloc: Global) -> LinearSum<'a>
        ensures number { result.number ≡ pos 0 }
        ensures taps { result.taps.items ≡ [] }
    {
        LinearSum {
            number: 0,
            taps: Vec::new(alloc),
        }
    }

    /// The sum that a formula is, modulo 2^32.
    ///
    /// # Errors
    ///
    /// Fails where the formula is no sum of products of numbers and reads whose factors fit in 16 bits, and where memory is refused.
    pub(crate) fn from_formula(
        alloc: Global,
        formula: &'a Formula,
    ) -> Result<LinearSum<'a>, LinearSumFault>
        ensures values { IfOk result (λ sum. (env : Valuation) (r c : ℤ)
            → wrapped (sum_value env sum r c) ≡ wrapped (formula_value env (formula_view formula.now) r c)) }
        ensures reads { IfOk result (λ sum. map tap_read sum.taps.items ≡ reads_in (formula_view formula.now)) }
    {
        let mut sum = LinearSum::new(alloc);
        sum.add_linear_formula(1, formula)?;
        Ok(sum)
    }

    // Adds a factor times a read, if the index of its column only adds.
    fn add_linear_read(
        &mut self,
        factor: i16,
        stage: usize,
        row: &'a Index,
        col: &'a Index,
    ) -> Result<(), LinearSumFault>
        ensures values { IfOk result (λ _. (env : Valuation) (r c : ℤ)
            → wrapped (sum_value env self.new r c)
            ≡ wrapped (sum_value env self.old r c +ℤ factor *ℤ env stage (index_at row.now r) (index_at col.now c))) }
        ensures reads { IfOk result (λ _. map tap_read self.new.taps.items
            ≡ map tap_read self.old.taps.items ++ point stage row.now col.now ∷ []) }
    {
        if col.mul() != 1 || col.div() != 1 {
            return Err(LinearSumFault::NoSum);
        }
        let tap = LinearTap {
            factor,
            stage,
            row,
            col,
        };
        match self.taps.push(tap) {
            Ok(()) => Ok(()),
            Err(_) => Err(LinearSumFault::Memory),
        }
    }

    // Adds a factor times a formula times a number, modulo 2^32.
    #[cycle(add_linear_formula)]
    fn add_linear_product(
        &mut self,
        factor: i16,
        number: i32,
        formula: &'a Formula,
    ) -> Result<(), LinearSumFault>
        ensures values { IfOk result (λ _. (env : Valuation) (r c : ℤ)
            → wrapped (sum_value env self.new r c)
            ≡ wrapped (sum_value env self.old r c +ℤ factor *ℤ number *ℤ formula_value env (formula_view formula.now) r c)) }
        ensures reads { IfOk result (λ _. map tap_read self.new.taps.items
            ≡ map tap_read self.old.taps.items ++ reads_in (formula_view formula.now)) }
    {
        match multiply_linear_factor(factor, number) {
            Some(product) => self.add_linear_formula(product, formula),
            None => Err(LinearSumFault::NoSum),
        }
    }

    /// Adds a factor times a formula, modulo 2^32.
    ///
    /// # Errors
    ///
    /// Fails where the formula is no sum of products of numbers and reads whose factors fit in 16 bits, and where memory is refused.
    #[cycle(add_linear_formula)]
    pub(crate) fn add_linear_formula(
        &mut self,
        factor: i16,
        formula: &'a Formula,
    ) -> Result<(), LinearSumFault>
        requires { negsuc 32766 ≤ℤ factor }
        ensures values { IfOk result (λ _. (env : Valuation) (r c : ℤ)
            → wrapped (sum_value env self.new r c)
            ≡ wrapped (sum_value env self.old r c +ℤ factor *ℤ formula_value env (formula_view formula.now) r c)) }
        ensures reads { IfOk result (λ _. map tap_read self.new.taps.items
            ≡ map tap_read self.old.taps.items ++ reads_in (formula_view formula.now)) }
    {
        match formula {
            Formula::Number(number) => {
                let more = wrapping_mul(i32::from(factor), *number);
                self.number = wrapping_add(self.number, more);
            }
            Formula::Read(stage, row, col) => self.add_linear_read(factor, *stage, row, col)?,
            Formula::Unary(UnaryOp::Neg, of) => self.add_linear_formula(-factor, of)?,
            Formula::Binary(BinaryOp::Add, a, b) => {
                self.add_linear_formula(factor, a)?;
                self.add_linear_formula(factor, b)?;
            }
            Formula::Binary(BinaryOp::Sub, a, b) => {
                self.add_linear_formula(factor, a)?;
                self.add_linear_formula(-factor, b)?;
            }
            Formula::Binary(BinaryOp::Mul, a, b) => {
                match (find_linear_bound(a), find_linear_bound(b)) {
                    (Some(number), _) => self.add_linear_product(factor, number, b)?,
                    (None, Some(number)) => self.add_linear_product(factor, number, a)?,
                    (None, None) => return Err(LinearSumFault::NoSum),
                }
            }
            _ => return Err(LinearSumFault::NoSum),
        }
        Ok(())
    }
}

/// Writes a sum at a row of points, wrapped at 32 bits.
pub(crate) fn write_linear_sums<S: NarrowSource>(
    source: &S,
    sum: &LinearSum<'_>,
    points: &RowSpan,
    out: &mut [i32],
)
    requires fits { length out.old ≡ points.now.len }
    requires reads { EachPlace points.now.len (λ k. AreTapsRead (S.has source.now) points.now.row
        (points.now.col +ℤ pos k) sum.now.taps.items) }
    ensures { EachPlace (length out.old) (λ k. at out.new k
        ≡ wrapped (sum_value (S.samples source.now) sum.now points.now.row (points.now.col +ℤ pos k))) }
{
    fill_row(out, sum.number);
    add_linear_taps(source, &sum.taps, points, out);
}
