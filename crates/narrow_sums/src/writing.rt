#![tactic(auto)]
//! Rows of sums.

ghost use Rattle.std.specs.Prelude.{◌≡◌, ◌≤◌, ◌+ℤ◌, ◌*ℤ◌, ℕ, ℤ, pos, length, take};
ghost use Rattle.std.specs.Int.{w16, int_wrap};
ghost use Rattle.operators.specs.Limits.{IsDivisor};
ghost use Rattle.job.specs.Formula.{Formula as FormulaView};
ghost use Rattle.job.specs.Values.{formula_value};
ghost use Rattle.row_loops.specs.Rows.{EachPlace, at};
ghost use Rattle.tile_eval.specs.Reading.{ReadsWithin};
ghost use Rattle.narrow_kernels.specs.NarrowDifferences.{narrow_difference_at};
ghost use Rattle.narrow_kernels.specs.NarrowTaps.{HaveTapLines};
ghost use Rattle.narrow_kernels.specs.NarrowCenters.{centered_tap_sum, IsCenter};
ghost use Rattle.narrow_kernels.specs.declared.narrow_centers.NarrowCenter.{NarrowCenter as CenterView};
ghost use Rattle.narrow_sums.specs.NarrowFormulas.{NarrowWithin};
ghost use Rattle.narrow_sums.specs.NarrowSums.{HasAddends, GivesSum, IsRest};
ghost use Rattle.narrow_sums.specs.SumTerms.{read_formula, difference_formula, part_formula, TermsWithin};
ghost use Rattle.narrow_sums.specs.SumRows.{sum_row_formula, joined_sum_formula, RowReadsWithin};
ghost use Rattle.narrow_sums.specs.declared.terms.NarrowSumRead.{NarrowSumRead as ReadView};
ghost use Rattle.narrow_sums.specs.declared.terms.NarrowSumBounds.{NarrowSumBounds as BoundsView};
ghost use Rattle.narrow_sums.specs.declared.terms.NarrowSumPart.TheVariants.{Difference};
ghost use Rattle.narrow_sums.specs.inside.NearTerms.{near_read, AreNear, AreGapsFitting, IsNearSum};
ghost use Rattle.narrow_sums.specs.inside.TermValues.{part_value, term_value};
ghost use Rattle.narrow_sums.specs.inside.TermOrders.{ordered_value, AreTermNumbers};
ghost use Rattle.narrow_sums.specs.inside.RowValues.{number_of, divisor_of, divided_value, row_value};

use crate::narrow_source::NarrowSource;
use crate::narrow_sum::NarrowSum;
use crate::reads::borrow_narrow_sum_read_line;
use crate::sum_row::NarrowSumRow;
use crate::terms::{
    NarrowSumBounds, NarrowSumDifference, NarrowSumPart, NarrowSumRead, NarrowSumTerm,
};
use narrow_kernels::{
    NarrowCenter, NarrowClampedDifference, NarrowTap, add_and_divide_narrow_tap_sums,
    add_centered_narrow_tap_sums, add_narrow_tap_sums, fill_narrow_row,
};
use row_kernels::RowSpan;

// How many differences from a center are added in one pass.
const NEAR: usize = 8;

// A weight, and the lines whose clamped difference it multiplies.
#[inline]
fn borrow_narrow_sum_part_lines<'a, S: NarrowSource>(
    source: &'a S,
    factor: i16,
    difference: &NarrowSumDifference,
    points: &RowSpan,
) -> NarrowClampedDifference<'a>
    requires { ReadsWithin (S.has source.now) (difference_formula difference.now) points.now.row
        points.now.col points.now.len }
    ensures left { length result.left.now ≡ points.now.len }
    ensures right { length result.right.now ≡ points.now.len }
    ensures values { EachPlace points.now.len (λ k. narrow_difference_at result k
        ≡ factor *ℤ part_value (S.samples source.now) (Difference difference.now) points.now.row
        (points.now.col +ℤ pos k)) }
{
    NarrowClampedDifference {
        factor,
        left: borrow_narrow_sum_read_line(source, &difference.left, points),
        right: borrow_narrow_sum_read_line(source, &difference.right, points),
        low: difference.low,
        high: difference.high,
    }
}

// Adds a term to a sum.
#[inline]
fn push_narrow_sum_term<'a, S: NarrowSource>(
    source: &'a S,
    term: &NarrowSumTerm,
    points: &RowSpan,
    sum: &mut NarrowSum<'a>,
    out: &mut [i16],
)
    requires fits { length out.old ≡ points.now.len }
    requires reads { ReadsWithin (S.has source.now) (part_formula term.now.part) points.now.row
        points.now.col points.now.len }
    requires addends { HasAddends (length out.old) sum.old }
    ensures addends { HasAddends (length out.old) sum.new }
    ensures sum { (f : ℕ → ℤ) → GivesSum (length out.old) f sum.old out.old
        → GivesSum (length out.old) (λ k. f k +ℤ term_value (S.samples source.now) term.now points.now.row
        (points.now.col +ℤ pos k)) sum.new out.new }
{
    let factor = term.weight;
    match &term.part {
        NarrowSumPart::Read(read) => {
            let line = borrow_narrow_sum_read_line(source, read, points);
            sum.push_narrow_sum_tap(NarrowTap { line, factor }, out);
        }
        NarrowSumPart::Difference(difference) => {
            let lines = borrow_narrow_sum_part_lines(source, factor, difference, points);
            sum.push_narrow_sum_difference(lines, out);
        }
    }
}

// Adds the terms of these numbers to a sum.
fn push_narrow_sum_terms<'a, S: NarrowSource>(
    source: &'a S,
    terms: &[NarrowSumTerm],
    order: &[usize],
    points: &RowSpan,
    sum: &mut NarrowSum<'a>,
    out: &mut [i16],
)
    requires fits { length out.old ≡ points.now.len }
    requires numbers { AreTermNumbers terms.now order.now }
    requires reads { TermsWithin (S.has source.now) terms.now points.now.row points.now.col
        points.now.len }
    requires addends { HasAddends (length out.old) sum.old }
    ensures addends { HasAddends (length out.old) sum.new }
    ensures sum { (f : ℕ → ℤ) → GivesSum (length out.old) f sum.old out.old
        → GivesSum (length out.old) (λ k. f k +ℤ ordered_value (S.samples source.now) terms.now order.now
        points.now.row (points.now.col +ℤ pos k)) sum.new out.new }
{
    for k in 0..order.len() {
        push_narrow_sum_term(source, &terms[order[k]], points, sum, out);
    }
}

// The left read of a difference, or the read.
#[inline]
fn find_left_narrow_sum_read(part: &NarrowSumPart) -> NarrowSumRead
    ensures { result ≡ near_read part.now }
{
    match part {
        NarrowSumPart::Read(read) => *read,
        NarrowSumPart::Difference(difference) => difference.left,
    }
}

// The left lines of up to eight terms of these numbers, with their weights.
#[inline]
fn borrow_left_narrow_sum_term_lines<'a, S: NarrowSource>(
    source: &'a S,
    terms: &[NarrowSumTerm],
    order: &[usize],
    points: &RowSpan,
) -> [NarrowTap<'a>; NEAR]
    requires count { length order.now ≤ 8 }
    requires numbers { AreTermNumbers terms.now order.now }
    requires reads { TermsWithin (S.has source.now) terms.now points.now.row points.now.col
        points.now.len }
    ensures space { length result ≡ 8 }
    ensures lines { HaveTapLines points.now.len (take (length order.now) result) }
    ensures values { (own : ReadView) (bounds : BoundsView) (center : CenterView)
        → IsNearSum (S.samples source.now) points.now.row points.now.col points.now.len own bounds center terms.now
        → EachPlace points.now.len (λ k. centered_tap_sum center (take (length order.now) result) k
        ≡ ordered_value (S.samples source.now) terms.now order.now points.now.row
        (points.now.col +ℤ pos k)) }
{
    let mut lines = [NarrowTap {
        line: &[],
        factor: 0,
    }; NEAR];
    for i in 0..order.len() {
        let term = &terms[order[i]];
        let left = find_left_narrow_sum_read(&term.part);
        lines[i] = NarrowTap {
            line: borrow_narrow_sum_read_line(source, &left, points),
            factor: term.weight,
        };
    }
    lines
}

// Adds the terms of these numbers, which are differences from a center.
fn add_near_narrow_sum_terms<S: NarrowSource>(
    source: &S,
    terms: &[NarrowSumTerm],
    order: &[usize],
    center: NarrowCenter<'_>,
    points: &RowSpan,
    out: &mut [i16],
)
    requires fits { length out.old ≡ points.now.len }
    requires numbers { AreTermNumbers terms.now order.now }
    requires reads { TermsWithin (S.has source.now) terms.now points.now.row points.now.col
        points.now.len }
    requires center { IsCenter (length out.old) center }
    ensures { (own : ReadView) (bounds : BoundsView)
        → IsNearSum (S.samples source.now) points.now.row points.now.col points.now.len own bounds center.entry terms.now
        → EachPlace (length out.old) (λ k. (s : ℤ) → at out.old k ≡ int_wrap w16 s
        → at out.new k ≡ int_wrap w16 (s +ℤ ordered_value (S.samples source.now) terms.now order.now
        points.now.row (points.now.col +ℤ pos k))) }
{
    let mut start = 0;
    while start < order.len() {
        let end = start + (order.len() - start).min(NEAR);
        let chunk = &order[start..end];
        let lines = borrow_left_narrow_sum_term_lines(source, terms, chunk, points);
        add_centered_narrow_tap_sums(out, center, &lines[..chunk.len()]);
        start = end;
    }
}

// The number that a row adds: 0 if there is none.
#[inline]
fn find_number_of_narrow_sum_row(row: &NarrowSumRow) -> i16
    ensures { result ≡ number_of row.now.number }
{
    match row.number {
        Some(number) => number,
        None => 0,
    }
}

// The divisor of a row: 1 if there is no quotient.
#[inline]
fn find_divisor_of_narrow_sum_row(row: &NarrowSumRow) -> u32
    ensures value { result ≡ divisor_of row.now.quotient }
    ensures divisor { IsDivisor result }
{
    match row.quotient {
        Some(quotient) => quotient.divisor,
        None => 1,
    }
}

// Writes 0 at each place of a row that has not been written.
fn clear_unwritten_narrow_sum_row(is_written: bool, out: &mut [i16])
    ensures { EachPlace (length out.old) (λ k. (rest : ℤ) → IsRest is_written (at out.old k) rest
        → at out.new k ≡ int_wrap w16 rest) }
{
    if !is_written {
        fill_narrow_row(out, 0);
    }
}

// Adds terms that are differences from a center, and the number, to the rest of a sum, and divides it.
fn divide_near_narrow_sum_row<S: NarrowSource>(
    source: &S,
    row: &NarrowSumRow,
    own: &NarrowSumRead,
    bounds: NarrowSumBounds,
    points: &RowSpan,
    is_written: bool,
    out: &mut [i16],
)
    requires fits { length out.old ≡ points.now.len }
    requires own { ReadsWithin (S.has source.now) (read_formula own.now) points.now.row
        points.now.col points.now.len }
    requires reads { TermsWithin (S.has source.now) row.now.terms.items points.now.row
        points.now.col points.now.len }
    requires near { AreNear own.now bounds row.now.terms.items }
    ensures { (f : ℕ → ℤ) → AreGapsFitting (S.samples source.now) points.now.row points.now.col
        points.now.len row.now.terms.items
        → EachPlace (length out.old) (λ k. IsRest is_written (at out.old k) (f k))
        → EachPlace (length out.old) (λ k. at out.new k ≡ divided_value (S.samples source.now)
        row.now (f k) points.now.row (points.now.col +ℤ pos k)) }
{
    let center = NarrowCenter {
        line: borrow_narrow_sum_read_line(source, own, points),
        low: bounds.low,
        high: bounds.high,
    };
    clear_unwritten_narrow_sum_row(is_written, out);
    add_near_narrow_sum_terms(source, &row.terms, &row.order, center, points, out);
    let number = find_number_of_narrow_sum_row(row);
    let divisor = find_divisor_of_narrow_sum_row(row);
    add_and_divide_narrow_tap_sums(out, &[], number, divisor);
}

// Adds any terms, and the number, to the rest of a sum, and divides it.
fn divide_plain_narrow_sum_row<S: NarrowSource>(
    source: &S,
    row: &NarrowSumRow,
    points: &RowSpan,
    is_written: bool,
    out: &mut [i16],
)
    requires fits { length out.old ≡ points.now.len }
    requires reads { TermsWithin (S.has source.now) row.now.terms.items points.now.row
        points.now.col points.now.len }
    ensures { (f : ℕ → ℤ)
        → EachPlace (length out.old) (λ k. IsRest is_written (at out.old k) (f k))
        → EachPlace (length out.old) (λ k. at out.new k ≡ divided_value (S.samples source.now)
        row.now (f k) points.now.row (points.now.col +ℤ pos k)) }
{
    let mut sum = NarrowSum::from_narrow_row(is_written);
    push_narrow_sum_terms(source, &row.terms, &row.order, points, &mut sum, out);
    let number = find_number_of_narrow_sum_row(row);
    let divisor = find_divisor_of_narrow_sum_row(row);
    sum.divide_narrow_sum(number, divisor, out);
}

// Adds the terms and the number to the rest of a sum, and divides it.
fn divide_narrow_sum_row<S: NarrowSource>(
    source: &S,
    row: &NarrowSumRow,
    points: &RowSpan,
    is_written: bool,
    out: &mut [i16],
)
    requires fits { length out.old ≡ points.now.len }
    requires reads { RowReadsWithin (S.has source.now) row.now points.now.row points.now.col
        points.now.len }
    ensures { (f : ℕ → ℤ) → AreGapsFitting (S.samples source.now) points.now.row points.now.col
        points.now.len row.now.terms.items
        → EachPlace (length out.old) (λ k. IsRest is_written (at out.old k) (f k))
        → EachPlace (length out.old) (λ k. at out.new k ≡ divided_value (S.samples source.now)
        row.now (f k) points.now.row (points.now.col +ℤ pos k)) }
{
    match (&row.center, row.bounds) {
        (Some(center), Some(bounds)) => {
            divide_near_narrow_sum_row(source, row, center, bounds, points, is_written, out);
        }
        _ => divide_plain_narrow_sum_row(source, row, points, is_written, out),
    }
}

// Adds the numbers of a line to those of a row, wrapped at 16 bits.
fn add_line_of_narrow_sum_center(line: &[i16], out: &mut [i16])
    requires { length line.now ≡ length out.old }
    ensures { EachPlace (length out.old) (λ k. (s : ℤ) → at out.old k ≡ int_wrap w16 s
        → at out.new k ≡ int_wrap w16 (s +ℤ at line.now k)) }
{
    add_narrow_tap_sums(out, &[NarrowTap { line, factor: 1 }]);
}

// Writes what a row makes of the rest of a sum, wrapped at 16 bits.
fn complete_narrow_sum_row<S: NarrowSource>(
    source: &S,
    row: &NarrowSumRow,
    points: &RowSpan,
    is_written: bool,
    out: &mut [i16],
)
    requires fits { length out.old ≡ points.now.len }
    requires reads { RowReadsWithin (S.has source.now) row.now points.now.row points.now.col
        points.now.len }
    ensures { (f : ℕ → ℤ) → AreGapsFitting (S.samples source.now) points.now.row points.now.col
        points.now.len row.now.terms.items
        → EachPlace (length out.old) (λ k. IsRest is_written (at out.old k) (f k))
        → EachPlace (length out.old) (λ k. at out.new k ≡ row_value (S.samples source.now) row.now
        (f k) points.now.row (points.now.col +ℤ pos k)) }
{
    divide_narrow_sum_row(source, row, points, is_written, out);
    if let Some(center) = &row.center {
        let line = borrow_narrow_sum_read_line(source, center, points);
        add_line_of_narrow_sum_center(line, out);
    }
}

/// Writes the values of a sum at a row of points, where each number that is computed fits in 16 bits.
pub fn write_narrow_sum_row<S: NarrowSource>(
    source: &S,
    row: &NarrowSumRow,
    points: &RowSpan,
    out: &mut [i16],
)
    requires fits { length out.old ≡ points.now.len }
    requires reads { ReadsWithin (S.has source.now) (sum_row_formula row.now) points.now.row
        points.now.col points.now.len }
    requires narrow { NarrowWithin (S.samples source.now) (sum_row_formula row.now) points.now.row
        points.now.col points.now.len }
    ensures { EachPlace (length out.old) (λ k. at out.new k
        ≡ formula_value (S.samples source.now) (sum_row_formula row.now) points.now.row
        (points.now.col +ℤ pos k)) }
{
    complete_narrow_sum_row(source, row, points, false, out);
}

/// Joins the terms of a sum to the values of a formula, which the row has. Where each number that is computed fits in 16 bits, the row then
/// has the values of the sum that begins with the formula.
pub fn join_narrow_sum_row<S: NarrowSource>(
    source: &S,
    row: &NarrowSumRow,
    points: &RowSpan,
    out: &mut [i16],
)
    requires fits { length out.old ≡ points.now.len }
    requires reads { RowReadsWithin (S.has source.now) row.now points.now.row points.now.col
        points.now.len }
    ensures { (f : FormulaView) → NarrowWithin (S.samples source.now) (joined_sum_formula f row.now)
        points.now.row points.now.col points.now.len
        → EachPlace (length out.old) (λ k. at out.old k
        ≡ formula_value (S.samples source.now) f points.now.row (points.now.col +ℤ pos k))
        → EachPlace (length out.old) (λ k. at out.new k
        ≡ formula_value (S.samples source.now) (joined_sum_formula f row.now) points.now.row
        (points.now.col +ℤ pos k)) }
{
    complete_narrow_sum_row(source, row, points, true, out);
}
