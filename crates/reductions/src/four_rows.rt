#![tactic(auto)]
//! Eight rows of an area that are accumulated at once, so that a bin is read and written once for the eight bytes of its column.

ghost use Rattle.std.specs.Prelude.{◌≡◌, ◌<◌, ◌≤◌, ◌+◌, ◌+ℤ◌, ℕ, ℤ, pos, true, false, length, map, slice_index, IfSome};
ghost use Rattle.domains.specs.Area.{HoldsPoint};
ghost use Rattle.domains.specs.Span.{len_of};
ghost use Rattle.job.specs.Reads.{EachRead};
ghost use Rattle.job.specs.Totals.{joined as joined_of};
ghost use Rattle.job.specs.Values.{Valuation, formula_value};
ghost use Rattle.job.specs.Views.{formula_view};
ghost use Rattle.job.specs.WellFormed.{InDomainRange, IsFormula};
ghost use Rattle.tile_eval.specs.Rows.{EachPlace};
ghost use Rattle.reductions.specs.Accumulating.{HasFormulas, ReadsAt, TookPoints};
ghost use Rattle.reductions.specs.inside.FourRows.{column_joined, four_joined, values_of_row, HasBytesOfRows};
ghost use Rattle.reductions.specs.inside.Gathering.{points_from};

use crate::row_bins::find_adjacent_bins_place;
use crate::side_by_side::accumulate_values_in_adjacent_bins;
use domains::{Area, Span};
use job::{Accumulator, Formula};
use operators::ReductionOp;
use tile_eval::{RowSource, RowSpan, SourceRow};

// How many rows are accumulated at once.
const ROWS_AT_ONCE: usize = 8;

// Four rows of bytes, of which each column has one bin.
#[derive(Clone, Copy)]
struct FourByteRows<'a> {
    first: &'a [u8],
    second: &'a [u8],
    third: &'a [u8],
    fourth: &'a [u8],
    ghost second_long: { length second.now ≡ length first.now },
    ghost third_long: { length third.now ≡ length first.now },
    ghost fourth_long: { length fourth.now ≡ length first.now },
}

// Four rows of bytes, and four more.
#[derive(Clone, Copy)]
struct EightByteRows<'a> {
    upper: FourByteRows<'a>,
    lower: FourByteRows<'a>,
    ghost long: { length lower.first.now ≡ length upper.first.now },
}

// What four bytes of a bin join to.
#[inline]
fn join_four_bytes_of_bin(op: ReductionOp, a: u8, b: u8, c: u8, d: u8) -> u16
    ensures joined { pos result ≡ four_joined op (pos a) (pos b) (pos c) (pos d) }
    ensures most { result ≤ 1020 }
{
    match op {
        ReductionOp::Sum => u16::from(a) + u16::from(b) + u16::from(c) + u16::from(d),
        ReductionOp::Min => u16::from(a.min(b).min(c).min(d)),
        ReductionOp::Max => u16::from(a.max(b).max(c).max(d)),
    }
}

// What two values of a bin join to, each of four bytes.
#[inline]
fn join_two_values_of_bin(op: ReductionOp, first: u16, second: u16) -> u16
    requires first { first ≤ 1020 }
    requires second { second ≤ 1020 }
    ensures { pos result ≡ joined_of op (pos first) (pos second) }
{
    match op {
        ReductionOp::Sum => first + second,
        ReductionOp::Min => first.min(second),
        ReductionOp::Max => first.max(second),
    }
}

impl<'a> FourByteRows<'a> {
    // What the bytes of a column join to.
    #[inline]
    fn join_column_of_bin(&self, op: ReductionOp, k: usize) -> u16
        requires { k < length self.now.first.now }
        ensures joined { pos result ≡ column_joined op self.now.first.now self.now.second.now
            self.now.third.now self.now.fourth.now k }
        ensures most { result ≤ 1020 }
    {
        let (a, b) = (self.first[k], self.second[k]);
        join_four_bytes_of_bin(op, a, b, self.third[k], self.fourth[k])
    }
}

// Writes what the bytes of each column join to by an operation.
#[inline]
fn join_each_column_into_bin_values(op: ReductionOp, rows: &EightByteRows<'_>, joined: &mut [u16])
    requires { length joined.old ≡ length rows.now.upper.first.now }
    ensures { EachPlace (length joined.old) (λ k. pos (slice_index joined.new k) ≡ joined_of op
        (column_joined op rows.now.upper.first.now rows.now.upper.second.now rows.now.upper.third.now
        rows.now.upper.fourth.now k)
        (column_joined op rows.now.lower.first.now rows.now.lower.second.now rows.now.lower.third.now
        rows.now.lower.fourth.now k)) }
{
    // where the rows lie is read before the loop, as it might be written with the values otherwise
    let (upper, lower) = (rows.upper, rows.lower);
    for k in 0..joined.len() {
        let first = upper.join_column_of_bin(op, k);
        let second = lower.join_column_of_bin(op, k);
        joined[k] = join_two_values_of_bin(op, first, second);
    }
}

// Writes what the bytes of each column join to.
fn join_columns_into_bin_values(op: ReductionOp, rows: &EightByteRows<'_>, joined: &mut [u16])
    requires { length joined.old ≡ length rows.now.upper.first.now }
    ensures { EachPlace (length joined.old) (λ k. pos (slice_index joined.new k) ≡ joined_of op
        (column_joined op rows.now.upper.first.now rows.now.upper.second.now rows.now.upper.third.now
        rows.now.upper.fourth.now k)
        (column_joined op rows.now.lower.first.now rows.now.lower.second.now rows.now.lower.third.now
        rows.now.lower.fourth.now k)) }
{
    // each operation has a loop of its own, over bytes that lie side by side
    match op {
        ReductionOp::Sum => join_each_column_into_bin_values(ReductionOp::Sum, rows, joined),
        ReductionOp::Min => join_each_column_into_bin_values(ReductionOp::Min, rows, joined),
        ReductionOp::Max => join_each_column_into_bin_values(ReductionOp::Max, rows, joined),
    }
}

// The place of the first of the bins of each of eight rows of an area, from number `row` on, if it is the same for all of them.
fn find_adjacent_bins_place_of_eight_rows(
    bin: &Formula,
    area: &Area,
    row: usize,
    bins: &Span,
) -> Option<usize>
    requires rows { InDomainRange area.now.rows }
    requires cols { InDomainRange area.now.cols }
    requires eight { row + 8 ≤ len_of area.now.rows }
    ensures within { IfSome result (λ place. place + len_of area.now.cols ≤ len_of bins.now) }
    ensures values { IfSome result (λ place. (env : Valuation) (m k : ℕ) → m < 8
        → k < len_of area.now.cols → formula_value env (formula_view bin.now)
        (area.now.rows.lo +ℤ pos (row + m)) (area.now.cols.lo +ℤ pos k)
        ≡ bins.now.lo +ℤ pos place +ℤ pos k) }
{
    let place = find_adjacent_bins_place(bin, &RowSpan::from_area_row(area, row), bins)?;
    for m in 1..ROWS_AT_ONCE {
        let points = RowSpan::from_area_row(area, row + m);
        if find_adjacent_bins_place(bin, &points, bins)? != place {
            return None;
        }
    }
    Some(place)
}

// The values of a row of an area, if they are bytes of the source.
fn borrow_bytes_of_bin_values_in_area_row<'s, S: RowSource>(
    source: &'s S,
    value: &Formula,
    area: &Area,
    row: usize,
) -> Option<&'s [u8]>
    requires rows { InDomainRange area.now.rows }
    requires cols { InDomainRange area.now.cols }
    requires row { row < len_of area.now.rows }
    requires formula { IsFormula (formula_view value.now) }
    requires reads { (r c : ℤ) → HoldsPoint area.now r c
        → EachRead (S.has source.now) (formula_view value.now) r c }
    ensures { IfSome result (λ bytes. map pos bytes.now
        ≡ values_of_row (S.samples source.now) (formula_view value.now) area.now row) }
{
    let points = RowSpan::from_area_row(area, row);
    SourceRow { source, points }.borrow_bytes_of_read_along_row(value)
}

// The values of four rows of an area, from number `row` on, if they are bytes of the source.
fn borrow_four_byte_rows_of_bin_values<'s, S: RowSource>(
    source: &'s S,
    value: &Formula,
    area: &Area,
    row: usize,
) -> Option<FourByteRows<'s>>
    requires rows { InDomainRange area.now.rows }
    requires cols { InDomainRange area.now.cols }
    requires four { row + 4 ≤ len_of area.now.rows }
    requires formula { IsFormula (formula_view value.now) }
    requires reads { (r c : ℤ) → HoldsPoint area.now r c
        → EachRead (S.has source.now) (formula_view value.now) r c }
    ensures { IfSome result (λ rows. HasBytesOfRows (S.samples source.now) (formula_view value.now)
        area.now row rows.first.now rows.second.now rows.third.now rows.fourth.now) }
{
    Some(FourByteRows {
        first: borrow_bytes_of_bin_values_in_area_row(source, value, area, row)?,
        second: borrow_bytes_of_bin_values_in_area_row(source, value, area, row + 1)?,
        third: borrow_bytes_of_bin_values_in_area_row(source, value, area, row + 2)?,
        fourth: borrow_bytes_of_bin_values_in_area_row(source, value, area, row + 3)?,
    })
}

// The values of eight rows of an area, from number `row` on, if they are bytes of the source.
fn borrow_eight_byte_rows_of_bin_values<'s, S: RowSource>(
    source: &'s S,
    value: &Formula,
    area: &Area,
    row: usize,
) -> Option<EightByteRows<'s>>
    requires rows { InDomainRange area.now.rows }
    requires cols { InDomainRange area.now.cols }
    requires eight { row + 8 ≤ len_of area.now.rows }
    requires formula { IsFormula (formula_view value.now) }
    requires reads { (r c : ℤ) → HoldsPoint area.now r c
        → EachRead (S.has source.now) (formula_view value.now) r c }
    ensures upper { IfSome result (λ rows. HasBytesOfRows (S.samples source.now)
        (formula_view value.now) area.now row rows.upper.first.now rows.upper.second.now
        rows.upper.third.now rows.upper.fourth.now) }
    ensures lower { IfSome result (λ rows. HasBytesOfRows (S.samples source.now)
        (formula_view value.now) area.now (row + 4) rows.lower.first.now rows.lower.second.now
        rows.lower.third.now rows.lower.fourth.now) }
{
    Some(EightByteRows {
        upper: borrow_four_byte_rows_of_bin_values(source, value, area, row)?,
        lower: borrow_four_byte_rows_of_bin_values(source, value, area, row + 4)?,
    })
}

// Accumulates eight rows of an area, from number `row` on, if their bins are adjacent and the same in each row, and their values
// are bytes of the source. False if it is otherwise, or fewer rows are left: then no row is accumulated.
fn accumulate_eight_rows_in_adjacent_bins<S: RowSource>(
    source: &S,
    accumulator: &Accumulator,
    area: &Area,
    row: usize,
    bins: &mut [i64],
    joined: &mut [u16],
) -> bool
    requires rows { InDomainRange area.now.rows }
    requires cols { InDomainRange area.now.cols }
    requires row { row ≤ len_of area.now.rows }
    requires width { length joined.old ≡ len_of area.now.cols }
    requires bins { length bins.old ≡ len_of accumulator.now.bins }
    requires formulas { HasFormulas accumulator.now }
    requires reads { (r c : ℤ) → HoldsPoint area.now r c
        → ReadsAt (S.has source.now) accumulator.now r c }
    ensures within { result ≡ true → row + 8 ≤ len_of area.now.rows }
    ensures took { result ≡ true → TookPoints (S.samples source.now) accumulator.now
        (points_from (area.now.rows.lo +ℤ pos row) 8 area.now.cols.lo (len_of area.now.cols))
        bins.old bins.new }
    ensures same { result ≡ false → bins.new ≡ bins.old }
{
    if area.rows.len() as usize - row < ROWS_AT_ONCE {
        return false;
    }
    let (value, bin) = (accumulator.value(), accumulator.bin());
    let found = find_adjacent_bins_place_of_eight_rows(bin, area, row, accumulator.bins());
    let Some(place) = found else {
        return false;
    };
    let Some(rows) = borrow_eight_byte_rows_of_bin_values(source, value, area, row) else {
        return false;
    };
    join_columns_into_bin_values(accumulator.fold(), &rows, joined);
    accumulate_values_in_adjacent_bins(accumulator.fold(), bins, place, &*joined);
    true
}

/// Accumulates the first rows of an area, eight at once, as long as their bins are adjacent and their values bytes of the source. How
/// many rows it are. `joined` is a row of buffers.
pub(crate) fn accumulate_first_rows_in_adjacent_bins<S: RowSource>(
    source: &S,
    accumulator: &Accumulator,
    area: &Area,
    bins: &mut [i64],
    joined: &mut [u16],
) -> usize
    requires rows { InDomainRange area.now.rows }
    requires cols { InDomainRange area.now.cols }
    requires width { length joined.old ≡ len_of area.now.cols }
    requires bins { length bins.old ≡ len_of accumulator.now.bins }
    requires formulas { HasFormulas accumulator.now }
    requires reads { (r c : ℤ) → HoldsPoint area.now r c
        → ReadsAt (S.has source.now) accumulator.now r c }
    ensures within { result ≤ len_of area.now.rows }
    ensures took { TookPoints (S.samples source.now) accumulator.now
        (points_from area.now.rows.lo result area.now.cols.lo (len_of area.now.cols))
        bins.old bins.new }
{
    let mut row = 0;
    while accumulate_eight_rows_in_adjacent_bins(source, accumulator, area, row, bins, joined) {
        row += ROWS_AT_ONCE;
    }
    row
}
