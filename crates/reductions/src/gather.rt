#![tactic(auto)]
//! What an accumulator accumulates over an area, from any source of the samples that are read.

ghost use Rattle.std.specs.Prelude.{◌≡◌, ◌<◌, ◌≤◌, ◌+◌, ◌-◌, ◌+ℤ◌, ◌≤ℤ◌, ℤ, pos, length, replicate, IfOk};
ghost use Rattle.domains.specs.Area.{HoldsPoint, points_of};
ghost use Rattle.domains.specs.Span.{len_of, numbers_from};
ghost use Rattle.job.specs.Pipeline.{accumulator as accumulator_by};
ghost use Rattle.job.specs.Totals.{body_totals};
ghost use Rattle.job.specs.Views.{formula_view};
ghost use Rattle.job.specs.WellFormed.{InDomainRange, IsFormula};
ghost use Rattle.tile_eval.specs.Reading.{HasRoom, ReadsWithin};
ghost use Rattle.tile_eval.specs.Rows.{EachPlace, at};
ghost use Rattle.reductions.specs.Accumulating.{HasFormulas, ReadsAt, HasRoomAlong, TookPoints};
ghost use Rattle.operators.specs.declared.operator.ReductionOp.TheVariants.{Sum};
ghost use Rattle.reductions.specs.inside.Gathering.{after_values, points_along, points_from, values_along, values_of_bin};

use crate::bin_starts::create_start_bins;
use crate::bins::{accumulate_row_of_values_in_bins, add_number_to_bin_of_each_point};
use crate::byte_bins::{add_number_to_bin_of_each_byte, is_each_byte_place_of_its_bin};
use crate::row_bins::find_adjacent_bins_place;
use crate::row_buffers::AccumulatorBuffers;
use crate::side_by_side::{accumulate_values_in_adjacent_bins, accumulate_values_in_one_bin};
use domains::Area;
use job::{Accumulator, Formula};
use operators::ReductionOp;
use std::alloc::{AllocError, Global};
use tile_eval::{RowSource, RowSpan, SourceRow, borrow_or_evaluate_row, find_constant_along_row};

// Adds a number, which is the value of each point of a row, to the bin of each.
fn add_number_to_bin_of_each_point_of_row<S: RowSource>(
    row: &SourceRow<'_, S>,
    bin: &Formula,
    lo: i32,
    bins: &mut [i64],
    number: i32,
    bins_of: &mut [i32],
    temps: &mut [i32],
)
    requires fits { length bins_of.old ≡ row.now.points.len }
    requires formula { IsFormula (formula_view bin.now) }
    requires reads { ReadsWithin (S.has row.now.source.now) (formula_view bin.now)
        row.now.points.row row.now.points.col (length bins_of.old) }
    requires room { HasRoom (formula_view bin.now) (length bins_of.old) (length temps.old) }
    ensures { EachPlace (length bins.old) (λ j. at bins.new j
        ≡ after_values Sum (at bins.old j) (values_of_bin (replicate (length bins_of.old) number)
        (values_along (S.samples row.now.source.now) (formula_view bin.now) row.now.points.row
        row.now.points.col (length bins_of.old)) (lo +ℤ pos j))) }
{
    if is_each_byte_place_of_its_bin(lo, bins.len()) {
        if let Some(bytes) = row.borrow_bytes_of_read_along_row(bin) {
            return add_number_to_bin_of_each_byte(bins, number, bytes);
        }
    }
    let each = borrow_or_evaluate_row(row.source, &row.points, bin, bins_of, temps);
    add_number_to_bin_of_each_point(lo, bins, number, each);
}

// Accumulates the values of a row of points in the bins from a place on, each in the bin after that of the one before.
fn accumulate_point_row_in_adjacent_bins<S: RowSource>(
    row: &SourceRow<'_, S>,
    accumulator: &Accumulator,
    bins: &mut [i64],
    place: usize,
    values: &mut [i32],
    temps: &mut [i32],
)
    requires bins { place + length values.old ≤ length bins.old }
    requires fits { length values.old ≡ row.now.points.len }
    requires formula { IsFormula (formula_view accumulator.now.value) }
    requires reads { ReadsWithin (S.has row.now.source.now) (formula_view accumulator.now.value)
        row.now.points.row row.now.points.col (length values.old) }
    requires room { HasRoom (formula_view accumulator.now.value) (length values.old)
        (length temps.old) }
    ensures { (lo : ℤ) → EachPlace (length bins.old) (λ j. at bins.new j
        ≡ after_values accumulator.now.fold (at bins.old j) (values_of_bin
        (values_along (S.samples row.now.source.now) (formula_view accumulator.now.value)
        row.now.points.row row.now.points.col (length values.old))
        (numbers_from (lo +ℤ pos place) (length values.old)) (lo +ℤ pos j))) }
{
    let (op, value) = (accumulator.fold(), accumulator.value());
    match row.borrow_bytes_of_read_along_row(value) {
        Some(bytes) => accumulate_values_in_adjacent_bins(op, bins, place, bytes),
        None => {
            let line = borrow_or_evaluate_row(row.source, &row.points, value, values, temps);
            accumulate_values_in_adjacent_bins(op, bins, place, line);
        }
    }
}

// Accumulates the values of a row of points in one bin, if it is one of the bins.
fn accumulate_point_row_in_one_bin<S: RowSource>(
    row: &SourceRow<'_, S>,
    accumulator: &Accumulator,
    bins: &mut [i64],
    bin: i32,
    values: &mut [i32],
    temps: &mut [i32],
)
    requires fits { length values.old ≡ row.now.points.len }
    requires formula { IsFormula (formula_view accumulator.now.value) }
    requires reads { ReadsWithin (S.has row.now.source.now) (formula_view accumulator.now.value)
        row.now.points.row row.now.points.col (length values.old) }
    requires room { HasRoom (formula_view accumulator.now.value) (length values.old)
        (length temps.old) }
    ensures { EachPlace (length bins.old) (λ j. at bins.new j
        ≡ after_values accumulator.now.fold (at bins.old j) (values_of_bin
        (values_along (S.samples row.now.source.now) (formula_view accumulator.now.value)
        row.now.points.row row.now.points.col (length values.old))
        (replicate (length values.old) bin) (accumulator.now.bins.lo +ℤ pos j))) }
{
    let (op, value) = (accumulator.fold(), accumulator.value());
    let lo = accumulator.bins().lo();
    match row.borrow_bytes_of_read_along_row(value) {
        Some(bytes) => accumulate_values_in_one_bin(op, lo, bins, bytes, bin),
        None => {
            let line = borrow_or_evaluate_row(row.source, &row.points, value, values, temps);
            accumulate_values_in_one_bin(op, lo, bins, line, bin);
        }
    }
}

// Accumulates a row of points in the bins.
fn accumulate_point_row_in_bins<S: RowSource>(
    row: &SourceRow<'_, S>,
    accumulator: &Accumulator,
    bins: &mut [i64],
    values: &mut [i32],
    bins_of: &mut [i32],
    temps: &mut [i32],
)
    requires some { 0 < length values.old }
    requires one_length { length bins_of.old ≡ length values.old }
    requires bins { length bins.old ≡ len_of accumulator.now.bins }
    requires fits { length values.old ≡ row.now.points.len }
    requires formulas { HasFormulas accumulator.now }
    requires reads { EachPlace (length values.old) (λ k. ReadsAt (S.has row.now.source.now)
        accumulator.now row.now.points.row (row.now.points.col +ℤ pos k)) }
    requires room { HasRoomAlong accumulator.now (length values.old) (length temps.old) }
    ensures { TookPoints (S.samples row.now.source.now) accumulator.now
        (points_along row.now.points.row row.now.points.col (length values.old)) bins.old bins.new }
{
    let (source, points) = (row.source, &row.points);
    let (value, bin) = (accumulator.value(), accumulator.bin());
    let (op, lo) = (accumulator.fold(), accumulator.bins().lo());
    if let Some(place) = find_adjacent_bins_place(bin, points, accumulator.bins()) {
        return accumulate_point_row_in_adjacent_bins(row, accumulator, bins, place, values, temps);
    }
    if let Some(one) = find_constant_along_row(bin, points) {
        return accumulate_point_row_in_one_bin(row, accumulator, bins, one, values, temps);
    }
    if let (ReductionOp::Sum, Some(number)) = (op, find_constant_along_row(value, points)) {
        return add_number_to_bin_of_each_point_of_row(row, bin, lo, bins, number, bins_of, temps);
    }
    let each = borrow_or_evaluate_row(source, points, bin, bins_of, temps);
    let line = borrow_or_evaluate_row(source, points, value, values, temps);
    accumulate_row_of_values_in_bins(op, lo, bins, line, each);
}

/// Accumulates the rows of an area in the bins, from number `first` on, row by row.
pub(crate) fn accumulate_area_rows_in_bins<S: RowSource>(
    source: &S,
    accumulator: &Accumulator,
    area: &Area,
    first: usize,
    bins: &mut [i64],
    values: &mut [i32],
    bins_of: &mut [i32],
    temps: &mut [i32],
)
    requires rows { InDomainRange area.now.rows }
    requires cols { InDomainRange area.now.cols }
    requires first { first ≤ len_of area.now.rows }
    requires width { length values.old ≡ len_of area.now.cols }
    requires one_length { length bins_of.old ≡ length values.old }
    requires bins { length bins.old ≡ len_of accumulator.now.bins }
    requires formulas { HasFormulas accumulator.now }
    requires reads { (r c : ℤ) → HoldsPoint area.now r c
        → ReadsAt (S.has source.now) accumulator.now r c }
    requires room { HasRoomAlong accumulator.now (length values.old) (length temps.old) }
    ensures { TookPoints (S.samples source.now) accumulator.now
        (points_from (area.now.rows.lo +ℤ pos first) (len_of area.now.rows - first) area.now.cols.lo
        (len_of area.now.cols)) bins.old bins.new }
{
    for i in first..area.rows.len() as usize {
        let points = RowSpan::from_area_row(area, i);
        let row = SourceRow { source, points };
        accumulate_point_row_in_bins(&row, accumulator, bins, values, bins_of, temps);
    }
}

/// What an accumulator accumulates in its bins, rising, over an area where all its reads are available.
///
/// # Errors
///
/// Fails only where memory is refused.
pub(crate) fn compute_area_totals<S: RowSource>(
    alloc: Global,
    source: &S,
    accumulator: &Accumulator,
    area: &Area,
) -> Result<Vec<i64>, AllocError>
    requires rows { InDomainRange area.now.rows }
    requires cols { InDomainRange area.now.cols }
    requires formulas { HasFormulas accumulator.now }
    requires reads { (r c : ℤ) → HoldsPoint area.now r c
        → ReadsAt (S.has source.now) accumulator.now r c }
    ensures { IfOk result (λ bins. bins.items
        ≡ body_totals (S.samples source.now) area.now (accumulator_by accumulator.now.fold
        accumulator.now.bins (formula_view accumulator.now.value)
        (formula_view accumulator.now.bin))) }
{
    let mut bins = create_start_bins(alloc, accumulator.fold(), accumulator.bins())?;
    let mut rows = AccumulatorBuffers::new(alloc);
    rows.grow_for_area(accumulator, area)?;
    rows.accumulate_area_into_bins(source, accumulator, area, &mut bins);
    Ok(bins)
}
