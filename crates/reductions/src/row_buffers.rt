#![tactic(auto)]
//! Row buffers for accumulators, kept from one area to the next.

ghost use Rattle.std.specs.Prelude.{◌≡◌, ◌≤◌, ℤ, vec_len, OnOk};
ghost use Rattle.domains.specs.Area.{HoldsPoint};
ghost use Rattle.domains.specs.Span.{len_of};
ghost use Rattle.job.specs.Pipeline.{accumulator as accumulator_by};
ghost use Rattle.job.specs.Totals.{body_totals};
ghost use Rattle.job.specs.Views.{formula_view};
ghost use Rattle.job.specs.WellFormed.{InDomainRange};
ghost use Rattle.tile_eval.specs.Counted.{IsLeast};
ghost use Rattle.reductions.specs.Bins.{joined_bins};
ghost use Rattle.reductions.specs.Accumulating.{AreBins, HasFormulas, HasRoomAlong, ReadsAt};

use crate::four_rows::accumulate_first_rows_in_adjacent_bins;
use crate::gather::accumulate_area_rows_in_bins;
use domains::Area;
use job::Accumulator;
use std::alloc::{AllocError, Global};
use tile_eval::{RowSource, compute_operand_capacity_of_formula};

// The least capacity for the operands of both formulas at `n` points, if that many numbers can be counted.
fn compute_accumulator_buffer_capacity(accumulator: &Accumulator, n: usize) -> Option<usize>
    ensures { IsLeast (HasRoomAlong accumulator.now n) result }
{
    let value = compute_operand_capacity_of_formula(accumulator.value(), n)?;
    let bin = compute_operand_capacity_of_formula(accumulator.bin(), n)?;
    Some(value.max(bin))
}

// Grows a row to at least `size` numbers. New ones are `filler`.
fn grow_accumulator_buffer<T: Copy>(
    row: &mut Vec<T>,
    size: usize,
    filler: T,
) -> Result<(), AllocError>
    ensures { OnOk result (size ≤ vec_len row.new) }
{
    if row.len() < size {
        row.resize(size, filler)?;
    }
    Ok(())
}

/// Row buffers for accumulators: what bytes of several rows join to, values, the bins of these, and operands. Their content is
/// unspecified between calls.
#[derive(Drop)]
pub struct AccumulatorBuffers {
    pub(crate) joined: Vec<u16>,
    pub(crate) values: Vec<i32>,
    pub(crate) bins_of: Vec<i32>,
    pub(crate) temps: Vec<i32>,
}

impl AccumulatorBuffers {
    ghost use Rattle.reductions.specs.GatherRooms.{HasRowsOver};

    /// No rows yet.
    pub fn new(alloc: Global) -> AccumulatorBuffers {
        AccumulatorBuffers {
            joined: Vec::new(alloc),
            values: Vec::new(alloc),
            bins_of: Vec::new(alloc),
            temps: Vec::new(alloc),
        }
    }

    /// Grows the buffers to what an accumulator needs for the rows of an area, where they are smaller.
    ///
    /// # Errors
    ///
    /// Fails only where memory is refused.
    pub fn grow_for_area(
        &mut self,
        accumulator: &Accumulator,
        area: &Area,
    ) -> Result<(), AllocError>
        ensures { OnOk result (HasRowsOver accumulator.now area.now self.new) }
    {
        let n = area.cols.len() as usize;
        let room = compute_accumulator_buffer_capacity(accumulator, n).ok_or(AllocError)?;
        grow_accumulator_buffer(&mut self.joined, n, 0)?;
        grow_accumulator_buffer(&mut self.values, n, 0)?;
        grow_accumulator_buffer(&mut self.bins_of, n, 0)?;
        grow_accumulator_buffer(&mut self.temps, room, 0)?;
        Ok(())
    }

    /// Joins to each bin what the accumulator accumulates in it over the area, where all its reads are available. No memory is
    /// allocated.
    pub fn accumulate_area_into_bins<S: RowSource>(
        &mut self,
        source: &S,
        accumulator: &Accumulator,
        area: &Area,
        bins: &mut [i64],
    )
        requires rows { InDomainRange area.now.rows }
        requires cols { InDomainRange area.now.cols }
        requires formulas { HasFormulas accumulator.now }
        requires reads { (r c : ℤ) → HoldsPoint area.now r c
            → ReadsAt (S.has source.now) accumulator.now r c }
        requires room { HasRowsOver accumulator.now area.now self.old }
        requires bins { AreBins accumulator.now bins.old }
        ensures { bins.new
            ≡ joined_bins accumulator.now.fold bins.old (body_totals (S.samples source.now) area.now
            (accumulator_by accumulator.now.fold accumulator.now.bins
            (formula_view accumulator.now.value) (formula_view accumulator.now.bin))) }
    {
        // rows that were grown for wider areas are longer than those of this one
        let n = area.cols.len() as usize;
        let joined = &mut self.joined[..n];
        let first = accumulate_first_rows_in_adjacent_bins(source, accumulator, area, bins, joined);
        let values = &mut self.values[..n];
        let bins_of = &mut self.bins_of[..n];
        accumulate_area_rows_in_bins(
            source,
            accumulator,
            area,
            first,
            bins,
            values,
            bins_of,
            &mut self.temps,
        );
    }
}
