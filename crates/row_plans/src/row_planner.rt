#![tactic(auto)]
//! Plans of rows by demand. No clause specifies them: each plan is checked before it is returned.
//!
//! Far from borders the steps of some rows of the picture, a period, are those of the next ones also. Then they are copied. What is
//! planned so is what demand would plan: each row that is compared with another has moved as far as that one.

use crate::plan::{PlanStep, RowPlan};
use crate::repeated_plan_steps::RepeatedPlanSteps;
use crate::row_state::RowState;
use crate::stage_rows_read::StageRowsRead;
use domains::Area;
use std::alloc::{AllocError, Global};

// The most rows of the picture of a period. With each level of a pyramid they double.
const MOST_PERIOD: usize = 16;

/// Which rows of a stage are planned, by their numbers.
#[derive(Clone, Copy)]
struct PlannedRows {
    // The first row that is made.
    first: i32,
    // The row that is made next.
    next: i32,
    // The row behind the last one that is wanted.
    wanted: i32,
    // How many rows are kept.
    kept: i32,
    // The row that was made next when the period began.
    begun: i32,
}

impl PlannedRows {
    // No row is wanted.
    fn new() -> PlannedRows {
        PlannedRows {
            first: i32::MAX,
            next: i32::MAX,
            wanted: i32::MIN,
            kept: 0,
            begun: i32::MAX,
        }
    }

    // Begins a period.
    fn begin_period(&mut self) {
        self.begun = self.next;
    }

    // How many rows are made in the period.
    fn count_rows_of_period(&self) -> i32 {
        self.next.saturating_sub(self.begun)
    }

    // Makes as many rows again as in the period, so many times.
    fn repeat_period(&mut self, times: i32) {
        let rows = self.count_rows_of_period().saturating_mul(times);
        self.next = self.next.saturating_add(rows);
    }

    // Wants rows, from the first up to the last. The first one of all is made first.
    fn request_rows(&mut self, first: i32, last: i32) {
        self.first = self.first.min(first);
        self.next = self.first;
        self.wanted = self.wanted.max(last.saturating_add(1));
    }

    // Makes the next row.
    fn make_row(&mut self) {
        self.next = self.next.saturating_add(1);
        self.kept = self.kept.max(1);
    }

    // Reads the next row of an accumulator, of which none is made.
    fn read_row(&mut self) {
        self.next = self.next.saturating_add(1);
    }

    // Keeps the rows that are made, from this row on.
    fn keep_rows_from(&mut self, row: i32) {
        self.kept = self.kept.max(self.next.saturating_sub(row));
    }

    // The state at the start of a stage with this domain.
    fn build_row_state(&self, area: Area) -> RowState {
        let lo = area.rows.lo();
        let first = if self.kept > 0 {
            usize::try_from(self.first.saturating_sub(lo)).unwrap_or(0)
        } else {
            0
        };
        RowState {
            area,
            kept: usize::try_from(self.kept).unwrap_or(0),
            first,
            next: first,
        }
    }
}

// How many steps a search for all rows of stages takes at most: one to make a row, and two to demand it and each of the rows that it
// reads.
fn count_steps_of_planned_rows(rows: &[StageRowsRead]) -> u64 {
    let mut steps = 0u64;
    for read in rows {
        let each = (read.reads().len() as u64)
            .saturating_mul(2)
            .saturating_add(3);
        let made = u64::from(read.area().rows.len());
        steps = steps.saturating_add(made.saturating_mul(each));
    }
    steps
}

/// A plan that grows, row by row of the picture.
#[derive(Drop)]
pub(crate) struct RowPlanner<'a> {
    rows: &'a [StageRowsRead<'a>],
    outputs: &'a [usize],
    // The accumulators that read the rows of the same places.
    summed: &'a [usize],
    // The stages in dependence order, each with its rank.
    order: Vec<(usize, usize)>,
    planned: Vec<PlannedRows>,
    // The rows to be made before which others wait: of a stage all rows before a row.
    demands: Vec<(usize, i32)>,
    // How many steps the search for rows that are demanded may still take.
    left: u64,
    steps: Vec<PlanStep>,
    // The period whose copies have the most steps, and how many these are.
    repeated: RepeatedPlanSteps,
    copied: usize,
}

impl<'a> RowPlanner<'a> {
    /// Nothing is planned.
    ///
    /// # Errors
    ///
    /// Fails only where memory is refused.
    pub(crate) fn new(
        alloc: Global,
        rows: &'a [StageRowsRead<'a>],
        outputs: &'a [usize],
        summed: &'a [usize],
    ) -> Result<RowPlanner<'a>, AllocError> {
        let mut order = Vec::with_capacity(alloc, rows.len())?;
        let mut planned = Vec::with_capacity(alloc, rows.len())?;
        for (stage, read) in rows.iter().enumerate() {
            order.push((read.rank(), stage))?;
            planned.push(PlannedRows::new())?;
        }
        order.sort()?;
        Ok(RowPlanner {
            rows,
            outputs,
            summed,
            order,
            planned,
            demands: Vec::new(alloc),
            left: count_steps_of_planned_rows(rows),
            steps: Vec::new(alloc),
            repeated: RepeatedPlanSteps {
                before: 0,
                count: 0,
            },
            copied: 0,
        })
    }

    /// The plan that outputs the rows of the picture from row `first` up to before row `end`, and its period whose
    /// copies have the most steps.
    ///
    /// # Errors
    ///
    /// Fails only where memory is refused.
    pub(crate) fn plan_rows(
        mut self,
        alloc: Global,
        first: usize,
        end: usize,
    ) -> Result<(RowPlan, RepeatedPlanSteps), AllocError> {
        let (outputs, summed) = (self.outputs, self.summed);
        self.request_planned_rows_of_stages(outputs, first, end.saturating_sub(1));
        self.request_planned_rows_of_stages(summed, first, end.saturating_sub(1));
        self.request_rows_read_by_all_stages();
        let mut row = first;
        let mut height = 1;
        for _ in first..end {
            if row >= end {
                break;
            }
            row = self.plan_periods(alloc, row, end, height)?;
            height = if height < MOST_PERIOD { height * 2 } else { 1 };
        }
        self.into_row_plan(alloc)
    }

    // Plans so many rows of the picture from this row on, and all that repeat them. Returns the row of the picture after them.
    fn plan_periods(
        &mut self,
        alloc: Global,
        row: usize,
        end: usize,
        height: usize,
    ) -> Result<usize, AllocError> {
        let from = self.steps.len();
        for planned in &mut self.planned {
            planned.begin_period();
        }
        let after = row.saturating_add(height).min(end);
        for each in row..after {
            self.plan_output_row(each)?;
        }
        let rows = i32::try_from(after.saturating_sub(row)).unwrap_or(0);
        let left = i32::try_from(end.saturating_sub(after)).unwrap_or(0);
        let times = self.count_repeats_of_period(rows, left);
        self.repeat_period(alloc, from, times)?;
        Ok(after.saturating_add(usize::try_from(times.saturating_mul(rows)).unwrap_or(0)))
    }

    // How often the steps of the period, of so many rows of the picture, can be copied while so many rows are left.
    fn count_repeats_of_period(&self, rows: i32, left: i32) -> i32 {
        let mut times = left.checked_div(rows).unwrap_or(0);
        for output in self.outputs {
            if self.find_planned_rows(*output).count_rows_of_period() != rows {
                times = 0;
            }
        }
        for (read, planned) in self.rows.iter().zip(&self.planned) {
            times = times.min(self.count_repeats_of_stage(read, planned));
        }
        times
    }

    // How often the rows of a stage can be made again, so that what they read has moved as far as they have.
    fn count_repeats_of_stage(&self, read: &StageRowsRead, planned: &PlannedRows) -> i32 {
        let mut times = i32::MAX;
        for rows in read.reads() {
            let moved = self.find_planned_rows(rows.stage()).count_rows_of_period();
            times = times.min(rows.count_repeats(planned.begun, planned.next, moved));
        }
        times
    }

    // Makes the rows of the period again, so many times, whose steps begin at this one.
    fn repeat_period(&mut self, alloc: Global, from: usize, times: i32) -> Result<(), AllocError> {
        let count = self.steps.len().saturating_sub(from);
        let copied = count.saturating_mul(usize::try_from(times).unwrap_or(0));
        self.copy_steps(alloc, from, copied)?;
        if copied > self.copied {
            self.repeated = RepeatedPlanSteps {
                before: from,
                count,
            };
            self.copied = copied;
        }
        for planned in &mut self.planned {
            planned.repeat_period(times);
        }
        Ok(())
    }

    // Adds so many steps, which repeat those from this one on. Each copy doubles what is copied next.
    fn copy_steps(&mut self, alloc: Global, from: usize, count: usize) -> Result<(), AllocError> {
        self.steps.reserve(count)?;
        let mut left = count;
        for _ in 0..usize::BITS {
            let end = self.steps.len().min(from.saturating_add(left));
            let Some(copied) = self.steps.as_slice().get(from..end) else {
                return Ok(());
            };
            if copied.is_empty() {
                return Ok(());
            }
            let copied = copied.to_vec(alloc)?;
            self.steps.extend_from_slice(&copied)?;
            left = left.saturating_sub(copied.len());
        }
        Ok(())
    }

    // Wants what the rows read that are wanted, of each stage before those that it reads.
    fn request_rows_read_by_all_stages(&mut self) {
        for behind in 0..self.order.len() {
            let place = self.order.len().saturating_sub(1).saturating_sub(behind);
            self.request_rows_read_by_stage(self.find_planned_stage(place));
        }
    }

    // The stage at this place of the dependence order.
    fn find_planned_stage(&self, place: usize) -> usize {
        match self.order.get(place) {
            Some((_, stage)) => *stage,
            None => 0,
        }
    }

    // Wants what the rows of a stage read that are wanted.
    fn request_rows_read_by_stage(&mut self, stage: usize) {
        let rows = self.rows;
        let Some(found) = rows.get(stage) else {
            return;
        };
        let PlannedRows { first, wanted, .. } = self.find_planned_rows(stage);
        for read in found.reads() {
            if let (Some((top, bottom)), Some(planned)) = (
                read.find_first_and_last_row_read_in_range(first, wanted),
                self.planned.get_mut(read.stage()),
            ) {
                planned.request_rows(top, bottom);
            }
        }
    }

    // Wants the rows of some stages at these places.
    fn request_planned_rows_of_stages(&mut self, stages: &[usize], first: usize, last: usize) {
        for stage in stages {
            if let (Some(read), Some(planned)) = (
                self.rows.get(*stage),
                self.planned.get_mut(*stage),
            ) {
                planned.request_rows(read.find_row_at_place(first), read.find_row_at_place(last));
            }
        }
    }

    // Which rows of a stage are planned.
    fn find_planned_rows(&self, stage: usize) -> PlannedRows {
        match self.planned.get(stage) {
            Some(planned) => *planned,
            None => PlannedRows::new(),
        }
    }

    // Makes what a row of the picture needs and what accumulators read in the row at its place, and outputs it.
    fn plan_output_row(&mut self, row: usize) -> Result<(), AllocError> {
        for output in self.outputs {
            if let Some(read) = self.rows.get(*output) {
                let end = read.find_row_at_place(row).saturating_add(1);
                self.demands.push((*output, end))?;
                self.make_demanded_planned_rows()?;
            }
        }
        for stage in self.summed {
            self.make_planned_rows_of_accumulator(*stage, row)?;
        }
        self.keep_output_rows(row);
        for stage in self.summed {
            self.keep_planned_rows_of_accumulator(*stage, row);
        }
        self.steps.push(PlanStep::Output)?;
        Ok(())
    }

    // Makes what an accumulator reads in the row at this place.
    fn make_planned_rows_of_accumulator(
        &mut self,
        stage: usize,
        row: usize,
    ) -> Result<(), AllocError> {
        let rows = self.rows;
        let Some(found) = rows.get(stage) else {
            return Ok(());
        };
        for read in found.reads() {
            if let Some((_, bottom)) = read.find_rows_read_at(found.find_row_at_place(row)) {
                self.demands.push((read.stage(), bottom.saturating_add(1)))?;
                self.make_demanded_planned_rows()?;
            }
        }
        Ok(())
    }

    // Keeps what an accumulator reads in the row at this place.
    fn keep_planned_rows_of_accumulator(&mut self, stage: usize, row: usize) {
        let rows = self.rows;
        let Some(found) = rows.get(stage) else {
            return;
        };
        let read = found.find_row_at_place(row);
        self.keep_planned_rows_read(found, read);
        if let Some(planned) = self.planned.get_mut(stage) {
            planned.read_row();
        }
    }

    // Keeps what this row of a stage reads.
    fn keep_planned_rows_read(&mut self, found: &StageRowsRead, row: i32) {
        for read in found.reads() {
            if let (Some((top, _)), Some(planned)) = (
                read.find_rows_read_at(row),
                self.planned.get_mut(read.stage()),
            ) {
                planned.keep_rows_from(top);
            }
        }
    }

    // Makes the rows that are demanded, each as soon as all is made that it reads. A plan lacks rows if the search for them takes more
    // steps than any plan needs, and is refused.
    fn make_demanded_planned_rows(&mut self) -> Result<(), AllocError> {
        for _ in 0..self.left {
            let Some((stage, end)) = self.find_last_demand_of_planned_rows() else {
                return Ok(());
            };
            self.left = self.left.saturating_sub(1);
            let row = self.find_planned_rows(stage).next;
            if row >= end {
                let _ = self.demands.pop();
            } else if let Some(demand) = self.find_planned_rows_to_make_before(stage, row) {
                self.demands.push(demand)?;
            } else {
                self.make_planned_row(stage, row)?;
            }
        }
        Ok(())
    }

    // The last demand: a stage, and the row before which its rows are to be made.
    fn find_last_demand_of_planned_rows(&self) -> Option<(usize, i32)> {
        match self.demands.last() {
            Some(demand) => Some(*demand),
            None => None,
        }
    }

    // Rows that this row of a stage reads, if they are not made.
    fn find_planned_rows_to_make_before(&self, stage: usize, row: i32) -> Option<(usize, i32)> {
        for read in self.rows.get(stage)?.reads() {
            if let Some((_, bottom)) = read.find_rows_read_at(row) {
                if self.find_planned_rows(read.stage()).next <= bottom {
                    return Some((read.stage(), bottom.saturating_add(1)));
                }
            }
        }
        None
    }

    // Makes the next row of a stage, and keeps what it reads. The number of a stage that is too great is left out.
    fn make_planned_row(&mut self, stage: usize, row: i32) -> Result<(), AllocError> {
        let rows = self.rows;
        if let Some(found) = rows.get(stage) {
            self.keep_planned_rows_read(found, row);
        }
        if let Some(planned) = self.planned.get_mut(stage) {
            planned.make_row();
        }
        if let Ok(number) = u32::try_from(stage) {
            self.steps.push(PlanStep::Make(number))?;
        }
        Ok(())
    }

    // Keeps a row of the picture in all its planes.
    fn keep_output_rows(&mut self, row: usize) {
        for output in self.outputs {
            if let (Some(read), Some(planned)) = (
                self.rows.get(*output),
                self.planned.get_mut(*output),
            ) {
                planned.keep_rows_from(read.find_row_at_place(row));
            }
        }
    }

    // The steps, with the state of each stage at the start.
    fn into_row_plan(self, alloc: Global) -> Result<(RowPlan, RepeatedPlanSteps), AllocError> {
        let mut states = Vec::with_capacity(alloc, self.rows.len())?;
        for (read, planned) in self.rows.iter().zip(&self.planned) {
            states.push(planned.build_row_state(read.area()))?;
        }
        let plan = RowPlan {
            steps: self.steps,
            states,
        };
        Ok((plan, self.repeated))
    }
}
