#![tactic(auto)]
//! What an accumulator has in its bins, row by row.

ghost use Rattle.std.specs.Prelude.{◌≡◌, ◌<◌, ◌≤◌, ◌+◌, ◌-◌, ◌↔◌, ℕ, IsTrue, true, false, IfOk, IfSome, IfNone, OnOk};
ghost use Rattle.domains.specs.Span.{len_of};
ghost use Rattle.job.specs.Answers.{height_of};
ghost use Rattle.job.specs.Kept.{pipeline_in};
ghost use Rattle.job.specs.Totals.{totals};
ghost use Rattle.job.specs.Views.{stage_view};
ghost use Rattle.job.specs.WellFormed.{InDomainRange};
ghost use Rattle.row_totals.specs.RowTotals.{is_summed, rows_from, totals_from, IsRowRead, IsSummedBy, AreValues};

use domains::{Area, Span};
use job::{Accumulator, Body, Job, Stage};
use reductions::{AccumulatorBuffers, create_start_bins, join_into};
use std::alloc::{AllocError, Global};
use tile_eval::{RowSource, find_span_number_at_position};

/// What an accumulator has in its bins once some adjacent rows of its domain are there.
#[derive(Drop)]
pub struct RowTotal<'a> {
    job: &'a Job,
    stage: usize,
    // The first of these rows, counted from the first one of the domain.
    first: usize,
    // The row behind the last of them.
    next: usize,
    bins: Vec<i64>,
    buffers: AccumulatorBuffers,
    ghost summed: { is_summed (pipeline_in job.now) stage ≡ true },
    ghost order: { first ≤ next },
    ghost bins_are: { bins.items ≡ totals_from (pipeline_in job.now) stage first (next - first) },
}

// The accumulator of this number, and its stage.
fn find_accumulator_of_row_total(job: &Job, stage: usize) -> Option<(&Stage, &Accumulator)>
    ensures some { IfSome result
        (λ found. IsSummedBy (pipeline_in job.now) stage (stage_view found.0.now) found.1.now) }
    ensures summed { IfSome result (λ found. is_summed (pipeline_in job.now) stage ≡ true) }
    ensures none { IfNone result (is_summed (pipeline_in job.now) stage ≡ false) }
{
    let found = job.stage(stage)?;
    match found.body() {
        Body::Accumulator(accumulator) => Some((found, accumulator)),
        Body::Plane(_) | Body::Function(_) => None,
    }
}

// The area of `count` rows of a domain, from the row at this place on.
fn find_area_of_summed_rows(domain: &Area, first: usize, count: usize) -> Area
    requires rows { InDomainRange domain.now.rows }
    requires some { 0 < count }
    requires within { first + count ≤ len_of domain.now.rows }
    ensures { result ≡ rows_from domain.now first count }
{
    let top = find_span_number_at_position(&domain.rows, first as u32);
    let bottom = find_span_number_at_position(&domain.rows, (first + count - 1) as u32);
    let Some(rows) = Span::new(top, bottom) else {
        unreachable!();
    };
    Area {
        rows,
        cols: domain.cols,
    }
}

impl<'a> RowTotal<'a> {
    /// No row of an accumulator yet, from the one at this place on. None if the stage is no accumulator.
    ///
    /// # Errors
    ///
    /// Fails only where memory is refused.
    pub fn new(
        alloc: Global,
        job: &'a Job,
        stage: usize,
        first: usize,
    ) -> Result<Option<RowTotal<'a>>, AllocError>
        ensures job { IfOk result (λ found. IfSome found (λ total. total.job.now ≡ job.now)) }
        ensures stage { IfOk result (λ found. IfSome found (λ total. total.stage ≡ stage)) }
        ensures first { IfOk result (λ found. IfSome found (λ total. total.first ≡ first)) }
        ensures next { IfOk result (λ found. IfSome found (λ total. total.next ≡ first)) }
        ensures none { IfOk result
            (λ found. IfNone found (is_summed (pipeline_in job.now) stage ≡ false)) }
    {
        let Some((found, accumulator)) = find_accumulator_of_row_total(job, stage) else {
            return Ok(None);
        };
        let mut buffers = AccumulatorBuffers::new(alloc);
        buffers.grow_for_area(accumulator, found.domain())?;
        Ok(Some(RowTotal {
            job,
            stage,
            first,
            next: first,
            bins: create_start_bins(alloc, accumulator.fold(), accumulator.bins())?,
            buffers,
        }))
    }

    /// The number of its stage.
    pub fn summed_stage(&self) -> usize
        ensures { result ≡ self.now.stage }
    {
        self.stage
    }

    /// The row that is accumulated next.
    pub fn next_summed_row(&self) -> usize
        ensures { result ≡ self.now.next }
    {
        self.next
    }

    /// How many rows of the domain are not yet accumulated.
    pub fn count_summed_rows_left(&self) -> usize
        ensures { result ≡ height_of (pipeline_in self.now.job.now) self.now.stage - self.now.next }
    {
        match self.job.domain(self.stage) {
            Some(domain) => (domain.rows.len() as usize).saturating_sub(self.next),
            None => 0,
        }
    }

    /// Accumulates the next `count` rows of the domain, from a source that has all that is read there. It takes no memory that
    /// earlier rows did not take.
    ///
    /// # Errors
    ///
    /// Fails only where memory is refused.
    pub fn accumulate_next_summed_rows<S: RowSource>(
        &mut self,
        source: &S,
        count: usize,
    ) -> Result<(), AllocError>
        requires some { 0 < count }
        requires left { self.old.next + count ≤ height_of (pipeline_in self.old.job.now) self.old.stage }
        requires reads { (k : ℕ) → k < count → IsRowRead (S.has source.now)
            (pipeline_in self.old.job.now) self.old.stage (self.old.next + k) }
        requires right { AreValues (S.has source.now) (S.samples source.now)
            (pipeline_in self.old.job.now) }
        ensures job { self.new.job ≡ self.old.job }
        ensures stage { self.new.stage ≡ self.old.stage }
        ensures first { self.new.first ≡ self.old.first }
        ensures next { OnOk result (self.new.next ≡ self.old.next + count) }
    {
        let Some((found, accumulator)) = find_accumulator_of_row_total(self.job, self.stage) else {
            unreachable!();
        };
        let area = find_area_of_summed_rows(found.domain(), self.next, count);
        self.buffers.grow_for_area(accumulator, &area)?;
        self.buffers
            .accumulate_area_into_bins(source, accumulator, &area, &mut self.bins);
        self.next += count;
        Ok(())
    }

    /// Joins the totals over the rows that follow, which were accumulated apart.
    pub fn join_following_summed_rows(&mut self, others: &RowTotal<'_>)
        requires job { pipeline_in others.now.job.now ≡ pipeline_in self.old.job.now }
        requires stage { others.now.stage ≡ self.old.stage }
        requires follows { others.now.first ≡ self.old.next }
        ensures job { self.new.job ≡ self.old.job }
        ensures stage { self.new.stage ≡ self.old.stage }
        ensures first { self.new.first ≡ self.old.first }
        ensures next { self.new.next ≡ others.now.next }
    {
        let Some((_, accumulator)) = find_accumulator_of_row_total(self.job, self.stage) else {
            unreachable!();
        };
        join_into(accumulator.fold(), &mut self.bins, &others.bins);
        self.next = others.next;
    }

    /// Whether another total is of the same accumulator, and over the rows that follow.
    pub fn is_followed_by_row_total(&self, others: &RowTotal<'_>) -> bool
        ensures { IsTrue result ↔ (others.now.stage ≡ self.now.stage)
            × (others.now.first ≡ self.now.next) }
    {
        others.stage == self.stage && others.first == self.next
    }

    /// The bins, rising, if all rows of the domain are there.
    pub fn borrow_summed_bins_if_whole(&self) -> Option<&[i64]>
        ensures some { IfSome result (λ bins. bins.now
            ≡ totals (pipeline_in self.now.job.now) self.now.stage) }
        ensures none { IfNone result (self.now.first ≡ 0
            → ¬ (self.now.next ≡ height_of (pipeline_in self.now.job.now) self.now.stage)) }
    {
        let domain = self.job.domain(self.stage)?;
        if self.first == 0 && self.next == domain.rows.len() as usize {
            Some(&self.bins)
        } else {
            None
        }
    }
}
