#![tactic(auto)]
//! What the accumulators of a job have in their bins, row by row.

ghost use Rattle.std.specs.Prelude.{◌≡◌, ◌++◌, [], ◌∷◌, true, false, map, filter, Some, slice_get, All, IfOk, IfSome, IfNone, OnOk};
ghost use Rattle.job.specs.Kept.{pipeline_in};
ghost use Rattle.job.specs.Totals.{totals as totals_of};
ghost use Rattle.row_totals.specs.RowTotals.{is_summed};
ghost use Rattle.row_totals.specs.declared.row_total.RowTotal.{RowTotal as RowTotalNow};
ghost use Rattle.row_totals.specs.Spans.{stage_of_total, AreJoinedBy, IsFollowedBy, IsJoinedBy, IsTotalOfAll, IsTotalOfNone};

use crate::row_total::RowTotal;
use job::Job;
use std::alloc::{AllocError, Global};

/// What some accumulators of a job have in their bins.
#[derive(Drop)]
pub struct RowTotals<'a> {
    job: &'a Job,
    /// The totals, in the order in which the accumulators were named.
    pub totals: Vec<RowTotal<'a>>,
    ghost own: { All (λ total. total.job.now ≡ job.now) totals.items },
}

impl<'a> RowTotals<'a> {
    /// No row yet of the accumulators among these stages, from the row at this place on.
    ///
    /// # Errors
    ///
    /// Fails only where memory is refused.
    pub fn new(
        alloc: Global,
        job: &'a Job,
        stages: &[usize],
        first: usize,
    ) -> Result<RowTotals<'a>, AllocError>
        ensures job { IfOk result (λ totals. totals.job.now ≡ job.now) }
        ensures stages { IfOk result (λ totals. map stage_of_total totals.totals.items
            ≡ filter (is_summed (pipeline_in job.now)) stages.now) }
        ensures none { IfOk result (λ totals. All (IsTotalOfNone first) totals.totals.items) }
    {
        let mut totals = RowTotals {
            job,
            totals: Vec::new(alloc),
        };
        for stage in stages {
            totals.add_row_total(alloc, *stage, first)?;
        }
        Ok(totals)
    }

    // Adds an accumulator of which no row is there yet, from the one at this place on. A stage that is no accumulator is left out.
    fn add_row_total(&mut self, alloc: Global, stage: usize, first: usize) -> Result<(), AllocError>
        ensures job { self.new.job ≡ self.old.job }
        ensures stages { OnOk result (map stage_of_total self.new.totals.items
            ≡ map stage_of_total self.old.totals.items
            ++ filter (is_summed (pipeline_in self.old.job.now)) (stage ∷ [])) }
        ensures none { OnOk result (All (IsTotalOfNone first) self.old.totals.items
            → All (IsTotalOfNone first) self.new.totals.items) }
    {
        if let Some(total) = RowTotal::new(alloc, self.job, stage, first)? {
            self.totals.push(total)?;
        }
        Ok(())
    }

    /// Joins totals over the rows that follow, which were accumulated apart. False if one of them does not follow one of these.
    pub fn join_following_row_totals(&mut self, others: &RowTotals<'_>) -> bool
        requires { others.now.job.now ≡ self.old.job.now }
        ensures job { self.new.job ≡ self.old.job }
        ensures joined { result ≡ true
            → AreJoinedBy self.old.totals.items others.now.totals.items self.new.totals.items }
    {
        for place in 0..others.totals.len() {
            if !self.join_following_row_total(&others.totals[place]) {
                return false;
            }
        }
        true
    }

    /// Joins the total of one of these accumulators over the rows that follow, which were accumulated apart. False if it is not over
    /// those.
    pub fn join_following_row_total(&mut self, other: &RowTotal<'_>) -> bool
        requires { other.now.job.now ≡ self.old.job.now }
        ensures job { self.new.job ≡ self.old.job }
        ensures joined { result ≡ true
            → IsJoinedBy self.old.totals.items other.now self.new.totals.items }
        ensures apart { result ≡ false
            → All (λ total. ¬ (IsFollowedBy total other.now)) self.old.totals.items }
        ensures same { result ≡ false → self.new.totals ≡ self.old.totals }
    {
        let Some(place) = self.find_total_followed_by_row_total(other) else {
            return false;
        };
        self.totals[place].join_following_summed_rows(other);
        true
    }

    // The place of a total that is followed by another one.
    fn find_total_followed_by_row_total(&self, other: &RowTotal<'_>) -> Option<usize>
        ensures some { IfSome result (λ place. (total : RowTotalNow)
            × (slice_get self.now.totals.items place ≡ Some total) × IsFollowedBy total other.now) }
        ensures none { IfNone result
            (All (λ total. ¬ (IsFollowedBy total other.now)) self.now.totals.items) }
    {
        for place in 0..self.totals.len() {
            if self.totals[place].is_followed_by_row_total(other) {
                return Some(place);
            }
        }
        None
    }

    /// The bins of an accumulator, rising, if all its rows are there.
    pub fn borrow_bins_of_whole_total(&self, stage: usize) -> Option<&[i64]>
        ensures some { IfSome result
            (λ bins. bins.now ≡ totals_of (pipeline_in self.now.job.now) stage) }
        ensures none { IfNone result (All (λ total. total.stage ≡ stage → ¬ (IsTotalOfAll total))
            self.now.totals.items) }
    {
        for place in 0..self.totals.len() {
            let total = &self.totals[place];
            if total.summed_stage() == stage {
                if let Some(bins) = total.borrow_summed_bins_if_whole() {
                    return Some(bins);
                }
            }
        }
        None
    }
}
